//! The limit of the variables of a proof.

ghost use Rattle.std.specs.Prelude.{◌≤◌};

/// The greatest variable that a proof may have: at most 199,999,999, so that the code of a literal fits 32 bits.
#[derive(Clone, Copy)]
pub(crate) struct Limit {
    pub(crate) most: u32,
    ghost bounded: { most ≤ 199999999 },
}
