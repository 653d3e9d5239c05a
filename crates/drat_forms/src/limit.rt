//! The limit on a proof's variables.

ghost use Rattle.std.specs.Prelude.{◌≤◌};

/// The greatest variable that a proof may have.
#[derive(Clone, Copy)]
pub(crate) struct Limit {
    /// The variable's number: at most 199,999,999, so that the code of a literal fits in 32 bits.
    pub(crate) most: u32,
    ghost bounded: { most ≤ 199999999 },
}
