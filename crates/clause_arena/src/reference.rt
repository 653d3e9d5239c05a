//! A reference to a live clause.

ghost use Rattle.std.specs.Prelude.{◌≡◌};

/// A reference to a live clause. It is valid until the clause is removed or `compact` moves it.
#[derive(Clone, Copy, Debug, PartialEq, Eq)]
pub struct Ref {
    /// The clause's number.
    pub(crate) number: u64,
    /// The offset of the clause: the index of its first literal in the arena's vector.
    pub(crate) place: u32,
    /// The number of the clause's literals.
    pub(crate) len: u32,
}

impl Ref {
    /// The number of the clause.
    #[inline(always)]
    pub fn number(self) -> u64
        ensures { result ≡ self.number }
    {
        self.number
    }
}
