//! The outcome of a visit of a watch.

/// What a visit of a watch did.
#[derive(Clone, Copy, Debug, PartialEq, Eq)]
pub(crate) enum Visit {
    /// The watch stays in its list.
    Stays,
    /// The watch moved to another list.
    Moves,
    /// The clause of this number is false.
    False(u64),
}
