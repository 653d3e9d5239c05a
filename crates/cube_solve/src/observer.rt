//! Who is shown how far a search has come.

/// What a search has done so far.
#[derive(Clone, Copy, Debug, PartialEq, Eq)]
pub struct Counts {
    /// The conflicts, each of which gave a lemma. The one at which the search ends is not counted.
    pub conflicts: u64,
    /// The literals that were decided.
    pub decisions: u64,
    /// The literals that propagation made true.
    pub propagations: u64,
    /// The restarts, without those by which a phase begins.
    pub restarts: u64,
    /// How often lemmas were deleted.
    pub reductions: u64,
    /// The phases, focused and stable ones, with the present one.
    pub phases: u64,
    /// The live lemmas.
    pub lemmas: u64,
    /// The variables that have a value at level 0.
    pub fixed: u64,
    /// The bytes of the log, as text.
    pub bytes: u64,
}

/// Who is shown the counts of a search, after each 1,000 conflicts and at the end. Nothing comes back, so it changes neither the outcome
/// nor the log.
pub trait Observer {
    /// Takes note of the counts so far.
    fn see(&mut self, counts: &Counts);
}

/// An observer that takes note of nothing.
#[derive(Clone, Copy, Debug, PartialEq, Eq)]
pub struct Unobserved;

impl Observer for Unobserved {
    /// Takes note of nothing.
    fn see(&mut self, _counts: &Counts) {}
}
