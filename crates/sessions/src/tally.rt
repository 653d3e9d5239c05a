//! How many answers of each kind a session has.

/// How many queries of a session were answered by a model, by a core, and by neither.
#[derive(Clone, Copy, Debug, PartialEq, Eq)]
pub struct Tally {
    /// How many queries were answered by a model.
    pub satisfied: u64,
    /// How many queries were answered by a core.
    pub failed: u64,
    /// How many queries were answered by neither.
    pub unknown: u64,
}
