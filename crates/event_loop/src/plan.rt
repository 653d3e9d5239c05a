//! The settings of a coordinator's run.

/// The settings of a coordinator's run.
#[derive(Clone, Copy, Debug, PartialEq, Eq)]
pub struct Plan {
    /// The highest number that a worker may have, from 1 to 64. Workers are numbered from 1.
    pub workers: u32,
    /// The most lemmas that a worker learns under a leaf before the leaf is split.
    pub limit: u64,
    /// The number of the coordinator's session.
    pub session: u64,
    /// How many variables are defined in addition to those of the formula, from 0 to 64.
    pub defs: u32,
    /// The timeout of a task in ticks, which counts only while another worker is idle. A run that has no connection for as many ticks ends.
    /// `None` is no timeout.
    pub patience: Option<u64>,
}
