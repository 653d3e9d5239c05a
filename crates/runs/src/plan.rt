//! The settings of a coordinator's run and of a worker's run.

use frames::WorkerNumber;

/// The settings of a coordinator's run.
#[derive(Clone, Copy, Debug, PartialEq, Eq)]
pub struct CoordinatorPlan {
    /// How many workers there are, from 1 to 64.
    pub workers: u32,
    /// The most lemmas that a worker learns under a leaf before the leaf is split.
    pub limit: u64,
    /// The number of the coordinator's session.
    pub session: u64,
    /// How many variables are defined, from 0 to 64.
    pub defs: u32,
}

/// The settings of a worker's run.
#[derive(Clone, Copy, Debug, PartialEq, Eq)]
pub struct WorkerPlan {
    /// The worker's number, from 1 to 64.
    pub number: WorkerNumber,
    /// The worker's incarnation, which no other worker of that number has had.
    pub incarnation: u64,
    /// How many variables are defined, from 0 to 64.
    pub defs: u32,
    /// What the worker does first in a round.
    pub order: Order,
}

/// What a worker does first in a round.
#[derive(Clone, Copy, Debug, PartialEq, Eq)]
pub enum Order {
    /// The worker works, and then sends a frame.
    WorkThenSend,
    /// The worker sends a frame, and then works: the coordinator has the frame at once, and gives tasks to others while the worker works.
    SendThenWork,
}
