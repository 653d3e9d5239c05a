//! The events of a closed schedule.

/// An event of a closed schedule. Node 0 is the coordinator, and worker w, counted from 1, is node w.
#[derive(Clone, Copy, Debug, PartialEq, Eq)]
pub enum ClosedEvent {
    /// Deliver to a node a frame of the list of all frames that polls have returned; `place` is its index in the list, counted from 0.
    Deliver { node: usize, place: usize },
    /// Let a worker search; the coordinator ignores it.
    Work { node: usize },
    /// Poll a node for its next frame, which is appended to the list. The coordinator is polled for the frame to `worker`, a number that a
    /// worker ignores.
    Poll { node: usize, worker: u32 },
    /// Restart a node under a number that no node has used: a worker's incarnation, or the coordinator's session.
    Restart { node: usize, number: u64 },
}
