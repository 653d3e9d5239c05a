//! The progress of a run.

ghost use Rattle.std.specs.Prelude.{◌≡◌, ◌-◌};

/// The progress of a run, in leaves of its tree.
#[derive(Clone, Copy, Debug, PartialEq, Eq)]
pub struct Progress {
    /// The number of leaves that are closed.
    pub closed: usize,
    /// The number of leaves that a worker has.
    pub given: usize,
    /// The number of leaves that wait for a worker.
    pub waiting: usize,
    /// The number of leaves that were cut in two.
    pub split: usize,
}

impl Progress {
    /// The progress of a tree that began with `planted` leaves and has `leaves` now, of which `closed` are closed and `given` have a
    /// worker.
    pub fn of(planted: usize, leaves: usize, closed: usize, given: usize) -> Progress
        ensures closed { result.closed ≡ closed }
        ensures given { result.given ≡ given }
        ensures waiting { result.waiting ≡ leaves - closed - given }
        ensures split { result.split ≡ leaves - planted }
    {
        Progress {
            closed,
            given,
            waiting: leaves.saturating_sub(closed).saturating_sub(given),
            split: leaves.saturating_sub(planted),
        }
    }
}
