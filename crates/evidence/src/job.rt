//! Jobs: the tasks that a coordinator gives to workers, by session and number.

ghost use Rattle.std.specs.Prelude.{◌≡◌, IsTrue, ◌↔◌};
ghost use Rattle.evidence.specs.Jobs.{IsBefore, name_of, attempt_at};

use frames::{Attempt, WorkerNumber};

/// The name of a job. A session is one coordinator between two of its restarts. Within a session jobs are numbered from 1.
#[derive(Clone, Copy, Debug, PartialEq, Eq)]
pub struct JobName {
    pub session: u64,
    pub job: u64,
}

impl JobName {
    /// Returns the name of an attempt's job.
    pub fn of(attempt: &Attempt) -> JobName
        ensures { result ≡ name_of attempt.now }
    {
        JobName {
            session: attempt.session,
            job: attempt.job,
        }
    }

    /// Returns the attempt at this job by this worker in this incarnation.
    pub fn attempt(self, worker: WorkerNumber, incarnation: u64) -> Attempt
        ensures { result ≡ attempt_at self worker incarnation }
    {
        Attempt {
            session: self.session,
            job: self.job,
            worker,
            incarnation,
        }
    }

    /// Tells whether this job is earlier than `other`: sessions are compared first, then numbers.
    pub fn is_before(self, other: JobName) -> bool
        ensures { IsTrue result ↔ IsBefore self other }
    {
        self.session < other.session || self.session == other.session && self.job < other.job
    }
}
