//! The slots of workers: each has a job or none.

ghost use Rattle.std.specs.Prelude.{◌≡◌, ◌-◌, OnSome, IfSome, MatchOption, None, Some};
ghost use Rattle.evidence.specs.Events.{Lost, Silent};
ghost use Rattle.coordinator_core.specs.Coordinator.{CoordinatorStep, IsWorker, job_at, with_job};
ghost use Rattle.coordinator_core.specs.Invariant.{IsJobAt};
ghost use Rattle.coordinator_core.specs.declared.job_state.Job.{Job};

use crate::coordinator::Coordinator;
use crate::job_state::Job;
use frames::WorkerNumber;

impl Coordinator {
    /// Returns the job of a worker; `None` if it has none.
    pub(crate) fn job_of(&self, worker: WorkerNumber) -> Option<&Job>
        ensures { MatchOption result (job_at self.now worker ≡ None) (λ j. job_at self.now worker ≡ Some j.now) }
    {
        let slot = worker.number() as usize - 1;
        if slot >= self.jobs.len() {
            return None;
        }
        self.jobs[slot].as_ref()
    }

    /// Returns the index of the leaf of a worker's job; `None` if it has no job.
    pub(crate) fn leaf_of(&self, worker: WorkerNumber) -> Option<usize>
        ensures { MatchOption result (job_at self.now worker ≡ None) (λ leaf. (j : Job) × (job_at self.now worker ≡ Some j) × (j.leaf ≡ leaf)) }
    {
        match self.job_of(worker) {
            None => None,
            Some(job) => Some(job.leaf),
        }
    }

    /// Takes the job out of a worker's slot, to change it and put it back; `None` if there is none.
    pub(crate) fn take_job(&mut self, worker: WorkerNumber) -> Option<Job>
        ensures job { result ≡ job_at self.old worker }
        ensures known { OnSome result (IsWorker self.new worker) }
        ensures fair { IfSome result (λ j. IsJobAt self.new.leaves (worker - 1) j) }
        ensures now { self.new ≡ with_job self.old worker None }
    {
        let slot = worker.number() as usize - 1;
        if slot >= self.jobs.len() {
            return None;
        }
        self.jobs[slot].take()
    }

    /// Puts a job, whose leaf is given to this worker, into the worker's slot.
    pub(crate) fn put_job(&mut self, worker: WorkerNumber, job: Job)
        requires worker { IsWorker self.old worker }
        requires job { IsJobAt self.old.leaves (worker - 1) job }
        ensures { self.new ≡ with_job self.old worker (Some job) }
    {
        let slot = worker.number() as usize - 1;
        self.jobs[slot] = Some(job);
    }

    /// Notes that the connection to a worker is lost: the leaf of its job, if it has one, is opened
    /// again. It takes no memory.
    pub fn lost(&mut self, worker: WorkerNumber)
        ensures step { CoordinatorStep self.old (Lost worker) Silent self.new }
    {
        let Some(leaf) = self.leaf_of(worker) else {
            return;
        };
        let slot = worker.number() as usize - 1;
        self.jobs[slot] = None;
        self.leaves.open(leaf);
    }
}
