//! The delivery of Done and Idle frames to a coordinator.

ghost use Rattle.std.specs.Prelude.{◌≡◌, ◌↔◌, IsTrue, None};
ghost use Rattle.frames.specs.declared.answer.Ending.TheVariants.{Decided};
ghost use Rattle.coordinator_core.specs.inner.PrivateCalls.{IsDoneClass};
ghost use Rattle.coordinator_core.specs.Coordinator.{DeliversFirstDone, DeliversDone, DeliversIdle, IsAwaited, IsStale};
ghost use Rattle.coordinator_core.specs.declared.job_state.Job.{Job};

use crate::coordinator::Coordinator;
use crate::job_state::Fixed;
use evidence::{Evidence, has_wrong_length};
use frames::{Attempt, Ending, Finding, WorkerNumber};
use lrat_check::Reaction;

/// The class of a Done frame, by what the coordinator has received for the job.
pub(crate) enum DoneClass {
    /// The Done is not of a job that the coordinator waits for.
    Unexpected,
    /// The Done is the first one of its job.
    FirstAnswer,
    /// This incarnation has sent a Done before.
    Repeated,
    /// Another incarnation has sent a Done before.
    OtherIncarnation,
}

impl Coordinator {
    /// Returns the class of a Done frame from this attempt: of no present job, the first answer of
    /// the job, a repeated one, or one of another incarnation of the worker.
    pub(crate) fn classify_done(&self, attempt: &Attempt) -> DoneClass
        ensures { IsDoneClass self.now attempt.now result }
    {
        if !self.is_deciding() || attempt.session != self.session() {
            return DoneClass::Unexpected;
        }
        let Some(job) = self.job_of(attempt.worker) else {
            return DoneClass::Unexpected;
        };
        if job.number != attempt.job {
            return DoneClass::Unexpected;
        }
        match &job.fixed {
            None => DoneClass::FirstAnswer,
            Some(fixed) if fixed.incarnation == attempt.incarnation => DoneClass::Repeated,
            Some(_) => DoneClass::OtherIncarnation,
        }
    }

    /// Takes a Done frame. If another incarnation of the worker has sent a Done of the job before,
    /// that evidence is lost with it, so the job's leaf is opened again.
    pub(crate) fn deliver_done(&mut self, attempt: &Attempt, ending: &Ending) -> Reaction
        ensures { DeliversDone self.old attempt.now ending.now result self.new }
    {
        match self.classify_done(attempt) {
            DoneClass::Unexpected => Reaction::Ignored,
            DoneClass::Repeated => Reaction::Ignored,
            DoneClass::FirstAnswer => self.answer(attempt, ending),
            DoneClass::OtherIncarnation => {
                self.lost(attempt.worker);
                Reaction::Taken
            }
        }
    }

    /// Takes the first Done of a job: splits the leaf if the search met its limit, or else fixes
    /// the evidence that it announces, whose bytes are to come.
    fn answer(&mut self, attempt: &Attempt, ending: &Ending) -> Reaction
        requires { (j : Job) × IsAwaited self.old attempt.now.session attempt.now.job attempt.now.worker j × (j.fixed ≡ None) }
        ensures { (j : Job) → IsAwaited self.old attempt.now.session attempt.now.job attempt.now.worker j → j.fixed ≡ None → DeliversFirstDone self.old attempt.now j ending.now result self.new }
    {
        match ending {
            Ending::Limit => self.deliver_limit(attempt.worker),
            Ending::Decided(finding) => self.answer_decided(attempt, finding),
        }
    }

    /// Takes the first Done of a job that announces evidence. If the length is wrong, the leaf is opened again (`Refused(2)`). If memory is
    /// refused, nothing is fixed.
    fn answer_decided(&mut self, attempt: &Attempt, finding: &Finding) -> Reaction
        requires { (j : Job) × IsAwaited self.old attempt.now.session attempt.now.job attempt.now.worker j × (j.fixed ≡ None) }
        ensures { (j : Job) → IsAwaited self.old attempt.now.session attempt.now.job attempt.now.worker j → j.fixed ≡ None → DeliversFirstDone self.old attempt.now j (Decided finding.now) result self.new }
    {
        if has_wrong_length(self.formula(), finding) {
            self.lost(attempt.worker);
            return Reaction::Refused(2);
        }
        let first = Fixed {
            incarnation: attempt.incarnation,
            evidence: Evidence::new(self.alloc(), *finding),
        };
        self.fix(attempt.worker, Some(first));
        match self.check_if_complete(attempt.worker) {
            Reaction::NoMemory => {
                self.fix(attempt.worker, None);
                Reaction::NoMemory
            }
            reaction => reaction,
        }
    }

    /// Tells whether the evidence of the worker's job was announced by another incarnation than
    /// this one. False if none was announced, or if the coordinator is not deciding.
    fn is_stale(&self, worker: WorkerNumber, incarnation: u64) -> bool
        ensures { IsTrue result ↔ ((j : Job) × IsStale self.now worker incarnation j) }
    {
        if !self.is_deciding() {
            return false;
        }
        match self.job_of(worker) {
            None => false,
            Some(job) => match &job.fixed {
                None => false,
                Some(fixed) => fixed.incarnation != incarnation,
            },
        }
    }

    /// Takes an Idle frame. An Idle of another incarnation than the one that announced the job's
    /// evidence says that the worker has restarted, so the job's leaf is opened again; else the
    /// Idle is ignored.
    pub(crate) fn deliver_idle(&mut self, worker: WorkerNumber, incarnation: u64) -> Reaction
        ensures { DeliversIdle self.old worker incarnation result self.new }
    {
        if !self.is_stale(worker, incarnation) {
            return Reaction::Ignored;
        }
        self.lost(worker);
        Reaction::Taken
    }
}
