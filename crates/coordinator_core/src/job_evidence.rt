//! The evidence of a job: its bytes are received in Pieces, and checked when it is complete.

ghost use Rattle.std.specs.Prelude.{◌≡◌, ◌≢◌, ◌+◌, ◌≤◌, ◌↔◌, ℕ, List, IsTrue, length, take, true, Some, None, OnOk, OnErr};
ghost use Rattle.frames.specs.Answers.{answer_of, length_of};
ghost use Rattle.dimacs.specs.logic.Cnf.{IsFormula};
ghost use Rattle.lrat_check.specs.Judgement.{AreValuesOf, Judges};
ghost use Rattle.frames.specs.declared.answer.Answer.TheVariants as answers;
ghost use Rattle.evidence.specs.Evidence.{ComeNext, IsComplete, with_bytes};
ghost use Rattle.coordinator_core.specs.inner.PrivateCalls.{IsFixed, HasFixed, IsWhole, fixed_cut_to, fixed_with_more};
ghost use Rattle.coordinator_core.specs.Coordinator.{DeliversPiece, CompletesAssignment, ReceivesJobEvidence, IsNextPiece, with_fixed, job_at, with_job};
ghost use Rattle.coordinator_core.specs.Invariant.{FitsFixed};
ghost use Rattle.coordinator_core.specs.declared.job_state.Fixed.{Fixed};
ghost use Rattle.coordinator_core.specs.declared.job_state.Job.{Job};

use crate::coordinator::Coordinator;
use crate::job_state::{Fixed, Job};
use frames::{Answer, Attempt, Chunk, WorkerNumber};
use lrat_check::{Judged, Reaction, judge_values};
use packed_text::PackedText;
use std::alloc::AllocError;

impl Coordinator {
    /// Shares the complete blocks of the evidence of the worker's job with `found`, the text from which a worker in the same process has
    /// sent that evidence, so that its bytes are in memory once. If this is called after each frame, all blocks are shared. Nothing that a
    /// contract names changes. It takes no memory.
    pub fn share(&mut self, worker: WorkerNumber, found: &PackedText)
        ensures { self.new ≡ self.old }
    {
        if let Some(mut job) = self.take_job(worker) {
            job.share(found);
            self.put_job(worker, job);
        }
    }

    /// Tells whether a Piece frame of this attempt brings the next bytes: `count` bytes from
    /// `offset` on, which follow those received so far of the evidence that the attempt announced.
    fn comes_next(&self, attempt: &Attempt, offset: u32, count: usize) -> bool
        requires { count ≤ 4000 }
        ensures { (more : List ℕ) → length more ≡ count → IsTrue result ↔ ((j : Job) × (x : Fixed) × IsNextPiece self.now attempt.now offset more j x) }
    {
        if !self.is_deciding() || attempt.session != self.session() {
            return false;
        }
        match self.job_of(attempt.worker) {
            None => false,
            Some(job) => {
                job.number == attempt.job && job.comes_next(attempt.incarnation, offset, count)
            }
        }
    }

    /// Sets what is fixed of the worker's job, the incarnation and the announced evidence; `None`
    /// takes it back.
    pub(crate) fn fix(&mut self, worker: WorkerNumber, fixed: Option<Fixed>)
        requires fits { FitsFixed fixed }
        ensures { (j : Job) → job_at self.old worker ≡ Some j → self.new ≡ with_job self.old worker (Some (record j { fixed = fixed })) }
    {
        if let Some(mut job) = self.take_job(worker) {
            job.fixed = fixed;
            self.put_job(worker, job);
        }
    }

    /// Appends bytes to the evidence of the worker's job. If memory is refused, nothing changes.
    fn append_bytes(&mut self, worker: WorkerNumber, more: &[u8]) -> Result<(), AllocError>
        requires fits { (j : Job) (x : Fixed) → job_at self.old worker ≡ Some j → j.fixed ≡ Some x → length x.evidence.bytes + length more.now ≤ length_of x.evidence.finding }
        ensures ok { OnOk result ((j : Job) → job_at self.old worker ≡ Some j → self.new ≡ with_job self.old worker (Some (record j { fixed = fixed_with_more j.fixed more.now }))) }
        ensures err { OnErr result (self.new ≡ self.old) }
    {
        let Some(mut job) = self.take_job(worker) else {
            return Ok(());
        };
        let grown = job.extend(more);
        self.put_job(worker, job);
        grown
    }

    /// Truncates the evidence of the worker's job to its first `count` bytes, to undo an append if
    /// memory is refused after it.
    fn shorten(&mut self, worker: WorkerNumber, count: usize)
        ensures { (j : Job) → job_at self.old worker ≡ Some j → self.new ≡ with_job self.old worker (Some (record j { fixed = fixed_cut_to count j.fixed })) }
    {
        if let Some(mut job) = self.take_job(worker) {
            job.shorten(count);
            self.put_job(worker, job);
        }
    }

    /// Delivers a Piece: appends its bytes to the evidence of its job, and checks the evidence if it is then complete. Ignored if the bytes
    /// do not come next. After `NoMemory` the coordinator is unchanged.
    pub(crate) fn deliver_piece(
        &mut self,
        attempt: &Attempt,
        offset: u32,
        bytes: &Chunk,
    ) -> Reaction
        ensures { DeliversPiece self.old attempt.now offset bytes.now result self.new }
    {
        if !self.comes_next(attempt, offset, bytes.len()) {
            return Reaction::Ignored;
        }
        if self.append_bytes(attempt.worker, bytes.as_slice()).is_err() {
            return Reaction::NoMemory;
        }
        match self.check_if_complete(attempt.worker) {
            Reaction::NoMemory => {
                self.shorten(attempt.worker, offset as usize);
                Reaction::NoMemory
            }
            reaction => reaction,
        }
    }

    /// Returns which answer the complete evidence of the worker's job is for; `None` if the
    /// evidence is incomplete.
    fn whole(&self, worker: WorkerNumber) -> Option<Answer>
        ensures { (j : Job) (x : Fixed) → IsFixed self.now worker j x → IsWhole x result }
    {
        match self.job_of(worker) {
            None => None,
            Some(job) => job.whole(),
        }
    }

    /// Checks the evidence of the worker's job if it is complete; else the reaction is `Taken`.
    pub(crate) fn check_if_complete(&mut self, worker: WorkerNumber) -> Reaction
        requires { HasFixed self.old worker }
        ensures { (j : Job) (x : Fixed) → IsFixed self.old worker j x → ReceivesJobEvidence self.old worker j x result self.new }
    {
        match self.whole(worker) {
            None => Reaction::Taken,
            Some(Answer::Refuted) => self.complete_fragment(worker),
            Some(Answer::Assignment) => self.complete_assignment(worker),
        }
    }

    /// Checks the complete assignment of the worker's job against the formula.
    fn check_assignment(&self, worker: WorkerNumber) -> Judged
        ensures judged { (j : Job) (x : Fixed) → IsFixed self.now worker j x → Judges self.now.formula (AreValuesOf self.now.formula x.evidence.bytes) result }
        ensures formula { IsFormula self.now.formula }
    {
        let _ = self.formula.vars(); // ensures that the formula is within its limits
        match self.job_of(worker) {
            None => Judged::NoMemory,
            Some(job) => match &job.fixed {
                None => Judged::NoMemory,
                Some(fixed) => match fixed.evidence.bytes.as_plain() {
                    Some(values) => judge_values(self.alloc(), self.formula(), values),
                    // Packed bytes are lines of text, and no byte of an assignment is a character of a line.
                    None => Judged::Wrong,
                },
            },
        }
    }

    /// Takes the complete assignment of the worker's job as the verdict. If it does not satisfy the formula, the leaf is opened again
    /// (`Refused(2)`).
    fn complete_assignment(&mut self, worker: WorkerNumber) -> Reaction
        requires whole { (j : Job) × (x : Fixed) × IsFixed self.old worker j x × IsComplete x.evidence × (answer_of x.evidence.finding ≡ answers.Assignment) }
        ensures { (j : Job) (x : Fixed) → IsFixed self.old worker j x → ReceivesJobEvidence self.old worker j x result self.new }
    {
        match self.check_assignment(worker) {
            Judged::Right(verdict) => {
                self.decide(verdict);
                Reaction::Verdict
            }
            Judged::Wrong => {
                self.lost(worker);
                Reaction::Refused(2)
            }
            Judged::NoMemory => Reaction::NoMemory,
        }
    }
}
