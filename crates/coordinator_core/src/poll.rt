//! The frame that a coordinator sends to a worker when it is polled.

ghost use Rattle.std.specs.Prelude.{◌≡◌, ◌≢◌, ◌<◌, ◌≤◌, ◌^◌, ◌↔◌, IsTrue, length, take, drop, map, nat_lt, position, Some, None, IfOk, OnErr};
ghost use Rattle.lrat_check.specs.declared.verdict.Verdict.TheVariants.{Nothing};
ghost use Rattle.lrat_check.specs.Verdicts.{Right};
ghost use Rattle.dimacs.specs.logic.Cnf.{IsFormula};
ghost use Rattle.frames.specs.declared.answer.Answer.TheVariants as answers;
ghost use Rattle.frames.specs.declared.frame.Frame.TheVariants.{Task};
ghost use Rattle.lrat_check.specs.Judgement.{value_byte};
ghost use Rattle.evidence.specs.Evidence.{answer_in, bytes_in, finding_in};
ghost use Rattle.evidence.specs.Events.{Polled, chunk, given_by};
ghost use Rattle.coordinator_core.specs.inner.PrivateCalls.{IsPollResult};
ghost use Rattle.coordinator_core.specs.Coordinator.{CoordinatorStep, IsWorker, cube_at, fixed_poll, is_open, job_at, job_poll, leaf_poll, stuck_poll, verdict_poll, want_at};
ghost use Rattle.coordinator_core.specs.declared.job_state.Job.{Job};

use crate::coordinator::Coordinator;
use crate::job_state::Job;
use crate::want_delivery::length_of;
use evidence::JobName;
use frames::{Answer, Chunk, Cube, Finding, Frame, ProofLength, WorkerNumber};
use lrat_check::Verdict;
use std::alloc::{AllocError, Global};

/// Returns truth values as bytes, 1 for true and 0 for false.
fn value_bytes(alloc: Global, values: &[bool]) -> Result<Vec<u8>, AllocError>
    ensures { IfOk result (λ v. v.items ≡ map value_byte values.now) }
{
    values.iter().map(|v| u8::from(*v)).collect(alloc)
}

/// Returns the values that one Part frame carries: at most 4,000, from index `offset` on.
fn part_of(values: &[bool], offset: usize) -> &[bool]
    requires { offset < length values.now }
    ensures part { result.now ≡ take chunk (drop offset values.now) }
    ensures few { length result.now ≤ 4000 }
{
    let (_, rest) = values.split_at(offset);
    let count = Chunk::LONGEST.min(rest.len());
    let (part, _) = rest.split_at(count);
    part
}

/// Returns the bytes of a verdict's evidence that one Part frame carries: at most 4,000, from
/// `offset` on. Without a verdict there is no such byte, and no call.
fn part(alloc: Global, verdict: &Verdict, offset: u32) -> Result<Chunk, AllocError>
    requires { offset < length (bytes_in verdict.now) }
    ensures { IfOk result (λ c. c ≡ take chunk (drop offset (bytes_in verdict.now))) }
{
    match verdict {
        Verdict::Nothing => Err(AllocError),
        Verdict::Model(values) => {
            let bytes = value_bytes(alloc, part_of(values.values(), offset as usize))?;
            Ok(Chunk::from_vec(bytes))
        }
        Verdict::Proof(text) => {
            let bytes = text.read(alloc, offset as usize, Chunk::LONGEST)?;
            Ok(Chunk::from_vec(bytes))
        }
    }
}

/// Returns the answer that a verdict is evidence for, with the length of the evidence in bytes.
fn finding(verdict: &Verdict) -> Finding
    requires short { length (bytes_in verdict.now) < 2 ^ 32 }
    requires some { answer_in verdict.now ≡ answers.Refuted → 1 ≤ length (bytes_in verdict.now) }
    ensures { result ≡ finding_in verdict.now }
{
    let count = length_of(verdict) as u32;
    match verdict {
        Verdict::Model(_) => Finding::Assignment { length: count },
        _ => Finding::Refuted {
            length: ProofLength::new(count),
        },
    }
}

/// Returns the answer that a verdict is evidence for.
fn answer(verdict: &Verdict) -> Answer
    ensures { result ≡ answer_in verdict.now }
{
    match verdict {
        Verdict::Model(_) => Answer::Assignment,
        _ => Answer::Refuted,
    }
}

impl Coordinator {
    /// Tells whether a verdict is held.
    fn is_decided(&self) -> bool
        ensures { IsTrue result ↔ (self.now.verdict ≢ Nothing) }
    {
        !matches!(&self.verdict, Verdict::Nothing)
    }

    /// Returns the next frame to a worker. If a verdict is held: Part from the noted offset, that of the last Want that was taken from this
    /// worker, which is then cleared; or Verdict, if no offset is noted. Else Rest, if the coordinator is stuck. Else, if the worker has a
    /// job: Fetch for the next bytes of its evidence, if that was announced, or its Task again. Else Task for the leftmost open leaf, if
    /// there is one and job numbers are left. Else Rest. If memory is refused, the coordinator is unchanged.
    pub fn poll(&mut self, worker: WorkerNumber) -> Result<Frame, AllocError>
        requires { IsWorker self.old worker }
        ensures step { CoordinatorStep self.old (Polled worker) (given_by result) self.new }
    {
        if self.is_decided() {
            return self.poll_verdict(worker);
        }
        if self.stuck() {
            return Ok(Frame::Rest);
        }
        if let Some(job) = self.job_of(worker) {
            return self.frame_of(worker, job);
        }
        self.poll_leaf(worker)
    }

    /// Returns Part of the verdict from the worker's noted offset, which is then cleared; or Verdict, if no offset is noted.
    fn poll_verdict(&mut self, worker: WorkerNumber) -> Result<Frame, AllocError>
        requires worker { IsWorker self.old worker }
        requires decided { self.old.verdict ≢ Nothing }
        ensures { IsPollResult self.old (verdict_poll self.old worker (want_at self.old worker)) result self.new }
    {
        let slot = worker.number() as usize - 1;
        let session = self.session;
        match self.wants[slot] {
            None => Ok(Frame::Verdict {
                session,
                finding: finding(&self.verdict),
            }),
            Some(offset) => {
                let bytes = part(self.alloc, &self.verdict, offset)?;
                self.wants[slot] = None;
                Ok(Frame::Part {
                    session,
                    answer: answer(&self.verdict),
                    offset,
                    bytes,
                })
            }
        }
    }

    /// Returns the frame to a worker that has a job: Fetch for the next bytes of its evidence if
    /// that was announced, or else its Task again, since the first one may be lost.
    fn frame_of(&self, worker: WorkerNumber, job: &Job) -> Result<Frame, AllocError>
        requires { job_at self.now worker ≡ Some job.now }
        ensures { IsPollResult self.now (fixed_poll self.now worker job.now job.now.fixed) result self.now }
    {
        match &job.fixed {
            Some(fixed) => {
                // `length` ensures that the announced length has 32 bits, and the bytes so far are no more.
                let _ = fixed.evidence.finding.length();
                let name = JobName {
                    session: self.session,
                    job: job.number,
                };
                Ok(Frame::Fetch {
                    attempt: name.attempt(worker, fixed.incarnation),
                    offset: fixed.evidence.bytes.len() as u32,
                })
            }
            None => self.task(job.number, job.leaf),
        }
    }

    /// Makes the Task frame of the job with this number and leaf: the leaf's cube, and the limit of
    /// lemmas.
    fn task(&self, number: u64, leaf: usize) -> Result<Frame, AllocError>
        requires { leaf < length self.now.tree }
        ensures given { IfOk result (λ f. f ≡ Task self.now.session number self.now.limit (cube_at self.now leaf)) }
        ensures grows { OnErr result (0 < length (cube_at self.now leaf)) }
        ensures fits { number < 2 ^ 64 }
    {
        let literals = self.tree.cube(leaf);
        let cube = if literals.is_empty() {
            Cube::new(self.alloc)
        } else {
            Cube::from_slice(self.alloc, literals)?
        };
        Ok(Frame::Task {
            session: self.session,
            job: number,
            limit: self.limit,
            cube,
        })
    }

    /// Gives the leftmost open leaf to a worker that has no job, as a new job, and returns its Task; Rest if no leaf is open or no job
    /// number is left.
    fn poll_leaf(&mut self, worker: WorkerNumber) -> Result<Frame, AllocError>
        requires worker { IsWorker self.old worker }
        requires free { job_at self.old worker ≡ None }
        ensures { IsPollResult self.old (leaf_poll self.old worker (nat_lt self.old.next (2 ^ 64)) (position is_open self.old.leaves)) result self.new }
    {
        let Some(number) = self.next else {
            return Ok(Frame::Rest);
        };
        let Some(leaf) = self.leaves.first_open() else {
            return Ok(Frame::Rest);
        };
        let task = self.task(number, leaf)?;
        let slot = worker.number() as usize - 1;
        self.leaves.give(leaf, worker);
        self.jobs[slot] = Some(Job {
            number,
            leaf,
            fixed: None,
        });
        self.next = number.checked_add(1);
        Ok(task)
    }
}
