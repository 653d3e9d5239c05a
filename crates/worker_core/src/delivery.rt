//! The delivery of a frame to a worker.

ghost use Rattle.std.specs.Prelude.{◌≡◌, ◌<◌, length, IsTrue, ◌↔◌, OnErr, IfOk, Some};
ghost use Rattle.evidence.specs.Events.{Delivered, Reacted};
ghost use Rattle.evidence.specs.Jobs.{IsLater, IsOverBase};
ghost use Rattle.worker_core.specs.declared.candidate.Candidate.{Candidate};
ghost use Rattle.worker_core.specs.Worker.{DeliversTask, DeliversFetch, DeliversVerdict, DeliversPart, IsNewVerdict, WorkerStep};

use crate::candidate::Candidate;
use crate::candidate_check::{CandidateCheck, check_candidate, collect, is_next_part};
use crate::work::Work;
use crate::worker::Worker;
use cube_split::base_or;
use dimacs::{Base, Lit};
use evidence::{Evidence, JobName, has_wrong_length};
use frames::{Answer, Attempt, Chunk, Cube, Finding, Frame};
use lrat_check::{Reaction, Verdict};
use std::alloc::{AllocError, Global};

impl Worker {
    /// Delivers a frame: Task, Fetch, Verdict or Part. Kinds that are sent to a coordinator are ignored. After `NoMemory` the worker is
    /// unchanged.
    pub fn deliver(&mut self, frame: &Frame) -> Reaction
        ensures step { WorkerStep self.old (Delivered frame.now) (Reacted result) self.new }
    {
        match frame {
            Frame::Task {
                session,
                job,
                limit,
                cube,
            } => {
                let name = JobName {
                    session: *session,
                    job: *job,
                };
                self.deliver_task(name, *limit, cube)
            }
            Frame::Fetch { attempt, offset } => self.deliver_fetch(attempt, *offset),
            Frame::Verdict { session, finding } => self.deliver_verdict(*session, *finding),
            Frame::Part {
                session,
                answer,
                offset,
                bytes,
            } => self.deliver_part(*session, *answer, *offset, bytes),
            Frame::Done { .. }
            | Frame::Piece { .. }
            | Frame::Want { .. }
            | Frame::Idle { .. }
            | Frame::Rest => Reaction::Ignored,
        }
    }

    /// Takes the task of a Task frame if its job is later than the last one taken, so that a
    /// delayed or repeated frame is ignored. `Refused(3)` if a variable of the cube is not one of
    /// the base.
    fn deliver_task(&mut self, name: JobName, limit: u64, cube: &Cube) -> Reaction
        ensures { DeliversTask self.old name limit cube.now result self.new }
    {
        if !is_later(self.last, name) {
            return Reaction::Ignored;
        }
        if !is_over_base(base_or(&self.base, &self.formula), cube.as_slice()) {
            return Reaction::Refused(3);
        }
        let Ok(cube) = copy_of(self.alloc, cube) else {
            return Reaction::NoMemory;
        };
        self.last = Some(name);
        self.work = Work::Pending { name, cube, limit };
        Reaction::Taken
    }

    /// Takes a Fetch frame: notes the offset from which the next poll sends a Piece. Ignored if it
    /// is not for the worker's own attempt, or if the kept evidence has no byte there.
    fn deliver_fetch(&mut self, attempt: &Attempt, offset: u32) -> Reaction
        ensures { DeliversFetch self.old attempt.now offset result self.new }
    {
        if attempt.worker.number() != self.number.number()
            || attempt.incarnation != self.incarnation
        {
            return Reaction::Ignored;
        }
        let Work::Found {
            name,
            bytes,
            noted,
            ..
        } = &mut self.work
        else {
            return Reaction::Ignored;
        };
        if name.session != attempt.session
            || name.job != attempt.job
            || offset as usize >= bytes.len()
        {
            return Reaction::Ignored;
        }
        *noted = Some(offset);
        Reaction::Taken
    }

    /// Takes an announced verdict as the candidate. Ignored if a verdict is held or the present candidate is of the same or a later
    /// session; `Refused(2)` if the verdict is an assignment of a wrong length.
    fn deliver_verdict(&mut self, session: u64, finding: Finding) -> Reaction
        ensures { DeliversVerdict self.old session finding result self.new }
    {
        if !self.is_new_verdict(session) {
            return Reaction::Ignored;
        }
        if has_wrong_length(&self.formula, &finding) {
            return Reaction::Refused(2);
        }
        let candidate = Candidate {
            session,
            evidence: Evidence::new(self.alloc, finding),
        };
        match check_candidate(self.alloc, &self.formula, candidate, None) {
            CandidateCheck::Incomplete(candidate, checker) => {
                self.candidate = Some(candidate);
                self.checker = checker;
                Reaction::Taken
            }
            CandidateCheck::Right(verdict) => {
                self.candidate = None;
                self.checker = None;
                self.verdict = verdict;
                Reaction::Verdict
            }
            CandidateCheck::Wrong => {
                self.candidate = None;
                self.checker = None;
                Reaction::Refused(finding.answer().number())
            }
            CandidateCheck::NoMemory(_, _) => Reaction::NoMemory,
        }
    }

    /// Tells whether an announced verdict of this session is new: no verdict is held, and the candidate, if there is one, is of a lower
    /// session.
    fn is_new_verdict(&self, session: u64) -> bool
        ensures { IsTrue result ↔ IsNewVerdict self.now session }
    {
        match self.verdict {
            Verdict::Nothing => is_before(&self.candidate, session),
            Verdict::Model(_) | Verdict::Proof(_) => false,
        }
    }

    /// Takes a Part frame: appends its bytes to the candidate, and checks the candidate if it is
    /// then complete. Ignored if the bytes do not come next.
    fn deliver_part(&mut self, session: u64, part: Answer, offset: u32, bytes: &Chunk) -> Reaction
        ensures { DeliversPart self.old session part offset bytes.now result self.new }
    {
        let Verdict::Nothing = self.verdict else {
            return Reaction::Ignored;
        };
        let Some(candidate) = self.candidate.take() else {
            return Reaction::Ignored;
        };
        if !is_next_part(&candidate, session, part, offset, bytes.len()) {
            self.candidate = Some(candidate);
            return Reaction::Ignored;
        }
        let checker = self.checker.take();
        match collect(
            self.alloc,
            &self.formula,
            candidate,
            checker,
            bytes.as_slice(),
        ) {
            CandidateCheck::Incomplete(candidate, checker) => {
                self.candidate = Some(candidate);
                self.checker = checker;
                Reaction::Taken
            }
            CandidateCheck::Right(verdict) => {
                self.verdict = verdict;
                Reaction::Verdict
            }
            CandidateCheck::Wrong => Reaction::Refused(part.number()),
            CandidateCheck::NoMemory(candidate, checker) => {
                self.candidate = Some(candidate);
                self.checker = checker;
                Reaction::NoMemory
            }
        }
    }
}

/// Tells whether a job is later than the last one taken; true if none was taken.
fn is_later(last: Option<JobName>, name: JobName) -> bool
    ensures { IsTrue result ↔ IsLater last name }
{
    match last {
        None => true,
        Some(last) => last.is_before(name),
    }
}

/// Tells whether the candidate is of a lower session than this one; true if there is no candidate.
fn is_before(candidate: &Option<Candidate>, session: u64) -> bool
    ensures { IsTrue result ↔ ((c : Candidate) → candidate.now ≡ Some c → c.session < session) }
{
    match candidate {
        None => true,
        Some(candidate) => candidate.session < session,
    }
}

/// Tells whether each variable of the cube is one of the base.
fn is_over_base(base: &Base, cube: &[Lit]) -> bool
    ensures { IsTrue result ↔ IsOverBase base.now cube.now }
{
    let vars = base.vars();
    for literal in cube {
        if literal.var().number() > vars {
            return false;
        }
    }
    true
}

/// Returns a copy of the cube. The empty cube takes no memory.
fn copy_of(alloc: Global, cube: &Cube) -> Result<Cube, AllocError>
    ensures ok { IfOk result (λ c. c ≡ cube.now) }
    ensures err { OnErr result (0 < length cube.now) }
{
    if cube.is_empty() {
        return Ok(Cube::new(alloc));
    }
    cube.copy(alloc)
}
