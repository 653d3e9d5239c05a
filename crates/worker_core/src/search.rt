//! The search of a worker under a task's cube.

ghost use Rattle.std.specs.Prelude.{◌≡◌, map, nat_eq, take, All, IfOk};
ghost use Rattle.std.specs.List.{IsDistinct};
ghost use Rattle.dimacs.specs.logic.Literal.{IsWithin, var_of};
ghost use Rattle.lrat_check.specs.Judgement.{value_byte};
ghost use Rattle.evidence.specs.Events.{Worked, Reacted};
ghost use Rattle.worker_core.specs.Worker.{MayEnd, WorkerStep, kept};

use crate::proof_checker::caught_up;
use crate::work::Work;
use crate::worker::Worker;
use cube_solve::{Outcome, solve};
use cube_split::base_or;
use dimacs::{Base, Lit};
use evidence::JobName;
use frames::Answer;
use lrat_check::Reaction;
use packed_text::PackedText;
use proof_trim::trim;
use std::alloc::{AllocError, Global};

/// The least length in bytes of evidence that does not fit a frame's field.
const TOO_LONG: usize = 1 << 32;

impl Worker {
    /// Searches under the cube of the pending task, to the end or to the limit, and keeps the answer. If no task is pending, the
    /// candidate's checker takes the bytes received so far, and the reaction is `Ignored`.
    pub fn work(&mut self) -> Reaction
        ensures step { WorkerStep self.old Worked (Reacted result) self.new }
    {
        let Work::Pending { name, cube, limit } = &self.work else {
            self.catch_up();
            return Reaction::Ignored;
        };
        let name = *name;
        let base = base_or(&self.base, &self.formula);
        let Ok(end) = search(self.alloc, base, cube.as_slice(), *limit) else {
            return Reaction::NoMemory;
        };
        let Ok(work) = work_of(self.alloc, name, self.formula.vars(), end) else {
            return Reaction::NoMemory;
        };
        self.work = work;
        Reaction::Finished
    }

    /// Has the candidate's checker take the bytes received since its last call, in time in which
    /// the worker has no task. So a proof is mostly checked when its last byte comes. Nothing that
    /// a contract names changes.
    fn catch_up(&mut self)
        ensures { self.new ≡ self.old }
    {
        let Some(candidate) = &self.candidate else {
            return;
        };
        let checker = self.checker.take();
        self.checker = caught_up(self.alloc, checker, &candidate.evidence.bytes);
    }
}

/// Searches over the base under the cube, and trims the fragment if the cube is refuted.
fn search(alloc: Global, base: &Base, cube: &[Lit], limit: u64) -> Result<Outcome, AllocError>
    requires distinct { IsDistinct nat_eq (map var_of cube.now) }
    requires within { All (IsWithin base.now.vars) cube.now }
    ensures { IfOk result (MayEnd base.now cube.now limit) }
{
    match solve(alloc, base, cube, limit)? {
        Outcome::Refuted(text) => {
            let most = limit.min(1 << 47) + 1;
            Ok(Outcome::Refuted(trim(alloc, base, cube, most, text)?))
        }
        Outcome::Model(values) => Ok(Outcome::Model(values)),
        Outcome::Limit(text) => Ok(Outcome::Limit(text)),
    }
}

/// Returns what the worker keeps of an outcome: an answer with its evidence, or that the limit was
/// met, also if the fragment is too long to be sent; `vars` is the formula's number of variables.
fn work_of(alloc: Global, name: JobName, vars: u32, end: Outcome) -> Result<Work, AllocError>
    ensures { IfOk result (λ work. work ≡ kept name vars end) }
{
    match end {
        Outcome::Model(values) => {
            let bytes = value_bytes(alloc, vars, values.values())?;
            Ok(Work::Found {
                name,
                answer: Answer::Assignment,
                bytes: PackedText::of(alloc, &bytes)?,
                noted: None,
            })
        }
        Outcome::Refuted(text) => {
            if text.len() < TOO_LONG {
                Ok(Work::Found {
                    name,
                    answer: Answer::Refuted,
                    bytes: text,
                    noted: None,
                })
            } else {
                Ok(Work::Limited { name })
            }
        }
        Outcome::Limit(_) => Ok(Work::Limited { name }),
    }
}

/// Returns the first `vars` values as bytes, 1 for true and 0 for false.
fn value_bytes(alloc: Global, vars: u32, values: &[bool]) -> Result<Vec<u8>, AllocError>
    ensures { IfOk result (λ bytes. bytes.items ≡ map value_byte (take vars values.now)) }
{
    values
        .iter()
        .take(vars as usize)
        .map(|value| if *value { 1 } else { 0 })
        .collect(alloc)
}
