//! A log that grows step by step, and is checked as it grows.

ghost use Rattle.std.specs.Prelude.{◌≡◌, ◌+◌, ◌<◌, [], All, OnOk, IfOk, IfErr, length};
ghost use Rattle.dimacs.specs.logic.Cnf.{Cnf};
ghost use Rattle.dimacs.specs.logic.Literal.{IsWithin};
ghost use Rattle.lrat_check.specs.Logs.{IsBegun, KeepsFormula, HoldsFormula};
ghost use Rattle.lrat_text.specs.Grammar.{IsClauseNumber, IsStepWithin};
ghost use Rattle.lrat_text.specs.Steps.{step_of};
ghost use Rattle.lrat_text.specs.declared.step.Step.TheVariants as owned;
ghost use Rattle.lidrup.specs.inner.LogSteps.{ChecksStep, RefusesStep, fault_of_log};

use crate::fault::LineFault;
use crate::log_number::{LogNumber, number_after};
use dimacs::{Formula, Lit};
use lrat_check::{CheckFault, LogChecker};
use lrat_text::{Groups, StepRef, put_ref_within};
use std::alloc::{AllocError, Global};

/// The fault of a deletion of a clause that is not live.
const NOT_LIVE: LineFault = LineFault::OfLog(3);

/// Returns the fault of the line whose step the checker refused with this fault.
fn of_log(fault: CheckFault) -> LineFault
    ensures { result ≡ fault_of_log fault }
{
    if fault.number == 14 {
        return LineFault::NoMemory;
    }
    LineFault::OfLog(fault.number)
}

/// Writes a step's line to `made`, and has the checker take the line. The line of a deletion begins with the number `front`. `Err` if the
/// checker refuses the step, or memory is refused.
fn check(
    checker: &mut LogChecker,
    step: StepRef<'_>,
    front: u64,
    made: &mut Vec<u8>,
) -> Result<(), LineFault>
    requires limits { IsStepWithin checker.old.most (step_of step) }
    requires numbered { IsClauseNumber front }
    ensures took { OnOk result (ChecksStep front checker.old (step_of step.entry) checker.new made.new.items) }
    ensures refused { IfErr result (RefusesStep checker.old (step_of step.entry)) }
    ensures stands { KeepsFormula checker.old checker.new }
{
    let _ = checker.most(); // its contract bounds the limit of the variables
    made.clear();
    put_ref_within(step, front, made)?;
    let end = made.len().saturating_sub(1);
    match checker.take(&made[..end]) {
        Ok(()) => Ok(()),
        Err(fault) => Err(of_log(fault)),
    }
}

/// A log over a formula, with its checker.
#[derive(Drop)]
pub(crate) struct CheckedLog {
    pub(crate) checker: LogChecker,
    /// The number of the last empty lemma; 0 if there is none.
    pub(crate) empty: u64,
    /// The line that was made last.
    made: Vec<u8>,
    ghost stands: { ∥ ((F : Cnf) × HoldsFormula F checker) ∥₁ },
}

impl CheckedLog {
    ghost use Rattle.lidrup.specs.inner.LineEffects.{LogsStep};

    /// Makes an empty log over the formula.
    pub(crate) fn of(alloc: Global, formula: Formula) -> Result<CheckedLog, AllocError>
        ensures begun { IfOk result (λ x. IsBegun formula x.checker) }
        ensures empty { IfOk result (λ x. x.empty ≡ 0) }
    {
        let checker = LogChecker::of(alloc, formula)?;
        Ok(CheckedLog {
            checker,
            empty: 0,
            made: Vec::new(alloc),
        })
    }

    /// Adds a lemma under the next number, appends its line to `out`, and returns the number. `Err` if the checker refuses the lemma.
    pub(crate) fn add(
        &mut self,
        lits: &[Lit],
        hints: &[u64],
        out: &mut Vec<u8>,
    ) -> Result<LogNumber, LineFault>
        requires literals { All (IsWithin self.old.checker.most) lits.now }
        requires hints { All IsClauseNumber hints.now }
        ensures number { IfOk result (λ n. n.number ≡ self.old.checker.top + 1) }
        ensures took { OnOk result (LogsStep self.old (owned.Add (self.old.checker.top + 1) lits.now hints.now []) self.new out.old.items out.new.items) }
        ensures refused { IfErr result (RefusesStep self.old.checker (owned.Add (self.old.checker.top + 1) lits.now hints.now [])) }
    {
        let next = number_after(self.checker.top())?;
        let id = next.number;
        let no_group = Groups::new(*self.made.allocator());
        let step = StepRef::Add {
            id,
            lits,
            hints,
            groups: &no_group,
        };
        check(&mut self.checker, step, id, &mut self.made)?;
        out.extend_from_slice(&self.made)?;
        if lits.is_empty() {
            self.empty = id;
        }
        Ok(next)
    }

    /// Deletes the lemmas of these numbers of the log, and appends the line to `out`. `Err` if the checker refuses the deletion.
    pub(crate) fn delete(&mut self, ids: &[u64], out: &mut Vec<u8>) -> Result<(), LineFault>
        requires ids { All IsClauseNumber ids.now }
        requires some { 0 < length ids.now }
        ensures took { OnOk result (LogsStep self.old (owned.Delete ids.now) self.new out.old.items out.new.items) }
        ensures refused { IfErr result (RefusesStep self.old.checker (owned.Delete ids.now)) }
    {
        let front = self.checker.top();
        // No clause is live, and there is no lemma.
        if front == 0 {
            return Err(NOT_LIVE);
        }
        let step = StepRef::Delete { ids };
        check(&mut self.checker, step, front, &mut self.made)?;
        out.extend_from_slice(&self.made)?;
        Ok(())
    }
}
