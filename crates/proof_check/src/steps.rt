//! The consumer of a proof's steps that checks each of them.

ghost use Rattle.std.specs.Prelude.{◌≡◌, ◌+◌, MatchResult};
ghost use Rattle.lrat_check.specs.ProofFaults.{no_memory};
ghost use Rattle.lrat_check.specs.inner.LineOutcomes.{step_refusal};

use lrat_binary::TakesSteps;
use lrat_check::{CheckFault, Checker, StepFault};
use lrat_text::StepRef;

/// Answers the fault of a refused step, with the step's number in place of a line's.
fn step_refused(fault: StepFault, number: u64) -> CheckFault
    ensures { result ≡ step_refusal fault number }
{
    match fault {
        StepFault::NoMemory => CheckFault::no_memory(),
        _ => CheckFault {
            number: fault.number(),
            line: number,
            text: 0,
        },
    }
}

/// Answers the number of the step after this one. If it does not fit in 64 bits, the answer is the fault `NoMemory`.
fn next_number(number: u64) -> Result<u64, CheckFault>
    ensures { MatchResult result (λ next. next ≡ number + 1) (λ fault. fault ≡ no_memory) }
{
    match number.checked_add(1) {
        Some(next) => Ok(next),
        None => Err(CheckFault::no_memory()),
    }
}

/// A checker of steps, and the number of the step that it checks next.
pub(crate) struct StepChecker {
    /// The checker of the steps.
    pub(crate) checker: Checker,
    /// The number of the next step, from 1.
    pub(crate) number: u64,
}

impl Drop for StepChecker {
    fn drop(self) {
        let StepChecker {
            checker: _,
            number: _,
        } = self;
    }
}

impl TakesSteps for StepChecker {
    ghost use Rattle.proof_check.specs.inner.Steps.{MayTake, Takes, Refuses};

    type Fault = CheckFault;

    ghost may_take = { MayTake };

    ghost takes = { Takes };

    ghost refuses = { Refuses };

    /// Gives the step to the checker. A step that the checker refuses is refused with the step's number.
    fn take_step(&mut self, step: StepRef<'_>) -> Result<(), CheckFault> {
        match self.checker.take(step) {
            Ok(()) => {}
            Err(fault) => return Err(step_refused(fault, self.number)),
        }
        self.number = next_number(self.number)?;
        Ok(())
    }
}
