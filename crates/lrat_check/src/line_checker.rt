//! The checker of a proof's lines: it reads one line after the other, and answers the number of the first line that has a fault.

ghost use Rattle.std.specs.Prelude.{◌≡◌, ◌==◌, ◌≤◌, ◌⊎◌, ◌+◌, ◌^◌, None, OnOk, OnErr, IfErr, MatchResult};
ghost use Rattle.lrat_check.specs.ProofFaults.{no_memory, text_end};
ghost use Rattle.lrat_check.specs.Refusals.{piece_refusal, text_refusal};
ghost use Rattle.lrat_check.specs.inner.LineOutcomes.{LinePasses, LineFails, step_refusal};

use crate::checker::Checker;
use crate::fault::StepFault;
use crate::limit::Limit;
use lrat_text::{PieceFault, StepBuffer, TakesLines, TextFault, read_line_within};
use std::alloc::AllocError;
use thiserror::Error;

/// Why a text is no accepted proof, no log, or no fragment that closes the cube.
#[derive(Clone, Copy, Debug, PartialEq, Eq, Error)]
#[error("line {line}: fault {number}")]
pub struct CheckFault {
    /// 1: a line spells no step; 2 to 12: the step's fault; 13: no line adds the empty clause; 14: memory was refused. In a log also 15: a
    /// lemma does not follow by its hints alone; 16: a clause of the base is deleted. In a fragment also 17: the last step does not close
    /// the cube.
    pub number: u8,
    /// The line, from 1; for 13 and 17 the number of LF bytes plus 1; for 14 it is 0. In binary form it is the step, from 1, and for 13 the
    /// number of steps plus 1.
    pub line: u64,
    /// The text fault's number, 1 to 4, if `number` is 1; otherwise 0.
    pub text: u8,
}

impl CheckFault {
    /// Answers whether memory was refused, which says nothing of the text.
    pub fn is_no_memory(self) -> bool
        ensures { result ≡ (self.number == 14) }
    {
        self.number == 14
    }

    /// The fault of a refusal of memory.
    pub fn no_memory() -> CheckFault
        ensures { result ≡ no_memory }
    {
        CheckFault {
            number: 14,
            line: 0,
            text: 0,
        }
    }

    /// Answers the fault of a line that spells no step.
    pub fn of_text(fault: TextFault, line: u64) -> CheckFault
        ensures { result ≡ text_refusal fault line }
    {
        match fault {
            TextFault::NoMemory => CheckFault::no_memory(),
            _ => CheckFault {
                number: 1,
                line,
                text: fault.number(),
            },
        }
    }

    /// Answers the fault of a piece that was not taken to its end.
    pub fn of_piece(fault: PieceFault<CheckFault>) -> CheckFault
        ensures { result ≡ piece_refusal fault }
    {
        match fault {
            PieceFault::NoMemory => CheckFault::no_memory(),
            PieceFault::Line(fault) => fault,
        }
    }
}

impl From<AllocError> for CheckFault {
    ghost from_gives = { λ _ e. e ≡ no_memory };

    fn from(_e: AllocError) -> CheckFault {
        CheckFault::no_memory()
    }
}

/// Answers the fault of a line whose step has this fault.
pub(crate) fn step_refused(fault: StepFault, line: u64) -> CheckFault
    ensures { result ≡ step_refusal fault line }
{
    match fault {
        StepFault::NoMemory => CheckFault::no_memory(),
        _ => CheckFault {
            number: fault.number(),
            line,
            text: 0,
        },
    }
}

/// Reads a line, whose number is `line`, into the buffer, and gives its step to the checker. Answers the line's first fault.
pub(crate) fn take_line(
    checker: &mut Checker,
    buffer: &mut StepBuffer,
    limit: Limit,
    line: u64,
    text: &[u8],
) -> Result<(), CheckFault>
    requires { checker.old.fault ≡ None }
    ensures passed { OnOk result (LinePasses limit.most checker.old line text.now checker.new) }
    ensures stopped { IfErr result (λ f. (f ≡ no_memory) ⊎ LineFails limit.most checker.old line text.now f) }
{
    match read_line_within(buffer, limit.most, text) {
        Ok(()) => {}
        Err(fault) => return Err(CheckFault::of_text(fault, line)),
    }
    match checker.take(buffer.as_ref()) {
        Ok(()) => Ok(()),
        Err(fault) => Err(step_refused(fault, line)),
    }
}

/// Answers the number of the line after this one. If it does not fit in 64 bits, and only then, the answer is fault 14.
pub(crate) fn next_line(line: u64) -> Result<u64, CheckFault>
    ensures number { MatchResult result (λ next. next ≡ line + 1) (λ fault. fault ≡ no_memory) }
    ensures only { OnErr result (2 ^ 64 ≤ line + 1) }
{
    match line.checked_add(1) {
        Some(next) => Ok(next),
        None => Err(CheckFault::no_memory()),
    }
}

/// Takes the lines of a proof, one after the other.
pub(crate) struct LineChecker {
    /// The checker of the steps.
    pub(crate) checker: Checker,
    /// The step of the line that was read last.
    pub(crate) buffer: StepBuffer,
    pub(crate) limit: Limit,
    /// The number of the next line, from 1.
    pub(crate) line: u64,
}

impl Drop for LineChecker {
    fn drop(self) {
        let LineChecker {
            checker: _,
            buffer: _,
            limit: _,
            line: _,
        } = self;
    }
}

impl TakesLines for LineChecker {
    ghost use Rattle.lrat_check.specs.inner.Lines.{MayTake, TakesProofLine, RefusesProofLine};

    type Fault = CheckFault;

    ghost may_take = { MayTake };

    ghost takes = { TakesProofLine };

    ghost refuses = { RefusesProofLine };

    /// Reads the next line, and gives its step to the checker.
    fn take_line(&mut self, line: &[u8]) -> Result<(), CheckFault> {
        take_line(
            &mut self.checker,
            &mut self.buffer,
            self.limit,
            self.line,
            line,
        )?;
        self.line = next_line(self.line)?;
        Ok(())
    }
}

/// Answers the result at the end of a text, of which `rest` follows the last LF: fault 1 (text fault 2) if `rest` is not empty; otherwise
/// `Ok` if the text has `shown` what it should; otherwise the fault `number`.
pub(crate) fn finish(number: u8, shown: bool, line: u64, rest: &[u8]) -> Result<(), CheckFault>
    ensures { result ≡ text_end number shown line rest.now }
{
    if !rest.is_empty() {
        return Err(CheckFault {
            number: 1,
            line,
            text: 2,
        });
    }
    if shown {
        return Ok(());
    }
    Err(CheckFault {
        number,
        line,
        text: 0,
    })
}
