//! Lifts a foreign proof line by line.

ghost use Rattle.std.specs.Prelude.{OnOk};
ghost use Rattle.lrat_text.specs.Grammar.{IsStepWithin};
ghost use Rattle.lrat_text.specs.Log.{log_top};
ghost use Rattle.lrat_text.specs.Parser.{GivesStep, step_within};

use crate::fault::step_refused;
use crate::step_lifter::StepLifter;
use lrat_check::CheckFault;
use lrat_text::{StepBuffer, TakesLines, TextFault, log_top, read_line_within};

/// Takes the lines of a foreign proof, and appends the lines of the log to `out`.
pub(crate) struct LineLifter {
    pub(crate) lifting: StepLifter,
    pub(crate) buffer: StepBuffer,
    /// The number of the next line.
    pub(crate) line: u64,
    /// The lines of the log that were written and not handed out yet.
    pub(crate) out: Vec<u8>,
}

impl Drop for LineLifter {
    fn drop(self) {
        let LineLifter {
            lifting: _,
            buffer: _,
            line: _,
            out: _,
        } = self;
    }
}

/// Reads a line, with the variables that a log over the formula may have.
fn read_step(lifting: &StepLifter, buffer: &mut StepBuffer, line: &[u8]) -> Result<(), TextFault>
    ensures within { OnOk result (IsStepWithin 199999999 buffer.new) }
    ensures exact { GivesStep buffer.new result (step_within (log_top lifting.now.images.formula) line.now) }
{
    let most = log_top(lifting.images.formula.as_base());
    read_line_within(buffer, most, line)
}

impl TakesLines for LineLifter {
    ghost use Rattle.proof_lift.specs.inner.Lines.{MayTake, Takes, Refuses};

    type Fault = CheckFault;

    ghost may_take = { MayTake };

    ghost takes = { Takes };

    ghost refuses = { Refuses };

    /// Reads the next line of the foreign proof, and lifts its step. After the empty lemma, lines
    /// are read but not lifted.
    fn take_line(&mut self, line: &[u8]) -> Result<(), CheckFault> {
        match read_step(&self.lifting, &mut self.buffer, line) {
            Ok(()) => {}
            Err(fault) => return Err(CheckFault::of_text(fault, self.line)),
        }
        let Some(next) = self.line.checked_add(1) else {
            return Err(CheckFault::no_memory());
        };
        if !self.lifting.closed {
            match self
                .lifting
                .take(self.buffer.as_ref(), self.line, &mut self.out)
            {
                Ok(()) => {}
                Err(fault) => return Err(step_refused(fault, self.line)),
            }
        }
        self.line = next;
        Ok(())
    }
}
