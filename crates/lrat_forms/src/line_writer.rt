//! The consumer of steps that writes a line of text for each.

ghost use Rattle.std.specs.Prelude.{◌≡◌, []};
ghost use Rattle.lrat_text.specs.Grammar.{IsClauseNumber};
ghost use Rattle.lrat_text.specs.Log.{top_after};
ghost use Rattle.lrat_text.specs.Steps.{step_of};

use crate::limits::is_within;
use lrat_binary::TakesSteps;
use lrat_text::{StepRef, put_ref_within};
use std::alloc::AllocError;

/// Writes a line for each step that a reader delivers.
pub(crate) struct LineWriter {
    /// The number of the last addition, or 1 before the first one. The line of a deletion begins with this number.
    pub(crate) top: u64,
    /// The lines written since the last call of [`LineWriter::begin`].
    pub(crate) out: Vec<u8>,
    ghost numbered: { IsClauseNumber top },
}

impl Drop for LineWriter {
    fn drop(self) {
        let LineWriter { top: _, out: _ } = self;
    }
}

/// Answers the number of the last addition after a step; `top` is that number before the step.
fn top_after_step(step: StepRef<'_>, top: u64) -> u64
    ensures { result ≡ top_after top (step_of step.entry) }
{
    match step {
        StepRef::Add { id, .. } => id,
        StepRef::Delete { .. } => top,
    }
}

impl LineWriter {
    /// Drops the lines that were written for the piece before.
    pub(crate) fn begin(&mut self)
        ensures out { self.new.out.items ≡ [] }
        ensures top { self.new.top ≡ self.old.top }
    {
        self.out.clear();
    }
}

impl TakesSteps for LineWriter {
    ghost use Rattle.lrat_forms.specs.inner.WrittenLines.{MayTake, Refuses, Writes};

    type Fault = AllocError;

    ghost may_take = { MayTake };

    ghost takes = { Writes };

    ghost refuses = { Refuses };

    /// Appends the step's line. A step beyond the limits is refused as if memory were: a reader delivers none, but no contract says so, and
    /// the test is cheap beside the writing of the line.
    fn take_step(&mut self, step: StepRef<'_>) -> Result<(), AllocError> {
        if !is_within(step) {
            return Err(AllocError);
        }
        put_ref_within(step, self.top, &mut self.out)?;
        self.top = top_after_step(step, self.top);
        Ok(())
    }
}
