//! The writer of a line, whose limit on variables is that of the largest formulas.

ghost use Rattle.std.specs.Prelude.{◌≡◌, ◌++◌, OnOk, OnErr};
ghost use Rattle.lrat_text.specs.Grammar.{IsStepWithin, IsClauseNumber};
ghost use Rattle.lrat_text.specs.Steps.{step_of};
ghost use Rattle.lrat_text.specs.WrittenLine.{line_of};

use lrat_text::{StepRef, put_ref_within};
use std::alloc::AllocError;

/// Appends the line of a step with variables up to 199,999,999, the most of any base. If memory is
/// refused, `out` is as before.
pub(crate) fn put_line(step: StepRef<'_>, top: u64, out: &mut Vec<u8>) -> Result<(), AllocError>
    requires limits { IsStepWithin 199999999 (step_of step) }
    requires numbered { IsClauseNumber top }
    ensures ok { OnOk result (out.new.items ≡ out.old.items ++ line_of top (step_of step.entry)) }
    ensures err { OnErr result (out.new.items ≡ out.old.items) }
{
    put_ref_within(step, top, out)
}
