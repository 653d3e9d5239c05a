//! The reader of a log's line.

ghost use Rattle.std.specs.Prelude.{OnOk};
ghost use Rattle.lrat_text.specs.Grammar.{SpellsStepWithin};

use lrat_text::{StepBuffer, TextFault, read_line_within};

/// Reads a line without its LF, with variables up to 199,999,999, the most that a base can have.
/// Whether they are variables of the base is found by the check of the trimmed text.
pub(crate) fn read(buffer: &mut StepBuffer, line: &[u8]) -> Result<(), TextFault>
    ensures { OnOk result (SpellsStepWithin 199999999 line.now buffer.new) }
{
    read_line_within(buffer, 199_999_999, line)
}
