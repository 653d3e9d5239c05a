//! The reader of a line of an accepted proof.

ghost use Rattle.std.specs.Prelude.{OnOk};
ghost use Rattle.lrat_text.specs.Grammar.{SpellsStepWithin};

use lrat_text::{StepBuffer, TextFault, read_line_within};

/// Reads a line without its LF, with variables up to 199,999,999, the most that any proof can have.
/// The limit of the formula is tested where the proof and the trimmed text are checked.
pub(crate) fn read(buffer: &mut StepBuffer, line: &[u8]) -> Result<(), TextFault>
    ensures { OnOk result (SpellsStepWithin 199999999 line.now buffer.new) }
{
    read_line_within(buffer, 199_999_999, line)
}
