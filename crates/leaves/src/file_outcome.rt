//! The outcome of a file that `join` has read to its end.

ghost use Rattle.std.specs.Prelude.{◌≡◌, ℕ, List, IfOk, OnOk};
ghost use Rattle.answers.specs.Pieces.{HasRead};
ghost use Rattle.answers.specs.Parse.{answer_of};
ghost use Rattle.leaves.specs.Join.{IsAnswerOutcome};
ghost use Rattle.leaves.specs.inner.Join.{EndsAccepted, EndsUnused};

use crate::checked_lines::CheckedLines;
use answers::{AnswerReader, Kind};
use dimacs::{Assignment, Formula};
use log_join::LogJoinFault;
use lrat_check::CheckFault;
use std::alloc::Global;

/// What a file is, known after its last byte is read.
#[derive(Drop)]
pub enum FileOutcome {
    /// A log that closes an open leaf.
    Closes,
    /// A log without fault that closes no open leaf, or an answer that does not satisfy the formula.
    ClosesNothing,
    /// A file whose first fault has this number, in this line, from 1.
    Refused { line: u64, number: u8 },
    /// An answer whose assignment satisfies the formula.
    Satisfies(Assignment),
}

/// The outcome of a file that is a solver's answer: `Satisfies` if its assignment satisfies the
/// formula, `ClosesNothing` if not, `Refused` with its first fault.
pub(crate) fn answered(
    alloc: Global,
    formula: &Formula,
    reader: AnswerReader,
) -> Result<FileOutcome, LogJoinFault>
    ensures { IfOk result (λ e. (bytes : List ℕ) → HasRead reader bytes → IsAnswerOutcome formula.now (answer_of bytes) e) }
{
    let vars = formula.vars();
    let named = match reader.finish() {
        Ok(named) => named,
        Err(fault) if fault.kind == Kind::NoMemory => return Err(LogJoinFault::NoMemory),
        Err(fault) => {
            return Ok(FileOutcome::Refused {
                line: fault.line,
                number: fault.number(),
            });
        }
    };
    if named.first_missed(formula).is_some() {
        return Ok(FileOutcome::ClosesNothing);
    }
    let values = named.assignment(alloc, vars)?;
    Ok(FileOutcome::Satisfies(values))
}

/// Ends a log without fault: its live lemmas close the open leaves that they can. Answers `Closes` if they close one, and else
/// `ClosesNothing`.
pub(crate) fn accept(lines: &mut CheckedLines) -> Result<FileOutcome, LogJoinFault>
    ensures { IfOk result (EndsAccepted lines.old lines.new) }
{
    if lines.end(true)? {
        return Ok(FileOutcome::Closes);
    }
    Ok(FileOutcome::ClosesNothing)
}

/// Ends a log that was refused or not read to its end: its lemmas close no leaf, and are deleted in
/// the proof.
pub(crate) fn leave(lines: &mut CheckedLines) -> Result<(), LogJoinFault>
    ensures { OnOk result (EndsUnused lines.old lines.new) }
{
    lines.end(false)?;
    Ok(())
}

/// Ends a log with a fault: its lemmas are deleted in the proof. Answers `Refused` with this fault.
pub(crate) fn refuse(
    lines: &mut CheckedLines,
    fault: CheckFault,
) -> Result<FileOutcome, LogJoinFault>
    ensures stands { OnOk result (EndsUnused lines.old lines.new) }
    ensures told { IfOk result (λ e. e ≡ FileOutcome.Refused fault.line fault.number) }
{
    leave(lines)?;
    Ok(FileOutcome::Refused {
        line: fault.line,
        number: fault.number,
    })
}
