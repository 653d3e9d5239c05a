//! The reader of steps from a text that comes in pieces of any length.

ghost use Rattle.std.specs.Prelude.{◌≡◌, ◌≢◌, ◌++◌, List, [], length, take, MatchResult, OnErr, Ok, Err};
ghost use Rattle.lrat_text.specs.declared.fault.TextFault.{TextFault};
ghost use Rattle.lrat_text.specs.declared.step.Step.{Step};
ghost use Rattle.lrat_text.specs.Grammar.{LineSpells};
ghost use Rattle.lrat_text.specs.Lines.{IsOpen};
ghost use Rattle.lrat_text.specs.Pieces.{Splits, Breaks, HasFault, Within, Failed, TakesPiece, StopsBefore, end_in, joined};
ghost use Rattle.lrat_text.specs.inner.Pieces.{AppendsStep, AppendsNone};

use crate::fault::TextFault;
use crate::line_splitter::{LineBuffer, PieceFault, TakesLines};
use crate::parser::read_step;
use crate::step::Step;
use std::alloc::Global;
use std::marker::Model;

/// A consumer of lines that appends each line's step.
impl TakesLines for Vec<Step> {
    type Fault = TextFault;

    ghost may_take = { λ _. Unit {0} };

    ghost takes = { AppendsStep };

    ghost refuses = { AppendsNone };

    /// Reads a line, and appends its step. A line that spells no step is refused, and nothing is appended.
    fn take_line(&mut self, line: &[u8]) -> Result<(), TextFault> {
        let step = read_step(*self.allocator(), line)?;
        self.push(step)?;
        Ok(())
    }
}

/// Reads the next piece, and appends the steps of the lines that are complete now. `begun` is the incomplete line; at a fault it is as
/// before.
fn read_piece(begun: &mut LineBuffer, piece: &[u8], steps: &mut Vec<Step>) -> Result<(), TextFault>
    ensures steps { MatchResult result
        (λ _. (new : List Step) × (steps.new.items ≡ steps.old.items ++ new) × Splits (begun.old ++ piece.now) new begun.new)
        (λ fault. fault ≢ TextFault.NoMemory → (new : List Step) × (steps.new.items ≡ steps.old.items ++ new) × Breaks (begun.old ++ piece.now) new fault) }
    ensures open { IsOpen begun.new }
    ensures begun { OnErr result (begun.new ≡ begun.old) }
    ensures front { OnErr result (take (length steps.old.items) steps.new.items ≡ steps.old.items) }
{
    match begun.feed(piece, steps) {
        Ok(()) => Ok(()),
        Err(PieceFault::NoMemory) => Err(TextFault::NoMemory),
        Err(PieceFault::Line(fault)) => Err(fault),
    }
}

/// Reads a text in pieces of any length, and appends the steps of its lines. It stores only the incomplete line at the end of the last
/// piece.
#[derive(Drop)]
pub struct StepReader {
    /// The incomplete line.
    begun: LineBuffer,
    /// The fault that was met, if any; never `NoMemory`.
    fault: Option<TextFault>,
}

impl Model for StepReader {
    ghost use Rattle.lrat_text.specs.Pieces.{ReadProgress, progress_of};
    ghost use Rattle.lrat_text.specs.inner.Pieces.{IsReadProgress};

    ghost Value = { ReadProgress };

    ghost view = { λ r. progress_of r.fault r.begun };

    ghost invariant = { λ r. IsReadProgress r.fault r.begun };
}

impl StepReader {
    /// A reader that has read no byte.
    pub fn new(alloc: Global) -> StepReader
        ensures { result ≡ Within [] }
    {
        StepReader {
            begun: LineBuffer::new(alloc),
            fault: None,
        }
    }

    /// Reads the next piece, and appends the steps of the lines that are complete now. At a line with a fault, the steps of the lines
    /// before it are appended, and each later call answers the same fault and appends nothing. If memory is refused, the reader and the
    /// steps are as before, and the caller may give the same piece again.
    pub fn feed(&mut self, piece: &[u8], steps: &mut Vec<Step>) -> Result<(), TextFault>
        ensures taken { result ≢ Err TextFault.NoMemory → TakesPiece self.old piece.now steps.old.items steps.new.items result self.new }
        ensures failed { (fault : TextFault) → self.old ≡ Failed fault → (result ≡ Err fault) × (self.new ≡ self.old) × (steps.new.items ≡ steps.old.items) }
        ensures no_memory { result ≡ Err TextFault.NoMemory → (self.new ≡ self.old) × (steps.new.items ≡ steps.old.items) }
    {
        if let Some(fault) = self.fault {
            return Err(fault);
        }
        let had = steps.len();
        match read_piece(&mut self.begun, piece, steps) {
            Ok(()) => Ok(()),
            Err(TextFault::NoMemory) => {
                steps.truncate(had);
                Err(TextFault::NoMemory)
            }
            Err(fault) => {
                self.fault = Some(fault);
                Err(fault)
            }
        }
    }

    /// Answers, at the end of the text, the fault that was met, or `LineNotEnded` if the text ends within a line. It allocates nothing.
    pub fn finish(&self) -> Result<(), TextFault>
        ensures { result ≡ end_in self.now }
    {
        if let Some(fault) = self.fault {
            return Err(fault);
        }
        if self.begun.as_slice().is_empty() {
            Ok(())
        } else {
            Err(TextFault::LineNotEnded)
        }
    }
}

/// Reads a text that is given in pieces, and appends its steps. It ends at the first fault. If memory is refused, the steps of the earlier
/// pieces stay appended.
pub fn read_pieces(
    alloc: Global,
    pieces: &[Vec<u8>],
    steps: &mut Vec<Step>,
) -> Result<(), TextFault>
    ensures steps { (new : List Step) × (steps.new.items ≡ steps.old.items ++ new) × MatchResult result
        (λ _. LineSpells (joined pieces.now) new)
        (λ fault. fault ≢ TextFault.NoMemory → HasFault (joined pieces.now) new fault) }
    ensures memory { result ≡ Err TextFault.NoMemory → StopsBefore pieces.now steps.old.items steps.new.items }
{
    let mut reader = StepReader::new(alloc);
    for piece in pieces {
        reader.feed(piece, steps)?;
    }
    reader.finish()
}
