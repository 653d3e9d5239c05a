//! The reader of a formula from a DIMACS text that comes in pieces.

ghost use Rattle.std.specs.Prelude.{◌≡◌, ℕ, List, [], ◌++◌, true, MatchBool, MatchResult};
ghost use Rattle.dimacs.specs.inner.Pieces.{IsOpen, LeadsTo, RefusesText, TakesLine, RefusesLine};
ghost use Rattle.dimacs.specs.logic.Limits.{Limits};
ghost use Rattle.dimacs.specs.text.Pieces.{HasRead, HasReadWithin, has_failed};
ghost use Rattle.dimacs.specs.text.Parser.{GivesFormula, parse_within};

use crate::fault::DimacsFault;
use crate::formula::Formula;
use crate::formula_lines::FormulaLines;
use crate::limits::Limits;
use crate::words::cut_line;
use std::alloc::{AllocError, Global};
use std::marker::Model;

/// Reads the line that begins with the bytes of `begun` and ends with these bytes. Answers whether it was taken; if not, sets `fault`. A
/// line that lies in one piece is not copied.
#[inline(always)]
fn end_line(
    lines: &mut FormulaLines,
    begun: &mut Vec<u8>,
    end: &[u8],
    fault: &mut DimacsFault,
) -> bool
    ensures { MatchBool result
        ((begun.new.items ≡ []) × TakesLine lines.old (begun.old.items ++ end.now) lines.new)
        (RefusesLine lines.old (begun.old.items ++ end.now) fault.new) }
{
    if begun.is_empty() {
        return lines.take_line(end, fault);
    }
    match begun.extend_from_slice(end) {
        Ok(()) => {}
        Err(error) => {
            *fault = DimacsFault::from(error);
            return false;
        }
    }
    let taken = lines.take_line(begun, fault);
    begun.clear();
    taken
}

/// Reads the lines that end in this piece, and stores the last one, which does not, in `begun`.
fn take_piece(
    lines: &mut FormulaLines,
    begun: &mut Vec<u8>,
    piece: &[u8],
) -> Result<(), DimacsFault>
    requires { IsOpen begun.old.items }
    ensures { MatchResult result
        (λ _. IsOpen begun.new.items × LeadsTo lines.old (begun.old.items ++ piece.now) lines.new begun.new.items)
        (λ fault. RefusesText lines.old (begun.old.items ++ piece.now) fault) }
{
    let mut fault = DimacsFault::from(AllocError);
    let mut rest = piece;
    while let Some((end, later)) = cut_line(rest) {
        if !end_line(lines, begun, end, &mut fault) {
            return Err(fault);
        }
        rest = later;
    }
    match begun.extend_from_slice(rest) {
        Ok(()) => Ok(()),
        Err(error) => Err(DimacsFault::from(error)),
    }
}

/// Reads a formula from its text in pieces. It stores no text except the incomplete line, so that reading a formula takes no more memory
/// than the formula.
pub struct FormulaReader {
    /// The parser's state after the complete lines.
    lines: FormulaLines,
    /// The bytes of the incomplete line, which have no LF.
    begun: Vec<u8>,
    /// The first fault, once it was met; also a refusal of memory.
    fault: Option<DimacsFault>,
}

impl Drop for FormulaReader {
    fn drop(self) {
        let FormulaReader {
            lines: _,
            begun: _,
            fault: _,
        } = self;
    }
}

impl Model for FormulaReader {
    ghost use Rattle.dimacs.specs.text.Pieces.{Progress, progress_of};
    ghost use Rattle.dimacs.specs.inner.Pieces.{IsProgress};

    ghost Value = { Progress };

    ghost view = { λ r. progress_of r.fault r.lines r.begun.items };

    ghost invariant = { λ r. IsProgress r.fault r.begun.items };
}

impl FormulaReader {
    /// A reader, which has read no byte, of a formula within the written limits.
    pub fn new(alloc: Global) -> FormulaReader
        ensures { HasRead result [] }
    {
        FormulaReader::within(alloc, Limits::written())
    }

    /// A reader, which has read no byte, of a formula within these limits.
    pub fn within(alloc: Global, limits: Limits) -> FormulaReader
        ensures { HasReadWithin limits result [] }
    {
        FormulaReader {
            lines: FormulaLines::new(alloc, limits),
            begun: Vec::new(alloc),
            fault: None,
        }
    }

    /// Reads the next piece. A fault is kept for `finish`.
    pub fn feed(&mut self, piece: &[u8])
        ensures { (L : Limits) (bytes : List ℕ) → HasReadWithin L self.old bytes → HasReadWithin L self.new (bytes ++ piece.now) }
    {
        if self.fault.is_some() {
            return;
        }
        match take_piece(&mut self.lines, &mut self.begun, piece) {
            Ok(()) => {}
            Err(fault) => self.fault = Some(fault),
        }
    }

    /// Answers whether there was a fault, or memory was refused. Then no further byte changes what `finish` answers, so the caller may stop
    /// feeding.
    pub fn is_settled(&self) -> bool
        ensures failed { result ≡ has_failed self.now }
        ensures stays { result ≡ true → (L : Limits) (bytes more : List ℕ) → HasReadWithin L self.now bytes → HasReadWithin L self.now (bytes ++ more) }
    {
        self.fault.is_some()
    }

    /// Answers the formula of the pieces, or the first fault of their text.
    pub fn finish(self) -> Result<Formula, DimacsFault>
        ensures { (L : Limits) (bytes : List ℕ) → HasReadWithin L self bytes → GivesFormula result (parse_within L bytes) }
    {
        let FormulaReader {
            lines,
            begun,
            fault,
        } = self;
        match fault {
            Some(fault) => Err(fault),
            None => lines.finish(&begun),
        }
    }
}
