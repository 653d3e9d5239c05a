//! The parser of a DIMACS text that takes one line at a time.

ghost use Rattle.std.specs.Prelude.{◌≡◌, ℕ, ◌+◌, [], ◌∷◌, None, MatchBool};
ghost use Rattle.dimacs.specs.inner.Pieces.{TakesLine, RefusesLine};
ghost use Rattle.dimacs.specs.text.Pieces.{read_on};
ghost use Rattle.dimacs.specs.text.Parser.{GivesFormula};

use crate::body::Body;
use crate::fault::DimacsFault;
use crate::formula::Formula;
use crate::limits::Limits;
use crate::rows::Rows;
use crate::words::is_blank;
use std::alloc::{AllocError, Global};
use std::marker::Model;

/// The parser's state after the first lines of a text.
pub(crate) struct FormulaLines {
    /// The allocator for the formula.
    alloc: Global,
    /// The limits of the formula.
    limits: Limits,
    /// The number of lines that were read.
    count: u64,
    /// The state after the header; `None` before it was read.
    body: Option<Body>,
}

impl Drop for FormulaLines {
    fn drop(self) {
        let FormulaLines {
            alloc: _,
            limits: _,
            count: _,
            body: _,
        } = self;
    }
}

impl Model for FormulaLines {
    ghost use Rattle.dimacs.specs.text.Pieces.{LinesRead};

    ghost Value = { LinesRead };

    ghost view = { λ l. record { limits = l.limits; count = l.count; body = l.body } };
}

/// Reads the line of this number (from 1), before, at or after the header. Answers whether it was taken; if not, sets `fault`.
#[inline(always)]
fn read_line(
    alloc: Global,
    limits: Limits,
    body: &mut Option<Body>,
    number: u64,
    line: &[u8],
    fault: &mut DimacsFault,
) -> bool
    ensures { (before : ℕ) → number ≡ before + 1 → MatchBool result
        (TakesLine (record { limits = limits; count = before; body = body.old }) line.now (record { limits = limits; count = number; body = body.new }))
        (RefusesLine (record { limits = limits; count = before; body = body.old }) line.now fault.new) }
{
    match body {
        Some(rows) => match rows.read_line(number, line) {
            Ok(()) => true,
            Err(found) => {
                *fault = found;
                false
            }
        },
        None => {
            if is_blank(line) {
                return true;
            }
            match Body::begin(alloc, limits, number, line) {
                Ok(rows) => {
                    *body = Some(rows);
                    true
                }
                Err(found) => {
                    *fault = found;
                    false
                }
            }
        }
    }
}

impl FormulaLines {
    /// A parser that has read no line.
    pub(crate) fn new(alloc: Global, limits: Limits) -> FormulaLines
        ensures { result ≡ record { limits = limits; count = 0; body = None } }
    {
        FormulaLines {
            alloc,
            limits,
            count: 0,
            body: None,
        }
    }

    /// Reads the next line. Answers whether it was taken; if not, sets `fault`, and the state is of no further use. A line whose number
    /// exceeds 64 bits is refused as `NoMemory`.
    ///
    /// The fault is an out-parameter, and the calls are inlined: a `Result` of three words, handed up through two calls a line, took a
    /// sixth of the time for a formula of short lines.
    #[inline(always)]
    pub(crate) fn take_line(&mut self, line: &[u8], fault: &mut DimacsFault) -> bool
        ensures { MatchBool result (TakesLine self.old line.now self.new) (RefusesLine self.old line.now fault.new) }
    {
        match self.count.checked_add(1) {
            Some(count) => self.count = count,
            None => {
                *fault = DimacsFault::from(AllocError);
                return false;
            }
        }
        read_line(
            self.alloc,
            self.limits,
            &mut self.body,
            self.count,
            line,
            fault,
        )
    }

    /// Answers the formula if the text ends after the lines that were read, or the fault.
    fn end(self) -> Result<Formula, DimacsFault>
        ensures { GivesFormula result (read_on self []) }
    {
        let FormulaLines {
            count,
            body,
            alloc: _,
            limits: _,
        } = self;
        match body {
            Some(body) => body.finish(count),
            None => Err(Body::no_header(count)),
        }
    }

    /// Answers the formula if this is the text's last line, which has no LF, or the fault.
    pub(crate) fn finish(self, last: &[u8]) -> Result<Formula, DimacsFault>
        ensures { GivesFormula result (read_on self (last.now ∷ [])) }
    {
        let mut lines = self;
        let mut fault = DimacsFault::from(AllocError);
        if lines.take_line(last, &mut fault) {
            lines.end()
        } else {
            Err(fault)
        }
    }
}
