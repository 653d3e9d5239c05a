//! The parser of DIMACS texts.

ghost use Rattle.std.specs.Prelude.{IfOk, Ok};
ghost use Rattle.dimacs.specs.logic.Cnf.{Cnf};
ghost use Rattle.dimacs.specs.text.Parser.{parse, parse_within, GivesFormula};
ghost use Rattle.dimacs.specs.text.Grammar.{Spells, SpellsWithin};

use crate::body::Body;
use crate::fault::DimacsFault;
use crate::formula::Formula;
use crate::limits::Limits;
use crate::rows::read_text;
use std::alloc::Global;

/// Reads a formula within these limits from its text; an `Err` is the first fault of the text.
pub fn read_within(alloc: Global, limits: Limits, bytes: &[u8]) -> Result<Formula, DimacsFault>
    // The text spells the formula that is returned.
    ensures found { IfOk result (λ f. SpellsWithin limits bytes.now f) }
    // If the text spells a formula, that one is returned, unless memory is refused.
    ensures only { (f : Cnf) → SpellsWithin limits bytes.now f → GivesFormula result (Ok f) }
    // Which fault it is, and in which line.
    ensures exact { GivesFormula result (parse_within limits bytes.now) }
{
    let _ = limits.vars(); // its contract says that the limits are no more than the large ones
    read_text::<Body>(alloc, limits, bytes)
}

/// Reads a formula within the written limits from its text; an `Err` is the first fault of the text.
pub fn read(alloc: Global, bytes: &[u8]) -> Result<Formula, DimacsFault>
    // The text spells the formula that is returned.
    ensures found { IfOk result (λ f. Spells bytes.now f) }
    // If the text spells a formula, that one is returned, unless memory is refused.
    ensures only { (f : Cnf) → Spells bytes.now f → GivesFormula result (Ok f) }
    // Which fault it is, and in which line.
    ensures exact { GivesFormula result (parse bytes.now) }
{
    read_within(alloc, Limits::written(), bytes)
}
