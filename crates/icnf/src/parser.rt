//! The parser of iCNF texts.

ghost use Rattle.std.specs.Prelude.{List, IfOk, Ok};
ghost use Rattle.dimacs.specs.logic.Cnf.{Cnf};
ghost use Rattle.icnf.specs.Leaves.{Cube};
ghost use Rattle.icnf.specs.Parser.{parse, parse_within, GivesTree};
ghost use Rattle.icnf.specs.Grammar.{Spells, SpellsWithin};

use crate::body::Body;
use crate::fault::IcnfFault;
use crate::tree::Tree;
use dimacs::rows::read_text;
use dimacs::{Formula, Limits};
use std::alloc::Global;

/// Reads a formula within these limits, and the tree of its cubes, from an iCNF text; an `Err` is the first fault of the text. The
/// formula's number of variables is the greatest variable of its clauses.
pub fn read_within(
    alloc: Global,
    limits: Limits,
    bytes: &[u8],
) -> Result<(Formula, Tree), IcnfFault>
    // The text spells the formula and the tree that are returned.
    ensures found { IfOk result (λ p. SpellsWithin limits bytes.now p.0 p.1) }
    // If the text spells a formula and a tree, these are returned, unless memory is refused.
    ensures only { (f : Cnf) (cubes : List Cube) → SpellsWithin limits bytes.now f cubes → GivesTree result (Ok (f, cubes)) }
    // Which fault it is, and in which line.
    ensures exact { GivesTree result (parse_within limits bytes.now) }
{
    let _ = limits.vars(); // its contract says that the limits are no more than the large ones
    read_text::<Body>(alloc, limits, bytes)
}

/// Reads a formula within the written limits, and the tree of its cubes, from an iCNF text; an `Err` is the first fault of the text.
pub fn read(alloc: Global, bytes: &[u8]) -> Result<(Formula, Tree), IcnfFault>
    // The text spells the formula and the tree that are returned.
    ensures found { IfOk result (λ p. Spells bytes.now p.0 p.1) }
    // If the text spells a formula and a tree, these are returned, unless memory is refused.
    ensures only { (f : Cnf) (cubes : List Cube) → Spells bytes.now f cubes → GivesTree result (Ok (f, cubes)) }
    // Which fault it is, and in which line.
    ensures exact { GivesTree result (parse bytes.now) }
{
    read_within(alloc, Limits::written(), bytes)
}
