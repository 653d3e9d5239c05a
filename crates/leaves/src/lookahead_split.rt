//! `cubes --look`: splits a formula by lookahead, or with `--split` one leaf of a tree.

ghost use Rattle.std.specs.Prelude.{◌≡◌, ◌↔◌, ◌⊎◌, ◌<◌, [], IfOk, None, length, slice_index_or};
ghost use Rattle.dimacs.specs.logic.Cnf.{Cnf, AreWithin, greatest_in};
ghost use Rattle.dimacs.specs.text.Parser.{parse, parse_within};
ghost use Rattle.dimacs.specs.text.Grammar.{Spells, SpellsWithin};
ghost use Rattle.leaves.specs.LookaheadSplit.{PrintsCut, PrintsGrown, PrintsHalves, ShowsGrown};

use crate::leaf::NO_LEAF;
use crate::leaf_split::{LEAVES, LITERALS, cannot_split};
use crate::split::Split;
use dimacs::{Formula, Kind, Limits};
use icnf::Tree;
use look_ahead::{choose, grow_tree};
use reports::{Report, faulty_input};
use std::alloc::{AllocError, Global};

/// Grows a tree of the formula by lookahead, of about `leaves` leaves. The report has the tree as iCNF text, status 0.
fn listed(alloc: Global, formula: &Formula, leaves: u32) -> Result<Report, AllocError>
    ensures text { IfOk result (λ r. ShowsGrown formula.now r.stdout.items) }
    ensures status { IfOk result (λ r. r.status ≡ 0) }
    ensures proof { IfOk result (λ r. r.proof ≡ None) }
{
    let tree = grow_tree(alloc, formula, leaves)?;
    let mut report = Report::of(alloc, b"", 0)?;
    icnf::write(formula, &tree, &mut report.stdout)?;
    Ok(report)
}

/// Reads a formula within these limits and splits it by lookahead, into about `leaves` leaves that propagation does not refute. If the
/// input has a fault, the report names the first one, status 1. An error is reported as `c no memory`, status 1.
pub fn run_look_within(
    alloc: Global,
    limits: Limits,
    input: &[u8],
    leaves: u32,
) -> Result<Report, AllocError>
    // The status is 0 exactly if the input spells a formula.
    ensures spelled { IfOk result (λ r. (r.status ≡ 0) ↔ ((F : Cnf) × SpellsWithin limits input.now F)) }
    ensures status { IfOk result (λ r. (r.status ≡ 0) ⊎ (r.status ≡ 1)) }
    // The text has the formula's clauses and the cubes of a tree, or the first fault of the input.
    ensures text { IfOk result (λ r. PrintsGrown (parse_within limits input.now) r.stdout.items) }
    ensures proof { IfOk result (λ r. r.proof ≡ None) }
{
    match dimacs::read_within(alloc, limits, input) {
        Ok(formula) => listed(alloc, &formula, leaves),
        Err(fault) if fault.kind == Kind::NoMemory => Err(AllocError),
        Err(fault) => faulty_input(alloc, fault),
    }
}

/// Reads a formula within the written limits and splits it by lookahead, as `run_look_within` does.
pub fn run_look(alloc: Global, input: &[u8], leaves: u32) -> Result<Report, AllocError>
    ensures spelled { IfOk result (λ r. (r.status ≡ 0) ↔ ((F : Cnf) × Spells input.now F)) }
    ensures status { IfOk result (λ r. (r.status ≡ 0) ⊎ (r.status ≡ 1)) }
    ensures text { IfOk result (λ r. PrintsGrown (parse input.now) r.stdout.items) }
    ensures proof { IfOk result (λ r. r.proof ≡ None) }
{
    run_look_within(alloc, Limits::written(), input, leaves)
}

/// Splits the leaf at the index `place`, from 0, in two by lookahead. The report has the deeper
/// tree as iCNF text, status 0; or `c cannot split`, status 1.
fn halves(
    alloc: Global,
    formula: &Formula,
    tree: &mut Tree,
    place: usize,
) -> Result<Report, AllocError>
    requires place { place < length tree.old }
    requires within { AreWithin (greatest_in formula.now.clauses) tree.old }
    ensures { IfOk result (PrintsHalves formula.now tree.old place (slice_index_or tree.old place [])) }
{
    let cube = tree.cube(place);
    if tree.leaves() >= LEAVES || cube.len() >= LITERALS {
        return cannot_split(alloc);
    }
    let Some(variable) = choose(alloc, formula, cube)? else {
        return cannot_split(alloc);
    };
    tree.split(place, variable)?;
    let mut report = Report::of(alloc, b"", 0)?;
    icnf::write(formula, tree, &mut report.stdout)?;
    Ok(report)
}

/// Cuts the leaf of this number, from 1, in two by lookahead. The report has the deeper tree as iCNF text, status 0; or `c cannot split`,
/// status 1, if the tree has 65,536 leaves, the cube has 64 literals, or the lookahead finds no variable; or `c no such leaf`, status 1. An
/// error is reported as `c no memory`, status 1.
pub fn run_split_by_look(alloc: Global, split: Split, leaf: u64) -> Result<Report, AllocError>
    ensures { IfOk result (PrintsCut split.formula split.tree leaf) }
{
    let Split { formula, mut tree } = split;
    if leaf == 0 || leaf > tree.leaves() as u64 {
        return Report::of(alloc, NO_LEAF, 1);
    }
    halves(alloc, &formula, &mut tree, leaf as usize - 1)
}
