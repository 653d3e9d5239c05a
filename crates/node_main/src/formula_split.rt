//! The tree by which a formula is split: that of the cubes that are handed in, or that of the split rule.

ghost use Rattle.std.specs.Prelude.{◌≡◌, ◌≤◌, ◌↔◌, ℕ, IsTrue, IfOk, option_map};
ghost use Rattle.node_main.specs.FormulaSplit.{Splits, SplitsByRule, SplitsByText, StaysInside, StaysNarrow, depth_for, leaves_for};

use cube_split::{Opened, definitions_are_settled, tree_with};
use dimacs::{Formula, Limits};
use icnf::{IcnfFault, Kind, Tree};
use std::alloc::{AllocError, Global};

/// The tree of a formula, or why the cubes that were handed in are refused.
#[derive(Drop)]
pub(crate) enum Split {
    /// The tree by which the formula is split.
    By(Tree),
    /// The cubes that were handed in are no iCNF text, and have this fault.
    Faulty(IcnfFault),
    /// The clauses of the iCNF text are not the clauses of the formula.
    OtherFormula,
}

/// Tells whether two formulas have the same clauses: the same lists of literals in the same order.
fn has_clauses_of(formula: &Formula, other: &Formula) -> bool
    ensures { IsTrue result ↔ other.now.clauses ≡ formula.now.clauses }
{
    if formula.len() != other.len() {
        return false;
    }
    for i in 0..formula.len() {
        if formula.clause(i) != other.clause(i) {
            return false;
        }
    }
    true
}

/// The most variables of a formula that is split: the literals of a frame have variables up to 2,000,000.
const MOST: u32 = 1_000_000;

/// The depth to which a formula is split: `depth`, but 0 if it has more variables than `MOST`,
/// since frames have a limit on the variables of a cube.
fn depth_for(formula: &Formula, depth: u32) -> u32
    ensures value { result ≡ depth_for formula.now depth }
    ensures most { result ≤ depth }
{
    if formula.vars() <= MOST { depth } else { 0 }
}

/// The leaves of a formula for which these cubes were handed in: the cubes, but one leaf without
/// literals if the formula has more variables than `MOST`, since frames have a limit on the
/// variables of a cube.
fn leaves_for(alloc: Global, formula: &Formula, cubes: Tree) -> Result<Tree, AllocError>
    ensures { IfOk result (λ t. t ≡ leaves_for formula.now cubes) }
{
    if formula.vars() <= MOST {
        Ok(cubes)
    } else {
        Tree::leaf(alloc)
    }
}

/// Reads the tree of an iCNF text within these limits. Answers `Faulty` if the text has a fault, and `OtherFormula` if its clauses are not
/// the formula's. An error is want of memory.
fn read_split(
    alloc: Global,
    formula: &Formula,
    limits: Limits,
    cubes: &[u8],
) -> Result<Split, AllocError>
    ensures splits { IfOk result (SplitsByText limits formula.now cubes.now) }
    ensures inside { (defs : ℕ) → IfOk result (StaysInside formula.now defs) }
    ensures narrow { IfOk result (StaysNarrow formula.now) }
{
    let _ = formula.vars(); // its contract says that the formula is within its limits
    let (other, tree) = match icnf::read_within(alloc, limits, cubes) {
        Ok(found) => found,
        Err(fault) if fault.kind == Kind::NoMemory => return Err(AllocError),
        Err(fault) => return Ok(Split::Faulty(fault)),
    };
    if has_clauses_of(formula, &other) {
        let leaves = leaves_for(alloc, formula, tree)?;
        Ok(Split::By(leaves))
    } else {
        Ok(Split::OtherFormula)
    }
}

/// Splits a formula by the split rule over its definitions, to this depth, from 0 to 16. An error is want of memory.
fn split_by_rule(alloc: Global, opened: &Opened, depth: u32) -> Result<Split, AllocError>
    requires { depth ≤ 16 }
    ensures splits { IfOk result (SplitsByRule opened.now.formula depth opened.now.definitions.wanted) }
    ensures inside { IfOk result (StaysInside opened.now.formula opened.now.definitions.wanted) }
    ensures narrow { IfOk result (StaysNarrow opened.now.formula) }
{
    definitions_are_settled();
    let formula = opened.formula();
    let levels = depth_for(formula, depth);
    let tree = tree_with(alloc, formula, opened.preamble(), levels)?;
    Ok(Split::By(tree))
}

/// Splits a formula by the cubes that are handed in, or, without any, by the split rule over its definitions, to this depth, from 0 to 16.
/// An error is want of memory.
pub(crate) fn split_of(
    alloc: Global,
    opened: &Opened,
    limits: Limits,
    cubes: Option<&[u8]>,
    depth: u32,
) -> Result<Split, AllocError>
    requires { depth ≤ 16 }
    ensures splits { IfOk result (Splits limits opened.now.formula (option_map (λ t. t.now) cubes.entry) depth opened.now.definitions.wanted) }
    ensures inside { IfOk result (StaysInside opened.now.formula opened.now.definitions.wanted) }
    ensures narrow { IfOk result (StaysNarrow opened.now.formula) }
{
    match cubes {
        Some(cubes) => read_split(alloc, opened.formula(), limits, cubes),
        None => split_by_rule(alloc, opened, depth),
    }
}
