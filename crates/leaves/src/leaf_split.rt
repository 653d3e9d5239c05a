//! `cubes --split`: cuts a leaf of a splitting tree in two.

ghost use Rattle.std.specs.Prelude.{◌≡◌, ◌↔◌, ◌<◌, ◌≤◌, ◌++◌, ◌⊎◌, ◌∷◌, ◌^◌, [], ℕ, IsTrue, IfOk, IfSome, IfNone, length, Some, slice_index_or};
ghost use Rattle.cube_split.specs.Choice.{Choice, IsChoice};
ghost use Rattle.dimacs.specs.logic.Base.{pure_literals};
ghost use Rattle.dimacs.specs.logic.Cnf.{AreWithin, greatest_in};
ghost use Rattle.icnf.specs.Leaves.{IsFree};
ghost use Rattle.leaves.specs.Leaf.{Prints};
ghost use Rattle.leaves.specs.inner.SplitVariable.{IsFreeVariable};
ghost use Rattle.leaves.specs.LeafSplit.{PrintsBranches, PrintsSplit, SplitsOn, cannot_split_text};

use crate::leaf::NO_LEAF;
use crate::split::Split;
use cube_split::{Chooser, preamble};
use dimacs::{Formula, Lit, Var, greatest_in};
use icnf::Tree;
use reports::Report;
use std::alloc::{AllocError, Global};

/// The most leaves that a tree may have.
pub(crate) const LEAVES: usize = 65_536;

/// The most literals that a cube may have.
pub(crate) const LITERALS: usize = 64;

/// Answers whether no literal of the cube has the variable.
fn is_free(cube: &[Lit], variable: u32) -> bool
    ensures { IsTrue result ↔ IsFree cube.now variable }
{
    cube.iter().all(|l| l.var().number() != variable)
}

/// The variable of the number that the user has named, if the cube may be split on it; None if the
/// number is 0 or above the greatest variable of a clause, or a literal of the cube has the
/// variable.
fn named(formula: &Formula, cube: &[Lit], variable: u32) -> Option<Var>
    ensures some { IfSome result (λ v. SplitsOn formula.now cube.now (Some variable) v) }
    ensures none { IfNone result ((v : ℕ) → SplitsOn formula.now cube.now (Some variable) v → ⊥) }
{
    let _ = formula.vars(); // its contract says that the formula is within its limits
    if variable > 0 && variable <= greatest_in(formula) && is_free(cube, variable) {
        Some(Var::new(variable))
    } else {
        None
    }
}

/// The variable that the split rule of `cube_split` chooses for a cube; None if the rule chooses none.
fn chosen(alloc: Global, formula: &Formula, cube: &[Lit]) -> Result<Option<Var>, AllocError>
    ensures { IfOk result (Choice formula.now (pure_literals formula.now ++ cube.now)) }
{
    let preamble = preamble(alloc, formula)?;
    let mut chooser = Chooser::reserve(alloc, formula.vars())?;
    Ok(chooser.choose(formula, &preamble, cube))
}

/// The variable on which a cube is split: the one that the user has named by the number `on`, if
/// any, and else the one that the split rule chooses. None if the cube cannot be split on it, or
/// the rule chooses none.
fn variable(
    alloc: Global,
    formula: &Formula,
    cube: &[Lit],
    on: Option<u32>,
) -> Result<Option<Var>, AllocError>
    ensures some { IfOk result (λ found. IfSome found (SplitsOn formula.now cube.now on)) }
    ensures sound { IfOk result (λ found. IfSome found (IsFreeVariable formula.now cube.now)) }
    ensures none { IfOk result (λ found. IfNone found ((v : ℕ) → SplitsOn formula.now cube.now on v → ⊥)) }
{
    let _ = formula.vars(); // its contract bounds the variables of the literals
    match on {
        Some(variable) => Ok(named(formula, cube, variable)),
        None => chosen(alloc, formula, cube),
    }
}

/// The report of a leaf that cannot be split: `c cannot split`, status 1.
pub(crate) fn cannot_split(alloc: Global) -> Result<Report, AllocError>
    ensures { IfOk result (Prints 1 cannot_split_text) }
{
    Report::of(alloc, b"c cannot split\n", 1)
}

/// Splits the leaf at the index `place`, from 0, in two. The report has the deeper tree as iCNF
/// text, status 0; or `c cannot split`, status 1.
fn branches(
    alloc: Global,
    formula: &Formula,
    tree: &mut Tree,
    place: usize,
    on: Option<u32>,
) -> Result<Report, AllocError>
    requires place { place < length tree.old }
    requires within { AreWithin (greatest_in formula.now.clauses) tree.old }
    ensures { IfOk result (PrintsBranches formula.now tree.old place (slice_index_or tree.old place []) on) }
{
    let cube = tree.cube(place);
    if tree.leaves() >= LEAVES || cube.len() >= LITERALS {
        return cannot_split(alloc);
    }
    let Some(variable) = variable(alloc, formula, cube, on)? else {
        return cannot_split(alloc);
    };
    tree.split(place, variable)?;
    let mut report = Report::of(alloc, b"", 0)?;
    icnf::write(formula, tree, &mut report.stdout)?;
    Ok(report)
}

/// Cuts the leaf of this number, from 1, in two: on the variable `on` if one is named, and else on the one that the split rule chooses. The
/// report has the deeper tree as iCNF text, status 0; or `c cannot split`, status 1, if the tree has 65,536 leaves, the cube has 64
/// literals, or there is no such variable; or `c no such leaf`, status 1. An error is reported as `c no memory`, status 1.
pub fn run_split(
    alloc: Global,
    split: Split,
    leaf: u64,
    on: Option<u32>,
) -> Result<Report, AllocError>
    ensures { IfOk result (PrintsSplit split.formula split.tree leaf on) }
{
    let Split { formula, mut tree } = split;
    if leaf == 0 || leaf > tree.leaves() as u64 {
        return Report::of(alloc, NO_LEAF, 1);
    }
    branches(alloc, &formula, &mut tree, leaf as usize - 1, on)
}
