//! `leaf`: prints the formula of a leaf, for any solver.

ghost use Rattle.std.specs.Prelude.{◌≡◌, ◌≤◌, ◌∷◌, [], map, nat_eq, length, IfOk, IfSome, Some, option_map, All};
ghost use Rattle.std.specs.List.{IsDistinct};
ghost use Rattle.dimacs.specs.logic.Cnf.{AreWithin};
ghost use Rattle.dimacs.specs.logic.Literal.{IsWithin, var_of};
ghost use Rattle.leaves.specs.Leaf.{GivesLeaf, GivesLeafOf, PrintsLeaf, PrintsText, Prints, above_limit_text, leaf_at, leaf_of, no_leaf_text};

use crate::split::Split;
use dimacs::{Builder, Extension, Formula, Limits, Lit};
use icnf::Tree;
use reports::Report;
use std::alloc::{AllocError, Global};

/// What is printed if there is no such leaf.
pub(crate) const NO_LEAF: &[u8] = b"c no such leaf\n";

/// The cube of the leaf of this number, from 1; None if there is no such leaf.
pub(crate) fn cube_of(tree: &Tree, leaf: u64) -> Option<&[Lit]>
    ensures found { option_map (λ q. q.now) result ≡ leaf_at tree.now leaf }
    ensures short { IfSome result (λ q. length q.now ≤ 64) }
    ensures distinct { IfSome result (λ q. IsDistinct nat_eq (map var_of q.now)) }
{
    if leaf == 0 || leaf > tree.leaves() as u64 {
        return None;
    }
    Some(tree.cube(leaf as usize - 1))
}

/// Builds a unit clause for each literal of a cube: the clauses that the formula of a leaf has in
/// addition.
fn units(alloc: Global, vars: u32, cube: &[Lit]) -> Result<Extension, AllocError>
    requires within { All (IsWithin vars) cube.now }
    requires short { length cube.now ≤ 64 }
    ensures { IfOk result (λ x. x ≡ record { vars = vars; clauses = map (λ l. l ∷ []) cube.now }) }
{
    let mut builder = Builder::new(alloc)?;
    for literal in cube {
        builder.push(*literal)?;
        builder.end_clause()?;
    }
    Ok(builder.finish_extension(vars))
}

/// The report of a formula.
fn formula_report(alloc: Global, formula: &Formula) -> Result<Report, AllocError>
    ensures { IfOk result (PrintsText formula.now) }
{
    let mut report = Report::of(alloc, b"", 0)?;
    dimacs::write(formula, &mut report.stdout)?;
    Ok(report)
}

/// The formula under a cube; or, as the inner error, the report `c leaf above limit`, status 1, if that formula is above one of these limits.
fn formula_under(
    alloc: Global,
    limits: Limits,
    formula: &Formula,
    cube: &[Lit],
) -> Result<Result<Formula, Report>, AllocError>
    requires within { All (IsWithin formula.now.vars) cube.now }
    requires short { length cube.now ≤ 64 }
    ensures { IfOk result (GivesLeafOf limits formula.now (Some cube.now)) }
{
    let units = units(alloc, formula.vars(), cube)?;
    match formula.extended_within(alloc, limits, &units)? {
        None => Ok(Err(Report::of(alloc, b"c leaf above limit\n", 1)?)),
        Some(leaf) => Ok(Ok(leaf)),
    }
}

/// The formula of the leaf of this number, from 1: the formula's clauses, and then a unit clause for each literal of the cube. If there is
/// no such leaf, or its formula is above these limits, the inner error is the report that says so, status 1. The outer error is want of
/// memory.
pub fn leaf_formula(
    alloc: Global,
    limits: Limits,
    split: &Split,
    leaf: u64,
) -> Result<Result<Formula, Report>, AllocError>
    ensures { IfOk result (GivesLeaf limits split.now.formula split.now.tree leaf) }
{
    match cube_of(&split.tree, leaf) {
        None => Ok(Err(Report::of(alloc, NO_LEAF, 1)?)),
        Some(cube) => formula_under(alloc, limits, &split.formula, cube),
    }
}

/// The report of the leaf of this number, from 1: its formula as DIMACS text, which has the formula's clauses and then a unit clause for
/// each literal of the cube, status 0. If there is no such leaf, or its formula is above these limits, the report says so, status 1. An
/// error is reported as `c no memory`, status 1.
pub fn run_leaf(
    alloc: Global,
    limits: Limits,
    split: &Split,
    leaf: u64,
) -> Result<Report, AllocError>
    ensures { IfOk result (PrintsLeaf limits split.now.formula split.now.tree leaf) }
{
    match leaf_formula(alloc, limits, split, leaf)? {
        Ok(formula) => formula_report(alloc, &formula),
        Err(report) => Ok(report),
    }
}
