//! The writer of iCNF texts. After a refusal of memory, a private function may have appended a prefix of its text.

ghost use Rattle.std.specs.Prelude.{◌≡◌, ◌++◌, OnOk, OnErr, codes, flat_map};
ghost use Rattle.dimacs.specs.logic.Cnf.{FitsIn, AreWithin, greatest_in};
ghost use Rattle.dimacs.specs.logic.Limits.{Limits};
ghost use Rattle.dimacs.specs.text.Grammar.{Begins, clause_line};
ghost use Rattle.icnf.specs.Grammar.{SpellsWithin, cube_line, formula_of, spelling};

use crate::tree::Tree;
use dimacs::{Formula, Lit, put_clause};
use std::alloc::AllocError;

/// Appends a text.
fn put(out: &mut Vec<u8>, text: &[u8]) -> Result<(), AllocError>
    ensures ok { OnOk result (out.new.items ≡ out.old.items ++ text.now) }
    ensures begins { Begins out.old.items out.new.items }
{
    out.extend_from_slice(text)
}

/// Appends a cube's line: `a`, each literal, then `0` and LF.
fn put_cube(out: &mut Vec<u8>, cube: &[Lit]) -> Result<(), AllocError>
    ensures ok { OnOk result (out.new.items ≡ out.old.items ++ cube_line cube.now) }
    ensures begins { Begins out.old.items out.new.items }
{
    put(out, b"a ")?;
    put_clause(out, cube)
}

/// Appends the lines of a formula's clauses.
fn put_clauses(out: &mut Vec<u8>, formula: &Formula) -> Result<(), AllocError>
    ensures ok { OnOk result (out.new.items ≡ out.old.items ++ flat_map clause_line formula.now.clauses) }
    ensures begins { Begins out.old.items out.new.items }
{
    for i in 0..formula.len() {
        put_clause(out, formula.clause(i))?;
    }
    Ok(())
}

/// Appends the lines of a tree's cubes.
fn put_cubes(out: &mut Vec<u8>, tree: &Tree) -> Result<(), AllocError>
    ensures ok { OnOk result (out.new.items ≡ out.old.items ++ flat_map cube_line tree.now) }
    ensures begins { Begins out.old.items out.new.items }
{
    for i in 0..tree.leaves() {
        put_cube(out, tree.cube(i))?;
    }
    Ok(())
}

/// Appends the whole iCNF text: the header, the clauses and the cubes.
fn put_all(out: &mut Vec<u8>, formula: &Formula, tree: &Tree) -> Result<(), AllocError>
    ensures ok { OnOk result (out.new.items ≡ out.old.items ++ spelling formula.now.clauses tree.now) }
    ensures begins { Begins out.old.items out.new.items }
{
    put(out, b"p inccnf\n")?;
    put_clauses(out, formula)?;
    put_cubes(out, tree)
}

/// Appends a formula and a tree over its variables as iCNF text. The text has no number of variables, so variables above the greatest one
/// of the clauses are lost. If memory is refused, `out` is as before.
pub fn write(formula: &Formula, tree: &Tree, out: &mut Vec<u8>) -> Result<(), AllocError>
    requires { AreWithin (greatest_in formula.now.clauses) tree.now }
    ensures ok { OnOk result (out.new.items ≡ out.old.items ++ spelling formula.now.clauses tree.now) }
    // The text that is written spells the clauses and the tree within all limits that the formula fits into, so there it is read as the
    // same clauses and the same tree.
    ensures fits { (L : Limits) → FitsIn L formula.now → SpellsWithin L (spelling formula.now.clauses tree.now) (formula_of formula.now.clauses) tree.now }
    ensures err { OnErr result (out.new.items ≡ out.old.items) }
{
    let _ = formula.vars(); // its contract says that the formula is within its limits
    let _ = tree.leaves(); // its contract says that the cubes are a tree's, within its limits
    let len = out.len();
    let written = put_all(out, formula, tree);
    if written.is_err() {
        out.truncate(len);
    }
    written
}
