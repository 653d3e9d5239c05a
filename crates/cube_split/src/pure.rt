//! The preamble of a formula: the unit clauses of its pure literals, and definitions. A literal is pure if it occurs in the formula and its
//! negation does not.

ghost use Rattle.std.specs.Prelude.{◌≡◌, ◌+◌, ◌*◌, ◌<◌, ◌≤◌, ◌&&◌, ◌∷◌, [], not, filter, length, vec_len, All, Bool, List, IfOk, option_to_list};
ghost use Rattle.dimacs.specs.logic.Base.{occurs, pure_literals};
ghost use Rattle.dimacs.specs.logic.Literal.{Literal, Clause, Pos, Neg, negation, IsWithin};
ghost use Rattle.cube_split.specs.Definitions.{IsPairOf, pure_opening};
ghost use Rattle.cube_split.specs.inner.Marks.{AreMarked};
ghost use Rattle.cube_split.specs.Pairs.{AreDefined};

use crate::frequent_pairs::defined_pairs;
use crate::marks::mark;
use crate::units::Preamble;
use dimacs::{Formula, Lit, Var};
use std::alloc::{AllocError, Global};

/// Marks each literal that occurs in the formula.
fn mark_occurring(marks: &mut [bool], formula: &Formula)
    requires { AreMarked marks.old (λ l. occurs [] l) }
    ensures { AreMarked marks.new (occurs formula.now.clauses) }
{
    for i in 0..formula.len() {
        mark(marks, formula.clause(i));
    }
}

/// The literal of a variable that is marked while its negation is not; None if both or neither are marked.
fn pure_literal(marks: &[bool], var: Var) -> Option<Lit>
    requires { 2 * var + 1 < length marks.now }
    ensures { (test : Literal → Bool) → AreMarked marks.now test →
        option_to_list result ≡ filter (λ l. test l && not (test (negation l))) (Pos var ∷ Neg var ∷ []) }
{
    let positive = Lit::positive(var);
    let negative = Lit::negative(var);
    match (marks[positive.index()], marks[negative.index()]) {
        (true, false) => Some(positive),
        (false, true) => Some(negative),
        _ => None,
    }
}

/// The literals of the variables from 1 to `vars` that are marked while their negations are not, in the order of the variables.
fn pure_units(alloc: Global, marks: &[bool], vars: u32) -> Result<Vec<Lit>, AllocError>
    requires limit { vars ≤ 99999999 }
    requires size { 2 * vars + 1 < length marks.now }
    ensures units { (clauses : List Clause) → AreMarked marks.now (occurs clauses) →
        IfOk result (λ u. u.items ≡ pure_literals (record { vars = vars; clauses = clauses })) }
    ensures within { (clauses : List Clause) → AreMarked marks.now (occurs clauses) → IfOk result (λ u. All (IsWithin vars) u.items) }
    ensures count { IfOk result (λ u. vec_len u ≤ vars) }
{
    let mut units = Vec::new(alloc);
    for number in 1..vars + 1 {
        if let Some(literal) = pure_literal(marks, Var::new(number)) {
            units.push(literal)?;
        }
    }
    Ok(units)
}

/// Computes the preamble of a formula without definitions: the unit clause of each pure literal, in the order of the variables.
pub fn preamble(alloc: Global, formula: &Formula) -> Result<Preamble, AllocError>
    ensures units { IfOk result (λ p. p ≡ pure_opening formula.now) }
    ensures within { IfOk result (λ p. All (IsWithin formula.now.vars) p.units) }
{
    preamble_with(alloc, formula, 0)
}

/// Computes the preamble of a formula: the unit clause of each pure literal, and `defs` definitions, or fewer if no pair is left. Each
/// definition is of the pair of literals, not taken yet, that occur together in the most clauses of two or three distinct literals. Of
/// several it is that of the lowest first variable, then of the lowest second variable, then with a positive first literal, then with a
/// positive second one.
pub fn preamble_with(alloc: Global, formula: &Formula, defs: u32) -> Result<Preamble, AllocError>
    requires { defs ≤ 64 }
    ensures units { IfOk result (λ p. p.units ≡ pure_literals formula.now) }
    ensures pairs { IfOk result (λ p. AreDefined formula.now defs [] p.pairs) }
    ensures within { IfOk result (λ p. All (IsWithin formula.now.vars) p.units) }
    ensures inside { IfOk result (λ p. All (IsPairOf formula.now.vars) p.pairs) }
{
    let vars = formula.vars();
    let mut marks = vec![in alloc; false; 2 * vars as usize + 2]?;
    mark_occurring(&mut marks, formula);
    let units = pure_units(alloc, &marks, vars)?;
    let pairs = defined_pairs(alloc, formula, &units, defs)?;
    Ok(Preamble::new(units, pairs))
}
