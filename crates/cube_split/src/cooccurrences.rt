//! Which pairs of literals occur together in a formula's short clauses: one key for each pair and clause. A clause is short if it has two
//! or three distinct literals.

ghost use Rattle.std.specs.Prelude.{◌≡◌, ◌+◌, ◌*◌, ◌<◌, ◌≤◌, ◌++◌, Bool, true, length, All, IfOk, OnOk};
ghost use Rattle.std.specs.Option.{option_to_list};
ghost use Rattle.dimacs.specs.logic.Literal.{Literal, index_of};
ghost use Rattle.cube_split.specs.inner.Marks.{AreMarked};
ghost use Rattle.cube_split.specs.Pairs.{is_short};
ghost use Rattle.cube_split.specs.inner.Ranks.{AreKeys, AreDistinctOf, keys_of_two, keys_with, keys_among};

use crate::pair::Pair;
use dimacs::{Formula, Lit, has_literal};
use std::alloc::{AllocError, Global};

/// Overwrites `found` with the distinct literals of a clause. Returns whether there are two or three; it stops at the fourth.
fn collect_distinct(found: &mut Vec<Lit>, clause: &[Lit]) -> Result<bool, AllocError>
    ensures short { IfOk result (λ short. short ≡ is_short clause.now) }
    ensures gathered { IfOk result (λ short. short ≡ true → AreDistinctOf clause.now found.new.items) }
{
    found.clear();
    for &literal in clause {
        if !has_literal(found, literal) {
            // It stops at the fourth distinct literal, so that a long clause costs no more than a short one.
            if found.len() == 3 {
                return Ok(false);
            }
            found.push(literal)?;
        }
    }
    Ok(found.len() >= 2)
}

/// The key of the pair of two literals; None if one of them is marked, or if both have one variable.
fn key_of_two(marks: &[bool], x: Lit, y: Lit) -> Option<u64>
    requires size { length marks.now ≤ 268435456 }
    requires first { index_of x < length marks.now }
    requires second { index_of y < length marks.now }
    ensures { (test : Literal → Bool) → AreMarked marks.now test → option_to_list result ≡ keys_of_two test x y }
{
    if marks[x.index()] || marks[y.index()] {
        return None;
    }
    let one = x.var().number();
    let other = y.var().number();
    if one < other {
        Some(Pair {
            first: x,
            second: y,
        }
        .key())
    } else if other < one {
        Some(Pair {
            first: y,
            second: x,
        }
        .key())
    } else {
        None
    }
}

/// Appends the key of each pair of `literal` and one of the others, if the pair has a key.
fn push_with(
    keys: &mut Vec<u64>,
    marks: &[bool],
    literal: Lit,
    others: &[Lit],
) -> Result<(), AllocError>
    requires size { length marks.now ≤ 268435456 }
    requires inside { index_of literal < length marks.now }
    requires others { All (λ l. index_of l < length marks.now) others.now }
    ensures { OnOk result ((test : Literal → Bool) → AreMarked marks.now test → keys.new.items ≡ keys.old.items ++ keys_with test literal others.now) }
{
    for &other in others {
        if let Some(key) = key_of_two(marks, literal, other) {
            keys.push(key)?;
        }
    }
    Ok(())
}

/// Appends the key of each pair of two of these literals, if the pair has a key.
fn push_among(keys: &mut Vec<u64>, marks: &[bool], literals: &[Lit]) -> Result<(), AllocError>
    requires size { length marks.now ≤ 268435456 }
    requires inside { All (λ l. index_of l < length marks.now) literals.now }
    ensures { OnOk result ((test : Literal → Bool) → AreMarked marks.now test → keys.new.items ≡ keys.old.items ++ keys_among test literals.now) }
{
    for i in 0..literals.len() {
        push_with(keys, marks, literals[i], &literals[i + 1..])?;
    }
    Ok(())
}

/// The keys of the pairs without a marked literal that occur together in short clauses, clause after clause, so that a pair's key is
/// repeated for each clause.
pub(crate) fn pair_keys(
    alloc: Global,
    marks: &[bool],
    formula: &Formula,
) -> Result<Vec<u64>, AllocError>
    requires { length marks.now ≡ 2 * (formula.now.vars + 1) }
    ensures { IfOk result (λ keys. (test : Literal → Bool) → AreMarked marks.now test → AreKeys formula.now.vars test formula.now.clauses keys.items) }
{
    let _ = formula.vars(); // for proofs: the formula is within its limits
    let mut keys = Vec::new(alloc);
    let mut found = Vec::new(alloc);
    for i in 0..formula.len() {
        if collect_distinct(&mut found, formula.clause(i))? {
            push_among(&mut keys, marks, &found)?;
        }
    }
    Ok(keys)
}
