//! Defined variables in a table of marks: the literals that hold with them, and the undecided ones.

ghost use Rattle.std.specs.Prelude.{◌≡◌, ◌≢◌, ℕ, ◌+◌, ◌*◌, ◌<◌, ◌≤◌, ◌++◌, ◌&&◌, not, Bool, List, Some, true, false, length, slice_get, All, IfSome, IfNone};
ghost use Rattle.dimacs.specs.logic.Literal.{Literal, Pos, has, var_of};
ghost use Rattle.cube_split.specs.ChoiceWithDefinitions.{held_by};
ghost use Rattle.cube_split.specs.Definitions.{IsPairOf};
ghost use Rattle.cube_split.specs.inner.Marks.{AreMarked, IsUnmarked, IsUndecidedBy, literals_of};

use crate::greatest::is_unmarked;
use crate::marks::{mark, unmark};
use crate::pair::Pair;
use dimacs::{Lit, Var};

/// Marks both literals of each pair whose defined variable is marked, since the definition implies
/// them. The pairs define the variables from `vars` + 1 on.
pub(crate) fn mark_held(marks: &mut [bool], vars: u32, pairs: &[Pair])
    requires few { (vars ≤ 99999999) × (length pairs.now ≤ 64) }
    requires room { 2 * (vars + length pairs.now + 1) ≤ length marks.old }
    requires pairs { All (IsPairOf vars) pairs.now }
    ensures { (S : List Literal) → AreMarked marks.old (has S) → AreMarked marks.new (has (S ++ held_by S (vars + 1) pairs.now)) }
{
    let mut variable = vars;
    for pair in pairs {
        variable += 1;
        if marks[Lit::positive(Var::new(variable)).index()] {
            mark(marks, &[pair.first, pair.second]);
        }
    }
}

/// The pair that a literal defines: both literals of the pair hold if this literal does. None if the literal is negative or its variable is
/// not a defined one.
pub(crate) fn held_pair(vars: u32, pairs: &[Pair], literal: Lit) -> Option<Pair>
    ensures some { IfSome result (λ p. (i : ℕ) × (literal ≡ Pos (vars + 1 + i)) × (slice_get pairs.now i ≡ Some p)) }
    ensures none { IfNone result ((i : ℕ) → i < length pairs.now → literal ≢ Pos (vars + 1 + i)) }
{
    let variable = literal.var().number();
    if literal.is_negative() || variable <= vars {
        return None;
    }
    let place = (variable - vars) as usize - 1;
    if place < pairs.len() {
        Some(pairs[place])
    } else {
        None
    }
}

/// Clears the marks of both literals of each pair.
pub(crate) fn unmark_pairs(marks: &mut [bool], pairs: &[Pair])
    ensures { (test : Literal → Bool) → AreMarked marks.old test → AreMarked marks.new (λ l. test l && not (has (literals_of pairs.now) l)) }
{
    for pair in pairs {
        unmark(marks, &[pair.first, pair.second]);
    }
}

/// Whether no literal of a defined variable is marked, and none of the two variables of its pair.
fn is_undecided(marks: &[bool], variable: Var, pair: Pair) -> bool
    requires variable { 2 * variable + 1 < length marks.now }
    requires pair { IsPairOf variable pair }
    ensures yes { result ≡ true → IsUnmarked marks.now variable × IsUnmarked marks.now (var_of pair.first) × IsUnmarked marks.now (var_of pair.second) }
    ensures no { result ≡ false → IsUnmarked marks.now variable → IsUnmarked marks.now (var_of pair.first) → IsUnmarked marks.now (var_of pair.second) → ⊥ }
{
    is_unmarked(marks, variable)
        && is_unmarked(marks, pair.first.var())
        && is_unmarked(marks, pair.second.var())
}

/// The lowest defined variable that is undecided; None if there is none. The pairs define the variables from `vars` + 1 on.
pub(crate) fn first_undecided(marks: &[bool], vars: u32, pairs: &[Pair]) -> Option<Var>
    requires few { (vars ≤ 99999999) × (length pairs.now ≤ 64) }
    requires room { 2 * (vars + length pairs.now + 1) ≤ length marks.now }
    requires pairs { All (IsPairOf vars) pairs.now }
    ensures some { IfSome result (λ v. (i : ℕ) × (v ≡ vars + 1 + i) × IsUndecidedBy marks.now vars pairs.now i × ((j : ℕ) → j < i → ¬ (IsUndecidedBy marks.now vars pairs.now j))) }
    ensures none { IfNone result ((j : ℕ) → ¬ (IsUndecidedBy marks.now vars pairs.now j)) }
{
    for i in 0..pairs.len() {
        let variable = Var::new(vars + 1 + i as u32);
        if is_undecided(marks, variable, pairs[i]) {
            return Some(variable);
        }
    }
    None
}
