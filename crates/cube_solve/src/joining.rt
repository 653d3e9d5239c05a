//! How much of the trail stays: for a clause that joins a search, and for the next query of a session.

ghost use Rattle.std.specs.Prelude.{◌≡◌, ℕ, ◌<◌, ◌≤◌, true, false, All, Contains};
ghost use Rattle.std.specs.Bool.{OnTrue};
ghost use Rattle.std.specs.List.{IsDistinct};
ghost use Rattle.dimacs.specs.logic.Literal.{Literal, IsWithin, same};
ghost use Rattle.watches.specs.Law.{NeitherFalseNorUnit};
ghost use Rattle.watches.specs.Trails.{present, up_to};

use dimacs::Lit;
use watches::{Trail, Truth};

/// Whether a literal is true at a level or below it.
fn is_true_at(trail: &Trail, literal: Lit, level: u32) -> bool
    requires { IsWithin trail.now.vars literal }
    ensures { OnTrue result (up_to trail.now.entries level literal ≡ true) }
{
    match trail.value(literal) {
        Truth::True => trail.entry_of(literal).level <= level,
        Truth::False => false,
        Truth::Free => false,
    }
}

/// Whether each of these literals is true at a level or below it.
pub(crate) fn are_true_at(trail: &Trail, literals: &[Lit], level: u32) -> bool
    requires { All (IsWithin trail.now.vars) literals.now }
    ensures { OnTrue result ((l : Literal) → Contains literals.now l → up_to trail.now.entries level l ≡ true) }
{
    for &literal in literals {
        if !is_true_at(trail, literal, level) {
            return false;
        }
    }
    true
}

/// The level at which a literal became true; the present level if it is not true.
fn true_from(trail: &Trail, literal: Lit) -> u32
    requires { IsWithin trail.now.vars literal }
    ensures before { (k : ℕ) → k < result → k < present trail.now.entries → up_to trail.now.entries k literal ≡ false }
    ensures from { (k : ℕ) → result ≤ k → k < present trail.now.entries → up_to trail.now.entries k literal ≡ true }
{
    let _ = trail.entries(); // tells the proof that no two entries have one variable
    match trail.value(literal) {
        Truth::True => trail.entry_of(literal).level,
        Truth::False => trail.level(),
        Truth::Free => trail.level(),
    }
}

/// The highest level to which the trail may be cut for a clause to join: below it the clause is neither false nor unit.
pub(crate) fn joining_level(trail: &Trail, clause: &[Lit]) -> u32
    requires distinct { IsDistinct same clause.now }
    requires within { All (IsWithin trail.now.vars) clause.now }
    ensures { (k : ℕ) → k < result → k < present trail.now.entries → NeitherFalseNorUnit (up_to trail.now.entries k) clause.now }
{
    let _ = trail.entries(); // tells the proof that no literal is true beside its negation
    let mut first: u32 = 0; // below this level some literal of the clause is not false
    let mut second: u32 = 0; // below this level two literals of the clause are not false
    let mut satisfied = trail.level(); // from this level on a literal of the clause is true
    for &literal in clause {
        let falsified = true_from(trail, literal.negate());
        second = second.max(first.min(falsified));
        first = first.max(falsified);
        satisfied = satisfied.min(true_from(trail, literal));
    }
    if satisfied <= second {
        trail.level()
    } else {
        second
    }
}
