//! Which two literals of a clause to watch when it is attached.

ghost use Rattle.std.specs.Prelude.{◌≡◌, ◌≢◌, ℕ, ◌+◌, ◌<◌, ◌≤◌, All, length};
ghost use Rattle.std.specs.FinMap as fin;
ghost use Rattle.dimacs.specs.logic.Literal.{Clause, IsWithin};
ghost use Rattle.clause_arena.specs.Clauses.{RefersTo, IsLive};
ghost use Rattle.watches.specs.Law.{SameUpToOrder};

use crate::trail::Trail;
use crate::truth::Truth;
use clause_arena::{Arena, Ref};
use dimacs::Lit;

/// Stands for the level of a literal that is not false: above all levels.
const NEVER: u64 = u64::MAX;

/// The level at which a literal became false; `NEVER` if it is not false.
#[inline(always)]
fn falsified_at(literal: Lit, trail: &Trail) -> u64
    requires { IsWithin trail.now.vars literal }
{
    match trail.value(literal) {
        Truth::False => u64::from(trail.entry_of(literal.negate()).level),
        _ => NEVER,
    }
}

/// The index of the best literal to watch among those from index `from` on: the first that is not
/// false, else the first of the greatest level, which a backtrack unassigns first.
fn best_from(literals: &[Lit], trail: &Trail, from: usize) -> usize
    requires within { All (IsWithin trail.now.vars) literals.now }
    requires from_in { from < length literals.now }
    ensures { result < length literals.now }
{
    let mut best = from;
    let mut latest = falsified_at(literals[from], trail);
    for k in from + 1..literals.len() {
        if latest == NEVER {
            break;
        }
        let level = falsified_at(literals[k], trail);
        if level > latest {
            best = k;
            latest = level;
        }
    }
    best
}

/// Swaps the best literal to watch, among those from index `from` on, to that index.
fn put_best(arena: &mut Arena, trail: &Trail, at: Ref, from: usize)
    requires live { IsLive arena.old at }
    requires from_in { from < at.len }
    requires within { (C : Clause) → RefersTo arena.old at C → All (IsWithin trail.now.vars) C }
    ensures same { SameUpToOrder arena.old arena.new }
    ensures others { (n : ℕ) → n ≢ at.number → fin.get arena.new n ≡ fin.get arena.old n }
{
    let best = best_from(arena.clause(at), trail, from);
    arena.swap(at, from, best);
}

/// Swaps the two best literals to watch to the front of a clause; nothing changes if it has fewer than two.
pub(crate) fn put_best_first(arena: &mut Arena, trail: &Trail, at: Ref)
    requires live { IsLive arena.old at }
    requires within { (C : Clause) → RefersTo arena.old at C → All (IsWithin trail.now.vars) C }
    ensures same { SameUpToOrder arena.old arena.new }
    ensures others { (n : ℕ) → n ≢ at.number → fin.get arena.new n ≡ fin.get arena.old n }
{
    let len = arena.clause(at).len();
    if len < 2 {
        return;
    }
    put_best(arena, trail, at, 0);
    put_best(arena, trail, at, 1);
}
