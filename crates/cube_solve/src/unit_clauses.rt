//! The table of unit clauses, by variable.

ghost use Rattle.std.specs.Prelude.{◌≡◌, ℕ, ◌<◌, true, [], ◌∷◌, IfOk, IfSome};
ghost use Rattle.std.specs.Bool.{OnTrue};
ghost use Rattle.clause_arena.specs.Clauses.{live_of};
ghost use Rattle.dimacs.specs.logic.ClauseMap.{map_of, live_in};
ghost use Rattle.dimacs.specs.logic.Literal.{Literal, var_of};
ghost use Rattle.cube_solve.specs.inner.UnitClauses.{AreNoted, IsUnitOf, IsNoted};

use clause_arena::Arena;
use dimacs::{Base, Lit};
use std::alloc::{AllocError, Global};

/// For each variable, the number of the unit clause of it that was added last; 0 if there was none. A noted clause may be deleted by now.
#[derive(Drop)]
pub(crate) struct UnitClauses {
    /// By variable.
    pub(crate) numbers: Vec<u64>,
}

/// Whether a clause is the unit clause of a literal.
fn is_alone(clause: &[Lit], literal: Lit) -> bool
    ensures { OnTrue result (clause.now ≡ literal ∷ []) }
{
    match clause {
        [only] => *only == literal,
        _ => false,
    }
}

/// Whether each literal of a clause is this one.
fn are_all(clause: &[Lit], literal: Lit) -> bool
    ensures { (l : Literal) → IsUnitOf clause.now l → l ≡ literal → result ≡ true }
{
    for &other in clause {
        if other != literal {
            return false;
        }
    }
    true
}

impl UnitClauses {
    /// A table of the unit clauses of a base, whose clauses are numbered from 1.
    pub(crate) fn new(alloc: Global, base: &Base) -> Result<UnitClauses, AllocError>
        ensures { IfOk result (λ units. AreNoted (live_in (map_of base.now)) units.numbers.items) }
    {
        let mut units = UnitClauses {
            numbers: vec![in alloc; 0; base.vars() as usize + 1]?,
        };
        for i in 0..base.len() {
            units.note(base.clause(i), i as u64 + 1);
        }
        Ok(units)
    }

    /// Notes a unit clause in the table: its number under its variable. A clause that repeats its
    /// one literal counts too; other clauses are ignored.
    pub(crate) fn note(&mut self, clause: &[Lit], number: u64)
        requires { 0 < number }
        ensures kept { (v : ℕ) → IsNoted self.old.numbers.items v → IsNoted self.new.numbers.items v }
        ensures noted { (l : Literal) → IsUnitOf clause.now l → IsNoted self.new.numbers.items (var_of l) }
    {
        match clause.first() {
            Some(&literal) => {
                let row = literal.var().number() as usize;
                if row < self.numbers.len() && are_all(clause, literal) {
                    self.numbers[row] = number;
                }
            }
            None => {}
        }
    }

    /// Whether a unit clause of the literal's variable was noted, live or not. A variable outside the table counts as noted.
    pub(crate) fn is_noted(&self, literal: Lit) -> bool
        ensures { IsNoted self.now.numbers.items (var_of literal) → result ≡ true }
    {
        let row = literal.var().number() as usize;
        row >= self.numbers.len() || self.numbers[row] > 0
    }

    /// The number of a live unit clause of this literal; None if the noted clause of its variable is deleted or another one.
    pub(crate) fn find(&self, arena: &Arena, literal: Lit) -> Option<u64>
        ensures { IfSome result (λ n. live_of arena.now n (literal ∷ [])) }
    {
        let row = literal.var().number() as usize;
        if row >= self.numbers.len() {
            return None;
        }
        let number = self.numbers[row];
        match arena.find(number) {
            Some(at) => {
                if is_alone(arena.clause(at), literal) {
                    Some(number)
                } else {
                    None
                }
            }
            None => None,
        }
    }
}
