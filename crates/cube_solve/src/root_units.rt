//! Root units: unit lemmas of the literals that are true at level 0.
//!
//! Once an analysis has met such a literal, it gets a unit lemma, which is its reason from then on. So later analyses name that lemma as a
//! hint and do not trace the literal's reasons again.

ghost use Rattle.std.specs.Prelude.{◌≡◌, true, false, [], ◌∷◌, ◌++◌, All, Contains, IfOk, IfSome};
ghost use Rattle.std.specs.Bool.{OnTrue};
ghost use Rattle.std.specs.List.{IsDistinct};
ghost use Rattle.clause_arena.specs.Clauses.{IsLive, live_of};
ghost use Rattle.conflict_analysis.specs.BuiltTrails.{AreInside};
ghost use Rattle.dimacs.specs.logic.Literal.{Clause, IsWithin, same, var_of};
ghost use Rattle.watches.specs.Trails.{up_to};
ghost use Rattle.cube_solve.specs.inner.UnitClauses.{IsRootUnitLemma, IsLed, IsNoted};

use crate::unit_clauses::UnitClauses;
use clause_arena::{Arena, Ref};
use conflict_analysis::Lemma;
use dimacs::Lit;
use std::alloc::AllocError;
use watches::{Trail, Truth};

/// Whether the variable of a literal is one of the trail's.
fn is_within(trail: &Trail, literal: Lit) -> bool
    ensures { OnTrue result (IsWithin trail.now.vars literal) }
{
    let number = literal.var().number();
    0 < number && number <= trail.vars()
}

/// The number of the reason of a literal that is true at level 0; None if the literal is not, or if it has no reason.
fn reason_of(trail: &Trail, literal: Lit) -> Option<u64>
    requires { IsWithin trail.now.vars literal }
    ensures { IfSome result (λ n. up_to trail.now.entries 0 literal ≡ true) }
{
    match trail.value(literal) {
        Truth::True => {
            let entry = trail.entry_of(literal);
            if entry.level > 0 {
                return None;
            }
            entry.reason
        }
        Truth::False => None,
        Truth::Free => None,
    }
}

impl UnitClauses {
    /// Appends the hint that makes `other` false, a literal of the reason of `literal`: the number of a live unit clause of its negation.
    /// If the two are the same, no hint is needed. Returns false if `other` is not false or there is no such clause.
    fn push_hint_for(
        &self,
        arena: &Arena,
        trail: &Trail,
        literal: Lit,
        other: Lit,
        hints: &mut Vec<u64>,
    ) -> Result<bool, AllocError>
        requires { IsWithin trail.now.vars other }
        ensures { IfOk result (λ found. OnTrue found ((seen : Clause) → (Contains seen other → ⊥) → IsLed (live_of arena.now) trail.now.entries literal seen hints.old.items → IsLed (live_of arena.now) trail.now.entries literal (seen ++ other ∷ []) hints.new.items)) }
    {
        if other == literal {
            return Ok(true);
        }
        let negated = other.negate();
        if negated == literal {
            return Ok(false);
        }
        match trail.value(other) {
            Truth::False => {}
            _ => return Ok(false),
        }
        match self.find(arena, negated) {
            Some(number) => {
                hints.push(number)?;
                Ok(true)
            }
            None => Ok(false),
        }
    }

    /// Appends the hints that make each literal of a reason false, except `literal`. Returns false if one of them is not false by a live
    /// unit clause.
    fn push_hints(
        &self,
        arena: &Arena,
        trail: &Trail,
        literal: Lit,
        clause: &[Lit],
        hints: &mut Vec<u64>,
    ) -> Result<bool, AllocError>
        requires within { All (IsWithin trail.now.vars) clause.now }
        requires distinct { IsDistinct same clause.now }
        requires none { hints.old.items ≡ [] }
        ensures { IfOk result (λ found. OnTrue found (IsLed (live_of arena.now) trail.now.entries literal clause.now hints.new.items)) }
    {
        for &other in clause {
            if !self.push_hint_for(arena, trail, literal, other, hints)? {
                return Ok(false);
            }
        }
        Ok(true)
    }

    /// Overwrites `lemma` with the unit lemma of `literal`, from its reason, to which `at` refers. Returns false, and leaves `lemma`
    /// incomplete, if another literal of the reason is not false by a live unit clause.
    fn make_from_reason(
        &self,
        arena: &Arena,
        trail: &Trail,
        literal: Lit,
        at: Ref,
        lemma: &mut Lemma,
    ) -> Result<bool, AllocError>
        requires live { IsLive arena.now at }
        requires inside { AreInside (live_of arena.now) trail.now.vars }
        requires within { IsWithin trail.now.vars literal }
        requires fixed { up_to trail.now.entries 0 literal ≡ true }
        requires unnoted { IsNoted self.now.numbers.items (var_of literal) → ⊥ }
        ensures { IfOk result (λ found. OnTrue found (IsRootUnitLemma (live_of arena.now) trail.now self.now.numbers.items literal lemma.new)) }
    {
        lemma.lits.clear();
        lemma.lits.push(literal)?;
        lemma.hints.clear();
        let clause = arena.clause(at);
        if !self.push_hints(arena, trail, literal, clause, &mut lemma.hints)? {
            return Ok(false);
        }
        lemma.hints.push(at.number())?;
        Ok(true)
    }

    /// Overwrites `lemma` with the unit lemma of a literal that is true at level 0. Returns false if the literal is not, if a unit clause
    /// of its variable is noted, or if another literal of its reason is not false by a live unit clause.
    fn write_unit(
        &self,
        arena: &Arena,
        trail: &Trail,
        literal: Lit,
        lemma: &mut Lemma,
    ) -> Result<bool, AllocError>
        requires { AreInside (live_of arena.now) trail.now.vars }
        ensures { IfOk result (λ found. OnTrue found (IsRootUnitLemma (live_of arena.now) trail.now self.now.numbers.items literal lemma.new)) }
    {
        if !is_within(trail, literal) || self.is_noted(literal) {
            return Ok(false);
        }
        let Some(number) = reason_of(trail, literal) else {
            return Ok(false);
        };
        match arena.find(number) {
            Some(at) => self.make_from_reason(arena, trail, literal, at, lemma),
            None => Ok(false),
        }
    }
}

/// Pops wanted literals until one can have a unit lemma. Overwrites `lemma` with it and returns the literal; None if none can.
pub(crate) fn make_next_unit(
    wanted: &mut Vec<Lit>,
    units: &UnitClauses,
    arena: &Arena,
    trail: &Trail,
    lemma: &mut Lemma,
) -> Result<Option<Lit>, AllocError>
    requires { AreInside (live_of arena.now) trail.now.vars }
    ensures { IfOk result (λ next. IfSome next (λ l. IsRootUnitLemma (live_of arena.now) trail.now units.now.numbers.items l lemma.new)) }
{
    while let Some(literal) = wanted.pop() {
        if units.write_unit(arena, trail, literal, lemma)? {
            return Ok(Some(literal));
        }
    }
    Ok(None)
}

/// The first true literal of a clause, if it is true at level 0 by a reason; else None.
fn true_in(trail: &Trail, clause: &[Lit]) -> Option<Lit>
    requires { All (IsWithin trail.now.vars) clause.now }
{
    for &literal in clause {
        if trail.value(literal) == Truth::True {
            return match reason_of(trail, literal) {
                Some(_) => Some(literal),
                None => None,
            };
        }
    }
    None
}

/// The literal that the clause of this number implied at level 0; None if there is none.
fn implied_by(arena: &Arena, trail: &Trail, number: u64) -> Option<Lit>
    requires { AreInside (live_of arena.now) trail.now.vars }
{
    match arena.find(number) {
        Some(at) => true_in(trail, arena.clause(at)),
        None => None,
    }
}

/// Overwrites `wanted` with literals that a lemma's hints implied at level 0 and whose variables have no noted unit clause, in reverse
/// trail order. Hints are in trail order, so only the first ones are read, up to the first that implied no literal at level 0.
pub(crate) fn list_root_literals(
    wanted: &mut Vec<Lit>,
    units: &UnitClauses,
    arena: &Arena,
    trail: &Trail,
    hints: &[u64],
) -> Result<(), AllocError>
    requires { AreInside (live_of arena.now) trail.now.vars }
{
    wanted.clear();
    for &number in hints {
        match implied_by(arena, trail, number) {
            Some(literal) => {
                if !units.is_noted(literal) {
                    wanted.push(literal)?;
                }
            }
            None => {
                wanted.reverse();
                return Ok(());
            }
        }
    }
    wanted.reverse();
    Ok(())
}
