//! What a small conflict teaches.

ghost use Rattle.std.specs.Prelude.{◌≡◌, ◌≤◌, [], ◌∷◌, Some, None, IfOk};
ghost use Rattle.clause_arena.specs.Clauses.{live_of};
ghost use Rattle.dimacs.specs.logic.Literal.{Pos, Neg};
ghost use Rattle.conflict_analysis.specs.BuiltTrails.{AreInside};

use clause_arena::Arena;
use conflict_analysis::{Analyser, Closing, Lemma, analyse, close_cube};
use dimacs::{Lit, Var};
use std::alloc::{AllocError, Global};
use std::process::Abort;
use watches::{Assigned, Trail};

fn pos(number: u32) -> Lit
    requires low { 1 ≤ number }
    requires high { number ≤ 4 }
    ensures { result ≡ Pos number }
{
    Lit::positive(Var::new(number))
}

fn neg(number: u32) -> Lit
    requires low { 1 ≤ number }
    requires high { number ≤ 4 }
    ensures { result ≡ Neg number }
{
    Lit::negative(Var::new(number))
}

/// The clauses `-1 2` and `-1 -2`.
fn two_clauses(alloc: Global) -> Result<Arena, AllocError>
    ensures first { IfOk result (λ m. live_of m 1 (Neg 1 ∷ Pos 2 ∷ [])) }
    ensures second { IfOk result (λ m. live_of m 2 (Neg 1 ∷ Neg 2 ∷ [])) }
    ensures inside { IfOk result (λ m. AreInside (live_of m) 2) }
{
    let mut arena = Arena::new(alloc);
    arena.add(1, &[neg(1), pos(2)])?;
    arena.add(2, &[neg(1), neg(2)])?;
    Ok(arena)
}

/// The decision 1, and 2 by the first clause.
fn small_trail(alloc: Global) -> Result<Trail, AllocError>
    ensures vars { IfOk result (λ t. t.vars ≡ 2) }
    ensures entries { IfOk result (λ t. t.entries ≡ record { literal = Pos 1; level = 1; reason = None } ∷ record { literal = Pos 2; level = 1; reason = Some 1 } ∷ []) }
{
    let mut trail = Trail::new(alloc, 2)?;
    trail.push(Assigned {
        literal: pos(1),
        level: 1,
        reason: None,
    });
    trail.push(Assigned {
        literal: pos(2),
        level: 1,
        reason: Some(1),
    });
    Ok(trail)
}

/// What the second clause teaches, which is false.
fn analysed(alloc: Global) -> Result<Lemma, AllocError> {
    let arena = two_clauses(alloc)?;
    let trail = small_trail(alloc)?;
    analyse(alloc, &arena, &trail, 2)
}

fn is_learnt(rt: &impl Abort, lemma: &Lemma, lits: &[Lit], hints: &[u64]) {
    assert_eq!(rt; lemma.lits.as_slice(), lits);
    assert_eq!(rt; lemma.hints.as_slice(), hints);
    assert_eq!(rt; lemma.level, 0);
}

#[test]
fn a_decision_that_implies_a_conflict_is_refused(rt: HostRuntime) {
    let lemma = analysed(rt.alloc()).expect(&rt, "memory");
    is_learnt(&rt, &lemma, &[neg(1)], &[1, 2]);
}

/// An analyser behind the same.
fn analyser_behind(alloc: Global) -> Result<Analyser, AllocError> {
    let arena = two_clauses(alloc)?;
    let trail = small_trail(alloc)?;
    let mut analyser = Analyser::new(alloc);
    let _lemma = analyser.analyse(&arena, &trail, 2)?;
    Ok(analyser)
}

/// The false clause has both variables, and so has the reason that is resolved.
#[test]
fn variables_of_two_clauses_are_met_again(rt: HostRuntime) {
    let analyser = analyser_behind(rt.alloc()).expect(&rt, "memory");
    let both = [Var::new(1), Var::new(2)];
    assert_eq!(rt; analyser.met(), both.as_slice());
    assert_eq!(rt; analyser.met_again(), both.as_slice());
}

/// The clause that closes a cube by the false clause.
fn closed_by_clause(alloc: Global) -> Result<Lemma, AllocError> {
    let arena = two_clauses(alloc)?;
    let trail = small_trail(alloc)?;
    close_cube(alloc, &arena, &trail, Closing::Clause(2))
}

/// The same by the assumption that 2 is false.
fn closed_by_assumption(alloc: Global) -> Result<Lemma, AllocError> {
    let arena = two_clauses(alloc)?;
    let trail = small_trail(alloc)?;
    close_cube(alloc, &arena, &trail, Closing::Assumption(neg(2)))
}

#[test]
fn a_cube_is_closed_by_its_decisions_or_a_false_assumption(rt: HostRuntime) {
    let lemma = closed_by_clause(rt.alloc()).expect(&rt, "memory");
    is_learnt(&rt, &lemma, &[neg(1)], &[1, 2]);
    let lemma = closed_by_assumption(rt.alloc()).expect(&rt, "memory");
    is_learnt(&rt, &lemma, &[pos(2), neg(1)], &[1]);
}
