//! Final analysis (`analyzeFinal` of MiniSat): if all decisions are assumptions, a conflict is traced back to those that cause it.

ghost use Rattle.std.specs.Prelude.{◌≡◌, nat_eq, ◌+◌, ◌<◌, true, [], length, take, slice_index_or, Some, All, Contains, IfOk, OnOk};
ghost use Rattle.clause_arena.specs.Clauses.{live_of};
ghost use Rattle.dimacs.specs.logic.Literal.{Literal, Clause, IsWithin, negation, var_of};
ghost use Rattle.dimacs.specs.logic.Propagation.{Rup};
ghost use Rattle.conflict_analysis.specs.BuiltTrails.{AreBuilt, AreInside};
ghost use Rattle.conflict_analysis.specs.inner.Seen.{met};
ghost use Rattle.conflict_analysis.specs.inner.TrailWalk.{HasMet, AreKnown, AreMet};
ghost use Rattle.conflict_analysis.specs.Lemmas.{IsClosing, NegatesAssumptions};
ghost use Rattle.conflict_analysis.specs.declared.final_analysis.Closing.TheVariants as closing;
ghost use Rattle.conflict_analysis.specs.inner.FinalAnalysis.{IsTraceable, IsTracing, AreNegated, AreOutside, AreFalseOr};
ghost use Rattle.watches.specs.Trails.{holds};
ghost use Rattle.watches.specs.declared.trail.Assigned.{Assigned};

use crate::lemma::Lemma;
use crate::seen::Seen;
use clause_arena::Arena;
use dimacs::Lit;
use std::alloc::{AllocError, Global};
use watches::{Assigned, Trail};

/// The conflict that closes a cube.
#[derive(Clone, Copy)]
pub enum Closing {
    /// The clause of this number is false.
    Clause(u64),
    /// This assumption is false: its negation was implied.
    Assumption(Lit),
}

/// Marks the variables of a clause as seen. `front` is the part of the trail that has not been walked yet.
fn mark_clause(front: &[Assigned], seen: &mut Seen, clause: &[Lit])
    requires known { AreKnown front.now (met seen.old) clause.now }
    requires sized { (k : Literal) → Contains clause.now k → var_of k < length seen.old }
    ensures all { AreMet (met seen.new) clause.now }
    ensures seen { HasMet front.now seen.old seen.new }
{
    for literal in clause {
        seen.insert(literal.var());
    }
}

/// Marks the variables of the live clause of this number as seen.
fn mark_number(arena: &Arena, front: &[Assigned], seen: &mut Seen, number: u64)
    requires sized { (C : Clause) → live_of arena.now number C → (k : Literal) → Contains C k → var_of k < length seen.old }
    requires known { (C : Clause) → live_of arena.now number C → AreKnown front.now (met seen.old) C }
    requires live { (C : Clause) × live_of arena.now number C }
    ensures all { (C : Clause) → live_of arena.now number C → AreMet (met seen.new) C }
    ensures seen { HasMet front.now seen.old seen.new }
{
    if let Some(at) = arena.find(number) {
        mark_clause(front, seen, arena.clause(at));
    }
}

/// Steps past the entry at index i of the trail. If its variable was seen and the entry is implied, appends its reason to the hints and
/// marks the reason's variables; if it is a decision, appends its negation to the lemma.
fn trace_entry(
    arena: &Arena,
    entries: &[Assigned],
    i: usize,
    seen: &mut Seen,
    lemma: &mut Lemma,
) -> Result<(), AllocError>
    requires front { IsTraceable (live_of arena.now) entries.now (length seen.old) }
    requires within { i < length entries.now }
    ensures way { OnOk result ((first : Clause) → IsTracing (live_of arena.now) entries.now first (i + 1) seen.old lemma.old → IsTracing (live_of arena.now) entries.now first i seen.new lemma.new) }
    ensures seen { OnOk result (HasMet (take i entries.now) seen.old seen.new) }
{
    let entry = entries[i];
    if !seen.has(entry.literal.var()) {
        return Ok(());
    }
    match entry.reason {
        Some(number) => {
            mark_number(arena, &entries[..i], seen, number);
            lemma.hints.push(number)?;
            Ok(())
        }
        None => {
            lemma.lits.push(entry.literal.negate())?;
            Ok(())
        }
    }
}

/// Traces the seen entries from the last to the first, so that the hints come in reverse trail order.
fn trace(
    arena: &Arena,
    entries: &[Assigned],
    seen: &mut Seen,
    lemma: &mut Lemma,
) -> Result<(), AllocError>
    requires front { IsTraceable (live_of arena.now) entries.now (length seen.old) }
    requires hints { lemma.old.hints.items ≡ [] }
    requires level { lemma.old.level ≡ 0 }
    ensures way { OnOk result (IsTracing (live_of arena.now) entries.now lemma.old.lits.items 0 seen.new lemma.new) }
    ensures seen { OnOk result (HasMet entries.now seen.old seen.new) }
{
    let mut i = entries.len();
    while i > 0 {
        i -= 1;
        trace_entry(arena, entries, i, seen, lemma)?;
    }
    Ok(())
}

/// Completes a lemma from a false clause: marks its variables, traces them back to decisions, whose
/// negations become literals, and ends the list of hints with the clause's number. The clause may
/// also have a literal that is not false, if the lemma has it already.
fn close(
    arena: &Arena,
    entries: &[Assigned],
    seen: &mut Seen,
    number: u64,
    lemma: &mut Lemma,
) -> Result<(), AllocError>
    requires front { IsTraceable (live_of arena.now) entries.now (length seen.old) }
    requires hints { lemma.old.hints.items ≡ [] }
    requires level { lemma.old.level ≡ 0 }
    requires live { (C : Clause) × live_of arena.now number C × AreFalseOr entries.now lemma.old.lits.items C }
    requires first { AreOutside entries.now lemma.old.lits.items }
    requires known { AreMet (met seen.old) lemma.old.lits.items }
    ensures rup { OnOk result (Rup (live_of arena.now) lemma.new.lits.items lemma.new.hints.items) }
    ensures negated { OnOk result (AreNegated entries.now lemma.old.lits.items lemma.new.lits.items) }
    ensures level { OnOk result (lemma.new.level ≡ 0) }
{
    mark_number(arena, entries, seen, number);
    trace(arena, entries, seen, lemma)?;
    lemma.conclude(number)
}

/// The index of a true literal's entry.
fn place_of(entries: &[Assigned], literal: Lit) -> usize
    requires { holds entries.now literal ≡ true }
    ensures below { result < length entries.now }
    ensures here { (d : Assigned) → (slice_index_or entries.now result d).literal ≡ literal }
{
    let mut i = 0;
    while entries[i].literal != literal {
        i += 1;
    }
    i
}

/// Completes an empty lemma from an assumption whose negation was implied: the negation's reason is
/// traced back to decisions as a false clause is.
fn close_assumption(
    arena: &Arena,
    entries: &[Assigned],
    seen: &mut Seen,
    literal: Lit,
    lemma: &mut Lemma,
) -> Result<(), AllocError>
    requires front { IsTraceable (live_of arena.now) entries.now (length seen.old) }
    requires closing { IsClosing (live_of arena.now) entries.now (closing.Assumption literal) }
    requires lits { lemma.old.lits.items ≡ [] }
    requires hints { lemma.old.hints.items ≡ [] }
    requires level { lemma.old.level ≡ 0 }
    ensures rup { OnOk result (Rup (live_of arena.now) lemma.new.lits.items lemma.new.hints.items) }
    ensures negates { OnOk result (NegatesAssumptions entries.now (closing.Assumption literal) lemma.new.lits.items) }
    ensures level { OnOk result (lemma.new.level ≡ 0) }
{
    let negation = literal.negate();
    let place = place_of(entries, negation);
    let entry = entries[place];
    let number = entry.reason.unwrap();
    lemma.lits.push(negation)?;
    seen.insert(negation.var());
    close(arena, &entries[..place], seen, number, lemma)
}

/// Makes the lemma that closes a cube: it follows by reverse unit propagation along its hints. Its literals are negations of decisions, and
/// of the false assumption if there is one. Its level is 0.
pub fn close_cube(
    alloc: Global,
    arena: &Arena,
    trail: &Trail,
    closing: Closing,
) -> Result<Lemma, AllocError>
    requires built { AreBuilt (live_of arena.now) [] trail.now.entries }
    requires inside { AreInside (live_of arena.now) trail.now.vars }
    requires closing { IsClosing (live_of arena.now) trail.now.entries closing }
    ensures rup { IfOk result (λ lemma. Rup (live_of arena.now) lemma.lits.items lemma.hints.items) }
    ensures negates { IfOk result (λ lemma. NegatesAssumptions trail.now.entries closing lemma.lits.items) }
    ensures within { IfOk result (λ lemma. All (IsWithin trail.now.vars) lemma.lits.items) }
    ensures level { IfOk result (λ lemma. lemma.level ≡ 0) }
{
    let entries = trail.entries();
    let mut seen = Seen::with_room(alloc, trail.vars())?;
    let mut lemma = Lemma::new(alloc);
    match closing {
        Closing::Clause(number) => {
            close(arena, entries, &mut seen, number, &mut lemma)?;
            Ok(lemma)
        }
        Closing::Assumption(literal) => {
            close_assumption(arena, entries, &mut seen, literal, &mut lemma)?;
            Ok(lemma)
        }
    }
}
