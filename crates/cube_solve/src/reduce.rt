//! Reduction of the lemmas: deletes three quarters of those that may be deleted.

ghost use Rattle.std.specs.Prelude.{◌≡◌, ℕ, ◌+◌, ◌<◌, [], ◌∷◌, ◌++◌, ◌⊎◌, Some, is_some, length, All, Contains, IfOk, OnOk, filter};
ghost use Rattle.std.specs.Bool.{OnTrue, OnFalse};
ghost use Rattle.std.specs.FinMap.{get};
ghost use Rattle.clause_arena.specs.Clauses.{live_of};
ghost use Rattle.conflict_analysis.specs.BuiltTrails.{AreBuilt, AreInside};
ghost use Rattle.dimacs.specs.logic.Literal.{IsWithin};
ghost use Rattle.lrat_text.specs.Grammar.{IsClauseNumber};
ghost use Rattle.lrat_text.specs.Log.{Cube};
ghost use Rattle.watches.specs.declared.trail.Assigned.{Assigned};
ghost use Rattle.cube_solve.specs.inner.Reduction.{AreRising, AreLemmas, DeletesLemmas, IsDeletable, AreAllExcept, MayReduce};
ghost use Rattle.cube_solve.specs.inner.LearntLog.{AreBelow};
ghost use Rattle.cube_solve.specs.inner.State.{IsState, IsAssuming};
ghost use Rattle.cube_solve.specs.inner.SearchInvariants.{IsSteady};

use crate::lemma_stats::LemmaStats;
use crate::search::Search;
use clause_arena::Arena;
use dimacs::Lit;
use std::alloc::{AllocError, Global};
use watches::{Assigned, Propagator, Trail, Truth};

/// Whether the reason of an entry is the clause of this number.
fn has_reason(entry: Assigned, number: u64) -> bool
    ensures { OnFalse result (¬ (entry.reason ≡ Some number)) }
{
    match entry.reason {
        Some(reason) => reason == number,
        None => false,
    }
}

/// Whether a literal is true on the trail, and the clause of this number is its reason.
fn is_implied_by(trail: &Trail, literal: Lit, number: u64) -> bool
    requires { IsWithin trail.now.vars literal }
    ensures { OnFalse result ((e : Assigned) → Contains trail.now.entries e → e.literal ≡ literal → ¬ (e.reason ≡ Some number)) }
{
    let _ = trail.entries(); // tells the proof that no two entries have one variable
    match trail.value(literal) {
        Truth::True => has_reason(trail.entry_of(literal), number),
        Truth::False => false,
        Truth::Free => false,
    }
}

/// Whether a clause, whose number is `number`, is the reason of one of its literals.
fn is_reason(trail: &Trail, clause: &[Lit], number: u64) -> bool
    requires { All (IsWithin trail.now.vars) clause.now }
    ensures { OnFalse result ((e : Assigned) → Contains trail.now.entries e → Contains clause.now e.literal → ¬ (e.reason ≡ Some number)) }
{
    for &literal in clause {
        if is_implied_by(trail, literal, number) {
            return true;
        }
    }
    false
}

/// Whether the clause of this number may be deleted: it is live, has three or more literals, and is no reason.
fn is_deletable(arena: &Arena, trail: &Trail, number: u64) -> bool
    requires built { AreBuilt (live_of arena.now) [] trail.now.entries }
    requires inside { AreInside (live_of arena.now) trail.now.vars }
    ensures { OnTrue result (IsDeletable (live_of arena.now) trail.now.entries number) }
{
    match arena.find(number) {
        Some(at) => {
            let clause = arena.clause(at);
            clause.len() > 2 && !is_reason(trail, clause, number)
        }
        None => false,
    }
}

/// Appends the number of a lemma to `spare` if its statistics and `is_deletable` allow its deletion.
fn push_deletable(
    arena: &Arena,
    trail: &Trail,
    uses: &LemmaStats,
    number: u64,
    spare: &mut Vec<u64>,
) -> Result<(), AllocError>
    requires built { AreBuilt (live_of arena.now) [] trail.now.entries }
    requires inside { AreInside (live_of arena.now) trail.now.vars }
    ensures { OnOk result ((spare.new.items ≡ spare.old.items) ⊎ ((spare.new.items ≡ spare.old.items ++ number ∷ []) × IsDeletable (live_of arena.now) trail.now.entries number)) }
{
    if !uses.may_go(number) || !is_deletable(arena, trail, number) {
        return Ok(());
    }
    spare.push(number)?;
    Ok(())
}

/// The candidates among these lemmas, in their order: they have three or more literals, are no reasons, and their statistics allow
/// their deletion.
fn deletable_lemmas(
    alloc: Global,
    arena: &Arena,
    trail: &Trail,
    uses: &LemmaStats,
    lemmas: &[u64],
) -> Result<Vec<u64>, AllocError>
    requires built { AreBuilt (live_of arena.now) [] trail.now.entries }
    requires inside { AreInside (live_of arena.now) trail.now.vars }
    requires rising { AreRising lemmas.now }
    ensures rising { IfOk result (λ ids. AreRising ids.items) }
    ensures among { IfOk result (λ ids. All (Contains lemmas.now) ids.items) }
    ensures spare { IfOk result (λ ids. All (IsDeletable (live_of arena.now) trail.now.entries) ids.items) }
{
    let mut spare = Vec::new(alloc);
    for &number in lemmas {
        push_deletable(arena, trail, uses, number, &mut spare)?;
    }
    Ok(spare)
}

/// The least useful three quarters of the candidates among these lemmas, rounded down, in their order; and so few that `LemmaStats::most` stay.
fn least_useful(
    alloc: Global,
    arena: &Arena,
    trail: &Trail,
    uses: &LemmaStats,
    lemmas: &[u64],
) -> Result<Vec<u64>, AllocError>
    requires built { AreBuilt (live_of arena.now) [] trail.now.entries }
    requires inside { AreInside (live_of arena.now) trail.now.vars }
    requires rising { AreRising lemmas.now }
    ensures rising { IfOk result (λ ids. AreRising ids.items) }
    ensures among { IfOk result (λ ids. All (Contains lemmas.now) ids.items) }
    ensures spare { IfOk result (λ ids. All (IsDeletable (live_of arena.now) trail.now.entries) ids.items) }
{
    let spare = deletable_lemmas(alloc, arena, trail, uses, lemmas)?;
    let most = lemmas.len().saturating_sub(uses.most());
    let least = uses.least_useful(alloc, arena, &spare, most)?;
    Ok(least)
}

/// Detaches the clause of this number, which is no reason, and removes it from the arena.
fn delete_clause<P: Propagator>(propagator: &mut P, arena: &mut Arena, trail: &Trail, number: u64)
    requires ready { P.is_ready propagator.old arena.old trail.now }
    requires state { IsState (P.attached propagator.old) arena.old trail.now }
    requires spare { IsDeletable (live_of arena.old) trail.now.entries number }
    ensures ready { P.is_ready propagator.new arena.new trail.now }
    ensures state { IsState (P.attached propagator.new) arena.new trail.now }
    ensures less { AreAllExcept (live_of arena.old) (number ∷ []) (live_of arena.new) }
{
    match arena.find(number) {
        Some(at) => {
            propagator.detach(arena, at);
            arena.remove(at);
        }
        None => {}
    }
}

/// Detaches the clauses of these numbers, which are no reasons, and removes them from the arena.
fn delete_clauses<P: Propagator>(
    propagator: &mut P,
    arena: &mut Arena,
    trail: &Trail,
    numbers: &[u64],
)
    requires ready { P.is_ready propagator.old arena.old trail.now }
    requires state { IsState (P.attached propagator.old) arena.old trail.now }
    requires rising { AreRising numbers.now }
    requires spare { All (IsDeletable (live_of arena.old) trail.now.entries) numbers.now }
    ensures ready { P.is_ready propagator.new arena.new trail.now }
    ensures state { IsState (P.attached propagator.new) arena.new trail.now }
    ensures less { AreAllExcept (live_of arena.old) numbers.now (live_of arena.new) }
{
    for &number in numbers {
        delete_clause(propagator, arena, trail, number);
    }
}

/// Whether a live clause has this number.
fn is_live(arena: &Arena, number: u64) -> bool
    ensures { result ≡ is_some (get arena.now number) }
{
    match arena.find(number) {
        Some(_) => true,
        None => false,
    }
}

/// Removes the numbers without a live clause from `lemmas`.
fn keep_live(arena: &Arena, lemmas: &mut Vec<u64>)
    ensures { lemmas.new.items ≡ filter (λ n. is_some (get arena.now n)) lemmas.old.items }
{
    lemmas.retain(|number| is_live(arena, *number));
}

/// Compacts the arena if `due` is true, and hands the clauses' new references to the propagator.
fn compact_if_due<P: Propagator>(
    alloc: Global,
    due: bool,
    propagator: &mut P,
    arena: &mut Arena,
    trail: &Trail,
) -> Result<(), AllocError>
    requires ready { P.is_ready propagator.old arena.old trail.now }
    requires state { IsState (P.attached propagator.old) arena.old trail.now }
    ensures ready { OnOk result (P.is_ready propagator.new arena.new trail.now) }
    ensures state { OnOk result (IsState (P.attached propagator.new) arena.new trail.now) }
    ensures less { OnOk result (AreAllExcept (live_of arena.old) [] (live_of arena.new)) }
{
    if !due {
        return Ok(());
    }
    let mut moves = Vec::new(alloc);
    arena.compact(&mut moves)?;
    propagator.moved(&moves);
    Ok(())
}

impl<P: Propagator> Search<'_, P> {
    /// Deletes the least useful three quarters of the candidates, in one line of the log that begins with `top`. If there is none to delete,
    /// only the statistics of lemmas change.
    pub(crate) fn reduce(&mut self, top: u64) -> Result<(), AllocError>
        requires steady { IsSteady P.is_ready P.attached self.old.state }
        requires rising { AreRising self.old.lemmas.items }
        requires many { 2000 < length self.old.lemmas.items }
        requires top { IsClauseNumber top }
        requires numbers { AreBelow (top + 1) (live_of self.old.state.arena) }
        ensures steady { OnOk result (IsSteady P.is_ready P.attached self.new.state) }
        ensures vars { OnOk result (self.new.state.trail.vars ≡ self.old.state.trail.vars) }
        ensures assuming { OnOk result ((q : Cube) → IsAssuming q self.old.state.trail.entries self.old.state.assumed → IsAssuming q self.new.state.trail.entries self.new.state.assumed) }
        ensures lemmas { OnOk result ((first : ℕ) → AreLemmas first (live_of self.old.state.arena) self.old.lemmas.items → AreLemmas first (live_of self.new.state.arena) self.new.lemmas.items) }
        ensures kept { OnOk result ((first : ℕ) → AreLemmas first (live_of self.old.state.arena) self.old.lemmas.items → MayReduce first (live_of self.old.state.arena) (live_of self.new.state.arena) self.old.log self.new.log) }
        ensures drops { OnOk result (DeletesLemmas top self.old.lemmas.items self.new.lemmas.items (live_of self.old.state.arena) (live_of self.new.state.arena) self.old.log self.new.log) }
        ensures units { self.new.units ≡ self.old.units }
    {
        let state = &mut self.state;
        let gone = least_useful(
            self.alloc,
            &state.arena,
            &state.trail,
            &self.uses,
            &self.lemmas,
        )?;
        self.uses.note_reduction(self.phases.is_flat());
        if gone.is_empty() {
            return Ok(());
        }
        self.log.delete(top, &gone)?;
        let due = self.garbage.count_removed(&state.arena, &gone);
        delete_clauses(state.propagator, &mut state.arena, &state.trail, &gone);
        keep_live(&state.arena, &mut self.lemmas);
        compact_if_due(
            self.alloc,
            due,
            state.propagator,
            &mut state.arena,
            &state.trail,
        )?;
        Ok(())
    }
}
