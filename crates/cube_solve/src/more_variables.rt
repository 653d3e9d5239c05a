//! More variables for a session: the same clauses and lemmas in a new search.

ghost use Rattle.std.specs.Prelude.{◌≡◌, ℕ, ◌+◌, ◌<◌, ◌≤◌, ◌^◌, List, [], All, IfOk, OnOk};
ghost use Rattle.clause_arena.specs.Clauses.{live_of};
ghost use Rattle.dimacs.specs.logic.ClauseMap.{ClauseMap};
ghost use Rattle.dimacs.specs.logic.Literal.{Clause, IsWithin};
ghost use Rattle.cube_solve.specs.Session.{IsReady, AreGiven, vars_of, last_of, log_of};
ghost use Rattle.cube_solve.specs.SessionLog.{IsKnown};
ghost use Rattle.cube_solve.specs.inner.CopiedClauses.{AreCopied};
ghost use Rattle.cube_solve.specs.inner.LearntLog.{AreBelow};
ghost use Rattle.cube_solve.specs.inner.Twins.{AreLinked};
ghost use Rattle.cube_solve.specs.inner.SearchInvariants.{IsSteady};
ghost use Rattle.cube_solve.specs.inner.UnitClauses.{AreNoted};

use crate::decision_order::Waiting;
use crate::marks::Marks;
use crate::search::Search;
use crate::session::Session;
use clause_arena::Arena;
use dimacs::Builder;
use std::alloc::AllocError;
use watches::Propagator;

/// Copies the live clause of this number from `arena` into `search`; nothing changes if there is none.
fn copy_clause<P: Propagator>(
    search: &mut Search<'_, P>,
    arena: &Arena,
    id: u64,
) -> Result<(), AllocError>
    requires steady { IsSteady P.is_ready P.attached search.old.state }
    requires noted { AreNoted (live_of search.old.state.arena) search.old.units.numbers.items }
    requires within { (C : Clause) → live_of arena.now id C → All (IsWithin search.old.state.trail.vars) C }
    requires id { 0 < id }
    requires numbers { AreBelow id (live_of search.old.state.arena) }
    ensures steady { OnOk result (IsSteady P.is_ready P.attached search.new.state) }
    ensures noted { OnOk result (AreNoted (live_of search.new.state.arena) search.new.units.numbers.items) }
    ensures vars { OnOk result (search.new.state.trail.vars ≡ search.old.state.trail.vars) }
    ensures moved { OnOk result (AreCopied id (live_of arena.now) (live_of search.old.state.arena) → AreCopied (id + 1) (live_of arena.now) (live_of search.new.state.arena)) }
{
    match arena.find(id) {
        Some(at) => search.add_given(id, arena.clause(at)),
        None => Ok(()),
    }
}

/// Copies the live clauses of `arena` into `search`, which has no clause yet. Their numbers are at most `top`.
fn copy_clauses<P: Propagator>(
    search: &mut Search<'_, P>,
    arena: &Arena,
    top: u64,
) -> Result<(), AllocError>
    requires steady { IsSteady P.is_ready P.attached search.old.state }
    requires noted { AreNoted (live_of search.old.state.arena) search.old.units.numbers.items }
    requires within { (n : ℕ) (C : Clause) → live_of arena.now n C → All (IsWithin search.old.state.trail.vars) C }
    requires none { (n : ℕ) (C : Clause) → live_of search.old.state.arena n C → ⊥ }
    requires below { AreBelow (top + 1) (live_of arena.now) }
    requires bounded { top ≤ 2 ^ 47 }
    ensures steady { OnOk result (IsSteady P.is_ready P.attached search.new.state) }
    ensures noted { OnOk result (AreNoted (live_of search.new.state.arena) search.new.units.numbers.items) }
    ensures vars { OnOk result (search.new.state.trail.vars ≡ search.old.state.trail.vars) }
    ensures linked { OnOk result (AreLinked (live_of arena.now) (live_of search.new.state.arena)) }
{
    let mut id = 1;
    while id <= top {
        copy_clause(search, arena, id)?;
        id += 1;
    }
    Ok(())
}

/// Makes a search over the variables from 1 to `vars` for a session that needs more of them: with
/// the clauses, lemmas, log and saved values of `old`. Scores start at 0.
fn search_of<'b, P: Propagator>(
    mut old: Search<'_, P>,
    top: u64,
    propagator: &'b mut P,
    vars: u32,
) -> Result<Search<'b, P>, AllocError>
    requires steady { IsSteady P.is_ready P.attached old.state }
    requires below { AreBelow (top + 1) (live_of old.state.arena) }
    requires bounded { top ≤ 2 ^ 47 }
    requires free { P.attached propagator.old ≡ [] }
    requires more { old.state.trail.vars ≤ vars }
    requires limit { vars ≤ 99999999 }
    ensures steady { IfOk result (λ s. IsSteady P.is_ready P.attached s.state) }
    ensures noted { IfOk result (λ s. AreNoted (live_of s.state.arena) s.units.numbers.items) }
    ensures vars { IfOk result (λ s. s.state.trail.vars ≡ vars) }
    ensures linked { IfOk result (λ s. AreLinked (live_of old.entry.state.arena) (live_of s.state.arena)) }
    ensures lemmas { IfOk result (λ s. s.lemmas.items ≡ old.entry.lemmas.items) }
    ensures log { IfOk result (λ s. s.log ≡ old.entry.log) }
{
    let alloc = old.alloc;
    old.state.propagator.release(); // frees it before the clauses are copied: its owner keeps it until later
    let formula = Builder::new(alloc)?.finish(vars)?;
    let mut search = Search::new(alloc, propagator, formula.as_base(), Waiting::Named)?;
    copy_clauses(&mut search, &old.state.arena, top)?;
    search.take_over_lemmas(old);
    Ok(search)
}

impl<P: Propagator> Session<'_, P> {
    /// Makes a session over the variables from 1 to `vars` of this one: it has the same clauses, lemmas and saved values; scores start at
    /// 0. The propagator has no clause yet. The time is linear in the greatest number of a clause so far.
    pub fn grown<'b>(self, propagator: &'b mut P, vars: u32) -> Result<Session<'b, P>, AllocError>
        requires ready { IsReady P.is_ready P.attached self }
        requires free { P.attached propagator.old ≡ [] }
        requires more { vars_of self ≤ vars }
        requires limit { vars ≤ 99999999 }
        ensures ready { IfOk result (IsReady P.is_ready P.attached) }
        ensures given { IfOk result (λ s. (F : List Clause) → AreGiven F self.entry → AreGiven F s) }
        ensures vars { IfOk result (λ s. vars_of s ≡ vars) }
        ensures last { IfOk result (λ s. last_of s ≡ last_of self.entry) }
        ensures log { IfOk result (λ s. log_of s ≡ log_of self.entry) }
        ensures known { IfOk result (λ s. (given : List ℕ) (M : ClauseMap) → IsKnown given M self.entry → IsKnown given M s) }
    {
        let (search, top) = self.into_parts();
        let alloc = search.alloc;
        Ok(Session {
            search: search_of(search, top, propagator, vars)?,
            top,
            marks: Marks::new(alloc, vars)?,
        })
    }
}
