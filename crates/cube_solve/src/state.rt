//! The state of a search: clauses, propagator, trail, and the order of decisions.

ghost use Rattle.std.specs.Prelude.{◌≡◌, ◌<◌, ◌≤◌, true, List, [], ◌∷◌, ◌++◌, All, IfOk, OnOk};
ghost use Rattle.clause_arena.specs.Clauses.{live_of};
ghost use Rattle.dimacs.specs.logic.ClauseMap.{map_of, live_in};
ghost use Rattle.std.specs.List.{IsDistinct};
ghost use Rattle.decide_heap.specs.Decisions.{is_in};
ghost use Rattle.dimacs.specs.logic.Literal.{Literal, IsWithin, negation, same, var_of};
ghost use Rattle.lrat_text.specs.Log.{Cube};
ghost use Rattle.watches.specs.Trails.{holds, up_to};
ghost use Rattle.watches.specs.declared.trail.Assigned.{Assigned};
ghost use Rattle.cube_solve.specs.inner.LearntLog.{AreBelow};
ghost use Rattle.cube_solve.specs.inner.Twins.{AreLinked, IsAdded};
ghost use Rattle.cube_solve.specs.inner.State.{AreAssumed, IsAssuming};
ghost use Rattle.cube_solve.specs.inner.SearchInvariants.{IsSteady};
ghost use Rattle.cube_solve.specs.inner.Steps.{IsUnassigned};

use crate::base_loader::load;
use crate::decision_order::{Order, Waiting};
use crate::joining::{are_true_at, joining_level};
use crate::modes::AfterConflict;
use clause_arena::Arena;
use dimacs::{Base, Lit};
use std::alloc::{AllocError, Global};
use watches::{Propagator, Trail, add_clause};

/// The state of a search. Each clause of the arena is attached to the propagator; each unassigned variable of a clause is in the decision
/// order.
pub(crate) struct State<'a, P> {
    pub(crate) propagator: &'a mut P,
    /// The clauses, given and learnt.
    pub(crate) arena: Arena,
    pub(crate) trail: Trail,
    pub(crate) order: Order,
    /// The levels from 1 to this one are those of assumptions.
    pub(crate) assumed: u32,
    /// The number of entries that propagation has pushed on the trail.
    pub(crate) ticks: u64,
    /// The number of literals that were decided, which is only shown.
    pub(crate) decisions: u64,
}

impl<P> Drop for State<'_, P> {
    fn drop(self) {
        let State {
            propagator: _,
            arena: _,
            trail: _,
            order: _,
            assumed: _,
            ticks: _,
            decisions: _,
        } = self;
    }
}

impl<'a, P: Propagator> State<'a, P> {
    /// A state with the clauses of the base, numbered from 1, and an empty trail. `waiting` says which variables may be decided.
    pub(crate) fn new(
        alloc: Global,
        propagator: &'a mut P,
        base: &Base,
        waiting: Waiting,
    ) -> Result<State<'a, P>, AllocError>
        requires { P.attached propagator.old ≡ [] }
        ensures steady { IfOk result (IsSteady P.is_ready P.attached) }
        ensures vars { IfOk result (λ s. s.trail.vars ≡ base.now.vars) }
        ensures assuming { IfOk result (λ s. (q : Cube) → IsAssuming q s.trail.entries s.assumed) }
        ensures linked { IfOk result (λ s. AreLinked (live_in (map_of base.now)) (live_of s.arena)) }
    {
        propagator.reserve(base.vars())?;
        let mut arena = Arena::new(alloc);
        let trail = Trail::new(alloc, base.vars())?;
        let order = Order::new(alloc, base, waiting)?;
        load(alloc, base, propagator, &mut arena, &trail)?;
        Ok(State {
            propagator,
            arena,
            trail,
            order,
            assumed: 0,
            ticks: 0,
            decisions: 0,
        })
    }

    /// Backtracks to a level. Puts the variables that this unassigns back into the decision order, and saves their values.
    pub(crate) fn backtrack(&mut self, level: u32)
        requires { IsSteady P.is_ready P.attached self.old }
        ensures steady { IsSteady P.is_ready P.attached self.new }
        ensures attached { P.attached self.new.propagator.now ≡ P.attached self.old.propagator.now }
        ensures arena { self.new.arena ≡ self.old.arena }
        ensures vars { self.new.trail.vars ≡ self.old.trail.vars }
        ensures front { (gone : List Assigned) × (self.old.trail.entries ≡ self.new.trail.entries ++ gone) × All (λ e. level < e.level) gone }
        ensures kept { All (λ e. e.level ≤ level) self.new.trail.entries }
        ensures assuming { (q : Cube) → IsAssuming q self.old.trail.entries self.old.assumed → IsAssuming q self.new.trail.entries self.new.assumed }
        ensures waits { (l : Literal) → holds self.old.trail.entries (negation l) ≡ true → IsUnassigned self.new.trail l → is_in self.new.order (var_of l) ≡ true }
    {
        self.order.put_back(&self.trail, level);
        self.propagator.undo(&mut self.trail, level);
    }

    /// Begins the next query of a session: the levels up to `shared` are from now on those of assumptions. Backtracks to that level, unless the
    /// whole query is true there: then the search goes on where it is.
    pub(crate) fn begin(&mut self, query: &[Lit], shared: u32)
        requires steady { IsSteady P.is_ready P.attached self.old }
        requires within { All (IsWithin self.old.trail.vars) query.now }
        ensures steady { IsSteady P.is_ready P.attached self.new }
        ensures arena { self.new.arena ≡ self.old.arena }
        ensures vars { self.new.trail.vars ≡ self.old.trail.vars }
        ensures assuming { AreAssumed query.now self.old.trail.entries shared → IsAssuming query.now self.new.trail.entries self.new.assumed }
    {
        if are_true_at(&self.trail, query, shared) {
            self.assumed = shared;
            return;
        }
        self.backtrack(shared);
        self.assumed = shared;
    }

    /// Adds a clause under the number `id`. Backtracks as far as it has to: to the highest level below which the clause is neither false nor unit.
    pub(crate) fn add_given(&mut self, id: u64, lits: &[Lit]) -> Result<(), AllocError>
        requires steady { IsSteady P.is_ready P.attached self.old }
        requires distinct { IsDistinct same lits.now }
        requires within { All (IsWithin self.old.trail.vars) lits.now }
        requires numbers { AreBelow id (live_of self.old.arena) }
        ensures steady { OnOk result (IsSteady P.is_ready P.attached self.new) }
        ensures added { OnOk result (IsAdded (live_of self.old.arena) id lits.now (live_of self.new.arena)) }
        ensures vars { OnOk result (self.new.trail.vars ≡ self.old.trail.vars) }
    {
        let level = joining_level(&self.trail, lits);
        self.backtrack(level);
        add_clause(self.propagator, &mut self.arena, &self.trail, id, lits)?;
        self.order.insert(lits);
        Ok(())
    }

    /// Adds the unit lemma of a literal that is true at level 0, under the number `id`, and makes it the literal's reason.
    pub(crate) fn add_root_unit(
        &mut self,
        literal: Lit,
        id: u64,
        lits: &[Lit],
    ) -> Result<(), AllocError>
        requires steady { IsSteady P.is_ready P.attached self.old }
        requires lits { lits.now ≡ literal ∷ [] }
        requires within { IsWithin self.old.trail.vars literal }
        requires fixed { up_to self.old.trail.entries 0 literal ≡ true }
        requires numbers { AreBelow id (live_of self.old.arena) }
        ensures steady { OnOk result (IsSteady P.is_ready P.attached self.new) }
        ensures added { OnOk result (IsAdded (live_of self.old.arena) id (literal ∷ []) (live_of self.new.arena)) }
        ensures vars { OnOk result (self.new.trail.vars ≡ self.old.trail.vars) }
        ensures assuming { OnOk result ((q : Cube) → IsAssuming q self.old.trail.entries self.old.assumed → IsAssuming q self.new.trail.entries self.new.assumed) }
    {
        let _ = self.trail.entries(); // tells the proof that no two entries have one variable
        add_clause(self.propagator, &mut self.arena, &self.trail, id, lits)?;
        self.trail.explain(literal, id);
        Ok(())
    }

    /// Restarts, switches the mode or rephases, as the schedule says. A restart keeps the levels of assumptions; else all levels are
    /// undone.
    pub(crate) fn restart_or_rephase(&mut self, after_conflict: AfterConflict)
        requires { IsSteady P.is_ready P.attached self.old }
        ensures steady { IsSteady P.is_ready P.attached self.new }
        ensures arena { self.new.arena ≡ self.old.arena }
        ensures vars { self.new.trail.vars ≡ self.old.trail.vars }
        ensures assuming { (q : Cube) → IsAssuming q self.old.trail.entries self.old.assumed → IsAssuming q self.new.trail.entries self.new.assumed }
    {
        match after_conflict {
            AfterConflict::Continue => {}
            AfterConflict::Restart => self.backtrack(self.assumed),
            AfterConflict::SwitchMode(is_flat) => {
                self.backtrack(0);
                self.order.switch_mode(is_flat);
            }
            AfterConflict::Rephase(kind) => {
                self.backtrack(0);
                self.order.rephase(kind);
            }
        }
    }
}
