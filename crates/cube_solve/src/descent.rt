//! The descent of a search: propagation, assumptions and decisions, down to a conflict, a false assumption or a model.

ghost use Rattle.std.specs.Prelude.{◌≡◌, ◌+◌, ◌<◌, ◌≤◌, ◌∷◌, [], ◌++◌, List, length, All, IfSome, IfNone};
ghost use Rattle.clause_arena.specs.Clauses.{live_of};
ghost use Rattle.conflict_analysis.specs.BuiltTrails.{IsDecided};
ghost use Rattle.dimacs.specs.logic.Literal.{IsWithin};
ghost use Rattle.lrat_text.specs.Log.{Cube};
ghost use Rattle.watches.specs.Law.{SameUpToOrder, IsConflict, IsFixpoint};
ghost use Rattle.watches.specs.declared.trail.Assigned.{Assigned};
ghost use Rattle.cube_solve.specs.inner.State.{IsState, IsAssuming};
ghost use Rattle.cube_solve.specs.inner.SearchInvariants.{IsSteady};
ghost use Rattle.cube_solve.specs.inner.Steps.{IsFound, IsUnassigned};

use crate::decision::{Next, pick};
use crate::state::State;
use clause_arena::Arena;
use dimacs::Lit;
use watches::{Assigned, Propagator, Trail};

/// The end of a descent.
pub(crate) enum Found {
    /// Each variable has a value, and no clause is false.
    Model,
    /// The clause of this number is false.
    Clause(u64),
    /// This literal of the cube is false.
    Assumption(Lit),
}

/// Pushes a literal without a reason on the trail, at a new level. It is called if nothing is left to propagate.
fn open_level<P: Propagator>(propagator: &P, arena: &Arena, trail: &mut Trail, literal: Lit)
    requires ready { P.is_ready propagator.now arena.now trail.old }
    requires state { IsState (P.attached propagator.now) arena.now trail.old }
    requires quiet { IsFixpoint (live_of arena.now) trail.old.entries }
    requires free { IsUnassigned trail.old literal }
    requires limit { trail.old.vars ≤ 199999999 }
    ensures ready { P.is_ready propagator.now arena.now trail.new }
    ensures state { IsState (P.attached propagator.now) arena.now trail.new }
    ensures vars { trail.new.vars ≡ trail.old.vars }
    ensures entry { (e : Assigned) × (trail.new.entries ≡ trail.old.entries ++ e ∷ []) × (e.literal ≡ literal) × IsDecided trail.old.entries e }
    ensures len { length trail.new.entries ≡ length trail.old.entries + 1 }
    ensures room { length trail.old.entries < trail.old.vars }
{
    let _ = trail.len(); // tells the proof that levels are at most the number of variables
    let level = trail.level() + 1;
    trail.push(Assigned {
        literal,
        level,
        reason: None,
    });
}

impl<P: Propagator> State<'_, P> {
    /// Propagates until a clause is false or none is unit. Returns the number of the false clause; None if there is none. Adds the number
    /// of new entries of the trail to `ticks`.
    fn propagate_all(&mut self) -> Option<u64>
        requires { IsSteady P.is_ready P.attached self.old }
        ensures steady { IsSteady P.is_ready P.attached self.new }
        ensures clauses { SameUpToOrder self.old.arena self.new.arena }
        ensures vars { self.new.trail.vars ≡ self.old.trail.vars }
        ensures longer { length self.old.trail.entries ≤ length self.new.trail.entries }
        ensures grows { (more : List Assigned) × (self.new.trail.entries ≡ self.old.trail.entries ++ more) }
        ensures assuming { (q : Cube) → IsAssuming q self.old.trail.entries self.old.assumed → IsAssuming q self.new.trail.entries self.new.assumed }
        ensures conflict { IfSome result (IsConflict (live_of self.new.arena) self.new.trail.entries) }
        ensures quiet { IfNone result (IsFixpoint (live_of self.new.arena) self.new.trail.entries) }
    {
        let before = self.trail.len() as u64;
        let found = self.propagator.propagate(&mut self.arena, &mut self.trail);
        let after = self.trail.len() as u64;
        self.ticks = self.ticks.saturating_add(after.saturating_sub(before));
        found
    }

    /// Propagates, assumes and decides until a clause or a literal of the cube is false, or each variable has a value.
    pub(crate) fn descend(&mut self, cube: &[Lit]) -> Found
        requires steady { IsSteady P.is_ready P.attached self.old }
        requires assuming { IsAssuming cube.now self.old.trail.entries self.old.assumed }
        requires limit { self.old.trail.vars ≤ 199999999 }
        requires cube { All (IsWithin self.old.trail.vars) cube.now }
        ensures steady { IsSteady P.is_ready P.attached self.new }
        ensures assuming { IsAssuming cube.now self.new.trail.entries self.new.assumed }
        ensures clauses { SameUpToOrder self.old.arena self.new.arena }
        ensures vars { self.new.trail.vars ≡ self.old.trail.vars }
        ensures found { IsFound self.new.arena self.new.trail cube.now result }
    {
        let mut held = 0; // the number of first literals of the cube that are true; the trail only grows
        'descending: loop {
            match self.propagate_all() {
                Some(number) => return Found::Clause(number),
                None => {}
            }
            let level = self.trail.level();
            match pick(&self.trail, cube, &mut held, self.assumed, &mut self.order) {
                Next::Assume(literal) => {
                    open_level(self.propagator, &self.arena, &mut self.trail, literal);
                    self.assumed = self.assumed.max(self.trail.level());
                }
                Next::Decide(literal) => {
                    self.decisions = self.decisions.saturating_add(1);
                    self.assumed = level.min(self.assumed);
                    open_level(self.propagator, &self.arena, &mut self.trail, literal);
                }
                Next::Fails(literal) => return Found::Assumption(literal),
                Next::Done => return Found::Model,
            }
        }
    }
}
