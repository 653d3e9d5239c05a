//! The trait of unit propagation: what a search may rest on, whichever data structure finds the units.

ghost use Rattle.std.specs.Prelude.{◌≡◌, ◌≢◌, ℕ, ◌+◌, ◌<◌, ◌≤◌, List, [], ◌∷◌, ◌++◌, All, Contains, OnOk, OnErr, IfSome, IfNone, None};
ghost use Rattle.std.specs.List.{IsDistinct};
ghost use Rattle.std.specs.FinMap as fin;
ghost use Rattle.dimacs.specs.logic.Literal.{Clause, IsWithin, same};
ghost use Rattle.clause_arena.specs.Clauses.{Clauses, RefersTo, IsLive, live_of};
ghost use Rattle.clause_arena.specs.Compaction.{IsCompacted};
ghost use Rattle.watches.specs.Trails.{TrailValue};
ghost use Rattle.watches.specs.Law.{SameUpToReasons, Grows, IsFixpoint, IsConflict, SameUpToOrder, AreWithout, live_among};
ghost use Rattle.watches.specs.declared.trail.Assigned.{Assigned};

use crate::trail::Trail;
use clause_arena::{Arena, Ref};
use dimacs::Lit;
use std::alloc::AllocError;

/// Finds units among the attached clauses, and pushes them on the trail.
///
/// Between two calls of `propagate`, clauses may be attached, detached and moved, `undo` may cut the trail, and literals may be pushed
/// on it.
pub trait Propagator {
    /// The numbers of the attached clauses.
    ghost attached: { Self → List ℕ };

    /// The invariant over the propagator, the arena and the trail, before and after each call.
    ghost is_ready: { Self → Clauses → TrailValue → Type 0 };

    /// Makes room for the variables from 1 to `vars`. It is called before any clause is attached.
    fn reserve(&mut self, vars: u32) -> Result<(), AllocError>
        requires { attached self.old ≡ [] }
        ensures attached { attached self.new ≡ [] }
        ensures ready { OnOk result ((m : Clauses) (t : TrailValue) → t.entries ≡ [] → t.vars ≤ vars → is_ready self.new m t) };

    /// Attaches the clause to which `at` refers. If memory is refused, the same clauses are attached as before.
    fn attach(&mut self, arena: &mut Arena, trail: &Trail, at: Ref) -> Result<(), AllocError>
        requires live { IsLive arena.old at }
        requires apart { Contains (attached self.old) at.number → ⊥ }
        requires within { (C : Clause) → RefersTo arena.old at C → All (IsWithin trail.now.vars) C }
        requires ready { is_ready self.old arena.old trail.now }
        ensures ready { is_ready self.new arena.new trail.now }
        ensures clauses { SameUpToOrder arena.old arena.new }
        ensures ok { OnOk result (attached self.new ≡ attached self.old ++ at.number ∷ []) }
        ensures err { OnErr result (attached self.new ≡ attached self.old) };

    /// Detaches the clause to which `at` refers. It takes no memory.
    fn detach(&mut self, arena: &Arena, at: Ref)
        requires live { IsLive arena.now at }
        requires there { Contains (attached self.old) at.number }
        ensures ready { (t : TrailValue) → is_ready self.old arena.now t → is_ready self.new arena.now t }
        ensures attached { AreWithout (attached self.old) at.number (attached self.new) };

    /// Detaches all clauses and frees their memory. `reserve` has to be called next.
    fn release(&mut self)
        ensures { attached self.new ≡ [] };

    /// Updates the references to clauses that moved: `moves` is the list that `Arena::compact` made. It takes no memory.
    fn moved(&mut self, moves: &[(Ref, Ref)])
        ensures ready { (m k : Clauses) (t : TrailValue) → IsCompacted m k moves.now → is_ready self.old m t → is_ready self.new k t }
        ensures attached { (m k : Clauses) → IsCompacted m k moves.now → attached self.new ≡ attached self.old };

    /// Backtracks: removes exactly the literals above a level from the trail. It takes no memory.
    fn undo(&mut self, trail: &mut Trail, level: u32)
        ensures ready { (m : Clauses) → is_ready self.old m trail.old → is_ready self.new m trail.new }
        ensures attached { attached self.new ≡ attached self.old }
        ensures vars { trail.new.vars ≡ trail.old.vars }
        ensures front { (gone : List Assigned) × (trail.old.entries ≡ trail.new.entries ++ gone) × All (λ e. level < e.level) gone }
        ensures kept { All (λ e. e.level ≤ level) trail.new.entries };

    /// Pushes implied literals on the trail until a clause is false (a conflict) or no clause is unit. Returns the number of the false
    /// clause; None if there is none. It takes no memory.
    fn propagate(&mut self, arena: &mut Arena, trail: &mut Trail) -> Option<u64>
        requires { is_ready self.old arena.old trail.old }
        ensures ready { is_ready self.new arena.new trail.new }
        ensures attached { attached self.new ≡ attached self.old }
        ensures clauses { SameUpToOrder arena.old arena.new }
        ensures trail { Grows (live_among (attached self.old) (live_of arena.old)) trail.old trail.new }
        ensures conflict { IfSome result (IsConflict (live_among (attached self.old) (live_of arena.new)) trail.new.entries) }
        ensures quiet { IfNone result (IsFixpoint (live_among (attached self.old) (live_of arena.new)) trail.new.entries) };

    /// A law: the invariant is kept if literals are pushed on the trail.
    ghost pushed: { (p : Self) (m : Clauses) (t u : TrailValue) (more : List Assigned) → is_ready p m t → u.vars ≡ t.vars → u.entries ≡ t.entries ++ more → is_ready p m u };

    /// A law: the invariant is kept if reasons of entries change.
    ghost explained: { (p : Self) (m : Clauses) (t u : TrailValue) → is_ready p m t → u.vars ≡ t.vars → SameUpToReasons t.entries u.entries → is_ready p m u };

    /// A law: the invariant is kept if clauses change that are not attached.
    ghost elsewhere: { (p : Self) (m k : Clauses) (t : TrailValue) → is_ready p m t → ((n : ℕ) → Contains (attached p) n → fin.get k n ≡ fin.get m n) → is_ready p k t };
}

/// Adds a clause to the arena under `number`, and attaches it. If memory is refused, the clauses are as before, except that literals of a
/// clause may be in another order.
pub fn add_clause<P: Propagator>(
    propagator: &mut P,
    arena: &mut Arena,
    trail: &Trail,
    number: u64,
    literals: &[Lit],
) -> Result<(), AllocError>
    requires ready { P.is_ready propagator.old arena.old trail.now }
    requires fresh { fin.get arena.old number ≡ None }
    requires apart { Contains (P.attached propagator.old) number → ⊥ }
    requires distinct { IsDistinct same literals.now }
    requires within { All (IsWithin trail.now.vars) literals.now }
    ensures ready { P.is_ready propagator.new arena.new trail.now }
    ensures ok { OnOk result (P.attached propagator.new ≡ P.attached propagator.old ++ number ∷ []) }
    ensures clauses { OnOk result ((place : ℕ) × SameUpToOrder (fin.insert arena.old number (place, literals.now)) arena.new) }
    ensures err { OnErr result (P.attached propagator.new ≡ P.attached propagator.old) }
    ensures err_clauses { OnErr result (SameUpToOrder arena.old arena.new) }
{
    let at = arena.add(number, literals)?;
    match propagator.attach(arena, trail, at) {
        Ok(()) => Ok(()),
        Err(error) => {
            arena.remove(at);
            Err(error)
        }
    }
}
