//! The pending list: the watches of clauses that were just attached, all watches after a rebuild, and those whose literal became false at
//! a lower level than the present one.

ghost use Rattle.std.specs.Prelude.{◌≡◌, true, ◌^◌, ◌<◌, ◌≤◌, length, All, Contains, IfSome, IfNone};
ghost use Rattle.std.specs.Bool.{OnTrue};
ghost use Rattle.dimacs.specs.logic.Literal.{Literal, IsWithin, negation};
ghost use Rattle.watches.specs.Trails.{holds, up_to};
ghost use Rattle.watches.specs.inner.WatchLists.{next_of, literal_at, twin};
ghost use Rattle.watches.specs.inner.WatchInvariants.{watches_of, owner, AreWatching, IsRelinked};
ghost use Rattle.watches.specs.inner.ListWalk.{PendingWalk, VisitsPending, IsStep, StopsAtConflict, AllPendingSatisfied, IsSatisfied};

use crate::status::{Status, test_clause};
use crate::trail::{Assigned, Trail};
use crate::truth::Truth;
use crate::watched::list_walk::recall;
use crate::watched::replacement::find_watch;
use crate::watched::visit::Visit;
use crate::watched::watch_lists::{PENDING, RETIRED, WatchLists};
use clause_arena::Arena;
use dimacs::Lit;

/// Whether a literal is true at level 0, so that no backtrack unassigns it.
fn is_fixed(trail: &Trail, literal: Lit) -> bool
    requires { IsWithin trail.now.vars literal }
    ensures { OnTrue result (up_to trail.now.entries 0 literal ≡ true) }
{
    match trail.value(literal) {
        Truth::True => trail.entry_of(literal).level == 0,
        Truth::False => false,
        Truth::Free => false,
    }
}

/// Whether a literal of a clause is true at level 0.
fn is_root_satisfied(clause: &[Lit], trail: &Trail) -> bool
    requires { All (IsWithin trail.now.vars) clause.now }
    ensures { OnTrue result ((b : Literal) × Contains clause.now b × (up_to trail.now.entries 0 b ≡ true)) }
{
    for &literal in clause {
        if is_fixed(trail, literal) {
            return true;
        }
    }
    false
}

impl WatchLists {
    /// Visits each pending watch. Returns the number of a false clause; None if there is none.
    pub(crate) fn walk_pending(&mut self, arena: &mut Arena, trail: &mut Trail) -> Option<u64>
        requires ready { AreWatching (watches_of self.old) arena.old trail.old }
        requires few { length self.old.places.items ≤ 2 ^ 32 }
        ensures step { IsStep (watches_of self.old) (watches_of self.new) arena.old arena.new trail.old trail.new }
        ensures stops { IfSome result (StopsAtConflict (watches_of self.new) arena.new trail.new) }
        ensures satisfied { IfNone result (AllPendingSatisfied (watches_of self.new) arena.new trail.new) }
    {
        recall(trail);
        let mut previous = 0;
        'watch_list: loop {
            let here = self.next_place(previous);
            if here == 0 {
                return None;
            }
            match self.visit_pending(arena, trail, previous, here) {
                Visit::Stays => previous = here,
                Visit::Moves => {}
                Visit::False(number) => return Some(number),
            }
        }
    }

    /// Visits the pending watch at the place `here`, next in the list after `previous`.
    fn visit_pending(
        &mut self,
        arena: &mut Arena,
        trail: &mut Trail,
        previous: usize,
        here: usize,
    ) -> Visit
        requires walk { PendingWalk (watches_of self.old) arena.old trail.old previous }
        requires here_is { here ≡ next_of self.old.places.items previous }
        requires there { 0 < here }
        requires few { length self.old.places.items ≤ 2 ^ 32 }
        ensures step { IsStep (watches_of self.old) (watches_of self.new) arena.old arena.new trail.old trail.new }
        ensures visits { VisitsPending (watches_of self.old) (watches_of self.new) arena.new trail.new previous here result }
    {
        let clause = self.owner_of(here);
        if arena.clause(clause).len() < 2 {
            self.visit_pending_short(arena, trail, previous, here)
        } else {
            self.visit_pending_long(arena, trail, previous, here)
        }
    }

    /// Visits a pending watch of a clause of two or more literals. The watch moves to the list of a literal that is not false if there is
    /// one; else the clause is false, or implies the other watched literal.
    fn visit_pending_long(
        &mut self,
        arena: &mut Arena,
        trail: &mut Trail,
        previous: usize,
        here: usize,
    ) -> Visit
        requires walk { PendingWalk (watches_of self.old) arena.old trail.old previous }
        requires here_is { here ≡ next_of self.old.places.items previous }
        requires there { 0 < here }
        requires long { 2 ≤ (owner (watches_of self.old) here).len }
        requires few { length self.old.places.items ≤ 2 ^ 32 }
        ensures step { IsStep (watches_of self.old) (watches_of self.new) arena.old arena.new trail.old trail.new }
        ensures visits { VisitsPending (watches_of self.old) (watches_of self.new) arena.new trail.new previous here result }
    {
        let own = self.own_literal(here);
        match trail.value(own) {
            Truth::False => {}
            _ => {
                self.relink(PENDING, previous, here, own.index(), own);
                return Visit::Moves;
            }
        }
        let clause = self.owner_of(here);
        match find_watch(arena.clause(clause), trail, 0) {
            Some(found) => {
                arena.swap(clause, here % 2, found.place);
                self.relink(
                    PENDING,
                    previous,
                    here,
                    found.literal.index(),
                    found.literal,
                );
                Visit::Moves
            }
            None => {
                let other = self.other_literal(here);
                match trail.value(other) {
                    Truth::True => self.return_if_guarded(arena, trail, previous, here),
                    Truth::False => Visit::False(clause.number()),
                    Truth::Free => {
                        trail.push(Assigned {
                            literal: other,
                            level: trail.level(),
                            reason: Some(clause.number()),
                        });
                        self.return_if_guarded(arena, trail, previous, here)
                    }
                }
            }
        }
    }

    /// Moves a pending watch with a false literal back to the watch list of its literal, if the
    /// clause's other watched literal is true and became so at no greater level: then no backtrack
    /// unassigns that one and keeps this one false. Else the watch stays pending.
    fn return_if_guarded(
        &mut self,
        arena: &Arena,
        trail: &Trail,
        previous: usize,
        here: usize,
    ) -> Visit
        requires walk { PendingWalk (watches_of self.old) arena.now trail.now previous }
        requires here_is { here ≡ next_of self.old.places.items previous }
        requires there { 0 < here }
        requires long { 2 ≤ (owner (watches_of self.old) here).len }
        requires few { length self.old.places.items ≤ 2 ^ 32 }
        requires own_false { holds trail.now.entries (negation (literal_at self.old.places.items here)) ≡ true }
        requires other_true { holds trail.now.entries (literal_at self.old.places.items (twin here)) ≡ true }
        ensures rest { IsRelinked (watches_of self.old) (watches_of self.new) }
        ensures visits { VisitsPending (watches_of self.old) (watches_of self.new) arena.now trail.now previous here result }
    {
        recall(trail);
        let own = self.own_literal(here);
        let other = self.other_literal(here);
        let mine = trail.entry_of(own.negate());
        let theirs = trail.entry_of(other);
        if theirs.level <= mine.level {
            self.relink(PENDING, previous, here, own.index(), own);
            Visit::Moves
        } else {
            Visit::Stays
        }
    }

    /// Visits a pending watch of a clause of at most one literal: pushes the literal if it is unassigned, and then retires the watch if it
    /// may, unless the clause is false.
    fn visit_pending_short(
        &mut self,
        arena: &mut Arena,
        trail: &mut Trail,
        previous: usize,
        here: usize,
    ) -> Visit
        requires walk { PendingWalk (watches_of self.old) arena.old trail.old previous }
        requires here_is { here ≡ next_of self.old.places.items previous }
        requires there { 0 < here }
        requires short { (owner (watches_of self.old) here).len < 2 }
        requires few { length self.old.places.items ≤ 2 ^ 32 }
        ensures step { IsStep (watches_of self.old) (watches_of self.new) arena.old arena.new trail.old trail.new }
        ensures visits { VisitsPending (watches_of self.old) (watches_of self.new) arena.new trail.new previous here result }
    {
        let clause = self.owner_of(here);
        match test_clause(arena.clause(clause), trail) {
            Status::False => Visit::False(clause.number()),
            Status::Unit(literal) => {
                trail.push(Assigned {
                    literal,
                    level: trail.level(),
                    reason: Some(clause.number()),
                });
                self.retire(arena, trail, previous, here)
            }
            Status::Other => self.retire(arena, trail, previous, here),
        }
    }

    /// Moves a watch of a clause of at most one literal to the list of retired watches, which are
    /// not visited again, if the clause is true at level 0. Else a backtrack can make it unit
    /// again, and the watch stays pending.
    fn retire(&mut self, arena: &Arena, trail: &Trail, previous: usize, here: usize) -> Visit
        requires walk { PendingWalk (watches_of self.old) arena.now trail.now previous }
        requires here_is { here ≡ next_of self.old.places.items previous }
        requires there { 0 < here }
        requires short { (owner (watches_of self.old) here).len < 2 }
        requires few { length self.old.places.items ≤ 2 ^ 32 }
        requires satisfied { IsSatisfied arena.now trail.now.entries (owner (watches_of self.old) here) }
        ensures rest { IsRelinked (watches_of self.old) (watches_of self.new) }
        ensures visits { VisitsPending (watches_of self.old) (watches_of self.new) arena.now trail.now previous here result }
    {
        let clause = self.owner_of(here);
        if !is_root_satisfied(arena.clause(clause), trail) {
            return Visit::Stays;
        }
        let own = self.own_literal(here);
        self.relink(PENDING, previous, here, RETIRED, own);
        Visit::Moves
    }
}
