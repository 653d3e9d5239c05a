//! The walk along the watch list of one literal.

ghost use Rattle.std.specs.Prelude.{◌≡◌, ◌^◌, ◌<◌, ◌≤◌, All, length, slice_index_or, IfSome, IfNone};
ghost use Rattle.watches.specs.Trails.{IsTrailValue};
ghost use Rattle.watches.specs.declared.trail.Assigned.{Assigned};
ghost use Rattle.watches.specs.inner.WatchLists.{next_of};
ghost use Rattle.watches.specs.inner.WatchInvariants.{watches_of, past_head, AreWatching};
ghost use Rattle.watches.specs.inner.ListWalk.{IsWalk, IsStep, StopsAtConflict, Visits};

use crate::trail::{Assigned, Trail};
use crate::truth::Truth;
use crate::watched::replacement::find_next_watch;
use crate::watched::saved_positions::save_position;
use crate::watched::visit::Visit;
use crate::watched::watch_lists::WatchLists;
use clause_arena::Arena;

/// Tells the proof the trail's invariant: no two entries have one variable, and levels never fall. It does nothing at run time.
#[inline(always)]
pub(crate) fn recall(trail: &Trail)
    ensures { IsTrailValue trail.now }
{
    let _ = trail.entries();
}

impl WatchLists {
    /// Visits each watch of the literal that `entry`, the trail's entry at `head`, made false. Returns the number of a false clause; None
    /// if there is none.
    pub(crate) fn walk(
        &mut self,
        arena: &mut Arena,
        trail: &mut Trail,
        entry: Assigned,
    ) -> Option<u64>
        requires ready { AreWatching (watches_of self.old) arena.old trail.old }
        requires head_in { self.old.head < length trail.old.entries }
        requires entry_is { (d : Assigned) → slice_index_or trail.old.entries self.old.head d ≡ entry }
        requires levels { All (λ e. e.level ≤ entry.level) trail.old.entries }
        requires few { length self.old.places.items ≤ 2 ^ 32 }
        ensures step { IsStep (watches_of self.old) (watches_of self.new) arena.old arena.new trail.old trail.new }
        ensures stops { IfSome result (StopsAtConflict (watches_of self.new) arena.new trail.new) }
        ensures handled { IfNone result (AreWatching (past_head (watches_of self.new)) arena.new trail.new) }
    {
        recall(trail);
        let falsified = entry.literal.negate();
        let mut previous = falsified.index();
        'watch_list: loop {
            let here = self.next_place(previous);
            if here == 0 {
                return None;
            }
            match self.visit(arena, trail, previous, here) {
                Visit::Stays => previous = here,
                Visit::Moves => {}
                Visit::False(number) => return Some(number),
            }
        }
    }

    /// Visits the watch at the place `here`, next in its list after `previous`, whose literal became false.
    #[inline(always)]
    fn visit(&mut self, arena: &mut Arena, trail: &mut Trail, previous: usize, here: usize) -> Visit
        requires walk { IsWalk (watches_of self.old) arena.old trail.old previous }
        requires here_is { here ≡ next_of self.old.places.items previous }
        requires there { 0 < here }
        requires few { length self.old.places.items ≤ 2 ^ 32 }
        ensures step { IsStep (watches_of self.old) (watches_of self.new) arena.old arena.new trail.old trail.new }
        ensures visits { Visits (watches_of self.old) (watches_of self.new) arena.new trail.new previous here result }
    {
        // The clause's other watched literal is in the neighbouring place: if it is true, the clause is not read.
        let other = self.other_literal(here);
        let value = trail.value(other);
        match value {
            Truth::True => return Visit::Stays,
            _ => {}
        }
        // If a literal after the first two is not false, it is watched instead.
        let clause = self.owner_of(here);
        let row = self.owner_row(here);
        match find_next_watch(arena.clause(clause), trail, &self.positions, row) {
            Some(found) => {
                save_position(&mut self.positions, row, found.place);
                arena.swap(clause, here % 2, found.place);
                let own = self.own_literal(here);
                self.relink(
                    own.index(),
                    previous,
                    here,
                    found.literal.index(),
                    found.literal,
                );
                return Visit::Moves;
            }
            None => {}
        }
        // All literals except the other watched one are false: the clause is false, or it implies that literal.
        match value {
            Truth::False => return Visit::False(clause.number()),
            _ => {}
        }
        trail.push(Assigned {
            literal: other,
            level: trail.level(),
            reason: Some(clause.number()),
        });
        Visit::Stays
    }
}
