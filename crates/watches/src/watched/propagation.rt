//! The propagation loop over the trail.

ghost use Rattle.std.specs.Prelude.{◌≡◌, ◌+◌, ◌*◌, ◌^◌, ◌<◌, ◌≤◌, length, slice_index_or, IfSome, IfNone};
ghost use Rattle.clause_arena.specs.Clauses.{live_of};
ghost use Rattle.watches.specs.Law.{IsConflict, IsFixpoint, live_among};
ghost use Rattle.watches.specs.ClauseNumbers.{numbers};
ghost use Rattle.watches.specs.declared.trail.Assigned.{Assigned};
ghost use Rattle.watches.specs.inner.WatchInvariants.{watches_of, past_head, AreWatching, IsRelinked};
ghost use Rattle.watches.specs.inner.ListWalk.{HasPropagated};

use crate::trail::{Assigned, Trail};
use crate::watched::list_walk::recall;
use crate::watched::watch_lists::{PENDING, WatchLists};
use clause_arena::Arena;

impl WatchLists {
    /// Visits the pending watches, and the watch list of each literal that the trail made false, from the trail's entry at `head` on.
    /// Returns the number of a false clause; None if there is none.
    pub(crate) fn propagate(&mut self, arena: &mut Arena, trail: &mut Trail) -> Option<u64>
        requires ready { AreWatching (watches_of self.old) arena.old trail.old }
        requires whole { length self.old.places.items ≡ self.old.base + 2 * length self.old.clauses.items }
        requires few { length self.old.places.items ≤ 2 ^ 32 }
        ensures ready { AreWatching (watches_of self.new) arena.new trail.new }
        ensures propagated { HasPropagated (watches_of self.old) (watches_of self.new) arena.old arena.new trail.old trail.new }
        ensures conflict { IfSome result (IsConflict (live_among (numbers self.new.clauses.items) (live_of arena.new)) trail.new.entries) }
        ensures quiet { IfNone result (IsFixpoint (live_among (numbers self.new.clauses.items) (live_of arena.new)) trail.new.entries) }
    {
        'entries: loop {
            match self.walk_pending(arena, trail) {
                Some(number) => return Some(number),
                None => {}
            }
            if self.head >= trail.len() {
                recall(trail);
                return None;
            }
            let entry = trail.entries()[self.head];
            // Implied literals are pushed at the present level. They do not guard watches of an entry of a lower level, so these
            // watches are made pending.
            if entry.level < trail.level() {
                self.make_pending(arena, trail, entry);
            } else {
                match self.walk(arena, trail, entry) {
                    Some(number) => return Some(number),
                    None => {}
                }
            }
            self.head += 1;
        }
    }

    /// Moves the watch list of the literal that `entry` made false to the pending list. The entry's
    /// level is lower than the level of what its clauses imply, so a backtrack may keep the entry
    /// and undo what was implied; then these watches have to be visited again.
    fn make_pending(&mut self, arena: &Arena, trail: &Trail, entry: Assigned)
        requires ready { AreWatching (watches_of self.old) arena.now trail.now }
        requires head_in { self.old.head < length trail.now.entries }
        requires entry_is { (d : Assigned) → slice_index_or trail.now.entries self.old.head d ≡ entry }
        requires few { length self.old.places.items ≤ 2 ^ 32 }
        ensures rest { IsRelinked (watches_of self.old) (watches_of self.new) }
        ensures ready { AreWatching (past_head (watches_of self.new)) arena.now trail.now }
    {
        recall(trail);
        let first = entry.literal.negate().index();
        'watch_list: loop {
            let here = self.next_place(first);
            if here == 0 {
                return;
            }
            let own = self.own_literal(here);
            self.relink(first, first, here, PENDING, own);
        }
    }
}
