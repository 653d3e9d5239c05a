//! Propagation by two watched literals a clause (Moskewicz, Madigan, Zhao, Zhang and Malik 2001).
//!
//! Watch lists are linked lists through one vector of watches; a place is an index of this vector. Each attached clause owns two watches
//! side by side in it; a watch has its literal and the place of the next watch of its list. The first places are cells, a head and a name
//! of the last place for each list: a watch list for each literal, the pending list of watches that are still to be visited, and the list
//! of retired watches, which need no visit any more.
//!
//! Why linked lists: a watch moves to another list by five writes, so that `propagate` takes no memory. It comes to the end of that list,
//! since a search meets fewer conflicts if what has stood in a list for longest is visited first (docs/dev/measured.md). And the clause's
//! other watched literal is at the neighbouring place, where other solvers keep a blocking literal: if it is true, the clause is not read.

ghost use Rattle.std.specs.Prelude.{◌≡◌, ◌+◌, ◌*◌, ◌<◌, []};
ghost use Rattle.watches.specs.ClauseNumbers.{numbers};
ghost use Rattle.watches.specs.inner.Ready.{IsReady};
ghost use Rattle.watches.specs.inner.ReadyLaws.{ready_pushed, ready_explained, ready_elsewhere};

mod detached;
mod list_walk;
mod lookup;
mod pending;
mod propagation;
mod rebuild;
mod replacement;
mod saved_positions;
mod visit;
mod watch;
mod watch_choice;
mod watch_lists;

use crate::moved_refs::update_refs;
use crate::propagator::Propagator;
use crate::trail::Trail;
use crate::watched::lookup::find_clause;
use crate::watched::rebuild::{first_two, put_cells};
use crate::watched::watch::append;
use crate::watched::watch_choice::put_best_first;
use crate::watched::watch_lists::WatchLists;
use clause_arena::{Arena, Ref};
use std::alloc::{AllocError, Global};
use std::marker::Model;

/// The greatest number of variables, so that the places of the lists' cells fit in 32 bits.
const MOST_VARS: u32 = 1_073_741_822;

/// The greatest length of the vector of watches at which the places of two more still fit in 32 bits.
const MOST_PLACES: usize = 4_294_967_294;

/// A propagator that watches two literals of each clause, and visits the clause only if one of them becomes false. The search for another
/// literal to watch begins at the clause's saved position, where the last such search ended.
///
/// Detaching is lazy: it marks the clause as not live, and the next `propagate` removes all clauses that are not live and rebuilds the
/// watch lists.
pub struct Watched {
    /// The watch lists, with the clauses that own the watches.
    lists: WatchLists,
    /// Whether each clause of the lists is attached; false if it was detached since the last rebuild.
    live: Vec<bool>,
}

impl Drop for Watched {
    fn drop(self) {
        let Watched { lists: _, live: _ } = self;
    }
}

impl Model for Watched {
    ghost use Rattle.watches.specs.Watches.{Watches, attached_of};
    ghost use Rattle.watches.specs.inner.Ready.{AreWatches};

    ghost Value = { Watches };

    ghost view = { λ w. record { places = w.lists.places.items; clauses = attached_of w.lists.clauses.items w.live.items; base = w.lists.base; head = w.lists.head; stale = w.lists.stale } };

    ghost invariant = { λ w. AreWatches w.lists.places.items w.lists.clauses.items w.live.items w.lists.base w.lists.stale };
}

impl Watched {
    /// A propagator to which no clause is attached.
    pub fn new(alloc: Global) -> Watched
        ensures { numbers result.clauses ≡ [] }
    {
        Watched {
            lists: WatchLists {
                places: Vec::new(alloc),
                clauses: Vec::new(alloc),
                positions: Vec::new(alloc),
                base: 0,
                head: 0,
                stale: false,
            },
            live: Vec::new(alloc),
        }
    }
}

impl Propagator for Watched {
    ghost attached = { λ w. numbers w.clauses };

    ghost is_ready = { λ w m t. IsReady w m t };

    ghost pushed = { λ w m t u more h v e. ready_pushed w m t u more h v e };

    ghost explained = { λ w m t u h v a. ready_explained w m t u h v a };

    ghost elsewhere = { λ w m k t h e. ready_elsewhere w m k t h e };

    /// Makes the cells of the empty watch lists: those of each literal, and those of pending and of
    /// retired watches.
    fn reserve(&mut self, vars: u32) -> Result<(), AllocError> {
        if vars > MOST_VARS {
            return Err(AllocError);
        }
        let lists = 2 * (vars as usize) + 2;
        let base = 2 * lists;
        let alloc = *self.lists.places.allocator();
        let mut places = Vec::with_capacity(alloc, base)?;
        put_cells(&mut places, lists);
        self.lists.places = places;
        self.lists.clauses.clear();
        self.live.clear();
        self.lists.positions.clear();
        self.lists.base = base;
        self.lists.head = 0;
        self.lists.stale = false;
        Ok(())
    }

    /// Chooses the two best literals to watch, and puts the clause's two watches on the pending
    /// list.
    fn attach(&mut self, arena: &mut Arena, trail: &Trail, at: Ref) -> Result<(), AllocError> {
        if self.lists.places.len() > MOST_PLACES {
            return Err(AllocError);
        }
        self.lists.clauses.reserve(1)?;
        self.live.reserve(1)?;
        self.lists.places.reserve(2)?;
        self.lists.positions.reserve(1)?;
        put_best_first(arena, trail, at);
        let pair = first_two(arena.clause(at));
        self.lists.clauses.push_reserved(at);
        self.live.push_reserved(true);
        self.lists.positions.push_reserved(0);
        append(&mut self.lists.places, self.lists.base, pair.one, pair.two);
        Ok(())
    }

    /// Marks the clause as not live; the next `propagate` removes it with all others that are
    /// marked.
    fn detach(&mut self, _arena: &Arena, at: Ref) {
        if let Some(i) = find_clause(&self.lists.clauses, &self.live, at.number()) {
            self.live[i] = false;
            self.lists.stale = true;
        }
    }

    /// Drops the lists and all watches.
    fn release(&mut self) {
        let alloc = *self.lists.places.allocator();
        *self = Watched::new(alloc);
    }

    /// Updates the references in the lists after a compaction.
    fn moved(&mut self, moves: &[(Ref, Ref)]) {
        update_refs(&mut self.lists.clauses, moves);
    }

    /// Backtracks the trail to a level. Watches stay as they are; if more was propagated than is
    /// left of the trail, propagation goes on at the trail's end.
    fn undo(&mut self, trail: &mut Trail, level: u32) {
        trail.cut(level);
        let len = trail.len();
        if len < self.lists.head {
            self.lists.head = len;
        }
    }

    /// Rebuilds the lists if clauses were detached, and propagates from where the last call ended.
    fn propagate(&mut self, arena: &mut Arena, trail: &mut Trail) -> Option<u64> {
        self.lists.rebuild(&mut self.live, arena, trail);
        self.lists.propagate(arena, trail)
    }
}
