//! The rebuild of the watch lists after clauses were detached.

ghost use Rattle.std.specs.Prelude.{◌≡◌, ℕ, ◌+◌, ◌*◌, ◌/◌, ◌%◌, ◌^◌, ◌<◌, ◌≤◌, true, false, [], All, length, slice_index_or, vec_capacity};
ghost use Rattle.dimacs.specs.logic.Literal.{Literal};
ghost use Rattle.watches.specs.inner.LiveClauses.{IsLiveWithin};
ghost use Rattle.watches.specs.inner.WatchLists.{next_of};
ghost use Rattle.watches.specs.inner.WatchInvariants.{watches_of, fresh_watches, AreWatching};
ghost use Rattle.watches.specs.Watches.{attached_of};
ghost use Rattle.watches.specs.inner.Ready.{AreNamed, AreWatches};

use crate::trail::Trail;
use crate::watched::detached::remove_detached;
use crate::watched::saved_positions::remove_detached_positions;
use crate::watched::watch::{PlaceId, Watch, append};
use crate::watched::watch_lists::WatchLists;
use clause_arena::{Arena, Ref};
use dimacs::{Lit, Var};

/// The first two literals of a clause.
#[derive(Clone, Copy)]
pub(crate) struct Pair {
    pub(crate) one: Lit,
    pub(crate) two: Lit,
}

/// The first two literals of a clause; some literal, twice, if the clause has fewer.
pub(crate) fn first_two(literals: &[Lit]) -> Pair
    ensures { (d : Literal) → 2 ≤ length literals.now → (result.one ≡ slice_index_or literals.now 0 d) × (result.two ≡ slice_index_or literals.now 1 d) }
{
    if literals.len() < 2 {
        let any = Lit::positive(Var::new(1));
        return Pair { one: any, two: any };
    }
    Pair {
        one: literals[0],
        two: literals[1],
    }
}

/// Pushes the cells of this many empty lists on the empty vector: the heads, and then the names of the last places, each of which is the
/// head. It takes no memory.
pub(crate) fn put_cells(places: &mut Vec<Watch>, lists: usize)
    requires none { places.old.items ≡ [] }
    requires room { 2 * lists ≤ vec_capacity places.old }
    requires few { lists ≤ 2 ^ 31 }
    ensures long { length places.new.items ≡ 2 * lists }
    ensures heads { (l : ℕ) → l < lists → next_of places.new.items l ≡ 0 }
    ensures lasts { (l : ℕ) → l < lists → next_of places.new.items (lists + l) ≡ l }
    ensures room { vec_capacity places.new ≡ vec_capacity places.old }
{
    let literal = Lit::positive(Var::new(1));
    for _i in 0..lists {
        places.push_reserved(Watch {
            literal,
            next: PlaceId { number: 0 },
        });
    }
    for list in 0..lists {
        places.push_reserved(Watch {
            literal,
            next: PlaceId {
                number: list as u32,
            },
        });
    }
}

/// Overwrites the watches with two for each of these clauses, all of them pending. It takes no memory.
fn link_all(places: &mut Vec<Watch>, clauses: &[Ref], base: usize, arena: &Arena, trail: &Trail)
    requires room { base + 2 * length clauses.now ≤ vec_capacity places.old }
    requires few { base + 2 * length clauses.now ≤ 2 ^ 32 }
    requires even { base % 2 ≡ 0 }
    requires wide { 4 * trail.now.vars + 4 ≤ base }
    requires named { AreNamed clauses.now }
    requires here { All (IsLiveWithin arena.now trail.now.vars) clauses.now }
    ensures watching { AreWatching (fresh_watches places.new.items clauses.now base (length trail.now.entries)) arena.now trail.now }
    ensures whole { length places.new.items ≡ base + 2 * length clauses.now }
{
    places.clear();
    put_cells(places, base / 2);
    for i in 0..clauses.len() {
        let pair = first_two(arena.clause(clauses[i]));
        append(places, base, pair.one, pair.two);
    }
}

impl WatchLists {
    /// Removes the clauses that are marked as detached, and makes the watches of all others pending, if the lists are stale. All watches
    /// will be visited then, so that the whole trail counts as propagated. It takes no memory.
    pub(crate) fn rebuild(&mut self, live: &mut Vec<bool>, arena: &Arena, trail: &Trail)
        requires watches { AreWatches self.old.places.items self.old.clauses.items live.old.items self.old.base self.old.stale }
        requires wide { 4 * trail.now.vars + 4 ≤ self.old.base }
        requires here { All (IsLiveWithin arena.now trail.now.vars) (attached_of self.old.clauses.items live.old.items) }
        requires watching { self.old.stale ≡ false → AreWatching (record (watches_of self.old) { clauses = attached_of self.old.clauses.items live.old.items }) arena.now trail.now }
        ensures base { self.new.base ≡ self.old.base }
        ensures fresh { self.new.stale ≡ false }
        ensures clauses { self.new.clauses.items ≡ attached_of self.old.clauses.items live.old.items }
        ensures live { All (λ b. b ≡ true) live.new.items }
        ensures marked { length live.new.items ≡ length self.new.clauses.items }
        ensures watching { AreWatching (watches_of self.new) arena.now trail.now }
        ensures whole { length self.new.places.items ≡ self.new.base + 2 * length self.new.clauses.items }
        ensures no_more { length self.new.places.items ≤ length self.old.places.items }
    {
        if !self.stale {
            return;
        }
        remove_detached_positions(&mut self.positions, live);
        remove_detached(&mut self.clauses, live);
        link_all(&mut self.places, &self.clauses, self.base, arena, trail);
        self.head = trail.len();
        self.stale = false;
    }
}
