//! The watch lists, and the moves of watches between them.

ghost use Rattle.std.specs.Prelude.{◌≡◌, ◌≢◌, ◌+◌, ◌-◌, ◌/◌, ◌^◌, ◌<◌, ◌≤◌, length};
ghost use Rattle.watches.specs.inner.WatchLists.{next_of, literal_at, twin, Unlinks, LinksLast, Relinks, MayRelink};
ghost use Rattle.watches.specs.inner.WatchInvariants.{watches_of, owner, IsRelinked};

use crate::watched::watch::{PlaceId, Watch};
use clause_arena::Ref;
use dimacs::Lit;

/// The list of the watches that are still to be visited.
pub(crate) const PENDING: usize = 0;

/// The list of the watches that need no visit any more.
pub(crate) const RETIRED: usize = 1;

/// The watches and the clauses that own them.
///
/// The first `base` places are cells. One half of them are the heads of the lists: 0 of the pending list, 1 of the retired watches, and
/// `Lit::index` of the watch list of a literal. The other half, in the same order, name the last place of each list (its head, if it is
/// empty). The watches of clause i are at the places `base + 2 * i` and `base + 2 * i + 1`.
pub(crate) struct WatchLists {
    /// The cells of the lists, and after them the watches.
    pub(crate) places: Vec<Watch>,
    /// The clauses that own the watches, those included that were detached since the last rebuild.
    pub(crate) clauses: Vec<Ref>,
    /// The saved position of each clause.
    pub(crate) positions: Vec<u32>,
    /// The number of cells: two for each list.
    pub(crate) base: usize,
    /// The number of the trail's entries that were propagated.
    pub(crate) head: usize,
    /// Whether a clause was detached since the last rebuild: then the lists have to be rebuilt.
    pub(crate) stale: bool,
}

impl Drop for WatchLists {
    fn drop(self) {
        let WatchLists {
            places: _,
            clauses: _,
            positions: _,
            base: _,
            head: _,
            stale: _,
        } = self;
    }
}

impl WatchLists {
    /// The literal of the watch at the place `at`.
    #[inline(always)]
    pub(crate) fn own_literal(&self, at: usize) -> Lit
        requires { at < length self.now.places.items }
        ensures { result ≡ literal_at self.now.places.items at }
    {
        self.places[at].literal
    }

    /// The literal of the other watch of the clause that owns the place `at`.
    #[inline(always)]
    pub(crate) fn other_literal(&self, at: usize) -> Lit
        requires { twin at < length self.now.places.items }
        ensures { result ≡ literal_at self.now.places.items (twin at) }
    {
        self.places[at ^ 1].literal
    }

    /// The place after `at` in its list; 0 at the end of the list.
    #[inline(always)]
    pub(crate) fn next_place(&self, at: usize) -> usize
        requires { at < length self.now.places.items }
        ensures { result ≡ next_of self.now.places.items at }
    {
        self.places[at].next.number as usize
    }

    /// The row in `clauses` of the clause that owns the place `at`.
    #[inline(always)]
    pub(crate) fn owner_row(&self, at: usize) -> usize
        requires { self.now.base ≤ at }
        ensures { result ≡ (at - self.now.base) / 2 }
    {
        (at - self.base) / 2
    }

    /// The clause that owns the place `at`.
    #[inline(always)]
    pub(crate) fn owner_of(&self, at: usize) -> Ref
        requires low { self.now.base ≤ at }
        requires within { (at - self.now.base) / 2 < length self.now.clauses.items }
        ensures { result ≡ owner (watches_of self.now) at }
    {
        self.clauses[self.owner_row(at)]
    }

    /// Takes the watch at the place `at` out of its list, in which `previous` is before it.
    #[inline(always)]
    fn unlink(&mut self, list: usize, previous: usize, at: usize)
        requires previous_in { previous < length self.old.places.items }
        requires at_in { at < length self.old.places.items }
        requires small { previous < 2 ^ 32 }
        requires list_in { self.old.base / 2 + list < length self.old.places.items }
        requires apart { previous ≢ at }
        requires apart_last { self.old.base / 2 + list ≢ previous }
        requires apart_both { self.old.base / 2 + list ≢ at }
        ensures unlinks { Unlinks self.old.places.items self.new.places.items self.old.base list previous at }
        ensures rest { IsRelinked (watches_of self.old) (watches_of self.new) }
    {
        let next = self.places[at].next;
        self.places[previous].next = next;
        if next.number == 0 {
            let last = self.base / 2 + list;
            self.places[last].next = PlaceId {
                number: previous as u32,
            };
        }
    }

    /// Makes the watch at the place `at`, which is in no list, the last one of a list, and sets its literal.
    #[inline(always)]
    fn link_last(&mut self, list: usize, at: usize, literal: Lit)
        requires at_in { at < length self.old.places.items }
        requires small { at < 2 ^ 32 }
        requires list_in { self.old.base / 2 + list < length self.old.places.items }
        requires last_in { next_of self.old.places.items (self.old.base / 2 + list) < length self.old.places.items }
        requires apart { self.old.base / 2 + list ≢ at }
        requires apart_last { next_of self.old.places.items (self.old.base / 2 + list) ≢ at }
        requires apart_both { next_of self.old.places.items (self.old.base / 2 + list) ≢ self.old.base / 2 + list }
        ensures links { LinksLast self.old.places.items self.new.places.items self.old.base list at literal }
        ensures rest { IsRelinked (watches_of self.old) (watches_of self.new) }
    {
        let cell = self.base / 2 + list;
        let last = self.places[cell].next.number as usize;
        self.places[at] = Watch {
            literal,
            next: PlaceId { number: 0 },
        };
        let here = PlaceId { number: at as u32 };
        self.places[last].next = here;
        self.places[cell].next = here;
    }

    /// Moves the watch at the place `at`, which `previous` is before, from its list to the end of another one, and sets its literal. So the
    /// watches that have stood in a list for longest are visited first.
    #[inline(always)]
    pub(crate) fn relink(
        &mut self,
        from: usize,
        previous: usize,
        at: usize,
        to: usize,
        literal: Lit,
    )
        requires may { MayRelink self.old.places.items self.old.base from previous at to }
        requires few { length self.old.places.items ≤ 2 ^ 32 }
        ensures relinks { Relinks self.old.places.items self.new.places.items self.old.base from previous at to literal }
        ensures rest { IsRelinked (watches_of self.old) (watches_of self.new) }
    {
        self.unlink(from, previous, at);
        self.link_last(to, at, literal);
    }
}
