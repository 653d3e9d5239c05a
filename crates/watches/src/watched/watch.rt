//! A watch, and the two watches of a new clause.

ghost use Rattle.std.specs.Prelude.{◌≡◌, ◌≢◌, ◌+◌, ◌/◌, ◌^◌, ◌<◌, ◌≤◌, length, vec_capacity};
ghost use Rattle.watches.specs.inner.WatchLists.{next_of, AppendsTwo};

use dimacs::Lit;

/// The place of a watch, its index in the vector of watches; 0 ends a list.
#[derive(Clone, Copy, Debug, PartialEq, Eq)]
pub(crate) struct PlaceId {
    pub(crate) number: u32,
}

/// One of the two watches of a clause: the watched literal, and the place of the next watch of its list.
#[derive(Clone, Copy, Debug, PartialEq, Eq)]
pub(crate) struct Watch {
    /// The watched literal.
    pub(crate) literal: Lit,
    /// The place of the next watch of the list.
    pub(crate) next: PlaceId,
}

/// Appends the two watches of a clause to the vector, and makes them the last ones of the pending list, whose last place the cell in the
/// middle of the first `base` names. It takes no memory.
pub(crate) fn append(places: &mut Vec<Watch>, base: usize, first: Lit, second: Lit)
    requires room { length places.old.items + 2 ≤ vec_capacity places.old }
    requires some { base / 2 < length places.old.items }
    requires last { next_of places.old.items (base / 2) < length places.old.items }
    requires apart { next_of places.old.items (base / 2) ≢ base / 2 }
    requires small { length places.old.items + 2 ≤ 2 ^ 32 }
    ensures appended { AppendsTwo places.old.items places.new.items base first second }
    ensures room { vec_capacity places.new ≡ vec_capacity places.old }
{
    let at = places.len();
    let cell = base / 2;
    let last = places[cell].next.number as usize;
    let second_at = PlaceId {
        number: (at + 1) as u32,
    };
    places[last].next = PlaceId { number: at as u32 };
    places[cell].next = second_at;
    places.push_reserved(Watch {
        literal: first,
        next: second_at,
    });
    places.push_reserved(Watch {
        literal: second,
        next: PlaceId { number: 0 },
    });
}
