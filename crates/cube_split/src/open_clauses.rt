//! The open clauses along a walk: they are closed and opened again, and counted by variable. A clause is open if none of its literals is a
//! unit or on the trail.

ghost use Rattle.std.specs.Prelude.{◌≡◌, ℕ, ◌+◌, ◌<◌, ◌≤◌, length, map, cond, slice_index, All};
ghost use Rattle.dimacs.specs.logic.Literal.{var_of, index_of};
ghost use Rattle.cube_split.specs.Choice.{has_variable};
ghost use Rattle.cube_split.specs.inner.OpenClauses.{AreFlagged, AreIndexed, AreTurned, open_count};
ghost use Rattle.cube_split.specs.inner.Places.{clause_of, places_of};

use crate::places::{Place, Places};
use dimacs::Lit;

/// Takes a clause out of the counts when it is closed: one less for each of its variables. `places`
/// are the occurrences of its literals; `first` is false for a variable's second one.
fn withdraw(counts: &mut [usize], places: &[Place])
    requires within { All (λ e. var_of e.literal < length counts.old) places.now }
    requires flagged { AreFlagged (map (λ e. e.literal) places.now) places.now }
    requires counted { (w : ℕ) → w < length counts.old → cond (has_variable (map (λ e. e.literal) places.now) w) 1 0 ≤ slice_index counts.old w }
    ensures { (w : ℕ) → w < length counts.old → slice_index counts.new w + cond (has_variable (map (λ e. e.literal) places.now) w) 1 0 ≡ slice_index counts.old w }
{
    for place in places {
        if place.first {
            counts[place.literal.var().number() as usize] -= 1;
        }
    }
}

/// Puts a clause back into the counts when it is opened again: one more for each of its variables.
/// `places` are the occurrences of its literals; `first` is false for a variable's second one.
fn restore(counts: &mut [usize], places: &[Place])
    requires within { All (λ e. var_of e.literal < length counts.old) places.now }
    requires flagged { AreFlagged (map (λ e. e.literal) places.now) places.now }
    requires few { (w : ℕ) → w < length counts.old → slice_index counts.old w ≤ 99999999 }
    ensures { (w : ℕ) → w < length counts.old → slice_index counts.new w ≡ slice_index counts.old w + cond (has_variable (map (λ e. e.literal) places.now) w) 1 0 }
{
    for place in places {
        if place.first {
            counts[place.literal.var().number() as usize] += 1;
        }
    }
}

/// The entries of the occurrence lists that belong to the clause of this number (from 0): one for
/// each of its literals, side by side.
fn clause_places(places: &Places, clause: u32) -> &[Place]
    requires clause { clause + 1 < length places.now.starts.items }
    requires inside { (slice_index places.now.starts.items clause ≤ slice_index places.now.starts.items (clause + 1)) × (slice_index places.now.starts.items (clause + 1) ≤ length places.now.places.items) }
    ensures { result.now ≡ places_of places.now.places.items places.now.starts.items clause }
{
    let start = places.starts[clause as usize] as usize;
    let end = places.starts[clause as usize + 1] as usize;
    &places.places[start..end]
}

/// Closes each open clause that contains a literal, by that literal's occurrence list: it notes the
/// level of the walk in `closed`, and takes the clause out of the counts.
pub(crate) fn close(
    places: &Places,
    closed: &mut [u32],
    counts: &mut [usize],
    literal: Lit,
    level: u32,
)
    requires indexed { AreIndexed (length closed.old) places.now.places.items places.now.starts.items places.now.latest.items }
    requires within { All (λ e. var_of e.literal < length counts.old) places.now.places.items }
    requires literal { index_of literal < length places.now.latest.items }
    requires level { 0 < level }
    requires counted { (w : ℕ) → w < length counts.old → slice_index counts.old w ≡ open_count (length closed.old) (clause_of places.now.places.items places.now.starts.items) closed.old w }
    ensures turned { AreTurned (length closed.old) (clause_of places.now.places.items places.now.starts.items) literal 0 level closed.old closed.new }
    ensures counted { (w : ℕ) → w < length counts.old → slice_index counts.new w ≡ open_count (length closed.old) (clause_of places.now.places.items places.now.starts.items) closed.new w }
{
    let mut at = places.latest[literal.index()];
    while at > 0 {
        let place = places.places[at as usize - 1];
        let clause = place.clause as usize;
        if closed[clause] == 0 {
            withdraw(counts, clause_places(places, place.clause));
            closed[clause] = level;
        }
        at = place.before;
    }
}

/// Undoes `close` when the walk goes back: opens each clause that contains the literal and was
/// closed at this level, and puts it back into the counts.
pub(crate) fn reopen(
    places: &Places,
    closed: &mut [u32],
    counts: &mut [usize],
    literal: Lit,
    level: u32,
)
    requires indexed { AreIndexed (length closed.old) places.now.places.items places.now.starts.items places.now.latest.items }
    requires within { All (λ e. var_of e.literal < length counts.old) places.now.places.items }
    requires literal { index_of literal < length places.now.latest.items }
    requires level { 0 < level }
    requires few { length closed.old ≤ 99999999 }
    requires counted { (w : ℕ) → w < length counts.old → slice_index counts.old w ≡ open_count (length closed.old) (clause_of places.now.places.items places.now.starts.items) closed.old w }
    ensures turned { AreTurned (length closed.old) (clause_of places.now.places.items places.now.starts.items) literal level 0 closed.old closed.new }
    ensures counted { (w : ℕ) → w < length counts.old → slice_index counts.new w ≡ open_count (length closed.old) (clause_of places.now.places.items places.now.starts.items) closed.new w }
{
    let mut at = places.latest[literal.index()];
    while at > 0 {
        let place = places.places[at as usize - 1];
        let clause = place.clause as usize;
        if closed[clause] == level {
            restore(counts, clause_places(places, place.clause));
            closed[clause] = 0;
        }
        at = place.before;
    }
}
