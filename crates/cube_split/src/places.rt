//! Occurrence lists: for each literal its places in a formula, as a linked list through one array.

ghost use Rattle.std.specs.Prelude.{◌≡◌, ℕ, ◌+◌, ◌*◌, ◌<◌, ◌≤◌, ◌++◌, List, [], ◌∷◌, length, slice_index, All, IfOk, OnOk};
ghost use Rattle.dimacs.specs.logic.Literal.{var_of, index_of};
ghost use Rattle.cube_split.specs.inner.Places.{ArePlaced, AreChained, Appends};

use dimacs::{Formula, Lit};
use std::alloc::{AllocError, Global};

/// A place: an occurrence of a literal in a formula. The number of a place is its index in the array plus 1.
#[derive(Clone, Copy)]
pub(crate) struct Place {
    pub literal: Lit,
    /// The number of the literal's clause, from 0.
    pub clause: u32,
    /// The number of the previous place of the same literal; 0 if there is none.
    pub before: u32,
    /// Whether the literal is the first of its variable in its clause, so that the clause counts once for a variable.
    pub first: bool,
}

/// The places of a formula's literals, clause after clause, and where each clause and each literal has its places.
pub(crate) struct Places {
    pub places: Vec<Place>,
    /// By clause, the index of its first place; and after the last clause the number of places.
    pub starts: Vec<u32>,
    /// By literal, the number of its last place; 0 if it does not occur.
    pub latest: Vec<u32>,
}

impl Drop for Places {
    fn drop(self) {
        let Places {
            places: _,
            starts: _,
            latest: _,
        } = self;
    }
}

/// Appends the places of the clause of this number, from 0. `last` has by variable the last clause in which it occurred so far, counted
/// from 1.
fn append_clause(
    places: &mut Vec<Place>,
    latest: &mut [u32],
    last: &mut [u32],
    clause: &[Lit],
    number: u32,
) -> Result<(), AllocError>
    requires within { All (λ l. index_of l < length latest.old) clause.now }
    requires variables { All (λ l. var_of l < length last.old) clause.now }
    requires few { length places.old.items + length clause.now ≤ 999999999 }
    requires number { number < 99999999 }
    requires chained { AreChained places.old.items latest.old }
    requires earlier { (w : ℕ) → w < length last.old → slice_index last.old w ≤ number }
    ensures appends { OnOk result (Appends places.old.items number clause.now places.new.items) }
    ensures chained { OnOk result (AreChained places.new.items latest.new) }
    ensures last { OnOk result ((w : ℕ) → w < length last.old → slice_index last.new w ≤ number + 1) }
{
    for literal in clause {
        let variable = literal.var().number() as usize;
        let index = literal.index();
        places.push(Place {
            literal: *literal,
            clause: number,
            before: latest[index],
            first: last[variable] != number + 1,
        })?;
        latest[index] = places.len() as u32;
        last[variable] = number + 1;
    }
    Ok(())
}

/// Appends the places of each clause of a formula, and to `starts` the index after each clause's last place.
fn append_clauses(
    places: &mut Vec<Place>,
    starts: &mut Vec<u32>,
    latest: &mut [u32],
    last: &mut [u32],
    formula: &Formula,
) -> Result<(), AllocError>
    requires none { places.old.items ≡ [] }
    requires first { starts.old.items ≡ 0 ∷ [] }
    requires latest { length latest.old ≡ 2 * length last.old }
    requires last { formula.now.vars < length last.old }
    requires zeros { (k : ℕ) → k < length latest.old → slice_index latest.old k ≡ 0 }
    requires earlier { (w : ℕ) → w < length last.old → slice_index last.old w ≡ 0 }
    ensures placed { OnOk result (ArePlaced formula.now.clauses (length formula.now.clauses) places.new.items starts.new.items) }
    ensures chained { OnOk result (AreChained places.new.items latest.new) }
    ensures within { OnOk result (All (λ e. var_of e.literal < length last.old) places.new.items) }
{
    let _ = formula.vars(); // for proofs: the formula is within its limits
    for i in 0..formula.len() {
        append_clause(places, latest, last, formula.clause(i), i as u32)?;
        starts.push(places.len() as u32)?;
    }
    Ok(())
}

impl Places {
    /// The places of a formula's literals, with tables for `rows` variables, 0 included.
    pub(crate) fn of(alloc: Global, formula: &Formula, rows: usize) -> Result<Places, AllocError>
        requires rows { (formula.now.vars < rows) × (rows ≤ 100000064) }
        ensures placed { IfOk result (λ p. ArePlaced formula.now.clauses (length formula.now.clauses) p.places.items p.starts.items) }
        ensures chained { IfOk result (λ p. AreChained p.places.items p.latest.items) }
        ensures within { IfOk result (λ p. All (λ e. var_of e.literal < rows) p.places.items) }
        ensures size { IfOk result (λ p. length p.latest.items ≡ 2 * rows) }
    {
        let mut latest = vec![in alloc; 0; 2 * rows]?;
        let mut last = vec![in alloc; 0; rows]?;
        let mut places = Vec::new(alloc);
        let mut starts = vec![in alloc; 0]?;
        append_clauses(&mut places, &mut starts, &mut latest, &mut last, formula)?;
        Ok(Places {
            places,
            starts,
            latest,
        })
    }
}
