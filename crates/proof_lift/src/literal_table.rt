//! Tables by literal: a cell for each literal, at the literal's index.

ghost use Rattle.std.specs.Prelude.{◌≡◌, ℕ, ◌≤◌, slice_index, vec_len, OnOk};
ghost use Rattle.lrat_check.specs.inner.LiteralTable.{FitsTable};

use dimacs::Lit;
use std::alloc::AllocError;

/// Returns the length of a table that has a cell for each of these literals and for its negation.
pub(crate) fn places_for(lits: &[Lit]) -> usize
    ensures { FitsTable result lits.now }
{
    let mut places = 0;
    for l in lits {
        let needed = 2 * l.var().number() as usize + 2;
        if places < needed {
            places = needed;
        }
    }
    places
}

/// Grows a table to at least `places` cells. A new cell is 0, which is also what a read after the end gives.
pub(crate) fn grow(table: &mut Vec<u64>, places: usize) -> Result<(), AllocError>
    ensures fits { OnOk result (places ≤ vec_len table.new) }
    ensures longer { vec_len table.old ≤ vec_len table.new }
    ensures same { (i : ℕ) → slice_index table.new.items i ≡ slice_index table.old.items i }
{
    if table.len() < places {
        table.resize(places, 0)?;
    }
    Ok(())
}
