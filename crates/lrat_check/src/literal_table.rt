//! Tables that are indexed by literal.

ghost use Rattle.std.specs.Prelude.{◌≡◌, ℕ, ◌≤◌, slice_index_or, vec_len, OnOk};
ghost use Rattle.lrat_check.specs.inner.LiteralTable.{FitsTable};

use dimacs::Lit;
use std::alloc::AllocError;

/// Answers the length of a table that has an entry for each of the literals and for its negation.
pub(crate) fn places_for(lits: &[Lit]) -> usize
    ensures { FitsTable result lits.now }
{
    let mut places = 0;
    for l in lits {
        let needed = 2 * l.var().number() as usize + 2;
        if places < needed {
            places = needed;
        }
    }
    places
}

/// Grows a table to at least `places` entries. A new entry is `unset`, as is the value of a read after the table's end.
pub(crate) fn grow<T: Copy + Drop>(
    table: &mut Vec<T>,
    places: usize,
    unset: T,
) -> Result<(), AllocError>
    ensures fits { OnOk result (places ≤ vec_len table.new) }
    ensures longer { vec_len table.old ≤ vec_len table.new }
    ensures same { (i : ℕ) → slice_index_or table.new.items i unset ≡ slice_index_or table.old.items i unset }
{
    if table.len() < places {
        table.resize(places, unset)?;
    }
    Ok(())
}
