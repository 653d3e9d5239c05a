//! Compaction: copies the live clauses one after the other into a new vector, without the literals of deleted clauses.

ghost use Rattle.std.specs.Prelude.{◌≡◌, length, vec_len, OnOk, IfOk, IfSome, option_map, []};
ghost use Rattle.lrat_check.specs.inner.Store.{clause_at, IsPlaced, ArePlaced, Keeps, SameClauses};

use crate::slot::Cell;
use crate::slot_tables::{append, clause_of};
use dimacs::Lit;
use std::alloc::AllocError;

/// Appends the clause of a cell's slot to the new vector `out`, and answers the cell of the new
/// slot. A free cell gives a free cell.
fn copy_slot(literals: &[Lit], cell: Cell, out: &mut Vec<Lit>) -> Result<Cell, AllocError>
    requires { IfSome cell (IsPlaced literals.now) }
    ensures clause { IfOk result (λ copy. option_map (clause_at out.new.items) copy ≡ option_map (clause_at literals.now) cell) }
    ensures placed { IfOk result (λ copy. IfSome copy (IsPlaced out.new.items)) }
    ensures kept { Keeps out.old.items out.new.items }
{
    match cell.slot() {
        Some(slot) => {
            let lits = clause_of(literals, slot);
            let copy = append(out, lits)?;
            Ok(Cell::of(copy))
        }
        None => Ok(Cell::free()),
    }
}

/// Appends the clauses of a list of cells to the new vector `out`, and the cells of their new slots
/// to `copies`, in the same order.
pub(crate) fn copy_slots(
    literals: &[Lit],
    slots: &[Cell],
    out: &mut Vec<Lit>,
    copies: &mut Vec<Cell>,
) -> Result<(), AllocError>
    requires placed { ArePlaced literals.now slots.now }
    requires none { copies.old.items ≡ [] }
    ensures length { OnOk result (vec_len copies.new ≡ length slots.now) }
    ensures clauses { OnOk result (SameClauses literals.now slots.now out.new.items copies.new.items) }
    ensures placed { OnOk result (ArePlaced out.new.items copies.new.items) }
    ensures kept { Keeps out.old.items out.new.items }
{
    for i in 0..slots.len() {
        let copy = copy_slot(literals, slots[i], out)?;
        copies.push(copy)?;
    }
    Ok(())
}
