//! The dense table of slots, indexed by clause number.

ghost use Rattle.std.specs.Prelude.{◌≡◌, ◌-◌, ◌^◌, ◌<◌, [], ◌∷◌, ◌++◌, None, Some, length, map, slice_index_or, slice_set, IsSome, OnOk, OnErr};
ghost use Rattle.clause_arena.specs.inner.Relocation.{ref_of};
ghost use Rattle.clause_arena.specs.inner.Slots.{near_entries};

use crate::blocks::{Blocks, list_cells};
use crate::reference::Ref;
use crate::slot::{Cell, Slot};
use std::alloc::{AllocError, Global};
use std::marker::Model;

/// Slots in cells, by clause number. Cells made before the first removal are in one flat vector, where a slot is found by one read: they
/// are those of the base's clauses, which a search never removes. Later cells are in blocks, which are freed once all their clauses are
/// gone.
#[derive(Drop)]
pub(crate) struct SlotTable {
    /// The first cells.
    flat: Vec<Cell>,
    /// The cells after them.
    rest: Blocks,
    /// Whether a slot was ever removed.
    taken_out: bool,
}

impl Model for SlotTable {
    ghost use Rattle.std.specs.Prelude.{List, Option, ◌++◌};
    ghost use Rattle.clause_arena.specs.declared.slot.Slot.{Slot};

    ghost Value = { List (Option Slot) };

    ghost view = { λ t. t.flat.items ++ t.rest };
}

impl SlotTable {
    /// A table without a cell.
    pub(crate) fn new(alloc: Global) -> SlotTable
        ensures { result ≡ [] }
    {
        SlotTable {
            flat: Vec::new(alloc),
            rest: Blocks::new(alloc),
            taken_out: false,
        }
    }

    /// The number of cells.
    #[inline(always)]
    pub(crate) fn len(&self) -> usize
        ensures { result ≡ length self.now }
    {
        self.flat.len() + self.rest.len()
    }

    /// The slot in the cell at an index; None if the cell is free.
    #[inline(always)]
    pub(crate) fn get(&self, place: usize) -> Option<Slot>
        requires { place < length self.now }
        ensures { result ≡ slice_index_or self.now place None }
    {
        if place < self.flat.len() {
            self.flat[place].slot()
        } else {
            self.rest.get(place - self.flat.len())
        }
    }

    /// Sets the cell at an index to a slot. The cells of its block may have to be allocated; if memory is refused, the table is unchanged.
    pub(crate) fn set(&mut self, place: usize, slot: Slot) -> Result<(), AllocError>
        requires here { place < length self.old }
        requires room { slot.place < 2 ^ 32 - 1 }
        ensures ok { OnOk result (self.new ≡ slice_set self.old place (Some slot)) }
        ensures err { OnErr result (self.new ≡ self.old) }
    {
        if place < self.flat.len() {
            self.flat[place] = Cell::of(slot);
            Ok(())
        } else {
            self.rest.set(place - self.flat.len(), slot)
        }
    }

    /// Replaces the slot in the cell at an index, which is not free. It takes no memory.
    pub(crate) fn replace(&mut self, place: usize, slot: Slot)
        requires here { IsSome (slice_index_or self.old place None) }
        requires room { slot.place < 2 ^ 32 - 1 }
        ensures { self.new ≡ slice_set self.old place (Some slot) }
    {
        if place < self.flat.len() {
            self.flat[place] = Cell::of(slot);
        } else {
            self.rest.replace(place - self.flat.len(), slot);
        }
    }

    /// Frees the cell at an index. From then on new cells are made in blocks, which can be given
    /// back.
    pub(crate) fn free(&mut self, place: usize)
        requires { place < length self.old }
        ensures { self.new ≡ slice_set self.old place None }
    {
        self.taken_out = true;
        if place < self.flat.len() {
            self.flat[place] = Cell::free();
        } else {
            self.rest.free(place - self.flat.len());
        }
    }

    /// Appends one free cell: in the flat vector if no slot was removed yet and no cell is in blocks, else in the blocks.
    pub(crate) fn push_free_cell(&mut self) -> Result<(), AllocError>
        ensures ok { OnOk result (self.new ≡ self.old ++ None ∷ []) }
        ensures err { OnErr result (self.new ≡ self.old) }
    {
        if self.taken_out || self.rest.len() > 0 {
            self.rest.push_free_cell()?;
        } else {
            self.flat.push(Cell::free())?;
        }
        Ok(())
    }

    /// Appends a reference to the clause of each cell, in the order of clause numbers. Frees the cells of blocks without a clause.
    pub(crate) fn list(&mut self, refs: &mut Vec<Ref>) -> Result<(), AllocError>
        ensures same { self.new ≡ self.old }
        ensures listed { OnOk result (refs.new.items ≡ refs.old.items ++ map ref_of (near_entries 0 self.old)) }
    {
        list_cells(&self.flat, 0, refs)?;
        self.rest.list(self.flat.len(), refs)
    }
}
