//! The slots of clauses, by clause number, in blocks of 64 cells that are allocated on demand.

ghost use Rattle.std.specs.Prelude.{◌≡◌, ℕ, ◌+◌, ◌-◌, ◌^◌, ◌<◌, ◌≤◌, ◌≢◌, [], ◌∷◌, ◌++◌, None, Some, List, Option, length, map, slice_index_or, slice_set, IsSome, OnOk, OnErr};
ghost use Rattle.clause_arena.specs.declared.slot.Slot.{Slot};
ghost use Rattle.clause_arena.specs.inner.Relocation.{ref_of};
ghost use Rattle.clause_arena.specs.inner.Slots.{near_entries};

use crate::reference::Ref;
use crate::slot::{Cell, Slot};
use std::alloc::{AllocError, Global};
use std::marker::Model;

/// The number of cells per block.
const BLOCK: usize = 64;

/// The greatest number of blocks, so that the number of cells does not overflow a `usize`.
const MOST: usize = 1 << 48;

/// Slots in cells, by the cell's index, in blocks of 64 cells. Most cells belong to lemmas that were deleted. So the cells of a block are
/// allocated when its first slot is set, and freed by `list` if the block has no slot: else a search would keep a cell for each lemma that
/// it ever learnt.
#[derive(Drop)]
pub(crate) struct Blocks {
    /// The cells of each block; empty if the block was not allocated yet or was freed.
    blocks: Vec<Vec<Cell>>,
    /// The number of cells, allocated or not; one that is not allocated counts as free.
    len: usize,
}

impl Model for Blocks {
    ghost use Rattle.std.specs.Prelude.{List, Option, map};
    ghost use Rattle.clause_arena.specs.declared.slot.Slot.{Slot};
    ghost use Rattle.clause_arena.specs.inner.Blocks.{slots_from, IsBlocks};

    ghost Value = { List (Option Slot) };

    ghost view = { λ t. slots_from (map (λ b. b.items) t.blocks.items) 0 t.len };

    ghost invariant = { λ t. IsBlocks t.len (map (λ b. b.items) t.blocks.items) };
}

/// Sets a cell of a block to a slot. The block's cells are allocated first if it has none; if that is refused, the block is unchanged.
fn set_cell(block: &mut Vec<Cell>, cell: usize, slot: Slot) -> Result<(), AllocError>
    requires within { cell < 64 }
    requires short { length block.old.items ≤ 64 }
    requires room { slot.place < 2 ^ 32 - 1 }
    ensures here { OnOk result (slice_index_or block.new.items cell None ≡ Some slot) }
    ensures others { (k : ℕ) → k ≢ cell → slice_index_or block.new.items k None ≡ slice_index_or block.old.items k None }
    ensures err { OnErr result (block.new.items ≡ block.old.items) }
    ensures short { length block.new.items ≤ 64 }
{
    block.resize(BLOCK, Cell::free())?;
    block[cell] = Cell::of(slot);
    Ok(())
}

/// Frees a cell of a block. A cell that is not allocated is free.
fn free_cell(block: &mut Vec<Cell>, cell: usize)
    ensures here { slice_index_or block.new.items cell None ≡ None }
    ensures others { (k : ℕ) → k ≢ cell → slice_index_or block.new.items k None ≡ slice_index_or block.old.items k None }
    ensures len { length block.new.items ≡ length block.old.items }
{
    if cell < block.len() {
        block[cell] = Cell::free();
    }
}

/// Appends a reference to the clause of each cell that is not free; `first` is the clause number of the cell at index 0.
pub(crate) fn list_cells(
    cells: &[Cell],
    first: usize,
    refs: &mut Vec<Ref>,
) -> Result<(), AllocError>
    requires { first + length cells.now < 2 ^ 64 }
    ensures { OnOk result (refs.new.items ≡ refs.old.items ++ map ref_of (near_entries first cells.now)) }
{
    for (i, cell) in cells.iter().enumerate() {
        if let Some(slot) = cell.slot() {
            refs.push(Ref {
                number: (first + i) as u64,
                place: slot.place,
                len: slot.len,
            })?;
        }
    }
    Ok(())
}

/// Appends a reference to the clause of each cell of a block; `first` is the clause number of its
/// cell at index 0. A block without a clause gives its memory back.
fn list_block(block: &mut Vec<Cell>, first: usize, refs: &mut Vec<Ref>) -> Result<(), AllocError>
    requires { first + length block.old.items < 2 ^ 64 }
    ensures same { (k : ℕ) → slice_index_or block.new.items k None ≡ slice_index_or block.old.items k None }
    ensures short { length block.new.items ≤ length block.old.items }
    ensures listed { OnOk result (refs.new.items ≡ refs.old.items ++ map ref_of (near_entries first block.old.items)) }
{
    let before = refs.len();
    list_cells(block, first, refs)?;
    if refs.len() == before {
        *block = Vec::new(*block.allocator());
    }
    Ok(())
}

impl Blocks {
    /// Blocks without a cell.
    pub(crate) fn new(alloc: Global) -> Blocks
        ensures { result ≡ [] }
    {
        Blocks {
            blocks: Vec::new(alloc),
            len: 0,
        }
    }

    /// The number of cells.
    #[inline(always)]
    pub(crate) fn len(&self) -> usize
        ensures len { result ≡ length self.now }
        ensures few { result ≤ 2 ^ 54 }
    {
        self.len
    }

    /// The slot in the cell at an index; None if the cell is free.
    #[inline(always)]
    pub(crate) fn get(&self, place: usize) -> Option<Slot>
        requires { place < length self.now }
        ensures { result ≡ slice_index_or self.now place None }
    {
        match self.blocks[place / BLOCK].get(place % BLOCK) {
            Some(cell) => cell.slot(),
            None => None,
        }
    }

    /// Sets the cell at an index to a slot. The cells of its block may have to be allocated; if memory is refused, nothing changes.
    pub(crate) fn set(&mut self, place: usize, slot: Slot) -> Result<(), AllocError>
        requires here { place < length self.old }
        requires room { slot.place < 2 ^ 32 - 1 }
        ensures ok { OnOk result (self.new ≡ slice_set self.old place (Some slot)) }
        ensures err { OnErr result (self.new ≡ self.old) }
    {
        set_cell(&mut self.blocks[place / BLOCK], place % BLOCK, slot)
    }

    /// Replaces the slot in the cell at an index, which is not free. It takes no memory.
    pub(crate) fn replace(&mut self, place: usize, slot: Slot)
        requires here { IsSome (slice_index_or self.old place None) }
        requires room { slot.place < 2 ^ 32 - 1 }
        ensures { self.new ≡ slice_set self.old place (Some slot) }
    {
        self.blocks[place / BLOCK][place % BLOCK] = Cell::of(slot);
    }

    /// Frees the cell at an index.
    pub(crate) fn free(&mut self, place: usize)
        requires { place < length self.old }
        ensures { self.new ≡ slice_set self.old place None }
    {
        free_cell(&mut self.blocks[place / BLOCK], place % BLOCK);
    }

    /// Appends one free cell. It is an error if memory is refused or there are 2^54 cells; then nothing changes.
    pub(crate) fn push_free_cell(&mut self) -> Result<(), AllocError>
        ensures ok { OnOk result (self.new ≡ self.old ++ None ∷ []) }
        ensures err { OnErr result (self.new ≡ self.old) }
    {
        if self.len / BLOCK >= self.blocks.len() {
            if self.blocks.len() >= MOST {
                return Err(AllocError);
            }
            let block = Vec::new(*self.blocks.allocator());
            self.blocks.push(block)?;
        }
        self.len += 1;
        Ok(())
    }

    /// Appends a reference to the clause of each cell, in the order of clause numbers; `first` is the clause number of the cell at index 0.
    /// Frees the cells of blocks without a clause.
    pub(crate) fn list(&mut self, first: usize, refs: &mut Vec<Ref>) -> Result<(), AllocError>
        requires { first < 2 ^ 63 }
        ensures same { self.new ≡ self.old }
        ensures listed { OnOk result (refs.new.items ≡ refs.old.items ++ map ref_of (near_entries first self.old)) }
    {
        for block in 0..self.blocks.len() {
            list_block(&mut self.blocks[block], first + BLOCK * block, refs)?;
        }
        Ok(())
    }
}
