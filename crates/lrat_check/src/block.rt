//! A block: 1,024 cells of the near table, allocated when the first slot is put into one of them.

ghost use Rattle.std.specs.Prelude.{◌≡◌, ◌-◌, ◌^◌, ◌<◌, None, Some, slice_index_or, slice_set, OnOk, OnErr, IfOk};
ghost use Rattle.std.specs.Bool.{OnTrue};
ghost use Rattle.lrat_check.specs.inner.Blocks.{free_block, places_of};
ghost use Rattle.lrat_check.specs.inner.Store.{ArePlaced, AreCopied, Keeps};

use crate::compaction::copy_slots;
use crate::slot::{Cell, Slot};
use dimacs::Lit;
use std::alloc::{AllocError, Global};
use std::marker::Model;
use std::mem;

/// The number of cells of a block.
pub(crate) const BLOCK: usize = 1024;

/// Allocates the cells of a block, all free, unless they are allocated.
fn make_cells(cells: &mut Vec<Cell>) -> Result<(), AllocError>
    ensures ok { OnOk result (cells.new.items ≡ places_of cells.old.items) }
    ensures err { OnErr result (cells.new.items ≡ cells.old.items) }
{
    if cells.is_empty() {
        cells.resize(BLOCK, Cell::free())?;
    }
    Ok(())
}

/// 1,024 cells, each free or with a slot. If all are free, they may be unallocated.
#[derive(Drop)]
pub(crate) struct Block {
    /// The 1,024 cells, or none.
    cells: Vec<Cell>,
    /// The number of cells that have a slot.
    live: usize,
}

impl Model for Block {
    ghost use Rattle.std.specs.Prelude.{List, Option};
    ghost use Rattle.lrat_check.specs.declared.slot.Slot.{Slot};
    ghost use Rattle.lrat_check.specs.inner.Blocks.{places_of, IsBlock};

    ghost Value = { List (Option Slot) };

    ghost view = { λ b. places_of b.cells.items };

    ghost invariant = { λ b. IsBlock b.live (places_of b.cells.items) };
}

impl Block {
    /// A block of free cells, none of them allocated.
    pub(crate) fn new(alloc: Global) -> Block
        ensures { result ≡ free_block }
    {
        Block {
            cells: Vec::new(alloc),
            live: 0,
        }
    }

    /// Answers whether no cell is allocated.
    pub(crate) fn is_bare(&self) -> bool
        ensures { OnTrue result (self.now ≡ free_block) }
    {
        self.cells.is_empty()
    }

    /// Answers whether all cells are free.
    pub(crate) fn is_free(&self) -> bool
        ensures { OnTrue result (self.now ≡ free_block) }
    {
        self.live == 0
    }

    /// Answers the number of allocated cells: 0 or 1,024.
    pub(crate) fn weight(&self) -> usize {
        self.cells.len()
    }

    /// Answers the slot in the cell of index `place` (from 0); `None` if the cell is free.
    #[inline(always)]
    pub(crate) fn get(&self, place: usize) -> Option<Slot>
        ensures { result ≡ slice_index_or self.now place None }
    {
        match self.cells.get(place) {
            Some(cell) => cell.slot(),
            None => None,
        }
    }

    /// Puts a slot into the cell of index `place`. If memory is refused, the block is as before.
    pub(crate) fn put(&mut self, place: usize, slot: Slot) -> Result<(), AllocError>
        requires within { place < 1024 }
        requires room { slot.place < 2 ^ 64 - 1 }
        ensures ok { OnOk result (self.new ≡ slice_set self.old place (Some slot)) }
        ensures err { OnErr result (self.new ≡ self.old) }
    {
        make_cells(&mut self.cells)?;
        if self.cells[place].slot().is_none() {
            self.live += 1;
        }
        self.cells[place] = Cell::of(slot);
        Ok(())
    }

    /// Frees the cell of index `place`, if it is allocated, and counts the block's live cells.
    pub(crate) fn free(&mut self, place: usize)
        ensures { self.new ≡ slice_set self.old place None }
    {
        if place < self.cells.len() {
            if self.cells[place].slot().is_some() {
                self.live -= 1;
            }
            self.cells[place] = Cell::free();
        }
    }

    /// Moves the block out, and leaves a free one without allocated cells.
    pub(crate) fn take(&mut self) -> Block
        ensures taken { result ≡ self.old }
        ensures none { self.new ≡ free_block }
    {
        let none = Block::new(*self.cells.allocator());
        mem::replace(self, none)
    }

    /// A part of compaction: appends the block's clauses to `out`, and answers the block of their
    /// new slots.
    pub(crate) fn copied(&self, literals: &[Lit], out: &mut Vec<Lit>) -> Result<Block, AllocError>
        requires { ArePlaced literals.now self.now }
        ensures copied { IfOk result (λ copy. AreCopied literals.now self.now out.new.items copy) }
        ensures kept { Keeps out.old.items out.new.items }
    {
        let mut cells = Vec::with_capacity(*self.cells.allocator(), self.cells.len())?;
        copy_slots(literals, &self.cells, out, &mut cells)?;
        Ok(Block {
            cells,
            live: self.live,
        })
    }
}
