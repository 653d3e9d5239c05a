//! A table of slots in blocks of 1,024 cells, which are allocated on demand.

ghost use Rattle.std.specs.Prelude.{◌≡◌, ◌≢◌, ℕ, ◌+◌, ◌-◌, ◌^◌, ◌<◌, ◌≤◌, [], ◌++◌, None, Some, All, length, slice_index_or, slice_set, OnOk, OnErr, IfOk};
ghost use Rattle.lrat_check.specs.inner.Blocks.{free_block, joined};
ghost use Rattle.lrat_check.specs.inner.Store.{ArePlaced, AreCopied, Keeps};

use crate::block::{BLOCK, Block};
use crate::slot::Slot;
use dimacs::Lit;
use std::alloc::{AllocError, Global};
use std::marker::Model;
use std::mem;

/// The greatest number of blocks, so that the number of cells fits in a `usize`.
const MOST: usize = 1 << 48;

/// Puts a slot into the cell of index `place` of a block. If the block has no cells, it first takes those of the spare block.
fn set_cell(
    block: &mut Block,
    spare: &mut Block,
    place: usize,
    slot: Slot,
) -> Result<(), AllocError>
    requires within { place < 1024 }
    requires room { slot.place < 2 ^ 64 - 1 }
    requires spare { spare.old ≡ free_block }
    ensures ok { OnOk result (block.new ≡ slice_set block.old place (Some slot)) }
    ensures err { OnErr result (block.new ≡ block.old) }
    ensures spare { spare.new ≡ free_block }
{
    if block.is_bare() {
        mem::swap(block, spare);
    }
    block.put(place, slot)
}

/// Frees the cell of index `place` of a block. A block without a slot gives its cells back: they
/// become the spare ones, for the next block that needs cells, and the old spare ones are freed.
fn free_cell(block: &mut Block, spare: &mut Block, place: usize)
    requires { spare.old ≡ free_block }
    ensures freed { block.new ≡ slice_set block.old place None }
    ensures spare { spare.new ≡ free_block }
{
    block.free(place);
    if block.is_free() {
        *spare = block.take();
    }
}

/// A table of slots by index. Most indices are numbers of deleted lemmas, so each block of 1,024 cells is allocated when a slot is first
/// put there, and freed after its last slot is gone. Otherwise a proof would take memory for each number that it ever gave.
#[derive(Drop)]
pub(crate) struct Blocks {
    /// The blocks: index i is in block i / 1,024.
    blocks: Vec<Block>,
    /// A block without slots, whose cells the next block takes. So a proof that adds and deletes lemmas by turns allocates nothing.
    spare: Block,
}

impl Model for Blocks {
    ghost use Rattle.std.specs.Prelude.{◌≡◌, List, Option};
    ghost use Rattle.lrat_check.specs.declared.slot.Slot.{Slot};
    ghost use Rattle.lrat_check.specs.inner.Blocks.{free_block, joined, AreBlocks};

    ghost Value = { List (Option Slot) };

    ghost view = { λ t. joined t.blocks.items };

    ghost invariant = { λ t. AreBlocks t.blocks.items × (t.spare ≡ free_block) };
}

impl Blocks {
    /// An empty table.
    pub(crate) fn new(alloc: Global) -> Blocks
        ensures { result ≡ [] }
    {
        Blocks {
            blocks: Vec::new(alloc),
            spare: Block::new(alloc),
        }
    }

    /// Answers the number of cells, allocated or not.
    #[inline(always)]
    pub(crate) fn len(&self) -> usize
        ensures len { result ≡ length self.now }
        ensures few { result ≤ 2 ^ 58 }
    {
        BLOCK * self.blocks.len()
    }

    /// A step of proofs: its contract bounds the number of cells. It does nothing at run time.
    pub(crate) fn bound_len(&self)
        ensures { length self.now < 2 ^ 62 }
    {
        let _ = self.len();
    }

    /// Answers the slot at index `place`; `None` if the cell is free or the table ends before it.
    #[inline(always)]
    pub(crate) fn get(&self, place: usize) -> Option<Slot>
        ensures { result ≡ slice_index_or self.now place None }
    {
        match self.blocks.get(place / BLOCK) {
            Some(block) => block.get(place % BLOCK),
            None => None,
        }
    }

    /// Puts a slot at index `place`. If cells have to be allocated and memory is refused, nothing changes.
    pub(crate) fn set(&mut self, place: usize, slot: Slot) -> Result<(), AllocError>
        requires here { place < length self.old }
        requires room { slot.place < 2 ^ 64 - 1 }
        ensures ok { OnOk result (self.new ≡ slice_set self.old place (Some slot)) }
        ensures err { OnErr result (self.new ≡ self.old) }
    {
        set_cell(
            &mut self.blocks[place / BLOCK],
            &mut self.spare,
            place % BLOCK,
            slot,
        )
    }

    /// Frees the cell at index `place`.
    pub(crate) fn free(&mut self, place: usize)
        requires { place < length self.old }
        ensures { self.new ≡ slice_set self.old place None }
    {
        free_cell(
            &mut self.blocks[place / BLOCK],
            &mut self.spare,
            place % BLOCK,
        );
    }

    /// Appends a block of free cells, none of them allocated.
    pub(crate) fn push_block(&mut self) -> Result<(), AllocError>
        ensures ok { OnOk result (self.new ≡ self.old ++ free_block) }
        ensures err { OnErr result (self.new ≡ self.old) }
    {
        if self.blocks.len() >= MOST {
            return Err(AllocError);
        }
        let block = Block::new(*self.blocks.allocator());
        self.blocks.push(block)?;
        Ok(())
    }

    /// Answers the number of blocks and of allocated cells: what a copy of the table has to look at.
    pub(crate) fn weight(&self) -> usize {
        let mut weight = self.blocks.len();
        for block in &self.blocks {
            weight = weight.saturating_add(block.weight());
        }
        weight
    }

    /// A part of compaction: appends the clauses of the table to `out`, and answers the table of
    /// their new slots.
    pub(crate) fn copied(&self, literals: &[Lit], out: &mut Vec<Lit>) -> Result<Blocks, AllocError>
        requires { ArePlaced literals.now self.now }
        ensures copied { IfOk result (λ copy. AreCopied literals.now self.now out.new.items copy) }
        ensures kept { Keeps out.old.items out.new.items }
    {
        let alloc = *self.blocks.allocator();
        Ok(Blocks {
            blocks: copy_blocks(alloc, literals, &self.blocks, out)?,
            spare: Block::new(alloc),
        })
    }
}

/// A part of compaction: appends the clauses of blocks to `out`, and answers the blocks of their
/// new slots.
fn copy_blocks(
    alloc: Global,
    literals: &[Lit],
    blocks: &[Block],
    out: &mut Vec<Lit>,
) -> Result<Vec<Block>, AllocError>
    requires placed { ArePlaced literals.now (joined blocks.now) }
    requires full { All (λ slots. length slots ≡ 1024) blocks.now }
    ensures many { IfOk result (λ copies. length copies.items ≡ length blocks.now) }
    ensures full { IfOk result (λ copies. All (λ slots. length slots ≡ 1024) copies.items) }
    ensures copied { IfOk result (λ copies. AreCopied literals.now (joined blocks.now) out.new.items (joined copies.items)) }
    ensures kept { Keeps out.old.items out.new.items }
{
    let mut copies = Vec::with_capacity(alloc, blocks.len())?;
    for i in 0..blocks.len() {
        let copy = blocks[i].copied(literals, out)?;
        copies.push(copy)?;
    }
    Ok(copies)
}

/// Appends a block of free cells if the table ends before index `place`, which is at most one block after its end.
fn grow_to(blocks: &mut Blocks, place: usize) -> Result<(), AllocError>
    requires { place < length blocks.old + 1024 }
    ensures longer { OnOk result (place < length blocks.new) }
    ensures same { (q : ℕ) → slice_index_or blocks.new q None ≡ slice_index_or blocks.old q None }
{
    if blocks.len() <= place {
        blocks.push_block()?;
    }
    Ok(())
}

/// Puts a slot at index `place`, which is at most one block after the table's end.
pub(crate) fn put_next(blocks: &mut Blocks, place: usize, slot: Slot) -> Result<(), AllocError>
    requires next { place < length blocks.old + 1024 }
    requires room { slot.place < 2 ^ 64 - 1 }
    ensures longer { OnOk result (place + 1 ≤ length blocks.new) }
    ensures here { OnOk result (slice_index_or blocks.new place None ≡ Some slot) }
    ensures others { OnOk result ((q : ℕ) → q ≢ place → slice_index_or blocks.new q None ≡ slice_index_or blocks.old q None) }
{
    grow_to(blocks, place)?;
    blocks.set(place, slot)
}
