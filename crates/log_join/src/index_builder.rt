//! Builds the index of a tree: for each literal, the leaves whose cubes have it.

ghost use Rattle.std.specs.Prelude.{◌≡◌, ℕ, ◌+◌, ◌*◌, ◌/◌, ◌^◌, ◌<◌, ◌≤◌, IfOk, OnOk, length, slice_index_or};
ghost use Rattle.dimacs.specs.logic.Literal.{Literal, index_of, var_of};
ghost use Rattle.log_join.specs.Bits.{Has};
ghost use Rattle.log_join.specs.Trees.{AreCovered, AreMet, HasPlace};
ghost use Rattle.log_join.specs.inner.Trees.{AreLow, Keeps};

use crate::bits::{BLOCK, BLOCKS, WIDE, set};
use crate::leaf_index::{CODES, Index};
use crate::tree::Node;
use dimacs::Lit;
use std::alloc::{AllocError, Global};

/// Returns the number of a row or a block in the 32 bits of a slot. More than 2^32 of them do not fit into memory, so that is a want of
/// memory.
fn numbered(number: usize) -> Result<u32, AllocError>
    ensures { IfOk result (λ n. n ≡ number) }
{
    if number > u32::MAX as usize {
        return Err(AllocError);
    }
    Ok(number as u32)
}

/// Makes a table of `count` zeros.
fn zeros(alloc: Global, count: usize) -> Result<Vec<u32>, AllocError>
    ensures none { IfOk result (λ table. (i : ℕ) → slice_index_or table.items i 0 ≡ 0) }
    ensures len { IfOk result (λ table. length table.items ≡ count) }
{
    vec![in alloc; 0; count]
}

/// Lengthens a table by zeros, if it has no entry at this index. 0 is the row that no literal has.
fn lengthen(table: &mut Vec<u32>, place: usize) -> Result<(), AllocError>
    requires { place < 400000000 }
    ensures reached { OnOk result (place < length table.new.items) }
    ensures bound { length table.old.items ≤ 400000000 → length table.new.items ≤ 400000000 }
    ensures same { (i : ℕ) → slice_index_or table.new.items i 0 ≡ slice_index_or table.old.items i 0 }
{
    if table.len() <= place {
        table.resize(place + 1, 0)?;
    }
    Ok(())
}

/// Makes the slot of a literal's code, if there is none; a new slot names no row.
fn reach(index: &mut Index, code: usize) -> Result<(), AllocError>
    requires { code < 400000000 }
    ensures reached { OnOk result (code < length index.new.slots.items) }
    ensures kept { OnOk result (Keeps index.old index.new) }
{
    lengthen(&mut index.slots, code)
}

/// Returns the row of a literal's code, and makes the row if there is none.
fn row_for(index: &mut Index, code: usize) -> Result<usize, AllocError>
    requires { code < length index.old.slots.items }
    ensures row { IfOk result (λ row. row ≡ slice_index_or index.new.slots.items code 0) }
    ensures above { IfOk result (λ row. 0 < row) }
    ensures kept { OnOk result (Keeps index.old index.new) }
{
    let row = index.slots[code] as usize;
    if row > 0 {
        return Ok(row);
    }
    let fresh = index.blocks.len() / BLOCKS;
    let slot = numbered(fresh)?;
    index.blocks.extend_from_slice(&[0; BLOCKS])?;
    index.slots[code] = slot;
    Ok(fresh)
}

/// Returns the block at this index of the rows' entries, and makes the block if there is none.
fn block_for(index: &mut Index, at: usize) -> Result<usize, AllocError>
    requires { at < length index.old.blocks.items }
    ensures block { IfOk result (λ block. block ≡ slice_index_or index.new.blocks.items at 0) }
    ensures above { IfOk result (λ block. 0 < block) }
    ensures narrow { IfOk result (λ block. block < 2 ^ 32) }
    ensures slots { OnOk result (index.new.slots.items ≡ index.old.slots.items) }
    ensures kept { OnOk result (Keeps index.old index.new) }
{
    let block = index.blocks[at] as usize;
    if block > 0 {
        return Ok(block);
    }
    let fresh = index.words.len() / BLOCK;
    let slot = numbered(fresh)?;
    index.words.extend_from_slice(&[0; BLOCK])?;
    index.blocks[at] = slot;
    Ok(fresh)
}

/// Adds a leaf index to the set of a literal that the leaf's cube has. A literal whose code is too
/// great for any line gets no set, since no lemma has it.
fn note(index: &mut Index, l: Lit, place: usize) -> Result<(), AllocError>
    requires { place < 65536 }
    ensures here { OnOk result (var_of l ≤ 199999999 → HasPlace index.new l place) }
    ensures kept { OnOk result (Keeps index.old index.new) }
{
    let code = l.index();
    if code >= CODES {
        return Ok(());
    }
    reach(index, code)?;
    let row = row_for(index, code)?;
    let block = block_for(index, row * BLOCKS + place / WIDE)?;
    set(&mut index.words, block * WIDE + place % WIDE);
    Ok(())
}

/// Adds a leaf index to the set of each literal of the leaf's cube.
fn note_all(index: &mut Index, cube: &[Lit], place: usize) -> Result<(), AllocError>
    requires { place < 65536 }
    ensures met { OnOk result (AreMet index.new place cube.now) }
    ensures kept { OnOk result (Keeps index.old index.new) }
{
    for l in cube {
        note(index, *l, place)?;
    }
    Ok(())
}

/// Adds the leaves of a subtree; the first of them has the index `from`.
fn cover_below(index: &mut Index, node: &Node, from: u32) -> Result<(), AllocError>
    requires { AreLow from node.now }
    ensures covered { OnOk result (AreCovered index.new from node.now) }
    ensures kept { OnOk result (Keeps index.old index.new) }
{
    match node {
        Node::Leaf { cube, .. } => note_all(index, cube, from as usize),
        Node::Fork {
            middle,
            left,
            right,
            ..
        } => {
            cover_below(index, left, from)?;
            cover_below(index, right, *middle)
        }
    }
}

/// Counts the slots that the literals of a cube need. It is a hint for the memory alone, since `reach` makes any slot that lacks.
fn slots_of(cube: &[Lit]) -> usize {
    let mut slots = 0;
    for l in cube {
        let code = l.index();
        if slots <= code && code < CODES {
            slots = code + 1;
        }
    }
    slots
}

/// Counts the slots that the literals of a subtree's cubes need.
fn slots_below(node: &Node) -> usize {
    match node {
        Node::Leaf { cube, .. } => slots_of(cube),
        Node::Fork { left, right, .. } => slots_below(left).max(slots_below(right)),
    }
}

/// Builds the index of a tree, by which a lemma's leaves are found without a pass over all leaves.
pub(crate) fn index_of(alloc: Global, node: &Node) -> Result<Index, AllocError>
    requires { AreLow 0 node.now }
    ensures { IfOk result (λ index. AreCovered index 0 node.now) }
{
    let mut index = Index {
        slots: Vec::with_capacity(alloc, slots_below(node))?,
        blocks: zeros(alloc, BLOCKS)?,
        words: vec![in alloc; 0; BLOCK]?,
    };
    cover_below(&mut index, node, 0)?;
    Ok(index)
}
