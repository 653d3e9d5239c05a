//! Finds the open leaves that a lemma closes.
//!
//! A lemma closes a leaf if the leaf's cube has the negation of each literal of the lemma. So the set of open leaves is intersected with
//! the sets of these negations, block by block of 1,024 leaf indices; a block that becomes empty is left at once.

ghost use Rattle.std.specs.Prelude.{◌≡◌, ℕ, ◌+◌, ◌*◌, ◌/◌, ◌%◌, ◌<◌, ◌≤◌, IsTrue, true, false, All, Contains, MatchOption, length, slice_index_or};
ghost use Rattle.dimacs.specs.logic.Literal.{Literal, IsWithin, index_of, negation};
ghost use Rattle.log_join.specs.Bits.{Has};
ghost use Rattle.log_join.specs.Trees.{row_of};
ghost use Rattle.log_join.specs.inner.Trees.{AllHavePlace};

use crate::bits::{BLOCK, BLOCKS, block_of, keep, put_block};
use crate::leaf_index::Index;
use dimacs::Lit;

/// Returns the row of a literal; 0 if no cube has it.
fn row_of(index: &Index, l: Lit) -> usize
    ensures value { result ≡ row_of index.now l }
    ensures known { 0 < result → (2 ≤ index_of l) × (index_of l < 400000000) }
{
    match index.slots.get(l.index()) {
        Some(row) => *row as usize,
        None => 0,
    }
}

/// Tells whether the negation of each literal of a clause is in some cube; if not, the clause
/// closes no leaf, and the blocks are not searched.
fn are_known(index: &Index, clause: &[Lit]) -> bool
    ensures small { IsTrue result → All (IsWithin 199999999) clause.now }
    ensures none { result ≡ false → (l : Literal) × Contains clause.now l × (row_of index.now (negation l) ≡ 0) }
{
    for l in clause {
        if row_of(index, l.negate()) == 0 {
            return false;
        }
    }
    true
}

/// Returns the open leaves of a block that a clause closes: their cubes have the negation of each
/// of its literals. `None` if there is no such leaf.
fn meet(index: &Index, clause: &[Lit], unclosed: &[u64], block: usize) -> Option<[u64; BLOCK]>
    requires unclosed { length unclosed.now ≡ 1024 }
    requires block { block < 64 }
    ensures { (p : ℕ) → p / 1024 ≡ block → Has unclosed.now p → AllHavePlace index.now clause.now p → MatchOption result ⊥ (λ part. Has part (p % 1024)) }
{
    let mut part = block_of(unclosed, block);
    for l in clause {
        let row = row_of(index, l.negate());
        let other = index.blocks[row * BLOCKS + block] as usize;
        if other == 0 {
            return None;
        }
        if !keep(&mut part, &index.words, other) {
            return None;
        }
    }
    Some(part)
}

/// Writes the open leaves of a block that a clause closes to the same block of `found`, and tells
/// whether there is one.
fn find_in(index: &Index, clause: &[Lit], unclosed: &[u64], block: usize, found: &mut [u64]) -> bool
    requires unclosed { length unclosed.now ≡ 1024 }
    requires found { length found.old ≡ 1024 }
    requires block { block < 64 }
    ensures here { (p : ℕ) → p / 1024 ≡ block → Has unclosed.now p → AllHavePlace index.now clause.now p → (result ≡ true) × Has found.new p }
    ensures others { (p : ℕ) → ¬ (p / 1024 ≡ block) → Has found.old p → Has found.new p }
{
    match meet(index, clause, unclosed, block) {
        Some(part) => {
            put_block(found, block, &part);
            true
        }
        None => {
            put_block(found, block, &[0; BLOCK]);
            false
        }
    }
}

/// Writes to `found` the open leaves whose cubes have the negation of each literal of a clause, and tells whether there is one.
pub(crate) fn find(index: &Index, clause: &[Lit], unclosed: &[u64], found: &mut [u64]) -> bool
    requires unclosed { length unclosed.now ≡ 1024 }
    requires found { length found.old ≡ 1024 }
    ensures small { IsTrue result → All (IsWithin 199999999) clause.now }
    ensures found { (p : ℕ) → p < 65536 → Has unclosed.now p → AllHavePlace index.now clause.now p → (result ≡ true) × Has found.new p }
{
    if !are_known(index, clause) {
        return false;
    }
    let mut some = false;
    for block in 0..BLOCKS {
        if find_in(index, clause, unclosed, block, found) {
            some = true;
        }
    }
    some
}
