//! Bit sets of leaf indices, in words of 64 bits. A block is 1,024 indices, and 64 blocks are all indices of a tree: 0 to 65,535.

ghost use Rattle.std.specs.Prelude.{◌≡◌, ℕ, ◌+◌, ◌*◌, ◌/◌, ◌<◌, ◌≤◌, IfOk, false, length};
ghost use Rattle.log_join.specs.Bits.{Has};

use std::alloc::{AllocError, Global};

/// The number of words in a block.
pub(crate) const BLOCK: usize = 16;

/// The number of indices in a block.
pub(crate) const WIDE: usize = 1024;

/// The number of blocks of all indices.
pub(crate) const BLOCKS: usize = 64;

/// The number of words of all indices.
pub(crate) const WORDS: usize = 1024;

/// Returns the set of all indices in `count` words: every bit is 1.
pub(crate) fn full(alloc: Global, count: usize) -> Result<Vec<u64>, AllocError>
    ensures all { IfOk result (λ words. (p : ℕ) → p / 64 < count → Has words.items p) }
    ensures len { IfOk result (λ words. length words.items ≡ count) }
{
    vec![in alloc; u64::MAX; count]
}

/// Returns a block of a set; `block` is the number of the block, from 0.
pub(crate) fn block_of(words: &[u64], block: usize) -> [u64; BLOCK]
    requires { block * 16 + 16 ≤ length words.now }
    ensures { (q : ℕ) → q < 1024 → Has words.now (block * 1024 + q) → Has result q }
{
    let mut part = [0; BLOCK];
    let at = block * BLOCK;
    for i in 0..BLOCK {
        part[i] = words[at + i];
    }
    part
}

/// Replaces a block of a set.
pub(crate) fn put_block(words: &mut [u64], block: usize, part: &[u64; BLOCK])
    requires { block * 16 + 16 ≤ length words.old }
    ensures here { (q : ℕ) → q < 1024 → Has part.now q → Has words.new (block * 1024 + q) }
    ensures others { (p : ℕ) → ¬ (p / 1024 ≡ block) → Has words.old p → Has words.new p }
{
    let at = block * BLOCK;
    for i in 0..BLOCK {
        words[at + i] = part[i];
    }
}

/// Intersects a block with a block of a set, and tells whether an index is left in it.
pub(crate) fn keep(part: &mut [u64; BLOCK], words: &[u64], block: usize) -> bool
    requires { block * 16 + 16 ≤ length words.now }
    ensures both { (q : ℕ) → q < 1024 → Has part.old q → Has words.now (block * 1024 + q) → Has part.new q }
    ensures none { result ≡ false → (q : ℕ) → q < 1024 → ¬ (Has part.new q) }
{
    let at = block * BLOCK;
    let mut some = 0;
    for i in 0..BLOCK {
        let both = part[i] & words[at + i];
        part[i] = both;
        some |= both;
    }
    some != 0
}

/// Tells whether an index in `from..to` is in a set.
pub(crate) fn has_between(words: &[u64], from: u32, to: u32) -> bool
    ensures { result ≡ false → (p : ℕ) → from ≤ p → p < to → ¬ (Has words.now p) }
{
    let end = to as usize;
    let mut place = from as usize;
    while place < end && place / 64 < words.len() {
        let rest = words[place / 64] >> (place % 64);
        if rest != 0 {
            return (rest.trailing_zeros() as usize) < end - place;
        }
        place = place / 64 * 64 + 64;
    }
    false
}

/// Adds a leaf index to a set.
pub(crate) fn set(words: &mut [u64], place: usize)
    requires { place / 64 < length words.old }
    ensures here { Has words.new place }
    ensures kept { (p : ℕ) → Has words.old p → Has words.new p }
{
    words[place / 64] |= 1 << (place % 64);
}

/// Removes a leaf index from a set.
pub(crate) fn clear(words: &mut [u64], place: usize)
    ensures { (p : ℕ) → ¬ (p ≡ place) → Has words.old p → Has words.new p }
{
    if place / 64 < words.len() {
        words[place / 64] &= !(1 << (place % 64));
    }
}
