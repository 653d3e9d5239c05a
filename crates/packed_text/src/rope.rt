//! Ropes: lists of bytes in blocks of a fixed length, which several ropes may share.

ghost use Rattle.std.specs.Prelude.{◌≡◌, ◌+◌, ◌*◌, ◌%◌, ◌^◌, ◌<◌, ◌≤◌, [], ◌++◌, MatchBool, IsTrue, length, take, drop, IfOk};

use std::alloc::{AllocError, Global};
use std::marker::Model;
use std::rc::Rc;

/// The length of a block in bytes.
pub(crate) const BLOCK: usize = 2048;

/// The greatest number of blocks. It keeps the number of bytes, and of the characters packed in them, within a `usize`.
const MOST: usize = 1 << 48;

/// A list of bytes in blocks. It grows without copying earlier blocks, and several ropes may share a block.
#[derive(Drop)]
pub(crate) struct Rope {
    /// The blocks, each of 2,048 bytes.
    blocks: Vec<Rc<Vec<u8>>>,
}

impl Model for Rope {
    ghost use Rattle.std.specs.Prelude.{◌≡◌, ◌≤◌, ◌^◌, List, ℕ, All, flat_map, length};

    ghost Value = { List ℕ };

    ghost view = { λ r. flat_map (λ b. b.value.items) r.blocks.items };

    ghost invariant = { λ r. All (λ b. length b.value.items ≡ 2048) r.blocks.items × (length r.blocks.items ≤ 2 ^ 48) };
}

/// Answers the block to store: `like`, the block of another rope at the same index, if it has the
/// same bytes, so that both ropes share one copy in memory; otherwise a copy of its own.
fn held(alloc: Global, block: &[u8], like: Option<&Rc<Vec<u8>>>) -> Result<Rc<Vec<u8>>, AllocError>
    ensures { IfOk result (λ rc. rc.value.items ≡ block.now) }
{
    if let Some(other) = like {
        if is_same(other.as_slice(), block) {
            return other.clone();
        }
    }
    Ok(Rc::new(alloc, Vec::from_slice(alloc, block)?)?)
}

/// Answers whether two blocks have the same bytes. The contract promises nothing of `false`.
fn is_same(one: &[u8], other: &[u8]) -> bool
    ensures { IsTrue result → one.now ≡ other.now }
{
    one == other
}

impl Rope {
    /// An empty rope. It allocates nothing.
    pub(crate) fn new(alloc: Global) -> Rope
        ensures { result ≡ [] }
    {
        Rope {
            blocks: Vec::new(alloc),
        }
    }

    /// Answers the number of bytes.
    pub(crate) fn len(&self) -> usize
        ensures len { result ≡ length self.now }
        ensures blocks { result % 2048 ≡ 0 }
        ensures few { result ≤ 2 ^ 59 }
    {
        BLOCK * self.blocks.len()
    }

    /// Lends the bytes from offset `from` on, up to the end of the block that contains `from`.
    pub(crate) fn part(&self, from: usize) -> &[u8]
        requires { from < length self.now }
        ensures part { result.now ≡ take (length result.now) (drop from self.now) }
        ensures some { 0 < length result.now }
        ensures few { length result.now ≤ 2048 }
        ensures whole { from % 2048 ≡ 0 → length result.now ≡ 2048 }
    {
        let block = self.blocks[from / BLOCK].as_slice();
        let (_, part) = block.split_at(from % BLOCK);
        part
    }

    /// Appends a block. If the block of `like` at the same index has the same bytes, the two ropes share it. Answers `false`, with no
    /// change, if memory is refused or the rope has the greatest number of blocks.
    pub(crate) fn push(&mut self, block: &[u8], like: Option<&Rope>) -> bool
        requires { length block.now ≡ 2048 }
        ensures { MatchBool result (self.new ≡ self.old ++ block.now) (self.new ≡ self.old) }
    {
        let place = self.blocks.len();
        if place >= MOST {
            return false;
        }
        let other = match like {
            Some(rope) => rope.blocks.get(place),
            None => None,
        };
        match held(*self.blocks.allocator(), block, other) {
            Ok(block) => self.blocks.push(block).is_ok(),
            Err(_) => false,
        }
    }

    /// Replaces the last block by the block of `like` at the same index, if both have the same
    /// bytes, and frees the duplicate. It allocates nothing.
    pub(crate) fn share_last(&mut self, like: &Rope)
        ensures { self.new ≡ self.old }
    {
        let Some(last) = self.blocks.len().checked_sub(1) else {
            return;
        };
        let Some(other) = like.blocks.get(last) else {
            return;
        };
        if is_same(other.as_slice(), self.blocks[last].as_slice()) {
            if let Ok(block) = other.clone() {
                self.blocks[last] = block;
            }
        }
    }

    /// Keeps the first `blocks` blocks, and removes the others. It allocates nothing.
    pub(crate) fn truncate(&mut self, blocks: usize)
        ensures { self.new ≡ take (2048 * blocks) self.old }
    {
        self.blocks.truncate(blocks);
    }
}
