//! Chunks: the bytes that one frame carries.

ghost use Rattle.std.specs.Prelude.{◌≡◌, ◌≤◌, length, IfOk};

use std::alloc::{AllocError, Global};
use std::marker::Model;

/// A chunk: 1 to 4,000 bytes of a longer text.
#[derive(Debug, Drop)]
pub struct Chunk {
    bytes: Vec<u8>,
}

impl Model for Chunk {
    ghost use Rattle.std.specs.Prelude.{ℕ, ◌≤◌, List, length};

    ghost Value = { List ℕ };

    ghost view = { λ c. c.bytes.items };

    ghost invariant = { λ c. (1 ≤ length c.bytes.items) × (length c.bytes.items ≤ 4000) };
}

impl Chunk {
    /// The greatest number of bytes of a chunk.
    pub const LONGEST: usize = 4000;

    /// A chunk of these 1 to 4,000 bytes.
    pub fn from_vec(bytes: Vec<u8>) -> Chunk
        requires above { 1 ≤ length bytes.items }
        requires below { length bytes.items ≤ 4000 }
        ensures { result ≡ bytes.items }
    {
        Chunk { bytes }
    }

    /// A chunk with a copy of these 1 to 4,000 bytes.
    pub fn from_slice(alloc: Global, bytes: &[u8]) -> Result<Chunk, AllocError>
        requires above { 1 ≤ length bytes.now }
        requires below { length bytes.now ≤ 4000 }
        ensures { IfOk result (λ c. c ≡ bytes.now) }
    {
        Ok(Chunk::from_vec(Vec::from_slice(alloc, bytes)?))
    }

    /// The number of bytes, 1 to 4,000.
    #[inline]
    #[allow(clippy::len_without_is_empty)]
    pub fn len(&self) -> usize
        ensures value { result ≡ length self.now }
        ensures above { 1 ≤ result }
        ensures below { result ≤ 4000 }
    {
        self.bytes.len()
    }

    /// The bytes.
    #[inline]
    pub fn as_slice(&self) -> &[u8]
        ensures { result.now ≡ self.now }
    {
        self.bytes.as_slice()
    }

    /// Hands out the bytes.
    pub fn into_vec(self) -> Vec<u8>
        ensures { result.items ≡ self }
    {
        let Chunk { bytes } = self;
        bytes
    }
}
