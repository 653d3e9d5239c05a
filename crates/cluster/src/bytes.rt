//! The bytes that an event delivers.

ghost use Rattle.std.specs.Prelude.{◌≡◌};

use std::marker::Model;

/// Any bytes, to be delivered to a node.
#[derive(Drop)]
pub struct Bytes {
    /// The bytes.
    bytes: Vec<u8>,
}

impl Model for Bytes {
    ghost use Rattle.std.specs.Prelude.{List, ℕ};

    ghost Value = { List ℕ };

    ghost view = { λ b. b.bytes.items };
}

impl Bytes {
    /// Holds these bytes.
    pub fn from_vec(bytes: Vec<u8>) -> Bytes
        ensures { result ≡ bytes.items }
    {
        Bytes { bytes }
    }

    /// The bytes that are held.
    #[inline]
    pub fn as_slice(&self) -> &[u8]
        ensures { result.now ≡ self.now }
    {
        &self.bytes
    }
}
