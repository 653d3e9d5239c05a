//! The head of a receipt: what its first five lines say.

ghost use Rattle.std.specs.Prelude.{◌≡◌, ◌↔◌, IsTrue};

/// A SHA-256 digest.
#[derive(Clone, Copy)]
pub(crate) struct Hash {
    /// The 32 bytes of the digest.
    pub(crate) bytes: [u8; 32],
}

impl Hash {
    /// Answers whether two digests are equal.
    pub(crate) fn is(&self, other: &Hash) -> bool
        ensures { IsTrue result ↔ (self.now.bytes ≡ other.now.bytes) }
    {
        self.bytes.as_slice() == other.bytes.as_slice()
    }
}

/// What a receipt says of a log, except for its lemmas: the digest of the formula's text, the digest of the log's bytes, and how many
/// lemmas and bytes the log has. Bytes are counted up to 2^64 - 1.
#[derive(Clone, Copy)]
pub(crate) struct Head {
    /// The digest of the formula's text.
    pub(crate) formula: Hash,
    /// The digest of the log's bytes.
    pub(crate) log: Hash,
    /// How many lemmas the log has.
    pub(crate) lemmas: u64,
    /// How many bytes the log has, counted up to 2^64 - 1.
    pub(crate) bytes: u64,
}
