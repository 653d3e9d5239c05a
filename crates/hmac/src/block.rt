//! The blocks of SHA-256 that a key makes (RFC 2104, section 2).

ghost use Rattle.std.specs.Prelude.{◌≡◌, ◌≤◌, length, replicate};
ghost use Rattle.hmac.specs.Hmac.{block_of, padded, xored};
ghost use Rattle.sha2.specs.Hashers.{Holds256};

use sha2::{Digest, Sha256};

/// The number of bytes in a block of SHA-256.
const BLOCK: usize = 64;

/// The byte that is repeated in ipad.
pub(crate) const IPAD: u8 = 0x36;

/// The byte that is repeated in opad.
pub(crate) const OPAD: u8 = 0x5C;

/// A key with zeros appended up to a block.
fn padded_key(key: &[u8]) -> [u8; BLOCK]
    requires { length key.now ≤ BLOCK }
    ensures { result ≡ padded key.now }
{
    let mut block = [0; BLOCK];
    block[..key.len()].copy_from_slice(key);
    block
}

/// The block of a key, which is hashed first if it is longer than a block.
pub(crate) fn block_of_key(key: &[u8]) -> [u8; BLOCK]
    ensures { result ≡ block_of key.now }
{
    if key.len() > BLOCK {
        padded_key(&Sha256::digest(key))
    } else {
        padded_key(key)
    }
}

/// The exclusive or of a block with one byte repeated.
fn masked_block(block: &[u8; BLOCK], mask: u8) -> [u8; BLOCK]
    ensures { result ≡ xored block.now (replicate BLOCK mask) }
{
    let mut masked = [0; BLOCK];
    for i in 0..BLOCK {
        masked[i] = block[i] ^ mask;
    }
    masked
}

/// A hasher (SHA-256) that has taken the exclusive or of a block with one byte repeated.
pub(crate) fn hasher_after(block: &[u8; BLOCK], mask: u8) -> Sha256
    ensures { Holds256 result (xored block.now (replicate BLOCK mask)) }
{
    Sha256::new_with_prefix(masked_block(block, mask))
}
