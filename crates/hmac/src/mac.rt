//! Keys, and MACs of texts that are taken piece by piece.

ghost use Rattle.std.specs.Prelude.{◌≡◌, ◌++◌, ℕ, List, []};
ghost use Rattle.hmac.specs.Hmac.{hmac_of};
ghost use Rattle.hmac.specs.Macs.{HoldsKey, HoldsText};

use crate::block::{IPAD, OPAD, block_of_key, hasher_after};
use sha2::{Digest, Sha256};

/// A key for MACs. Its two hashers have each taken a first block, so that these blocks are hashed once for a key and not once for a
/// text (RFC 2104, section 4). Whoever reads the hashers can make MACs as with the key itself: no call hands them out or prints them,
/// but they are not overwritten in memory when a key is dropped.
#[derive(Drop)]
pub struct Key {
    /// A hasher that has taken K XOR ipad.
    inner: Sha256,
    /// A hasher that has taken K XOR opad.
    outer: Sha256,
}

/// The MAC of a text that is taken piece by piece.
#[derive(Drop)]
pub struct Mac {
    /// A hasher that has taken K XOR ipad, and then the text so far.
    inner: Sha256,
    /// A hasher that has taken K XOR opad.
    outer: Sha256,
}

/// A hasher that has taken what another one has.
fn copy_of(hasher: &Sha256) -> Sha256
    ensures { result ≡ hasher.now }
{
    match hasher.clone() {
        Ok(copy) => copy,
        // A hasher holds no memory of the heap, so its clone cannot fail.
        Err(_) => unreachable!(),
    }
}

impl Key {
    /// The key of these bytes, however many. RFC 2104 (section 3) asks for random ones, and advises against fewer than 32.
    pub fn new(bytes: &[u8]) -> Key
        ensures { HoldsKey result bytes.now }
    {
        let block = block_of_key(bytes);
        Key {
            inner: hasher_after(&block, IPAD),
            outer: hasher_after(&block, OPAD),
        }
    }

    /// Begins the MAC of a text, of which nothing is taken yet.
    pub fn begin(&self) -> Mac
        ensures { (key : List ℕ) → HoldsKey self.now key → HoldsText result key [] }
    {
        Mac {
            inner: copy_of(&self.inner),
            outer: copy_of(&self.outer),
        }
    }
}

impl Mac {
    /// Takes the next piece of the text.
    pub fn update(&mut self, piece: &[u8])
        ensures { (key text : List ℕ) → HoldsText self.old key text → HoldsText self.new key (text ++ piece.now) }
    {
        self.inner.update(piece);
    }

    /// The MAC of the text that was taken.
    pub fn finish(self) -> [u8; 32]
        ensures { (key text : List ℕ) → HoldsText self key text → result ≡ hmac_of key text }
    {
        let Mac { inner, mut outer } = self;
        outer.update(inner.finalize());
        outer.finalize()
    }
}

/// The MAC of a text that lies whole, under the key of these bytes.
pub fn hmac(key: &[u8], text: &[u8]) -> [u8; 32]
    ensures { result ≡ hmac_of key.now text.now }
{
    let mut mac = Key::new(key).begin();
    mac.update(text);
    mac.finish()
}
