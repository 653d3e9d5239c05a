//! SipHash-2-4 with 128 bits of output (Aumasson and Bernstein 2012): the tag of a text under a key of 128 bits.

ghost use Rattle.std.specs.Prelude.{◌≡◌, ◌+◌, ◌*◌, ◌≤◌, ◌++◌, length, take, drop};
ghost use Rattle.sealed_links.specs.Numbers.{bytes8};
ghost use Rattle.sealed_links.specs.SipHash.{absorbed, compressed, finished, folded, last_word, mixed, rounded, started, tag_of, word};

use crate::numbers::{bytes_of8, number_of8};

/// A key for tags, as two words.
#[derive(Clone, Copy)]
pub struct TagKey {
    pub k0: u64,
    pub k1: u64,
}

/// The state of SipHash, four words.
#[derive(Clone, Copy)]
pub(crate) struct State {
    v0: u64,
    v1: u64,
    v2: u64,
    v3: u64,
}

impl TagKey {
    /// The key of sixteen bytes: two words, each with its lowest byte first.
    pub fn of(bytes: &[u8; 32]) -> TagKey
        ensures first { result.k0 ≡ word bytes.now 0 }
        ensures second { result.k1 ≡ word bytes.now 1 }
    {
        TagKey {
            k0: word_at(bytes, 0),
            k1: word_at(bytes, 1),
        }
    }
}

/// Word number `i` of a text: eight bytes, the lowest first.
fn word_at(text: &[u8], i: usize) -> u64
    requires { 8 * i + 8 ≤ length text.now }
    ensures { result ≡ word text.now i }
{
    let mut bytes = [0; 8];
    bytes.copy_from_slice(&text[8 * i..8 * i + 8]);
    number_of8(bytes)
}

/// The last word of a text: the bytes that make no whole word, zeros, and the length of the text modulo 256.
fn last_word_of(text: &[u8]) -> u64
    ensures { result ≡ last_word text.now }
{
    let rest = &text[8 * (text.len() / 8)..];
    let mut bytes = [0; 8];
    bytes[..rest.len()].copy_from_slice(rest);
    bytes[7] = (text.len() % 256) as u8;
    number_of8(bytes)
}

/// The bytes of two words, those of the first one before.
fn joined(first: u64, second: u64) -> [u8; 16]
    ensures { result ≡ bytes8 first ++ bytes8 second }
{
    let mut bytes = [0; 16];
    bytes[..8].copy_from_slice(&bytes_of8(first));
    bytes[8..].copy_from_slice(&bytes_of8(second));
    bytes
}

impl State {
    /// The state before the first word.
    fn start(key: &TagKey) -> State
        ensures { result ≡ started key.now }
    {
        State {
            v0: key.k0 ^ 0x736f_6d65_7073_6575,
            v1: key.k1 ^ 0x646f_7261_6e64_6f6d ^ 0xee,
            v2: key.k0 ^ 0x6c79_6765_6e65_7261,
            v3: key.k1 ^ 0x7465_6462_7974_6573,
        }
    }

    /// One SipRound.
    fn round(&mut self)
        ensures { self.new ≡ rounded self.old }
    {
        self.v0 = self.v0.wrapping_add(self.v1);
        self.v2 = self.v2.wrapping_add(self.v3);
        self.v1 = self.v1.rotate_left(13) ^ self.v0;
        self.v3 = self.v3.rotate_left(16) ^ self.v2;
        self.v0 = self.v0.rotate_left(32);
        self.v2 = self.v2.wrapping_add(self.v1);
        self.v0 = self.v0.wrapping_add(self.v3);
        self.v1 = self.v1.rotate_left(17) ^ self.v2;
        self.v3 = self.v3.rotate_left(21) ^ self.v0;
        self.v2 = self.v2.rotate_left(32);
    }

    /// Takes a word, with two rounds.
    fn compress(&mut self, word: u64)
        ensures { self.new ≡ compressed self.old word }
    {
        self.v3 ^= word;
        self.round();
        self.round();
        self.v0 ^= word;
    }

    /// Four rounds of the end.
    fn mix(&mut self)
        ensures { self.new ≡ mixed self.old }
    {
        self.round();
        self.round();
        self.round();
        self.round();
    }

    /// The exclusive or of the four words.
    fn fold(&self) -> u64
        ensures { result ≡ folded self.now }
    {
        self.v0 ^ self.v1 ^ self.v2 ^ self.v3
    }

    /// The tag, after the last word.
    fn finish(mut self) -> [u8; 16]
        ensures { result ≡ finished self }
    {
        self.v2 ^= 0xee;
        self.mix();
        let first = self.fold();
        self.v1 ^= 0xdd;
        self.mix();
        joined(first, self.fold())
    }
}

/// The tag of a text under a key.
pub fn tag(key: &TagKey, text: &[u8]) -> [u8; 16]
    ensures { result ≡ tag_of key.now text.now }
{
    let mut state = State::start(key);
    for i in 0..text.len() / 8 {
        state.compress(word_at(text, i));
    }
    state.compress(last_word_of(text));
    state.finish()
}
