//! What is kept of the lemmas of all logs: few bytes of each, and no literals.

use crate::fault::WeaveFault;
use dimacs::Lit;
use std::alloc::{AllocError, Global};

/// The greatest number of lemmas.
const MOST: usize = 0x7FFF_FFFE;

/// A bijection of 64-bit words whose bits all depend on all.
#[inline(always)]
fn mixed(word: u64) -> u64 {
    let word = (word ^ (word >> 30)).wrapping_mul(0xBF58_476D_1CE4_E5B9);
    let word = (word ^ (word >> 27)).wrapping_mul(0x94D0_49BB_1331_11EB);
    word ^ (word >> 31)
}

/// A digest of a set of literals, in whatever order they stand. Whoever finds two sets of one digest has an import taken that is not
/// supported; what rests on it is refused by the checker.
pub(crate) fn digest_of(literals: &[Lit]) -> u64 {
    let mut sum: u64 = 0;
    let mut parity: u64 = 0;
    for l in literals {
        let word = mixed((l.index() as u64).wrapping_add(0x9E37_79B9_7F4A_7C15));
        sum = sum.wrapping_add(word);
        parity ^= word.wrapping_mul(word | 1);
    }
    mixed(sum ^ parity.wrapping_mul(0x9E37_79B9_7F4A_7C15))
}

/// The lemmas by their numbers, which are counted from 0 in the order in which they were read.
pub(crate) struct LemmaTable {
    /// By lemma, the digest of its literals.
    digests: Vec<u64>,
    /// By lemma, the place in `hints` behind its hints.
    ends: Vec<usize>,
    /// The lemmas among the hints of all lemmas.
    hints: Vec<u32>,
}

impl Drop for LemmaTable {
    fn drop(self) {
        let LemmaTable {
            digests: _,
            ends: _,
            hints: _,
        } = self;
    }
}

impl LemmaTable {
    /// A table without lemmas.
    pub(crate) fn new(alloc: Global) -> LemmaTable {
        LemmaTable {
            digests: Vec::new(alloc),
            ends: Vec::new(alloc),
            hints: Vec::new(alloc),
        }
    }

    /// Answers how many lemmas there are.
    pub(crate) fn len(&self) -> usize {
        self.digests.len()
    }

    /// Appends a lemma's parts.
    fn append(&mut self, digest: u64, hints: &[u32]) -> Result<(), AllocError> {
        self.hints.extend_from_slice(hints)?;
        self.ends.push(self.hints.len())?;
        self.digests.push(digest)?;
        Ok(())
    }

    /// Adds a lemma: the digest of its literals, and the lemmas among its hints. Answers its number.
    pub(crate) fn add(&mut self, digest: u64, hints: &[u32]) -> Result<u32, WeaveFault> {
        let number = self.digests.len();
        if number >= MOST {
            return Err(WeaveFault::TooMany);
        }
        self.append(digest, hints)?;
        Ok(number as u32)
    }

    /// Tells whether the literals of the lemma of this number have this digest.
    pub(crate) fn has_digest(&self, lemma: u32, digest: u64) -> bool {
        self.digests.get(lemma as usize) == Some(&digest)
    }

    /// Answers the place in `hints` behind the hints of the lemmas before this one.
    fn start(&self, lemma: usize) -> usize {
        if lemma == 0 {
            return 0;
        }
        match self.ends.get(lemma - 1) {
            Some(&end) => end,
            None => 0,
        }
    }

    /// Lends the lemmas among the hints of a lemma.
    pub(crate) fn hints_of(&self, lemma: usize) -> &[u32] {
        let end = match self.ends.get(lemma) {
            Some(&end) => end,
            None => return &[],
        };
        self.hints.get(self.start(lemma)..end).unwrap_or(&[])
    }
}
