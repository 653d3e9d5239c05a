//! Random numbers of a seed (SplitMix64: Steele, Lea and Flood 2014), by which searches of one formula go different ways.
//!
//! No promise rests on them.

/// A sequence of random numbers, the same for the same seed.
#[derive(Drop)]
pub(crate) struct Random {
    /// The sum of the seed and a multiple of `STEP`, modulo 2^64.
    state: u64,
}

/// The odd number that is nearest to 2^64 divided by the golden ratio.
const STEP: u64 = 0x9e37_79b9_7f4a_7c15;

impl Random {
    /// The sequence of a seed.
    pub(crate) fn of(seed: u64) -> Random {
        Random { state: seed }
    }

    /// The next number.
    pub(crate) fn next(&mut self) -> u64 {
        self.state = self.state.wrapping_add(STEP);
        let mut word = self.state;
        word = (word ^ (word >> 30)).wrapping_mul(0xbf58_476d_1ce4_e5b9);
        word = (word ^ (word >> 27)).wrapping_mul(0x94d0_49bb_1331_11eb);
        word ^ (word >> 31)
    }
}
