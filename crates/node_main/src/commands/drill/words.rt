//! The random words of a drill.

ghost use Rattle.std.specs.Prelude.{IfOk};
ghost use Rattle.node_main.specs.DrillWords.{AreDrawn};

use rand_core::{Rng, SeedableRng};
use rand_xoshiro::Xoshiro256PlusPlus;
use std::alloc::{AllocError, Global};

/// Draws the first `3 * turns` words of xoshiro256++, whose state `seed_from_u64` makes of the seed, and groups them by threes, one group a
/// turn. An error is want of memory.
pub fn draw(alloc: Global, seed: u64, turns: u32) -> Result<Vec<[u64; 3]>, AllocError>
    ensures { IfOk result (λ words. AreDrawn seed turns words.items) }
{
    let mut generator = Xoshiro256PlusPlus::seed_from_u64(seed);
    let mut words = Vec::new(alloc);
    for _ in 0..turns {
        let a = generator.next_u64();
        let b = generator.next_u64();
        let c = generator.next_u64();
        words.push([a, b, c])?;
    }
    Ok(words)
}
