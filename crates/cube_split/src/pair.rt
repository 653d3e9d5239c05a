//! Pairs of literals, the keys by which they are counted, and the ranks by which they are chosen.

ghost use Rattle.std.specs.Prelude.{◌≡◌, ℕ, ◌+◌, ◌*◌, ◌<◌, ◌≤◌, ◌%◌, ◌/◌, ◌^◌, map, length, All, IfOk};
ghost use Rattle.dimacs.specs.logic.Literal.{var_of};
ghost use Rattle.cube_split.specs.Definitions.{IsPairOf};
ghost use Rattle.cube_split.specs.inner.Ranks.{key_of, rank_of, pair_of, pair_ranked, literal_by};

use dimacs::{Lit, Var};
use std::alloc::{AllocError, Global};

/// A pair: two literals of different variables, that of the lower variable first.
#[derive(Clone, Copy)]
pub struct Pair {
    /// The literal of the lower variable.
    pub first: Lit,
    /// The literal of the higher variable.
    pub second: Lit,
}

/// A bound above every variable: a key has 27 bits for each of the two.
const VARIABLES: u64 = 1 << 27;
/// A bound above every key: a key has two variables and two signs, 56 bits.
const KEYS: u128 = 1 << 56;
/// The greatest count: a formula has no more clauses.
const COUNTS: u64 = (1 << 27) - 1;

impl Pair {
    /// The key of a pair: from the highest bits down the first variable, the second variable, the first literal's sign, and the second's (1
    /// for negative). So the order of keys is the order of pairs.
    pub(crate) fn key(self) -> u64
        requires first { var_of self.first < 134217728 }
        requires second { var_of self.second < 134217728 }
        ensures { result ≡ key_of self }
    {
        let first = u64::from(self.first.var().number());
        let second = u64::from(self.second.var().number());
        (first * VARIABLES + second) * 4
            + u64::from(self.first.is_negative()) * 2
            + u64::from(self.second.is_negative())
    }

    /// Unpacks the pair from a rank, whose lower bits are the pair's key.
    fn of_rank(rank: u128) -> Pair
        requires first { 536870912 ≤ rank % 72057594037927936 }
        requires second { 0 < rank % 72057594037927936 / 4 % 134217728 }
        ensures { result ≡ pair_ranked rank }
    {
        let key = (rank % KEYS) as u64;
        Pair {
            first: literal(key / (4 * VARIABLES), key / 2 % 2),
            second: literal(key / 4 % VARIABLES, key % 2),
        }
    }
}

/// The literal of a variable: positive if the sign is 0, else negative.
fn literal(variable: u64, sign: u64) -> Lit
    requires some { 0 < variable }
    requires below { variable < 2 ^ 31 }
    ensures { result ≡ literal_by variable sign }
{
    let var = Var::new(variable as u32);
    if sign == 0 {
        Lit::positive(var)
    } else {
        Lit::negative(var)
    }
}

/// The rank of a key that occurred `count` times: keys of higher counts have lower ranks, and keys of one count are in their order. The
/// count has the 27 bits above the key's 56.
pub(crate) fn rank(count: u64, key: u64) -> u128
    requires { key < 72057594037927936 }
    ensures { result ≡ rank_of count key }
{
    u128::from(COUNTS.saturating_sub(count)) * KEYS + u128::from(key)
}

/// The pairs of these ranks, in their order.
pub(crate) fn pairs_of(alloc: Global, ranks: &[u128]) -> Result<Vec<Pair>, AllocError>
    requires { All (λ r. (536870912 ≤ r % 72057594037927936) × (0 < r % 72057594037927936 / 4 % 134217728)) ranks.now }
    ensures { IfOk result (λ pairs. pairs.items ≡ map pair_ranked ranks.now) }
{
    let mut pairs = Vec::new(alloc);
    for &rank in ranks {
        pairs.push(Pair::of_rank(rank))?;
    }
    Ok(pairs)
}
