//! The index of a tree: for each literal, the leaves whose cubes have it.

ghost use Rattle.std.specs.Prelude.{◌≡◌, ℕ, ◌+◌, ◌*◌, ◌≤◌, length, slice_index_or};

/// Literals of lines have codes below this: twice the greatest variable of any base, 199,999,999, and 2.
pub(crate) const CODES: usize = 400_000_000;

/// For each literal, the set of the indices of the leaves whose cubes have it: a row of 64 blocks of 1,024 leaf indices. An empty block
/// takes no words, and a literal of no cube takes no row.
#[derive(Drop)]
pub(crate) struct Index {
    /// The row of each literal, by its code, up to the greatest code in a cube; 0 if no cube has the literal.
    pub(crate) slots: Vec<u32>,
    /// The 64 blocks of each row; 0 for an empty one.
    pub(crate) blocks: Vec<u32>,
    /// The 16 words of each block, one bit for each leaf index.
    pub(crate) words: Vec<u64>,
    ghost codes: { length slots.items ≤ 400000000 },
    ghost rows: { (i : ℕ) → slice_index_or slots.items i 0 * 64 + 64 ≤ length blocks.items },
    ghost parts: { (i : ℕ) → slice_index_or blocks.items i 0 * 16 + 16 ≤ length words.items },
}
