//! The joiner of logs: its fields, and the order in which it is called.

ghost use Rattle.std.specs.Prelude.{◌≡◌, ◌^◌, ◌<◌, ◌≤◌, All, length};
ghost use Rattle.lrat_text.specs.Grammar.{IsClauseNumber};

use crate::leaf_index::Index;
use crate::tree::Node;
use std::alloc::Global;

/// Joins logs over a formula: it writes one after the other, each step right after it was checked, and closes the leaves of a splitting
/// tree.
///
/// For each log: `begin`, `line` for each step, `settle` (`spend` if the log was refused) for each lemma that is live at its end, by rising
/// numbers, and `end`. Once every leaf is closed, `forks` writes the lines that complete the proof.
pub struct LogJoiner {
    pub(crate) alloc: Global,
    /// The number of the formula's clauses.
    pub(crate) base: u64,
    /// The greatest number of the joined proof before this log.
    pub(crate) begun: u64,
    /// The greatest number of the joined proof so far.
    pub(crate) top: u64,
    pub(crate) tree: Node,
    /// For each literal, the leaves whose cubes have it.
    pub(crate) index: Index,
    /// The set of open leaves, by leaf index.
    pub(crate) unclosed: Vec<u64>,
    /// A buffer for the set of the open leaves that a lemma can close.
    pub(crate) found: Vec<u64>,
    /// The numbers of the joined proof that are deleted after this log.
    pub(crate) spent: Vec<u64>,
    /// A buffer for the new numbers of a line.
    pub(crate) numbers: Vec<u64>,
    ghost limit: { top < 2 ^ 48 },
    ghost unclosed_len: { length unclosed.items ≡ 1024 },
    ghost found_len: { length found.items ≡ 1024 },
    ghost deletable: { All IsClauseNumber spent.items },
}

impl Drop for LogJoiner {
    fn drop(self) {
        let LogJoiner {
            alloc: _,
            base: _,
            begun: _,
            top: _,
            tree: _,
            index: _,
            unclosed: _,
            found: _,
            spent: _,
            numbers: _,
        } = self;
    }
}
