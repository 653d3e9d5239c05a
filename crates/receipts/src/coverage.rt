//! A coverage: which leaves of a tree are closed by clauses.

ghost use Rattle.std.specs.Prelude.{◌≡◌, [], Some};
ghost use Rattle.std.specs.FinMap.{get};

use log_join::LogJoiner;
use lrat_check::RupChecker;
use lrat_text::Groups;

/// The leaves of a tree that the clauses taken so far close.
///
/// A `LogJoiner` finds the leaves by its index, which makes this cheap, but it takes logs over a formula. Therefore each clause is handed
/// to it as a log of one line over the formula of the empty clause alone, from which every clause follows. What the joiner writes is
/// dropped.
pub(crate) struct Coverage {
    /// Knows which leaves are closed.
    pub(crate) joiner: LogJoiner,
    /// Holds the empty clause under the number 1, by which it finds which clauses are tautologies.
    pub(crate) tautology_checker: RupChecker,
    /// The groups of hints of a clause's line: none.
    pub(crate) groups: Groups,
    /// What the joiner writes, which is dropped.
    pub(crate) scratch: Vec<u8>,
    ghost none: { groups ≡ [] },
    ghost absurd: { get tautology_checker 1 ≡ Some [] },
}

impl Drop for Coverage {
    fn drop(self) {
        let Coverage {
            joiner: _,
            tautology_checker: _,
            groups: _,
            scratch: _,
        } = self;
    }
}
