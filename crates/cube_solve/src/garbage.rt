//! The count of the arena's garbage, which says when to compact it.

use clause_arena::Arena;
use dimacs::{Base, Lit};

/// The number of literals of removed clauses since the last compaction. A compaction costs time linear in the live literals, so it waits
/// until the garbage is a quarter of the literals of given clauses.
#[derive(Drop)]
pub(crate) struct Garbage {
    /// The number of literals of clauses that were removed since the last compaction.
    literals: usize,
    /// The number of literals of given clauses.
    given: usize,
}

/// The number of literals of a base's clauses.
fn size_of(base: &Base) -> usize {
    let mut size = 0usize;
    for i in 0..base.len() {
        size = size.saturating_add(base.clause(i).len());
    }
    size
}

/// The number of literals of the live clauses of these numbers; a number without a live clause counts 0.
fn literals_of(arena: &Arena, numbers: &[u64]) -> usize {
    let mut literals = 0usize;
    for &number in numbers {
        if let Some(at) = arena.find(number) {
            literals = literals.saturating_add(arena.clause(at).len());
        }
    }
    literals
}

impl Garbage {
    /// A count without garbage, over the clauses of a base.
    pub(crate) fn new(base: &Base) -> Garbage {
        Garbage {
            literals: 0,
            given: size_of(base),
        }
    }

    /// Counts the literals of a clause that was added after the base: given to a session, or taken
    /// along to more variables. They raise the limit above which the arena is compacted.
    pub(crate) fn give(&mut self, clause: &[Lit]) {
        self.given = self.given.saturating_add(clause.len());
    }

    /// Counts the literals of clauses that are about to be removed. If at least a quarter as many
    /// literals are garbage as were given, it returns true, which asks for a compaction, and counts
    /// from 0 again.
    pub(crate) fn count_removed(&mut self, arena: &Arena, numbers: &[u64]) -> bool {
        self.literals = self.literals.saturating_add(literals_of(arena, numbers));
        if self.literals < self.given / 4 {
            return false;
        }
        self.literals = 0;
        true
    }
}
