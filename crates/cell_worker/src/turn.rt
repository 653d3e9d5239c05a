//! How a turn of a worker ends.

use dimacs::Assignment;

/// The end of a turn.
#[derive(Drop)]
pub enum Turn {
    /// An assignment satisfies the formula and makes the query true.
    Satisfied(Assignment),
    /// The query fails: the lemma of this number, which the log has last, has only negations of its literals.
    Closed(u64),
    /// As many lemmas were learnt as the limit allows.
    Limit,
    /// An assignment of the clauses that were kept cannot be extended to all variables as elimination expects, so clauses of the formula came
    /// back: the search goes on.
    Restored,
}
