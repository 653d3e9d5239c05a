//! The answer of a query of a session.

use dimacs::{Assignment, Lit};

/// Why a query fails: its core, and the hints that show it.
#[derive(Drop)]
pub struct Failure {
    /// The core: literals of the query, in its order and none twice, that no assignment that satisfies the clauses makes true together.
    pub core: Vec<Lit>,
    /// The hints: numbers of the clauses by which the core leads to a false clause; none if the core has a literal and its negation.
    pub hints: Vec<u64>,
}

/// An answer of [`Session::ask`](crate::Session::ask).
#[derive(Drop)]
pub enum Answer {
    /// An assignment that satisfies the clauses, and makes the query true.
    Satisfied(Assignment),
    /// No assignment satisfies the clauses and makes the query true.
    Failed(Failure),
    /// The limit of lemmas was reached.
    Unknown,
}
