//! Lines and offers, whose lists are borrowed.

use dimacs::Lit;

/// A line of a log.
#[derive(Clone, Copy)]
pub enum SharedLine<'a> {
    /// A lemma of the log's own.
    Lemma {
        number: u64,
        literals: &'a [Lit],
        hints: &'a [u64],
    },
    /// The clauses of these numbers are deleted.
    Deletion {
        numbers: &'a [u64],
    },
    /// From here on the number stands for the name of a log.
    Name {
        number: u64,
        name: &'a [u8],
    },
    /// A lemma of another log: the number that stands for the log's name, and the lemma's number there.
    Import {
        number: u64,
        literals: &'a [Lit],
        log: u64,
        there: u64,
    },
    /// The clock is at this time from here on.
    Clock {
        time: u64,
    },
}

/// A lemma that a log offers when its clock is at this time.
#[derive(Clone, Copy)]
pub struct Offer<'a> {
    pub time: u64,
    /// The lemma's number in the log.
    pub number: u64,
    pub literals: &'a [Lit],
}
