//! The lemmas of the new proof, the last one first, with their hints.

use std::alloc::{AllocError, Global};

/// A bit of a hint: the clause is used here for the last time, and is deleted after the lemma.
pub(crate) const LAST: u32 = 1;
/// A bit of a hint: it is a literal of the root, whose unit lemma is meant, and no clause.
pub(crate) const UNIT: u32 = 2;
/// A bit of a hint: it is none, and has the bit `LAST` alone.
pub(crate) const NO_HINT: u32 = 4;
/// Before a candidate of a RAT lemma.
pub(crate) const CANDIDATE: u32 = u32::MAX;

/// What a lemma is.
#[derive(Clone, Copy)]
pub(crate) enum Lemma {
    /// The empty clause.
    Empty,
    /// A literal of the root.
    Unit(u32),
    /// The clause of an addition, by its place.
    Clause(u32),
}

/// A lemma and its hints.
#[derive(Clone, Copy)]
pub(crate) struct Record {
    pub(crate) lemma: Lemma,
    /// The index of its first hint; the last one stands before the first one of the next record.
    pub(crate) from: usize,
}

/// Lemmas with hints. A hint is eight times the number of a clause, or the code of a literal, and bits.
pub(crate) struct Trace {
    pub(crate) hints: Vec<u32>,
    pub(crate) records: Vec<Record>,
}

impl Drop for Trace {
    fn drop(self) {
        let Trace {
            hints: _,
            records: _,
        } = self;
    }
}

impl Trace {
    /// A trace without lemmas.
    pub(crate) fn new(alloc: Global) -> Trace {
        Trace {
            hints: Vec::new(alloc),
            records: Vec::new(alloc),
        }
    }

    /// Appends a hint.
    #[inline(always)]
    pub(crate) fn push(&mut self, number: u32, bits: u32) -> Result<(), AllocError> {
        self.hints.push(number.wrapping_mul(8) | bits)?;
        Ok(())
    }

    /// Ends a lemma, whose first hint has the index `from`.
    pub(crate) fn end(&mut self, lemma: Lemma, from: usize) -> Result<(), AllocError> {
        self.records.push(Record { lemma, from })?;
        Ok(())
    }

    /// The hints of the record of index i.
    pub(crate) fn hints_of(&self, i: usize) -> &[u32] {
        let from = match self.records.get(i) {
            Some(record) => record.from,
            None => 0,
        };
        let to = match self.records.get(i.wrapping_add(1)) {
            Some(next) => next.from,
            None => self.hints.len(),
        };
        self.hints.get(from..to).unwrap_or(&[])
    }
}
