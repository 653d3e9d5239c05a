//! Unit propagation by counters: the order in which propagation under the cube meets the live images, for a text that ends without the
//! empty lemma.
//!
//! No contract speaks of this order, since the caller tests each clause again; an index out of range is skipped. The time is linear in the
//! number of literals of the live images.

use crate::images::{Image, Images};
use dimacs::Lit;
use std::alloc::{AllocError, Global};

/// An occurrence of a literal: the index of its clause, and that of the literal's next occurrence. The occurrences of a literal are a
/// linked list.
#[derive(Clone, Copy)]
struct Occurrence {
    clause: usize,
    next: usize,
}

/// The index that ends a list of occurrences.
const NONE: usize = usize::MAX;

/// The images, and the foreign numbers of the live clauses that have one; a clause's index is that of its number in `numbers`.
#[derive(Clone, Copy)]
struct Live<'a> {
    images: &'a Images,
    numbers: &'a [u64],
}

/// The state of the propagation.
struct Propagation {
    /// By clause index: the number of distinct literals of the clause that are not false.
    free: Vec<usize>,
    /// The occurrences of all literals, each linked to the next one of its literal.
    occurrences: Vec<Occurrence>,
    /// By literal: the index of its first occurrence; `NONE` if it has none.
    first: Vec<usize>,
    /// By literal: 1 plus the index of the clause in which it was seen last.
    seen: Vec<usize>,
    /// By literal: whether it is true.
    truth: Vec<bool>,
    /// The literals that are true, in the order in which they became true.
    trail: Vec<Lit>,
    /// The numbers of the clauses that were unit, in order, and then of one that is false.
    order: Vec<u64>,
}

impl Drop for Propagation {
    fn drop(self) {
        let Propagation {
            free: _,
            occurrences: _,
            first: _,
            seen: _,
            truth: _,
            trail: _,
            order: _,
        } = self;
    }
}

/// Returns the literals of the image of the foreign clause of this number; none if it has no image.
fn literals_of(images: &Images, number: u64) -> &[Lit] {
    match images.get(number) {
        Image::Kept(_, literals) => literals,
        Image::Gone | Image::None => &[],
    }
}

impl Live<'_> {
    /// Returns the literals of the image of the clause at an index; none if the index is out of range.
    fn literals(&self, clause: usize) -> &[Lit] {
        match self.numbers.get(clause) {
            Some(number) => literals_of(self.images, *number),
            None => &[],
        }
    }
}

impl Propagation {
    /// Makes a propagation without clauses, in which no literal is true. A table by literal has `places` cells.
    fn new(alloc: Global, places: usize) -> Result<Propagation, AllocError> {
        let mut first = Vec::new(alloc);
        first.resize(places, NONE)?;
        let mut seen = Vec::new(alloc);
        seen.resize(places, 0)?;
        let mut truth = Vec::new(alloc);
        truth.resize(places, false)?;
        Ok(Propagation {
            free: Vec::new(alloc),
            occurrences: Vec::new(alloc),
            first,
            seen,
            truth,
            trail: Vec::new(alloc),
            order: Vec::new(alloc),
        })
    }

    /// Adds an occurrence of a literal in the clause at an index. Tells whether it is the first occurrence of the literal in this clause.
    fn add_occurrence(&mut self, clause: usize, l: Lit) -> Result<bool, AllocError> {
        let stamp = clause.saturating_add(1);
        let Some(seen) = self.seen.get_mut(l.index()) else {
            return Ok(false);
        };
        if *seen == stamp {
            return Ok(false);
        }
        *seen = stamp;
        let here = self.occurrences.len();
        let Some(first) = self.first.get_mut(l.index()) else {
            return Ok(false);
        };
        let next = *first;
        *first = here;
        self.occurrences.push(Occurrence { clause, next })?;
        Ok(true)
    }

    /// Fills the occurrence lists with each literal of each clause, and counts the clauses'
    /// literals.
    fn add_occurrences(&mut self, live: Live<'_>) -> Result<(), AllocError> {
        for i in 0..live.numbers.len() {
            let mut free: usize = 0;
            for l in live.literals(i) {
                if self.add_occurrence(i, *l)? {
                    free = free.saturating_add(1);
                }
            }
            self.free.push(free)?;
        }
        Ok(())
    }

    /// Tells whether a literal is true.
    fn is_true(&self, l: Lit) -> bool {
        match self.truth.get(l.index()) {
            Some(truth) => *truth,
            None => false,
        }
    }

    /// Makes a literal true, and appends it to the trail, from which it is propagated.
    fn assume(&mut self, l: Lit) -> Result<(), AllocError> {
        if let Some(truth) = self.truth.get_mut(l.index()) {
            *truth = true;
        }
        self.trail.push(l)?;
        Ok(())
    }

    /// Returns the first literal of a clause that is not false; `None` if all are false.
    fn open_literal(&self, clause: &[Lit]) -> Option<Lit> {
        for l in clause {
            if !self.is_true(l.negate()) {
                return Some(*l);
            }
        }
        None
    }

    /// Visits a clause of which at most one literal is not false. With one left, that literal
    /// becomes true and the clause joins the order; with none left, the clause is false, ends the
    /// order, and the answer is true.
    fn visit(&mut self, live: Live<'_>, clause: usize, free: usize) -> Result<bool, AllocError> {
        let Some(number) = live.numbers.get(clause) else {
            return Ok(false);
        };
        if free == 0 {
            self.order.push(*number)?;
            return Ok(true);
        }
        if let Some(l) = self.open_literal(live.literals(clause)) {
            if !self.is_true(l) {
                self.order.push(*number)?;
                self.assume(l)?;
            }
        }
        Ok(false)
    }

    /// Visits the clauses with at most one literal. Tells whether one of them is false.
    fn visit_units(&mut self, live: Live<'_>) -> Result<bool, AllocError> {
        for i in 0..self.free.len() {
            if let Some(free) = self.free.get(i) {
                let free = *free;
                if free < 2 && self.visit(live, i, free)? {
                    return Ok(true);
                }
            }
        }
        Ok(false)
    }

    /// Counts one literal down in each clause that has this literal, which has become false, and
    /// visits the clauses with at most one left. Tells whether one of them is false then.
    fn falsify(&mut self, live: Live<'_>, l: Lit) -> Result<bool, AllocError> {
        let mut at = match self.first.get(l.index()) {
            Some(first) => *first,
            None => return Ok(false),
        };
        for _ in 0..self.occurrences.len() {
            let Some(occurrence) = self.occurrences.get(at) else {
                return Ok(false);
            };
            let clause = occurrence.clause;
            at = occurrence.next;
            let mut left: usize = 2;
            if let Some(free) = self.free.get_mut(clause) {
                *free = free.saturating_sub(1);
                left = *free;
            }
            if left < 2 && self.visit(live, clause, left)? {
                return Ok(true);
            }
        }
        Ok(false)
    }

    /// Propagates the cube's literals to the end. Tells whether a clause is false then.
    fn propagate(&mut self, live: Live<'_>, cube: &[Lit]) -> Result<bool, AllocError> {
        for x in cube {
            self.assume(*x)?;
        }
        if self.visit_units(live)? {
            return Ok(true);
        }
        for i in 0..usize::MAX {
            let Some(l) = self.trail.get(i) else {
                return Ok(false);
            };
            let l = *l;
            if self.falsify(live, l.negate())? {
                return Ok(true);
            }
        }
        Ok(false)
    }

    /// Returns the numbers of the clauses that were unit, in order, and then of one that is false, if there is one.
    fn into_order(self) -> Vec<u64> {
        let Propagation {
            order,
            free: _,
            occurrences: _,
            first: _,
            seen: _,
            truth: _,
            trail: _,
        } = self;
        order
    }
}

/// Returns the numbers of the clauses that unit propagation under the cube meets in turn. Each is unit after those before it; if
/// propagation meets a false clause, that is the last one. A table by literal has `places` cells.
pub(crate) fn propagation_order(
    alloc: Global,
    images: &Images,
    numbers: &[u64],
    cube: &[Lit],
    places: usize,
) -> Result<Vec<u64>, AllocError> {
    let live = Live { images, numbers };
    let mut propagation = Propagation::new(alloc, places)?;
    propagation.add_occurrences(live)?;
    let _ = propagation.propagate(live, cube)?;
    Ok(propagation.into_order())
}
