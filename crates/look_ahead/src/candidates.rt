//! The preselection: the variables that the lookahead at a node tries.

use crate::counting_propagator::CountingPropagator;
use std::alloc::{AllocError, Global};

/// The greatest number of candidates of a node.
const CANDIDATES: usize = 64;

/// A variable with the sum of the weights of its open clauses.
#[derive(Clone, Copy)]
struct Ranked {
    variable: u32,
    sum: u64,
}

/// The candidates of a node, by falling sum, and of equal sums the lower variable first.
pub(crate) struct Candidates {
    /// At most `CANDIDATES` between two calls.
    ranked: Vec<Ranked>,
}

impl Drop for Candidates {
    fn drop(self) {
        let Candidates { ranked: _ } = self;
    }
}

impl Candidates {
    /// An empty list of candidates, with room for `CANDIDATES`.
    pub(crate) fn new(alloc: Global) -> Result<Candidates, AllocError> {
        Ok(Candidates {
            ranked: Vec::with_capacity(alloc, CANDIDATES + 1)?,
        })
    }

    /// The number of candidates.
    pub(crate) fn len(&self) -> usize {
        self.ranked.len()
    }

    /// The variable at index i, from 0; 0 if there is none.
    pub(crate) fn at(&self, i: usize) -> u32 {
        match self.ranked.get(i) {
            Some(ranked) => ranked.variable,
            None => 0,
        }
    }

    /// Whether a variable of this sum has no room in the list: `CANDIDATES` others come before it.
    fn is_below_all(&self, sum: u64) -> bool {
        match self.ranked.get(CANDIDATES - 1) {
            Some(last) => last.sum >= sum,
            None => false,
        }
    }

    /// Inserts a variable after those whose sum is not smaller, and drops the last one if there are too many.
    fn insert(&mut self, ranked: Ranked) -> Result<(), AllocError> {
        let mut place = self.ranked.len();
        while place > 0 && self.ranked[place - 1].sum < ranked.sum {
            place -= 1;
        }
        self.ranked.insert(place, ranked)?;
        self.ranked.truncate(CANDIDATES);
        Ok(())
    }

    /// Drops the candidates whose sum is below half of the greatest, since a lookahead at them
    /// costs as much and promises less.
    fn keep_half(&mut self) {
        let Some(&first) = self.ranked.first() else {
            return;
        };
        let mut len = self.ranked.len();
        for i in 0..self.ranked.len() {
            if let Some(ranked) = self.ranked.get(i)
                && ranked.sum.saturating_mul(2) < first.sum
            {
                len = len.min(i);
            }
        }
        self.ranked.truncate(len);
    }

    /// Overwrites the list with the candidates at the propagator's node: of the free variables that occur in open clauses the ones of the
    /// greatest sums.
    pub(crate) fn rank(&mut self, propagator: &CountingPropagator) -> Result<(), AllocError> {
        self.ranked.clear();
        for below in 0..propagator.vars() {
            let variable = below + 1;
            let sum = propagator.weight_of(variable);
            if !self.is_below_all(sum) && is_candidate(propagator, variable) {
                self.insert(Ranked { variable, sum })?;
            }
        }
        self.keep_half();
        Ok(())
    }
}

/// Whether a variable is free and occurs in an open clause.
fn is_candidate(propagator: &CountingPropagator, variable: u32) -> bool {
    propagator.weight_of(variable) > 0 && propagator.is_free(variable.wrapping_mul(2))
}

/// The lowest free variable that occurs in an open clause; None if there is none.
pub(crate) fn lowest(propagator: &CountingPropagator) -> Option<u32> {
    for below in 0..propagator.vars() {
        let variable = below + 1;
        if is_candidate(propagator, variable) {
            return Some(variable);
        }
    }
    None
}
