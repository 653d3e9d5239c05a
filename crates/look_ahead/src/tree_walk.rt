//! A cursor in the splitting tree: it goes from node to node, and undoes and propagates literals.

ghost use Rattle.std.specs.Prelude.{◌≤◌, length};

use crate::counting_propagator::CountingPropagator;
use crate::lookahead::{Choice, Lookahead};
use dimacs::{Formula, Lit, Var};
use std::alloc::{AllocError, Global};

/// A literal of the path, and the length of the trail before it was propagated.
#[derive(Clone, Copy)]
struct Step {
    literal: Lit,
    /// The length of the trail before the literal was propagated.
    from: usize,
}

/// A cursor at a node of the splitting tree: the literals of the node's path are propagated.
pub(crate) struct TreeWalk {
    lookahead: Lookahead,
    /// The literals from the root to the node.
    path: Vec<Step>,
    /// Whether propagating the formula's unit clauses met a conflict.
    is_refuted: bool,
}

impl Drop for TreeWalk {
    fn drop(self) {
        let TreeWalk {
            lookahead: _,
            path: _,
            is_refuted: _,
        } = self;
    }
}

impl TreeWalk {
    /// Makes a cursor at the root of a formula's tree, where the unit clauses are propagated.
    pub(crate) fn begin(alloc: Global, formula: &Formula) -> Result<TreeWalk, AllocError> {
        let mut propagator = CountingPropagator::new(alloc, formula)?;
        let is_refuted = !propagator.propagate_units();
        propagator.count_all();
        Ok(TreeWalk {
            lookahead: Lookahead::new(alloc, propagator)?,
            path: Vec::new(alloc),
            is_refuted,
        })
    }

    /// Whether propagating the formula's unit clauses met a conflict.
    pub(crate) fn is_refuted(&self) -> bool {
        self.is_refuted
    }

    /// The length of the longest common prefix of the cursor's path and a cube: as far the cursor
    /// stays.
    fn common(&self, cube: &[Lit]) -> usize
        ensures { result ≤ length cube.now }
    {
        for (i, &literal) in cube.iter().enumerate() {
            match self.path.get(i) {
                Some(step) if step.literal == literal => {}
                _ => return i,
            }
        }
        cube.len()
    }

    /// Goes back up to the node of the first `len` literals of the path, and undoes the others;
    /// nothing changes if the path is no longer.
    fn back(&mut self, len: usize) {
        if let Some(step) = self.path.get(len) {
            self.lookahead.propagator.leave(step.from);
        }
        self.path.truncate(len);
    }

    /// Moves the cursor to the node of a cube: back up to the longest common prefix with the
    /// present path, and down along the other literals. Returns false if propagation meets a
    /// conflict on the way, and stops there.
    pub(crate) fn go_to(&mut self, cube: &[Lit]) -> Result<bool, AllocError> {
        let common = self.common(cube);
        self.back(common);
        for &literal in &cube[common..] {
            let from = self.lookahead.propagator.len();
            self.path.push(Step { literal, from })?;
            if !self.lookahead.propagator.enter(literal.index() as u32) {
                return Ok(false);
            }
        }
        Ok(true)
    }

    /// Chooses what is to be done with the node of the cursor: to branch on a variable, or nothing.
    pub(crate) fn choose(&mut self) -> Result<Choice, AllocError> {
        self.lookahead.choose()
    }

    /// Whether propagating a literal at the node meets a conflict. The node is unchanged afterwards.
    pub(crate) fn is_failed_literal(&mut self, literal: Lit) -> bool {
        self.lookahead
            .propagator
            .is_failed_literal(literal.index() as u32)
    }
}
