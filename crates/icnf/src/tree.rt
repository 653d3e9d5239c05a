//! Splitting trees.

ghost use Rattle.std.specs.Prelude.{◌≡◌, ◌<◌, ◌≤◌, [], ◌∷◌, length, slice_index_or, IfOk, OnOk, OnErr};
ghost use Rattle.icnf.specs.Leaves.{Leaves, IsFree, IsTree, branched};
ghost use Rattle.icnf.specs.Spans.{cubes_in};
ghost use Rattle.icnf.specs.inner.Spans.{AreSpans};

use crate::span::{self, Span};
use dimacs::{Lit, Var};
use std::alloc::{AllocError, Global};
use std::marker::Model;

/// A splitting tree, as the cubes of its leaves, from left to right: at most 65,536 leaves, with cubes of at most 64 literals.
pub struct Tree {
    /// The literals of the cubes.
    literals: Vec<Lit>,
    /// The span of each cube in `literals`.
    spans: Vec<Span>,
}

impl Drop for Tree {
    fn drop(self) {
        let Tree {
            literals: _,
            spans: _,
        } = self;
    }
}

impl Model for Tree {
    ghost use Rattle.std.specs.Prelude.{List, []};
    ghost use Rattle.icnf.specs.Leaves.{Cube, Leaves};

    ghost Value = { List Cube };

    ghost use Rattle.icnf.specs.Spans.{cubes_in};
    ghost use Rattle.icnf.specs.inner.Spans.{AreSpans};

    ghost view = { λ t. cubes_in t.literals.items t.spans.items };

    ghost invariant = { λ t. AreSpans t.literals.items t.spans.items × Leaves [] (cubes_in t.literals.items t.spans.items) };
}

impl Tree {
    /// Makes the tree of a formula that is not split: one leaf, whose cube is empty.
    pub fn leaf(alloc: Global) -> Result<Tree, AllocError>
        ensures { IfOk result (λ t. t ≡ [] ∷ []) }
    {
        let mut spans = Vec::new(alloc);
        spans.push(Span { from: 0, to: 0 })?;
        Ok(Tree {
            literals: Vec::new(alloc),
            spans,
        })
    }

    /// Makes a tree of the literals of its cubes and of their spans.
    pub(crate) fn from_parts(literals: Vec<Lit>, spans: Vec<Span>) -> Tree
        requires lie { AreSpans literals.items spans.items }
        requires leaves { Leaves [] (cubes_in literals.items spans.items) }
        ensures { result ≡ cubes_in literals.items spans.items }
    {
        Tree { literals, spans }
    }

    /// Answers the number of leaves, from 1 to 65,536.
    pub fn leaves(&self) -> usize
        ensures value { result ≡ length self.now }
        ensures above { 0 < result }
        ensures limit { result ≤ 65536 }
        ensures valid { IsTree self.now }
    {
        self.spans.len()
    }

    /// Lends the cube of leaf `i`, from 0: the literals of its path, at most 64.
    pub fn cube(&self, i: usize) -> &[Lit]
        requires { i < length self.now }
        ensures cube { result.now ≡ slice_index_or self.now i [] }
        ensures limit { length result.now ≤ 64 }
    {
        span::cube_at(&self.literals, &self.spans, i)
    }

    /// Makes a copy of the tree.
    pub fn copy(&self, alloc: Global) -> Result<Tree, AllocError>
        ensures { IfOk result (λ t. t ≡ self.now) }
    {
        Ok(Tree {
            literals: Vec::from_slice(alloc, &self.literals)?,
            spans: Vec::from_slice(alloc, &self.spans)?,
        })
    }

    /// Replaces leaf `i` by its two branches on a variable that its cube does not have, the positive one first. If memory is refused, the
    /// tree is as before.
    pub fn split(&mut self, i: usize, var: Var) -> Result<(), AllocError>
        requires leaf { i < length self.old }
        requires limit { length self.old < 65536 }
        requires short { length (slice_index_or self.old i []) < 64 }
        requires free { IsFree (slice_index_or self.old i []) var }
        ensures ok { OnOk result (self.new ≡ branched i var self.old) }
        ensures err { OnErr result (self.new ≡ self.old) }
    {
        span::branch(&mut self.literals, &mut self.spans, i, var)
    }
}
