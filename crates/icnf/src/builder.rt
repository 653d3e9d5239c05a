//! The builder of trees, leaf by leaf.

ghost use Rattle.std.specs.Prelude.{◌≡◌, ◌<◌, ◌≤◌, [], ◌∷◌, ◌++◌, length, OnOk, OnErr};
ghost use Rattle.icnf.specs.Leaves.{Leaves};

use crate::span::{self, Span};
use crate::tree::Tree;
use dimacs::Lit;
use std::alloc::{AllocError, Global};
use std::marker::Model;

/// Builds a tree: it holds the cubes of its leaves so far, from left to right.
#[derive(Drop)]
pub struct TreeBuilder {
    /// The literals of the cubes.
    literals: Vec<Lit>,
    /// The span of each cube in `literals`.
    spans: Vec<Span>,
}

impl Model for TreeBuilder {
    ghost use Rattle.std.specs.Prelude.{List};
    ghost use Rattle.icnf.specs.Leaves.{Cube};

    ghost Value = { List Cube };

    ghost use Rattle.icnf.specs.Spans.{cubes_in};
    ghost use Rattle.icnf.specs.inner.Spans.{AreSpans};

    ghost view = { λ t. cubes_in t.literals.items t.spans.items };

    ghost invariant = { λ t. AreSpans t.literals.items t.spans.items };
}

impl TreeBuilder {
    /// A builder without leaves.
    pub fn new(alloc: Global) -> TreeBuilder
        ensures { result ≡ [] }
    {
        TreeBuilder {
            literals: Vec::new(alloc),
            spans: Vec::new(alloc),
        }
    }

    /// Appends the cube of the next leaf. If memory is refused, the builder is as before.
    pub fn push(&mut self, cube: &[Lit]) -> Result<(), AllocError>
        requires room { length self.old < 65536 }
        requires short { length cube.now ≤ 64 }
        ensures ok { OnOk result (self.new ≡ self.old ++ cube.now ∷ []) }
        ensures err { OnErr result (self.new ≡ self.old) }
    {
        span::push_literals(&mut self.literals, &mut self.spans, cube)
    }

    /// Makes the tree. The caller knows that the cubes are all its leaves.
    pub fn finish(self) -> Tree
        requires { Leaves [] self }
        ensures { result ≡ self }
    {
        let TreeBuilder { literals, spans } = self;
        Tree::from_parts(literals, spans)
    }
}
