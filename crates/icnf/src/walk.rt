//! The walk through a splitting tree: it tests that the cubes of a text are the leaves of a tree, from left to right.
//!
//! After a cube, the next one is forced up to the deepest decision whose other branch is still to come, takes that branch, and is free from
//! there on.

ghost use Rattle.std.specs.Prelude.{◌≡◌, ◌≢◌, ◌<◌, ◌≤◌, [], ◌∷◌, ◌++◌, length, true, false, MatchBool, OnOk, Some, None, vec_len};
ghost use Rattle.dimacs.specs.logic.Literal.{var_of};
ghost use Rattle.icnf.specs.Spans.{cubes_in};
ghost use Rattle.icnf.specs.inner.Spans.{AreSpans};
ghost use Rattle.icnf.specs.Walk.{names, fits, advanced, ended_cube, next_front, literals_of};

use crate::place::Place;
use crate::span::{self, Span};
use crate::tree::Tree;
use dimacs::Lit;
use std::alloc::{AllocError, Global};
use std::marker::Model;

/// The position in a text.
#[derive(Clone, Copy, Debug, PartialEq, Eq)]
pub(crate) enum Stage {
    /// Among the clauses, before the first cube.
    Clauses,
    /// Between two cubes.
    Outside,
    /// In a cube.
    Inside,
    /// After the last cube of the tree.
    Complete,
}

/// The cubes read so far.
#[derive(Drop)]
pub(crate) struct Walk {
    /// The position in the text.
    stage: Stage,
    /// The literals of the cubes that have ended.
    literals: Vec<Lit>,
    /// The span of each cube in `literals`.
    spans: Vec<Span>,
    /// The decisions of the open cube: first those whose literals were read, then those that must follow.
    path: Vec<Place>,
    /// The number of literals that were read of the open cube.
    at: usize,
}

impl Model for Walk {
    ghost use Rattle.std.specs.Prelude.{◌≤◌, take, drop, vec_len};
    ghost use Rattle.icnf.specs.Walk.{WalkState};
    ghost use Rattle.icnf.specs.inner.Walk.{IsWalked};
    ghost use Rattle.icnf.specs.Spans.{cubes_in};
    ghost use Rattle.icnf.specs.inner.Spans.{AreSpans};

    ghost Value = { WalkState };

    ghost view = { λ w. record { stage = w.stage; cubes = cubes_in w.literals.items w.spans.items; path = take w.at w.path.items; forced = drop w.at w.path.items } };

    ghost invariant = { λ w. (w.at ≤ vec_len w.path) × (vec_len w.path ≤ 64) × AreSpans w.literals.items w.spans.items × IsWalked w.stage w.path.items (cubes_in w.literals.items w.spans.items) };
}

/// Backtracks: turns the path of a cube into the forced prefix of the next cube. Answers `false`, with an empty path, if no branch is
/// missing.
fn turn(path: &mut Vec<Place>) -> bool
    ensures shorter { vec_len path.new ≤ vec_len path.old }
    ensures front { MatchBool result (next_front path.old.items ≡ Some path.new.items) ((next_front path.old.items ≡ None) × (path.new.items ≡ [])) }
{
    while let Some(place) = path.pop() {
        if place.is_open {
            path.push(Place {
                literal: place.literal.negate(),
                is_open: false,
            })
            .unwrap();
            return true;
        }
    }
    false
}

impl Walk {
    /// A walk before the first cube.
    pub(crate) fn new(alloc: Global) -> Walk
        ensures { result ≡ record { stage = Stage.Clauses; cubes = []; path = []; forced = [] } }
    {
        Walk {
            stage: Stage::Clauses,
            literals: Vec::new(alloc),
            spans: Vec::new(alloc),
            path: Vec::new(alloc),
            at: 0,
        }
    }

    /// Answers the position in the text.
    pub(crate) fn stage(&self) -> Stage
        ensures { result ≡ self.now.stage }
    {
        self.stage
    }

    /// Answers the number of cubes that have ended.
    pub(crate) fn cubes(&self) -> usize
        ensures { result ≡ length self.now.cubes }
    {
        self.spans.len()
    }

    /// Answers the number of literals that were read of the open cube.
    pub(crate) fn len(&self) -> usize
        ensures { result ≡ length self.now.path }
    {
        self.at
    }

    /// Begins a cube at the root; the forced prefix that `turn` left has to come first.
    pub(crate) fn begin(&mut self)
        requires missing { self.old.stage ≢ Stage.Complete }
        requires room { length self.old.cubes < 65536 }
        ensures { self.new ≡ record self.old { stage = Stage.Inside } }
    {
        self.stage = Stage::Inside;
    }

    /// Answers whether the open cube has a literal of this literal's variable.
    pub(crate) fn names(&self, literal: Lit) -> bool
        ensures { result ≡ names self.now.path (var_of literal) }
    {
        let var = literal.var();
        for place in &self.path[..self.at] {
            if place.literal.var() == var {
                return true;
            }
        }
        false
    }

    /// Answers whether this literal may come next in the open cube: it is the literal that must come, or none must.
    pub(crate) fn fits(&self, literal: Lit) -> bool
        ensures { result ≡ fits literal self.now.forced }
    {
        self.at == self.path.len() || self.path[self.at].literal == literal
    }

    /// Answers whether the open cube may end here: no literal must follow.
    pub(crate) fn may_end(&self) -> bool
        ensures { MatchBool result (self.now.forced ≡ []) (0 < length self.now.forced) }
    {
        self.at == self.path.len()
    }

    /// Appends a literal to the open cube. A literal of the forced prefix is on the path already,
    /// so only the position moves past it.
    pub(crate) fn push(&mut self, literal: Lit) -> Result<(), AllocError>
        requires inside { self.old.stage ≡ Stage.Inside }
        requires other { names self.old.path (var_of literal) ≡ false }
        requires fits { fits literal self.old.forced ≡ true }
        requires room { length self.old.path < 64 }
        ensures { OnOk result (self.new ≡ advanced literal self.old) }
    {
        if self.at < self.path.len() {
            self.at += 1;
            return Ok(());
        }
        self.path.push(Place {
            literal,
            is_open: true,
        })?;
        self.at += 1;
        Ok(())
    }

    /// Ends the open cube: appends it to the tree, and backtracks to the forced prefix of the next
    /// one.
    pub(crate) fn end(&mut self) -> Result<(), AllocError>
        requires inside { self.old.stage ≡ Stage.Inside }
        requires over { self.old.forced ≡ [] }
        ensures { OnOk result (self.new ≡ ended_cube self.old) }
    {
        span::push_cube(&mut self.literals, &mut self.spans, &self.path)?;
        self.at = 0;
        if turn(&mut self.path) {
            self.stage = Stage::Outside;
            return Ok(());
        }
        self.stage = Stage::Complete;
        Ok(())
    }

    /// Makes the tree of the cubes, after the last one.
    pub(crate) fn finish(self) -> Tree
        requires { self.stage ≡ Stage.Complete }
        ensures { result ≡ self.cubes }
    {
        let Walk {
            literals,
            spans,
            ..
        } = self;
        Tree::from_parts(literals, spans)
    }
}
