//! Which leaves of the tree are known to be closed, and which offers could close one.
//!
//! Nothing is promised of them: they say which offers are taken over first.

ghost use Rattle.std.specs.Prelude.{◌≤◌};

use dimacs::Lit;
use icnf::Tree;
use std::alloc::{AllocError, Global};

/// The leaves of a tree.
pub(crate) struct KnownLeaves<'a> {
    tree: &'a Tree,
    /// By leaf, whether a lemma that closes it was learnt or taken over.
    closed: Vec<bool>,
    /// By the index of a literal, whether a cube has its negation.
    against: Vec<bool>,
}

impl Drop for KnownLeaves<'_> {
    fn drop(self) {
        let KnownLeaves {
            tree: _,
            closed: _,
            against: _,
        } = self;
    }
}

/// Whether a cube has a literal.
fn has(cube: &[Lit], literal: Lit) -> bool {
    for &other in cube {
        if other == literal {
            return true;
        }
    }
    false
}

/// Whether a cube has the negation of each literal of a clause.
fn is_closed_by(cube: &[Lit], clause: &[Lit]) -> bool {
    for &literal in clause {
        if !has(cube, literal.negate()) {
            return false;
        }
    }
    true
}

/// Notes the negations of a cube's literals.
fn note_against(against: &mut [bool], cube: &[Lit]) {
    for &literal in cube {
        if let Some(found) = against.get_mut(literal.negate().index()) {
            *found = true;
        }
    }
}

impl<'a> KnownLeaves<'a> {
    /// The leaves of a tree over variables up to `vars`, none of which is known to be closed.
    pub(crate) fn of(
        alloc: Global,
        tree: &'a Tree,
        vars: u32,
    ) -> Result<KnownLeaves<'a>, AllocError>
        requires { vars ≤ 199999999 }
    {
        let mut against = vec![in alloc; false; 2 * vars as usize + 2]?;
        for place in 0..tree.leaves() {
            note_against(&mut against, tree.cube(place));
        }
        Ok(KnownLeaves {
            tree,
            closed: vec![in alloc; false; tree.leaves()]?,
            against,
        })
    }

    /// Whether a clause has only negations of literals of cubes, as one that closes a leaf has.
    pub(crate) fn may_close(&self, clause: &[Lit]) -> bool {
        for literal in clause {
            match self.against.get(literal.index()) {
                Some(&found) if found => {}
                _ => return false,
            }
        }
        true
    }

    /// Whether the leaf at a place is not known to be closed.
    fn is_open(&self, place: usize) -> bool {
        match self.closed.get(place) {
            Some(&closed) => !closed,
            None => false,
        }
    }

    /// Notes that the leaf at a place is closed.
    pub(crate) fn note(&mut self, place: usize) {
        if let Some(closed) = self.closed.get_mut(place) {
            *closed = true;
        }
    }

    /// Whether a clause closes a leaf that is not known to be closed. All leaves that it closes are known to be closed from now on.
    pub(crate) fn note_all(&mut self, clause: &[Lit]) -> bool {
        let tree = self.tree;
        let mut any = false;
        for place in 0..tree.leaves() {
            if self.is_open(place) && is_closed_by(tree.cube(place), clause) {
                self.note(place);
                any = true;
            }
        }
        any
    }
}
