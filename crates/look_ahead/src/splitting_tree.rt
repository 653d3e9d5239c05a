//! Splitting trees that are grown by lookahead, breadth first.

ghost use Rattle.std.specs.Prelude.{◌<◌, ◌≤◌, ◌^◌, length, IfOk, OnOk};
ghost use Rattle.dimacs.specs.logic.Cnf.{AreWithin, greatest_in};
ghost use Rattle.icnf.specs.Leaves.{IsTree};
ghost use Rattle.look_ahead.specs.Grown.{IsGrown};

use crate::branching_variable::checked;
use crate::lookahead::Choice;
use crate::tree_walk::TreeWalk;
use dimacs::{Formula, Lit, Var, greatest_in};
use icnf::Tree;
use std::alloc::{AllocError, Global};

/// The greatest number of leaves of a tree.
const LEAVES: usize = 65_536;

/// The greatest number of literals of a cube.
const LITERALS: usize = 64;

/// The frontier of a tree: the leaves of the present level, and those of the next one.
struct Frontier {
    walk: TreeWalk,
    /// By leaf of the present level, from left to right, whether propagation refuted it when it was made.
    refuted: Vec<bool>,
    /// The number of leaves of the present level that were taken.
    taken: usize,
    /// By leaf of the next level, from left to right, whether propagation refuted it when it was made.
    below: Vec<bool>,
    /// The number of leaves of the tree that are not refuted.
    open: u32,
}

impl Drop for Frontier {
    fn drop(self) {
        let Frontier {
            walk: _,
            refuted: _,
            taken: _,
            below: _,
            open: _,
        } = self;
    }
}

impl Frontier {
    /// Makes the frontier of a tree of one leaf: its next level is the root alone.
    fn begin(alloc: Global, formula: &Formula) -> Result<Frontier, AllocError> {
        let walk = TreeWalk::begin(alloc, formula)?;
        let refuted = walk.is_refuted();
        Ok(Frontier {
            walk,
            refuted: Vec::new(alloc),
            taken: 0,
            below: vec![in alloc; refuted]?,
            open: if refuted { 0 } else { 1 },
        })
    }

    /// Goes down one level: the leaves that were made become the present level.
    fn descend(&mut self) {
        std::mem::swap(&mut self.refuted, &mut self.below);
        self.below.clear();
        self.taken = 0;
    }

    /// Takes the next leaf of the level, which has this cube, and chooses what is to be done with
    /// it. A leaf that was refuted when it was made is not looked at again.
    fn take(&mut self, cube: &[Lit]) -> Result<Choice, AllocError> {
        let is_refuted = self.refuted.get(self.taken) == Some(&true);
        self.taken = self.taken.wrapping_add(1);
        if is_refuted || !self.walk.go_to(cube)? {
            return Ok(Choice::Refuted);
        }
        let choice = self.walk.choose()?;
        if choice == Choice::Refuted {
            self.open = self.open.wrapping_sub(1);
        }
        Ok(choice)
    }

    /// Adds a leaf to the next level: the leaf that was taken last, with this literal more.
    /// Propagation tells whether it is refuted at once; only others count as open.
    fn make(&mut self, literal: Lit) -> Result<(), AllocError> {
        let refuted = self.walk.is_failed_literal(literal);
        self.below.push(refuted)?;
        if !refuted {
            self.open = self.open.wrapping_add(1);
        }
        Ok(())
    }

    /// Splits the leaf that was taken last on a variable: adds its two branches to the next level,
    /// first the one with the positive literal.
    fn cut(&mut self, var: Var) -> Result<(), AllocError> {
        self.open = self.open.wrapping_sub(1);
        self.make(Lit::positive(var))?;
        self.make(Lit::negative(var))
    }
}

/// Takes a leaf, and splits it if the lookahead has a variable for it. Returns whether it was
/// split.
fn cut_leaf(
    tree: &mut Tree,
    frontier: &mut Frontier,
    leaf: usize,
    last: u32,
) -> Result<bool, AllocError>
    requires leaf { leaf < length tree.old }
    requires room { length tree.old < 65536 }
    requires last { last < 2 ^ 31 }
    requires grown { IsGrown last tree.old }
    ensures { OnOk result (IsGrown last tree.new) }
{
    let cube = tree.cube(leaf);
    if cube.len() >= LITERALS {
        return Ok(false);
    }
    let choice = frontier.take(cube)?;
    let Some(var) = checked(choice, cube, last) else {
        return Ok(false);
    };
    tree.split(leaf, var)?;
    frontier.cut(var)?;
    Ok(true)
}

/// Splits the leaves of `depth` literals from left to right, until `leaves` leaves are not refuted,
/// or the tree has as many leaves as it may have.
fn cut_level(
    tree: &mut Tree,
    frontier: &mut Frontier,
    depth: usize,
    leaves: u32,
    last: u32,
) -> Result<(), AllocError>
    requires last { last < 2 ^ 31 }
    requires grown { IsGrown last tree.old }
    ensures { OnOk result (IsGrown last tree.new) }
{
    let mut leaf = 0;
    // Each turn passes a leaf, and a tree has no more leaves than LEAVES.
    for _ in 0..LEAVES {
        if leaf >= tree.leaves() || tree.leaves() >= LEAVES || frontier.open >= leaves {
            return Ok(());
        }
        if tree.cube(leaf).len() == depth && cut_leaf(tree, frontier, leaf, last)? {
            leaf += 1;
        }
        leaf += 1;
    }
    Ok(())
}

/// Grows a splitting tree with about `leaves` leaves that propagation does not refute. It grows
/// breadth first: a leaf is split on the variable that the lookahead chooses for its cube, if there
/// is one, until there are `leaves` such leaves, or 65,536 leaves in all.
pub fn grow_tree(alloc: Global, formula: &Formula, leaves: u32) -> Result<Tree, AllocError>
    ensures grown { IfOk result (IsGrown (greatest_in formula.now.clauses)) }
    ensures tree { IfOk result IsTree }
    // No cube has a variable that stands in no clause.
    ensures within { IfOk result (AreWithin (greatest_in formula.now.clauses)) }
{
    let last = greatest_in(formula);
    let mut frontier = Frontier::begin(alloc, formula)?;
    let mut tree = Tree::leaf(alloc)?;
    for depth in 0..LITERALS {
        frontier.descend();
        cut_level(&mut tree, &mut frontier, depth, leaves, last)?;
    }
    let _ = tree.leaves(); // its contract says that the tree is one (`IsTree`)
    Ok(tree)
}
