//! A splitting tree in memory, whose leaves are closed by lemmas.

ghost use Rattle.std.specs.Prelude.{◌≡◌, ℕ, ◌+◌, ◌^◌, ◌<◌, ◌≤◌, Bool, ◌||◌, None, false, List, [], ◌∷◌, ◌++◌, All, Contains, IfOk, OnOk, length};
ghost use Rattle.std.specs.List.{list_any, list_all};
ghost use Rattle.icnf.specs.Leaves.{Cube};
ghost use Rattle.log_join.specs.ClosedLeaves.{closes, is_closed, can_close, open_from, settled};
ghost use Rattle.log_join.specs.Trees.{leaf_in, leaves_in, ArePlaced, IsSubtree};
ghost use Rattle.log_join.specs.inner.Trees.{candidate_of, Clears, IsMadeOf, IsPart, Settles};

use crate::bits::{clear, has_between};
use crate::lemma::{Candidate, Lemma};
use crate::places::Places;
use dimacs::{Lit, has_literal};
use icnf::Tree;
use std::alloc::{AllocError, Global};

/// A subtree. A leaf has its cube, and the lemma that closes it if there is one. A fork has its branch under the literal `branch`, its
/// branch under the negation, the index of the latter's first leaf, and whether all leaves of the fork are closed.
#[derive(Drop)]
pub(crate) enum Node {
    Leaf {
        cube: Vec<Lit>,
        closing: Option<Lemma>,
    },
    Fork {
        branch: Lit,
        middle: u32,
        closed: bool,
        left: Box<Node>,
        right: Box<Node>,
    },
}

/// Builds the subtree below a path of `depth` literals, with every leaf open. Its first leaf has the index `next`, which becomes the index
/// after that of its last leaf.
pub(crate) fn grow(
    alloc: Global,
    tree: &Tree,
    next: &mut usize,
    depth: usize,
) -> Result<Node, AllocError>
    requires part { IsPart tree.now next.old depth }
    ensures made { IfOk result (λ node. (h : IsPart tree.now next.old depth) → IsMadeOf h.path h.here node) }
    ensures next { OnOk result ((h : IsPart tree.now next.old depth) → next.new ≡ next.old + length h.here) }
    ensures placed { IfOk result (λ node. ArePlaced next.old next.new node) }
{
    let _ = tree.leaves(); // for proofs: at most 65,536 leaves
    let place = *next;
    let cube = tree.cube(place);
    if cube.len() == depth {
        *next = place + 1;
        return Ok(Node::Leaf {
            cube: Vec::from_slice(alloc, cube)?,
            closing: None,
        });
    }
    let left = grow(alloc, tree, next, depth + 1)?;
    let middle = *next as u32;
    let right = grow(alloc, tree, next, depth + 1)?;
    Ok(Node::Fork {
        branch: cube[depth],
        middle,
        closed: false,
        left: Box::new(alloc, left)?,
        right: Box::new(alloc, right)?,
    })
}

/// Tells whether every literal of a clause is the negation of a literal of the cube.
fn closes_cube(cube: &[Lit], clause: &[Lit]) -> bool
    ensures { result ≡ closes cube.now clause.now }
{
    clause.iter().all(|l| has_literal(cube, l.negate()))
}

/// Tells whether all leaves of a subtree are closed.
pub(crate) fn is_closed_below(node: &Node) -> bool
    ensures { (path : Cube) → IsSubtree path node.now → result ≡ list_all is_closed (leaves_in node.now) }
{
    match node {
        Node::Leaf { closing, .. } => closing.is_some(),
        Node::Fork { closed, .. } => *closed,
    }
}

/// Tells whether all leaves of two subtrees are closed.
fn are_closed_below(left: &Node, right: &Node) -> bool
    ensures { (p q : Cube) → IsSubtree p left.now → IsSubtree q right.now → result ≡ list_all is_closed (leaves_in left.now ++ leaves_in right.now) }
{
    is_closed_below(left) && is_closed_below(right)
}

/// Returns the disjunction. Unlike `||`, it evaluates both arguments, so that both branches of a
/// fork are searched.
fn either(one: bool, other: bool) -> bool
    ensures { result ≡ (one || other) }
{
    one || other
}

/// Closes a leaf if it is open and the lemma closes it, and tells whether it did.
fn close_leaf(
    alloc: Global,
    cube: &[Lit],
    closing: &mut Option<Lemma>,
    lemma: Candidate<'_>,
) -> Result<bool, AllocError>
    ensures leaf { OnOk result (leaf_in cube.now closing.new ∷ [] ≡ settled (candidate_of lemma.entry) (leaf_in cube.now closing.old ∷ [])) }
    ensures told { IfOk result (λ b. b ≡ list_any (can_close (candidate_of lemma.entry)) (leaf_in cube.now closing.old ∷ [])) }
    ensures left { IfOk result (λ b. closing.new ≡ None → (closing.old ≡ None) × (b ≡ false)) }
{
    if closing.is_some() {
        return Ok(false);
    }
    if !closes_cube(cube, lemma.clause) {
        return Ok(false);
    }
    let clause = Vec::from_slice(alloc, lemma.clause)?;
    *closing = Some(Lemma {
        id: lemma.id,
        clause,
    });
    Ok(true)
}

/// Closes each open leaf of a subtree that a lemma closes, removes its index from `unclosed`, and
/// tells whether there was one. `at` is the range of the subtree's leaf indices: a subtree without
/// a found leaf is not entered.
pub(crate) fn close_below(
    alloc: Global,
    node: &mut Node,
    at: Places,
    lemma: Candidate<'_>,
    unclosed: &mut [u64],
) -> Result<bool, AllocError>
    ensures settled { IfOk result (Settles lemma.entry at node.old node.new) }
    ensures left { OnOk result (ArePlaced at.from at.to node.old → Clears at unclosed.old unclosed.new node.old node.new) }
{
    if !has_between(lemma.found, at.from, at.to) {
        return Ok(false);
    }
    match node {
        Node::Leaf { cube, closing } => {
            let closed = close_leaf(alloc, cube, closing, lemma)?;
            if closed {
                clear(unclosed, at.from as usize);
            }
            Ok(closed)
        }
        Node::Fork {
            middle,
            closed,
            left,
            right,
            ..
        } => {
            if *closed {
                return Ok(false);
            }
            let first = close_below(alloc, left, at.left(*middle), lemma, unclosed)?;
            let second = close_below(alloc, right, at.right(*middle), lemma, unclosed)?;
            *closed = are_closed_below(left, right);
            Ok(either(first, second))
        }
    }
}

/// Appends the indices of a subtree's open leaves. Its first leaf has the index `next`, which becomes the index after that of its last
/// leaf.
pub(crate) fn open_below(
    node: &Node,
    next: &mut usize,
    found: &mut Vec<usize>,
) -> Result<(), AllocError>
    ensures places { OnOk result (next.old + length (leaves_in node.now) < 2 ^ 64 → found.new.items ≡ found.old.items ++ open_from next.old (leaves_in node.now)) }
    ensures next { OnOk result (next.old + length (leaves_in node.now) < 2 ^ 64 → next.new ≡ next.old + length (leaves_in node.now)) }
{
    match node {
        Node::Leaf { closing, .. } => {
            let place = *next;
            *next = place.saturating_add(1);
            if closing.is_none() {
                found.push(place)?;
            }
            Ok(())
        }
        Node::Fork { left, right, .. } => {
            open_below(left, next, found)?;
            open_below(right, next, found)
        }
    }
}
