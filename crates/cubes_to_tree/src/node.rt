//! The tree in memory whose leaves are the cubes that are listed so far.

ghost use Rattle.std.specs.Prelude.{◌≡◌, ℕ, [], ◌∷◌, IfOk, length, map, min, true};
ghost use Rattle.cubes_to_tree.specs.inner.Cubes.{IsRest};
ghost use Rattle.cubes_to_tree.specs.inner.Nodes.{MakesFork, IsBelow, PutOutcome, given_below, leaf_count};
ghost use Rattle.icnf.specs.Leaves.{Cube};

use dimacs::{Lit, Var};
use std::alloc::{AllocError, Global};

/// The number at which the count of leaves stops: one more than a tree may have.
const COUNT_CAP: usize = 65_537;

/// A subtree, by its root.
#[derive(Drop)]
pub(crate) enum Node {
    /// A leaf that is no cube of the text: it will be added.
    Empty,
    /// A leaf that is a cube of the text.
    Given,
    /// A fork on a variable: the branch of the variable (left), and that of its negation (right).
    Fork {
        var: Var,
        left: Box<Node>,
        right: Box<Node>,
    },
}

/// A fork on the variable of a literal, with the subtree `below` in the literal's branch and an
/// empty leaf, to be added, in the other.
fn fork(alloc: Global, literal: Lit, below: Node) -> Result<Node, AllocError>
    ensures given { IfOk result (λ n. given_below n ≡ map (λ c. literal ∷ c) (given_below below)) }
    ensures below { IfOk result (MakesFork literal below) }
{
    let other = Box::new(alloc, Node::Empty)?;
    let below = Box::new(alloc, below)?;
    let var = literal.var();
    if literal.is_negative() {
        return Ok(Node::Fork {
            var,
            left: other,
            right: below,
        });
    }
    Ok(Node::Fork {
        var,
        left: below,
        right: other,
    })
}

/// Builds the subtree of this cube alone: a fork for each literal, whose other branch is an empty
/// leaf.
fn grown(alloc: Global, cube: &[Lit]) -> Result<Node, AllocError>
    ensures given { IfOk result (λ n. given_below n ≡ cube.now ∷ []) }
    ensures below { IfOk result (λ n. (greatest : ℕ) (path : Cube) → IsRest greatest path cube.now → IsBelow greatest path n) }
{
    let Some((first, rest)) = cube.split_first() else {
        return Ok(Node::Given);
    };
    let below = grown(alloc, rest)?;
    fork(alloc, *first, below)
}

/// Inserts a cube below a node. It answers false, and changes nothing, if no splitting tree has all
/// these cubes as leaves: the cube ends at a fork, goes on below a leaf, or has another variable
/// than the fork.
pub(crate) fn put(alloc: Global, node: &mut Node, cube: &[Lit]) -> Result<bool, AllocError>
    ensures { IfOk result (λ b. PutOutcome cube.now node.old b node.new) }
{
    match node {
        Node::Empty => {
            *node = grown(alloc, cube)?;
            Ok(true)
        }
        Node::Given => Ok(false),
        Node::Fork { var, left, right } => {
            let Some((first, rest)) = cube.split_first() else {
                return Ok(false);
            };
            let found = first.var().number();
            let wanted = var.number();
            if found != wanted {
                return Ok(false);
            }
            if first.is_negative() {
                put(alloc, right, rest)
            } else {
                put(alloc, left, rest)
            }
        }
    }
}

/// Counts the leaves of a subtree, up to 65,537: one more than a tree may have.
pub(crate) fn count(node: &Node) -> usize
    ensures { result ≡ min 65537 (leaf_count node.now) }
{
    match node {
        Node::Empty => 1,
        Node::Given => 1,
        Node::Fork { left, right, .. } => (count(left) + count(right)).min(COUNT_CAP),
    }
}
