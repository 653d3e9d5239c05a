//! Lists the leaves of a tree, from left to right.

ghost use Rattle.std.specs.Prelude.{◌≡◌, ◌+◌, ◌<◌, ◌≤◌, ◌∷◌, [], ◌++◌, OnOk, length};
ghost use Rattle.cubes_to_tree.specs.Completion.{cubes_in, flags_of};
ghost use Rattle.cubes_to_tree.specs.inner.Nodes.{IsShort, leaf_count, leaves_below};

use crate::node::Node;
use dimacs::Lit;
use icnf::TreeBuilder;
use std::alloc::{AllocError, Global};

/// The leaves that are listed so far.
#[derive(Drop)]
pub(crate) struct LeafList {
    /// The cubes of the leaves.
    pub(crate) cubes: TreeBuilder,
    /// Whether each leaf was added: no cube of the text is this leaf.
    pub(crate) added: Vec<bool>,
}

impl LeafList {
    /// Appends a leaf, and whether it was added to complete the tree.
    fn push(&mut self, cube: &[Lit], added: bool) -> Result<(), AllocError>
        requires room { length self.old.cubes < 65536 }
        requires short { length cube.now ≤ 64 }
        ensures cubes { OnOk result (self.new.cubes ≡ self.old.cubes ++ cube.now ∷ []) }
        ensures added { OnOk result (self.new.added.items ≡ self.old.added.items ++ added ∷ []) }
    {
        self.cubes.push(cube)?;
        self.added.push(added)?;
        Ok(())
    }
}

/// Appends the leaves below the node `node`, to which the path `path` and then the literal `literal` lead. The path is unchanged after the
/// call.
#[cycle(list)]
fn list_branch(
    node: &Node,
    literal: Lit,
    path: &mut Vec<Lit>,
    leaf_list: &mut LeafList,
) -> Result<(), AllocError>
    requires room { length leaf_list.old.cubes + leaf_count node.now ≤ 65536 }
    requires short { IsShort (length path.old.items + 1) node.now }
    ensures cubes { OnOk result (leaf_list.new.cubes ≡ leaf_list.old.cubes ++ cubes_in (leaves_below (path.old.items ++ literal ∷ []) node.now)) }
    ensures added { OnOk result (leaf_list.new.added.items ≡ leaf_list.old.added.items ++ flags_of (leaves_below (path.old.items ++ literal ∷ []) node.now)) }
    ensures count { OnOk result (length leaf_list.new.cubes ≡ length leaf_list.old.cubes + leaf_count node.now) }
    ensures path { OnOk result (path.new.items ≡ path.old.items) }
{
    path.push(literal)?;
    list(node, path, leaf_list)?;
    path.pop();
    Ok(())
}

/// Appends the leaves below the node `node`, to which the path `path` leads. The path is unchanged after the call.
#[cycle(list)]
pub(crate) fn list(
    node: &Node,
    path: &mut Vec<Lit>,
    leaf_list: &mut LeafList,
) -> Result<(), AllocError>
    requires room { length leaf_list.old.cubes + leaf_count node.now ≤ 65536 }
    requires short { IsShort (length path.old.items) node.now }
    ensures cubes { OnOk result (leaf_list.new.cubes ≡ leaf_list.old.cubes ++ cubes_in (leaves_below path.old.items node.now)) }
    ensures added { OnOk result (leaf_list.new.added.items ≡ leaf_list.old.added.items ++ flags_of (leaves_below path.old.items node.now)) }
    ensures count { OnOk result (length leaf_list.new.cubes ≡ length leaf_list.old.cubes + leaf_count node.now) }
    ensures path { OnOk result (path.new.items ≡ path.old.items) }
{
    match node {
        Node::Empty => leaf_list.push(path, true),
        Node::Given => leaf_list.push(path, false),
        Node::Fork { var, left, right } => {
            list_branch(left, Lit::positive(*var), path, leaf_list)?;
            list_branch(right, Lit::negative(*var), path, leaf_list)
        }
    }
}
