//! A block of a splitting tree: leaves that follow each other in the tree.

ghost use Rattle.std.specs.Prelude.{◌≤◌, length};

use icnf::Tree;

/// The leaves of a tree at the indices `first..end`, from 0.
pub struct Block {
    /// The whole tree.
    pub(crate) tree: Tree,
    /// The index of the block's first leaf, from 0.
    pub(crate) first: usize,
    /// The index after the block's last leaf.
    pub(crate) end: usize,
    ghost some: { first ≤ end },
    ghost inside: { end ≤ length tree },
}

impl Drop for Block {
    fn drop(self) {
        let Block {
            tree: _,
            first: _,
            end: _,
        } = self;
    }
}
