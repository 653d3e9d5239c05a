//! A decision on a path of a splitting tree.

use dimacs::Lit;

/// A decision on a path from the root of a splitting tree.
#[derive(Clone, Copy)]
pub(crate) struct Place {
    /// The literal that the path takes.
    pub(crate) literal: Lit,
    /// Whether the leaves below the literal's negation are still to come.
    pub(crate) is_open: bool,
}
