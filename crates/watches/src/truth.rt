//! The truth value of a literal.

/// The value of a literal under a trail; `Free` if it is unassigned.
#[derive(Clone, Copy, Debug, PartialEq, Eq)]
pub enum Truth {
    Free,
    True,
    False,
}
