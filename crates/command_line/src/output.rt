//! What is printed of an answer.

/// What is printed of an answer, besides its `s` line.
#[derive(Clone, Copy, Debug, PartialEq, Eq)]
pub struct Printing {
    /// Whether `c` lines are left out.
    pub quiet: bool,
    /// Whether the `v` lines of an assignment are printed.
    pub witness: bool,
}
