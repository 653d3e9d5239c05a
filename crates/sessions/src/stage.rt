//! The stages of a query.

/// The stage of the last query.
#[derive(Clone, Copy, Debug, PartialEq, Eq)]
pub(crate) enum Stage {
    /// No query is open.
    Between,
    /// A query is open that has no status yet.
    Open,
    /// A query is open whose status is satisfiable, and whose model is to come.
    Satisfiable,
    /// A query is open whose status is unsatisfiable, and whose core is to come.
    Unsatisfiable,
}
