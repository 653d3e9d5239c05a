//! The log of a search over some clauses, under the numbers that they have among all of them.
//!
//! A layer above may rest on this: behind the log of the resolvents, the log of a search over the kept clauses is a log over the
//! formula, as fresh as it was, and closes what it closed.
#![tactic(auto)]

mod laws;
mod renumbering;

pub use laws::{a_log_goes_on_behind_resolvents, a_text_goes_on_behind_resolvents};
pub use renumbering::Renumbering;
