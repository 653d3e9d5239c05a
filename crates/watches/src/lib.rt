//! Unit propagation: the trail of a search, and the trait `Propagator`.
//!
//! The trail has the literals that are true, in the order in which they were assigned, each with its decision level and its reason: the
//! number of the clause that implied it. A `Propagator` finds unit clauses among the clauses of an arena; its law is written once, in
//! the trait. `Watched` watches two literals of each clause; `Scan` tests every clause, and is the model that tests compare with.
//! The layer above may rest on the contracts alone, which do not show the tables of the trail and of the propagators.
#![tactic(auto)]

mod moved_refs;
mod propagator;
mod scan;
mod status;
mod trail;
mod truth;
mod watched;

pub use propagator::{Propagator, add_clause};
pub use scan::Scan;
pub use status::{Status, test_clause};
pub use trail::{Assigned, Trail};
pub use truth::Truth;
pub use watched::Watched;
