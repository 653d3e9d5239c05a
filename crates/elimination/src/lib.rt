//! Elimination of variables before a search.
//!
//! What a layer above may rest on: each resolvent that is added follows and is new, and what is not kept has an eliminated variable, or a
//! kept clause as a subset. Which variables are eliminated is advice, and so is how an assignment is extended: nothing is promised of either.
#![tactic(auto)]

mod advisor;
mod clauses;
mod elimination;
mod kept;
mod lines;
mod reducer;
mod resolvent;
mod subsumption;
mod witness;

pub use kept::{Kept, eliminate};
pub use witness::Witness;
