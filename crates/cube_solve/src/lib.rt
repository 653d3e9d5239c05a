//! Conflict-driven clause learning under a cube of assumptions (Marques-Silva and Sakallah 1996).
//!
//! The search propagates, assumes the cube's literals, decides an unassigned variable, and learns a lemma from each conflict. Focused
//! phases decide by VMTF and restart often; stable phases decide by scores and restart seldom. The least used lemmas are deleted if there
//! are many.
//!
//! What a layer above may rest on: the three outcomes of [`solve`], each by its clause. It returns for every limit. A [`Session`] keeps
//! clauses and lemmas from one query to the next.
#![tactic(auto)]

mod answer;
mod base_loader;
mod counts;
mod decision;
mod decision_order;
mod descent;
mod garbage;
mod joining;
mod lbd;
mod lemma_stats;
mod log;
mod luby;
mod marks;
mod model;
mod modes;
mod more_variables;
mod moving_average;
mod observer;
mod outcome;
mod query;
mod random;
mod reduce;
mod root_units;
mod saved_phases;
mod search;
mod session;
mod solve_cube;
mod state;
mod stepwise;
mod unit_clauses;
mod vmtf_queue;

pub use answer::{Answer, Failure};
pub use observer::{Counts, Observer, Unobserved};
pub use outcome::{Outcome, Searched};
pub use session::Session;
pub use solve_cube::{solve, solve_by, solve_observed};
pub use stepwise::{Advance, End, Stepwise};
