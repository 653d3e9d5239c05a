//! Lifts a proof: an LRAT proof of a leaf's formula, by any solver, becomes a log over the formula that closes the leaf.
//!
//! A leaf's formula has the clauses of the formula and a unit clause for each literal of the leaf's cube. A layer above may rest on this,
//! whatever text comes in: if [`Lifter::finish`] answers `Ok`, the bytes written close the cube over the formula; each refutation by
//! reverse unit propagation alone is lifted; any other text gets its first fault, which is 13 exactly if only the empty lemma is missing
//! and no hints derive it.
//!
//! The solver's clause numbers are called foreign. The image of a foreign clause is the clause of the log that replaces it.
#![tactic(auto)]

mod additions;
mod counter_propagation;
mod cube_propagation;
mod fault;
mod images;
mod laws;
mod lemma_images;
mod lemma_trim;
mod lifter;
mod line_lifter;
mod line_writer;
mod literal_table;
mod live_numbers;
mod marks;
mod scratch;
mod status;
mod step_lifter;
mod walk;

pub use laws::{lifted_texts_close, refutations_are_lifted};
pub use lifter::Lifter;
