//! Conflict analysis: from a conflict to a lemma with hints (Marques-Silva and Sakallah 1996; Handbook of Satisfiability, chapter 4).
//!
//! What a layer above may rest on: a lemma of `analyse` or `close_cube` follows from the live clauses by reverse unit propagation along
//! its hints. The literals of a lemma of `analyse` are false, and exactly one of them is of the present level. The literals of a lemma
//! of `close_cube` are negations of decisions, and of the false assumption if there is one.
#![tactic(auto)]

mod analyser;
mod final_analysis;
mod first_uip;
mod lemma;
mod minimiser;
mod seen;

pub use analyser::{Analyser, analyse};
pub use final_analysis::{Closing, close_cube};
pub use lemma::Lemma;
