//! Trims accepted proofs: the lemmas that the empty clause does not need are left out.
#![tactic(auto)]

mod hints;
mod lemma_count;
mod lemmas;
mod line_heads;
mod line_reader;
mod needs;
mod recheck;
mod report;
mod rewriter;
mod shortened_proof;
mod text_blocks;
mod trimmer;

pub use recheck::is_accepted;
pub use report::trim_report;
pub use trimmer::{Trimmed, Trimmer, trim};
