//! An incremental solver that writes a proof of its answers.
//!
//! A [`Session`] takes clauses and queries in turn. It answers each query by a search that keeps its lemmas, and writes one LIDRUP
//! proof of all answers. What a layer above may rest on: each answer is right, and `sessions` accepts the text beside the events, with
//! these answers.
#![tactic(auto)]

mod lidrup_lines;
mod proved_session;

pub use cube_solve::{Answer, Failure};
pub use proved_session::Session;
