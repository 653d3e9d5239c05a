//! Searches over a whole formula, or over what elimination keeps of it, and what is reported of them.
//!
//! What a layer above may rest on: a report of status 10 has an assignment that satisfies the formula, one of status 20 a proof that is
//! accepted and that closes the tree of one leaf, and one of status 0 tells a limit that the search has met.
#![tactic(auto)]

mod decision;
mod kept_streaming;
mod log_sink;
mod stats;
mod streamed_decision;
mod streaming;

pub use decision::{Asked, decide};
pub use log_sink::{KeptText, LogSink, Nowhere};
pub use streamed_decision::decide_to;
