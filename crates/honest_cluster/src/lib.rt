//! Closed schedules: one coordinator and its workers, of one formula. Each frame that is delivered was sent by one of them, and each
//! restart is under a number that none of them has used. Frames may be lost, repeated and reordered.
//!
//! What a layer above may rest on: no reaction is a refusal, and complete evidence is a verdict or closes its leaf. So a refusal tells
//! of a forged frame, or of a number that was used twice.
#![tactic(auto)]

mod event;
mod examples;
mod laws;

pub use event::ClosedEvent;
pub use examples::worked_closed_runs;
pub use laws::{closed_clusters_keep_their_word, honest_work_is_never_refused};
