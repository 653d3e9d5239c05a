//! The worker: it takes tasks and searches, sends what it found, and receives and checks a verdict that the coordinator announced.
//!
//! What a layer above may rest on: each call is one step of the relation `WorkerStep` of `specs/Worker`, the rules of a worker by
//! cases on the event; `extend` is a step of `ExtendsWorker` of `specs/AddedClauses`. The verdict of a worker is right for its formula.
//! A call that answers `NoMemory` changes nothing.
#![tactic(auto)]

mod added_clauses;
mod candidate;
mod candidate_check;
mod delivery;
mod laws;
mod poll;
mod proof_checker;
mod search;
mod work;
mod worker;

pub use candidate::Candidate;
pub use laws::{extended_workers_hold_what_is_right, workers_keep_what_they_hold};
pub use work::Work;
pub use worker::Worker;
