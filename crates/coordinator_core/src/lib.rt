//! The coordinator: it gives the leaves of a tree to workers, checks the evidence that they send, and sends the verdict to them.
//!
//! What a layer above may rest on: each call is a step of the written rules, for whatever frames are delivered (`CoordinatorStep`; for
//! `extend`, `ExtendsCoordinator`). The verdict of a coordinator is right for its formula. A call that answers `NoMemory` changes nothing.
#![tactic(auto)]

mod added_clauses;
mod coordinator;
mod delivery;
mod done_idle;
mod examples;
mod fragment_join;
mod fragments;
mod held_verdict;
mod job_evidence;
mod job_state;
mod laws;
mod leaf_table;
mod poll;
mod progress;
mod split;
mod want_delivery;
mod worker_slots;

pub use coordinator::Coordinator;
pub use examples::worked_splits;
pub use job_state::{Fixed, Job, LeafState};
pub use laws::{coordinators_keep_what_they_hold, extended_coordinators_are_sound};
