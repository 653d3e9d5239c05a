//! The coordinator's event loop: connections of workers come and go, and each event of any of them is handled as it comes.
//!
//! What a layer above may rest on: for every implementation of `Arrivals`, whatever it hands in, refuses or ends, what a run holds is right
//! for its formula, and the run ends. It waits for no single link. A link that refused, ended or lied is hung up, and its leaf is open
//! again.
#![tactic(auto)]

mod connection;
mod coordinator_calls;
mod decision_loop;
mod dispatcher;
mod handout;
mod idle_workers;
mod plan;
mod receiver;
mod registration;
mod run;
mod sender;
mod timeouts;

pub use decision_loop::{decide, decide_of};
pub use plan::Plan;
pub use run::Run;
