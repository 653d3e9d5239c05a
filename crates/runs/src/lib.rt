//! Runs in rounds: a coordinator and workers over links that are there from the beginning, each worker in its turn.
//!
//! What a layer above may rest on: for every implementation of `Links`, whatever it hands in, refuses or ends, what a run answers is right
//! for its formula. A link that refused is never used again, so at most one call a link is refused. No verdict is found without calls, at
//! least three of them. A run ends after a bounded number of calls.
#![tactic(auto)]

mod broken;
mod connection;
mod coordinator_calls;
mod frame_io;
mod inbox;
mod local_run;
mod local_worker;
mod pace;
mod peer;
mod plan;
mod remote_run;
mod rounds;
mod worker_run;

pub use local_run::{solve, solve_of};
pub use plan::{CoordinatorPlan, Order, WorkerPlan};
pub use remote_run::{serve, serve_of};
pub use worker_run::work;
