//! The leaves of a splitting tree as files: what `leaf`, `refute`, `lift`, `join` and `cubes --split` do, as functions of formulas, trees
//! and bytes.
//!
//! With these files the leaves can be solved on any machines, and the results are then brought together. What a layer above may rest on: a
//! refutation is a log over the formula that closes its leaf, and a join is a proof of the formula alone.
#![tactic(auto)]

mod block;
mod block_lift;
mod block_search;
mod checked_lines;
mod file_outcome;
mod growing_log;
mod growing_search;
mod join;
mod laws;
mod leaf;
mod leaf_lift;
mod leaf_search;
mod leaf_split;
mod lookahead_split;
mod notes;
mod search_session;
mod split;

pub use block_lift::{BlockLift, put_leaf};
pub use block_search::run_refute_all;
pub use file_outcome::FileOutcome;
pub use growing_log::GrowingLog;
pub use growing_search::{LeafSpan, run_refute_growing};
pub use join::Join;
pub use laws::joined_leaves;
pub use leaf::{leaf_formula, run_leaf};
pub use leaf_lift::{Lift, LiftOutcome, lift_report};
pub use leaf_search::{SearchOptions, run_refute};
pub use leaf_split::run_split;
pub use lookahead_split::{run_look, run_look_within, run_split_by_look};
pub use notes::{Note, put_missing, put_note};
pub use split::{Split, SplitReader};
