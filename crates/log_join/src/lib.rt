//! Joins logs over a formula, which close the leaves of a splitting tree, to one proof of the formula.
//!
//! Logs come one after the other, in any order. Each is appended under new numbers, followed by deletions of its lemmas, except those that
//! close leaves. Once every leaf is closed, the lines of the forks resolve the closing lemmas to the empty clause. The proof is by reverse
//! unit propagation alone. What a layer above may rest on: a [`LogJoiner`] writes exactly what the definition fixes, it closes a leaf
//! exactly if an accepted log does, and its text is an accepted proof of the formula.
#![tactic(auto)]

mod bits;
mod completion;
mod fault;
mod fork_writer;
mod forks;
mod index_builder;
mod laws;
mod leaf_index;
mod leaf_lookup;
mod lemma;
mod line_writer;
mod log_end;
mod log_joiner;
mod log_lines;
mod numbers;
mod places;
mod tree;

pub use fault::LogJoinFault;
pub use laws::{
    closed_leaves_are_joined, joined_lines_close, joined_logs_refute, joiner_states,
    leaves_are_closed_by_logs, worked_log_join,
};
pub use log_joiner::LogJoiner;
