//! Logs of several searches of one formula that take over lemmas of one another, and what follows from them, as laws.
//!
//! Every lemma and every import of such logs follows from the formula, and lemmas that close all leaves of a splitting tree refute it. Woven by
//! the clock, such logs are one log over the formula, which closes each leaf that they close. The commands `share` and `weave` write and
//! read them.
#![tactic(auto)]

mod examples;
mod laws;

pub use examples::{worked_cell, worked_circle, worked_text, worked_weaving};
pub use laws::{a_woven_log_closes, shared_leaves_refute, shared_lemmas_follow};
