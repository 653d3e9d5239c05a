//! How the answers of the commands `cover` and `join` agree, as a law.
#![tactic(auto)]

mod laws;

pub use laws::covered_leaves_are_joined;
