//! Completes the cubes that another splitter lists to a splitting tree.
//!
//! A lookahead splitter (as march) lists the cubes that a solver has to refute, without those that it has refuted itself. What a layer
//! above may rest on: exactly the missing leaves are added. Cubes that are not leaves of one tree are refused, with the first line that
//! does not fit.
#![tactic(auto)]

mod completion;
mod cube_line;
mod cube_reader;
mod laws;
mod leaf_list;
mod node;

pub use completion::run_complete;
pub use laws::leaves_diverge;
