//! The command line of the program: the request that its words make, or why they make none.
//!
//! What a layer above may rest on: `command` returns the request that the words make by the rules of the command line, its numbers are in
//! their ranges, and words that make a request are refused only if memory is. `read_words` has what the words of a solver ask for.
#![tactic(auto)]

mod commands;
mod options;
mod output;
mod parser;
mod request;
mod solver_words;

pub use options::{Options, USUAL};
pub use output::Printing;
pub use parser::{command, command_of};
pub use request::{Command, Request, UsageFault};
pub use solver_words::{SolverCall, Solving, read_words, solver_call};
