//! Words of a command line by a table of rules, read by `clap`.
//!
//! What a layer above may rest on: `parse` takes exactly the words that the rules take, unless memory is refused, and what it finds is what
//! a parse by these rules finds. No layer above names a type of `clap`.
#![tactic(auto)]

mod builder;
mod found;
mod parser;
mod rule_table;

pub use found::Found;
pub use parser::{Refusal, parse};
pub use rule_table::{CommandRules, Need, ProgramRules, Word};
