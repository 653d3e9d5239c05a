//! The answers of SAT solvers, and whether they satisfy a formula.
//!
//! What a layer above may rest on: a reader believes exactly the texts of the grammar, in whatever pieces they come, and finds the first
//! fault of every other text; literals are said to satisfy a formula exactly if each clause has one of them, and then there is an
//! assignment that satisfies it.
#![tactic(auto)]

mod check;
mod fault;
mod laws;
mod lines;
mod named_literals;
mod open_line;
mod reader;
mod report;
mod token_cut;
mod value_lines;

pub use check::ModelCheck;
pub use fault::{AnswerFault, Kind};
pub use laws::{no_answer_wants_memory, reading_is_naming, verified_formulas_are_satisfiable};
pub use named_literals::Named;
pub use reader::AnswerReader;
pub use report::ModelReport;
