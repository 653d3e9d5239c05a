//! Formulas in conjunctive normal form, and the DIMACS text of the SAT competitions.
//!
//! `read` succeeds if and only if the text is in the grammar, and otherwise returns its first fault. What `write` wrote is read
//! as the same formula. `satisfies` decides whether an assignment satisfies a formula. `Builder` makes formulas clause by clause.
//! `rows`, `words` and `number` parse the lines, tokens and numbers of texts of this kind.
#![tactic(auto)]

mod answer;
mod assignment;
mod base;
mod body;
mod builder;
mod examples;
mod extension;
mod fault;
mod flat;
mod formula;
mod formula_lines;
mod formula_reader;
mod greatest;
mod header;
mod laws;
mod limits;
mod literal;
pub mod number;
mod parser;
pub mod rows;
pub mod words;
mod writer;

pub use answer::{Answer, answer_lines};
pub use assignment::{Assignment, satisfies};
pub use base::Base;
pub use builder::Builder;
pub use examples::{worked_answers, worked_bases, worked_propagation};
pub use extension::Extension;
pub use fault::{DimacsFault, Kind};
pub use formula::Formula;
pub use formula_reader::FormulaReader;
pub use greatest::greatest_in;
pub use laws::{no_text_wants_memory, reading_is_spelling, writing_is_spelling};
pub use limits::Limits;
pub use literal::{Lit, Var, has_literal};
pub use parser::{read, read_within};
pub use writer::{put_clause, write};
