//! The outcome of a run: a report, with its text, its exit status and its proof; or a refusal, with its line.
#![tactic(auto)]

mod faults;
mod refusal;
mod report;

pub use faults::{
    faulty_cubes, faulty_input, other_formula, put_fault, put_number, put_step_fault,
};
pub use refusal::Refusal;
pub use report::Report;
