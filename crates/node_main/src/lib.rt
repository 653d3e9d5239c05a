//! The commands of the program, as functions from bytes and links to reports.
//!
//! The crates above read and write files; here a command is a function of bytes, so its contract can say what is printed. `command_line`
//! has the options, `reports` the reports.
#![tactic(auto)]

mod commands;
mod formula_split;
mod limits;
mod plans;
mod start;
mod verdict_report;

pub use command_line::{Command, Options, Request, USUAL, UsageFault, command, command_of};
pub use commands::cubes::{run_cubes, run_cubes_within};
pub use commands::drill::{draw, drill, run_drill, worked_turns};
pub use commands::serve::{run_serve, run_serve_from};
pub use commands::service::{Service, run_serve_arrivals, serve_arrivals};
pub use commands::solve::{run_solve, run_solve_of, run_solve_within};
pub use commands::work::{run_work, run_work_of};
pub use limits::read_limits;
pub use reports::{Refusal, Report};
pub use start::{Start, begin, begin_within};
