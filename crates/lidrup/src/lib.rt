//! LIDRUP: what a solver writes while it refutes many cubes in one process becomes one log over the formula.
//!
//! A lemma that is learnt under one cube is used under the next, so nothing is lifted: hints hold under assumptions. Each line becomes at
//! most one line of the log, which is checked as it grows. A layer above may rest on this, whatever text comes in: if [`CubeLog::finish`]
//! answers `Ok`, the bytes handed out are the log over the formula that the definition makes of the text; any other text gets its first
//! fault; and [`CubeLog::closes`] tells of a query whether the log closes its cube.
//!
//! The solver's clause numbers are called foreign.
#![tactic(auto)]

mod checked_log;
mod cube_lines;
mod cube_log;
mod fault;
mod kind;
mod log_number;
mod names;
mod numbers;
mod translator;

pub use cube_log::CubeLog;
