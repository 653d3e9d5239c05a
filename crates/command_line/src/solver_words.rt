//! The words that a solver is called with: those of CaDiCaL, Kissat and MiniSat, and a few of its own.

mod asked;
mod call;
mod lists;
mod table;
mod told;

pub use asked::{Solving, read_words};
pub use call::{SolverCall, solver_call};
