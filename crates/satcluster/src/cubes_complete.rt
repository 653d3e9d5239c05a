//! `cubes --complete`: reads a list of cubes, and completes it to a splitting tree.

use crate::files::{no_memory, read, read_formula};
use commands::refused_input;
use cubes_to_tree::run_complete;
use dimacs::Limits;
use node_main::{Refusal, Report};
use std::rt::Runtime;

/// Reads the formula in the file `input` and the cubes in the file `list`, both within these limits, and reports the tree that completes
/// the cubes, or the first fault of the formula, else of the cubes. It errs if a file cannot be read, even if the other one has a fault.
pub(crate) fn complete<R: Runtime + AllocGlobal>(
    rt: &R,
    limits: Limits,
    input: &str,
    list: &str,
) -> Result<Report, Refusal> {
    let formula = read_formula(rt, limits, input)?;
    let text = read(rt, list, Refusal::Cubes)?;
    match formula {
        Ok(formula) => run_complete(rt.alloc(), &formula, text.as_slice()).map_err(no_memory),
        Err(fault) => refused_input(rt.alloc(), fault),
    }
}
