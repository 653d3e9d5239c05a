//! Runs over links in memory.

ghost use Rattle.command_line.specs.Options.{AreOptions};

use super::call::{Answer, Call, Tried, made, try_twice};
use crate::formulas::{FOUR, UNITS};
use links::{Counted, Memory};
use node_main::{Options, Report, USUAL, run_solve};
use std::alloc::{AllocError, Global};

/// One worker, for a formula that is not split.
const ALONE: Options = Options {
    workers: 1,
    depth: 0,
    ..USUAL
};

/// Two workers, one for each leaf.
const TWO: Options = Options {
    workers: 2,
    depth: 1,
    ..ALONE
};

/// A run over new links.
#[derive(Drop)]
struct Run {
    alloc: Global,
    input: &'static [u8],
    is_split: bool,
}

/// Runs `solve` on an input over links in memory.
fn solved(alloc: Global, input: &[u8], options: &Options) -> Result<Report, AllocError>
    requires { AreOptions options.now }
{
    let mut links = Counted::new(Memory::new(alloc, options.workers)?);
    run_solve(alloc, input, None, options, &mut links)
}

/// The answer of a run: its proof if it has one, and else the text that it prints.
fn told(alloc: Global, report: Report) -> Answer {
    let Report { stdout, proof, .. } = report;
    match proof {
        Some(proof) => made(alloc, &proof),
        None => Answer::Made(stdout),
    }
}

impl Call for Run {
    /// Runs `solve` by one worker, or by two if the formula is split.
    fn make(&mut self) -> Answer {
        let report = if self.is_split {
            solved(self.alloc, self.input, &TWO)
        } else {
            solved(self.alloc, self.input, &ALONE)
        };
        match report {
            Ok(report) => told(self.alloc, report),
            Err(_) => Answer::NoMemory,
        }
    }
}

/// Runs `solve` on two unit clauses, which one worker satisfies; twice if memory was wanting.
pub(crate) fn units(alloc: Global) -> Option<Tried> {
    let mut run = Run {
        alloc,
        input: UNITS,
        is_split: false,
    };
    Some(try_twice(&mut run))
}

/// Runs `solve` on every clause over two variables, which two workers refute; twice if memory was
/// wanting.
pub(crate) fn four(alloc: Global) -> Option<Tried> {
    let mut run = Run {
        alloc,
        input: FOUR,
        is_split: true,
    };
    Some(try_twice(&mut run))
}
