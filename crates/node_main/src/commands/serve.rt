//! `serve` in rounds: runs a coordinator, which decides a formula with workers of other processes.

ghost use Rattle.std.specs.Prelude.{ℕ, List, ◌≤◌, ◌+◌, ◌*◌, Option, IfOk, option_map};
ghost use Rattle.dimacs.specs.logic.Limits.{written};
ghost use Rattle.command_line.specs.Options.{AreOptions};
ghost use Rattle.runs.specs.Accounts.{OnceEach};
ghost use Rattle.node_main.specs.RunCalls.{WasRun};
ghost use Rattle.node_main.specs.SolveReports.{Solves};
ghost use Rattle.node_main.specs.RunStart.{IsStart, Starts};
ghost use Rattle.proof_check.specs.Truth.{IsTrueReport};

use crate::plans::coordinator_plan;
use crate::start::{Start, begin};
use crate::verdict_report::decided;
use command_line::Options;
use links::Links;
use lrat_check::accepted_proofs_are_sound;
use reports::Report;
use std::alloc::{AllocError, Global};

/// Reads a formula, splits it as `run_solve` does, runs a coordinator over the links of its workers, and reports the verdict. The run goes
/// on after the verdict, until every link is closed. The error stands for the report `c no memory`, status 1.
pub fn run_serve<L: Links>(
    alloc: Global,
    input: &[u8],
    cubes: Option<&[u8]>,
    options: &Options,
    links: &mut L,
) -> Result<Report, AllocError>
    requires { AreOptions options.now }
    ensures report { IfOk result (Solves written input.now (option_map (λ t. t.now) cubes.entry) options.now) }
    ensures truth { IfOk result (IsTrueReport written input.now) }
    ensures used { IfOk result (WasRun (L.call_count links.old) (L.call_count links.new)) }
    ensures most { L.call_count links.new ≤ L.call_count links.old + 4039000000 * options.now.workers }
    ensures refusals { L.refusal_count links.new ≤ L.refusal_count links.old + options.now.workers }
    ensures each { OnceEach (L.refused_at links.old) (L.refused_at links.new) }
{
    match begin(alloc, dimacs::read(alloc, input), cubes, options) {
        Ok(start) => run_serve_from(alloc, start, options, links),
        Err(error) => Err(error),
    }
}

/// Runs a coordinator over the links of its workers, from a start on, and reports the verdict: so
/// the caller can report a refused input before a worker is linked. The error stands for the report
/// `c no memory`, status 1.
pub fn run_serve_from<L: Links>(
    alloc: Global,
    start: Start,
    options: &Options,
    links: &mut L,
) -> Result<Report, AllocError>
    requires options { AreOptions options.now }
    requires start { IsStart options.now start }
    ensures report { (input : List ℕ) (cubes : Option (List ℕ)) → Starts written input cubes options.now start → IfOk result (Solves written input cubes options.now) }
    ensures truth { (input : List ℕ) (cubes : Option (List ℕ)) → Starts written input cubes options.now start → IfOk result (IsTrueReport written input) }
    ensures used { IfOk result (WasRun (L.call_count links.old) (L.call_count links.new)) }
    ensures most { L.call_count links.new ≤ L.call_count links.old + 4039000000 * options.now.workers }
    ensures refusals { L.refusal_count links.new ≤ L.refusal_count links.old + options.now.workers }
    ensures each { OnceEach (L.refused_at links.old) (L.refused_at links.new) }
{
    accepted_proofs_are_sound();
    let (opened, tree) = match start {
        Start::With(opened, tree) => (opened, tree),
        Start::Refused(report) => return Ok(report),
    };
    match runs::serve_of(alloc, opened, tree, &coordinator_plan(options), links) {
        Ok(verdict) => decided(alloc, verdict, options),
        Err(error) => Err(error),
    }
}
