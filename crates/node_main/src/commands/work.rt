//! `work`: runs one worker, whose coordinator is in another process.

ghost use Rattle.std.specs.Prelude.{ℕ, List, ◌≤◌, ◌+◌, IfOk};
ghost use Rattle.dimacs.specs.logic.Limits.{written};
ghost use Rattle.dimacs.specs.text.Parser.{parse, GivesFormula};
ghost use Rattle.command_line.specs.Options.{AreOptions};
ghost use Rattle.runs.specs.Accounts.{OnceEach};
ghost use Rattle.node_main.specs.RunCalls.{WasRun};
ghost use Rattle.node_main.specs.SolveReports.{Works};
ghost use Rattle.proof_check.specs.Truth.{IsTrueReport};

use crate::plans::worker_plan;
use crate::start::refused_input;
use crate::verdict_report::decided;
use command_line::Options;
use dimacs::{DimacsFault, Formula, Kind};
use links::Links;
use lrat_check::accepted_proofs_are_sound;
use reports::Report;
use std::alloc::{AllocError, Global};

/// Reads a formula, runs a worker over its link until it holds a verdict, and reports the verdict. The error stands for the report `c no
/// memory`, status 1.
pub fn run_work<L: Links>(
    alloc: Global,
    input: &[u8],
    options: &Options,
    links: &mut L,
) -> Result<Report, AllocError>
    requires { AreOptions options.now }
    ensures report { IfOk result (Works written input.now options.now) }
    ensures truth { IfOk result (IsTrueReport written input.now) }
    ensures used { IfOk result (WasRun (L.call_count links.old) (L.call_count links.new)) }
    ensures most { L.call_count links.new ≤ L.call_count links.old + 4038000001 }
    ensures refusals { L.refusal_count links.new ≤ L.refusal_count links.old + 1 }
    ensures each { OnceEach (L.refused_at links.old) (L.refused_at links.new) }
{
    run_work_of(alloc, dimacs::read(alloc, input), options, links)
}

/// Runs a worker over its link until it holds a verdict, and reports the verdict, for an input that
/// was read already, or has a fault. The error stands for the report `c no memory`, status 1.
pub fn run_work_of<L: Links>(
    alloc: Global,
    found: Result<Formula, DimacsFault>,
    options: &Options,
    links: &mut L,
) -> Result<Report, AllocError>
    requires { AreOptions options.now }
    ensures report { (input : List ℕ) → GivesFormula found (parse input) → IfOk result (Works written input options.now) }
    ensures truth { (input : List ℕ) → GivesFormula found (parse input) → IfOk result (IsTrueReport written input) }
    ensures used { IfOk result (WasRun (L.call_count links.old) (L.call_count links.new)) }
    ensures most { L.call_count links.new ≤ L.call_count links.old + 4038000001 }
    ensures refusals { L.refusal_count links.new ≤ L.refusal_count links.old + 1 }
    ensures each { OnceEach (L.refused_at links.old) (L.refused_at links.new) }
{
    accepted_proofs_are_sound();
    let formula = match found {
        Ok(formula) => formula,
        Err(fault) if fault.kind == Kind::NoMemory => return Err(AllocError),
        Err(fault) => return refused_input(alloc, fault, options),
    };
    match runs::work(alloc, formula, &worker_plan(options), links) {
        Ok(verdict) => decided(alloc, verdict, options),
        Err(error) => Err(error),
    }
}
