//! `solve`: runs a coordinator and its workers in one process, which decide a formula.

ghost use Rattle.std.specs.Prelude.{ℕ, List, ◌≤◌, ◌+◌, ◌*◌, IfOk, option_map};
ghost use Rattle.dimacs.specs.logic.Limits.{written};
ghost use Rattle.dimacs.specs.text.Parser.{parse, parse_within, GivesFormula};
ghost use Rattle.command_line.specs.Options.{AreOptions};
ghost use Rattle.runs.specs.Accounts.{OnceEach};
ghost use Rattle.node_main.specs.RunCalls.{WasRun};
ghost use Rattle.node_main.specs.SolveReports.{Solves};
ghost use Rattle.proof_check.specs.Truth.{IsTrueReport};

use crate::plans::coordinator_plan;
use crate::start::{Start, begin_within};
use crate::verdict_report::decided;
use command_line::Options;
use dimacs::{DimacsFault, Formula, Limits};
use links::Links;
use lrat_check::accepted_proofs_are_sound;
use reports::Report;
use std::alloc::{AllocError, Global};

/// Reads a formula, splits it by the cubes of an iCNF text or by the split rule, runs a coordinator and its workers over links between
/// them, and reports the verdict. The error stands for the report `c no memory`, status 1.
pub fn run_solve<L: Links>(
    alloc: Global,
    input: &[u8],
    cubes: Option<&[u8]>,
    options: &Options,
    links: &mut L,
) -> Result<Report, AllocError>
    requires { AreOptions options.now }
    ensures report { IfOk result (Solves written input.now (option_map (λ t. t.now) cubes.entry) options.now) }
    ensures truth { IfOk result (IsTrueReport written input.now) }
    ensures used { IfOk result (WasRun (L.call_count links.old) (L.call_count links.new)) }
    ensures most { L.call_count links.new ≤ L.call_count links.old + 8076000000 * options.now.workers }
    ensures refusals { L.refusal_count links.new ≤ L.refusal_count links.old + options.now.workers }
    ensures each { OnceEach (L.refused_at links.old) (L.refused_at links.new) }
{
    run_solve_of(alloc, dimacs::read(alloc, input), cubes, options, links)
}

/// Splits and decides a formula by a coordinator and its workers over links between them, for an
/// input that was read already within the written limits, or has a fault. The error stands for the
/// report `c no memory`, status 1.
pub fn run_solve_of<L: Links>(
    alloc: Global,
    found: Result<Formula, DimacsFault>,
    cubes: Option<&[u8]>,
    options: &Options,
    links: &mut L,
) -> Result<Report, AllocError>
    requires { AreOptions options.now }
    ensures report { (input : List ℕ) → GivesFormula found (parse input) → IfOk result (Solves written input (option_map (λ t. t.now) cubes.entry) options.now) }
    ensures truth { (input : List ℕ) → GivesFormula found (parse input) → IfOk result (IsTrueReport written input) }
    ensures used { IfOk result (WasRun (L.call_count links.old) (L.call_count links.new)) }
    ensures most { L.call_count links.new ≤ L.call_count links.old + 8076000000 * options.now.workers }
    ensures refusals { L.refusal_count links.new ≤ L.refusal_count links.old + options.now.workers }
    ensures each { OnceEach (L.refused_at links.old) (L.refused_at links.new) }
{
    run_solve_within(alloc, found, Limits::written(), cubes, options, links)
}

/// Decides a formula as `run_solve` does, for an input that was read already within these limits,
/// or has a fault. The cubes are read within the same limits.
pub fn run_solve_within<L: Links>(
    alloc: Global,
    found: Result<Formula, DimacsFault>,
    limits: Limits,
    cubes: Option<&[u8]>,
    options: &Options,
    links: &mut L,
) -> Result<Report, AllocError>
    requires { AreOptions options.now }
    ensures report { (input : List ℕ) → GivesFormula found (parse_within limits input) → IfOk result (Solves limits input (option_map (λ t. t.now) cubes.entry) options.now) }
    ensures truth { (input : List ℕ) → GivesFormula found (parse_within limits input) → IfOk result (IsTrueReport limits input) }
    ensures used { IfOk result (WasRun (L.call_count links.old) (L.call_count links.new)) }
    ensures most { L.call_count links.new ≤ L.call_count links.old + 8076000000 * options.now.workers }
    ensures refusals { L.refusal_count links.new ≤ L.refusal_count links.old + options.now.workers }
    ensures each { OnceEach (L.refused_at links.old) (L.refused_at links.new) }
{
    accepted_proofs_are_sound();
    let (opened, tree) = match begin_within(alloc, found, limits, cubes, options) {
        Ok(Start::With(opened, tree)) => (opened, tree),
        Ok(Start::Refused(report)) => return Ok(report),
        Err(error) => return Err(error),
    };
    match runs::solve_of(alloc, opened, tree, &coordinator_plan(options), links) {
        Ok(verdict) => decided(alloc, verdict, options),
        Err(error) => Err(error),
    }
}
