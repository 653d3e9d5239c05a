//! `drill`: plays a random closed schedule, drawn from a seed, and counts refusals and verdicts that differ.

ghost use Rattle.std.specs.Prelude.{◌≡◌, ◌↔◌, ◌≤◌, ℕ, IfOk, OnErr, None, length};
ghost use Rattle.dimacs.specs.logic.Cnf.{Cnf};
ghost use Rattle.dimacs.specs.text.Parser.{parse};
ghost use Rattle.dimacs.specs.text.Grammar.{Spells};
ghost use Rattle.node_main.specs.DrillSchedule.{IsNew, StopsShort};
ghost use Rattle.node_main.specs.DrillReports.{DrillsFormula, DrillsInput, IsCalm, ReportsDrill, drill_status, drill_text};

mod tally;
mod turn;
mod verdict_kinds;
mod words;

use cluster::ClosedCluster;
use cube_split::tree;
use dimacs::{Formula, Kind};
use honest_cluster::honest_work_is_never_refused;
use reports::{Report, faulty_input, put_number};
use std::alloc::{AllocError, Global};
use tally::Tally;
use turn::recall_schedule;
pub use turn::worked_turns;
pub use words::draw;

/// How many workers a drilled cluster has.
const WORKERS: u32 = 3;

/// The depth of the tree of a drilled cluster.
const DEPTH: u32 = 2;

/// The most lemmas that a worker of a drilled cluster learns under a cube.
const LIMIT: u64 = 1000;

/// The report of a drill that took this many turns, with the counts of the tally. An error is want of memory.
fn drill_report(alloc: Global, turns: u64, tally: &Tally) -> Result<Report, AllocError>
    ensures text { IfOk result (λ r. r.stdout.items ≡ drill_text turns tally.now.refused tally.now.disagreements) }
    ensures status { IfOk result (λ r. r.status ≡ drill_status tally.now.refused tally.now.disagreements) }
    ensures proof { IfOk result (λ r. r.proof ≡ None) }
{
    let mut report = Report::of(alloc, b"c turns ", tally.status())?;
    put_number(&mut report.stdout, turns)?;
    report.stdout.extend_from_slice(b" refused ")?;
    put_number(&mut report.stdout, tally.refused)?;
    report.stdout.extend_from_slice(b" disagreements ")?;
    put_number(&mut report.stdout, tally.disagreements)?;
    report.stdout.extend_from_slice(b"\n")?;
    Ok(report)
}

/// Plays one turn of a new cluster of three workers for each three words, in order, and reports two counts: of refusals, and of turns after
/// which a node holds a verdict that differs from one held so far. Both are 0. The error stands for the report `c no memory`, status 1; the
/// turns before it were taken.
pub fn run_drill(
    alloc: Global,
    cluster: &mut ClosedCluster,
    words: &[[u64; 3]],
) -> Result<Report, AllocError>
    requires { IsNew 3 cluster.old }
    ensures reports { IfOk result (ReportsDrill cluster.old words.now cluster.new) }
    ensures calm { IfOk result (IsCalm (length words.now)) }
    ensures stopped { OnErr result (StopsShort cluster.old words.now cluster.new) }
{
    honest_work_is_never_refused();
    recall_schedule(cluster);
    let mut tally = Tally::new();
    for turn in words {
        match tally.take(cluster, turn) {
            Ok(()) => {}
            Err(_) => return Err(AllocError),
        }
    }
    drill_report(alloc, words.len() as u64, &tally)
}

/// Drills a new cluster of three workers on this formula, by the words of a seed, and reports the counts. An error is want of memory.
fn drill_formula(
    alloc: Global,
    formula: &Formula,
    seed: u64,
    turns: u32,
) -> Result<Report, AllocError>
    requires { formula.now.vars ≤ 1000000 }
    ensures { IfOk result (DrillsFormula formula.now seed turns) }
{
    let _ = formula.vars(); // its contract says that the formula is within its limits
    let tree = tree(alloc, formula, DEPTH)?;
    let mut cluster = ClosedCluster::new(alloc, formula, tree, LIMIT, WORKERS)?;
    let words = draw(alloc, seed, turns)?;
    run_drill(alloc, &mut cluster, &words)
}

/// Reads a formula, drills a new cluster of three workers on it by the words of a seed, and reports the counts. The error stands for the
/// report `c no memory`, status 1.
pub fn drill(alloc: Global, input: &[u8], seed: u64, turns: u32) -> Result<Report, AllocError>
    // Status 0 if and only if the input spells a formula.
    ensures spelled { IfOk result (λ r. (r.status ≡ 0) ↔ ((F : Cnf) × Spells input.now F)) }
    // The counts of the drill, or the fault of the input.
    ensures report { IfOk result (DrillsInput (parse input.now) seed turns) }
{
    match dimacs::read(alloc, input) {
        Ok(formula) => drill_formula(alloc, &formula, seed, turns),
        Err(fault) if fault.kind == Kind::NoMemory => Err(AllocError),
        Err(fault) => faulty_input(alloc, fault),
    }
}
