//! The run of a coordinator and its workers in one process.

ghost use Rattle.std.specs.Prelude.{◌≡◌, ◌<◌, ◌≤◌, ◌+◌, ◌*◌, All, IfOk, length};
ghost use Rattle.dimacs.specs.logic.Cnf.{Cnf};
ghost use Rattle.dimacs.specs.logic.Literal.{IsWithin};
ghost use Rattle.cube_split.specs.Pairs.{IsBaseWith};
ghost use Rattle.evidence.specs.Jobs.{IsOverBase};
ghost use Rattle.lrat_check.specs.Verdicts.{Right};
ghost use Rattle.runs.specs.Accounts.{HasBegun, OnceEach};
ghost use Rattle.runs.specs.inner.Connections.{IsUntouched};
ghost use Rattle.runs.specs.inner.LocalWorkers.{fewest};

use crate::connection::Connection;
use crate::coordinator_calls::begin;
use crate::inbox::Inbox;
use crate::local_worker::LocalWorker;
use crate::plan::CoordinatorPlan;
use crate::rounds::run_rounds;
use cube_split::Opened;
use dimacs::Formula;
use frames::WorkerNumber;
use icnf::Tree;
use links::Links;
use lrat_check::Verdict;
use std::alloc::{AllocError, Global};
use worker_core::Worker;

/// The incarnation of each worker of this process.
const INCARNATION: u64 = 1;

/// An open connection to a worker of this process that begins; no frame waits. An error is want of memory.
fn local_connection(
    alloc: Global,
    opened: &Opened,
    number: WorkerNumber,
) -> Result<Connection<LocalWorker>, AllocError>
    ensures { IfOk result (IsUntouched fewest) }
{
    let peer = LocalWorker {
        worker: Worker::of(alloc, opened, number, INCARNATION)?,
        inbox: Inbox::new(alloc)?,
    };
    Ok(Connection {
        inbox: Inbox::new(alloc)?,
        is_open: true,
        peer,
    })
}

/// Open connections to workers 1 to `workers` of this process, in order. An error is want of memory.
fn local_connections(
    alloc: Global,
    opened: &Opened,
    workers: u32,
) -> Result<Vec<Connection<LocalWorker>>, AllocError>
    requires { workers ≤ 64 }
    ensures count { IfOk result (λ s. length s.items ≡ workers) }
    ensures untouched { IfOk result (λ s. All (IsUntouched fewest) s.items) }
{
    let mut local_connections = Vec::new(alloc);
    for i in 0..workers {
        local_connections.push(local_connection(alloc, opened, WorkerNumber::new(i + 1))?)?;
    }
    Ok(local_connections)
}

/// Runs a coordinator and its workers, numbered from 1, over links between them, until a verdict is held, the coordinator is stuck, every
/// link is closed, or 1,000,000 rounds are done. Answers the verdict, or `Nothing`. An error is want of memory.
pub fn solve<L: Links>(
    alloc: Global,
    formula: Formula,
    tree: Tree,
    plan: &CoordinatorPlan,
    links: &mut L,
) -> Result<Verdict, AllocError>
    requires inside { (B : Cnf) → IsBaseWith formula plan.now.defs B → All (IsOverBase B) tree }
    requires narrow { 1000000 < formula.vars → All (All (IsWithin 2000000)) tree }
    requires workers { (1 ≤ plan.now.workers) × (plan.now.workers ≤ 64) }
    requires defs { plan.now.defs ≤ 64 }
    ensures right { IfOk result (Right formula) }
    ensures used { IfOk result (HasBegun (L.call_count links.old) (L.call_count links.new)) }
    ensures most { L.call_count links.new ≤ L.call_count links.old + 8076000000 * plan.now.workers }
    ensures refusals { L.refusal_count links.new ≤ L.refusal_count links.old + plan.now.workers }
    ensures each { OnceEach (L.refused_at links.old) (L.refused_at links.new) }
{
    let opened = Opened::of(alloc, formula, plan.defs)?;
    solve_of(alloc, opened, tree, plan, links)
}

/// Runs a coordinator and its workers over links between them, for a formula whose preamble is
/// known: the preamble's definitions count, and not those of the plan. Answers the verdict, or
/// `Nothing`. An error is want of memory.
pub fn solve_of<L: Links>(
    alloc: Global,
    opened: Opened,
    tree: Tree,
    plan: &CoordinatorPlan,
    links: &mut L,
) -> Result<Verdict, AllocError>
    requires inside { (B : Cnf) → IsBaseWith opened.formula opened.definitions.wanted B → All (IsOverBase B) tree }
    requires narrow { 1000000 < opened.formula.vars → All (All (IsWithin 2000000)) tree }
    requires workers { (1 ≤ plan.now.workers) × (plan.now.workers ≤ 64) }
    ensures right { IfOk result (Right opened.formula) }
    ensures used { IfOk result (HasBegun (L.call_count links.old) (L.call_count links.new)) }
    ensures most { L.call_count links.new ≤ L.call_count links.old + 8076000000 * plan.now.workers }
    ensures refusals { L.refusal_count links.new ≤ L.refusal_count links.old + plan.now.workers }
    ensures each { OnceEach (L.refused_at links.old) (L.refused_at links.new) }
{
    let mut local_connections = local_connections(alloc, &opened, plan.workers)?;
    let mut coordinator = begin(alloc, opened, tree, plan)?;
    run_rounds(links, &mut coordinator, &mut local_connections)?;
    Ok(coordinator.into_verdict())
}
