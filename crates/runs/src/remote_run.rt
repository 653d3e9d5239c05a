//! The run of a coordinator whose workers are in other processes.

ghost use Rattle.std.specs.Prelude.{◌≡◌, ◌<◌, ◌≤◌, ◌+◌, ◌*◌, length, All, IfOk, OnOk, OnErr, true};
ghost use Rattle.coordinator_core.specs.Coordinator.{IsWorker};
ghost use Rattle.dimacs.specs.logic.Cnf.{Cnf};
ghost use Rattle.dimacs.specs.logic.Literal.{IsWithin};
ghost use Rattle.cube_split.specs.Pairs.{IsBaseWith};
ghost use Rattle.evidence.specs.Jobs.{IsOverBase};
ghost use Rattle.lrat_check.specs.Verdicts.{Right};
ghost use Rattle.lrat_check.specs.declared.verdict.Verdict.TheVariants.{Nothing};
ghost use Rattle.runs.specs.Accounts.{RoseBy, HasBegun, OnceEach};
ghost use Rattle.runs.specs.inner.Accounts.{GoesOn, RoseWithin, Refuses, one_if_none, one_if_err, one_if_open};
ghost use Rattle.runs.specs.inner.Connections.{Closing, IsNew};

use crate::broken::Broken;
use crate::connection::Connection;
use crate::coordinator_calls::{begin, deliver};
use crate::frame_io::receive;
use crate::inbox::Inbox;
use crate::peer::RemoteWorker;
use crate::plan::CoordinatorPlan;
use crate::rounds::run_rounds;
use coordinator_core::Coordinator;
use cube_split::Opened;
use dimacs::Formula;
use frames::{Frame, WorkerNumber};
use icnf::Tree;
use links::{End, Links};
use lrat_check::Verdict;
use std::alloc::{AllocError, Global};

/// Open connections to workers 1 to `workers` of other processes, in order. An error is want of memory.
fn remote_connections(
    alloc: Global,
    workers: u32,
) -> Result<Vec<Connection<RemoteWorker>>, AllocError>
    ensures count { IfOk result (λ l. length l.items ≡ workers) }
    ensures new { IfOk result (λ l. All IsNew l.items) }
{
    let mut connections = Vec::new(alloc);
    for _ in 0..workers {
        connections.push(Connection {
            inbox: Inbox::new(alloc)?,
            is_open: true,
            peer: RemoteWorker,
        })?;
    }
    Ok(connections)
}

/// Receives the first frame of a link, and delivers it to the coordinator. Answers `Closed` if the frame is not Idle of the worker of that
/// link, or if the link is broken, and `NoMemory` if memory is refused.
fn receive_first<L: Links>(
    links: &mut L,
    coordinator: &mut Coordinator,
    worker: WorkerNumber,
    inbox: &mut Inbox,
) -> Result<(), Broken>
    ensures goes_on { GoesOn coordinator.old coordinator.new }
    ensures verdict { coordinator.new.verdict ≡ coordinator.old.verdict }
    // At most 4,037 receives, of a byte each; at least one if no frame waits.
    ensures calls { RoseWithin (one_if_none inbox.old.waiting.items) 4037 (L.call_count links.old) (L.call_count links.new) }
    // At most one call is refused, over this worker's link alone, and only if the result is `Err`.
    ensures refusals { Refuses L.refusal_count L.refused_at worker (one_if_err result) 0 links.old links.new }
{
    let frame = receive(links, End::Coordinator(worker.number()), inbox)?;
    match &frame {
        Frame::Idle { worker: from, .. } if from.number() == worker.number() => {
            deliver(coordinator, &frame)
        }
        _ => Err(Broken::Closed),
    }
}

/// Makes the handshake of a new connection, and closes the connection if that fails. An error is want of memory.
fn handshake<L: Links>(
    links: &mut L,
    coordinator: &mut Coordinator,
    worker: WorkerNumber,
    connection: &mut Connection<RemoteWorker>,
) -> Result<(), AllocError>
    requires worker { IsWorker coordinator.old worker }
    requires new { IsNew connection.old }
    ensures goes_on { GoesOn coordinator.old coordinator.new }
    ensures verdict { coordinator.new.verdict ≡ coordinator.old.verdict }
    // At least one receive, and at most 4,037, of a byte each.
    ensures calls { RoseWithin 1 4037 (L.call_count links.old) (L.call_count links.new) }
    // Only calls over this worker's link are refused, and at most one, which closes the link.
    ensures refusals { Refuses L.refusal_count L.refused_at worker (one_if_open connection.old.is_open) (one_if_open connection.new.is_open) links.old links.new }
{
    match receive_first(links, coordinator, worker, &mut connection.inbox) {
        Ok(()) => Ok(()),
        Err(broken) => connection.close(coordinator, worker, broken),
    }
}

/// Makes the handshakes of all new connections, in order; connection i, counted from 0, is that of worker i + 1. An error is want of
/// memory.
fn handshake_all<L: Links>(
    links: &mut L,
    coordinator: &mut Coordinator,
    connections: &mut [Connection<RemoteWorker>],
) -> Result<(), AllocError>
    requires some { 1 ≤ length connections.old }
    requires connections { length connections.old ≤ length coordinator.old.jobs }
    requires workers { length coordinator.old.jobs ≤ 64 }
    requires new { All IsNew connections.old }
    ensures goes_on { GoesOn coordinator.old coordinator.new }
    ensures verdict { coordinator.new.verdict ≡ coordinator.old.verdict }
    // At most 4,037 receives for each connection.
    ensures calls { RoseWithin 1 (4037 * length connections.old) (L.call_count links.old) (L.call_count links.new) }
    ensures refusals { Closing L.refusal_count L.refused_at links.old links.new connections.old connections.new }
{
    for i in 0..connections.len() {
        let worker = WorkerNumber::new(i as u32 + 1);
        handshake(links, coordinator, worker, &mut connections[i])?;
    }
    Ok(())
}

/// Makes the handshakes of all new connections, and then plays rounds. An error is want of memory.
fn serve_rounds<L: Links>(
    links: &mut L,
    coordinator: &mut Coordinator,
    connections: &mut [Connection<RemoteWorker>],
) -> Result<(), AllocError>
    requires some { 1 ≤ length connections.old }
    requires connections { length connections.old ≤ length coordinator.old.jobs }
    requires workers { length coordinator.old.jobs ≤ 64 }
    requires new { All IsNew connections.old }
    requires verdict { coordinator.old.verdict ≡ Nothing }
    ensures formula { coordinator.new.formula ≡ coordinator.old.formula }
    ensures most { L.call_count links.new ≤ L.call_count links.old + 4039000000 * length connections.old }
    ensures begun { OnOk result (HasBegun (L.call_count links.old) (L.call_count links.new) coordinator.new.verdict) }
    ensures refusals { L.refusal_count links.new ≤ L.refusal_count links.old + length connections.old }
    ensures each { OnceEach (L.refused_at links.old) (L.refused_at links.new) }
{
    handshake_all(links, coordinator, connections)?;
    run_rounds(links, coordinator, connections)
}

/// Runs a coordinator over the links of its workers, numbered from 1, until it is stuck without a verdict, every link is closed, or
/// 1,000,000 rounds are done. At a verdict the run goes on, and hands the verdict out to each worker that still asks. Answers the verdict,
/// or `Nothing`. An error is want of memory.
pub fn serve<L: Links>(
    alloc: Global,
    formula: Formula,
    tree: Tree,
    plan: &CoordinatorPlan,
    links: &mut L,
) -> Result<Verdict, AllocError>
    requires inside { (B : Cnf) → IsBaseWith formula plan.now.defs B → All (IsOverBase B) tree }
    requires narrow { 1000000 < formula.vars → All (All (IsWithin 2000000)) tree }
    requires workers { (1 ≤ plan.now.workers) × (plan.now.workers ≤ 64) }
    requires defs { plan.now.defs ≤ 64 }
    ensures right { IfOk result (Right formula) }
    ensures used { IfOk result (HasBegun (L.call_count links.old) (L.call_count links.new)) }
    ensures most { L.call_count links.new ≤ L.call_count links.old + 4039000000 * plan.now.workers }
    ensures refusals { L.refusal_count links.new ≤ L.refusal_count links.old + plan.now.workers }
    ensures each { OnceEach (L.refused_at links.old) (L.refused_at links.new) }
{
    let opened = Opened::of(alloc, formula, plan.defs)?;
    serve_of(alloc, opened, tree, plan, links)
}

/// Runs a coordinator over the links of its workers, for a formula whose preamble is known: the
/// preamble's definitions count, and not those of the plan. Answers the verdict, or `Nothing`. An
/// error is want of memory.
pub fn serve_of<L: Links>(
    alloc: Global,
    opened: Opened,
    tree: Tree,
    plan: &CoordinatorPlan,
    links: &mut L,
) -> Result<Verdict, AllocError>
    requires inside { (B : Cnf) → IsBaseWith opened.formula opened.definitions.wanted B → All (IsOverBase B) tree }
    requires narrow { 1000000 < opened.formula.vars → All (All (IsWithin 2000000)) tree }
    requires workers { (1 ≤ plan.now.workers) × (plan.now.workers ≤ 64) }
    ensures right { IfOk result (Right opened.formula) }
    ensures used { IfOk result (HasBegun (L.call_count links.old) (L.call_count links.new)) }
    ensures most { L.call_count links.new ≤ L.call_count links.old + 4039000000 * plan.now.workers }
    ensures refusals { L.refusal_count links.new ≤ L.refusal_count links.old + plan.now.workers }
    ensures each { OnceEach (L.refused_at links.old) (L.refused_at links.new) }
{
    let mut coordinator = begin(alloc, opened, tree, plan)?;
    let mut connections = remote_connections(alloc, plan.workers)?;
    serve_rounds(links, &mut coordinator, &mut connections)?;
    Ok(coordinator.into_verdict())
}
