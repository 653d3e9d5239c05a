//! The run of one worker over its link to a coordinator in another process.

ghost use Rattle.std.specs.Prelude.{◌≡◌, ◌≤◌, ◌+◌, ◌⊎◌, [], IfOk, IfErr, OnOk, false};
ghost use Rattle.lrat_check.specs.Verdicts.{Right};
ghost use Rattle.lrat_check.specs.declared.verdict.Verdict.TheVariants.{Nothing};
ghost use Rattle.runs.specs.Accounts.{RoseBy, HasBegun, OnceEach};
ghost use Rattle.runs.specs.inner.Accounts.{RoseWithin, RoseUnless, Refuses, one_if_none, one_if_err};
ghost use Rattle.runs.specs.declared.broken.Broken.TheVariants.{NoMemory};

use crate::broken::{Broken, run_outcome};
use crate::frame_io::ROUNDS;
use crate::inbox::Inbox;
use crate::local_worker::LocalWorker;
use crate::pace::Pace;
use crate::plan::{Order, WorkerPlan};
use dimacs::Formula;
use frames::WorkerNumber;
use links::Links;
use lrat_check::Verdict;
use std::alloc::{AllocError, Global};
use worker_core::Worker;

/// Sends the worker's next frame over its link, and counts it for the pace. Answers why the link is broken, if it is.
fn reply<L: Links>(
    links: &mut L,
    number: WorkerNumber,
    local: &mut LocalWorker,
    pace: &mut Pace,
) -> Result<(), Broken>
    ensures formula { local.new.worker.formula ≡ local.old.worker.formula }
    ensures verdict { local.new.worker.verdict ≡ local.old.worker.verdict }
    ensures inbox { local.new.inbox ≡ local.old.inbox }
    ensures calls { RoseWithin 0 1 (L.call_count links.old) (L.call_count links.new) }
    ensures one { RoseUnless result 1 (L.call_count links.old) (L.call_count links.new) }
    // At most one call is refused, over this worker's link alone, and only if the result is `Err`.
    ensures refusals { Refuses L.refusal_count L.refused_at number (one_if_err result) 0 links.old links.new }
{
    let frame = local.reply(links, number)?;
    pace.note(&frame);
    Ok(())
}

/// Lets the worker search once if its pace says that a search may begin in this round. Answers
/// `NoMemory` if memory is refused.
fn work_if_due(local: &mut LocalWorker, pace: &Pace) -> Result<(), Broken>
    ensures formula { local.new.worker.formula ≡ local.old.worker.formula }
    ensures verdict { local.new.worker.verdict ≡ local.old.worker.verdict }
    ensures fault { IfErr result (λ b. b ≡ NoMemory) }
{
    if pace.is_due() {
        return local.work_once();
    }
    Ok(())
}

/// Lets the worker search once and send a frame, in the order of its pace. Answers why the link is broken, if it is.
fn work_and_reply<L: Links>(
    links: &mut L,
    number: WorkerNumber,
    local: &mut LocalWorker,
    pace: &mut Pace,
) -> Result<(), Broken>
    ensures formula { local.new.worker.formula ≡ local.old.worker.formula }
    ensures calls { RoseWithin 0 1 (L.call_count links.old) (L.call_count links.new) }
    ensures one { RoseUnless result 1 (L.call_count links.old) (L.call_count links.new) }
    // At most one call is refused, over this worker's link alone, and only if the result is `Err`.
    ensures refusals { Refuses L.refusal_count L.refused_at number (one_if_err result) 0 links.old links.new }
{
    match pace.order() {
        Order::WorkThenSend => {
            local.work_once()?;
            reply(links, number, local, pace)
        }
        Order::SendThenWork => {
            reply(links, number, local, pace)?;
            work_if_due(local, pace)?;
            Ok(())
        }
    }
}

/// Plays a round of the worker: receives a frame and delivers it, lets the worker search once, and sends a frame. Answers why the link is
/// broken, if it is.
fn answer<L: Links>(
    links: &mut L,
    number: WorkerNumber,
    local: &mut LocalWorker,
    pace: &mut Pace,
) -> Result<(), Broken>
    ensures formula { local.new.worker.formula ≡ local.old.worker.formula }
    // At most 4,037 receives, of a byte each, and a send.
    ensures calls { RoseWithin 0 4038 (L.call_count links.old) (L.call_count links.new) }
    ensures least { OnOk result (RoseBy (1 + one_if_none local.old.inbox.waiting.items) (L.call_count links.old) (L.call_count links.new)) }
    ensures first { local.old.inbox.waiting.items ≡ [] → (local.new.worker.verdict ≡ local.old.worker.verdict) ⊎ RoseUnless result 2 (L.call_count links.old) (L.call_count links.new) }
    // At most one call is refused, over this worker's link alone, and only if the result is `Err`.
    ensures refusals { Refuses L.refusal_count L.refused_at number (one_if_err result) 0 links.old links.new }
{
    local.take_frame(links, number)?;
    work_and_reply(links, number, local, pace)
}

/// Tells whether the worker holds a verdict.
fn holds(worker: &Worker) -> bool
    ensures { result ≡ false → worker.now.verdict ≡ Nothing }
{
    match worker.verdict() {
        Verdict::Nothing => false,
        _ => true,
    }
}

/// Plays rounds until the worker holds a verdict, its link is broken, or 1,000,000 rounds are done. Answers why the link is broken, if it
/// is.
fn answer_all<L: Links>(
    links: &mut L,
    number: WorkerNumber,
    local: &mut LocalWorker,
    pace: &mut Pace,
) -> Result<(), Broken>
    requires inbox { local.old.inbox.waiting.items ≡ [] }
    requires verdict { local.old.worker.verdict ≡ Nothing }
    ensures formula { local.new.worker.formula ≡ local.old.worker.formula }
    // At most 4,038 calls in each of at most 1,000,000 rounds.
    ensures calls { RoseWithin 0 4038000000 (L.call_count links.old) (L.call_count links.new) }
    ensures two { (local.new.worker.verdict ≡ Nothing) ⊎ RoseUnless result 2 (L.call_count links.old) (L.call_count links.new) }
    // At most one call is refused, over this worker's link alone, and only if the result is `Err`.
    ensures refusals { Refuses L.refusal_count L.refused_at number (one_if_err result) 0 links.old links.new }
{
    for _ in 0..ROUNDS {
        if holds(&local.worker) {
            return Ok(());
        }
        answer(links, number, local, pace)?;
    }
    Ok(())
}

/// Runs a worker that begins: it sends a frame, and then rounds are played. An error is want of memory.
fn work_rounds<L: Links>(
    links: &mut L,
    local: &mut LocalWorker,
    order: Order,
) -> Result<(), AllocError>
    requires inbox { local.old.inbox.waiting.items ≡ [] }
    requires verdict { local.old.worker.verdict ≡ Nothing }
    ensures formula { local.new.worker.formula ≡ local.old.worker.formula }
    ensures refusals { L.refusal_count links.new ≤ L.refusal_count links.old + 1 }
    ensures each { OnceEach (L.refused_at links.old) (L.refused_at links.new) }
    ensures most { L.call_count links.new ≤ L.call_count links.old + 4038000001 }
    ensures begun { OnOk result (HasBegun (L.call_count links.old) (L.call_count links.new) local.new.worker.verdict) }
{
    let number = local.worker.number();
    let mut pace = Pace::new(order);
    if let Err(broken) = reply(links, number, local, &mut pace) {
        return run_outcome(broken);
    }
    match answer_all(links, number, local, &mut pace) {
        Ok(()) => Ok(()),
        Err(broken) => run_outcome(broken),
    }
}

/// Runs one worker over its link, until it holds a verdict, its link is closed, or 1,000,000 rounds are done. Answers the verdict, or
/// `Nothing`. An error is want of memory.
pub fn work<L: Links>(
    alloc: Global,
    formula: Formula,
    plan: &WorkerPlan,
    links: &mut L,
) -> Result<Verdict, AllocError>
    requires { plan.now.defs ≤ 64 }
    ensures right { IfOk result (Right formula) }
    ensures used { IfOk result (HasBegun (L.call_count links.old) (L.call_count links.new)) }
    ensures most { L.call_count links.new ≤ L.call_count links.old + 4038000001 }
    ensures refusals { L.refusal_count links.new ≤ L.refusal_count links.old + 1 }
    ensures each { OnceEach (L.refused_at links.old) (L.refused_at links.new) }
{
    let mut local = LocalWorker {
        worker: Worker::with_defs(alloc, formula, plan.number, plan.incarnation, plan.defs)?,
        inbox: Inbox::new(alloc)?,
    };
    work_rounds(links, &mut local, plan.order)?;
    let LocalWorker { worker, .. } = local;
    Ok(worker.into_verdict())
}
