//! The calls of the coordinator's functions that the event loop makes, with the contracts that it needs of them.

ghost use Rattle.std.specs.Prelude.{◌≡◌, ◌<◌, length, Err, IfOk, OnErr, OnOk};
ghost use Rattle.coordinator_core.specs.Coordinator.{CoordinatorStep, IsWorker, coordinator_poll};
ghost use Rattle.evidence.specs.Events.{Delivered, Lost, Reacted, Silent};
ghost use Rattle.event_loop.specs.declared.connection.Broken.TheVariants.{Closed};
ghost use Rattle.event_loop.specs.Ending.{is_decided};
ghost use Rattle.event_loop.specs.inner.Deliveries.{IsToldBy};

use crate::connection::Broken;
use coordinator_core::Coordinator;
use frames::{Frame, WorkerNumber};
use links::Progress;
use lrat_check::{Reaction, Verdict};
use std::alloc::AllocError;

/// Delivers a frame to the coordinator, and answers the coordinator's reaction.
pub(crate) fn deliver(coordinator: &mut Coordinator, frame: &Frame) -> Reaction
    ensures formula { coordinator.new.formula ≡ coordinator.old.formula }
    ensures step { CoordinatorStep coordinator.old (Delivered frame.now) (Reacted result) coordinator.new }
{
    coordinator.deliver(frame)
}

/// Polls the coordinator for its next frame to a worker, whose number it has. An error is want of
/// memory.
fn ask(coordinator: &mut Coordinator, worker: WorkerNumber) -> Result<Frame, AllocError>
    requires { IsWorker coordinator.old worker }
    ensures formula { coordinator.new.formula ≡ coordinator.old.formula }
    ensures verdict { coordinator.new.verdict ≡ coordinator.old.verdict }
    ensures frame { IfOk result (λ f. f ≡ (coordinator_poll coordinator.old worker).frame) }
    ensures after { OnOk result (coordinator.new ≡ (coordinator_poll coordinator.old worker).after) }
    ensures err { OnErr result (coordinator.new ≡ coordinator.old) }
{
    coordinator.poll(worker)
}

/// The frame to send, or `None` for Rest, which asks nothing of the worker and is not sent.
fn told_by(frame: Frame) -> Option<Frame>
    ensures { IsToldBy frame result }
{
    match frame {
        Frame::Rest => None,
        told => Some(told),
    }
}

/// Polls the coordinator for its next frame to a worker; `None` if there is nothing for the worker to do. Answers `Closed` if the
/// coordinator has no worker of this number, and `NoMemory` if memory is refused.
pub(crate) fn poll(
    coordinator: &mut Coordinator,
    worker: WorkerNumber,
) -> Result<Option<Frame>, Broken>
    ensures formula { coordinator.new.formula ≡ coordinator.old.formula }
    ensures verdict { coordinator.new.verdict ≡ coordinator.old.verdict }
    ensures frame { IfOk result (λ told. IsToldBy (coordinator_poll coordinator.old worker).frame told) }
    ensures after { OnOk result (coordinator.new ≡ (coordinator_poll coordinator.old worker).after) }
    ensures closed { result ≡ Err Closed → length coordinator.old.jobs < worker }
    ensures err { OnErr result (coordinator.new ≡ coordinator.old) }
{
    if coordinator.workers() < worker.number() {
        return Err(Broken::Closed);
    }
    match ask(coordinator, worker) {
        Ok(frame) => Ok(told_by(frame)),
        Err(_) => Err(Broken::NoMemory),
    }
}

/// Tells the coordinator that the link of this worker is lost, so that the worker's leaf is open again.
pub(crate) fn lose(coordinator: &mut Coordinator, worker: WorkerNumber)
    ensures formula { coordinator.new.formula ≡ coordinator.old.formula }
    ensures verdict { coordinator.new.verdict ≡ coordinator.old.verdict }
    ensures step { CoordinatorStep coordinator.old (Lost worker) Silent coordinator.new }
{
    coordinator.lost(worker)
}

/// Has the coordinator join the fragment of one closed leaf into the proof, if there is one, in time in which the loop would wait. It joins
/// one only, so no worker waits longer than that takes.
pub(crate) fn join_ahead(coordinator: &mut Coordinator)
    ensures { coordinator.new ≡ coordinator.old }
{
    let _ = coordinator.advance();
}

/// Tells whether the coordinator holds a verdict.
pub(crate) fn is_decided(coordinator: &Coordinator) -> bool
    ensures { result ≡ is_decided coordinator.now.verdict }
{
    !matches!(coordinator.verdict(), Verdict::Nothing)
}

/// The progress of the coordinator: how many leaves it began with, has and has closed, and how many workers have a job.
pub(crate) fn progress_of(coordinator: &Coordinator) -> Progress {
    Progress::of(
        coordinator.initial_leaf_count(),
        coordinator.leaf_count(),
        coordinator.closed_count(),
        coordinator.job_count(),
    )
}
