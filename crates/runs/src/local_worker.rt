//! A worker of this process, and its end of the link.

ghost use Rattle.std.specs.Prelude.{◌≡◌, ◌+◌, ◌⊎◌, IfErr, false};
ghost use Rattle.runs.specs.inner.Accounts.{RoseWithin, RoseUnless, Refuses, one_if_none, one_if_err};
ghost use Rattle.runs.specs.inner.LocalWorkers.{fewest, fewest_is_more};
ghost use Rattle.runs.specs.declared.broken.Broken.TheVariants.{NoMemory};

use crate::broken::{Broken, check_memory};
use crate::frame_io::{receive, send};
use crate::inbox::Inbox;
use crate::peer::Peer;
use coordinator_core::Coordinator;
use frames::{Frame, WorkerNumber};
use links::{End, Links};
use std::alloc::AllocError;
use worker_core::Worker;

/// A worker of this process.
#[derive(Drop)]
pub struct LocalWorker {
    /// The worker.
    pub(crate) worker: Worker,
    /// The bytes and frames that came to the worker's end of the link and are not delivered yet.
    pub(crate) inbox: Inbox,
}

/// Delivers a frame to the worker. Answers `NoMemory` if memory is refused; every other reaction is `Ok`.
fn deliver(worker: &mut Worker, frame: &Frame) -> Result<(), Broken>
    ensures formula { worker.new.formula ≡ worker.old.formula }
    ensures fault { IfErr result (λ b. b ≡ NoMemory) }
{
    check_memory(worker.deliver(frame))
}

/// Polls the worker for its next frame to the coordinator. An error is want of memory.
fn poll(worker: &mut Worker) -> Result<Frame, AllocError>
    ensures formula { worker.new.formula ≡ worker.old.formula }
    ensures verdict { worker.new.verdict ≡ worker.old.verdict }
{
    worker.poll()
}

impl LocalWorker {
    /// Receives the next frame over the link of this number, and delivers it to the worker. Answers why the link is broken, if it is.
    pub(crate) fn take_frame<L: Links>(
        &mut self,
        links: &mut L,
        number: WorkerNumber,
    ) -> Result<(), Broken>
        ensures formula { self.new.worker.formula ≡ self.old.worker.formula }
        ensures verdict { IfErr result (λ b. (b ≡ NoMemory) ⊎ (self.new.worker.verdict ≡ self.old.worker.verdict)) }
        // At most 4,037 receives, of a byte each; at least one if no frame waits.
        ensures calls { RoseWithin (one_if_none self.old.inbox.waiting.items) 4037 (L.call_count links.old) (L.call_count links.new) }
        // At most one call is refused, over this worker's link alone, and only if the result is
        // `Err`.
        ensures refusals { Refuses L.refusal_count L.refused_at number (one_if_err result) 0 links.old links.new }
    {
        let frame = receive(links, End::Worker(number.number()), &mut self.inbox)?;
        deliver(&mut self.worker, &frame)?;
        Ok(())
    }

    /// Lets the worker search once. Answers `NoMemory` if memory is refused.
    pub(crate) fn work_once(&mut self) -> Result<(), Broken>
        ensures formula { self.new.worker.formula ≡ self.old.worker.formula }
        ensures verdict { self.new.worker.verdict ≡ self.old.worker.verdict }
        ensures fault { IfErr result (λ b. b ≡ NoMemory) }
    {
        check_memory(self.worker.work())
    }

    /// Polls the worker for a frame, sends it over the link of this number, and answers the frame. Answers `Closed` if the link refuses it,
    /// and `NoMemory` if memory is refused.
    pub(crate) fn reply<L: Links>(
        &mut self,
        links: &mut L,
        number: WorkerNumber,
    ) -> Result<Frame, Broken>
        ensures formula { self.new.worker.formula ≡ self.old.worker.formula }
        ensures verdict { self.new.worker.verdict ≡ self.old.worker.verdict }
        ensures inbox { self.new.inbox ≡ self.old.inbox }
        ensures calls { RoseWithin 0 1 (L.call_count links.old) (L.call_count links.new) }
        ensures one { RoseUnless result 1 (L.call_count links.old) (L.call_count links.new) }
        // At most one call is refused, over this worker's link alone, and only if the result is
        // `Err`.
        ensures refusals { Refuses L.refusal_count L.refused_at number (one_if_err result) 0 links.old links.new }
    {
        let frame = poll(&mut self.worker)?;
        send(links, End::Worker(number.number()), &frame)?;
        Ok(frame)
    }
}

impl Peer for LocalWorker {
    ghost least = { fewest };

    ghost most = { 4038 };

    ghost HANDS_OUT = { false };

    const HANDS_OUT: bool = false;

    /// Receives the frame that was sent to the worker, lets the worker search once, and sends its next frame. Answers why the link is
    /// broken, if it is.
    fn answer<L: Links>(&mut self, links: &mut L, number: WorkerNumber) -> Result<(), Broken> {
        self.take_frame(links, number)?;
        self.work_once()?;
        self.reply(links, number)?;
        Ok(())
    }

    /// Lets the coordinator share the bytes of evidence that the worker holds, if it holds any.
    fn share(&self, coordinator: &mut Coordinator, number: WorkerNumber) {
        if let Some(found) = self.worker.found() {
            coordinator.share(number, found);
        }
    }

    /// Drops the frames that wait at the worker's end of the link.
    fn clear(&mut self) {
        self.inbox.clear();
    }

    ghost earned = { fewest_is_more };
}
