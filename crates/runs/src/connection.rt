//! The coordinator's end of one link, and a worker's turn at it.

ghost use Rattle.std.specs.Prelude.{◌≡◌, ◌+◌, OnOk, OnErr, false};
ghost use Rattle.coordinator_core.specs.Coordinator.{IsWorker};
ghost use Rattle.runs.specs.Accounts.{RoseBy};
ghost use Rattle.runs.specs.inner.Accounts.{GoesOn, RoseWithin, Refuses, one_if_none, one_if_err, one_if_open};
ghost use Rattle.runs.specs.inner.Connections.{HasTurned};

use crate::broken::{Broken, run_outcome};
use crate::coordinator_calls::{deliver, lose, poll, progress_of};
use crate::frame_io::{receive, send};
use crate::inbox::Inbox;
use crate::peer::Peer;
use coordinator_core::Coordinator;
use frames::{Frame, WorkerNumber};
use links::{End, Links};
use std::alloc::AllocError;

/// A connection of the coordinator to a worker.
#[derive(Drop)]
pub struct Connection<P> {
    /// The bytes and frames that came from the worker and are not delivered yet.
    pub(crate) inbox: Inbox,
    /// Whether the link may still be used; a closed one is never opened again.
    pub(crate) is_open: bool,
    /// The worker at the other end.
    pub(crate) peer: P,
}

impl<P: Peer> Connection<P> {
    /// Makes the four steps of a turn: sends a frame to the worker, lets it answer, receives its
    /// frame, and delivers that to the coordinator. Answers why the link is broken, if it is.
    fn exchange<L: Links>(
        &mut self,
        links: &mut L,
        coordinator: &mut Coordinator,
        worker: WorkerNumber,
        frame: &Frame,
    ) -> Result<(), Broken>
        ensures goes_on { GoesOn coordinator.old coordinator.new }
        ensures verdict { OnErr result (coordinator.new.verdict ≡ coordinator.old.verdict) }
        ensures open { self.new.is_open ≡ self.old.is_open }
        // At least the send; at most the send, 4,037 receives of a byte each, and the worker's
        // calls.
        ensures calls { RoseWithin 1 (4038 + P.most) (L.call_count links.old) (L.call_count links.new) }
        // The frame that is delivered was received, and so was the frame that the worker took.
        ensures received { OnOk result (RoseBy (1 + P.least self.old.peer + one_if_none self.old.inbox.waiting.items) (L.call_count links.old) (L.call_count links.new)) }
        // At most one call is refused, over this worker's link alone, and only if the result is
        // `Err`.
        ensures refusals { Refuses L.refusal_count L.refused_at worker (one_if_err result) 0 links.old links.new }
    {
        send(links, End::Coordinator(worker.number()), frame)?;
        self.peer.answer(links, worker)?;
        let frame = receive(links, End::Coordinator(worker.number()), &mut self.inbox)?;
        deliver(coordinator, &frame)?;
        self.peer.share(coordinator, worker);
        Ok(())
    }

    /// Gives the worker its turn, if its link is open: polls the coordinator for a frame to it, exchanges frames, and shows the progress. A
    /// link that is broken is closed. An error is want of memory.
    pub(crate) fn turn<L: Links>(
        &mut self,
        links: &mut L,
        coordinator: &mut Coordinator,
        worker: WorkerNumber,
    ) -> Result<(), AllocError>
        requires { IsWorker coordinator.old worker }
        ensures goes_on { GoesOn coordinator.old coordinator.new }
        // At most a send, 4,037 receives of a byte each, and the worker's calls.
        ensures calls { RoseWithin 0 (4038 + P.most) (L.call_count links.old) (L.call_count links.new) }
        ensures turned { OnOk result (HasTurned P.least (L.call_count links.old) (L.call_count links.new) coordinator.old.verdict coordinator.new.verdict self.old self.new) }
        // Only calls over this worker's link are refused, and at most one, which closes the link.
        ensures refusals { Refuses L.refusal_count L.refused_at worker (one_if_open self.old.is_open) (one_if_open self.new.is_open) links.old links.new }
    {
        if !self.is_open {
            return Ok(());
        }
        let frame = poll(coordinator, worker)?;
        match self.exchange(links, coordinator, worker, &frame) {
            Ok(()) => {
                links.show(&progress_of(coordinator));
                Ok(())
            }
            Err(broken) => self.close(coordinator, worker, broken),
        }
    }

    /// Closes a broken link, drops what waits at both ends, and tells the coordinator that the worker is lost. An error is want of memory,
    /// if that broke the link.
    pub(crate) fn close(
        &mut self,
        coordinator: &mut Coordinator,
        worker: WorkerNumber,
        broken: Broken,
    ) -> Result<(), AllocError>
        ensures goes_on { GoesOn coordinator.old coordinator.new }
        ensures verdict { coordinator.new.verdict ≡ coordinator.old.verdict }
        ensures closed { self.new.is_open ≡ false }
    {
        self.is_open = false;
        self.inbox.clear();
        self.peer.clear();
        lose(coordinator, worker);
        run_outcome(broken)
    }
}
