//! The peer at the other end of a coordinator's link: a worker of this process, or one of another process.

ghost use Rattle.std.specs.Prelude.{◌≡◌, ℕ, ◌≤◌, ◌⊎◌, Bool, true, OnOk, refl};
ghost use Rattle.std.proofs.Common.{inl};
ghost use Rattle.runs.specs.Accounts.{RoseBy};
ghost use Rattle.runs.specs.inner.Accounts.{RoseWithin, Refuses, one_if_err};

use crate::broken::Broken;
use coordinator_core::Coordinator;
use frames::WorkerNumber;
use links::Links;

/// What a coordinator's turn needs of the worker at the other end of the link.
pub(crate) trait Peer {
    /// The fewest calls of the links that the worker makes to answer.
    ghost least: { Self → ℕ };

    /// The most calls of the links that the worker makes to answer.
    ghost most: { ℕ };

    /// The value of the constant `HANDS_OUT`, for contracts.
    ghost HANDS_OUT: { Bool };

    /// Whether the run goes on at its verdict, to hand that out to each worker that still asks.
    const HANDS_OUT: bool;

    /// Lets the worker answer the frame that was sent to it over the link of this number: it takes the frame and sends one. A worker of
    /// another process does so by itself. Answers why the link is broken, if it is.
    fn answer<L: Links>(&mut self, links: &mut L, number: WorkerNumber) -> Result<(), Broken>
        ensures calls { RoseWithin 0 most (L.call_count links.old) (L.call_count links.new) }
        ensures least { OnOk result (RoseBy (least self.old) (L.call_count links.old) (L.call_count links.new)) }
        // At most one call is refused, over this worker's link alone, and only if the result is
        // `Err`.
        ensures refusals { Refuses L.refusal_count L.refused_at number (one_if_err result) 0 links.old links.new };

    /// Lets the coordinator share the bytes of evidence that the worker holds, so that they are in memory once.
    fn share(&self, coordinator: &mut Coordinator, number: WorkerNumber)
        ensures { coordinator.new ≡ coordinator.old };

    /// Drops the frames that wait at the worker's end of the link.
    fn clear(&mut self);

    /// Either the run goes on at its verdict, or the worker makes at least one call to answer.
    ghost earned: { (peer : Self) → (HANDS_OUT ≡ true) ⊎ (1 ≤ least peer) };
}

/// A worker of another process. It answers by itself, so no call is made for it here.
#[derive(Drop)]
pub struct RemoteWorker;

impl Peer for RemoteWorker {
    ghost least = { λ _. 0 };

    ghost most = { 0 };

    ghost HANDS_OUT = { true };

    const HANDS_OUT: bool = true;

    /// Does nothing: a worker of another process takes the frame and sends one by itself.
    fn answer<L: Links>(&mut self, _links: &mut L, _number: WorkerNumber) -> Result<(), Broken> {
        Ok(())
    }

    /// Does nothing: the worker's evidence is in the memory of another process.
    fn share(&self, _coordinator: &mut Coordinator, _number: WorkerNumber) {}

    /// Does nothing: the worker's inbox is in another process.
    fn clear(&mut self) {}

    ghost earned = { λ _. inl refl };
}
