//! A node of a cluster: a worker or a coordinator.

ghost use Rattle.std.specs.Prelude.{◌≡◌, MatchBool};
ghost use Rattle.evidence.specs.Events.{Delivered, Polled, Reacted, given_by};
ghost use Rattle.lrat_check.specs.Verdicts.{Right};
ghost use Rattle.cluster.specs.Nodes.{formula_of, verdict_of, IsSound};
ghost use Rattle.cluster.specs.OpenSchedule.{NodeStep, Delivers, Extends, Works, Polls, Restarts, Reacts, HasNoWorker};
ghost use Rattle.cluster.specs.inner.Polls.{MaySendTo, answer_to};

use crate::event::OpenEvent;
use coordinator_core::Coordinator;
use dimacs::{Extension, Formula};
use frames::{Frame, WorkerNumber, first_frame};
use lrat_check::{Reaction, Verdict};
use std::alloc::{AllocError, Global};
use worker_core::Worker;

/// A node: a worker or a coordinator.
pub enum Node {
    /// A worker: it searches, and receives and checks the verdict.
    Worker(Worker),
    /// A coordinator: it gives the leaves of a tree to workers, checks their evidence, and sends the verdict to them.
    Coordinator(Coordinator),
}

impl Drop for Node {
    fn drop(self) {
        match self {
            Node::Worker(_) => {}
            Node::Coordinator(_) => {}
        }
    }
}

impl Node {
    /// The formula of the node: the one that it was made with, and the clauses that were added.
    pub fn formula(&self) -> &Formula
        ensures { result.now ≡ formula_of self.now }
    {
        match self {
            Node::Worker(worker) => worker.formula(),
            Node::Coordinator(coordinator) => coordinator.formula(),
        }
    }

    /// The verdict that the node holds. The call takes no memory.
    pub fn verdict(&self) -> &Verdict
        ensures value { result.now ≡ verdict_of self.now }
        ensures sound { IsSound self.now }
        ensures right { Right (formula_of self.now) result.now }
    {
        match self {
            Node::Worker(worker) => worker.verdict(),
            Node::Coordinator(coordinator) => coordinator.verdict(),
        }
    }

    /// Delivers any bytes to the node: if they begin with a right frame, that is delivered, and the bytes after it are not read; else the
    /// answer is `Ignored`. `NoMemory` if memory for the frame is refused.
    pub fn deliver(&mut self, alloc: Global, bytes: &[u8]) -> Reaction
        ensures { Delivers self.old bytes.now result self.new }
    {
        match first_frame(alloc, bytes) {
            Ok(Some(frame)) => self.deliver_frame(&frame),
            Ok(None) => Reaction::Ignored,
            Err(_) => Reaction::NoMemory,
        }
    }

    /// Delivers a frame to the node, and answers the node's reaction.
    fn deliver_frame(&mut self, frame: &Frame) -> Reaction
        ensures { NodeStep self.old (Delivered frame.now) (Reacted result) self.new }
    {
        match self {
            Node::Worker(worker) => worker.deliver(frame),
            Node::Coordinator(coordinator) => coordinator.deliver(frame),
        }
    }

    /// Lets the node search if it is a worker, and answers the worker's reaction; a coordinator answers `Ignored`.
    pub fn work(&mut self) -> Reaction
        ensures { Works self.old result self.new }
    {
        match self {
            Node::Worker(worker) => worker.work(),
            Node::Coordinator(_) => Reaction::Ignored,
        }
    }

    /// Polls the node for its next frame, a coordinator for the frame to the worker of this number, and drops the frame. `Ignored` if the
    /// coordinator has no such worker, `NoMemory` if memory for the frame is refused, else `Taken`.
    pub fn poll(&mut self, number: u32) -> Reaction
        ensures { Polls self.old number result self.new }
    {
        if !self.may_send_to(number) {
            return Reaction::Ignored;
        }
        let sent = self.send_to(number);
        poll_reaction(&sent)
    }

    /// Tells whether the node can be polled for a worker: a coordinator has to have a worker of this number.
    fn may_send_to(&self, number: u32) -> bool
        ensures { MatchBool result (MaySendTo self.now number) (HasNoWorker self.now number) }
    {
        match self {
            Node::Worker(_) => true,
            Node::Coordinator(coordinator) => number >= 1 && number <= coordinator.workers(),
        }
    }

    /// The node's next frame, a coordinator's to the worker of this number. An error is want of memory.
    fn send_to(&mut self, number: u32) -> Result<Frame, AllocError>
        requires { MaySendTo self.old number }
        ensures { NodeStep self.old (Polled number) (given_by result) self.new }
    {
        match self {
            Node::Worker(worker) => worker.poll(),
            Node::Coordinator(coordinator) => {
                // `workers` ensures that there are at most 64.
                let _ = coordinator.workers();
                coordinator.poll(WorkerNumber::new(number))
            }
        }
    }

    /// Restarts the node from its formula, without verdict and work, under this number: a worker's
    /// incarnation, or a coordinator's session. `NoMemory` leaves a coordinator unchanged.
    pub fn restart(&mut self, number: u64) -> Reaction
        ensures { Restarts self.old number result self.new }
    {
        match self {
            Node::Worker(worker) => {
                worker.restart(number);
                Reaction::Taken
            }
            Node::Coordinator(coordinator) => match coordinator.restart(number) {
                Ok(()) => Reaction::Taken,
                Err(_) => Reaction::NoMemory,
            },
        }
    }

    /// Adds clauses to the node's formula, and restarts the node from the longer formula under another number, a coordinator with a tree of
    /// one leaf. The node holds the assignment or proof that it held before if that is right for the longer formula, else no verdict.
    /// `Refused(4)` if the longer formula would exceed a limit. After that and after `NoMemory` the node is unchanged.
    pub fn extend(&mut self, extension: &Extension, number: u64) -> Reaction
        ensures { Extends self.old extension.now number result self.new }
    {
        match self {
            Node::Worker(worker) => worker.extend(extension, number),
            Node::Coordinator(coordinator) => coordinator.extend(extension, number),
        }
    }

    /// Plays an event at this node, and answers the node's reaction. It has also the contract that
    /// the node is sound after it.
    pub(crate) fn react(&mut self, alloc: Global, event: &OpenEvent) -> Reaction
        ensures reacts { Reacts event.now self.old result self.new }
        ensures sound { IsSound self.new }
    {
        let answer = self.play(alloc, event);
        // `verdict` ensures that the node is sound.
        let _ = self.verdict();
        answer
    }

    /// Plays an event at this node, by the call of its kind, and answers the node's reaction.
    fn play(&mut self, alloc: Global, event: &OpenEvent) -> Reaction
        ensures { Reacts event.now self.old result self.new }
    {
        match event {
            OpenEvent::Deliver { bytes, .. } => self.deliver(alloc, bytes.as_slice()),
            OpenEvent::Work { .. } => self.work(),
            OpenEvent::Poll { worker, .. } => self.poll(*worker),
            OpenEvent::Restart { number, .. } => self.restart(*number),
            OpenEvent::Extend {
                extension,
                number,
                ..
            } => self.extend(extension, *number),
        }
    }
}

/// The reaction to a poll with this result: `Taken`, or `NoMemory` if memory was refused. The frame
/// is dropped, since an open schedule delivers any bytes.
fn poll_reaction(sent: &Result<Frame, AllocError>) -> Reaction
    ensures { result ≡ answer_to sent.now }
{
    match sent {
        Ok(_) => Reaction::Taken,
        Err(_) => Reaction::NoMemory,
    }
}
