//! The state of a closed schedule, and how its events change that.

ghost use Rattle.std.specs.Prelude.{◌≡◌, ◌<◌, ◌+◌, ◌≤◌, All, IfOk};
ghost use Rattle.dimacs.specs.logic.Base.{numbers_from};
ghost use Rattle.dimacs.specs.logic.Cnf.{Cnf};
ghost use Rattle.dimacs.specs.logic.Literal.{IsWithin};
ghost use Rattle.cube_split.specs.Pairs.{AreOf, Definitions, IsBaseWith};
ghost use Rattle.evidence.specs.Jobs.{IsOverBase};
ghost use Rattle.honest_cluster.specs.ClosedSchedule.{HappensClosed, HappensDeliver, HappensWork, HappensPoll, HappensRestart, new_closed};
ghost use Rattle.cluster.specs.Members.{state_of};

use crate::members::Members;
use dimacs::Formula;
use frames::Frame;
use honest_cluster::ClosedEvent;
use icnf::Tree;
use lrat_check::Reaction;
use std::alloc::{AllocError, Global};

/// The state of a closed schedule.
pub(crate) struct Schedule {
    /// The nodes.
    pub(crate) members: Members,
    /// The frames that polls have returned so far, in order.
    pub(crate) frames: Vec<Frame>,
    /// The numbers that nodes have used: sessions and incarnations.
    pub(crate) used: Vec<u64>,
}

impl Drop for Schedule {
    fn drop(self) {
        let Schedule {
            members: _,
            frames: _,
            used: _,
        } = self;
    }
}

/// The numbers from 1 to `count`, in order. An error is want of memory.
fn first_numbers(alloc: Global, count: u32) -> Result<Vec<u64>, AllocError>
    ensures { IfOk result (λ v. v.items ≡ numbers_from 1 count) }
{
    let mut numbers = Vec::with_capacity(alloc, count as usize)?;
    for i in 0..count {
        numbers.push(u64::from(i) + 1)?;
    }
    Ok(numbers)
}

impl Schedule {
    /// The beginning of a closed schedule: no frame was sent, and the numbers 1 to `workers + 1` are used. An error is want of memory.
    pub(crate) fn new(
        alloc: Global,
        formula: &Formula,
        tree: Tree,
        limit: u64,
        workers: u32,
        defs: u32,
    ) -> Result<Schedule, AllocError>
        requires inside { (B : Cnf) → IsBaseWith formula.now defs B → All (IsOverBase B) tree }
        requires narrow { 1000000 < formula.now.vars → All (All (IsWithin 2000000)) tree }
        requires workers { (1 ≤ workers) × (workers ≤ 64) }
        requires defs { defs ≤ 64 }
        ensures { IfOk result (λ s. (d : Definitions) × AreOf formula.now d × (d.wanted ≡ defs)
            × (state_of s ≡ new_closed (record { formula = formula.now; definitions = d; tree = tree; limit = limit; workers = workers }))) }
    {
        Ok(Schedule {
            members: Members::new(alloc, formula, tree, limit, workers, defs)?,
            frames: Vec::new(alloc),
            used: first_numbers(alloc, workers + 1)?,
        })
    }

    /// Plays one event, and answers the reaction of its node.
    pub(crate) fn happen(&mut self, event: &ClosedEvent) -> Reaction
        ensures { HappensClosed (state_of self.old) event.now result (state_of self.new) }
    {
        match *event {
            ClosedEvent::Deliver { node, place } => self.deliver(node, place),
            ClosedEvent::Work { node } => self.work(node),
            ClosedEvent::Poll { node, worker } => self.poll(node, worker),
            ClosedEvent::Restart { node, number } => self.restart(node, number),
        }
    }

    /// Delivers to a node the frame at an index of the list of frames, counted from 0. `Ignored` if there is no such node or index.
    fn deliver(&mut self, node: usize, place: usize) -> Reaction
        ensures { HappensDeliver (state_of self.old) node place result (state_of self.new) }
    {
        if !self.members.has(node) || place >= self.frames.len() {
            return Reaction::Ignored;
        }
        self.members.deliver(node, &self.frames[place])
    }

    /// Lets a worker search, and answers the worker's reaction. `Ignored` at the coordinator, or if there is no such node.
    fn work(&mut self, node: usize) -> Reaction
        ensures { HappensWork (state_of self.old) node result (state_of self.new) }
    {
        if node == 0 || !self.members.has(node) {
            return Reaction::Ignored;
        }
        self.members.work(node)
    }

    /// Polls a node for its next frame, the coordinator for the frame to `worker`, and appends that to the list. `Ignored` if the node
    /// cannot be polled; `NoMemory` changes nothing.
    fn poll(&mut self, node: usize, worker: u32) -> Reaction
        ensures { HappensPoll (state_of self.old) node worker result (state_of self.new) }
    {
        if !self.members.may_be_polled(node, worker) {
            return Reaction::Ignored;
        }
        // The entry is reserved first, so that no frame that was sent is missing from the list if memory is refused.
        if self.frames.reserve(1).is_err() {
            return Reaction::NoMemory;
        }
        match self.members.poll(node, worker) {
            Ok(frame) => {
                self.frames.push(frame).unwrap();
                Reaction::Taken
            }
            Err(_) => Reaction::NoMemory,
        }
    }

    /// Restarts a node under a number that no node has used. `Ignored` if there is no such node or the number was used; `NoMemory` changes
    /// nothing.
    fn restart(&mut self, node: usize, number: u64) -> Reaction
        ensures { HappensRestart (state_of self.old) node number result (state_of self.new) }
    {
        if !self.members.has(node) || self.used.contains(&number) {
            return Reaction::Ignored;
        }
        // The entry is reserved first, so that no number that was used is missing from the list if memory is refused.
        if self.used.reserve(1).is_err() {
            return Reaction::NoMemory;
        }
        match self.members.restart(node, number) {
            Ok(()) => {
                self.used.push(number).unwrap();
                Reaction::Taken
            }
            Err(_) => Reaction::NoMemory,
        }
    }
}
