//! The members of a closed cluster: its coordinator and its workers.

ghost use Rattle.std.specs.Prelude.{◌≡◌, ◌<◌, ◌≤◌, [], All, IfOk, OnOk, OnErr, MatchBool, nat_le, length, option_copied};
ghost use Rattle.dimacs.specs.logic.Cnf.{Cnf};
ghost use Rattle.dimacs.specs.logic.Literal.{IsWithin};
ghost use Rattle.cube_split.specs.Pairs.{AreOf, Definitions, IsBaseWith};
ghost use Rattle.evidence.specs.Events.{Delivered, Worked, Polled, Reacted, given_by};
ghost use Rattle.evidence.specs.Jobs.{IsOverBase};
ghost use Rattle.honest_cluster.specs.ClosedSchedule.{IsNoPoll, verdict_at};
ghost use Rattle.cluster.specs.Members.{closed_of};
ghost use Rattle.cluster.specs.inner.Members.{AreNew, IsMember, MayBePolled, MemberSteps, MemberRestarts, new_workers};

use coordinator_core::Coordinator;
use cube_split::definitions_are_settled;
use dimacs::Formula;
use frames::{Frame, WorkerNumber};
use icnf::Tree;
use lrat_check::{Reaction, Verdict};
use std::alloc::{AllocError, Global};
use worker_core::Worker;

/// The nodes of a closed cluster: the coordinator is node 0, and worker w, counted from 1, is node w.
pub(crate) struct Members {
    /// The coordinator.
    pub(crate) coordinator: Coordinator,
    /// The workers, in order: worker 1 is at index 0.
    pub(crate) workers: Vec<Worker>,
}

impl Drop for Members {
    fn drop(self) {
        let Members {
            coordinator: _,
            workers: _,
        } = self;
    }
}

/// Workers 1 to `count` with `defs` definitions of the formula. Worker w is in incarnation w + 1,
/// since no two nodes share a number and the coordinator's session is 1. An error is want of
/// memory.
fn workers_of(
    alloc: Global,
    formula: &Formula,
    count: u32,
    defs: u32,
) -> Result<Vec<Worker>, AllocError>
    requires count { count ≤ 64 }
    requires defs { defs ≤ 64 }
    ensures { IfOk result (λ v. (d : Definitions) → AreOf formula.now d → d.wanted ≡ defs → v.items ≡ new_workers formula.now d count) }
{
    definitions_are_settled();
    let mut workers = Vec::with_capacity(alloc, count as usize)?;
    for i in 0..count {
        let number = WorkerNumber::new(i + 1);
        let incarnation = u64::from(i) + 2;
        let formula = formula.copy()?;
        let worker = Worker::with_defs(alloc, formula, number, incarnation, defs)?;
        workers.push(worker)?;
    }
    Ok(workers)
}

impl Members {
    /// A coordinator in session 1, and workers 1 to `workers`, worker w in incarnation w + 1, all with `defs` definitions of the formula.
    /// An error is want of memory.
    pub(crate) fn new(
        alloc: Global,
        formula: &Formula,
        tree: Tree,
        limit: u64,
        workers: u32,
        defs: u32,
    ) -> Result<Members, AllocError>
        requires inside { (B : Cnf) → IsBaseWith formula.now defs B → All (IsOverBase B) tree }
        requires narrow { 1000000 < formula.now.vars → All (All (IsWithin 2000000)) tree }
        requires workers { (1 ≤ workers) × (workers ≤ 64) }
        requires defs { defs ≤ 64 }
        ensures { IfOk result (AreNew formula.now tree limit workers defs) }
    {
        let copy = formula.copy()?;
        let coordinator = Coordinator::with_defs(alloc, copy, tree, limit, workers, 1, defs)?;
        let workers = workers_of(alloc, formula, workers, defs)?;
        Ok(Members {
            coordinator,
            workers,
        })
    }

    /// Tells whether there is a node of this number: 0 is the coordinator, and node i the i-th
    /// worker.
    pub(crate) fn has(&self, node: usize) -> bool
        ensures { result ≡ nat_le node (length self.now.workers.items) }
    {
        node <= self.workers.len()
    }

    /// Delivers a frame to a node, 0 for the coordinator, and answers the node's reaction.
    pub(crate) fn deliver(&mut self, node: usize, frame: &Frame) -> Reaction
        requires { IsMember self.old node }
        ensures { MemberSteps self.old node (Delivered frame.now) (Reacted result) self.new }
    {
        if node == 0 {
            return self.coordinator.deliver(frame);
        }
        self.workers[node - 1].deliver(frame)
    }

    /// Lets the worker that is this node search, and answers the worker's reaction.
    pub(crate) fn work(&mut self, node: usize) -> Reaction
        requires some { 1 ≤ node }
        requires member { IsMember self.old node }
        ensures { MemberSteps self.old node Worked (Reacted result) self.new }
    {
        self.workers[node - 1].work()
    }

    /// Tells whether a node exists and can be polled for a worker: the coordinator has to have a worker of this number.
    pub(crate) fn may_be_polled(&self, node: usize, worker: u32) -> bool
        ensures { MatchBool result (MayBePolled self.now node worker) (IsNoPoll (closed_of self.now [] []) node worker) }
    {
        if node == 0 {
            return worker >= 1 && worker <= self.coordinator.workers();
        }
        node <= self.workers.len()
    }

    /// Polls a node for its next frame, the coordinator for the frame to this worker. An error is want of memory: then nothing has changed.
    pub(crate) fn poll(&mut self, node: usize, worker: u32) -> Result<Frame, AllocError>
        requires { MayBePolled self.old node worker }
        ensures { MemberSteps self.old node (Polled worker) (given_by result) self.new }
    {
        if node == 0 {
            // `workers` ensures that there are at most 64.
            let _ = self.coordinator.workers();
            return self.coordinator.poll(WorkerNumber::new(worker));
        }
        self.workers[node - 1].poll()
    }

    /// Restarts a node under this number: a worker's incarnation, or the coordinator's session. An error is want of memory: then nothing
    /// has changed.
    pub(crate) fn restart(&mut self, node: usize, number: u64) -> Result<(), AllocError>
        requires { IsMember self.old node }
        ensures ok { OnOk result (MemberRestarts self.old node number self.new) }
        ensures err { OnErr result (self.new ≡ self.old) }
    {
        if node == 0 {
            return self.coordinator.restart(number);
        }
        self.workers[node - 1].restart(number);
        Ok(())
    }

    /// The verdict that a node holds, 0 for the coordinator; `None` if there is no such node.
    pub(crate) fn verdict(&self, node: usize) -> Option<&Verdict>
        ensures { option_copied result ≡ verdict_at (closed_of self.now [] []) node }
    {
        if node == 0 {
            return Some(self.coordinator.verdict());
        }
        Some(self.workers.get(node - 1)?.verdict())
    }
}
