//! The calls of the coordinator's functions that runs make, with the contracts that they need of them.

ghost use Rattle.std.specs.Prelude.{◌≡◌, ◌<◌, ◌≤◌, ℕ, All, OnErr, IfOk, true};
ghost use Rattle.dimacs.specs.logic.Cnf.{Cnf};
ghost use Rattle.dimacs.specs.logic.Literal.{IsWithin};
ghost use Rattle.cube_split.specs.Pairs.{IsBaseWith};
ghost use Rattle.evidence.specs.Jobs.{IsOverBase};
ghost use Rattle.coordinator_core.specs.Coordinator.{IsWorker};
ghost use Rattle.runs.specs.inner.Accounts.{Begins, GoesOn, IsOver};

use crate::broken::{Broken, check_memory};
use crate::plan::CoordinatorPlan;
use coordinator_core::Coordinator;
use cube_split::Opened;
use frames::{Frame, WorkerNumber};
use icnf::Tree;
use links::Progress;
use lrat_check::Verdict;
use std::alloc::{AllocError, Global};

/// The coordinator of a run that begins: it holds no verdict and is not stuck. An error is want of memory.
pub(crate) fn begin(
    alloc: Global,
    opened: Opened,
    tree: Tree,
    plan: &CoordinatorPlan,
) -> Result<Coordinator, AllocError>
    requires inside { (B : Cnf) → IsBaseWith opened.formula opened.definitions.wanted B → All (IsOverBase B) tree }
    requires narrow { 1000000 < opened.formula.vars → All (All (IsWithin 2000000)) tree }
    requires workers { (1 ≤ plan.now.workers) × (plan.now.workers ≤ 64) }
    ensures { IfOk result (Begins opened.formula plan.now.workers) }
{
    match Coordinator::of(alloc, opened, tree, plan.limit, plan.workers, plan.session) {
        Ok(coordinator) => Ok(coordinator),
        Err(error) => Err(error),
    }
}

/// Delivers a frame to the coordinator. Answers `NoMemory` if memory is refused; every other reaction is `Ok`. Idle brings no verdict,
/// since only evidence does.
pub(crate) fn deliver(coordinator: &mut Coordinator, frame: &Frame) -> Result<(), Broken>
    ensures goes_on { GoesOn coordinator.old coordinator.new }
    ensures no_memory { OnErr result (coordinator.new.verdict ≡ coordinator.old.verdict) }
    ensures idle { (worker incarnation : ℕ) → frame.now ≡ Frame.Idle worker incarnation → coordinator.new.verdict ≡ coordinator.old.verdict }
{
    check_memory(coordinator.deliver(frame))
}

/// Polls the coordinator for its next frame to this worker. An error is want of memory.
pub(crate) fn poll(coordinator: &mut Coordinator, worker: WorkerNumber) -> Result<Frame, AllocError>
    requires { IsWorker coordinator.old worker }
    ensures goes_on { GoesOn coordinator.old coordinator.new }
    ensures verdict { coordinator.new.verdict ≡ coordinator.old.verdict }
{
    coordinator.poll(worker)
}

/// Tells the coordinator that the link of this worker is lost, so that the worker's leaf is open again.
pub(crate) fn lose(coordinator: &mut Coordinator, worker: WorkerNumber)
    ensures goes_on { GoesOn coordinator.old coordinator.new }
    ensures verdict { coordinator.new.verdict ≡ coordinator.old.verdict }
{
    coordinator.lost(worker)
}

/// Tells whether the run is over: the coordinator holds a verdict and `hands_out` is false, or it holds none and is stuck.
pub(crate) fn is_over(coordinator: &Coordinator, hands_out: bool) -> bool
    ensures { result ≡ true → IsOver hands_out coordinator.now }
{
    match coordinator.verdict() {
        Verdict::Nothing => coordinator.stuck(),
        _ => !hands_out,
    }
}

/// The progress of the coordinator: how many leaves it began with, has and has closed, and how many jobs it gave.
pub(crate) fn progress_of(coordinator: &Coordinator) -> Progress {
    Progress::of(
        coordinator.initial_leaf_count(),
        coordinator.leaf_count(),
        coordinator.closed_count(),
        coordinator.job_count(),
    )
}
