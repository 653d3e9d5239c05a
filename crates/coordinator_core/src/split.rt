//! The split of a leaf whose search met its limit.

ghost use Rattle.std.specs.Prelude.{◌≡◌, ℕ, ◌+◌, ◌<◌, ◌↔◌, All, IsTrue, length, map, slice_index_or, Some, None, IfOk, OnOk, OnErr};
ghost use Rattle.cube_split.specs.ChoiceWithDefinitions.{Chooses};
ghost use Rattle.cube_split.specs.Definitions.{IsPairOf};
ghost use Rattle.coordinator_core.specs.Coordinator.{CanSplit, IsDeciding, MaySplit, DeliversLimit, coordinator_opening, cube_at, job_at, split};
ghost use Rattle.coordinator_core.specs.Splits.{shifted, shifted_job};
ghost use Rattle.coordinator_core.specs.inner.LeafTable.{HasRoom};
ghost use Rattle.coordinator_core.specs.declared.job_state.Job.{Job};

use crate::coordinator::Coordinator;
use crate::job_state::Job;
use cube_split::{Chooser, Preamble};
use dimacs::{Formula, Lit, Var};
use frames::{Cube, WorkerNumber};
use lrat_check::Reaction;
use std::alloc::{AllocError, Global};

/// Chooses the variable on which a cube is split; `None` if the split rule chooses none. The rule's
/// tables are made at the first call, and kept.
fn choose(
    alloc: Global,
    tables: &mut Option<Chooser>,
    formula: &Formula,
    preamble: &Preamble,
    cube: &[Lit],
) -> Result<Option<Var>, AllocError>
    requires room { HasRoom (formula.now.vars + length preamble.now.pairs) tables.old }
    requires pairs { All (IsPairOf formula.now.vars) preamble.now.pairs }
    ensures room { HasRoom (formula.now.vars + length preamble.now.pairs) tables.new }
    ensures choice { IfOk result (Chooses formula.now preamble.now cube.now) }
{
    let mut chooser = match tables.take() {
        Some(chooser) => chooser,
        None => Chooser::reserve(alloc, formula.vars() + preamble.pairs().len() as u32)?,
    };
    let choice = chooser.choose(formula, preamble, cube);
    *tables = Some(chooser);
    Ok(choice)
}

/// Returns the index of a leaf after the leaf at index `leaf` was split into two, which shifts all
/// leaves after it by one. Indices are counted from 0.
fn shifted_place(place: usize, leaf: usize) -> usize
    requires { place < 65536 }
    ensures { result ≡ shifted leaf place }
{
    if place > leaf { place + 1 } else { place }
}

/// Returns a job with the index that its leaf has after another leaf, `leaf`, was split; `None`
/// stays `None`.
fn shift_job(job: Option<Job>, leaf: usize) -> Option<Job>
    requires { (j : Job) → job ≡ Some j → j.leaf < 65536 }
    ensures { result ≡ shifted_job leaf job }
{
    match job {
        None => None,
        Some(mut job) => {
            job.leaf = shifted_place(job.leaf, leaf);
            Some(job)
        }
    }
}

/// Updates the leaf index of each job after `leaf` was split.
fn shift_jobs(jobs: &mut Vec<Option<Job>>, leaf: usize)
    requires { (slot : ℕ) (j : Job) → slice_index_or jobs.old.items slot None ≡ Some j → j.leaf < 65536 }
    ensures { jobs.new.items ≡ map (shifted_job leaf) jobs.old.items }
{
    for i in 0..jobs.len() {
        let job = jobs[i].take();
        jobs[i] = shift_job(job, leaf);
    }
}

impl Coordinator {
    /// Delivers that the search under the cube of the worker's job met its limit. The job's leaf is split if that is possible; else the
    /// coordinator becomes stuck. After `NoMemory` nothing has changed.
    pub(crate) fn deliver_limit(&mut self, worker: WorkerNumber) -> Reaction
        requires deciding { IsDeciding self.old }
        requires job { (j : Job) × (job_at self.old worker ≡ Some j) }
        ensures { (j : Job) → job_at self.old worker ≡ Some j → DeliversLimit self.old worker j result self.new }
    {
        let Some(leaf) = self.leaf_of(worker) else {
            return Reaction::NoMemory;
        };
        if !self.may_split(worker, leaf) {
            self.give_up();
            return Reaction::Taken;
        }
        match self.choice(worker, leaf) {
            Err(_) => Reaction::NoMemory,
            Ok(None) => {
                self.give_up();
                Reaction::Taken
            }
            Ok(Some(var)) => match self.split(worker, leaf, var) {
                Err(_) => Reaction::NoMemory,
                Ok(()) => Reaction::Taken,
            },
        }
    }

    /// Tells whether a split of the leaf stays within the limits: fewer than 65,536 leaves, a cube of
    /// fewer than 64 literals, and a base of at most 2,000,000 variables, as many as a frame may
    /// have. The contract alone names `worker`.
    fn may_split(&self, worker: WorkerNumber, leaf: usize) -> bool
        requires { (j : Job) × (job_at self.now worker ≡ Some j) × (j.leaf ≡ leaf) }
        ensures { IsTrue result ↔ MaySplit self.now leaf }
    {
        self.tree.leaves() < 65536
            && self.tree.cube(leaf).len() < 64
            && self.formula.vars() as usize + self.preamble.pairs().len()
                <= Cube::VARIABLES as usize
    }

    /// Chooses the variable on which the leaf is split; `None` if the split rule chooses none. Nothing that a contract names changes.
    fn choice(&mut self, worker: WorkerNumber, leaf: usize) -> Result<Option<Var>, AllocError>
        requires { (j : Job) × (job_at self.old worker ≡ Some j) × (j.leaf ≡ leaf) }
        ensures choice { IfOk result (Chooses self.old.formula (coordinator_opening self.old) (cube_at self.old leaf)) }
        ensures same { self.new ≡ self.old }
    {
        choose(
            self.alloc,
            &mut self.chooser,
            &self.formula,
            &self.preamble,
            self.tree.cube(leaf),
        )
    }

    /// Splits the leaf of the worker's job on `var`, and takes the job from the worker. If memory is refused, nothing changes.
    fn split(&mut self, worker: WorkerNumber, leaf: usize, var: Var) -> Result<(), AllocError>
        requires job { (j : Job) × (job_at self.old worker ≡ Some j) × (j.leaf ≡ leaf) }
        requires can { CanSplit self.old leaf var }
        ensures ok { OnOk result ((j : Job) → job_at self.old worker ≡ Some j → self.new ≡ split self.old worker j var) }
        ensures err { OnErr result (self.new ≡ self.old) }
    {
        self.leaves.split(self.alloc, &mut self.tree, leaf, var)?;
        let slot = worker.number() as usize - 1;
        self.jobs[slot] = None;
        shift_jobs(&mut self.jobs, leaf);
        Ok(())
    }
}
