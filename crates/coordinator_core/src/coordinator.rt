//! A coordinator: its fields, and how it is made and restarted.

ghost use Rattle.std.specs.Prelude.{◌≡◌, ◌-◌, ◌≤◌, ◌<◌, ◌^◌, ◌↔◌, IsTrue, length, true, replicate, All, IfOk, OnOk, OnErr, OnSome, IfSome, MatchOption, None, Some};
ghost use Rattle.dimacs.specs.logic.Cnf.{Cnf};
ghost use Rattle.dimacs.specs.logic.Literal.{IsWithin};
ghost use Rattle.cube_split.specs.Definitions.{base_with};
ghost use Rattle.cube_split.specs.Pairs.{AreOf, Definitions, IsBaseWith};
ghost use Rattle.lrat_check.specs.Verdicts.{Right};
ghost use Rattle.lrat_check.specs.declared.verdict.Verdict.TheVariants.{Nothing};
ghost use Rattle.evidence.specs.Evidence.{bytes_in};
ghost use Rattle.evidence.specs.Events.{Lost, Silent};
ghost use Rattle.evidence.specs.Jobs.{IsOverBase};
ghost use Rattle.coordinator_core.specs.Coordinator.{CoordinatorStep, IsDeciding, IsWorker, job_at, new_coordinator, restarted_coordinator, with_job};
ghost use Rattle.coordinator_core.specs.Invariant.{IsCoordinator, IsJobAt};
ghost use Rattle.coordinator_core.specs.declared.job_state.Job.{Job};

use crate::job_state::Job;
use crate::leaf_table::LeafTable;
use cube_split::{Chooser, Opened, Preamble};
use dimacs::{Base, Formula};
use frames::WorkerNumber;
use icnf::Tree;
use lrat_check::Verdict;
use proof_join::Joiner;
use std::alloc::{AllocError, Global};
use std::marker::Model;

/// A coordinator: it gives the leaves of a tree to workers, checks the evidence that they send, and sends the verdict to them.
pub struct Coordinator {
    pub(crate) alloc: Global,
    pub(crate) formula: Formula,
    // the number of definitions asked for, at most 64
    pub(crate) defs: u32,
    pub(crate) preamble: Preamble,
    // the tables of the split rule, made at the first split, so that later splits take no memory for them
    pub(crate) chooser: Option<Chooser>,
    // the base over which fragments close their cubes, if that is not the formula alone
    pub(crate) base: Option<Base>,
    pub(crate) session: u64,
    pub(crate) limit: u64,
    // the tree that the coordinator was made with
    pub(crate) initial_tree: Tree,
    // the present tree, after splits
    pub(crate) tree: Tree,
    pub(crate) leaves: LeafTable,
    // for each worker, from 1 on, its job if it has one
    pub(crate) jobs: Vec<Option<Job>>,
    // for each worker, from 1 on, the noted offset of its Want if there is one
    pub(crate) wants: Vec<Option<u32>>,
    // the number of the next job; `None` if no number is left after 2^64 - 1
    pub(crate) next: Option<u64>,
    pub(crate) stuck: bool,
    pub(crate) verdict: Verdict,
    // the joined fragments of the first leaves, until the last leaf is closed
    pub(crate) front: Option<Joiner>,
    // whether fragments are joined before the last leaf is closed: no longer after the joined text became too long
    pub(crate) is_joining: bool,
}

impl Model for Coordinator {
    ghost use Rattle.std.specs.Prelude.{◌≡◌, ◌+◌, length, unwrap_or};
    ghost use Rattle.cube_split.specs.Definitions.{base_with};
    ghost use Rattle.dimacs.specs.logic.Base.{pure_literals};
    ghost use Rattle.coordinator_core.specs.Coordinator.{CoordinatorState};
    ghost use Rattle.coordinator_core.specs.Invariant.{IsCoordinator};
    ghost use Rattle.coordinator_core.specs.NextJob.{next_of};
    ghost use Rattle.coordinator_core.specs.inner.Fronts.{IsJoined};
    ghost use Rattle.coordinator_core.specs.inner.LeafTable.{HasRoom};

    ghost Value = { CoordinatorState };

    ghost view = { λ c. record {
      formula = c.formula;
      definitions = record { wanted = c.defs; pairs = c.preamble.pairs };
      session = c.session;
      limit = c.limit;
      initial_tree = c.initial_tree;
      tree = c.tree;
      leaves = c.leaves.states;
      fragments = c.leaves.fragments;
      jobs = c.jobs.items;
      wants = c.wants.items;
      next = next_of c.next;
      stuck = c.stuck;
      verdict = c.verdict;
    } };

    ghost invariant = { λ c. (c.preamble.units ≡ pure_literals c.formula) × (unwrap_or c.base c.formula ≡ base_with c.formula c.preamble.pairs) × IsCoordinator (record {
      formula = c.formula;
      definitions = record { wanted = c.defs; pairs = c.preamble.pairs };
      session = c.session;
      limit = c.limit;
      initial_tree = c.initial_tree;
      tree = c.tree;
      leaves = c.leaves.states;
      fragments = c.leaves.fragments;
      jobs = c.jobs.items;
      wants = c.wants.items;
      next = next_of c.next;
      stuck = c.stuck;
      verdict = c.verdict;
    }) × HasRoom (c.formula.vars + length c.preamble.pairs) c.chooser × IsJoined c.formula c.preamble.pairs c.tree c.leaves.states c.leaves.fragments c.front };
}

impl Drop for Coordinator {
    fn drop(self) {
        let Coordinator {
            alloc: _,
            formula: _,
            defs: _,
            preamble: _,
            chooser: _,
            base: _,
            session: _,
            limit: _,
            initial_tree: _,
            tree: _,
            leaves: _,
            jobs: _,
            wants: _,
            next: _,
            stuck: _,
            verdict: _,
            front: _,
            is_joining: _,
        } = self;
    }
}

/// Makes one slot for each of `workers` workers, all empty: no worker has a job.
#[tactic(auto, using(crate::proofs::TableLemmas::rows))]
fn no_jobs(alloc: Global, workers: usize) -> Result<Vec<Option<Job>>, AllocError>
    ensures { IfOk result (λ v. v.items ≡ replicate workers None) }
{
    let mut jobs = Vec::with_capacity(alloc, workers)?;
    for _ in 0..workers {
        jobs.push(None)?;
    }
    Ok(jobs)
}

/// Makes one slot for each of `workers` workers, all empty: no worker has sent a Want, which names
/// the offset of the bytes of the verdict that it needs next.
fn no_wants(alloc: Global, workers: usize) -> Result<Vec<Option<u32>>, AllocError>
    ensures { IfOk result (λ v. v.items ≡ replicate workers None) }
{
    Ok(vec![in alloc; None; workers]?)
}

impl Coordinator {
    /// Makes a coordinator without definitions: all leaves are open, and no verdict is held. The tree has to be over the formula's
    /// variables, and over those of frames if they are more than 1,000,000; and there are 1 to 64 workers. All memory that the coordinator
    /// itself needs before the first Done is reserved here.
    pub fn new(
        alloc: Global,
        formula: Formula,
        tree: Tree,
        limit: u64,
        workers: u32,
        session: u64,
    ) -> Result<Coordinator, AllocError>
        requires inside { All (IsOverBase formula) tree }
        requires narrow { 1000000 < formula.vars → All (All (IsWithin 2000000)) tree }
        requires workers { (1 ≤ workers) × (workers ≤ 64) }
        ensures { IfOk result (λ c. c ≡ new_coordinator formula tree limit workers session) }
    {
        Coordinator::with_defs(alloc, formula, tree, limit, workers, session, 0)
    }

    /// Makes a coordinator over a base with `defs` definitions, 0 to 64, or fewer if no further pair of literals can be defined. All leaves
    /// are open, and no verdict is held. The tree has to be over the base's variables, and over those of frames if the formula has more
    /// than 1,000,000.
    pub fn with_defs(
        alloc: Global,
        formula: Formula,
        tree: Tree,
        limit: u64,
        workers: u32,
        session: u64,
        defs: u32,
    ) -> Result<Coordinator, AllocError>
        requires defs { defs ≤ 64 }
        requires inside { (B : Cnf) → IsBaseWith formula defs B → All (IsOverBase B) tree }
        requires narrow { 1000000 < formula.vars → All (All (IsWithin 2000000)) tree }
        requires workers { (1 ≤ workers) × (workers ≤ 64) }
        ensures { IfOk result (λ c. (d : Definitions) × AreOf formula d × (d.wanted ≡ defs) × (c ≡ record (new_coordinator formula tree limit workers session) { definitions = d })) }
    {
        let opened = Opened::of(alloc, formula, defs)?;
        Coordinator::of(alloc, opened, tree, limit, workers, session)
    }

    /// Makes a coordinator over a formula whose preamble (pure literals and definitions) is known. All leaves are open, and no verdict is
    /// held.
    pub fn of(
        alloc: Global,
        opened: Opened,
        tree: Tree,
        limit: u64,
        workers: u32,
        session: u64,
    ) -> Result<Coordinator, AllocError>
        requires inside { (B : Cnf) → IsBaseWith opened.formula opened.definitions.wanted B → All (IsOverBase B) tree }
        requires narrow { 1000000 < opened.formula.vars → All (All (IsWithin 2000000)) tree }
        requires workers { (1 ≤ workers) × (workers ≤ 64) }
        ensures { IfOk result (λ c. c ≡ record (new_coordinator opened.formula tree limit workers session) { definitions = opened.definitions }) }
    {
        let (formula, defs, preamble) = opened.into_parts();
        let _ = formula.vars(); // ensures that the formula is within its limits
        let base = preamble.own_base(alloc, &formula)?;
        let initial_tree = tree.copy(alloc)?;
        let leaves = LeafTable::new(alloc, tree.leaves())?;
        let jobs = no_jobs(alloc, workers as usize)?;
        let wants = no_wants(alloc, workers as usize)?;
        Ok(Coordinator {
            alloc,
            formula,
            defs,
            preamble,
            chooser: None,
            base,
            session,
            limit,
            initial_tree,
            tree,
            leaves,
            jobs,
            wants,
            next: Some(1),
            stuck: false,
            verdict: Verdict::Nothing,
            front: None,
            is_joining: true,
        })
    }

    /// Restarts the coordinator in another session, with its initial tree and its definitions. If memory is refused, the coordinator is
    /// unchanged.
    pub fn restart(&mut self, session: u64) -> Result<(), AllocError>
        ensures ok { OnOk result (self.new ≡ restarted_coordinator self.old session) }
        ensures err { OnErr result (self.new ≡ self.old) }
    {
        let tree = self.initial_tree.copy(self.alloc)?;
        let leaves = LeafTable::new(self.alloc, tree.leaves())?;
        let workers = self.jobs.len();
        let jobs = no_jobs(self.alloc, workers)?;
        let wants = no_wants(self.alloc, workers)?;
        self.session = session;
        self.tree = tree;
        self.leaves = leaves;
        self.jobs = jobs;
        self.wants = wants;
        self.next = Some(1);
        self.stuck = false;
        self.verdict = Verdict::Nothing;
        self.front = None;
        self.is_joining = true;
        Ok(())
    }

    /// Returns the formula.
    pub fn formula(&self) -> &Formula
        ensures { result.now ≡ self.now.formula }
    {
        &self.formula
    }

    /// Returns the number of the session.
    #[inline]
    pub fn session(&self) -> u64
        ensures { result ≡ self.now.session }
    {
        self.session
    }

    /// Returns the number of workers, 1 to 64.
    #[inline]
    pub fn workers(&self) -> u32
        ensures value { result ≡ length self.now.jobs }
        ensures above { 1 ≤ result }
        ensures below { result ≤ 64 }
    {
        self.jobs.len() as u32
    }

    /// Returns the verdict and drops the rest of the coordinator.
    pub fn into_verdict(self) -> Verdict
        ensures value { result ≡ self.verdict }
        ensures right { Right self.formula result }
    {
        let Coordinator {
            alloc: _,
            formula: _,
            defs: _,
            preamble: _,
            chooser: _,
            base: _,
            session: _,
            limit: _,
            initial_tree: _,
            tree: _,
            leaves: _,
            jobs: _,
            wants: _,
            next: _,
            stuck: _,
            verdict,
            front: _,
            is_joining: _,
        } = self;
        verdict
    }

    /// Returns the allocator.
    #[inline]
    pub(crate) fn alloc(&self) -> Global {
        self.alloc
    }
}
