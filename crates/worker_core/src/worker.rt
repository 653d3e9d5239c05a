//! A worker: its fields, how it is made and restarted, and what it can be asked.

ghost use Rattle.std.specs.Prelude.{◌≡◌, ◌≤◌, ℕ, IfOk, MatchOption, Some, None};
ghost use Rattle.dimacs.specs.logic.Cnf.{Cnf};
ghost use Rattle.cube_split.specs.Definitions.{base_with};
ghost use Rattle.cube_split.specs.Pairs.{IsBaseWith};
ghost use Rattle.lrat_check.specs.Verdicts.{Right};
ghost use Rattle.worker_core.specs.Worker.{found_bytes, new_worker, restarted_worker};

use crate::candidate::Candidate;
use crate::proof_checker::ProofChecker;
use crate::work::Work;
use cube_split::{Opened, without_definitions};
use dimacs::{Base, Formula};
use evidence::JobName;
use frames::WorkerNumber;
use lrat_check::Verdict;
use packed_text::PackedText;
use std::alloc::{AllocError, Global};
use std::marker::Model;

/// A worker: its formula and base, its work, the candidate that it receives, and the verdict that it holds.
pub struct Worker {
    pub(crate) alloc: Global,
    pub(crate) formula: Formula,
    /// The number of definitions asked for, at most 64.
    pub(crate) defs: u32,
    /// The base that is searched, if that is not the formula alone.
    pub(crate) base: Option<Base>,
    pub(crate) number: WorkerNumber,
    pub(crate) incarnation: u64,
    /// The name of the last task taken since the worker was made or restarted.
    pub(crate) last: Option<JobName>,
    pub(crate) work: Work,
    pub(crate) candidate: Option<Candidate>,
    /// Checks the candidate while its bytes are received. No contract names it: it only makes the check at the last byte shorter.
    pub(crate) checker: Option<ProofChecker>,
    pub(crate) verdict: Verdict,
}

impl Model for Worker {
    ghost use Rattle.std.specs.Prelude.{unwrap_or};
    ghost use Rattle.worker_core.specs.Worker.{WorkerState};
    ghost use Rattle.worker_core.specs.inner.Invariant.{IsWorker};

    ghost Value = { WorkerState };

    ghost view = { λ w. record {
      formula = w.formula;
      wanted = w.defs;
      base = unwrap_or w.base w.formula;
      number = w.number;
      incarnation = w.incarnation;
      last = w.last;
      work = w.work;
      candidate = w.candidate;
      verdict = w.verdict;
    } };

    ghost invariant = { λ w. IsWorker w.formula w.defs (unwrap_or w.base w.formula) w.work w.candidate w.checker w.verdict };
}

// Written by hand, so that a crate above drops a worker by one call, and its proofs need not go through the parts.
impl Drop for Worker {
    fn drop(self) {
        let Worker {
            alloc: _,
            formula: _,
            defs: _,
            base: _,
            number: _,
            incarnation: _,
            last: _,
            work: _,
            candidate: _,
            checker: _,
            verdict: _,
        } = self;
    }
}

impl Worker {
    /// Makes a worker without definitions. Its incarnation has to be one that no earlier worker of this number has had.
    pub fn new(
        alloc: Global,
        formula: Formula,
        number: WorkerNumber,
        incarnation: u64,
    ) -> Result<Worker, AllocError>
        ensures { IfOk result (λ w. w ≡ new_worker formula number incarnation) }
    {
        without_definitions(); // a law: the base is the formula's own
        Worker::with_defs(alloc, formula, number, incarnation, 0)
    }

    /// Makes a worker over a base with `defs` definitions, 0 to 64, or fewer if no further pair of literals can be defined.
    pub fn with_defs(
        alloc: Global,
        formula: Formula,
        number: WorkerNumber,
        incarnation: u64,
        defs: u32,
    ) -> Result<Worker, AllocError>
        requires { defs ≤ 64 }
        ensures { IfOk result (λ w. (B : Cnf) × IsBaseWith formula defs B × (w ≡ record (new_worker formula number incarnation) { wanted = defs; base = B })) }
    {
        Worker::of(
            alloc,
            &Opened::of(alloc, formula, defs)?,
            number,
            incarnation,
        )
    }

    /// Makes a worker over a formula whose preamble (pure literals and definitions) is known.
    pub fn of(
        alloc: Global,
        opened: &Opened,
        number: WorkerNumber,
        incarnation: u64,
    ) -> Result<Worker, AllocError>
        ensures { IfOk result (λ w. w ≡ record (new_worker opened.now.formula number incarnation) { wanted = opened.now.definitions.wanted; base = base_with opened.now.formula opened.now.definitions.pairs }) }
    {
        let formula = opened.formula().copy()?;
        let base = opened.preamble().own_base(alloc, &formula)?;
        Ok(Worker {
            alloc,
            formula,
            defs: opened.defs(),
            base,
            number,
            incarnation,
            last: None,
            work: Work::Free,
            candidate: None,
            checker: None,
            verdict: Verdict::Nothing,
        })
    }

    /// Restarts the worker under another incarnation. Work, candidate and verdict are dropped; the definitions stay. It takes no memory.
    pub fn restart(&mut self, incarnation: u64)
        ensures { self.new ≡ restarted_worker self.old incarnation }
    {
        self.incarnation = incarnation;
        self.last = None;
        self.work = Work::Free;
        self.candidate = None;
        self.checker = None;
        self.verdict = Verdict::Nothing;
    }

    /// Returns the formula.
    pub fn formula(&self) -> &Formula
        ensures { result.now ≡ self.now.formula }
    {
        &self.formula
    }

    /// Returns the worker's number, from 1.
    pub fn number(&self) -> WorkerNumber
        ensures { result ≡ self.now.number }
    {
        self.number
    }

    /// Returns the incarnation.
    pub fn incarnation(&self) -> u64
        ensures { result ≡ self.now.incarnation }
    {
        self.incarnation
    }

    /// Returns the evidence of the kept answer, which Piece frames carry; `None` if no answer is
    /// kept.
    pub fn found(&self) -> Option<&PackedText>
        ensures { MatchOption result (found_bytes self.now.work ≡ None) (λ text. found_bytes self.now.work ≡ Some text.now) }
    {
        match &self.work {
            Work::Found { bytes, .. } => Some(bytes),
            Work::Free | Work::Pending { .. } | Work::Limited { .. } => None,
        }
    }

    /// Returns the verdict that is held; `Verdict::Nothing` if none is.
    pub fn verdict(&self) -> &Verdict
        ensures value { result.now ≡ self.now.verdict }
        ensures right { Right self.now.formula result.now }
    {
        &self.verdict
    }

    /// Returns the verdict that is held and drops the rest of the worker.
    pub fn into_verdict(self) -> Verdict
        ensures value { result ≡ self.verdict }
        ensures right { Right self.formula result }
    {
        let Worker {
            alloc: _,
            formula: _,
            defs: _,
            base: _,
            number: _,
            incarnation: _,
            last: _,
            work: _,
            candidate: _,
            checker: _,
            verdict,
        } = self;
        verdict
    }
}
