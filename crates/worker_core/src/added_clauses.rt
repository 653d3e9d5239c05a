//! Clauses are added to the formula of a worker.

ghost use Rattle.std.specs.Prelude.{◌≡◌, OnOk, OnErr};
ghost use Rattle.dimacs.specs.logic.Cnf.{Cnf};
ghost use Rattle.cube_split.specs.Pairs.{IsBaseWith};
ghost use Rattle.lrat_check.specs.Verdicts.{Right};
ghost use Rattle.worker_core.specs.AddedClauses.{ExtendsWorker};
ghost use Rattle.worker_core.specs.Worker.{new_worker};

use crate::worker::Worker;
use dimacs::Extension;
use evidence::{Grown, grow};
use lrat_check::{Reaction, Verdict};
use std::alloc::AllocError;

impl Worker {
    /// Adds clauses to the worker's formula. The worker is then as newly made from the longer formula, with as many definitions, under this
    /// incarnation, except that it holds what is kept of its verdict: what is right for the longer formula.
    ///
    /// `Refused(4)` if the longer formula would exceed a written limit. After that and after `NoMemory` the worker is unchanged.
    pub fn extend(&mut self, extension: &Extension, incarnation: u64) -> Reaction
        ensures { ExtendsWorker self.old extension.now incarnation result self.new }
    {
        match grow(self.alloc, &self.formula, extension, &self.verdict) {
            Ok(Some(grown)) => match self.restart_extended(grown, incarnation) {
                Ok(()) => Reaction::Taken,
                Err(_) => Reaction::NoMemory,
            },
            Ok(None) => Reaction::Refused(4),
            Err(_) => Reaction::NoMemory,
        }
    }

    /// Restarts the worker with the longer formula and the kept verdict. If memory is refused, the worker is unchanged.
    fn restart_extended(&mut self, grown: Grown, incarnation: u64) -> Result<(), AllocError>
        requires { Right grown.formula grown.verdict }
        ensures ok { OnOk result ((B : Cnf) × IsBaseWith grown.formula self.old.wanted B
            × (self.new ≡ record (new_worker grown.formula self.old.number incarnation) { wanted = self.old.wanted; base = B; verdict = grown.verdict })) }
        ensures err { OnErr result (self.new ≡ self.old) }
    {
        let Grown { formula, verdict } = grown;
        let mut worker = Worker::with_defs(
            self.alloc,
            formula,
            self.number,
            incarnation,
            self.defs,
        )?;
        worker.hold(verdict);
        *self = worker;
        Ok(())
    }

    /// Sets the verdict of a worker that was just made anew: what is kept of the old one, which is
    /// right for the longer formula.
    fn hold(&mut self, verdict: Verdict)
        requires { Right self.old.formula verdict }
        ensures { self.new ≡ record self.old { verdict = verdict } }
    {
        self.verdict = verdict;
    }
}
