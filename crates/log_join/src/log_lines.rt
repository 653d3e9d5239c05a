//! The beginning of a joiner and of a log, and the lines of a log.

ghost use Rattle.std.specs.Prelude.{◌≡◌, ◌≢◌, ℕ, ◌+◌, ◌^◌, ◌<◌, ◌≤◌, ◌++◌, ◌∷◌, [], List, length, max, OnOk, OnErr, IfOk, IfErr};
ghost use Rattle.dimacs.specs.logic.ClauseMap.{map_of};
ghost use Rattle.dimacs.specs.logic.Cnf.{Cnf};
ghost use Rattle.icnf.specs.Leaves.{Cube};
ghost use Rattle.lrat_text.specs.Grammar.{IsStepWithin};
ghost use Rattle.lrat_text.specs.Log.{IsLogStep, log_top, top_after};
ghost use Rattle.lrat_text.specs.Runs.{after_steps, top_of};
ghost use Rattle.lrat_text.specs.Steps.{step_of};
ghost use Rattle.lrat_text.specs.WrittenLine.{line_of};
ghost use Rattle.lrat_text.specs.declared.step.Step.{Step};
ghost use Rattle.proof_join.specs.RenumberedSteps.{behind, renumbered};
ghost use Rattle.log_join.specs.JoinedLogs.{Handed};
ghost use Rattle.log_join.specs.inner.JoinerSteps.{MovesTop};
ghost use Rattle.log_join.specs.Written.{Appends, BetweenLogs, HasNoGroups, WithinLog};

use crate::bits::{WORDS, full};
use crate::fault::LogJoinFault;
use crate::index_builder::index_of;
use crate::line_writer::put_line;
use crate::log_joiner::LogJoiner;
use crate::numbers::Shift;
use crate::tree::grow;
use icnf::Tree;
use lrat_text::StepRef;
use std::alloc::{AllocError, Global};

impl LogJoiner {
    /// Makes a joiner over a formula of `clauses` clauses: nothing is written, and every leaf is open.
    pub fn of(alloc: Global, tree: &Tree, clauses: u64) -> Result<LogJoiner, AllocError>
        requires { clauses < 2 ^ 48 }
        ensures { IfOk result (λ g. (F : Cnf) → F.vars ≤ 199999999 → length F.clauses ≡ clauses → BetweenLogs F tree.now [] g []) }
    {
        let _ = tree.leaves(); // for proofs: at most 65,536 leaves
        let mut next = 0;
        let node = grow(alloc, tree, &mut next, 0)?;
        let index = index_of(alloc, &node)?;
        let unclosed = full(alloc, WORDS)?;
        Ok(LogJoiner {
            alloc,
            base: clauses,
            begun: clauses,
            top: clauses,
            tree: node,
            index,
            unclosed,
            found: vec![in alloc; 0; WORDS]?,
            spent: Vec::new(alloc),
            numbers: Vec::new(alloc),
        })
    }

    /// Begins a log: its lemmas get the numbers after the greatest number so far.
    pub fn begin(&mut self)
        ensures { (F : Cnf) (cubes : List Cube) (logs : List Handed) (written : List ℕ)
            → BetweenLogs F cubes logs self.old written → WithinLog F cubes logs [] self.new written }
    {
        self.begun = self.top;
    }

    /// Returns how the numbers of this log are changed: its lemmas follow the greatest number that
    /// was written before it.
    pub(crate) fn shift(&self) -> Shift
        ensures base { result.base ≡ self.now.base }
        ensures begun { result.begun ≡ self.now.begun }
    {
        Shift {
            base: self.base,
            begun: self.begun,
        }
    }

    /// Appends a step of the log under its new numbers. On an error `out` is unchanged. `TooLong` if a new number would reach 2^48.
    fn put(&mut self, step: StepRef<'_>, out: &mut Vec<u8>) -> Result<(), LogJoinFault>
        requires limits { IsStepWithin 199999999 (step_of step) }
        requires groups { HasNoGroups (step_of step) }
        ensures text { OnOk result (out.new.items ≡ out.old.items ++ line_of (max 1 self.old.top) (renumbered (behind self.old.base self.old.begun) (step_of step.entry))) }
        ensures fits { OnOk result (IsStepWithin 199999999 (renumbered (behind self.old.base self.old.begun) (step_of step.entry))) }
        ensures after { OnOk result (MovesTop self.old self.new (top_after self.old.top (renumbered (behind self.old.base self.old.begun) (step_of step.entry)))) }
        ensures same { OnErr result (MovesTop self.old self.new self.old.top × (out.new.items ≡ out.old.items)) }
        ensures long { IfErr result (λ f. f ≡ LogJoinFault.TooLong → ¬ (IsStepWithin 199999999 (renumbered (behind self.old.base self.old.begun) (step_of step.entry)))) }
        ensures open { IfErr result (λ f. f ≢ LogJoinFault.Open) }
    {
        let shift = self.shift();
        let before = self.top.max(1);
        match step {
            StepRef::Add {
                id,
                lits,
                hints,
                groups,
            } => {
                shift.all(hints, &mut self.numbers)?;
                let id = match shift.number(id) {
                    Some(id) => id,
                    None => return Err(LogJoinFault::TooLong),
                };
                let line = StepRef::Add {
                    id,
                    lits,
                    hints: &self.numbers,
                    groups,
                };
                put_line(line, before, out)?;
                self.top = id;
                Ok(())
            }
            StepRef::Delete { ids } => {
                shift.all(ids, &mut self.numbers)?;
                put_line(StepRef::Delete { ids: &self.numbers }, before, out)?;
                Ok(())
            }
        }
    }

    /// Appends a step of the log under its new numbers. On an error `out` is unchanged, and the log
    /// can go on.
    ///
    /// `TooLong` is answered only if a new number would reach 2^48, and then always, except if
    /// memory is refused.
    pub fn line(&mut self, step: StepRef<'_>, out: &mut Vec<u8>) -> Result<(), LogJoinFault>
        requires limits { IsStepWithin 199999999 (step_of step) }
        requires groups { HasNoGroups (step_of step) }
        ensures line { OnOk result (Appends out.old.items out.new.items (λ more. (F : Cnf) (cubes : List Cube) (logs : List Handed) (log : List Step) (written : List ℕ)
            → WithinLog F cubes logs log self.old written → IsLogStep (length F.clauses) (after_steps (map_of F) log) (top_of (length F.clauses) log) (step_of step.entry)
            → IsStepWithin (log_top F) (step_of step.entry) → WithinLog F cubes logs (log ++ step_of step.entry ∷ []) self.new (written ++ more))) }
        ensures err { OnErr result ((out.new.items ≡ out.old.items) × ((F : Cnf) (cubes : List Cube) (logs : List Handed) (log : List Step) (written : List ℕ)
            → WithinLog F cubes logs log self.old written → WithinLog F cubes logs log self.new written)) }
        ensures fits { OnOk result (IsStepWithin 199999999 (renumbered (behind self.old.base self.old.begun) (step_of step.entry))) }
        ensures long { IfErr result (λ f. f ≡ LogJoinFault.TooLong → ¬ (IsStepWithin 199999999 (renumbered (behind self.old.base self.old.begun) (step_of step.entry)))) }
        ensures open { IfErr result (λ f. f ≢ LogJoinFault.Open) }
    {
        self.put(step, out)
    }
}
