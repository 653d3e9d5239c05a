//! The end of a log: each lemma that is live closes leaves, or is deleted.

ghost use Rattle.std.specs.Prelude.{◌≡◌, ◌≢◌, ℕ, ◌+◌, ◌^◌, ◌<◌, ◌≤◌, ◌++◌, ◌∷◌, [], true, false, List, Some, None, All, length, max, OnOk, OnErr, IfOk, IfErr};
ghost use Rattle.std.specs.FinMap.{get};
ghost use Rattle.std.specs.List.{list_any};
ghost use Rattle.dimacs.specs.logic.ClauseMap.{map_of};
ghost use Rattle.dimacs.specs.logic.Cnf.{Cnf};
ghost use Rattle.icnf.specs.Leaves.{Cube};
ghost use Rattle.lrat_text.specs.Grammar.{IsClauseNumber};
ghost use Rattle.lrat_text.specs.Runs.{after_steps, text_of};
ghost use Rattle.lrat_text.specs.declared.step.Step.{Step};
ghost use Rattle.proof_join.specs.RenumberedSteps.{behind};
ghost use Rattle.log_join.specs.ClosedLeaves.{can_close};
ghost use Rattle.log_join.specs.JoinedLogs.{Handed, deletions};
ghost use Rattle.log_join.specs.Written.{Appends, BetweenLogs, AtLogEnd, NoneLive, leaves_of};
ghost use Rattle.log_join.specs.inner.JoinerSteps.{Closes, Spends};

use crate::fault::LogJoinFault;
use crate::leaf_lookup::find;
use crate::lemma::Candidate;
use crate::log_joiner::LogJoiner;
use crate::places::whole;
use crate::tree::close_below;
use dimacs::Lit;
use lrat_text::{StepRef, put_ref};
use std::alloc::{AllocError, Global};

/// The greatest number of numbers in a line of deletions.
const LINE: usize = 1000;

/// Returns the lines that delete these numbers, at most 1,000 a line; each line begins with `top`.
fn deletion_lines(alloc: Global, ids: &[u64], top: u64) -> Result<Vec<u8>, AllocError>
    requires ids { All IsClauseNumber ids.now }
    requires top { IsClauseNumber top }
    ensures { IfOk result (λ text. text.items ≡ text_of top (deletions ids.now)) }
{
    let mut text = Vec::new(alloc);
    let mut rest = ids;
    while !rest.is_empty() {
        let (line, more) = rest.split_at(rest.len().min(LINE));
        put_ref(StepRef::Delete { ids: line }, top, &mut text)?;
        rest = more;
    }
    Ok(text)
}

impl LogJoiner {
    /// Closes the open leaves that a lemma closes, and tells whether there was one. `id` is the lemma's number in the joined proof.
    fn close(&mut self, id: u64, lits: &[Lit]) -> Result<bool, AllocError>
        requires { IsClauseNumber id }
        ensures { IfOk result (λ b. Closes self.old self.new (record { id = id; clause = lits.now }) b) }
    {
        if !find(&self.index, lits, &self.unclosed, &mut self.found) {
            return Ok(false);
        }
        let lemma = Candidate {
            id,
            clause: lits,
            found: &self.found,
        };
        close_below(
            self.alloc,
            &mut self.tree,
            whole(),
            lemma,
            &mut self.unclosed,
        )
    }

    /// Notes a number of the joined proof, which the line at the end of this log deletes.
    fn delete(&mut self, id: u64) -> Result<(), AllocError>
        requires { IsClauseNumber id }
        ensures { OnOk result (Spends self.old self.new id) }
    {
        self.spent.push(id)?;
        Ok(())
    }

    /// Takes a lemma that is live at the end of an accepted log: it closes all open leaves that it
    /// can close, or is noted to be deleted, since no fork will need it. Tells whether it closed a
    /// leaf. The lemmas come by rising numbers, under their numbers in the log.
    ///
    /// After an error the log cannot go on. `TooLong` is never answered for a number whose line was
    /// written.
    pub fn settle(&mut self, number: u64, lits: &[Lit]) -> Result<bool, LogJoinFault>
        requires { 1 ≤ number }
        ensures settled { OnOk result ((F : Cnf) (cubes : List Cube) (logs : List Handed) (log : List Step) (n : ℕ) (written : List ℕ)
            → AtLogEnd F cubes logs (record { steps = log; accepted = true }) n self.old written
            → n ≤ number → NoneLive (after_steps (map_of F) log) n number → get (after_steps (map_of F) log) number ≡ Some lits.now
            → AtLogEnd F cubes logs (record { steps = log; accepted = true }) (number + 1) self.new written) }
        ensures told { IfOk result (λ b. (F : Cnf) (cubes : List Cube) (logs : List Handed) (log : List Step) (n : ℕ) (written : List ℕ)
            → AtLogEnd F cubes logs (record { steps = log; accepted = true }) n self.old written
            → n ≤ number → get (after_steps (map_of F) log) number ≡ Some lits.now
            → b ≡ list_any (can_close (record { id = behind self.old.base self.old.begun number; clause = lits.now })) (leaves_of self.old)) }
        ensures long { IfErr result (λ f. f ≡ LogJoinFault.TooLong → 2 ^ 48 ≤ behind self.old.base self.old.begun number) }
        ensures open { IfErr result (λ f. f ≢ LogJoinFault.Open) }
    {
        let id = match self.shift().number(number) {
            Some(id) => id,
            None => return Err(LogJoinFault::TooLong),
        };
        let closed = self.close(id, lits)?;
        if closed {
            return Ok(true);
        }
        self.delete(id)?;
        Ok(false)
    }

    /// Takes a lemma that is live at the end of a refused log: it closes nothing, and is noted to
    /// be deleted. The lemmas come by rising numbers, under their numbers in the log.
    ///
    /// After an error the log cannot go on. `TooLong` is never answered for a number whose line was
    /// written.
    pub fn spend(&mut self, number: u64) -> Result<(), LogJoinFault>
        requires { 1 ≤ number }
        ensures spent { OnOk result ((F : Cnf) (cubes : List Cube) (logs : List Handed) (log : List Step) (n : ℕ) (written : List ℕ)
            → AtLogEnd F cubes logs (record { steps = log; accepted = false }) n self.old written
            → n ≤ number → NoneLive (after_steps (map_of F) log) n number → ¬ (get (after_steps (map_of F) log) number ≡ None)
            → AtLogEnd F cubes logs (record { steps = log; accepted = false }) (number + 1) self.new written) }
        ensures long { IfErr result (λ f. f ≡ LogJoinFault.TooLong → 2 ^ 48 ≤ behind self.old.base self.old.begun number) }
        ensures open { IfErr result (λ f. f ≢ LogJoinFault.Open) }
    {
        let moved = match self.shift().number(number) {
            Some(moved) => moved,
            None => return Err(LogJoinFault::TooLong),
        };
        self.delete(moved)?;
        Ok(())
    }

    /// Ends the log: appends the deletions that were noted, at most 1,000 numbers a line. If memory is refused, `out` and the joiner are
    /// unchanged.
    pub fn end(&mut self, out: &mut Vec<u8>) -> Result<(), AllocError>
        ensures ended { OnOk result (Appends out.old.items out.new.items (λ more. (F : Cnf) (cubes : List Cube) (logs : List Handed) (h : Handed) (n : ℕ) (written : List ℕ)
            → AtLogEnd F cubes logs h n self.old written → ((k : ℕ) → n ≤ k → get (after_steps (map_of F) h.steps) k ≡ None)
            → BetweenLogs F cubes (logs ++ h ∷ []) self.new (written ++ more))) }
        ensures err { OnErr result ((out.new.items ≡ out.old.items) × (self.new ≡ self.old)) }
    {
        let lines = deletion_lines(self.alloc, &self.spent, self.top.max(1))?;
        out.extend_from_slice(&lines)?;
        self.spent.clear();
        Ok(())
    }
}
