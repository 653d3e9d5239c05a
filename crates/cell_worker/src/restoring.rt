//! What an assignment of the search's clauses says of the formula, and the clauses that come back if it says nothing.
//!
//! If variables are eliminated, the assignment is extended to them and tested on the formula. A clause of the formula that it does not
//! satisfy comes back to the search: its line in the log is that of a lemma with one hint, the clause's own number.

ghost use Rattle.std.specs.Prelude.{◌≡◌, ℕ, ◌+◌, ◌<◌, ◌≤◌, [], length, slice_index_or, All, IfOk, IfSome, MatchOption, OnOk};
ghost use Rattle.std.specs.Bool.{OnTrue};
ghost use Rattle.dimacs.specs.logic.Cnf.{assignment_of};
ghost use Rattle.dimacs.specs.logic.Literal.{IsTautology, IsWithin};
ghost use Rattle.cube_solve.specs.Session.{AllTrue, IsSolution};
ghost use Rattle.cell_worker.specs.WorkerLog.{IsWorkerReady, clock_in, formula_in, gone_in, last_in, names_in, vars_in};
ghost use Rattle.cell_worker.specs.inner.OwnLines.{WritesOwn};

use crate::shared_text::put_lemma;
use crate::worker::CellWorker;
use dimacs::{Assignment, Formula, Lit, satisfies};
use std::alloc::AllocError;
use watches::Propagator;

/// Whether each literal of a query is true.
fn are_true(values: &Assignment, query: &[Lit]) -> bool
    requires { All (IsWithin (length values.now)) query.now }
    ensures { OnTrue result (AllTrue (assignment_of values.now) query.now) }
{
    for literal in query {
        if !values.holds(*literal) {
            return false;
        }
    }
    true
}

/// Whether no literal of a clause is true.
fn is_false(values: &Assignment, clause: &[Lit]) -> bool
    requires { All (IsWithin (length values.now)) clause.now }
    ensures { OnTrue result (¬ (IsTautology clause.now)) }
{
    for literal in clause {
        if values.holds(*literal) {
            return false;
        }
    }
    true
}

/// Whether an assignment satisfies a formula and makes a query true.
fn is_solution(formula: &Formula, query: &[Lit], values: &Assignment) -> bool
    requires whole { length values.now ≡ formula.now.vars }
    requires within { All (IsWithin (length values.now)) query.now }
    ensures { OnTrue result (IsSolution formula.now.vars formula.now.clauses query.now values.now) }
{
    satisfies(values, formula) && are_true(values, query)
}

impl<P: Propagator> CellWorker<'_, P> {
    /// Extends an assignment of the search's clauses to the eliminated variables.
    fn extended(&self, found: Assignment) -> Result<Assignment, AllocError>
        ensures { IfOk result (λ values. length values ≡ length found) }
    {
        match &self.witness {
            Some(witness) => witness.extended(self.alloc, &found),
            None => Ok(found),
        }
    }

    /// Gives the clause of the formula at a place, from 0, to the search, and writes it as a lemma.
    fn give_back(&mut self, place: usize) -> Result<(), AllocError>
        requires ready { IsWorkerReady P.is_ready P.attached self.old }
        requires place { place < length (formula_in self.old).clauses }
        requires plain { ¬ (IsTautology (slice_index_or (formula_in self.old).clauses place [])) }
        ensures ready { OnOk result (IsWorkerReady P.is_ready P.attached self.new) }
        ensures formula { OnOk result (formula_in self.new ≡ formula_in self.old) }
        ensures names { OnOk result (names_in self.new ≡ names_in self.old) }
        ensures vars { OnOk result (vars_in self.new ≡ vars_in self.old) }
        ensures gone { OnOk result (gone_in self.new ≡ gone_in self.old) }
        ensures clock { OnOk result (clock_in self.new ≡ clock_in self.old) }
        ensures last { OnOk result (last_in self.new ≡ last_in self.old + 1) }
        ensures stands { OnOk result (WritesOwn self.old self.new) }
    {
        let formula = self.formula;
        let _ = formula.vars(); // tells the proof a bound of the number of clauses
        let clause = formula.clause(place);
        self.search.give(clause)?;
        let id = self.search.last();
        put_lemma(&mut self.log, id, clause, &[place as u64 + 1])?;
        Ok(())
    }

    /// Gives the clauses of the formula back to the search that have no true literal.
    fn restore(&mut self, values: &Assignment) -> Result<(), AllocError>
        requires ready { IsWorkerReady P.is_ready P.attached self.old }
        requires whole { length values.now ≡ (formula_in self.old).vars }
        ensures ready { OnOk result (IsWorkerReady P.is_ready P.attached self.new) }
        ensures names { OnOk result (names_in self.new ≡ names_in self.old) }
        ensures vars { OnOk result (vars_in self.new ≡ vars_in self.old) }
        ensures gone { OnOk result (gone_in self.new ≡ gone_in self.old) }
        ensures clock { OnOk result (clock_in self.new ≡ clock_in self.old) }
        ensures most { OnOk result (last_in self.new ≤ last_in self.old + length (formula_in self.old).clauses) }
        ensures stands { OnOk result (WritesOwn self.old self.new) }
    {
        let formula = self.formula;
        for place in 0..formula.len() {
            if is_false(values, formula.clause(place)) {
                self.give_back(place)?;
            }
        }
        Ok(())
    }

    /// Extends an assignment that satisfies the search's clauses to one that satisfies the formula and makes the query true. If that is not
    /// possible as elimination expects, the clauses come back to the search that stand against it, and there is none.
    pub(crate) fn settle(
        &mut self,
        query: &[Lit],
        found: Assignment,
    ) -> Result<Option<Assignment>, AllocError>
        requires ready { IsWorkerReady P.is_ready P.attached self.old }
        requires whole { length found ≡ (formula_in self.old).vars }
        requires within { All (IsWithin (vars_in self.old)) query.now }
        ensures ready { OnOk result (IsWorkerReady P.is_ready P.attached self.new) }
        ensures names { OnOk result (names_in self.new ≡ names_in self.old) }
        ensures vars { OnOk result (vars_in self.new ≡ vars_in self.old) }
        ensures gone { OnOk result (gone_in self.new ≡ gone_in self.old) }
        ensures clock { OnOk result (clock_in self.new ≡ clock_in self.old) }
        ensures most { IfOk result (λ settled. MatchOption settled (last_in self.new ≤ last_in self.old + length (formula_in self.old).clauses) (λ values. last_in self.new ≡ last_in self.old)) }
        ensures solution { IfOk result (λ settled. IfSome settled (IsSolution (formula_in self.old).vars (formula_in self.old).clauses query.now)) }
        ensures stands { OnOk result (WritesOwn self.old self.new) }
    {
        let values = self.extended(found)?;
        if is_solution(self.formula, query, &values) {
            return Ok(Some(values));
        }
        self.restore(&values)?;
        Ok(None)
    }
}
