//! A tally: in how many clauses each variable occurs.

ghost use Rattle.std.specs.Prelude.{◌≡◌, ◌≢◌, ℕ, ◌+◌, ◌*◌, ◌<◌, ◌≤◌, ◌⊎◌, length, slice_index, take, All, Bool, IfOk, cond, count_by, not, ◌&&◌};
ghost use Rattle.std.specs.List.{list_any};
ghost use Rattle.dimacs.specs.logic.Literal.{Literal, var_of};
ghost use Rattle.cube_split.specs.Choice.{has_variable};
ghost use Rattle.cube_split.specs.inner.Marks.{AreMarked};
ghost use Rattle.cube_split.specs.inner.Tallies.{IsTally, IsClear, AreListed};

use crate::marks::is_apart;
use dimacs::{Formula, Lit, Var};
use std::alloc::{AllocError, Global};

/// The number of clauses in which each variable occurs. Clearing takes as long as counting did, whatever the number of variables.
#[derive(Drop)]
pub(crate) struct Tally {
    /// By variable, the number of its counted clauses.
    pub counts: Vec<usize>,
    /// By variable, the number of the last of its counted clauses, from 1; 0 if there is none.
    pub last: Vec<usize>,
    /// The first `len` entries are the variables that occur in a counted clause, in the order in which they came.
    pub met: Vec<Var>,
    /// The number of variables that occur in a counted clause.
    pub len: usize,
}

impl Tally {
    /// A tally of no clause, for the variables below `rows`.
    pub(crate) fn new(alloc: Global, rows: usize) -> Result<Tally, AllocError>
        requires { 0 < rows }
        ensures { IfOk result (IsClear rows) }
    {
        Ok(Tally {
            counts: vec![in alloc; 0; rows]?,
            last: vec![in alloc; 0; rows]?,
            met: vec![in alloc; Var::new(1); rows]?,
            len: 0,
        })
    }

    /// Counts the clause of this number for one of its variables, unless the variable occurred in
    /// it before, and lists the variable when it is counted for the first time.
    fn meet(&mut self, var: Var, number: usize)
        requires tally { IsTally self.old }
        requires inside { var < length self.old.counts.items }
        requires some { 0 < number }
        requires fits { slice_index self.old.last.items var ≢ number → slice_index self.old.counts.items var < number }
        ensures tally { IsTally self.new }
        ensures size { length self.new.counts.items ≡ length self.old.counts.items }
        ensures count { ((slice_index self.old.last.items var ≡ number) × (slice_index self.new.counts.items var ≡ slice_index self.old.counts.items var))
            ⊎ ((slice_index self.old.last.items var ≢ number) × (slice_index self.new.counts.items var ≡ slice_index self.old.counts.items var + 1)) }
        ensures last { slice_index self.new.last.items var ≡ number }
        ensures others { (w : ℕ) → w ≢ var → (slice_index self.new.counts.items w ≡ slice_index self.old.counts.items w) × (slice_index self.new.last.items w ≡ slice_index self.old.last.items w) }
    {
        let row = var.number() as usize;
        if self.last[row] == number {
            return;
        }
        // No branch: the variable is always written after the others, and `len` grows only if it is new.
        self.met[self.len] = var;
        self.len += (self.last[row] == 0) as usize;
        self.last[row] = number;
        self.counts[row] += 1;
    }

    /// Counts the clause of this number, from 1, once for each of its variables.
    fn count_clause(&mut self, clause: &[Lit], number: usize)
        requires tally { IsTally self.old }
        requires within { All (λ l. var_of l < length self.old.counts.items) clause.now }
        requires some { 0 < number }
        requires counted { (w : ℕ) → w < length self.old.counts.items → slice_index self.old.counts.items w < number }
        requires earlier { (w : ℕ) → w < length self.old.counts.items → slice_index self.old.last.items w < number }
        ensures tally { IsTally self.new }
        ensures size { length self.new.counts.items ≡ length self.old.counts.items }
        ensures counts { (w : ℕ) → w < length self.old.counts.items → slice_index self.new.counts.items w ≡ slice_index self.old.counts.items w + cond (has_variable clause.now w) 1 0 }
        ensures last { (w : ℕ) → w < length self.old.counts.items → slice_index self.new.last.items w ≤ number }
    {
        for literal in clause {
            self.meet(literal.var(), number);
        }
    }

    /// Counts for each variable the clauses without a marked literal in which it occurs. All counts are 0 before.
    pub(crate) fn count_clauses(&mut self, marks: &[bool], formula: &Formula)
        requires clear { IsClear (length self.old.counts.items) self.old }
        requires marks { length marks.now ≡ 2 * length self.old.counts.items }
        requires within { formula.now.vars < length self.old.counts.items }
        ensures tally { IsTally self.new }
        ensures size { length self.new.counts.items ≡ length self.old.counts.items }
        ensures counts { (test : Literal → Bool) → AreMarked marks.now test → (w : ℕ) → w < length self.old.counts.items →
            slice_index self.new.counts.items w ≡ count_by (λ C. not (list_any test C) && has_variable C w) formula.now.clauses }
    {
        for i in 0..formula.len() {
            let clause = formula.clause(i);
            if is_apart(marks, clause) {
                self.count_clause(clause, i + 1);
            }
        }
    }

    /// The variables that occur in a counted clause, each once.
    pub(crate) fn variables(&self) -> &[Var]
        requires { IsTally self.now }
        ensures { AreListed self.now.counts.items result.now }
    {
        &self.met[..self.len]
    }

    /// Hands out the variables that occur in a counted clause, and the counts.
    pub(crate) fn into_parts(self) -> (Vec<Var>, Vec<usize>)
        requires { IsTally self }
        ensures listed { AreListed self.counts.items result.0.items }
        ensures counts { result.1.items ≡ self.counts.items }
    {
        let mut variables = self.met;
        variables.truncate(self.len);
        (variables, self.counts)
    }

    /// Sets all counts to 0. Only the listed variables are visited, so the time is that of the
    /// counted clauses and not of all variables.
    pub(crate) fn clear(&mut self)
        requires { IsTally self.old }
        ensures { IsClear (length self.old.counts.items) self.new }
    {
        clear(&mut self.counts, &mut self.last, &self.met[..self.len]);
        self.len = 0;
    }
}

/// Sets the counts and clause numbers of these variables to 0, before the next tally.
fn clear(counts: &mut [usize], last: &mut [usize], variables: &[Var])
    requires last { length last.old ≡ length counts.old }
    requires within { All (λ v. v < length counts.old) variables.now }
    ensures cleared { (k : ℕ) → k < length variables.now → (slice_index counts.new (slice_index variables.now k) ≡ 0) × (slice_index last.new (slice_index variables.now k) ≡ 0) }
    ensures others { (w : ℕ) → ((slice_index counts.new w ≡ slice_index counts.old w) × (slice_index last.new w ≡ slice_index last.old w)) ⊎ ((slice_index counts.new w ≡ 0) × (slice_index last.new w ≡ 0)) }
{
    for var in variables {
        let row = var.number() as usize;
        counts[row] = 0;
        last[row] = 0;
    }
}
