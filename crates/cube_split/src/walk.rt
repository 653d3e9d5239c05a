//! A walk along literals: the clauses that they leave open, and the variable that occurs in the most of these.

ghost use Rattle.std.specs.Prelude.{◌≡◌, ℕ, ◌+◌, ◌*◌, ◌<◌, ◌≤◌, ◌++◌, ◌∷◌, ◌&&◌, not, Bool, List, [], length, slice_index, count_by, All, IfOk};
ghost use Rattle.std.specs.List.{list_any};
ghost use Rattle.dimacs.specs.logic.Cnf.{Cnf};
ghost use Rattle.dimacs.specs.logic.Literal.{Literal, var_of, has};
ghost use Rattle.icnf.specs.Leaves.{Cube, IsFree};
ghost use Rattle.cube_split.specs.Choice.{Choice, has_variable};
ghost use Rattle.cube_split.specs.inner.Marks.{AreMarked};
ghost use Rattle.cube_split.specs.inner.Tallies.{IsTally};
ghost use Rattle.cube_split.specs.Definitions.{IsPairOf};
ghost use Rattle.cube_split.specs.inner.WalkInvariant.{IsWalkAt, IsClosedBy, from_start, widened};

use crate::definitions::mark_held;
use crate::greatest::greatest;
use crate::marks::{is_apart, marks_of};
use crate::open_clauses::{close, reopen};
use crate::places::Places;
use crate::tally::Tally;
use crate::units::Preamble;
use dimacs::{Formula, Lit, Var};
use std::alloc::{AllocError, Global};

/// The tables of a walk. The units are the literals that hold at the root; the trail has the literals that were entered since.
pub(crate) struct Walk {
    /// The occurrence lists of the formula.
    pub places: Places,
    /// The variables that occur in a clause without a literal of the units.
    pub variables: Vec<Var>,
    /// By literal, whether it is a unit or on the trail.
    pub marks: Vec<bool>,
    /// By clause, the level at which it was closed: 1 by the units, 2 by the first literal of the trail, and so on; 0 if it is open.
    pub closed: Vec<u32>,
    /// By variable, the number of open clauses in which it occurs.
    pub counts: Vec<usize>,
    /// The level of the next literal that is entered.
    pub level: u32,
}

impl Drop for Walk {
    fn drop(self) {
        let Walk {
            places: _,
            variables: _,
            marks: _,
            closed: _,
            counts: _,
            level: _,
        } = self;
    }
}

/// Makes the table of closed clauses at the root: 1, the level of the units, for a clause that
/// contains a marked literal, and 0 for an open one.
fn closed_by_units(alloc: Global, marks: &[bool], formula: &Formula) -> Result<Vec<u32>, AllocError>
    requires { 2 * formula.now.vars + 1 < length marks.now }
    ensures { IfOk result (λ v. (test : Literal → Bool) → AreMarked marks.now test → IsClosedBy test formula.now.clauses v.items) }
{
    let _ = formula.vars(); // for proofs: the formula is within its limits
    let mut closed = Vec::new(alloc);
    for i in 0..formula.len() {
        let level = if is_apart(marks, formula.clause(i)) {
            0
        } else {
            1
        };
        closed.push(level)?;
    }
    Ok(closed)
}

/// Counts for each variable the clauses without a marked literal in which it occurs. `rows` is above each variable.
fn tally_of(
    alloc: Global,
    marks: &[bool],
    formula: &Formula,
    rows: usize,
) -> Result<Tally, AllocError>
    requires rows { formula.now.vars < rows }
    requires marks { length marks.now ≡ 2 * rows }
    ensures tally { IfOk result IsTally }
    ensures counted { IfOk result (λ t. (test : Literal → Bool) → AreMarked marks.now test → (w : ℕ) → w < rows →
        slice_index t.counts.items w ≡ count_by (λ C. not (list_any test C) && has_variable C w) formula.now.clauses) }
    ensures size { IfOk result (λ t. length t.counts.items ≡ rows) }
{
    let mut tally = Tally::new(alloc, rows)?;
    tally.count_clauses(marks, formula);
    Ok(tally)
}

impl Walk {
    /// A walk at the root: the trail is empty, and the units are the preamble's units and the pairs of those that are defined variables.
    pub(crate) fn begin(
        alloc: Global,
        formula: &Formula,
        preamble: &Preamble,
    ) -> Result<Walk, AllocError>
        requires { All (IsPairOf formula.now.vars) preamble.now.pairs }
        ensures { IfOk result (λ s. IsWalkAt (widened formula.now preamble.now) (from_start formula.now preamble.now) [] s) }
    {
        let vars = formula.vars();
        let pairs = preamble.pairs();
        let last = vars + pairs.len() as u32;
        let rows = last as usize + 1;
        let places = Places::of(alloc, formula, rows)?;
        let mut marks = marks_of(alloc, preamble.units(), last)?;
        mark_held(&mut marks, vars, pairs);
        let closed = closed_by_units(alloc, &marks, formula)?;
        let tally = tally_of(alloc, &marks, formula, rows)?;
        let (variables, counts) = tally.into_parts();
        Ok(Walk {
            places,
            variables,
            marks,
            closed,
            counts,
            level: 2,
        })
    }

    /// The variable without a literal in units and trail that occurs in the most open clauses, and of several the lowest; None if there is
    /// none.
    pub(crate) fn choice(&self) -> Option<Var>
        requires { (f : Cnf) × (units : List Literal) × (trail : Cube) × IsWalkAt f units trail self.now }
        ensures { (f : Cnf) (units : List Literal) (trail : Cube) → IsWalkAt f units trail self.now → Choice f (units ++ trail) result }
    {
        greatest(&self.marks, &self.counts, &self.variables)
    }

    /// Puts a literal on the trail, and closes the clauses that contain it.
    pub(crate) fn enter(&mut self, literal: Lit)
        requires { (f : Cnf) × (units : List Literal) × (trail : Cube) × IsWalkAt f units trail self.old × (var_of literal ≤ f.vars) × (length trail ≤ 1000) }
        ensures { (f : Cnf) (units : List Literal) (trail : Cube) → IsWalkAt f units trail self.old → IsWalkAt f units (trail ++ literal ∷ []) self.new }
    {
        self.marks[literal.index()] = true;
        close(
            &self.places,
            &mut self.closed,
            &mut self.counts,
            literal,
            self.level,
        );
        self.level += 1;
    }

    /// Takes this literal, the last one, off the trail, and opens the clauses again that it closed. It is the only literal of its variable
    /// there.
    pub(crate) fn leave(&mut self, literal: Lit)
        requires { (f : Cnf) × (units : List Literal) × (trail : Cube) × IsWalkAt f units (trail ++ literal ∷ []) self.old × IsFree (units ++ trail) (var_of literal) × (var_of literal ≤ f.vars) }
        ensures { (f : Cnf) (units : List Literal) (trail : Cube) → IsWalkAt f units (trail ++ literal ∷ []) self.old → IsFree (units ++ trail) (var_of literal) → IsWalkAt f units trail self.new }
    {
        self.level -= 1;
        self.marks[literal.index()] = false;
        reopen(
            &self.places,
            &mut self.closed,
            &mut self.counts,
            literal,
            self.level,
        );
    }
}
