//! The split rule: the variable on which a cube is split.

ghost use Rattle.std.specs.Prelude.{◌≡◌, ◌+◌, ◌*◌, ◌<◌, ◌≤◌, ◌++◌, false, List, [], length, All, IfOk};
ghost use Rattle.dimacs.specs.logic.Literal.{Literal, has};
ghost use Rattle.cube_split.specs.Choice.{Choice};
ghost use Rattle.cube_split.specs.ChoiceWithDefinitions.{Chooses, IsChosen};
ghost use Rattle.cube_split.specs.Definitions.{IsPairOf};
ghost use Rattle.cube_split.specs.inner.Marks.{AreMarked};
ghost use Rattle.cube_split.specs.inner.Tallies.{IsClear};

use crate::definitions::{first_undecided, mark_held, unmark_pairs};
use crate::greatest::greatest;
use crate::marks::{mark, unmark};
use crate::pair::Pair;
use crate::tally::Tally;
use crate::units::Preamble;
use dimacs::{Formula, Lit, Var};
use std::alloc::{AllocError, Global};
use std::marker::Model;

/// The tables in which the split rule counts, for formulas of at most the reserved number of variables. Only `reserve` takes memory.
///
/// Between two choices no literal is marked, and every count is 0.
#[derive(Drop)]
pub struct Chooser {
    /// By literal: whether it is one of S, during a choice.
    marks: Vec<bool>,
    /// In how many open clauses each variable occurs, during a choice.
    tally: Tally,
}

impl Model for Chooser {
    ghost use Rattle.std.specs.Prelude.{ℕ, ◌≡◌, ◌-◌, ◌*◌, ◌<◌, false, length};
    ghost use Rattle.cube_split.specs.inner.Marks.{AreMarked};
    ghost use Rattle.cube_split.specs.inner.Tallies.{IsClear};

    ghost Value = { ℕ };

    ghost view = { λ c. length c.tally.counts.items - 1 };

    ghost invariant = { λ c. IsClear (length c.tally.counts.items) c.tally × (length c.marks.items ≡ 2 * length c.tally.counts.items) × AreMarked c.marks.items (λ l. false) };
}

impl Chooser {
    /// Tables for formulas of at most `vars` variables, defined variables included.
    pub fn reserve(alloc: Global, vars: u32) -> Result<Chooser, AllocError>
        ensures { IfOk result (λ c. c ≡ vars) }
    {
        let rows = vars as usize + 1;
        Ok(Chooser {
            marks: vec![in alloc; false; 2 * rows]?,
            tally: Tally::new(alloc, rows)?,
        })
    }

    /// Chooses the variable on which a cube is split. Let S be the literals of preamble and cube, and those of each pair whose defined
    /// variable is in S.
    ///
    /// The lowest defined variable comes first of which neither it nor a variable of its pair has a literal in S. If there is none, it is,
    /// of the variables without a literal in S, the one that occurs in the most clauses without a literal of S (open clauses), and of
    /// several the lowest. None if no such variable occurs in an open clause.
    pub fn choose(&mut self, formula: &Formula, preamble: &Preamble, cube: &[Lit]) -> Option<Var>
        requires room { formula.now.vars + length preamble.now.pairs ≤ self.old }
        requires pairs { All (IsPairOf formula.now.vars) preamble.now.pairs }
        ensures choice { Chooses formula.now preamble.now cube.now result }
        // Without definitions the second rule decides.
        ensures plain { preamble.now.pairs ≡ [] → Choice formula.now (preamble.now.units ++ cube.now) result }
        ensures room { self.new ≡ self.old }
    {
        choose_in(
            &mut self.marks,
            &mut self.tally,
            formula,
            preamble.units(),
            preamble.pairs(),
            cube,
        )
    }
}

/// Chooses the variable on which a cube is split, by tables that are clear before and after; None if there is none.
fn choose_in(
    marks: &mut [bool],
    tally: &mut Tally,
    formula: &Formula,
    units: &[Lit],
    pairs: &[Pair],
    cube: &[Lit],
) -> Option<Var>
    requires clear { IsClear (length tally.old.counts.items) tally.old }
    requires size { length marks.old ≡ 2 * length tally.old.counts.items }
    requires unmarked { AreMarked marks.old (λ l. false) }
    requires room { formula.now.vars + length pairs.now < length tally.old.counts.items }
    requires few { length pairs.now ≤ 64 }
    requires pairs { All (IsPairOf formula.now.vars) pairs.now }
    ensures choice { Chooses formula.now (record { units = units.now; pairs = pairs.now }) cube.now result }
    ensures plain { pairs.now ≡ [] → Choice formula.now (units.now ++ cube.now) result }
    ensures clear { IsClear (length tally.old.counts.items) tally.new }
    ensures unmarked { AreMarked marks.new (λ l. false) }
{
    let vars = formula.vars();
    mark(marks, units);
    mark(marks, cube);
    mark_held(marks, vars, pairs);
    let choice = choose_marked(marks, tally, formula, pairs);
    unmark(marks, units);
    unmark(marks, cube);
    unmark_pairs(marks, pairs);
    choice
}

/// Chooses the variable on which a cube is split if the literals of S are marked: the first undecided defined variable, or by counts. None
/// if there is none.
fn choose_marked(
    marks: &[bool],
    tally: &mut Tally,
    formula: &Formula,
    pairs: &[Pair],
) -> Option<Var>
    requires clear { IsClear (length tally.old.counts.items) tally.old }
    requires size { length marks.now ≡ 2 * length tally.old.counts.items }
    requires room { formula.now.vars + length pairs.now < length tally.old.counts.items }
    requires few { length pairs.now ≤ 64 }
    requires pairs { All (IsPairOf formula.now.vars) pairs.now }
    ensures choice { (S : List Literal) → AreMarked marks.now (has S) → IsChosen formula.now pairs.now S result }
    ensures clear { IsClear (length tally.old.counts.items) tally.new }
{
    let vars = formula.vars();
    if let Some(defined) = first_undecided(marks, vars, pairs) {
        return Some(defined);
    }
    choose_counted(marks, tally, formula)
}

/// Finds the unmarked variable that occurs in the most clauses without a marked literal, and of several the lowest; None if there is none.
fn choose_counted(marks: &[bool], tally: &mut Tally, formula: &Formula) -> Option<Var>
    requires clear { IsClear (length tally.old.counts.items) tally.old }
    requires size { length marks.now ≡ 2 * length tally.old.counts.items }
    requires vars { formula.now.vars < length tally.old.counts.items }
    ensures choice { (S : List Literal) → AreMarked marks.now (has S) → Choice formula.now S result }
    ensures clear { IsClear (length tally.old.counts.items) tally.new }
{
    let _ = formula.vars(); // for proofs: every literal's variable is at most vars
    tally.count_clauses(marks, formula);
    let choice = greatest(marks, &tally.counts, tally.variables());
    tally.clear();
    choice
}
