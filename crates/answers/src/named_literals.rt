//! The literals that an answer names.

ghost use Rattle.std.specs.Prelude.{◌≡◌, ◌≤◌, ◌<◌, ◌+◌, ◌^◌, ℕ, Bool, List, [], length, slice_index_or, vec_len, true, false, All, IfOk, OnOk, OnErr, None};
ghost use Rattle.std.specs.List.{list_any};
ghost use Rattle.dimacs.specs.logic.Cnf.{Cnf, Sat, IsFormula, assignment_of};
ghost use Rattle.dimacs.specs.logic.Literal.{Pos, negation, index_of};
ghost use Rattle.dimacs.specs.logic.Propagation.{with_literal};
ghost use Rattle.answers.specs.Pieces.{named_by};
ghost use Rattle.answers.specs.Reports.{first_missed};

use dimacs::{Assignment, Formula, Lit, Var};
use std::alloc::{AllocError, Global};
use std::marker::Model;

/// Whether the mark of a literal is set; past the end of the table no mark is.
#[inline(always)]
fn is_marked(marks: &[bool], literal: Lit) -> bool
    ensures { result ≡ named_by marks.now literal }
{
    let place = literal.index();
    place < marks.len() && marks[place]
}

/// Grows a table to at least `places` marks. A new mark is unset, as a read past the end says too.
fn grow(marks: &mut Vec<bool>, places: usize) -> Result<(), AllocError>
    ensures fits { OnOk result (places ≤ vec_len marks.new) }
    ensures same { (i : ℕ) → slice_index_or marks.new.items i false ≡ slice_index_or marks.old.items i false }
{
    if marks.len() < places {
        marks.resize(places, false)?;
    }
    Ok(())
}

/// Sets the mark of a literal.
fn mark(marks: &mut Vec<bool>, literal: Lit) -> Result<(), AllocError>
    ensures ok { OnOk result (named_by marks.new.items ≡ with_literal (named_by marks.old.items) literal) }
    ensures err { OnErr result (named_by marks.new.items ≡ named_by marks.old.items) }
{
    let place = literal.index();
    grow(marks, place + 1)?;
    marks[place] = true;
    Ok(())
}

/// Whether some literal of a clause is named, so that the answer satisfies the clause.
fn meets(marks: &[bool], clause: &[Lit]) -> bool
    ensures { result ≡ list_any (named_by marks.now) clause.now }
{
    clause.iter().any(|l| is_marked(marks, *l))
}

/// Literals that are named, none with its negation: a table of marks up to the greatest variable that was named.
#[derive(Drop)]
pub struct Named {
    marks: Vec<bool>,
}

impl Model for Named {
    ghost use Rattle.std.specs.Prelude.{List, Bool};
    ghost use Rattle.answers.specs.Pieces.{named_by};
    ghost use Rattle.answers.specs.inner.Lines.{HasNoPair};

    ghost Value = { List Bool };

    ghost view = { λ n. n.marks.items };

    ghost invariant = { λ n. HasNoPair (named_by n.marks.items) };
}

impl Named {
    /// A table in which no literal is named.
    pub(crate) fn new(alloc: Global) -> Named
        ensures { result ≡ [] }
    {
        Named {
            marks: Vec::new(alloc),
        }
    }

    /// Whether a literal is named.
    pub fn has(&self, literal: Lit) -> bool
        ensures { result ≡ named_by self.now literal }
    {
        is_marked(&self.marks, literal)
    }

    /// Names a literal, whose negation is not named.
    pub(crate) fn add(&mut self, literal: Lit) -> Result<(), AllocError>
        requires { named_by self.old (negation literal) ≡ false }
        ensures { OnOk result (named_by self.new ≡ with_literal (named_by self.old) literal) }
    {
        mark(&mut self.marks, literal)
    }

    /// The number, from 1, of the first clause of which no literal is named; None if each clause has one. It takes no memory.
    pub fn first_missed(&self, formula: &Formula) -> Option<u64>
        ensures { result ≡ first_missed (named_by self.now) formula.now }
    {
        for i in 0..formula.len() {
            if !meets(&self.marks, formula.clause(i)) {
                return Some(i as u64 + 1);
            }
        }
        None
    }

    /// The assignment of the variables from 1 to `vars` in which a variable is true if its positive literal is named, and else false. It
    /// satisfies each formula of these variables of which no clause is missed.
    pub fn assignment(&self, alloc: Global, vars: u32) -> Result<Assignment, AllocError>
        requires { vars < 2 ^ 31 }
        ensures len { IfOk result (λ a. length a ≡ vars) }
        ensures values { IfOk result (λ a. (v : ℕ) → 1 ≤ v → v ≤ vars → assignment_of a v ≡ named_by self.now (Pos v)) }
        ensures satisfies { IfOk result (λ a. (F : Cnf) → IsFormula F → F.vars ≡ vars → first_missed (named_by self.now) F ≡ None → Sat (assignment_of a) F) }
    {
        let mut values = Vec::with_capacity(alloc, vars as usize)?;
        for v in 0..vars {
            values.push(is_marked(&self.marks, Lit::positive(Var::new(v + 1))))?;
        }
        Ok(Assignment::new(values))
    }
}
