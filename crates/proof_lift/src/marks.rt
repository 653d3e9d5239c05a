//! A partial assignment as a table of stamps by literal: a literal is assumed if its stamp is the line's number, so no assumption has to
//! be undone.

ghost use Rattle.std.specs.Prelude.{◌≡◌, ◌+◌, length, OnOk};
ghost use Rattle.std.specs.Bool.{OnFalse};
ghost use Rattle.dimacs.specs.logic.Literal.{Clause};
ghost use Rattle.dimacs.specs.logic.Propagation.{negations};
ghost use Rattle.lrat_check.specs.StepFaults.{is_tautology};
ghost use Rattle.lrat_check.specs.inner.LiteralTable.{FitsTable};
ghost use Rattle.proof_lift.specs.LiftedText.{is_met};
ghost use Rattle.proof_lift.specs.TrimmedLemma.{union};
ghost use Rattle.proof_lift.specs.inner.Tables.{marked, AllBelow};

use crate::status::is_marked;
use dimacs::Lit;
use std::alloc::AllocError;

/// Marks the negation of each literal of a clause. If the clause is a tautology, it stops and returns true.
pub(crate) fn assume_negations(marks: &mut [u64], stamp: u64, lits: &[Lit]) -> bool
    requires table { FitsTable (length marks.old) lits.now }
    requires unused { AllBelow stamp marks.old }
    ensures pair { result ≡ is_tautology lits.now }
    ensures assumed { OnFalse result (marked marks.new stamp ≡ negations lits.now) }
    ensures places { length marks.new ≡ length marks.old }
    ensures below { AllBelow (stamp + 1) marks.new }
{
    for l in lits {
        if marks[l.index()] == stamp {
            return true;
        }
        marks[l.negate().index()] = stamp;
    }
    false
}

/// Tells whether a clause has a literal of the cube, so that it is true under the cube. The clause
/// is given by marks on the negations of its literals.
pub(crate) fn meets(marks: &[u64], stamp: u64, cube: &[Lit]) -> bool
    requires { FitsTable (length marks.now) cube.now }
    ensures { (C : Clause) → marked marks.now stamp ≡ negations C → result ≡ is_met cube.now C }
{
    for x in cube {
        if is_marked(marks, stamp, x.negate()) {
            return true;
        }
    }
    false
}

/// Adds the cube to a lemma: appends the negation of each literal of the cube that the clause does
/// not have, and marks that literal of the cube as assumed. The negations of the literals of
/// `clause` are marked before and after.
pub(crate) fn join_cube(
    marks: &mut [u64],
    stamp: u64,
    cube: &[Lit],
    clause: &mut Vec<Lit>,
) -> Result<(), AllocError>
    requires table { FitsTable (length marks.old) cube.now }
    requires assumed { marked marks.old stamp ≡ negations clause.old.items }
    requires below { AllBelow (stamp + 1) marks.old }
    ensures clause { OnOk result (clause.new.items ≡ union cube.now clause.old.items) }
    ensures assumed { OnOk result (marked marks.new stamp ≡ negations clause.new.items) }
    ensures places { length marks.new ≡ length marks.old }
    ensures below { AllBelow (stamp + 1) marks.new }
{
    for x in cube {
        if !is_marked(marks, stamp, *x) {
            clause.push(x.negate())?;
            marks[x.index()] = stamp;
        }
    }
    Ok(())
}
