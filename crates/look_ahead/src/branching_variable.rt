//! The branching variable of a cube.

ghost use Rattle.std.specs.Prelude.{◌↔◌, ◌<◌, ◌^◌, IsTrue, IfOk, IfSome};
ghost use Rattle.dimacs.specs.logic.Cnf.{greatest_in};
ghost use Rattle.icnf.specs.Leaves.{IsFree};
ghost use Rattle.look_ahead.specs.Grown.{MayBeCut};

use crate::lookahead::Choice;
use crate::tree_walk::TreeWalk;
use dimacs::{Formula, Lit, Var, greatest_in};
use std::alloc::{AllocError, Global};

/// Whether the cube has no literal of the variable.
fn is_free(cube: &[Lit], variable: u32) -> bool
    ensures { IsTrue result ↔ IsFree cube.now variable }
{
    cube.iter().all(|l| l.var().number() != variable)
}

/// The variable of a choice, if a cube may be split on it: it is from 1 to `last`, and has no
/// literal in the cube. The rule chooses no other variable, but no proof rests on the rule, so it
/// is tested here. None if the choice is no variable.
pub(crate) fn checked(choice: Choice, cube: &[Lit], last: u32) -> Option<Var>
    requires { last < 2 ^ 31 }
    ensures { IfSome result (MayBeCut last cube.now) }
{
    match choice {
        Choice::Branch(variable) if variable > 0 && variable <= last && is_free(cube, variable) => {
            Some(Var::new(variable))
        }
        _ => None,
    }
}

/// Chooses the branching variable of a cube by lookahead, from 1 to the greatest of the clauses;
/// None if propagation refutes the cube, or leaves no clause open.
pub fn choose(alloc: Global, formula: &Formula, cube: &[Lit]) -> Result<Option<Var>, AllocError>
    ensures { IfOk result (λ found. IfSome found (MayBeCut (greatest_in formula.now.clauses) cube.now)) }
{
    let mut walk = TreeWalk::begin(alloc, formula)?;
    if walk.is_refuted() || !walk.go_to(cube)? {
        return Ok(None);
    }
    let choice = walk.choose()?;
    Ok(checked(choice, cube, greatest_in(formula)))
}
