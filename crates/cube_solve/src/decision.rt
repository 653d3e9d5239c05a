//! The choice of the next assumption or decision.

ghost use Rattle.std.specs.Prelude.{◌≡◌, ◌<◌, ◌^◌, List, All};
ghost use Rattle.dimacs.specs.logic.Literal.{Literal, IsWithin};
ghost use Rattle.cube_solve.specs.Conflicts.{AllHold};
ghost use Rattle.cube_solve.specs.inner.DecisionOrder.{IsTaken};
ghost use Rattle.cube_solve.specs.inner.State.{IsAssuming};
ghost use Rattle.cube_solve.specs.inner.Steps.{AreHeld, IsNext};

use crate::decision_order::Order;
use dimacs::Lit;
use watches::{Trail, Truth};

/// The next step of a descent if nothing is left to propagate.
pub(crate) enum Next {
    /// Assume this literal of the cube, which is unassigned.
    Assume(Lit),
    /// This literal of the cube is false.
    Fails(Lit),
    /// The cube is true: decide this unassigned literal.
    Decide(Lit),
    /// The cube is true, and no unassigned variable waits.
    Done,
}

/// Takes the next unassigned variable of the decision order; `Done` if none waits. It is called if the cube is true.
fn decide(trail: &Trail, order: &mut Order) -> Next
    requires vars { order.old.vars ≡ trail.now.vars }
    requires limit { trail.now.vars < 2 ^ 31 }
    ensures next { (cube : List Literal) → AllHold trail.now.entries cube → IsNext trail.now cube result }
    ensures taken { IsTaken trail.now result order.old order.new }
{
    match order.next_decision(trail) {
        Some(literal) => Next::Decide(literal),
        None => Next::Done,
    }
}

/// Picks the first literal of the cube that is not true, or the next decision if the cube is true. Raises `held`, the number of first
/// literals of the cube that are known to be true. Above level `assumed` the cube is true and is not read.
pub(crate) fn pick(
    trail: &Trail,
    cube: &[Lit],
    held: &mut usize,
    assumed: u32,
    order: &mut Order,
) -> Next
    requires cube { All (IsWithin trail.now.vars) cube.now }
    requires held { AreHeld held.old cube.now trail.now.entries }
    requires order { order.old.vars ≡ trail.now.vars }
    requires limit { trail.now.vars < 2 ^ 31 }
    requires assumed { IsAssuming cube.now trail.now.entries assumed }
    ensures next { IsNext trail.now cube.now result }
    ensures taken { IsTaken trail.now result order.old order.new }
    ensures held { AreHeld held.new cube.now trail.now.entries }
{
    if trail.level() > assumed {
        return decide(trail, order);
    }
    while *held < cube.len() {
        let literal = cube[*held];
        match trail.value(literal) {
            Truth::True => *held += 1,
            Truth::False => return Next::Fails(literal),
            Truth::Free => return Next::Assume(literal),
        }
    }
    decide(trail, order)
}
