//! The status of one clause under a trail.

ghost use Rattle.std.specs.Prelude.{◌≡◌, All};
ghost use Rattle.dimacs.specs.logic.Literal.{IsWithin};
ghost use Rattle.watches.specs.Status.{HasStatus};

use crate::trail::Trail;
use crate::truth::Truth;
use dimacs::Lit;

/// The status of a clause under a trail.
#[derive(Clone, Copy, Debug, PartialEq, Eq)]
pub enum Status {
    /// Each literal is false.
    False,
    /// This literal is unassigned, and each other literal is false.
    Unit(Lit),
    /// Neither: a literal is true, or two are unassigned.
    Other,
}

/// Tests a clause under a trail. A unit clause may repeat its unassigned literal.
pub fn test_clause(literals: &[Lit], trail: &Trail) -> Status
    requires { All (IsWithin trail.now.vars) literals.now }
    ensures { HasStatus trail.now.entries literals.now result }
{
    let mut free: Option<Lit> = None;
    for &literal in literals {
        match trail.value(literal) {
            Truth::True => return Status::Other,
            Truth::False => {}
            Truth::Free => match free {
                None => free = Some(literal),
                Some(other) => {
                    if other != literal {
                        return Status::Other;
                    }
                }
            },
        }
    }
    match free {
        None => Status::False,
        Some(literal) => Status::Unit(literal),
    }
}
