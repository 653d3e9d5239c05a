//! Searches of small unsatisfiable formulas, alone or under a cube.

ghost use Rattle.dimacs.specs.logic.Literal.{IsWithin};

use super::call::{Answer, Call, Tried, made, try_twice};
use crate::formulas::FOUR;
use cube_solve::{Outcome, solve};
use dimacs::{Base, Lit, Var, read};
use std::alloc::{AllocError, Global};

/// Every clause over three variables.
const EIGHT: &[u8] =
    b"p cnf 3 8\n1 2 3 0\n1 2 -3 0\n1 -2 3 0\n1 -2 -3 0\n-1 2 3 0\n-1 2 -3 0\n-1 -2 3 0\n-1 -2 -3 0\n";

/// A limit that none of these searches meets.
const LIMIT: u64 = 1000;

/// A search of a base, alone or under the literal 1.
#[derive(Drop)]
struct Search {
    alloc: Global,
    base: Base,
    is_under: bool,
}

/// Searches without assumptions.
fn search_alone(alloc: Global, base: &Base) -> Result<Outcome, AllocError> {
    solve(alloc, base, &[], LIMIT)
}

/// Searches under the cube of one literal.
fn search_under(alloc: Global, base: &Base, literal: Lit) -> Result<Outcome, AllocError>
    requires { IsWithin base.now.vars literal }
{
    solve(alloc, base, &[literal], LIMIT)
}

impl Call for Search {
    /// Searches, under the cube 1 if `is_under`.
    fn make(&mut self) -> Answer {
        if self.base.vars() < 1 {
            return Answer::Said("no variable\n");
        }
        let outcome = if self.is_under {
            search_under(self.alloc, &self.base, Lit::positive(Var::new(1)))
        } else {
            search_alone(self.alloc, &self.base)
        };
        match outcome {
            Ok(Outcome::Model(_)) => Answer::Said("satisfied\n"),
            Ok(Outcome::Refuted(text)) => made(self.alloc, &text),
            Ok(Outcome::Limit(_)) => Answer::Said("limit\n"),
            Err(_) => Answer::NoMemory,
        }
    }
}

/// Searches in the formula of an input, under the cube 1 if `is_under`; twice if memory was
/// wanting.
fn searched(alloc: Global, input: &[u8], is_under: bool) -> Option<Tried> {
    let formula = read(alloc, input).ok()?;
    let base = Base::of(alloc, &formula).ok()?;
    let mut search = Search {
        alloc,
        base,
        is_under,
    };
    Some(try_twice(&mut search))
}

/// Searches the four clauses over two variables, which are unsatisfiable.
pub(crate) fn four(alloc: Global) -> Option<Tried> {
    searched(alloc, FOUR, false)
}

/// Searches the eight clauses over three variables, which are unsatisfiable.
pub(crate) fn eight(alloc: Global) -> Option<Tried> {
    searched(alloc, EIGHT, false)
}

/// Searches the four clauses over two variables under the cube 1.
pub(crate) fn under_a_cube(alloc: Global) -> Option<Tried> {
    searched(alloc, FOUR, true)
}
