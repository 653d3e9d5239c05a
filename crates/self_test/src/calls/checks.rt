//! A proof, and a fragment, that are accepted.

use super::call::{Answer, Call, Tried, try_twice};
use super::fragment_join::RIGHT_WITH_DELETION;
use crate::formulas::FOUR;
use dimacs::{Base, Formula, Lit, Var, read};
use lrat_check::{CheckFault, check, check_fragment};
use std::alloc::Global;

/// A proof with a lemma that has a candidate in a group.
const GROUPS: &[u8] = b"5 3 -1 -2 0 0\n6 -3 1 0 -5 0\n7 -3 2 0 -5 0\n8 2 0 1 2 0\n9 0 8 3 4 0\n";

/// A proof of a formula.
#[derive(Drop)]
struct Proof {
    alloc: Global,
    formula: Formula,
}

/// A fragment over a base.
#[derive(Drop)]
struct Fragment {
    alloc: Global,
    base: Base,
}

/// The answer of a checker, in words that are printed.
pub(crate) fn answer_of(found: Result<(), CheckFault>) -> Answer {
    match found {
        Ok(()) => Answer::Said("accepted\n"),
        Err(fault) if fault.is_no_memory() => Answer::NoMemory,
        Err(_) => Answer::Said("refused\n"),
    }
}

impl Call for Proof {
    /// Checks the proof.
    fn make(&mut self) -> Answer {
        answer_of(check(self.alloc, &self.formula, GROUPS))
    }
}

impl Call for Fragment {
    /// Checks whether the fragment closes the cube -1.
    fn make(&mut self) -> Answer {
        let cube = [Lit::negative(Var::new(1))];
        answer_of(check_fragment(self.alloc, &self.base, &cube, RIGHT_WITH_DELETION))
    }
}

/// Checks a proof of four clauses, twice if memory was wanting.
pub(crate) fn checked(alloc: Global) -> Option<Tried> {
    let formula = read(alloc, FOUR).ok()?;
    Some(try_twice(&mut Proof { alloc, formula }))
}

/// Checks a fragment over four clauses, twice if memory was wanting.
pub(crate) fn closed(alloc: Global) -> Option<Tried> {
    let formula = read(alloc, FOUR).ok()?;
    let base = Base::of(alloc, &formula).ok()?;
    Some(try_twice(&mut Fragment { alloc, base }))
}
