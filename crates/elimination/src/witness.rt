//! What an assignment needs to satisfy the clauses that a search did not have.

ghost use Rattle.std.specs.Prelude.{◌≡◌, length, IfOk};

use dimacs::{Assignment, Lit};
use std::alloc::{AllocError, Global};

/// The clauses of eliminated variables, each with the literal of that variable, in the order in which they left.
#[derive(Drop)]
pub struct Witness {
    /// The literals, clause after clause; the one of the eliminated variable is the first of its clause.
    literals: Vec<Lit>,
    /// The ends of the clauses in `literals`.
    ends: Vec<usize>,
}

impl Witness {
    /// A witness without clauses.
    pub(crate) fn new(alloc: Global) -> Witness {
        Witness {
            literals: Vec::new(alloc),
            ends: Vec::new(alloc),
        }
    }

    /// Notes a clause with this literal, which is made true where the clause would be false.
    pub(crate) fn push(&mut self, pivot: Lit, clause: &[Lit]) -> Result<(), AllocError> {
        self.literals.push(pivot)?;
        for literal in clause {
            if *literal != pivot {
                self.literals.push(*literal)?;
            }
        }
        self.ends.push(self.literals.len())?;
        Ok(())
    }

    /// Changes the values of eliminated variables so that the clauses are true that left, the last one first.
    fn mend(&self, values: &mut [bool])
        ensures { length values.new ≡ length values.old }
    {
        let mut end = self.literals.len();
        for place in (0..self.ends.len()).rev() {
            let begin = if place == 0 { 0 } else { self.ends[place - 1] };
            if let Some(clause) = self.literals.get(begin..end) {
                make_true(clause, values);
            }
            end = begin;
        }
    }

    /// The assignment with other values of eliminated variables, so that it satisfies the clauses that left too, if that is possible so.
    pub fn extended(&self, alloc: Global, found: &Assignment) -> Result<Assignment, AllocError>
        ensures { IfOk result (λ a. length a ≡ length found.now) }
    {
        let mut values = Vec::from_slice(alloc, found.values())?;
        self.mend(&mut values);
        Ok(Assignment::new(values))
    }
}

/// Whether a literal is true under these values, of which the first is that of variable 1.
fn is_true(literal: Lit, values: &[bool]) -> bool {
    match values.get((literal.var().number() as usize).wrapping_sub(1)) {
        Some(value) => *value != literal.is_negative(),
        None => false,
    }
}

/// Makes the first literal of a clause true, if no literal is.
fn make_true(clause: &[Lit], values: &mut [bool])
    ensures { length values.new ≡ length values.old }
{
    for literal in clause {
        if is_true(*literal, values) {
            return;
        }
    }
    if let Some(pivot) = clause.first()
        && let Some(value) = values.get_mut((pivot.var().number() as usize).wrapping_sub(1))
    {
        *value = !pivot.is_negative();
    }
}
