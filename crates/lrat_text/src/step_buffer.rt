//! The buffer for the step of one line, whose vectors are used again for the next line.

ghost use Rattle.std.specs.Prelude.{◌≡◌, []};
ghost use Rattle.lrat_text.specs.Steps.{step_of};
ghost use Rattle.lrat_text.specs.declared.step.Step.TheVariants as owned;

use crate::groups::Groups;
use crate::step::{ClauseNumbers, Literals, Step, StepRef};
use dimacs::Lit;
use std::alloc::Global;
use std::marker::Model;

/// Holds the step that was read last. Reading allocates nothing once the vectors are large enough.
pub struct StepBuffer {
    /// Whether the step is a deletion. A deletion uses only `numbers`.
    pub(crate) is_deletion: bool,
    /// The number of an addition.
    pub(crate) id: u64,
    /// The literals of an addition.
    pub(crate) literals: Vec<Lit>,
    /// The hints of an addition, or the numbers of a deletion.
    pub(crate) numbers: Vec<u64>,
    /// The groups of an addition.
    pub(crate) groups: Groups,
}

impl Drop for StepBuffer {
    fn drop(self) {
        let StepBuffer {
            is_deletion: _,
            id: _,
            literals: _,
            numbers: _,
            groups: _,
        } = self;
    }
}

impl Model for StepBuffer {
    ghost use Rattle.lrat_text.specs.declared.step.Step.{Step};

    ghost Value = { Step };

    ghost use Rattle.lrat_text.specs.Buffer.{step_held};

    ghost view = { step_held };
}

impl StepBuffer {
    /// A buffer that holds a deletion of no clauses.
    pub fn new(alloc: Global) -> StepBuffer
        ensures { result ≡ owned.Delete [] }
    {
        StepBuffer {
            is_deletion: true,
            id: 0,
            literals: Vec::new(alloc),
            numbers: Vec::new(alloc),
            groups: Groups::new(alloc),
        }
    }

    /// Lends the step.
    pub fn as_ref(&self) -> StepRef<'_>
        ensures { step_of result ≡ self.now }
    {
        if self.is_deletion {
            StepRef::Delete { ids: &self.numbers }
        } else {
            StepRef::Add {
                id: self.id,
                lits: &self.literals,
                hints: &self.numbers,
                groups: &self.groups,
            }
        }
    }

    /// Turns the buffer into its step, which takes over the vectors.
    pub(crate) fn into_step(self) -> Step
        ensures { result ≡ self }
    {
        let StepBuffer {
            is_deletion,
            id,
            literals,
            numbers,
            groups,
        } = self;
        if is_deletion {
            Step::Delete {
                ids: ClauseNumbers::from_vec(numbers),
            }
        } else {
            Step::Add {
                id,
                lits: Literals::from_vec(literals),
                hints: ClauseNumbers::from_vec(numbers),
                groups,
            }
        }
    }
}
