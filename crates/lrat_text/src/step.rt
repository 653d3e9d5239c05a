//! Steps of a proof: additions and deletions, owned ([`Step`]) and borrowed ([`StepRef`]).

ghost use Rattle.std.specs.Prelude.{◌≡◌};
ghost use Rattle.lrat_text.specs.Steps.{step_of};

use crate::groups::Groups;
use dimacs::Lit;
use std::marker::Model;

/// The literals of a lemma, in their written order.
#[derive(Drop)]
pub struct Literals {
    /// The literals, in their written order.
    literals: Vec<Lit>,
}

impl Model for Literals {
    ghost use Rattle.std.specs.Prelude.{List};
    ghost use Rattle.std.specs.Coded.{coded_list};
    ghost use Rattle.dimacs.specs.logic.Literal.{Literal};
    ghost use Rattle.dimacs.specs.inner.Codes.{literal_code};

    ghost Value = { List Literal };

    ghost coded = { coded_list literal_code };

    ghost view = { λ s. s.literals.items };
}

impl Literals {
    /// Wraps a vector of literals.
    pub fn from_vec(literals: Vec<Lit>) -> Literals
        ensures { result ≡ literals.items }
    {
        Literals { literals }
    }

    /// Lends the literals.
    pub fn as_slice(&self) -> &[Lit]
        ensures { result.now ≡ self.now }
    {
        &self.literals
    }

    /// Hands over the vector of literals.
    pub fn into_vec(self) -> Vec<Lit>
        ensures { result.items ≡ self }
    {
        let Literals { literals } = self;
        literals
    }
}

/// Clause numbers, in their written order.
#[derive(Drop)]
pub struct ClauseNumbers {
    /// The clause numbers, in their written order.
    numbers: Vec<u64>,
}

impl Model for ClauseNumbers {
    ghost use Rattle.std.specs.Prelude.{List, ℕ};

    ghost Value = { List ℕ };

    ghost view = { λ s. s.numbers.items };
}

impl ClauseNumbers {
    /// Wraps a vector of clause numbers.
    pub fn from_vec(numbers: Vec<u64>) -> ClauseNumbers
        ensures { result ≡ numbers.items }
    {
        ClauseNumbers { numbers }
    }

    /// Lends the clause numbers.
    pub fn as_slice(&self) -> &[u64]
        ensures { result.now ≡ self.now }
    {
        &self.numbers
    }

    /// Hands over the vector of clause numbers.
    pub fn into_vec(self) -> Vec<u64>
        ensures { result.items ≡ self }
    {
        let ClauseNumbers { numbers } = self;
        numbers
    }
}

/// One step of a proof.
#[derive(Drop)]
pub enum Step {
    /// A lemma is added to the live clauses under a number. It follows by its hints (RUP) or, if these reach no conflict, by its groups
    /// (RAT).
    Add {
        id: u64,
        lits: Literals,
        hints: ClauseNumbers,
        groups: Groups,
    },
    /// The live clauses of these numbers are deleted.
    Delete {
        ids: ClauseNumbers,
    },
}

/// One step of a proof, whose lists are borrowed.
#[derive(Clone, Copy)]
pub enum StepRef<'a> {
    /// A lemma is added: its number, its literals, its hints and its groups.
    Add {
        id: u64,
        lits: &'a [Lit],
        hints: &'a [u64],
        groups: &'a Groups,
    },
    /// The clauses of these numbers are deleted.
    Delete {
        ids: &'a [u64],
    },
}

impl Step {
    /// Lends the step.
    pub fn as_ref(&self) -> StepRef<'_>
        ensures { step_of result ≡ self.now }
    {
        match self {
            Step::Add {
                id,
                lits,
                hints,
                groups,
            } => StepRef::Add {
                id: *id,
                lits: lits.as_slice(),
                hints: hints.as_slice(),
                groups,
            },
            Step::Delete { ids } => StepRef::Delete {
                ids: ids.as_slice(),
            },
        }
    }
}
