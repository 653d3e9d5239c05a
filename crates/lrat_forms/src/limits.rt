//! Tests whether a step is within the limits of text lines. The contracts need one direction only: a test that answers true is right.

ghost use Rattle.std.specs.Prelude.{All, IsTrue};
ghost use Rattle.dimacs.specs.logic.Literal.{IsWithin};
ghost use Rattle.lrat_text.specs.Grammar.{IsClauseNumber, IsGroup, IsStepWithin};
ghost use Rattle.lrat_text.specs.Steps.{step_of};

use dimacs::Lit;
use lrat_text::{Groups, StepRef};

/// The greatest variable that a line of any proof may have.
const MAX_VAR: u32 = 199_999_999;

/// Answers whether a clause number is from 1 to 2^48 - 1.
fn number_fits(number: u64) -> bool
    ensures { IsTrue result → IsClauseNumber number }
{
    1 <= number && number < 1 << 48
}

/// Answers whether all clause numbers are from 1 to 2^48 - 1.
fn numbers_fit(numbers: &[u64]) -> bool
    ensures { IsTrue result → All IsClauseNumber numbers.now }
{
    numbers
        .iter()
        .all(|number| 1 <= *number && *number < 1 << 48)
}

/// Answers whether no variable is above 199,999,999.
fn literals_fit(lits: &[Lit]) -> bool
    ensures { IsTrue result → All (IsWithin 199999999) lits.now }
{
    for lit in lits {
        if lit.var().number() > MAX_VAR {
            return false;
        }
    }
    true
}

/// Answers whether the candidates and hints of all groups are from 1 to 2^48 - 1.
fn groups_fit(groups: &Groups) -> bool
    ensures { IsTrue result → All IsGroup groups.now }
{
    for i in 0..groups.len() {
        let (candidate, hints) = groups.get(i);
        if !number_fits(candidate) || !numbers_fit(hints) {
            return false;
        }
    }
    true
}

/// Answers whether a step is within the limits: its clause numbers are from 1 to 2^48 - 1, its variables up to 199,999,999.
pub(crate) fn is_within(step: StepRef<'_>) -> bool
    ensures { IsTrue result → IsStepWithin 199999999 (step_of step.entry) }
{
    match step {
        StepRef::Add {
            id,
            lits,
            hints,
            groups,
        } => number_fits(id) && literals_fit(lits) && numbers_fit(hints) && groups_fit(groups),
        StepRef::Delete { ids } => numbers_fit(ids),
    }
}
