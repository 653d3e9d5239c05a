//! The new numbers of a log's clauses.

ghost use Rattle.std.specs.Prelude.{◌≡◌, ◌≢◌, ℕ, ◌+◌, ◌^◌, ◌<◌, ◌≤◌, All, Contains, map, IfErr, OnOk};
ghost use Rattle.std.specs.Option.{SomeIff};
ghost use Rattle.lrat_text.specs.Grammar.{IsClauseNumber};
ghost use Rattle.proof_join.specs.RenumberedSteps.{behind};

use crate::fault::LogJoinFault;

/// Numbers of lines are below 2^48.
pub(crate) const LIMIT: u64 = 1 << 48;

/// How a log's numbers are changed: those up to `base` stay, and `base` + k becomes `begun` + k.
#[derive(Clone, Copy)]
pub(crate) struct Shift {
    pub(crate) base: u64,
    pub(crate) begun: u64,
}

/// Returns the number if a clause may have it, which is below 2^48; else `None`.
fn within(number: u64) -> Option<u64>
    ensures { SomeIff result (number < 2 ^ 48) number }
{
    if number < LIMIT { Some(number) } else { None }
}

impl Shift {
    /// Returns the new number of a clause: the formula's clauses keep theirs, and a lemma follows
    /// what was written before its log. `None` if the number would reach 2^48.
    pub(crate) fn number(self, number: u64) -> Option<u64>
        ensures { SomeIff result (behind self.base self.begun number < 2 ^ 48) (behind self.base self.begun number) }
    {
        if number <= self.base {
            return within(number);
        }
        match (number - self.base).checked_add(self.begun) {
            Some(moved) => within(moved),
            None => None,
        }
    }

    /// Replaces the content of `out` by the new numbers of these clauses. `TooLong` if one would reach 2^48.
    pub(crate) fn all(self, numbers: &[u64], out: &mut Vec<u64>) -> Result<(), LogJoinFault>
        requires numbers { All IsClauseNumber numbers.now }
        ensures numbers { OnOk result (out.new.items ≡ map (behind self.base self.begun) numbers.now) }
        ensures within { OnOk result (All IsClauseNumber out.new.items) }
        ensures long { IfErr result (λ f. f ≡ LogJoinFault.TooLong → ¬ (All IsClauseNumber (map (behind self.base self.begun) numbers.now))) }
        ensures open { IfErr result (λ f. f ≢ LogJoinFault.Open) }
    {
        out.clear();
        for number in numbers {
            match self.number(*number) {
                Some(moved) => out.push(moved)?,
                None => return Err(LogJoinFault::TooLong),
            }
        }
        Ok(())
    }
}
