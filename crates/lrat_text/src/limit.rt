//! The limits of the variables of proofs and logs.

ghost use Rattle.std.specs.Prelude.{◌≡◌, ◌≤◌};
ghost use Rattle.lrat_text.specs.Log.{log_top};
ghost use Rattle.lrat_text.specs.Proof.{proof_top};

use dimacs::{Base, Formula};

/// The greatest variable that a proof of the formula may have: 2,000,000, or twice the formula's variables if that is more.
pub fn proof_top(formula: &Formula) -> u32
    ensures value { result ≡ proof_top formula.now }
    ensures limit { result ≤ 199999999 }
{
    (2 * formula.vars()).max(2_000_000)
}

/// The greatest variable that a log over the base may have: 2,000,000, or the base's variables if that is more.
pub fn log_top(base: &Base) -> u32
    ensures value { result ≡ log_top base.now }
    ensures limit { result ≤ 199999999 }
{
    base.vars().max(2_000_000)
}
