//! Whether two groups of a lemma name the same candidate.

ghost use Rattle.std.specs.Prelude.{◌≡◌, ℕ, true, false, cond, nat_eq, Ok, OnOk, IfOk};
ghost use Rattle.std.specs.Bool.{OnTrue, OnFalse};
ghost use Rattle.std.specs.BTreeSet.{contains};
ghost use Rattle.std.specs.Ordering.{nat_cmp};
ghost use Rattle.lrat_check.specs.inner.CandidateOrder.{IsRising};

use lrat_text::Groups;
use std::alloc::AllocError;
use std::collections::BTreeSet;

/// Answers whether the groups' candidates are strictly increasing.
pub(crate) fn are_rising(groups: &Groups) -> bool
    ensures { OnTrue result (IsRising 0 groups.now) }
{
    let mut last = 0;
    for i in 0..groups.len() {
        let (candidate, _) = groups.get(i);
        if candidate <= last {
            return false;
        }
        last = candidate;
    }
    true
}

/// Answers whether an earlier group named the candidate, and adds the candidate to `named`. If the candidates are strictly increasing
/// (`rising`), as most provers write them, no earlier group did, and `named` stays empty.
pub(crate) fn was_named(
    named: &mut BTreeSet<u64>,
    rising: bool,
    candidate: u64,
) -> Result<bool, AllocError>
    ensures rising { OnTrue rising (result ≡ Ok false) }
    ensures before { OnFalse rising (IfOk result (λ before. before ≡ contains nat_cmp named.old candidate)) }
    ensures named { OnFalse rising (OnOk result ((q : ℕ) → contains nat_cmp named.new q ≡ cond (nat_eq candidate q) true (contains nat_cmp named.old q))) }
{
    if rising {
        return Ok(false);
    }
    let new = named.insert(candidate)?;
    Ok(!new)
}
