//! The search for a literal to watch instead of a false one.

ghost use Rattle.std.specs.Prelude.{◌≡◌, ℕ, ◌<◌, ◌≤◌, All, length};
ghost use Rattle.dimacs.specs.logic.Literal.{IsWithin};
ghost use Rattle.watches.specs.inner.WatchInvariants.{FindsWatch};

use crate::trail::Trail;
use crate::truth::Truth;
use crate::watched::saved_positions::saved_position;
use dimacs::Lit;

/// A literal to watch instead of a false one, and its index in the clause.
#[derive(Clone, Copy, Debug, PartialEq, Eq)]
pub(crate) struct Replacement {
    /// The index of the literal in the clause, at least 2.
    pub(crate) place: usize,
    pub(crate) literal: Lit,
}

/// Finds a literal after the first two that is not false; None if there is none. The search begins at index `from` and wraps around to the
/// third literal.
#[inline(always)]
pub(crate) fn find_watch(literals: &[Lit], trail: &Trail, from: usize) -> Option<Replacement>
    requires { All (IsWithin trail.now.vars) literals.now }
    ensures { FindsWatch trail.now.entries literals.now result }
{
    let len = literals.len();
    for k in from.max(2)..len {
        let literal = literals[k];
        match trail.value(literal) {
            Truth::False => {}
            _ => return Some(Replacement { place: k, literal }),
        }
    }
    let end = from.min(len);
    for j in 2..end {
        let literal = literals[j];
        match trail.value(literal) {
            Truth::False => {}
            _ => return Some(Replacement { place: j, literal }),
        }
    }
    None
}

/// Finds a literal after the first two that is not false, from the saved position of the clause at row `owner` on; None if there is none. A
/// clause of two literals has no other one to watch, and one of three has one place to look at, so that their positions are not read.
#[inline(always)]
pub(crate) fn find_next_watch(
    literals: &[Lit],
    trail: &Trail,
    positions: &[u32],
    owner: usize,
) -> Option<Replacement>
    requires { All (IsWithin trail.now.vars) literals.now }
    ensures { FindsWatch trail.now.entries literals.now result }
{
    let len = literals.len();
    if len < 3 {
        return None;
    }
    let from = if len > 3 {
        saved_position(positions, owner)
    } else {
        2
    };
    find_watch(literals, trail, from)
}
