//! The literals of one clause, in the vector of all literals.

ghost use Rattle.std.specs.Prelude.{◌≡◌, ◌+◌, ◌≤◌, ◌<◌, length, swap};
ghost use Rattle.clause_arena.specs.Contents.{clause_at};
ghost use Rattle.clause_arena.specs.inner.Contents.{slot_of, IsPlaced};

use crate::reference::Ref;
use dimacs::Lit;

/// The literals of the clause to which `at` refers.
#[inline(always)]
pub(crate) fn literals_at(literals: &[Lit], at: Ref) -> &[Lit]
    requires { IsPlaced literals.now (slot_of at) }
    ensures { result.now ≡ clause_at literals.now (slot_of at) }
{
    let place = at.place as usize;
    &literals[place..place + at.len as usize]
}

/// Exchanges the literals at the indices i and j of the clause to which `at` refers.
#[inline(always)]
pub(crate) fn exchange(literals: &mut [Lit], at: Ref, i: usize, j: usize)
    requires placed { IsPlaced literals.old (slot_of at) }
    requires i_in { i < at.len }
    requires j_in { j < at.len }
    ensures { literals.new ≡ swap literals.old (at.place + i) (at.place + j) }
{
    let place = at.place as usize;
    literals.swap(place + i, place + j);
}
