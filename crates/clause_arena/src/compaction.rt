//! Compaction: the live clauses are copied into a fresh vector without gaps (`relocAll` of MiniSat).

ghost use Rattle.std.specs.Prelude.{◌≡◌, ℕ, ◌+◌, ◌-◌, ◌^◌, ◌<◌, ◌≤◌, ◌++◌, length, take, vec_len, slice_index_or, sum_by, IfOk, OnOk, OnErr};
ghost use Rattle.clause_arena.specs.declared.reference.Ref.{Ref};
ghost use Rattle.clause_arena.specs.Contents.{clause_at};
ghost use Rattle.clause_arena.specs.inner.Contents.{slot_of, IsPlaced};
ghost use Rattle.clause_arena.specs.inner.Relocation.{relocated, move_of, moves_from};

use crate::literals::literals_at;
use crate::reference::Ref;
use crate::slot::{MOST, Slot};
use dimacs::Lit;
use std::alloc::{AllocError, Global};

/// The sum of the clauses' lengths, saturating at 2^64 - 1.
fn room_for(refs: &[Ref]) -> usize
    ensures { sum_by (λ (at : Ref). at.len) refs.now < 2 ^ 64 → result ≡ sum_by (λ (at : Ref). at.len) refs.now }
{
    let mut room = 0usize;
    for at in refs {
        room = room.saturating_add(at.len as usize);
    }
    room
}

/// Copies the literals of a clause to the end of `fresh`. Appends the clause's old and new reference to `moved` if its offset changes.
fn relocate(
    literals: &[Lit],
    at: Ref,
    fresh: &mut Vec<Lit>,
    moved: &mut Vec<(Ref, Ref)>,
) -> Result<(), AllocError>
    requires { IsPlaced literals.now (slot_of at) }
    ensures literals { OnOk result (fresh.new.items ≡ fresh.old.items ++ clause_at literals.now (slot_of at)) }
    ensures moves { OnOk result (moved.new.items ≡ moved.old.items ++ move_of (vec_len fresh.old) at) }
    ensures err { OnErr result (moved.new.items ≡ moved.old.items) }
{
    let Some(slot) = Slot::of(fresh.len(), at.len as usize) else {
        return Err(AllocError);
    };
    fresh.extend_from_slice(literals_at(literals, at))?;
    if slot.place != at.place {
        moved.push((
            at,
            Ref {
                number: at.number,
                place: slot.place,
                len: at.len,
            },
        ))?;
    }
    Ok(())
}

/// Copies the literals of these clauses into a fresh vector, in the order of `refs`. Appends the old and the new reference of each clause
/// whose offset changes to `moved`; after an error, `moved` may have some of them.
pub(crate) fn relocate_all(
    alloc: Global,
    literals: &[Lit],
    refs: &[Ref],
    moved: &mut Vec<(Ref, Ref)>,
) -> Result<Vec<Lit>, AllocError>
    requires { (i : ℕ) (d : Ref) → i < length refs.now → IsPlaced literals.now (slot_of (slice_index_or refs.now i d)) }
    ensures literals { IfOk result (λ fresh. fresh.items ≡ relocated literals.now refs.now) }
    ensures few { IfOk result (λ fresh. vec_len fresh < 2 ^ 32 - 1) }
    ensures moves { OnOk result (moved.new.items ≡ moved.old.items ++ moves_from 0 refs.now) }
    ensures err { OnErr result (take (vec_len moved.old) moved.new.items ≡ moved.old.items) }
{
    let mut fresh = Vec::with_capacity(alloc, room_for(refs))?;
    for at in refs {
        relocate(literals, *at, &mut fresh, moved)?;
    }
    if fresh.len() >= MOST {
        return Err(AllocError);
    }
    Ok(fresh)
}
