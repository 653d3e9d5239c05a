//! Loading the clauses of a formula: their literals are moved in as one vector, clause after clause. `places` has the index of each
//! clause's first literal, and at last the number of all literals.

ghost use Rattle.std.specs.Prelude.{◌≡◌, IfOk, length, vec_len};
ghost use Rattle.dimacs.specs.layout.Flat.{parts, ArePlaces};
ghost use Rattle.lrat_check.specs.inner.Store.{numbered, IsFilled};
ghost use Rattle.lrat_check.specs.inner.LiteralTable.{AllFit};

use crate::blocks::{Blocks, put_next};
use crate::live::LiveClauses;
use crate::marks::Marks;
use crate::slot::Slot;
use dimacs::Lit;
use std::alloc::{AllocError, Global};

/// Makes the near table of the clauses that begin at `places`, numbered from 1.
pub(crate) fn slots_of(
    alloc: Global,
    literals: &[Lit],
    places: &[u32],
) -> Result<Blocks, AllocError>
    requires { ArePlaces places.now (length literals.now) }
    ensures { IfOk result (IsFilled literals.now places.now) }
{
    let mut near = Blocks::new(alloc);
    for i in 0..places.len() - 1 {
        let place = places[i] as usize;
        let end = places[i + 1] as usize;
        let slot = Slot {
            place,
            len: end - place,
        };
        put_next(&mut near, i + 1, slot)?;
    }
    Ok(near)
}

/// Makes the live clauses that begin at `places`, numbered from 1, and a table of marks for their literals.
pub(crate) fn load(
    alloc: Global,
    literals: Vec<Lit>,
    places: &[u32],
) -> Result<(LiveClauses, Marks), AllocError>
    requires { ArePlaces places.now (vec_len literals) }
    ensures clauses { IfOk result (λ r. r.0 ≡ numbered (parts literals.items places.now)) }
    ensures fits { IfOk result (λ r. AllFit (vec_len r.1.table) r.0) }
{
    let clauses = LiveClauses::of_parts(alloc, literals, places)?;
    let marks = Marks::new(alloc, clauses.places())?;
    Ok((clauses, marks))
}
