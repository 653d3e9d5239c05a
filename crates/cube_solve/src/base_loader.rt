//! Loads the clauses of a base into the arena, without repeated literals.

ghost use Rattle.std.specs.Prelude.{◌≡◌, ◌+◌, ◌<◌, [], ◌∷◌, ◌++◌, length, All, OnOk};
ghost use Rattle.std.specs.List.{IsDistinct};
ghost use Rattle.std.specs.FinMap as fin;
ghost use Rattle.dimacs.specs.logic.ClauseMap.{map_of, live_in};
ghost use Rattle.dimacs.specs.logic.Literal.{Clause, index_of, same};
ghost use Rattle.clause_arena.specs.Clauses.{live_of};
ghost use Rattle.cube_solve.specs.inner.Twins.{AreTwins, AreLinked};
ghost use Rattle.cube_solve.specs.inner.Marks.{AreMarks};
ghost use Rattle.cube_solve.specs.inner.State.{IsState};

use clause_arena::Arena;
use dimacs::{Base, Lit};
use std::alloc::{AllocError, Global};
use watches::{Propagator, Trail, add_clause};

/// Appends a literal to `kept` and stamps it, unless the literal has the stamp already.
#[inline]
fn push_distinct(
    literal: Lit,
    stamps: &mut [u32],
    stamp: u32,
    kept: &mut Vec<Lit>,
) -> Result<(), AllocError>
    requires { index_of literal < length stamps.old }
    ensures marks { OnOk result ((seen : Clause) → AreMarks seen kept.old.items stamps.old stamp → AreMarks (seen ++ literal ∷ []) kept.new.items stamps.new stamp) }
    ensures bounded { All (λ s. s < stamp + 1) stamps.old → All (λ s. s < stamp + 1) stamps.new }
{
    let place = literal.index();
    if stamps[place] == stamp {
        return Ok(());
    }
    kept.push(literal)?;
    stamps[place] = stamp;
    Ok(())
}

/// Appends the literals of a clause to the empty `kept`, each once, in the order of their first occurrences, and stamps them. No literal
/// has `stamp` before.
pub(crate) fn keep_first(
    clause: &[Lit],
    stamps: &mut [u32],
    stamp: u32,
    kept: &mut Vec<Lit>,
) -> Result<(), AllocError>
    requires sized { All (λ l. index_of l < length stamps.old) clause.now }
    requires fresh { All (λ s. s < stamp) stamps.old }
    requires some { 0 < stamp }
    requires empty { kept.old.items ≡ [] }
    ensures marks { OnOk result (AreMarks clause.now kept.new.items stamps.new stamp) }
    ensures twins { OnOk result (AreTwins clause.now kept.new.items) }
    ensures distinct { OnOk result (IsDistinct same kept.new.items) }
    ensures bounded { All (λ s. s < stamp + 1) stamps.new }
{
    for &literal in clause {
        push_distinct(literal, stamps, stamp, kept)?;
    }
    Ok(())
}

/// Adds the clauses of a base to the empty arena, numbered from 1 and without repeated literals, and attaches them to the propagator.
pub(crate) fn load<P: Propagator>(
    alloc: Global,
    base: &Base,
    propagator: &mut P,
    arena: &mut Arena,
    trail: &Trail,
) -> Result<(), AllocError>
    requires ready { P.is_ready propagator.old arena.old trail.now }
    requires none { P.attached propagator.old ≡ [] }
    requires empty { arena.old ≡ fin.empty }
    requires vars { trail.now.vars ≡ base.now.vars }
    requires entries { trail.now.entries ≡ [] }
    ensures ready { OnOk result (P.is_ready propagator.new arena.new trail.now) }
    ensures state { OnOk result (IsState (P.attached propagator.new) arena.new trail.now) }
    ensures linked { OnOk result (AreLinked (live_in (map_of base.now)) (live_of arena.new)) }
{
    let rows = base.vars() as usize;
    let mut table = vec![in alloc; 0; 2 * rows + 2]?;
    let stamps = table.as_mut_slice();
    let mut kept = Vec::new(alloc);
    for i in 0..base.len() {
        kept.clear();
        keep_first(base.clause(i), stamps, i as u32 + 1, &mut kept)?;
        add_clause(propagator, arena, trail, i as u64 + 1, &kept)?;
    }
    Ok(())
}
