//! Clauses in one vector of literals: clause i (from 0) lies from offset i to before offset i + 1 of a list of offsets.

ghost use Rattle.std.specs.Prelude.{◌≡◌, ℕ, ◌+◌, ◌<◌, ◌^◌, [], ◌∷◌, ◌++◌, length, slice_index_or, vec_len, All, IfOk, OnOk, OnErr};
ghost use Rattle.dimacs.specs.logic.Literal.{IsWithin};
ghost use Rattle.dimacs.specs.layout.Flat.{parts, ArePlaces, Fills};

use crate::literal::Lit;
use std::alloc::{AllocError, Global};

/// Lends the clause of index `i`, from 0.
#[tactic(auto, using(crate::proofs::FlatLemmas::flat))]
pub(crate) fn clause_at<'a>(literals: &'a [Lit], places: &[u32], i: usize) -> &'a [Lit]
    requires places { ArePlaces places.now (length literals.now) }
    requires below { i + 1 < length places.now }
    ensures clause { result.now ≡ slice_index_or (parts literals.now places.now) i [] }
    ensures within { (vars : ℕ) → All (IsWithin vars) literals.now → All (IsWithin vars) result.now }
{
    &literals[places[i] as usize..places[i + 1] as usize]
}

/// Appends a clause. If memory is refused, the clauses are as before.
#[tactic(auto, using(crate::proofs::FlatPush::pushes))]
pub(crate) fn push_clause(
    literals: &mut Vec<Lit>,
    places: &mut Vec<u32>,
    clause: &[Lit],
) -> Result<(), AllocError>
    requires fills { Fills literals.old.items places.old.items }
    requires room { vec_len literals.old + length clause.now < 2 ^ 32 }
    ensures fills { Fills literals.new.items places.new.items }
    ensures ok { OnOk result (parts literals.new.items places.new.items ≡ parts literals.old.items places.old.items ++ clause.now ∷ []) }
    ensures err { OnErr result (parts literals.new.items places.new.items ≡ parts literals.old.items places.old.items) }
{
    let end = (literals.len() + clause.len()) as u32;
    literals.reserve(clause.len())?;
    places.push(end)?;
    literals.extend_from_slice(clause)
}

/// Appends the clauses of another pair of lists, `more` and `ends`. If memory is refused, some of them may have been appended.
pub(crate) fn push_clauses(
    literals: &mut Vec<Lit>,
    places: &mut Vec<u32>,
    more: &[Lit],
    ends: &[u32],
) -> Result<(), AllocError>
    requires fills { Fills literals.old.items places.old.items }
    requires more { Fills more.now ends.now }
    requires room { vec_len literals.old + length more.now < 2 ^ 32 }
    ensures fills { Fills literals.new.items places.new.items }
    ensures ok { OnOk result (parts literals.new.items places.new.items ≡ parts literals.old.items places.old.items ++ parts more.now ends.now) }
{
    for i in 0..ends.len() - 1 {
        push_clause(literals, places, clause_at(more, ends, i))?;
    }
    Ok(())
}

/// Copies into new lists the clauses of one pair of lists, followed by those of another pair, `more` and `ends`.
pub(crate) fn joined(
    alloc: Global,
    literals: &[Lit],
    places: &[u32],
    more: &[Lit],
    ends: &[u32],
) -> Result<(Vec<Lit>, Vec<u32>), AllocError>
    requires fills { Fills literals.now places.now }
    requires more { Fills more.now ends.now }
    requires room { length literals.now + length more.now < 2 ^ 32 }
    ensures fills { IfOk result (λ p. Fills p.0.items p.1.items) }
    ensures clauses { IfOk result (λ p. parts p.0.items p.1.items ≡ parts literals.now places.now ++ parts more.now ends.now) }
{
    let mut all = Vec::with_capacity(alloc, literals.len() + more.len())?;
    let mut starts = Vec::with_capacity(alloc, places.len() + ends.len())?;
    all.extend_from_slice(literals)?;
    starts.extend_from_slice(places)?;
    push_clauses(&mut all, &mut starts, more, ends)?;
    Ok((all, starts))
}
