//! The most frequent pairs: those whose literals occur together in the most short clauses.

ghost use Rattle.std.specs.Prelude.{◌≡◌, ℕ, ◌+◌, ◌*◌, ◌<◌, ◌≤◌, ◌++◌, List, [], length, All, Contains, IfOk, OnOk};
ghost use Rattle.cube_split.specs.Definitions.{IsPairOf};
ghost use Rattle.cube_split.specs.Pairs.{AreDefined};
ghost use Rattle.cube_split.specs.inner.Ranks.{AreApart, AreLowest, AreRising, IsKept, closed_run, ranks_from};
ghost use Rattle.dimacs.specs.logic.Base.{pure_literals};

use crate::cooccurrences::pair_keys;
use crate::marks::marks_of;
use crate::pair::{Pair, pairs_of, rank};
use dimacs::{Formula, Lit};
use std::alloc::{AllocError, Global};

/// Inserts a number into a rising list, which is then cut to `limit` numbers. A number that is not kept costs one comparison.
fn insert_lowest(best: &mut Vec<u128>, limit: usize, number: u128) -> Result<(), AllocError>
    requires { AreRising best.old.items }
    ensures { OnOk result (IsKept limit number best.old.items best.new.items) }
{
    let mut place = best.len();
    while place > 0 && best[place - 1] > number {
        place -= 1;
    }
    best.insert(place, number)?;
    best.truncate(limit);
    Ok(())
}

/// Inserts a pair into the list `best` of the lowest ranks, at the end of its run of `count` equal
/// keys in the sorted list. The empty run before the first key is ignored.
fn keep_run(best: &mut Vec<u128>, limit: usize, key: u64, count: u64) -> Result<(), AllocError>
    requires below { key < 72057594037927936 }
    requires rising { AreRising best.old.items }
    ensures { OnOk result ((seen : List ℕ) → AreLowest limit seen best.old.items → All (λ r. ¬ (Contains seen r)) (closed_run key count)
        → AreLowest limit (seen ++ closed_run key count) best.new.items) }
{
    if count > 0 {
        insert_lowest(best, limit, rank(count, key))?;
    }
    Ok(())
}

/// The `limit` lowest ranks of the keys in a sorted list, rising: one rank for each run of equal keys.
fn best_ranks(alloc: Global, keys: &[u64], limit: usize) -> Result<Vec<u128>, AllocError>
    requires below { All (λ k. k < 72057594037927936) keys.now }
    requires apart { AreApart (ranks_from 0 0 keys.now) }
    ensures { IfOk result (λ ranks. AreLowest limit (ranks_from 0 0 keys.now) ranks.items) }
{
    let mut best = Vec::new(alloc);
    let mut last = 0;
    let mut count = 0;
    for &key in keys {
        if key != last {
            keep_run(&mut best, limit, last, count)?;
            last = key;
            count = 0;
        }
        count += 1;
    }
    keep_run(&mut best, limit, last, count)?;
    Ok(best)
}

/// The pairs for which up to `defs` variables are defined, found by sorting the pairs' keys. `units` are the pure literals.
fn counted_pairs(
    alloc: Global,
    formula: &Formula,
    units: &[Lit],
    defs: u32,
) -> Result<Vec<Pair>, AllocError>
    requires { units.now ≡ pure_literals formula.now }
    ensures { IfOk result (λ pairs. AreDefined formula.now defs [] pairs.items) }
{
    let marks = marks_of(alloc, units, formula.vars())?;
    let mut keys = pair_keys(alloc, &marks, formula)?;
    keys.sort_unstable();
    let ranks = best_ranks(alloc, &keys, defs as usize)?;
    pairs_of(alloc, &ranks)
}

/// The pairs for which `defs` variables are defined, or fewer if no pair is left. Each is, of the pairs that are not taken yet, the one
/// that occurs in the most short clauses, and of several the first by its variables and signs. `units` are the pure literals.
#[tactic(auto, using(crate::proofs::DefinedLemmas::all_chosen, crate::proofs::DefinedLemmas::few_chosen))]
pub(crate) fn defined_pairs(
    alloc: Global,
    formula: &Formula,
    units: &[Lit],
    defs: u32,
) -> Result<Vec<Pair>, AllocError>
    requires { units.now ≡ pure_literals formula.now }
    ensures defined { IfOk result (λ pairs. AreDefined formula.now defs [] pairs.items) }
    ensures inside { IfOk result (λ pairs. All (IsPairOf formula.now.vars) pairs.items) }
    ensures few { IfOk result (λ pairs. length pairs.items ≤ defs) }
{
    if defs == 0 {
        return Ok(Vec::new(alloc));
    }
    let pairs = counted_pairs(alloc, formula, units, defs)?;
    Ok(pairs)
}
