//! The report of the leaves that a receipt closes, one line for each.

ghost use Rattle.std.specs.Prelude.{◌≡◌, ◌≤◌, ◌<◌, ◌+◌, ◌^◌, ◌++◌, ◌∷◌, ℕ, List, [], length, drop, not, IfOk, IfErr, OnOk, if◌then◌else◌};
ghost use Rattle.commands.specs.Receipts.{TellsClosed, closed_at, closed_lines};
ghost use Rattle.commands.specs.Refusals.{IsWanting};
ghost use Rattle.commands.specs.inner.Receipts.{is_first};
ghost use Rattle.log_join.specs.ClosedLeaves.{Leaf, open_from};
ghost use Rattle.receipts.specs.ClosedLeaves.{LeavesClosedByTexts};
ghost use Rattle.receipts.specs.Cover.{HasTakenTexts};

use crate::whole_source::out_of_memory;
use leaves::{Split, put_leaf};
use receipts::{Cover, CoverFault};
use reports::{Refusal, Report};
use std::alloc::{AllocError, Global};

/// The most variables of a formula whose leaves receipts close: the readers of `receipt` and `cover` take no formula of more. One of more
/// would be reported as out of memory.
pub(crate) const MOST: u32 = 1_000_000;

/// Answers `NoMemory` for either fault of a cover: memory was refused, or there would be 2^48
/// clauses, which do not fit into memory either.
pub(crate) fn stopped(_fault: CoverFault) -> Refusal
    ensures { result ≡ Refusal.NoMemory }
{
    Refusal::NoMemory
}

/// A cover of the tree that has taken no receipt. It errs if memory runs out, or if the formula has
/// more than `MOST` variables, which no reader of these commands lets pass.
pub(crate) fn open_cover(alloc: Global, split: &Split) -> Result<Cover, Refusal>
    ensures holds { IfOk result (HasTakenTexts split.now.formula split.now.tree []) }
    ensures refused { IfErr result IsWanting }
{
    let formula = split.formula();
    if formula.vars() > MOST {
        return Err(Refusal::NoMemory);
    }
    Cover::of(alloc, formula, split.tree()).map_err(out_of_memory)
}

/// Answers the indexes, from 0 and rising, of the leaves that the receipt with this text does not close. It errs if memory runs out.
fn left_open(alloc: Global, split: &Split, text: &[u8]) -> Result<Vec<usize>, Refusal>
    ensures places { IfOk result (λ places. (leaves : List Leaf) × LeavesClosedByTexts split.now.formula split.now.tree (text.now ∷ []) leaves × (places.items ≡ open_from 0 leaves)) }
    ensures refused { IfErr result IsWanting }
{
    let mut cover = open_cover(alloc, split)?;
    let taken = cover.take(text);
    match taken {
        Ok(_) => cover.missing().map_err(out_of_memory),
        Err(fault) => Err(stopped(fault)),
    }
}

/// Whether the leaf of index `place` is open: the next one of `missing`, the rising indexes of the
/// open leaves, at position `at`.
fn is_next(missing: &[usize], at: usize, place: usize) -> bool
    ensures { result ≡ is_first place (drop at missing.now) }
{
    at < missing.len() && missing[at] == place
}

/// Answers the position of the next open leaf in the list, after a leaf was passed: one more than
/// `at` if that leaf was open, else `at`.
fn position_after(at: usize, is_open: bool) -> usize
    requires { at < 2 ^ 62 }
    ensures { result ≡ (if is_open then at + 1 else at) }
{
    if is_open { at + 1 } else { at }
}

/// Appends the line of the leaf of index `place` (from 0), unless the leaf is open.
fn put_if_closed(out: &mut Vec<u8>, place: usize, is_open: bool) -> Result<(), AllocError>
    requires { place < 2 ^ 62 }
    ensures { OnOk result (out.new.items ≡ out.old.items ++ closed_at (not is_open) place) }
{
    if is_open {
        return Ok(());
    }
    put_leaf(out, place, true)
}

/// Appends a line for each closed leaf of the `count` leaves of a tree: for each whose index (from 0) is not in `missing`, which rises.
fn put_closed(out: &mut Vec<u8>, missing: &[usize], count: usize) -> Result<(), AllocError>
    requires { count ≤ 65536 }
    ensures { OnOk result ((leaves : List Leaf) → missing.now ≡ open_from 0 leaves → length leaves ≡ count → out.new.items ≡ out.old.items ++ closed_lines 0 leaves) }
{
    let mut at = 0;
    for place in 0..count {
        let is_open = is_next(missing, at, place);
        put_if_closed(out, place, is_open)?;
        at = position_after(at, is_open);
    }
    Ok(())
}

/// Reports, with status 0, the leaves that the receipt with this text closes, one line for each. It errs if memory runs out.
pub(crate) fn closed_report(alloc: Global, split: &Split, text: &[u8]) -> Result<Report, Refusal>
    ensures tells { IfOk result (TellsClosed split.now.formula split.now.tree text.now) }
    ensures refused { IfErr result IsWanting }
{
    let missing = left_open(alloc, split, text)?;
    let mut report = Report::of(alloc, b"", 0).map_err(out_of_memory)?;
    put_closed(&mut report.stdout, &missing, split.tree().leaves()).map_err(out_of_memory)?;
    Ok(report)
}
