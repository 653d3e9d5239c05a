//! `lift --lidrup`: turns the LIDRUP text that an incremental solver wrote while it refuted the cubes of a block of leaves into one log
//! over the formula. The report says which of the leaves the log closes.

ghost use Rattle.std.specs.Prelude.{◌≡◌, ◌++◌, ◌<◌, ◌≤◌, ◌^◌, ℕ, List, [], length, IfOk, OnOk, if◌then◌else◌};
ghost use Rattle.dimacs.specs.logic.Cnf.{Cnf};
ghost use Rattle.icnf.specs.Leaves.{Cube};
ghost use Rattle.leaves.specs.BlockLift.{BeginsBlock, EndsBlock, TakesBlockPiece, HasTakenBlock, PrintsBlock, leaf_line, part_of};
ghost use Rattle.lidrup.specs.CubeLog.{IsEnded};

use crate::block::Block;
use crate::split::Split;
use lidrup::CubeLog;
use lrat_check::CheckFault;
use reports::{Report, put_number};
use std::alloc::{AllocError, Global};

/// Turns a LIDRUP text into one log over the formula. The text has a query for each leaf of a block, in order, and comes piece by piece.
///
/// The bytes of the log are handed out as they come. They are of use only if `finish` answers `Ok`.
pub struct BlockLift {
    /// The leaves whose cubes the text's queries have, in order.
    pub(crate) block: Block,
    /// The log over the formula that the text read so far becomes.
    pub(crate) log: CubeLog,
}

impl Drop for BlockLift {
    fn drop(self) {
        let BlockLift { block: _, log: _ } = self;
    }
}

/// Appends the line of the leaf at the index `place`, from 0: that the leaf is closed, or that it is missing.
pub fn put_leaf(out: &mut Vec<u8>, place: usize, is_closed: bool) -> Result<(), AllocError>
    requires { place < 2 ^ 62 }
    ensures { OnOk result (out.new.items ≡ out.old.items ++ leaf_line place is_closed) }
{
    out.extend_from_slice(b"c leaf ")?;
    put_number(out, place as u64 + 1)?;
    if is_closed {
        out.extend_from_slice(b" closed\n")
    } else {
        out.extend_from_slice(b" missing\n")
    }
}

/// Answers the report's status after one more leaf: it stays if the leaf is closed, and becomes 0
/// if not.
fn status_after(status: u8, is_closed: bool) -> u8
    ensures { result ≡ (if is_closed then status else 0) }
{
    if is_closed { status } else { 0 }
}

/// A lift for a block of leaves, those at the indices `first..end`, from 0, before the first byte
/// of the text.
fn begin(alloc: Global, split: Split, first: usize, end: usize) -> Result<BlockLift, AllocError>
    requires some { first ≤ end }
    requires inside { end ≤ length split.tree }
    ensures { IfOk result (HasTakenBlock split.formula first (part_of split.tree first end) [] []) }
{
    let Split { formula, tree } = split;
    let log = CubeLog::of(alloc, formula)?;
    let block = Block { tree, first, end };
    Ok(BlockLift { block, log })
}

impl BlockLift {
    /// A lift for all leaves of the tree, before the first byte of the text.
    pub fn of(alloc: Global, split: Split) -> Result<BlockLift, AllocError>
        ensures { IfOk result (HasTakenBlock split.formula 0 split.tree [] []) }
    {
        let leaves = split.tree.leaves();
        begin(alloc, split, 0, leaves)
    }

    /// A lift for the leaves of the numbers `first..=last`, from 1, before the first byte of the text; None if the tree has not all these
    /// leaves, or `last` is below `first`.
    pub fn block(
        alloc: Global,
        split: Split,
        first: u64,
        last: u64,
    ) -> Result<Option<BlockLift>, AllocError>
        ensures { IfOk result (BeginsBlock split.formula split.tree first last) }
    {
        if first == 0 || first > last || last > split.tree.leaves() as u64 {
            return Ok(None);
        }
        let lift = begin(alloc, split, first as usize - 1, last as usize)?;
        Ok(Some(lift))
    }

    /// Reads the next piece of the text. A fault is kept for `finish`.
    pub fn feed(&mut self, piece: &[u8])
        ensures { TakesBlockPiece piece.now self.old self.new }
    {
        self.log.feed(piece);
    }

    /// Lends the bytes of the log that were written since the last call of `forget`.
    pub fn written(&self) -> &[u8]
        ensures { result.now ≡ self.now.log.lines.out.items }
    {
        self.log.written()
    }

    /// Drops the bytes that `written` lends, after the caller has stored them.
    pub fn forget(&mut self)
        ensures stands { (F : Cnf) (place : ℕ) (cubes : List Cube) (bytes handed : List ℕ) → HasTakenBlock F place cubes bytes handed self.old → HasTakenBlock F place cubes bytes (handed ++ self.old.log.lines.out.items) self.new }
        ensures out { self.new.log.lines.out.items ≡ [] }
    {
        self.log.forget();
    }

    /// Ends the text. Answers Ok if all bytes that were written are the log that the text becomes, and else the text's first fault.
    pub fn finish(&self) -> Result<(), CheckFault>
        ensures ends { (F : Cnf) (place : ℕ) (cubes : List Cube) (bytes handed : List ℕ) → HasTakenBlock F place cubes bytes handed self.now → EndsBlock F bytes (handed ++ self.now.log.lines.out.items) self.now result }
        ensures ended { OnOk result (IsEnded self.now.log) }
    {
        self.log.finish()
    }

    /// The report, after `finish`: which of the block's leaves the log closes, by their numbers in the tree, from 1. The status is 20 if
    /// the log closes all of them, and else 0. An error is reported as `c no memory`, status 1.
    pub fn report(&self, alloc: Global) -> Result<Report, AllocError>
        requires { IsEnded self.now.log }
        ensures { IfOk result (λ r. (F : Cnf) (place : ℕ) (cubes : List Cube) (bytes handed : List ℕ) → HasTakenBlock F place cubes bytes handed self.now → PrintsBlock F place cubes bytes (handed ++ self.now.log.lines.out.items) r) }
    {
        let block = &self.block;
        let _ = block.tree.leaves(); // its contract bounds the number of leaves
        let mut text = Vec::new(alloc);
        let mut status = 20;
        for place in block.first..block.end {
            let is_closed = self.log.closes(place - block.first, block.tree.cube(place));
            status = status_after(status, is_closed);
            put_leaf(&mut text, place, is_closed)?;
        }
        Report::of(alloc, &text, status)
    }
}
