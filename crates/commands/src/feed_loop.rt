//! The loop that reads a source and feeds it, piece by piece, to a taker: a parser, a checker or a buffer.

ghost use Rattle.std.specs.Prelude.{◌≡◌, ◌⊎◌, ◌++◌, [], ℕ, List, OnOk, IsTrue, IfOk, IfErr};
ghost use Rattle.commands.specs.Feed.{IsFed, IsFedSo, IsToldAs};
ghost use Rattle.commands.specs.Refusals.{IsRefusedAs, IsWanting};
ghost use Rattle.reports.specs.declared.refusal.Refusal.{Refusal};

use crate::piece_reader::Pieces;
use packed_text::PackedText;
use reports::Refusal;
use std::alloc::Global;
use std::io::Read;

/// How many bytes of a packed text are unpacked and fed at a time.
const PIECE: usize = 65_536;

/// A taker of the bytes of a file, which come piece by piece.
pub trait Feeds {
    // `took old new bytes`: these bytes lead from the state `old` to the state `new`
    ghost took: { Self → Self → List ℕ → Type 0 };

    // the refusals that may be an error of `feed`
    ghost fails: { Refusal → Type 0 } = { IsWanting };

    // no bytes lead from a state to itself
    ghost nothing: { (s : Self) → took s s [] };

    // what leads from a state to the next one, and from that to a third one, leads in turn from the first to the third
    ghost more: { (a b c : Self) (xs ys : List ℕ) → took a b xs → took b c ys → took a c (xs ++ ys) };

    /// Takes the next piece of the file. An error ends the run.
    fn feed(&mut self, piece: &[u8]) -> Result<(), Refusal>
        ensures taken { OnOk result (took self.old self.new piece.now) }
        ensures refused { IfErr result fails };

    /// Whether no further byte of the file changes the state.
    fn is_settled(&self) -> bool
        ensures { IsTrue result → (rest : List ℕ) → took self.now self.now rest };
}

/// How far a source was read.
#[derive(Clone, Copy, Debug, PartialEq, Eq)]
pub enum Fed {
    /// To its end, or until the taker was settled.
    Whole,
    /// Up to a read that failed: the refusal that is reported of it.
    Unread(Refusal),
}

/// Reads a source piece by piece, and feeds each piece to the taker, until the source ends or a
/// read fails. A source that may have no end, such as a pipe, is read only until the taker is
/// settled. A read that fails is answered as `Unread`; an error is one of the taker.
pub fn feed_on<S: Read + Drop, T: Feeds>(
    pieces: &mut Pieces<S>,
    taker: &mut T,
) -> Result<Fed, Refusal>
    ensures fed { IfOk result (IsFedSo T.took (S.remaining pieces.old.source) taker.old taker.new) }
    ensures told { IfOk result (IsToldAs pieces.old.refusal) }
    ensures refused { IfErr result T.fails }
{
    for _ in 0..u64::MAX {
        if taker.is_settled() && !pieces.has_end {
            return Ok(Fed::Whole);
        }
        let len = match pieces.read() {
            Ok(0) => return Ok(Fed::Whole),
            Ok(len) => len,
            Err(refusal) => return Ok(Fed::Unread(refusal)),
        };
        taker.feed(&pieces.room[..len])?;
    }
    Ok(Fed::Unread(pieces.refusal))
}

/// Reads a source piece by piece, and feeds each piece to the taker, until the source ends; a source that may have no end, until the taker
/// is settled. The error is that of a read that fails, or of the taker.
pub fn feed_all<S: Read + Drop, T: Feeds>(
    pieces: &mut Pieces<S>,
    taker: &mut T,
) -> Result<(), Refusal>
    ensures fed { OnOk result (IsFed T.took (S.remaining pieces.old.source) taker.old taker.new) }
    ensures refused { IfErr result (λ f. IsRefusedAs pieces.old.refusal f ⊎ T.fails f) }
{
    match feed_on(pieces, taker)? {
        Fed::Whole => Ok(()),
        Fed::Unread(refusal) => Err(refusal),
    }
}

/// Unpacks a text, `PIECE` bytes at a time, and feeds it to the taker. It errs if memory runs out; any other error is one of the taker.
pub(crate) fn feed_packed<T: Feeds>(
    alloc: Global,
    text: &PackedText,
    taker: &mut T,
) -> Result<(), Refusal>
    ensures fed { OnOk result (T.took taker.old taker.new text.now) }
    ensures refused { IfErr result (λ f. IsWanting f ⊎ T.fails f) }
{
    for i in 0..text.len() / PIECE + 1 {
        let piece = match text.read(alloc, PIECE * i, PIECE) {
            Ok(piece) => piece,
            Err(_) => return Err(Refusal::NoMemory),
        };
        taker.feed(piece.as_slice())?;
    }
    Ok(())
}
