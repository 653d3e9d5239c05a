//! Reads a source to its end: as a formula, or as bytes.

ghost use Rattle.std.specs.Prelude.{◌≡◌, IfOk, IfErr};
ghost use Rattle.dimacs.specs.logic.Limits.{Limits};
ghost use Rattle.dimacs.specs.text.Pieces.{HasReadWithin};
ghost use Rattle.dimacs.specs.text.Parser.{GivesFormula, parse_within};
ghost use Rattle.commands.specs.inner.Feed.{Extends};
ghost use Rattle.commands.specs.Known.{HoldsOf};
ghost use Rattle.commands.specs.Refusals.{IsRefusedAs};

use crate::feed_loop::{Feeds, feed_all};
use crate::piece_reader::Pieces;
use dimacs::{DimacsFault, Formula, FormulaReader, Limits};
use reports::Refusal;
use std::alloc::Global;
use std::io::Read;

/// Answers the refusal for an allocation that failed: out of memory.
pub(crate) fn out_of_memory<E: Drop>(_error: E) -> Refusal
    ensures { result ≡ Refusal.NoMemory }
{
    Refusal::NoMemory
}

impl Feeds for FormulaReader {
    ghost use Rattle.commands.specs.inner.Feed.{extends_nothing, extends_more};

    ghost took = { λ old new more. (L : Limits) → Extends (λ bytes r. HasReadWithin L r bytes) old new more };

    ghost nothing = { λ s L. extends_nothing (λ bytes r. HasReadWithin L r bytes) s };

    ghost more = { λ a b c xs ys h k L. extends_more (λ bytes r. HasReadWithin L r bytes) a b c xs ys (h L) (k L) };

    /// Gives the next piece of the source to the reader of the formula.
    fn feed(&mut self, piece: &[u8]) -> Result<(), Refusal> {
        FormulaReader::feed(self, piece);
        Ok(())
    }

    /// Whether the formula has a fault, so that no further byte changes it.
    fn is_settled(&self) -> bool {
        FormulaReader::is_settled(self)
    }
}

/// Reads the formula of a source within these limits, or the first fault of its text, which is the inner error. The text is parsed piece by
/// piece and takes no memory. The outer error is a read that fails, or want of memory.
pub fn read_formula<S: Read + Drop>(
    alloc: Global,
    limits: Limits,
    pieces: &mut Pieces<S>,
) -> Result<Result<Formula, DimacsFault>, Refusal>
    ensures found { IfOk result (λ found. HoldsOf (S.remaining pieces.old.source) (λ text. GivesFormula found (parse_within limits text))) }
    ensures refused { IfErr result (IsRefusedAs pieces.old.refusal) }
{
    let mut reader = FormulaReader::within(alloc, limits);
    feed_all(pieces, &mut reader)?;
    Ok(reader.finish())
}

/// The bytes of a source that were read so far.
#[derive(Drop)]
struct Bytes {
    items: Vec<u8>,
}

impl Feeds for Bytes {
    ghost use Rattle.commands.specs.inner.Feed.{grows_nothing, grows_more};
    ghost use Rattle.commands.specs.inner.Feed.{Grows};

    ghost took = { λ old new more. Grows old.items.items new.items.items more };

    ghost nothing = { λ s. grows_nothing s.items.items };

    ghost more = { λ a b c. grows_more a.items.items b.items.items c.items.items };

    /// Appends a piece of the source to the bytes so far.
    fn feed(&mut self, piece: &[u8]) -> Result<(), Refusal> {
        self.items.extend_from_slice(piece).map_err(out_of_memory)
    }

    /// False: all bytes of the source are wanted.
    fn is_settled(&self) -> bool {
        false
    }
}

/// Reads all bytes of a source. Room for `len` of them is taken at once, since a vector that grows is copied. It errs if a read fails or
/// memory runs out.
pub fn read_bytes<S: Read + Drop>(
    alloc: Global,
    pieces: &mut Pieces<S>,
    len: usize,
) -> Result<Vec<u8>, Refusal>
    ensures whole { IfOk result (λ bytes. HoldsOf (S.remaining pieces.old.source) (λ all. bytes.items ≡ all)) }
    ensures refused { IfErr result (IsRefusedAs pieces.old.refusal) }
{
    let mut bytes = Bytes {
        items: Vec::with_capacity(alloc, len).map_err(out_of_memory)?,
    };
    feed_all(pieces, &mut bytes)?;
    let Bytes { items } = bytes;
    Ok(items)
}
