//! A buffered text, of which a taker consumes as many bytes as it wants.

ghost use Rattle.std.specs.Prelude.{◌≡◌, ◌≤◌, [], take, vec_len, length, IfErr, OnOk};
ghost use Rattle.std.specs.Io.KnownBytes.{Consumes, IsAtEnd, Keeps};

use crate::piece_reader::Pieces;
use reports::Refusal;
use std::io::Read;

/// A buffered text: the bytes that were read and not consumed stay in the buffer, which is the room of the last piece.
pub(crate) struct Text<S> {
    /// The source, and the room with its last piece.
    pub(crate) pieces: Pieces<S>,
    /// The index in the last piece of the first byte that was not consumed.
    pub(crate) at: usize,
    /// How many bytes the last piece has.
    pub(crate) end: usize,
    ghost ordered: { at ≤ end },
    ghost within: { end ≤ vec_len pieces.room },
}

impl<S: Drop> Drop for Text<S> {
    fn drop(self) {
        let Text {
            pieces: _,
            at: _,
            end: _,
        } = self;
    }
}

impl<S: Read + Drop> Text<S> {
    ghost use Rattle.commands.specs.Refusals.{IsRefusedAs};
    ghost use Rattle.commands.specs.inner.Texts.{held, left};

    /// A text of which nothing was read.
    pub(crate) fn of(pieces: Pieces<S>) -> Text<S>
        ensures left { left S.remaining result ≡ S.remaining pieces.source }
        ensures refusal { result.pieces.refusal ≡ pieces.refusal }
    {
        Text {
            pieces,
            at: 0,
            end: 0,
        }
    }

    /// Answers the buffered bytes: those that were read and not consumed.
    pub(crate) fn held(&self) -> &[u8]
        ensures { result.now ≡ held self.now }
    {
        &self.pieces.room[self.at..self.end]
    }

    /// Reads the next piece if the buffer is empty; the buffer stays empty at the end of the source. It errs if the read fails.
    pub(crate) fn fill(&mut self) -> Result<(), Refusal>
        ensures kept { OnOk result (Keeps (left S.remaining self.old) (left S.remaining self.new)) }
        ensures ended { OnOk result (held self.new ≡ [] → IsAtEnd (left S.remaining self.new)) }
        ensures refused { IfErr result (IsRefusedAs self.old.pieces.refusal) }
        ensures refusal { self.new.pieces.refusal ≡ self.old.pieces.refusal }
    {
        if self.at == self.end {
            self.at = 0;
            self.end = 0;
            self.end = self.pieces.read()?;
        }
        Ok(())
    }

    /// Consumes the first `count` of the buffered bytes.
    pub(crate) fn take(&mut self, count: usize)
        requires { count ≤ length (held self.old) }
        ensures taken { Consumes (left S.remaining self.old) (left S.remaining self.new) (take count (held self.old)) }
        ensures refusal { self.new.pieces.refusal ≡ self.old.pieces.refusal }
    {
        self.at += count;
    }
}
