//! A source that is read piece by piece.

ghost use Rattle.std.specs.Prelude.{◌≡◌, ◌<◌, ◌≤◌, take, vec_len, IfOk, IfErr};
ghost use Rattle.std.specs.Io.KnownBytes.{Consumes, IsAtEnd};
ghost use Rattle.commands.specs.Known.{IsNext};
ghost use Rattle.commands.specs.Refusals.{IsRefusedAs};

use reports::Refusal;
use std::alloc::{AllocError, Global};
use std::io;
use std::io::{ErrorKind, Read};

/// How many bytes are read at a time: few enough to stay in the first-level cache until they are parsed.
const PIECE: usize = 16_384;

/// Answers the refusal for an I/O error: out of memory, or else `refusal`.
pub fn refused(error: io::Error, refusal: Refusal) -> Refusal
    ensures { IsRefusedAs refusal result }
{
    match error.kind() {
        ErrorKind::OutOfMemory => Refusal::NoMemory,
        _ => refusal,
    }
}

/// A source that is read piece by piece.
pub struct Pieces<S> {
    /// The source after the bytes that were read.
    pub(crate) source: S,
    /// The buffer, at whose front the last piece is.
    pub(crate) room: Vec<u8>,
    /// Whether the source is a regular file, which has an end: it is read to the end, since an I/O error is reported before any fault. A
    /// pipe, a terminal or a device may have none.
    pub(crate) has_end: bool,
    /// The refusal of a read that fails.
    pub(crate) refusal: Refusal,
    ghost some: { 0 < vec_len room },
}

impl<S: Drop> Drop for Pieces<S> {
    fn drop(self) {
        let Pieces {
            source: _,
            room: _,
            has_end: _,
            refusal: _,
        } = self;
    }
}

impl<S: Read + Drop> Pieces<S> {
    /// A reader of a source that has read no piece. It errs if the buffer cannot be allocated.
    pub fn of(
        alloc: Global,
        source: S,
        has_end: bool,
        refusal: Refusal,
    ) -> Result<Pieces<S>, AllocError>
        ensures source { IfOk result (λ p. p.source ≡ source) }
        ensures refusal { IfOk result (λ p. p.refusal ≡ refusal) }
    {
        let room = vec![in alloc; 0; PIECE]?;
        Ok(Pieces {
            source,
            room,
            has_end,
            refusal,
        })
    }

    /// Reads the next piece to the front of the buffer, and answers its length in bytes, which is 0 at the end of the source. An
    /// interrupted read is tried again; it errs if a read fails otherwise.
    pub(crate) fn read(&mut self) -> Result<usize, Refusal>
        ensures within { IfOk result (λ n. n ≤ vec_len self.new.room) }
        ensures consumed { IfOk result (λ n. Consumes (S.remaining self.old.source) (S.remaining self.new.source) (take n self.new.room.items)) }
        ensures ended { IfOk result (λ n. n ≡ 0 → IsAtEnd (S.remaining self.new.source)) }
        ensures refused { IfErr result (IsRefusedAs self.old.refusal) }
        ensures refusal { self.new.refusal ≡ self.old.refusal }
    {
        for _ in 0..u64::MAX {
            match self.source.read(&mut self.room) {
                Ok(len) => return Ok(len),
                Err(error) if error.kind() == ErrorKind::Interrupted => {}
                Err(error) => return Err(refused(error, self.refusal)),
            }
        }
        Err(self.refusal)
    }

    /// Whether the source is a regular file, which has an end.
    pub fn has_end(&self) -> bool
        ensures { result ≡ self.now.has_end }
    {
        self.has_end
    }

    /// Reads the next piece and answers its bytes, of which there are none at the end of the source. It errs if the read fails.
    pub fn next(&mut self) -> Result<&[u8], Refusal>
        ensures next { IfOk result (λ piece. IsNext (S.remaining self.old.source) piece.now) }
        ensures refused { IfErr result (IsRefusedAs self.old.refusal) }
    {
        let len = self.read()?;
        Ok(&self.room[..len])
    }
}
