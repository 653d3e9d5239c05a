//! Splitting a text that comes in pieces into lines, and delivering each line to a consumer.

ghost use Rattle.std.specs.Prelude.{◌≡◌, ◌++◌, ℕ, List, [], length, take, MatchOption, MatchResult, OnOk, OnErr};
ghost use Rattle.lrat_text.specs.Lines.{IsCut, IsOpen};
ghost use Rattle.lrat_text.specs.LineSink.{HandsOn, LineRefused, PieceStops};

use crate::cursor::cut_line;
use std::alloc::{AllocError, Global};
use std::marker::Model;

/// A consumer of lines: it is given one line after the other.
pub trait TakesLines {
    /// Why a line is refused.
    type Fault;

    /// What must hold before each call of `take_line`, and holds after each `Ok`.
    ghost may_take: { Self → Type 0 };

    /// The relation between the consumer before a line, that line, and the consumer after it, if the line was taken.
    ghost takes: { Self → List ℕ → Self → Type 0 };

    /// The relation between the consumer before a line, that line, the consumer after it, and the fault, if the line was refused.
    ghost refuses: { Self → List ℕ → Self → Self.Fault → Type 0 };

    /// Takes a line without its LF, or refuses it with a fault.
    fn take_line(&mut self, line: &[u8]) -> Result<(), Self::Fault>
        requires { may_take self.old }
        ensures { MatchResult result (λ _. may_take self.new × takes self.old line.now self.new) (λ fault. refuses self.old line.now self.new fault) };
}

/// Why a piece was not taken to its end.
#[derive(Drop)]
pub enum PieceFault<F> {
    /// Memory for the incomplete line was refused.
    NoMemory,
    /// The consumer refused a line.
    Line(F),
}

/// Delivers the lines of a text that an LF ends, and answers the text after the last LF. It ends at the first line that is refused.
pub fn take_lines<'a, T: TakesLines>(taker: &mut T, text: &'a [u8]) -> Result<&'a [u8], T::Fault>
    requires { T.may_take taker.old }
    ensures { MatchResult result
        (λ rest. T.may_take taker.new × IsOpen rest.now × HandsOn T.takes taker.old text.now taker.new rest.now)
        (λ fault. LineRefused T.takes T.refuses taker.old text.now taker.new fault) }
{
    let mut rest = text;
    while let Some((line, later)) = cut_line(rest) {
        taker.take_line(line)?;
        rest = later;
    }
    Ok(rest)
}

/// Appends the piece up to its first LF to the incomplete line `begun`, and answers the text after that LF. If the piece has no LF, it
/// appends the whole piece and answers `None`.
fn end_line<'a>(begun: &mut Vec<u8>, piece: &'a [u8]) -> Result<Option<&'a [u8]>, AllocError>
    requires { IsOpen begun.old.items }
    ensures ended { MatchResult result
        (λ found. MatchOption found
        ((begun.new.items ≡ begun.old.items ++ piece.now) × IsOpen begun.new.items)
        (λ rest. IsCut (begun.old.items ++ piece.now) begun.new.items rest.now))
        (λ _. begun.new.items ≡ begun.old.items) }
    ensures front { take (length begun.old.items) begun.new.items ≡ begun.old.items }
{
    match cut_line(piece) {
        Some((text, later)) => {
            begun.extend_from_slice(text)?;
            Ok(Some(later))
        }
        None => {
            begun.extend_from_slice(piece)?;
            Ok(None)
        }
    }
}

/// Replaces the content of a buffer by these bytes. If memory is refused, the buffer is as before.
fn replace(buffer: &mut Vec<u8>, bytes: &[u8]) -> Result<(), AllocError>
    ensures { MatchResult result (λ _. buffer.new.items ≡ bytes.now) (λ _. buffer.new.items ≡ buffer.old.items) }
{
    buffer.reserve(bytes.len())?;
    buffer.clear();
    buffer.extend_from_slice(bytes).unwrap();
    Ok(())
}

/// Delivers the lines of a piece that begins a new line, and replaces `begun` by the incomplete line at its end. After an `Err`, `begun` is
/// as before.
fn take_apart<T: TakesLines>(
    begun: &mut Vec<u8>,
    piece: &[u8],
    taker: &mut T,
) -> Result<(), PieceFault<T::Fault>>
    requires { T.may_take taker.old }
    ensures taken { MatchResult result
        (λ _. T.may_take taker.new × IsOpen begun.new.items × HandsOn T.takes taker.old piece.now taker.new begun.new.items)
        (λ fault. PieceStops T.takes T.refuses taker.old piece.now taker.new fault) }
    ensures kept { OnErr result (begun.new.items ≡ begun.old.items) }
{
    match take_lines(taker, piece) {
        Ok(rest) => match replace(begun, rest) {
            Ok(()) => Ok(()),
            Err(_) => Err(PieceFault::NoMemory),
        },
        Err(fault) => Err(PieceFault::Line(fault)),
    }
}

/// Delivers the lines that are complete with the next piece, which continues the incomplete line `begun`, and replaces `begun` by the new
/// incomplete line. After an `Err`, the bytes of `begun` are kept, but others may follow them.
fn take_piece<T: TakesLines>(
    begun: &mut Vec<u8>,
    piece: &[u8],
    taker: &mut T,
) -> Result<(), PieceFault<T::Fault>>
    requires may { T.may_take taker.old }
    requires open { IsOpen begun.old.items }
    ensures taken { MatchResult result
        (λ _. T.may_take taker.new × IsOpen begun.new.items × HandsOn T.takes taker.old (begun.old.items ++ piece.now) taker.new begun.new.items)
        (λ fault. PieceStops T.takes T.refuses taker.old (begun.old.items ++ piece.now) taker.new fault) }
    ensures front { OnErr result (take (length begun.old.items) begun.new.items ≡ begun.old.items) }
{
    if begun.is_empty() {
        return take_apart(begun, piece, taker);
    }
    let rest = match end_line(begun, piece) {
        Ok(Some(rest)) => rest,
        Ok(None) => return Ok(()),
        Err(_) => return Err(PieceFault::NoMemory),
    };
    match taker.take_line(begun) {
        Ok(()) => take_apart(begun, rest, taker),
        Err(fault) => Err(PieceFault::Line(fault)),
    }
}

/// Holds the incomplete line at the end of the last piece. A line that lies within one piece is not copied.
#[derive(Drop)]
pub struct LineBuffer {
    /// The bytes of the incomplete line, which have no LF.
    bytes: Vec<u8>,
}

impl Model for LineBuffer {
    ghost use Rattle.std.specs.Prelude.{List, ℕ};
    ghost use Rattle.lrat_text.specs.Lines.{IsOpen};

    ghost Value = { List ℕ };

    ghost view = { λ b. b.bytes.items };

    ghost invariant = { λ b. IsOpen b.bytes.items };
}

impl LineBuffer {
    /// A buffer for a text of which no byte has come.
    pub fn new(alloc: Global) -> LineBuffer
        ensures { result ≡ [] }
    {
        LineBuffer {
            bytes: Vec::new(alloc),
        }
    }

    /// Lends the bytes of the incomplete line.
    pub fn as_slice(&self) -> &[u8]
        ensures value { result.now ≡ self.now }
        ensures open { IsOpen self.now }
    {
        &self.bytes
    }

    /// Takes the next piece of a text: delivers each line that is complete now, and stores the incomplete one. After an `Err` the buffer is
    /// as before, but the lines before the refused one have been delivered.
    pub fn feed<T: TakesLines>(
        &mut self,
        piece: &[u8],
        taker: &mut T,
    ) -> Result<(), PieceFault<T::Fault>>
        requires { T.may_take taker.old }
        ensures taken { MatchResult result
            (λ _. T.may_take taker.new × HandsOn T.takes taker.old (self.old ++ piece.now) taker.new self.new)
            (λ fault. PieceStops T.takes T.refuses taker.old (self.old ++ piece.now) taker.new fault) }
        ensures open { IsOpen self.new }
        ensures kept { OnErr result (self.new ≡ self.old) }
    {
        let begun = self.bytes.len();
        match take_piece(&mut self.bytes, piece, taker) {
            Ok(()) => Ok(()),
            Err(fault) => {
                self.bytes.truncate(begun);
                Err(fault)
            }
        }
    }
}
