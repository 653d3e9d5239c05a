//! The reader of a binary proof that comes in pieces: it delivers each step to a consumer.

ghost use Rattle.std.specs.Prelude.{◌≡◌, ◌≤◌, ℕ, [], ◌∷◌, MatchResult};
ghost use Rattle.std.specs.Result.{result_err};
ghost use Rattle.lrat_binary.specs.Parser.{ReaderState, BetweenSteps, BetweenStepsWithin, Ends, after_byte, at_end};
ghost use Rattle.lrat_binary.specs.StepSink.{HandsOn, FeedStops};
ghost use Rattle.lrat_binary.specs.PartialStep.{state_of};
ghost use Rattle.lrat_binary.specs.inner.ByteTaken.{step_held};

use crate::partial_step::{PartialStep, Taken};
use crate::step_sink::{FeedFault, TakesSteps};
use lrat_text::TextFault;
use std::alloc::Global;
use std::marker::Model;

/// The greatest variable of a proof, unless the caller gives a limit.
const MAX_VAR: u32 = 2_000_000;

/// Delivers the step that is complete in `parts`; the next byte begins another one. An `Err` is the consumer's refusal.
fn hand_on<T: TakesSteps>(
    parts: &mut PartialStep,
    is_deletion: bool,
    taker: &mut T,
) -> Result<(), FeedFault<T::Fault>>
    requires { T.may_take taker.old }
    ensures { (begun : ReaderState) (byte : ℕ) → after_byte begun byte ≡ Ends parts.old.limit.most (step_held is_deletion parts.old) → MatchResult result
        (λ _. T.may_take taker.new × HandsOn T.takes taker.old begun (byte ∷ []) taker.new (state_of parts.new) [])
        (λ fault. FeedStops T.takes T.refuses taker.old begun (byte ∷ []) taker.new fault) }
{
    match taker.take_step(parts.step(is_deletion)) {
        Ok(()) => {
            parts.begin();
            Ok(())
        }
        Err(fault) => Err(FeedFault::Step(fault)),
    }
}

/// Reads the next byte, and delivers the step that is complete with it, if any.
fn take_byte<T: TakesSteps>(
    parts: &mut PartialStep,
    byte: u8,
    taker: &mut T,
) -> Result<(), FeedFault<T::Fault>>
    requires { T.may_take taker.old }
    ensures { MatchResult result
        (λ _. T.may_take taker.new × HandsOn T.takes taker.old (state_of parts.old) (byte ∷ []) taker.new (state_of parts.new) [])
        (λ fault. FeedStops T.takes T.refuses taker.old (state_of parts.old) (byte ∷ []) taker.new fault) }
{
    match parts.take_byte(byte) {
        Ok(Taken::More) => Ok(()),
        Ok(Taken::Addition) => hand_on(parts, false, taker),
        Ok(Taken::Deletion) => hand_on(parts, true, taker),
        Err(fault) => Err(FeedFault::Bytes(fault)),
    }
}

/// Reads the bytes of a piece, and delivers each step that is complete with them. It ends at the first fault.
fn take_bytes<T: TakesSteps>(
    parts: &mut PartialStep,
    piece: &[u8],
    taker: &mut T,
) -> Result<(), FeedFault<T::Fault>>
    requires { T.may_take taker.old }
    ensures { MatchResult result
        (λ _. T.may_take taker.new × HandsOn T.takes taker.old (state_of parts.old) piece.now taker.new (state_of parts.new) [])
        (λ fault. FeedStops T.takes T.refuses taker.old (state_of parts.old) piece.now taker.new fault) }
{
    let mut rest = piece;
    while let Some((byte, later)) = rest.split_first() {
        take_byte(parts, *byte, taker)?;
        rest = match parts.take_short(later) {
            Ok(rest) => rest,
            Err(_) => return Err(FeedFault::Bytes(TextFault::NoMemory)),
        };
    }
    Ok(())
}

/// Reads a proof that comes in pieces, and delivers its steps to a consumer. It stores only the incomplete step at the end of the last
/// piece.
#[derive(Drop)]
pub struct BinaryReader {
    /// The incomplete step, and the limit of the variables.
    parts: PartialStep,
}

impl Model for BinaryReader {
    ghost use Rattle.lrat_binary.specs.Parser.{ReaderState};
    ghost use Rattle.lrat_binary.specs.PartialStep.{state_of};

    ghost Value = { ReaderState };

    ghost view = { λ r. state_of r.parts };
}

impl BinaryReader {
    /// A reader of a proof with variables up to `most` that has read no byte.
    pub fn within(alloc: Global, most: u32) -> BinaryReader
        requires { most ≤ 199999999 }
        ensures { result ≡ BetweenStepsWithin most }
    {
        BinaryReader {
            parts: PartialStep::within(alloc, most),
        }
    }

    /// A reader of a proof with variables up to 2,000,000 that has read no byte.
    pub fn new(alloc: Global) -> BinaryReader
        ensures { result ≡ BetweenSteps }
    {
        BinaryReader::within(alloc, MAX_VAR)
    }

    /// Reads the next piece of a proof, and delivers each step that is complete now. An `Err` is the first fault of the bytes, a refusal of
    /// memory, or the consumer's refusal; after it the reader is of no use.
    pub fn feed<T: TakesSteps>(
        &mut self,
        piece: &[u8],
        taker: &mut T,
    ) -> Result<(), FeedFault<T::Fault>>
        requires { T.may_take taker.old }
        ensures { MatchResult result
            (λ _. T.may_take taker.new × HandsOn T.takes taker.old self.old piece.now taker.new self.new [])
            (λ fault. FeedStops T.takes T.refuses taker.old self.old piece.now taker.new fault) }
    {
        take_bytes(&mut self.parts, piece, taker)
    }

    /// Answers, at the end of the proof, `LineNotEnded` if it ends within a step. It allocates nothing.
    pub fn finish(&self) -> Result<(), TextFault>
        ensures { at_end self.now ≡ ([], result_err result) }
    {
        match self.parts.place {
            None => Ok(()),
            Some(_) => Err(TextFault::LineNotEnded),
        }
    }
}
