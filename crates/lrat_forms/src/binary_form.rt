//! The converter of a text to the binary form.

ghost use Rattle.std.specs.Prelude.{◌≡◌, ◌≤◌, ◌++◌, ℕ, List, [], OnOk};
ghost use Rattle.lrat_forms.specs.SameSteps.{HasWritten, HasWrittenWithin, SpellTheSameWithin};

use crate::limit::Limit;
use crate::step_encoder::put_step;
use lrat_text::{LineBuffer, PieceFault, StepBuffer, TakesLines, TextFault, read_line_within};
use std::alloc::Global;

/// The consumer of lines that writes the step of each line in binary form.
pub(crate) struct StepWriter {
    /// The step of the line that was read last.
    pub(crate) buffer: StepBuffer,
    /// The greatest variable that a line may have.
    pub(crate) limit: Limit,
    /// The bytes written since the last call of [`BinaryForm::forget`].
    pub(crate) out: Vec<u8>,
}

impl Drop for StepWriter {
    fn drop(self) {
        let StepWriter {
            buffer: _,
            limit: _,
            out: _,
        } = self;
    }
}

impl TakesLines for StepWriter {
    ghost use Rattle.lrat_forms.specs.inner.WrittenSteps.{MayTake, Refuses, Writes};

    type Fault = TextFault;

    ghost may_take = { MayTake };

    ghost takes = { Writes };

    ghost refuses = { Refuses };

    /// Reads a line, and appends its step in binary form. A line that spells no step is refused.
    fn take_line(&mut self, line: &[u8]) -> Result<(), TextFault> {
        read_line_within(&mut self.buffer, self.limit.most, line)?;
        put_step(&mut self.out, self.limit, self.buffer.as_ref())?;
        Ok(())
    }
}

/// Converts a text that comes in pieces to the binary form.
pub struct BinaryForm {
    /// The incomplete line.
    pub(crate) begun: LineBuffer,
    /// The writer of the steps, with the bytes that the caller has not yet fetched.
    pub(crate) writer: StepWriter,
}

impl Drop for BinaryForm {
    fn drop(self) {
        let BinaryForm {
            begun: _,
            writer: _,
        } = self;
    }
}

impl BinaryForm {
    /// A converter of a text with variables up to `most`, that has read no byte.
    pub fn within(alloc: Global, most: u32) -> BinaryForm
        requires { most ≤ 199999999 }
        ensures { HasWrittenWithin most result [] [] }
    {
        BinaryForm {
            begun: LineBuffer::new(alloc),
            writer: StepWriter {
                buffer: StepBuffer::new(alloc),
                limit: Limit { most },
                out: Vec::new(alloc),
            },
        }
    }

    /// A converter of a text with variables up to 2,000,000, that has read no byte.
    pub fn new(alloc: Global) -> BinaryForm
        ensures { HasWritten result [] [] }
    {
        BinaryForm::within(alloc, 2_000_000)
    }

    /// Reads the next piece of a text, and writes the steps of the lines that are complete now. An `Err` is the fault of a line that spells
    /// no step, or a refusal of memory; after it the converter is of no use.
    pub fn feed(&mut self, piece: &[u8]) -> Result<(), TextFault>
        ensures { OnOk result ((most : ℕ) (text bytes : List ℕ) → HasWrittenWithin most self.old text bytes → HasWrittenWithin most self.new (text ++ piece.now) bytes) }
    {
        match self.begun.feed(piece, &mut self.writer) {
            Ok(()) => Ok(()),
            Err(PieceFault::NoMemory) => Err(TextFault::NoMemory),
            Err(PieceFault::Line(fault)) => Err(fault),
        }
    }

    /// Lends the bytes written since the last call of [`BinaryForm::forget`].
    pub fn written(&self) -> &[u8]
        ensures { result.now ≡ self.now.writer.out.items }
    {
        &self.writer.out
    }

    /// Drops the bytes that [`BinaryForm::written`] lends, after the caller has stored them.
    pub fn forget(&mut self)
        ensures stands { (most : ℕ) (text bytes : List ℕ) → HasWrittenWithin most self.old text bytes → HasWrittenWithin most self.new text (bytes ++ self.old.writer.out.items) }
        ensures out { self.new.writer.out.items ≡ [] }
    {
        self.writer.out.clear();
    }

    /// Answers, at the end of the text, `LineNotEnded` if it ends within a line. After `Ok`, all bytes ever written spell the steps that
    /// the text spells.
    pub fn finish(&self) -> Result<(), TextFault>
        ensures { OnOk result ((most : ℕ) (text bytes : List ℕ) → HasWrittenWithin most self.now text bytes → SpellTheSameWithin most text (bytes ++ self.now.writer.out.items)) }
    {
        if self.begun.as_slice().is_empty() {
            Ok(())
        } else {
            Err(TextFault::LineNotEnded)
        }
    }
}
