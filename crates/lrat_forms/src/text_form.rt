//! The converter of a proof in either form to text.

ghost use Rattle.std.specs.Prelude.{◌≡◌, ◌≢◌, ◌≤◌, ◌++◌, ℕ, List, [], false, IfSome, OnOk};
ghost use Rattle.std.specs.Result.{result_err};
ghost use Rattle.lrat_forms.specs.Forms.{fault_line, fault_text, is_binary, text_form_within};
ghost use Rattle.lrat_forms.specs.Pieces.{HasGiven, HasGivenWithin, given_of, is_cut};
ghost use Rattle.lrat_forms.specs.inner.BinaryPiece.{ReadsAt, ReadsOn, stage_at};

use crate::first_byte::is_letter;
use crate::line_writer::LineWriter;
use lrat_binary::{BinaryReader, FeedFault};
use lrat_text::TextFault;
use std::alloc::{AllocError, Global};

/// What is known of the proof from the bytes read so far.
#[derive(Clone, Copy)]
pub(crate) enum Stage {
    /// No byte has come yet, so the form is unknown.
    Awaiting,
    /// The proof is a text.
    Text,
    /// The proof is in binary form, and has no fault so far.
    Binary,
    /// The proof is in binary form, and after its steps the reader met a fault, whose line has been written.
    Faulty,
    /// Memory was refused. This stage is never left.
    OutOfMemory,
}

/// Converts a proof in either form, which comes in pieces, to text. It stores only the incomplete step at the end of the last piece, and
/// the text of that piece.
pub struct TextForm {
    /// What is known of the proof so far.
    pub(crate) stage: Stage,
    /// The reader of a proof in binary form.
    pub(crate) reader: BinaryReader,
    /// The lines for the last piece of a proof in binary form.
    pub(crate) writer: LineWriter,
}

impl Drop for TextForm {
    fn drop(self) {
        let TextForm {
            stage: _,
            reader: _,
            writer: _,
        } = self;
    }
}

/// Answers a line that makes a reader of text report this fault, so that faults of bytes are
/// reported by the checker of text; nothing for `NoMemory`, which is no fault of a text.
fn fault_line(fault: TextFault) -> &'static [u8]
    ensures { result.now ≡ fault_line fault }
{
    match fault {
        TextFault::BadToken => b"\n",
        TextFault::LineNotEnded => b"0",
        TextFault::MissingZero => b"1\n",
        TextFault::NumberTooLarge => b"281474976710656\n",
        TextFault::NoMemory => b"",
    }
}

/// Appends the line that makes a reader of the text report this fault, at the step that the bytes
/// do not spell.
fn put_fault(writer: &mut LineWriter, fault: TextFault) -> Result<(), AllocError>
    ensures { OnOk result (writer.new.out.items ≡ writer.old.out.items ++ fault_line fault) }
{
    writer.out.extend_from_slice(fault_line(fault))
}

/// Answers the fault, except `NoMemory`, for which it answers `None`: that says nothing of the
/// bytes.
fn known(fault: TextFault) -> Option<TextFault>
    ensures { IfSome result (λ f. (f ≡ fault) × (fault ≢ TextFault.NoMemory)) }
{
    match fault {
        TextFault::NoMemory => None,
        _ => Some(fault),
    }
}

/// Answers the fault of bytes that spell no step; `None` if memory was refused.
fn fault_of(fault: FeedFault<AllocError>) -> Option<TextFault>
    ensures { IfSome result (λ f. (fault ≡ FeedFault.Bytes f) × (f ≢ TextFault.NoMemory)) }
{
    match fault {
        FeedFault::Bytes(fault) => known(fault),
        FeedFault::Step(_) => None,
    }
}

/// Reads a piece of a proof in binary form, appends the lines of the steps that are complete now, or the line of a fault, and answers the
/// new stage.
fn read_on(reader: &mut BinaryReader, writer: &mut LineWriter, piece: &[u8]) -> Stage
    ensures { ReadsOn reader.old writer.old piece.now result reader.new writer.new }
{
    let fault = match reader.feed(piece, writer) {
        Ok(()) => return Stage::Binary,
        Err(fault) => fault,
    };
    let Some(fault) = fault_of(fault) else {
        return Stage::OutOfMemory;
    };
    match put_fault(writer, fault) {
        Ok(()) => Stage::Faulty,
        Err(_) => Stage::OutOfMemory,
    }
}

/// Answers the stage before a piece is read. The first byte of the whole proof decides its form:
/// `a` or `d` begins a binary one.
fn stage_at(stage: Stage, first: u8) -> Stage
    ensures { result ≡ stage_at stage first }
{
    match stage {
        Stage::Awaiting => {
            if is_letter(first) {
                Stage::Binary
            } else {
                Stage::Text
            }
        }
        _ => stage,
    }
}

/// Reads a piece if the proof is in binary form and has no fault so far, and answers the new stage. In the other stages it does nothing.
fn read_at(stage: Stage, reader: &mut BinaryReader, writer: &mut LineWriter, piece: &[u8]) -> Stage
    ensures { ReadsAt stage reader.old writer.old piece.now result reader.new writer.new }
{
    match stage {
        Stage::Binary => read_on(reader, writer, piece),
        _ => stage,
    }
}

/// Answers the text for the end of a proof in binary form: nothing if it ends after a step, or else
/// a line that makes a reader of text report the fault.
fn ended(end: Result<(), TextFault>) -> &'static [u8]
    ensures { result.now ≡ fault_text (result_err end) }
{
    match end {
        Ok(()) => b"",
        Err(fault) => fault_line(fault),
    }
}

impl TextForm {
    /// A converter of a proof with variables up to `most`, that has read no byte.
    pub fn within(alloc: Global, most: u32) -> TextForm
        requires { most ≤ 199999999 }
        ensures { HasGivenWithin most result [] [] }
    {
        TextForm {
            stage: Stage::Awaiting,
            reader: BinaryReader::within(alloc, most),
            writer: LineWriter {
                top: 1,
                out: Vec::new(alloc),
            },
        }
    }

    /// A converter of a proof with variables up to 2,000,000, that has read no byte.
    pub fn new(alloc: Global) -> TextForm
        ensures { HasGiven result [] [] }
    {
        TextForm::within(alloc, 2_000_000)
    }

    /// Reads the next piece of a proof in either form; [`TextForm::given`] then lends its text.
    pub fn feed(&mut self, piece: &[u8])
        ensures { (most : ℕ) (bytes text : List ℕ) → HasGivenWithin most self.old bytes text → HasGivenWithin most self.new (bytes ++ piece.now) (text ++ given_of self.new piece.now) }
    {
        self.writer.begin();
        let Some(first) = piece.first() else {
            return;
        };
        let stage = stage_at(self.stage, *first);
        self.stage = read_at(stage, &mut self.reader, &mut self.writer, piece);
    }

    /// Lends the text of the piece that was read last, which the caller passes again: the piece
    /// itself if the proof is text, or else the lines that were written for its steps.
    pub fn given<'a>(&'a self, piece: &'a [u8]) -> &'a [u8]
        ensures { result.now ≡ given_of self.now piece.now }
    {
        match self.stage {
            Stage::Text => piece,
            _ => &self.writer.out,
        }
    }

    /// Answers whether memory was refused. If it was, the text of the proof is unknown.
    pub fn is_cut(&self) -> bool
        ensures { result ≡ is_cut self.now.stage }
    {
        match self.stage {
            Stage::OutOfMemory => true,
            _ => false,
        }
    }

    /// Answers whether the proof is in binary form; false while no byte has come, and after a refusal of memory.
    pub fn is_binary(&self) -> bool
        ensures { (most : ℕ) (bytes text : List ℕ) → HasGivenWithin most self.now bytes text → is_cut self.now.stage ≡ false → result ≡ is_binary bytes }
    {
        match self.stage {
            Stage::Binary | Stage::Faulty => true,
            _ => false,
        }
    }

    /// Answers, at the end of the proof, the text after that of the last piece: nothing, or a line without LF, which has the fault
    /// `LineNotEnded`.
    pub fn rest(&self) -> &'static [u8]
        ensures { (most : ℕ) (bytes text : List ℕ) → HasGivenWithin most self.now bytes text → is_cut self.now.stage ≡ false → text_form_within most bytes ≡ text ++ result.now }
    {
        match self.stage {
            Stage::Binary => ended(self.reader.finish()),
            _ => b"",
        }
    }
}
