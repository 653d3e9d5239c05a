//! Where the lines of a proof go as they are found.

ghost use Rattle.std.specs.Prelude.{◌≡◌, ◌++◌, List, ℕ, [], length, IfErr, OnOk};
ghost use Rattle.formula_search.specs.LogSinks.{IsUnwritten};

use packed_text::PackedText;
use reports::Refusal;
use std::alloc::{AllocError, Global};

/// Takes the lines of a proof as they are found.
pub trait LogSink {
    // `has sink text`: since it was last emptied, the sink was handed this text
    ghost has: { Self → List ℕ → Type 0 };

    /// Takes more of the text.
    fn put(&mut self, text: &PackedText) -> Result<(), Refusal>
        ensures handed { OnOk result ((before : List ℕ) → has self.old before → has self.new (before ++ text.now)) }
        ensures refused { IfErr result IsUnwritten };

    /// Drops the text that it was handed, and begins anew. After [`LogSink::settle`] a sink may err, if the text has left it.
    fn empty(&mut self) -> Result<(), Refusal>
        ensures emptied { OnOk result (has self.new []) }
        ensures refused { IfErr result IsUnwritten };

    /// Tells that the text is that of a search that will go on to its end: it may leave the sink.
    fn settle(&mut self) -> Result<(), Refusal>
        ensures stays { OnOk result ((text : List ℕ) → has self.old text → has self.new text) }
        ensures refused { IfErr result IsUnwritten };
}

/// A sink that keeps the text in memory.
pub struct KeptText {
    alloc: Global,
    /// The text.
    pub(crate) text: PackedText,
}

impl Drop for KeptText {
    fn drop(self) {
        let KeptText { alloc: _, text: _ } = self;
    }
}

/// How many bytes of a packed text are unpacked at a time.
const PIECE: usize = 1 << 16;

/// Appends a packed text, `PIECE` bytes at a time.
fn append(alloc: Global, text: &mut PackedText, more: &PackedText) -> Result<(), AllocError>
    ensures { OnOk result (text.new ≡ text.old ++ more.now) }
{
    let mut from = 0;
    'pieces: while from < more.len() {
        let count = PIECE.min(more.len() - from);
        let piece = more.read(alloc, from, count)?;
        text.extend(&piece)?;
        from += count;
    }
    Ok(())
}

impl KeptText {
    /// No text.
    pub fn new(alloc: Global) -> KeptText
        ensures { result.text ≡ [] }
    {
        KeptText {
            alloc,
            text: PackedText::new(alloc),
        }
    }

    /// The length of the text in bytes.
    #[allow(clippy::len_without_is_empty)]
    pub fn len(&self) -> usize
        ensures { result ≡ length self.now.text }
    {
        self.text.len()
    }

    /// Hands out the text.
    pub fn into_text(self) -> PackedText
        ensures { result ≡ self.text }
    {
        let KeptText { alloc: _, text } = self;
        text
    }
}

impl LogSink for KeptText {
    ghost has = { λ sink text. sink.text ≡ text };

    /// Appends the text.
    fn put(&mut self, text: &PackedText) -> Result<(), Refusal> {
        match append(self.alloc, &mut self.text, text) {
            Ok(()) => Ok(()),
            Err(_) => Err(Refusal::NoMemory),
        }
    }

    /// Drops the text.
    fn empty(&mut self) -> Result<(), Refusal> {
        self.text = PackedText::new(self.alloc);
        Ok(())
    }

    /// The text stays in memory.
    fn settle(&mut self) -> Result<(), Refusal> {
        Ok(())
    }
}

/// A sink that keeps nothing, where no proof is asked for.
#[derive(Clone, Copy, Debug, PartialEq, Eq)]
pub struct Nowhere;

impl LogSink for Nowhere {
    ghost has = { λ sink text. Unit {0} };

    /// Drops the text.
    fn put(&mut self, _text: &PackedText) -> Result<(), Refusal> {
        Ok(())
    }

    /// There is nothing to drop.
    fn empty(&mut self) -> Result<(), Refusal> {
        Ok(())
    }

    /// There is nothing that could leave the sink.
    fn settle(&mut self) -> Result<(), Refusal> {
        Ok(())
    }
}
