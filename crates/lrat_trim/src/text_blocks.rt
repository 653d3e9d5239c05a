//! A packed text, unpacked block by block.

ghost use Rattle.std.specs.Prelude.{◌≡◌, ◌<◌, ◌++◌, [], length, IfOk, MatchOption};

use packed_text::PackedText;
use std::alloc::{AllocError, Global};
use std::marker::Model;

/// The number of bytes that are unpacked at once. It is even, since a packed byte holds two characters.
const BLOCK: usize = 65_536;

/// The rest of a packed text, which is read from front to end and is never unpacked as a whole.
#[derive(Drop)]
pub(crate) struct TextBlocks<'t> {
    alloc: Global,
    text: &'t PackedText,
    /// The number of bytes that were unpacked so far.
    from: usize,
}

impl<'t> Model for TextBlocks<'t> {
    ghost use Rattle.std.specs.Prelude.{List, ℕ, drop};

    ghost Value = { List ℕ };

    ghost view = { λ b. drop b.from b.text.now };
}

impl<'t> TextBlocks<'t> {
    /// Makes a reader of a text that has read no byte. It takes no memory.
    pub(crate) fn of(alloc: Global, text: &'t PackedText) -> TextBlocks<'t>
        ensures { result ≡ text.now }
    {
        TextBlocks {
            alloc,
            text,
            from: 0,
        }
    }

    /// Returns the next bytes, at least one; `None` at the end of the text.
    pub(crate) fn next(&mut self) -> Result<Option<Vec<u8>>, AllocError>
        ensures { IfOk result (λ block. MatchOption block (self.old ≡ [])
            (λ bytes. (self.old ≡ bytes.items ++ self.new) × (length self.new < length self.old))) }
    {
        if self.from >= self.text.len() {
            return Ok(None);
        }
        let block = self.text.read(self.alloc, self.from, BLOCK)?;
        self.from += block.len();
        Ok(Some(block))
    }
}
