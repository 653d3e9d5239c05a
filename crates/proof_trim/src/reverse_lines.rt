//! The lines of a packed text in reverse order, from the last one to the first.

ghost use Rattle.std.specs.Prelude.{◌+◌, ◌<◌, ◌≤◌, length, IfOk, IfSome};
ghost use Rattle.std.specs.Bool.{OnTrue};

use memchr::memrchr;
use packed_text::PackedText;
use std::alloc::{AllocError, Global};
use std::marker::Model;

/// The number of characters that are unpacked at once; more if a line is longer.
const BLOCK: usize = 4096;

/// Answers the offset at which the last line of a text begins, if an LF precedes it. An LF at the text's end belongs to that line.
fn last_begin(text: &[u8]) -> Option<usize>
    ensures { IfSome result (λ begin. begin < length text.now) }
{
    let Some((_, ended)) = text.split_last() else {
        return None;
    };
    match memrchr(b'\n', ended) {
        Some(end) => Some(end + 1),
        None => None,
    }
}

/// Unpacks the block before offset `from`, and again the `begun` bytes after it, the part of a line
/// that the block's end cuts. It moves `from` to the beginning of the block. The block is at least
/// as long as that part, so the cost is linear in the line's length.
fn block_before(
    alloc: Global,
    text: &PackedText,
    from: &mut usize,
    begun: usize,
) -> Result<Vec<u8>, AllocError>
    requires { 0 < from.old }
    ensures back { from.new < from.old }
    ensures few { IfOk result (λ block. from.new + length block.items ≤ from.old + begun) }
{
    let more = BLOCK.max(begun).min(*from);
    *from -= more;
    text.read(alloc, *from, more.saturating_add(begun))
}

/// A cursor that goes back through the lines of a packed text. The text is unpacked block by block, from its end on. The cursor's value is
/// the number of bytes before the present line.
#[derive(Drop)]
pub(crate) struct ReverseLines<'t> {
    /// The allocator for the block.
    alloc: Global,
    /// The whole text.
    text: &'t PackedText,
    /// The offset in the text at which the block begins.
    from: usize,
    /// The block that was unpacked last.
    block: Vec<u8>,
    /// The offset in the block at which the present line begins.
    begin: usize,
    /// The offset in the block of the end of the present line, before its LF.
    end: usize,
}

impl<'t> Model for ReverseLines<'t> {
    ghost use Rattle.std.specs.Prelude.{◌+◌, ◌≤◌, ℕ, length};

    ghost Value = { ℕ };

    ghost view = { λ l. l.from + l.begin };

    ghost invariant = { λ l. (l.begin ≤ l.end) × (l.end ≤ length l.block.items) };
}

impl<'t> ReverseLines<'t> {
    /// A cursor after the last line. It allocates nothing.
    pub(crate) fn of(alloc: Global, text: &'t PackedText) -> ReverseLines<'t> {
        ReverseLines {
            alloc,
            text,
            from: text.len(),
            block: Vec::new(alloc),
            begin: 0,
            end: 0,
        }
    }

    /// Goes back by one line. Answers `false` if there is no line before.
    pub(crate) fn back(&mut self) -> Result<bool, AllocError>
        ensures { IfOk result (λ some. OnTrue some (self.new < self.old)) }
    {
        let mut begin = last_begin(&self.block[..self.begin]);
        while self.from > 0 && begin.is_none() {
            self.block = block_before(self.alloc, self.text, &mut self.from, self.begin)?;
            self.begin = self.block.len();
            self.end = self.begin;
            begin = last_begin(&self.block);
        }
        if self.begin == 0 {
            return Ok(false);
        }
        self.end = self.begin - 1;
        self.begin = begin.unwrap_or(0);
        Ok(true)
    }

    /// Lends the present line, without its LF.
    pub(crate) fn line(&self) -> &[u8] {
        &self.block[self.begin..self.end]
    }
}
