//! The lines of a packed text, one after the other.

ghost use Rattle.std.specs.Prelude.{◌≡◌, ◌≤◌, ◌++◌, length, drop, IfOk, MatchBool};
ghost use Rattle.lrat_text.specs.Lines.{IsCut, IsOpen};

use crate::text::PackedText;
use lrat_text::cut_line;
use std::alloc::{AllocError, Global};
use std::marker::Model;

/// The number of characters that are unpacked at once. It is even, so that each block begins with a whole packed byte.
const BLOCK: usize = 4096;

/// Appends to the line the bytes of the block from offset `at` up to the next LF, and moves `at` past that LF. If there is no LF, it
/// appends the rest of the block and answers `false`.
fn take_part(block: &[u8], at: &mut usize, line: &mut Vec<u8>) -> Result<bool, AllocError>
    requires inside { at.old ≤ length block.now }
    requires open { IsOpen line.old.items }
    ensures inside { at.new ≤ length block.now }
    ensures part { IfOk result (λ ended. MatchBool ended
        (IsCut (line.old.items ++ drop at.old block.now) line.new.items (drop at.new block.now))
        ((line.new.items ≡ line.old.items ++ drop at.old block.now) × IsOpen line.new.items)) }
{
    let left = &block[*at..];
    match cut_line(left) {
        Some((part, _)) => {
            line.extend_from_slice(part)?;
            *at += part.len() + 1;
            Ok(true)
        }
        None => {
            line.extend_from_slice(left)?;
            *at = block.len();
            Ok(false)
        }
    }
}

/// Reads a packed text line by line. Its value is the text that has not been read. Only one block is unpacked at a time.
#[derive(Drop)]
pub struct PackedLines<'t> {
    /// The allocator for the block.
    alloc: Global,
    /// The whole text.
    text: &'t PackedText,
    /// The number of characters of the text that were unpacked so far.
    from: usize,
    /// The block that was unpacked last.
    block: Vec<u8>,
    /// The offset in the block at which the next line begins.
    at: usize,
}

impl<'t> Model for PackedLines<'t> {
    ghost use Rattle.std.specs.Prelude.{◌≤◌, ◌++◌, List, ℕ, length, drop};

    ghost Value = { List ℕ };

    ghost view = { λ l. drop l.at l.block.items ++ drop l.from l.text.now };

    ghost invariant = { λ l. l.at ≤ length l.block.items };
}

impl<'t> PackedLines<'t> {
    /// A reader of the lines of a text of which no line has been read. It allocates nothing.
    pub fn of(alloc: Global, text: &'t PackedText) -> PackedLines<'t>
        ensures { result ≡ text.now }
    {
        PackedLines {
            alloc,
            text,
            from: 0,
            block: Vec::new(alloc),
            at: 0,
        }
    }

    /// Replaces `line` by the next line, without its LF. If no LF is left, it answers `false`, and `line` is the rest of the text. After an
    /// `Err` the reader is of no use.
    ///
    /// Each character is unpacked once and searched once for an LF. Memory is allocated for one block and for the line.
    pub fn next(&mut self, line: &mut Vec<u8>) -> Result<bool, AllocError>
        ensures { IfOk result (λ some. MatchBool some (IsCut self.old line.new.items self.new) (IsOpen self.old × (line.new.items ≡ self.old))) }
    {
        line.clear();
        while !take_part(&self.block, &mut self.at, line)? {
            if self.from >= self.text.len() {
                return Ok(false);
            }
            self.block = self.text.read(self.alloc, self.from, BLOCK)?;
            self.from += self.block.len();
            self.at = 0;
        }
        Ok(true)
    }
}
