//! What is known of lines without parsing them: whether a line is a deletion, and how many lines a text has.

ghost use Rattle.std.specs.Prelude.{◌≡◌, ◌==◌, count_by, IfOk};
ghost use Rattle.lrat_text.specs.Grammar.{lf};

use memchr::memchr;
use packed_text::PackedText;
use std::alloc::{AllocError, Global};

/// The number of characters that are unpacked at once. It is even, since a packed byte holds two characters.
const BLOCK: usize = 4096;

/// Answers whether a line is a deletion: the letter `d` follows its number.
pub(crate) fn deletes(line: &[u8]) -> bool {
    let Some(space) = memchr(b' ', line) else {
        return false;
    };
    match line.get(space + 1) {
        Some(byte) => *byte == b'd',
        None => false,
    }
}

/// Counts how often a byte occurs in a text.
fn count(text: &[u8], byte: u8) -> usize
    ensures { result ≡ count_by (λ b. b == byte) text.now }
{
    text.iter().filter(|b| **b == byte).count()
}

/// Counts a text's LFs, which end its lines.
pub(crate) fn count_lines(alloc: Global, text: &PackedText) -> Result<usize, AllocError>
    ensures { IfOk result (λ lines. lines ≡ count_by (λ b. b == lf) text.now) }
{
    let mut lines = 0usize;
    let mut from = 0usize;
    while from < text.len() {
        let block = text.read(alloc, from, BLOCK)?;
        lines += count(&block, b'\n');
        from += block.len();
    }
    Ok(lines)
}
