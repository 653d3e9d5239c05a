//! The number of lemmas of a text, by counts of two bytes.

ghost use Rattle.std.specs.Prelude.{◌≡◌, ◌==◌, count_by, IfOk};
ghost use Rattle.lrat_trim.specs.inner.LemmaCount.{lemmas_in};

use crate::text_blocks::TextBlocks;
use packed_text::PackedText;
use std::alloc::{AllocError, Global};

/// Counts the occurrences of a byte in a text.
fn count(text: &[u8], byte: u8) -> usize
    ensures { result ≡ count_by (λ b. b == byte) text.now }
{
    text.iter().filter(|b| **b == byte).count()
}

/// Counts the lemmas of a text that spells steps: each line has one LF, and the letter `d` if and only if it deletes.
pub(crate) fn count_lemmas(alloc: Global, text: &PackedText) -> Result<u64, AllocError>
    ensures { IfOk result (λ lemmas. lemmas ≡ lemmas_in text.now) }
{
    let mut lines = 0usize;
    let mut deletions = 0usize;
    let _ = text.len(); // for its contract, which bounds both counts
    let mut blocks = TextBlocks::of(alloc, text);
    while let Some(block) = blocks.next()? {
        lines += count(&block, b'\n');
        deletions += count(&block, b'd');
    }
    Ok(lines.saturating_sub(deletions) as u64)
}
