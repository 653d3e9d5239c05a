//! Cuts of a piece of text: at its lines and its tokens.

ghost use Rattle.std.specs.Prelude.{◌≡◌, ◌-◌, ◌<◌, ◌≤◌, true, length, slice_index, MatchOption};
ghost use Rattle.dimacs.specs.text.Words.{is_white};
ghost use Rattle.dimacs.specs.inner.Pieces.{IsCut, IsOpen};

use memchr::memchr;

/// Cuts a text at its first LF. Returns the line before it, and the bytes after it; `None` if the text has no LF.
pub(crate) fn cut_line(text: &[u8]) -> Option<(&[u8], &[u8])>
    ensures { MatchOption result (IsOpen text.now) (λ p. IsCut text.now p.0.now p.1.now) }
{
    match memchr(b'\n', text) {
        Some(end) => Some((&text[..end], &text[end + 1..])),
        None => None,
    }
}

/// Whether a byte is white space: a space, a tab, CR or LF.
#[inline(always)]
pub(crate) fn is_white(byte: u8) -> bool
    ensures { result ≡ is_white byte }
{
    byte == b' ' || byte == b'\t' || byte == b'\r' || byte == b'\n'
}

/// The number of bytes before the first white space; the length of the text if there is none.
pub(crate) fn first_white(text: &[u8]) -> usize
    ensures bound { result ≤ length text.now }
    ensures white { result < length text.now → is_white (slice_index text.now result) ≡ true }
{
    for (i, byte) in text.iter().enumerate() {
        if is_white(*byte) {
            return i;
        }
    }
    text.len()
}

/// The number of bytes up to the last white space, which is included; 0 if there is none.
pub(crate) fn last_white(text: &[u8]) -> usize
    ensures bound { result ≤ length text.now }
    ensures white { 0 < result → is_white (slice_index text.now (result - 1)) ≡ true }
{
    let mut len = text.len();
    while len > 0 && !is_white(text[len - 1]) {
        len -= 1;
    }
    len
}
