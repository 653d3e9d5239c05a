//! Splitting a text into lines, and a line into tokens.

ghost use Rattle.std.specs.Prelude.{◌≡◌, ◌<◌, ◌≤◌, [], ◌∷◌, length, MatchOption, MatchBool, IfSome};
ghost use Rattle.std.specs.List.{prefix_len, position_or_len};
ghost use Rattle.dimacs.specs.text.Words.{is_white, words, words_of, is_comment, lines};
ghost use Rattle.dimacs.specs.inner.Words.{lines_left};
ghost use Rattle.dimacs.specs.inner.Pieces.{IsCut, IsOpen};

use memchr::memchr;

/// Splits off the first line of a text: answers the line, and the text after its LF; `None` if the text has no LF, so that the line is the
/// whole text.
pub fn next_line(text: &[u8]) -> (&[u8], Option<&[u8]>)
    ensures line { lines text.now ≡ result.0.now ∷ lines_left result.1 }
    ensures shorter { IfSome result.1 (λ rest. length rest.now < length text.now) }
{
    match memchr(b'\n', text) {
        Some(end) => (&text[..end], Some(&text[end + 1..])),
        None => (text, None),
    }
}

/// Splits a text at its first LF: answers the line before the LF and the text after it; `None` if the text has no LF.
pub(crate) fn cut_line(text: &[u8]) -> Option<(&[u8], &[u8])>
    ensures { MatchOption result (IsOpen text.now) (λ p. IsCut text.now p.0.now p.1.now) }
{
    match memchr(b'\n', text) {
        Some(end) => Some((&text[..end], &text[end + 1..])),
        None => None,
    }
}

/// Answers whether a byte is white space: space, tab, CR or LF.
#[inline(always)]
pub(crate) fn is_white(byte: u8) -> bool
    ensures { result ≡ is_white byte }
{
    byte == b' ' || byte == b'\t' || byte == b'\r' || byte == b'\n'
}

/// Counts the bytes of white space at the beginning of a text.
#[inline(always)]
pub(crate) fn white_len(text: &[u8]) -> usize
    ensures value { result ≡ prefix_len is_white text.now }
    ensures bound { result ≤ length text.now }
{
    for (i, byte) in text.iter().enumerate() {
        if !is_white(*byte) {
            return i;
        }
    }
    text.len()
}

/// Counts the bytes before the first white space; the text's length if there is none.
pub(crate) fn word_len(text: &[u8]) -> usize
    ensures value { result ≡ position_or_len is_white text.now }
    ensures bound { result ≤ length text.now }
{
    for (i, byte) in text.iter().enumerate() {
        if is_white(*byte) {
            return i;
        }
    }
    text.len()
}

/// Splits off the first token of a line: answers the token and the rest of the line; `None` if only white space is left.
pub fn next_word(line: &[u8]) -> Option<(&[u8], &[u8])>
    ensures word { MatchOption result (words line.now ≡ []) (λ p. words line.now ≡ p.0.now ∷ words p.1.now) }
    ensures shorter { IfSome result (λ p. length p.1.now < length line.now) }
{
    let text = &line[white_len(line)..];
    if text.is_empty() {
        return None;
    }
    Some(text.split_at(word_len(text)))
}

/// Answers whether a line is a comment: its first byte is `c`.
pub fn is_comment(line: &[u8]) -> bool
    ensures { result ≡ is_comment line.now }
{
    !line.is_empty() && line[0] == b'c'
}

/// Answers whether a line has no token: it is a comment, or only white space.
pub fn is_blank(line: &[u8]) -> bool
    ensures { MatchBool result (words_of line.now ≡ []) ((0 < length (words_of line.now)) × (words_of line.now ≡ words line.now)) }
{
    is_comment(line) || next_word(line).is_none()
}
