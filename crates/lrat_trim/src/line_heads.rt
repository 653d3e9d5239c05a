//! The beginning of a line, found without parsing the line. It decides which lemmas are kept, and nothing else: the shorter text is
//! checked.

use memchr::memchr;

/// The kind of a line, by its beginning.
#[derive(Clone, Copy)]
pub(crate) enum Head {
    /// The line deletes clauses.
    Deletion,
    /// The line adds a lemma under this number.
    Lemma { id: u64, is_empty: bool },
}

/// Returns the number that the digits spell; the greatest number of 64 bits if it does not fit.
fn number(digits: &[u8]) -> u64 {
    let mut number = 0u64;
    for digit in digits {
        number = number
            .saturating_mul(10)
            .saturating_add(u64::from(digit.wrapping_sub(b'0')));
    }
    number
}

/// Returns the first byte that is no space; `None` if there is none.
fn first_byte(text: &[u8]) -> Option<u8> {
    for byte in text {
        if *byte != b' ' {
            return Some(*byte);
        }
    }
    None
}

/// Returns the head of a line that spells a step: after its number, a deletion has a `d`, and the empty lemma a `0`.
pub(crate) fn head_of(line: &[u8]) -> Head {
    let end = memchr(b' ', line).unwrap_or(line.len());
    match first_byte(&line[end..]) {
        Some(b'd') => Head::Deletion,
        next => Head::Lemma {
            id: number(&line[..end]),
            is_empty: next == Some(b'0'),
        },
    }
}
