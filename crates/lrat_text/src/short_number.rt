//! The fast path for short numbers at the beginning of a text. Nearly all tokens of a line are short numbers.

ghost use Rattle.std.specs.Prelude.{◌≡◌, if◌then◌else◌, ◌<◌, ◌≤◌, ◌^◌, ◌∷◌, length, take, Some, IfSome};
ghost use Rattle.std.specs.List.{position_or_len};
ghost use Rattle.dimacs.specs.text.Numbers.{natural as natural_of};
ghost use Rattle.lrat_text.specs.Parser.{line_tokens};
ghost use Rattle.lrat_text.specs.declared.token.Token.TheVariants.{Plus};
ghost use Rattle.lrat_text.specs.inner.Tokens.{is_space, signed_token};

use crate::token::{after_token, is_space, short_number};
use core::dec2flt::{read_digits, ten_to};

/// The number of bytes that are read at once.
const WORD: usize = 8;

/// Reads the number before the first space: answers its value and its number of digits. `None` unless it has 1 to 7 digits, the first one
/// is 1 to 9, and at least eight bytes are left.
///
/// It reads eight bytes at once without a branch on the number of digits, since that is hard to predict.
#[inline(always)]
fn word_number(text: &[u8]) -> Option<(u64, usize)>
    ensures len { IfSome result (λ p. p.1 ≡ position_or_len is_space text.now) }
    ensures bound { IfSome result (λ p. (1 ≤ p.1) × (p.1 < length text.now)) }
    ensures value { IfSome result (λ p. natural_of (take p.1 text.now) ≡ Some p.0) }
    ensures some { IfSome result (λ p. 1 ≤ p.0) }
    ensures small { IfSome result (λ p. p.0 < 2 ^ 48) }
{
    if text.len() < WORD {
        return None;
    }
    let (len, value) = read_digits(&text[..WORD], 0, 0);
    if len == 0 || len == WORD || value < ten_to(len as u64 - 1) {
        return None;
    }
    if !is_space(text[len]) {
        return None;
    }
    Some((value, len))
}

/// Reads the short number without a sign at the beginning of a line: answers its value, and the text after it and after one space, as
/// [`next_token`](crate::token::next_token) does. `None` if [`word_number`] does not read it.
#[inline(always)]
pub(crate) fn next_plus(line: &[u8]) -> Option<(u64, &[u8])>
    ensures token { IfSome result (λ p. line_tokens line.now ≡ Plus p.0 ∷ line_tokens p.1.now) }
    ensures counted { IfSome result (λ p. (1 ≤ p.0) × (p.0 < 2 ^ 48)) }
    ensures shorter { IfSome result (λ p. length p.1.now < length line.now) }
{
    let Some((n, len)) = word_number(line) else {
        return None;
    };
    Some((n, after_token(line, len)))
}

/// Answers the length of a sign in bytes: 1 for a minus, otherwise 0.
#[inline(always)]
fn sign_len(is_negative: bool) -> usize
    ensures { result ≡ if is_negative then 1 else 0 }
{
    if is_negative { 1 } else { 0 }
}

/// Reads the short number at the beginning of a line, with or without a minus: answers its value, whether it has a minus, and the text
/// after it and after one space, as [`next_token`](crate::token::next_token) does. `None` if [`short_number`] does not read the number.
///
/// There is no branch on the minus, since a literal's sign is hard to predict.
#[inline(always)]
pub(crate) fn next_signed(line: &[u8]) -> Option<(u64, bool, &[u8])>
    ensures token { IfSome result (λ p. line_tokens line.now ≡ signed_token p.1 p.0 ∷ line_tokens p.2.now) }
    ensures counted { IfSome result (λ p. (1 ≤ p.0) × (p.0 < 2 ^ 48)) }
    ensures shorter { IfSome result (λ p. length p.2.now < length line.now) }
{
    if line.is_empty() {
        return None;
    }
    let is_negative = line[0] == b'-';
    let from = sign_len(is_negative);
    let Some((n, len)) = short_number(&line[from..]) else {
        return None;
    };
    Some((n, is_negative, after_token(line, from + len)))
}
