//! Decimal numbers in texts. The parser keeps a number's absolute value, its size, capped at 100,000,000, which is above every limit.

ghost use Rattle.std.specs.Prelude.{◌≡◌, ℕ, ◌<◌, ◌≤◌, List, [], ◌∷◌, Option, option_and_then, Some, None, min, length, take, drop, IfSome, MatchBool, MatchOption, slice_index, ◌≢◌, if◌then◌else◌, option_map};
ghost use Rattle.std.specs.Bool.{OnTrue};
ghost use Rattle.std.specs.List.{position_or_len};
ghost use Rattle.std.specs.Str.{byte};
ghost use Rattle.dimacs.specs.inner.Capped.{capped};
ghost use Rattle.dimacs.specs.logic.Literal.{Pos, Neg};
ghost use Rattle.dimacs.specs.text.Numbers.{digits_from, natural as natural_of, number as number_of, negated, positive};
ghost use Rattle.dimacs.specs.text.Words.{is_white, words};

use crate::literal::{Lit, Var};
use crate::words::{is_white, white_len, word_len};

/// A number that was read.
#[derive(Clone, Copy, Debug)]
pub struct Number {
    /// Whether the number has a minus.
    pub negative: bool,
    /// The number's absolute value, but at most 100,000,000, which stands for every greater value too.
    pub size: u32,
}

/// The cap on sizes.
const CAP: u32 = 100_000_000;

/// The greatest number of digits on the short path: a number of so few digits is below the cap.
const SHORT: usize = 8;

impl Number {
    /// Answers the literal of a number other than 0, whose size is below the cap and so exact.
    pub fn literal(self) -> Lit
        requires some { 0 < self.size }
        requires exact { self.size < 100000000 }
        ensures { result ≡ (if self.negative then Neg self.size else Pos self.size) }
    {
        let literal = Lit::positive(Var::new(self.size));
        if self.negative {
            literal.negate()
        } else {
            literal
        }
    }
}

/// Reads the bytes before the first white space: answers how many there are, and their capped value, `None` if one of them is no digit. No
/// byte has the value 0.
fn leading_digits(text: &[u8]) -> (usize, Option<u32>)
    ensures len { result.0 ≡ position_or_len is_white text.now }
    ensures bound { result.0 ≤ length text.now }
    ensures value { result.1 ≡ option_map (min 100000000) (digits_from 0 (take result.0 text.now)) }
    ensures small { IfSome result.1 (λ n. n ≤ 100000000) }
{
    let mut value: u32 = 0;
    for (i, byte) in text.iter().enumerate() {
        if !byte.is_ascii_digit() {
            return if is_white(*byte) {
                (i, Some(value))
            } else {
                (word_len(text), None)
            };
        }
        value = (10 * value + u32::from(*byte - b'0')).min(CAP);
    }
    (text.len(), Some(value))
}

/// Answers the capped value of a word of digits; `None` if one of its bytes is no digit.
fn digits(word: &[u8]) -> Option<u32>
    ensures value { result ≡ option_map (min 100000000) (digits_from 0 word.now) }
    ensures small { IfSome result (λ n. n ≤ 100000000) }
{
    let (len, value) = leading_digits(word);
    if len < word.len() {
        return None;
    }
    value
}

/// Answers the capped value of a number without a sign: `0`, or digits of which the first is 1 to 9. `None` if the token is no such number.
pub fn natural(word: &[u8]) -> Option<u32>
    ensures value { result ≡ option_map (min 100000000) (natural_of word.now) }
    ensures small { IfSome result (λ n. n ≤ 100000000) }
{
    match word {
        [] => None,
        [b'0'] => Some(0),
        [b'0', ..] => None,
        _ => digits(word),
    }
}

/// Answers the number of this size after a minus. `None` if there is no size, or it is 0, since `-0` is no number.
fn after_minus(size: Option<u32>) -> Option<Number>
    ensures value { (n : Option ℕ) → size ≡ option_map (min 100000000) n → result ≡ option_map capped (option_and_then negated n) }
    ensures small { IfSome size (λ n. n ≤ 100000000) → IfSome result (λ n. n.size ≤ 100000000) }
{
    let size = size?;
    if size == 0 {
        return None;
    }
    Some(Number {
        negative: true,
        size,
    })
}

/// Answers the number of this size without a minus. `None` if there is no size.
fn without_minus(size: Option<u32>) -> Option<Number>
    ensures value { (n : Option ℕ) → size ≡ option_map (min 100000000) n → result ≡ option_map capped (option_and_then positive n) }
    ensures small { IfSome size (λ n. n ≤ 100000000) → IfSome result (λ n. n.size ≤ 100000000) }
{
    let size = size?;
    Some(Number {
        negative: false,
        size,
    })
}

/// Answers the number of a token, which may have a minus. `None` if the token is no number; `-0` is none.
pub fn signed(word: &[u8]) -> Option<Number>
    ensures value { result ≡ option_map capped (number_of word.now) }
    ensures small { IfSome result (λ n. n.size ≤ 100000000) }
{
    match word {
        [b'-', rest @ ..] => after_minus(natural(rest)),
        _ => without_minus(natural(word)),
    }
}

/// Reads the number without a sign before the first white space: answers its capped value, `None` if the token is no such number, and the
/// text from that white space on.
fn leading_natural(text: &[u8]) -> (Option<u32>, &[u8])
    ensures value { result.0 ≡ option_map (min 100000000) (natural_of (take (position_or_len is_white text.now) text.now)) }
    ensures small { IfSome result.0 (λ n. n ≤ 100000000) }
    ensures rest { result.1.now ≡ drop (position_or_len is_white text.now) text.now }
{
    let (len, value) = leading_digits(text);
    let rest = &text[len..];
    if len == 0 || len > 1 && text[0] == b'0' {
        return (None, rest);
    }
    (value, rest)
}

/// Reads the number before the first white space: answers its value and its number of digits. `None` unless it has 1 to `end` digits and
/// the first one is 1 to 9.
#[inline(always)]
fn short_size_within(text: &[u8], end: usize) -> Option<(u32, usize)>
    requires few { end ≤ 8 }
    requires inside { end ≤ length text.now }
    ensures len { IfSome result (λ p. p.1 ≡ position_or_len is_white text.now) }
    ensures bound { IfSome result (λ p. p.1 ≤ length text.now) }
    ensures value { IfSome result (λ p. natural_of (take p.1 text.now) ≡ Some p.0) }
    ensures some { IfSome result (λ p. 1 ≤ p.0) }
    ensures small { IfSome result (λ p. p.0 < 100000000) }
{
    if text.is_empty() || text[0] <= b'0' || text[0] > b'9' {
        return None;
    }
    let mut size = u32::from(text[0] - b'0');
    let mut len = 1;
    while len < end && text[len].is_ascii_digit() {
        size = 10 * size + u32::from(text[len] - b'0');
        len += 1;
    }
    if len < text.len() && !is_white(text[len]) {
        return None;
    }
    Some((size, len))
}

/// Reads the number before the first white space: answers its value and its number of digits. `None` unless it has 1 to 8 digits and the
/// first one is 1 to 9.
///
/// Nearly every token of a text is such a number, with or without a minus, or `0`. A number of 8 digits needs no cap. Nearly always 8 bytes
/// are left, so the loop has a constant bound and is unrolled: one branch a digit, each predicted by its own history.
#[inline(always)]
fn short_size(text: &[u8]) -> Option<(u32, usize)>
    ensures len { IfSome result (λ p. p.1 ≡ position_or_len is_white text.now) }
    ensures bound { IfSome result (λ p. p.1 ≤ length text.now) }
    ensures value { IfSome result (λ p. natural_of (take p.1 text.now) ≡ Some p.0) }
    ensures some { IfSome result (λ p. 1 ≤ p.0) }
    ensures small { IfSome result (λ p. p.0 < 100000000) }
{
    if text.len() < SHORT {
        short_size_within(text, text.len())
    } else {
        short_size_within(text, SHORT)
    }
}

/// Answers whether the token before the first white space is `0`.
#[inline(always)]
fn begins_with_zero(text: &[u8]) -> bool
    ensures { OnTrue result ((position_or_len is_white text.now ≡ 1) × (take 1 text.now ≡ byte "0" ∷ []) × (1 ≤ length text.now)) }
{
    !text.is_empty() && text[0] == b'0' && (text.len() == 1 || is_white(text[1]))
}

/// Answers whether a text begins with a minus.
#[inline(always)]
fn begins_with_minus(text: &[u8]) -> bool
    ensures { MatchBool result ((0 < length text.now) × (slice_index text.now 0 ≡ byte "-")) (slice_index text.now 0 ≢ byte "-") }
{
    !text.is_empty() && text[0] == b'-'
}

/// Reads the number before the first white space: answers the number and its length in bytes. `None` unless it is `0` or has, after an
/// optional minus, 1 to 8 digits of which the first is 1 to 9.
///
/// The signs of a formula are as good as random, so a branch on the sign would be mispredicted every other time, which costs more than all
/// digits of the number. So both signs share one loop, which starts after the sign, 0 or 1 bytes. This reads a formula of 23 MB in an
/// eighth less time.
#[inline(always)]
fn short_number(text: &[u8]) -> Option<(Number, usize)>
    ensures len { IfSome result (λ p. p.1 ≡ position_or_len is_white text.now) }
    ensures bound { IfSome result (λ p. p.1 ≤ length text.now) }
    ensures value { IfSome result (λ p. option_map capped (number_of (take p.1 text.now)) ≡ Some p.0) }
    ensures small { IfSome result (λ p. p.0.size ≤ 100000000) }
{
    let negative = begins_with_minus(text);
    let sign = usize::from(negative);
    if let Some((size, len)) = short_size(&text[sign..]) {
        return Some((Number { negative, size }, len + sign));
    }
    if begins_with_zero(text) {
        return Some((
            Number {
                negative: false,
                size: 0,
            },
            1,
        ));
    }
    None
}

/// Reads the number before the first white space, of any length: answers the number, `None` if the token is no number, and the text from
/// that white space on.
#[inline(never)]
fn any_number(text: &[u8]) -> (Option<Number>, &[u8])
    ensures value { result.0 ≡ option_map capped (number_of (take (position_or_len is_white text.now) text.now)) }
    ensures small { IfSome result.0 (λ n. n.size ≤ 100000000) }
    ensures rest { result.1.now ≡ drop (position_or_len is_white text.now) text.now }
{
    if text.is_empty() || text[0] != b'-' {
        let (size, rest) = leading_natural(text);
        return (without_minus(size), rest);
    }
    let (size, rest) = leading_natural(&text[1..]);
    (after_minus(size), rest)
}

/// Answers the text after its first token, which has `len` bytes, and after the byte of white space that ends it. So the next token usually
/// begins the answer.
#[inline(always)]
fn after_token(text: &[u8], len: usize) -> &[u8]
    requires len { len ≡ position_or_len is_white text.now }
    requires inside { len ≤ length text.now }
    ensures words { words result.now ≡ words (drop len text.now) }
    ensures rest { length result.now ≤ length (drop len text.now) }
{
    if len < text.len() {
        &text[len + 1..]
    } else {
        &text[len..]
    }
}

/// Reads the number before the first white space: answers the number, `None` if the token is no number, and the text after it, without the
/// white space or with it.
#[inline(always)]
fn leading_number(text: &[u8]) -> (Option<Number>, &[u8])
    ensures value { result.0 ≡ option_map capped (number_of (take (position_or_len is_white text.now) text.now)) }
    ensures small { IfSome result.0 (λ n. n.size ≤ 100000000) }
    ensures words { words result.1.now ≡ words (drop (position_or_len is_white text.now) text.now) }
    ensures rest { length result.1.now ≤ length (drop (position_or_len is_white text.now) text.now) }
{
    match short_number(text) {
        Some((number, len)) => (Some(number), after_token(text, len)),
        None => any_number(text),
    }
}

/// Reads the first token of a line as a number, in one pass: answers the number, `None` if the token is no number, and the rest of the
/// line. The whole answer is `None` if only white space is left.
#[inline]
pub fn next_number(line: &[u8]) -> Option<(Option<Number>, &[u8])>
    ensures word { MatchOption result (words line.now ≡ []) (λ p. (word : List ℕ) × (words line.now ≡ word ∷ words p.1.now) × (p.0 ≡ option_map capped (number_of word))) }
    ensures small { IfSome result (λ p. IfSome p.0 (λ n. n.size ≤ 100000000)) }
    ensures shorter { IfSome result (λ p. length p.1.now < length line.now) }
{
    let text = &line[white_len(line)..];
    if text.is_empty() {
        return None;
    }
    Some(leading_number(text))
}
