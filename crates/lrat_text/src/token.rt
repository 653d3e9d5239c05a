//! Tokens: a line is cut at its spaces, and each word is the letter `d`, a number or neither.

ghost use Rattle.std.specs.Prelude.{◌≡◌, ℕ, ◌<◌, ◌≤◌, ◌^◌, ◌==◌, [], ◌∷◌, length, min, take, drop, Option, Some, IfSome, option_map, option_and_then};
ghost use Rattle.std.specs.Bool.{OnTrue};
ghost use Rattle.std.specs.List.{prefix_len, position_or_len};
ghost use Rattle.std.specs.Str.{byte};
ghost use Rattle.dimacs.specs.text.Numbers.{digits_from, natural as natural_of, positive, negated};
ghost use Rattle.lrat_text.specs.Parser.{number_token, token_of, line_tokens};
ghost use Rattle.lrat_text.specs.inner.Tokens.{is_space, HasNumberInRange, tokens_from};

/// A token of a line. The parser decides where which token may stand.
#[derive(Clone, Copy)]
pub(crate) enum Token {
    /// The word `d`.
    Letter,
    /// The word `0`.
    Zero,
    /// A number from 1 to 2^48 - 1.
    Plus(u64),
    /// A minus and a number from 1 to 2^48 - 1.
    Minus(u64),
    /// A number from 2^48 on.
    LargePlus,
    /// A minus and a number from 2^48 on.
    LargeMinus,
    /// Every other word.
    Other,
}

/// The cap on numbers, 2^48, which stands for every number from there on: larger ones are cut to the cap, so that no sum wraps.
const CAP: u64 = 281_474_976_710_656;

/// The greatest number of digits on the short path. Numbers of up to 14 digits are below the cap. A smaller limit lets more tokens near the
/// end of a line take the unrolled loop, which needs as many bytes in the line.
const SHORT: usize = 10;

/// Answers whether a byte separates tokens: only the space does.
#[inline(always)]
pub(crate) fn is_space(byte: u8) -> bool
    ensures { result ≡ is_space byte }
{
    byte == b' '
}

/// Counts the spaces at the beginning of a text.
#[inline(always)]
fn space_len(text: &[u8]) -> usize
    ensures value { result ≡ prefix_len is_space text.now }
    ensures bound { result ≤ length text.now }
{
    for (i, byte) in text.iter().enumerate() {
        if !is_space(*byte) {
            return i;
        }
    }
    text.len()
}

/// Counts the bytes before the first space; the text's length if there is none.
pub(crate) fn word_len(text: &[u8]) -> usize
    ensures value { result ≡ position_or_len is_space text.now }
    ensures bound { result ≤ length text.now }
{
    for (i, byte) in text.iter().enumerate() {
        if is_space(*byte) {
            return i;
        }
    }
    text.len()
}

/// Reads the word before the first space: answers its value (at most 2^48, the cap) and its length. The value is `None` if a byte is no
/// digit. The empty word has the value 0.
#[inline(always)]
fn digits(text: &[u8]) -> (Option<u64>, usize)
    ensures len { result.1 ≡ position_or_len is_space text.now }
    ensures bound { result.1 ≤ length text.now }
    ensures value { result.0 ≡ option_map (min (2 ^ 48)) (digits_from 0 (take result.1 text.now)) }
    ensures small { IfSome result.0 (λ n. n ≤ 2 ^ 48) }
{
    let mut value: u64 = 0;
    for (i, byte) in text.iter().enumerate() {
        if !byte.is_ascii_digit() {
            return if is_space(*byte) {
                (Some(value), i)
            } else {
                (None, word_len(text))
            };
        }
        value = (10 * value + u64::from(*byte - b'0')).min(CAP);
    }
    (Some(value), text.len())
}

/// Reads the word before the first space: answers its value (at most 2^48, the cap) and its length. The value is `None` if the word is no
/// number without a sign; only `0` itself may begin with `0`.
#[inline(always)]
fn natural(text: &[u8]) -> (Option<u64>, usize)
    ensures len { result.1 ≡ position_or_len is_space text.now }
    ensures bound { result.1 ≤ length text.now }
    ensures value { result.0 ≡ option_map (min (2 ^ 48)) (natural_of (take result.1 text.now)) }
    ensures small { IfSome result.0 (λ n. n ≤ 2 ^ 48) }
{
    let (value, len) = digits(text);
    if len == 0 {
        return (None, len);
    }
    if len > 1 && text[0] == b'0' {
        return (None, len);
    }
    (value, len)
}

/// Makes the token of a word without a minus from its value (at most 2^48); `Other` if the word is no number.
#[inline(always)]
fn plus_token(size: Option<u64>) -> Token
    ensures token { (n : Option ℕ) → size ≡ option_map (min (2 ^ 48)) n → result ≡ number_token (option_and_then positive n) }
    ensures counted { HasNumberInRange result }
{
    match size {
        None => Token::Other,
        Some(n) => {
            if n == 0 {
                Token::Zero
            } else if n < CAP {
                Token::Plus(n)
            } else {
                Token::LargePlus
            }
        }
    }
}

/// Makes the token of a word that begins with a minus from the value after the minus (at most 2^48); `Other` if that is `0` or no number.
#[inline(always)]
fn minus_token(size: Option<u64>) -> Token
    ensures token { (n : Option ℕ) → size ≡ option_map (min (2 ^ 48)) n → result ≡ number_token (option_and_then negated n) }
    ensures counted { HasNumberInRange result }
{
    match size {
        None => Token::Other,
        Some(n) => {
            if n == 0 {
                Token::Other
            } else if n < CAP {
                Token::Minus(n)
            } else {
                Token::LargeMinus
            }
        }
    }
}

/// Reads the number before the first space: answers its value and its number of digits. `None` unless it has 1 to `end` digits and the
/// first one is 1 to 9.
#[inline(always)]
fn short_number_within(text: &[u8], end: usize) -> Option<(u64, usize)>
    requires few { end ≤ 14 }
    requires inside { end ≤ length text.now }
    ensures len { IfSome result (λ p. p.1 ≡ position_or_len is_space text.now) }
    ensures bound { IfSome result (λ p. p.1 ≤ length text.now) }
    ensures value { IfSome result (λ p. natural_of (take p.1 text.now) ≡ Some p.0) }
    ensures some { IfSome result (λ p. 1 ≤ p.0) }
    ensures small { IfSome result (λ p. p.0 < 2 ^ 48) }
{
    if text.is_empty() || text[0] <= b'0' || text[0] > b'9' {
        return None;
    }
    let mut value = u64::from(text[0] - b'0');
    let mut len = 1;
    while len < end && text[len].is_ascii_digit() {
        value = 10 * value + u64::from(text[len] - b'0');
        len += 1;
    }
    if len < text.len() && !is_space(text[len]) {
        return None;
    }
    Some((value, len))
}

/// Reads the number before the first space: answers its value and its number of digits. `None` unless it has 1 to 10 digits and the first
/// one is 1 to 9.
///
/// Nearly every token of a proof is such a number, and a check spends most of its time on tokens. So few digits need no cap, and the caller
/// gets the value without a match on all tokens: a check takes an eighth less time than with one function for every token. If 10 bytes are
/// left, which is the usual case, the loop has a constant end and is unrolled, so each digit's branch has its own entry in the branch
/// predictor.
#[inline(always)]
pub(crate) fn short_number(text: &[u8]) -> Option<(u64, usize)>
    ensures len { IfSome result (λ p. p.1 ≡ position_or_len is_space text.now) }
    ensures bound { IfSome result (λ p. p.1 ≤ length text.now) }
    ensures value { IfSome result (λ p. natural_of (take p.1 text.now) ≡ Some p.0) }
    ensures some { IfSome result (λ p. 1 ≤ p.0) }
    ensures small { IfSome result (λ p. p.0 < 2 ^ 48) }
{
    if text.len() < SHORT {
        short_number_within(text, text.len())
    } else {
        short_number_within(text, SHORT)
    }
}

/// Answers whether the token before the first space is `0`.
#[inline(always)]
fn begins_with_zero(text: &[u8]) -> bool
    ensures { OnTrue result ((position_or_len is_space text.now ≡ 1) × (take 1 text.now ≡ byte "0" ∷ []) × (1 ≤ length text.now)) }
{
    !text.is_empty() && text[0] == b'0' && (text.len() == 1 || is_space(text[1]))
}

/// Reads the first token of a text that begins with one: answers the token and its length in bytes. This is the slow path, which knows
/// every kind of token.
#[inline(never)]
fn any_token(text: &[u8]) -> (Token, usize)
    requires some { 0 < length text.now }
    ensures len { result.1 ≡ position_or_len is_space text.now }
    ensures bound { result.1 ≤ length text.now }
    ensures token { result.0 ≡ token_of (take result.1 text.now) }
    ensures counted { HasNumberInRange result.0 }
{
    if text[0] == b'-' {
        let (size, len) = natural(&text[1..]);
        return (minus_token(size), len + 1);
    }
    let (size, len) = natural(text);
    if len == 1 && text[0] == b'd' {
        return (Token::Letter, len);
    }
    (plus_token(size), len)
}

/// Reads the first token of a text that begins with one: answers the token and its length in bytes. Short numbers take the fast path.
#[inline(always)]
fn first_token(text: &[u8]) -> (Token, usize)
    requires some { 0 < length text.now }
    ensures len { result.1 ≡ position_or_len is_space text.now }
    ensures bound { result.1 ≤ length text.now }
    ensures token { result.0 ≡ token_of (take result.1 text.now) }
    ensures counted { HasNumberInRange result.0 }
{
    if let Some((n, len)) = short_number(text) {
        return (Token::Plus(n), len);
    }
    if text[0] == b'-' {
        if let Some((n, len)) = short_number(&text[1..]) {
            return (Token::Minus(n), len + 1);
        }
    }
    if begins_with_zero(text) {
        return (Token::Zero, 1);
    }
    any_token(text)
}

/// Answers the text after its first token, which has `len` bytes, and after one space if there is one. So the next token mostly begins the
/// answer.
#[inline(always)]
pub(crate) fn after_token(text: &[u8], len: usize) -> &[u8]
    requires len { len ≡ position_or_len is_space text.now }
    requires inside { len ≤ length text.now }
    ensures tokens { line_tokens result.now ≡ line_tokens (drop len text.now) }
    ensures rest { length result.now ≤ length (drop len text.now) }
{
    if len < text.len() {
        &text[len + 1..]
    } else {
        &text[len..]
    }
}

/// Reads the next token of a line: answers the token, and the text after it and after one space. `None` if only spaces are left.
#[inline(always)]
pub(crate) fn next_token(line: &[u8]) -> Option<(Token, &[u8])>
    ensures token { line_tokens line.now ≡ tokens_from result }
    ensures counted { IfSome result (λ p. HasNumberInRange p.0) }
    ensures shorter { IfSome result (λ p. length p.1.now < length line.now) }
{
    let text = &line[space_len(line)..];
    if text.is_empty() {
        return None;
    }
    let (token, len) = first_token(text);
    Some((token, after_token(text, len)))
}
