//! Reads the fields of a receipt's head: digests and numbers, each after a fixed prefix.

ghost use Rattle.std.specs.Prelude.{◌≡◌, ◌≢◌, ℕ, ◌<◌, ◌^◌, ◌∷◌, ◌++◌, List, MatchOption, decimal};
ghost use Rattle.hex.specs.Hex.{encode_lower};
ghost use Rattle.receipts.specs.Receipts.{IsDigest};

use crate::head::Hash;
use hex::{decode_to_slice, encode_to_slice};
use itoa::Buffer;
use lrat_text::cut_line;

/// How many hexadecimal digits a digest has.
const DIGITS: usize = 64;

/// The bytes of a text after the prefix `front`; None if the text does not begin with it.
fn after_prefix<'a>(text: &'a [u8], front: &[u8]) -> Option<&'a [u8]>
    ensures { MatchOption result ((rest : List ℕ) → text.now ≢ front.now ++ rest) (λ rest. text.now ≡ front.now ++ rest.now) }
{
    text.strip_prefix(front)
}

/// Reads the digest that 64 lower-case hexadecimal digits spell; None for any other spelling, so that a receipt has one text.
fn digest_of(digits: &[u8]) -> Option<Hash>
    ensures { MatchOption result ((d : List ℕ) → IsDigest d → digits.now ≢ encode_lower d) (λ d. (digits.now ≡ encode_lower d.bytes) × IsDigest d.bytes) }
{
    let mut bytes = [0; 32];
    if decode_to_slice(digits, &mut bytes).is_err() {
        return None;
    }
    let mut again = [0; DIGITS];
    if encode_to_slice(&bytes, &mut again).is_err() {
        return None;
    }
    if again.as_slice() != digits {
        return None;
    }
    Some(Hash { bytes })
}

/// Reads the digest at the beginning of a text. Answers it and the bytes after it; None if the text does not begin with 64 lower-case
/// hexadecimal digits.
fn digest_in(text: &[u8]) -> Option<(Hash, &[u8])>
    ensures { MatchOption result ((d rest : List ℕ) → IsDigest d → text.now ≢ encode_lower d ++ rest) (λ p. (text.now ≡ encode_lower p.0.bytes ++ p.1.now) × IsDigest p.0.bytes) }
{
    if text.len() < DIGITS {
        return None;
    }
    let (digits, rest) = text.split_at(DIGITS);
    match digest_of(digits) {
        Some(digest) => Some((digest, rest)),
        None => None,
    }
}

/// Reads the digest after the prefix `front` of a text. Answers it and the bytes after it; None if the text does not begin so.
pub(crate) fn digest_after<'a>(text: &'a [u8], front: &[u8]) -> Option<(Hash, &'a [u8])>
    ensures { MatchOption result ((d rest : List ℕ) → IsDigest d → text.now ≢ front.now ++ (encode_lower d ++ rest)) (λ p. (text.now ≡ front.now ++ (encode_lower p.0.bytes ++ p.1.now)) × IsDigest p.0.bytes) }
{
    match after_prefix(text, front) {
        Some(rest) => digest_in(rest),
        None => None,
    }
}

/// Reads the number that a line spells in decimal; None if it is above 64 bits, or spelled otherwise, such as with leading zeros.
fn number_of(line: &[u8]) -> Option<u64>
    ensures { MatchOption result ((n : ℕ) → n < 2 ^ 64 → line.now ≢ decimal n) (λ n. (line.now ≡ decimal n) × (n < 2 ^ 64)) }
{
    let text = match str::from_utf8(line) {
        Ok(text) => text,
        Err(_) => return None,
    };
    let number: u64 = match text.parse() {
        Ok(number) => number,
        Err(_) => return None,
    };
    let mut buffer = Buffer::new();
    if buffer.format(number).as_bytes() != line {
        return None;
    }
    Some(number)
}

/// Reads the number that the first line of a text spells. Answers it and the bytes after that line's LF; None if the line spells none.
fn number_in(text: &[u8]) -> Option<(u64, &[u8])>
    ensures { MatchOption result ((n : ℕ) (rest : List ℕ) → n < 2 ^ 64 → text.now ≢ decimal n ++ 10 ∷ rest) (λ p. (text.now ≡ decimal p.0 ++ 10 ∷ p.1.now) × (p.0 < 2 ^ 64)) }
{
    let Some((line, rest)) = cut_line(text) else {
        return None;
    };
    match number_of(line) {
        Some(number) => Some((number, rest)),
        None => None,
    }
}

/// Reads the number after the prefix `front` of a text, up to an LF. Answers it and the bytes after the LF; None if the text does not begin
/// so.
pub(crate) fn number_after<'a>(text: &'a [u8], front: &[u8]) -> Option<(u64, &'a [u8])>
    ensures { MatchOption result ((n : ℕ) (rest : List ℕ) → n < 2 ^ 64 → text.now ≢ front.now ++ (decimal n ++ 10 ∷ rest)) (λ p. (text.now ≡ front.now ++ (decimal p.0 ++ 10 ∷ p.1.now)) × (p.0 < 2 ^ 64)) }
{
    match after_prefix(text, front) {
        Some(rest) => number_in(rest),
        None => None,
    }
}
