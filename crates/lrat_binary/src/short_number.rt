//! The fast path for numbers of at most four bytes that are complete in a piece. Nearly all numbers of a proof are such.

ghost use Rattle.std.specs.Prelude.{◌≡◌, ◌++◌, ◌^◌, ◌<◌, ◌≤◌, [], ℕ, List, length, drop, IfSome, IfOk};
ghost use Rattle.dimacs.specs.logic.Literal.{Literal};
ghost use Rattle.lrat_binary.specs.Parser.{AtDeleted, AtHints, AtLiterals, InStep, read};
ghost use Rattle.lrat_binary.specs.inner.ShortNumber.{StartsWithNumber};

use crate::partial_step::literal_of;
use dimacs::Lit;
use std::alloc::AllocError;

/// The length of the longest short number in bytes. The fast path needs as many bytes in the piece.
const LONGEST: usize = 4;

/// Reads the number at the beginning of a text: answers its value and its length in bytes. `None` if it has more than four bytes or a last
/// byte 0 after another one, or if the text has fewer than four bytes.
#[inline(always)]
fn short_front(text: &[u8]) -> Option<(u64, usize)>
    ensures stands { IfSome result (λ p. StartsWithNumber text.now p.0 (drop p.1 text.now)) }
    ensures small { IfSome result (λ p. p.0 < 2 ^ 28) }
    ensures bound { IfSome result (λ p. (1 ≤ p.1) × (p.1 ≤ length text.now)) }
{
    if text.len() < LONGEST {
        return None;
    }
    let first = u64::from(text[0]);
    if first < 128 {
        return Some((first, 1));
    }
    let second = u64::from(text[1]);
    if second < 128 {
        if second == 0 {
            return None;
        }
        return Some((first - 128 + 128 * second, 2));
    }
    let third = u64::from(text[2]);
    if third < 128 {
        if third == 0 {
            return None;
        }
        return Some((first - 128 + 128 * (second - 128) + 16_384 * third, 3));
    }
    let fourth = u64::from(text[3]);
    if fourth == 0 || fourth >= 128 {
        return None;
    }
    let low = first - 128 + 128 * (second - 128) + 16_384 * (third - 128);
    Some((low + 2_097_152 * fourth, 4))
}

/// Reads the number at the beginning of a text: answers its value and the text after it. `None` if [`short_front`] does not read it.
#[inline(always)]
fn short_number(text: &[u8]) -> Option<(u64, &[u8])>
    ensures stands { IfSome result (λ p. StartsWithNumber text.now p.0 p.1.now) }
    ensures small { IfSome result (λ p. p.0 < 2 ^ 28) }
    ensures shorter { IfSome result (λ p. length p.1.now < length text.now) }
{
    let Some((code, len)) = short_front(text) else {
        return None;
    };
    Some((code, &text[len..]))
}

/// Appends hints, or clause numbers of a deletion, up to the first number that is not short or is no clause's code, and answers the text
/// from that number on.
#[inline(always)]
pub(crate) fn take_numbers<'a>(
    numbers: &mut Vec<u64>,
    text: &'a [u8],
) -> Result<&'a [u8], AllocError>
    ensures hints { IfOk result (λ rest. (most id : ℕ) (lits : List Literal) (more : List ℕ) → read (InStep (AtHints most id lits numbers.old.items []) 0 1) (text.now ++ more) ≡ read (InStep (AtHints most id lits numbers.new.items []) 0 1) (rest.now ++ more)) }
    ensures deleted { IfOk result (λ rest. (most : ℕ) (more : List ℕ) → read (InStep (AtDeleted most numbers.old.items) 0 1) (text.now ++ more) ≡ read (InStep (AtDeleted most numbers.new.items) 0 1) (rest.now ++ more)) }
    ensures shorter { IfOk result (λ rest. length rest.now ≤ length text.now) }
{
    let mut rest = text;
    while let Some((code, later)) = short_number(rest) {
        if code < 2 || code % 2 == 1 {
            return Ok(rest);
        }
        numbers.push(code / 2)?;
        rest = later;
    }
    Ok(rest)
}

/// Appends literals up to the first number that is not short, is no literal's code or has a variable above `most`, and answers the text
/// from that number on.
#[inline(always)]
pub(crate) fn take_literals<'a>(
    most: u32,
    literals: &mut Vec<Lit>,
    text: &'a [u8],
) -> Result<&'a [u8], AllocError>
    requires { most ≤ 199999999 }
    ensures reads { IfOk result (λ rest. (id : ℕ) (more : List ℕ) → read (InStep (AtLiterals most id literals.old.items) 0 1) (text.now ++ more) ≡ read (InStep (AtLiterals most id literals.new.items) 0 1) (rest.now ++ more)) }
    ensures shorter { IfOk result (λ rest. length rest.now ≤ length text.now) }
{
    let mut rest = text;
    while let Some((code, later)) = short_number(rest) {
        let variable = code / 2;
        if variable == 0 || variable > u64::from(most) {
            return Ok(rest);
        }
        literals.push(literal_of(variable, code % 2 == 1))?;
        rest = later;
    }
    Ok(rest)
}
