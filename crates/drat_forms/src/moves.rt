//! What a byte leads to, by the place at which it stands.

ghost use Rattle.std.specs.Prelude.{◌≡◌, ◌^◌, ◌<◌, ◌≤◌};
ghost use Rattle.dimacs.specs.text.Words.{is_white};
ghost use Rattle.drat_forms.specs.Moves.{goes_to, with_literal, literal_read, zero_read, number_read, code_read, after_gap, after_letter, in_comment, after_minus, after_digit, after_step, after_bits, after_byte};

use crate::fault::DratFault;
use crate::place::{Begun, Place};

/// What a byte leads to.
#[derive(Clone, Copy)]
pub struct Moved {
    /// What is read now of the step.
    pub begun: Begun,
    /// The place of the next byte.
    pub place: Place,
    /// The word that is complete with the byte.
    pub word: Option<u32>,
}

/// Moves to a place within a step, or between two words; no word is complete.
fn go_to(begun: Begun, place: Place) -> Result<Moved, DratFault>
    ensures { result ≡ goes_to begun place }
{
    Ok(Moved {
        begun,
        place,
        word: None,
    })
}

/// Whether a byte is white space: space, tab, CR or LF.
fn is_white(byte: u8) -> bool
    ensures { result ≡ is_white byte }
{
    byte == b' ' || byte == b'\t' || byte == b'\r' || byte == b'\n'
}

/// What is read of a step after a literal more.
fn with_literal(begun: Begun) -> Begun
    ensures { result ≡ with_literal begun }
{
    match begun {
        Begun::Deletion => Begun::Deletion,
        _ => Begun::Addition,
    }
}

/// Takes a literal by its code; `next` is the place after it.
fn take_literal(most: u32, begun: Begun, code: u32, next: Place) -> Result<Moved, DratFault>
    ensures { result ≡ literal_read most begun code next }
{
    if code / 2 > most {
        return Err(DratFault::VariableTooLarge);
    }
    Ok(Moved {
        begun: with_literal(begun),
        place: next,
        word: Some(code),
    })
}

/// Takes the 0 that ends a step; `next` is the place after it.
fn take_zero(begun: Begun, next: Place) -> Result<Moved, DratFault>
    ensures { result ≡ zero_read begun next }
{
    match begun {
        Begun::Nothing => Ok(Moved {
            begun: Begun::Nothing,
            place: Place::Refuted,
            word: Some(0),
        }),
        Begun::Addition => Ok(Moved {
            begun: Begun::Nothing,
            place: next,
            word: Some(0),
        }),
        Begun::Deletion => Ok(Moved {
            begun: Begun::Nothing,
            place: next,
            word: Some(1),
        }),
    }
}

/// Takes a byte between two words of a text.
fn take_gap(begun: Begun, byte: u8) -> Result<Moved, DratFault>
    ensures { result ≡ after_gap begun byte }
{
    if is_white(byte) {
        return go_to(begun, Place::Gap);
    }
    if byte.is_ascii_digit() {
        return go_to(begun, Place::Digits(false, u32::from(byte - b'0')));
    }
    match byte {
        b'-' => go_to(begun, Place::Minus),
        b'c' => go_to(begun, Place::Comment),
        b'd' => match begun {
            Begun::Nothing => go_to(Begun::Deletion, Place::Letter),
            _ => Err(DratFault::BadByte),
        },
        _ => Err(DratFault::BadByte),
    }
}

/// Takes the byte after the letter `d`.
fn take_letter(begun: Begun, byte: u8) -> Result<Moved, DratFault>
    ensures { result ≡ after_letter begun byte }
{
    if is_white(byte) {
        return go_to(begun, Place::Gap);
    }
    Err(DratFault::BadByte)
}

/// Takes a byte of a comment.
fn take_comment(begun: Begun, byte: u8) -> Result<Moved, DratFault>
    ensures { result ≡ in_comment begun byte }
{
    if byte == b'\n' {
        return go_to(begun, Place::Gap);
    }
    go_to(begun, Place::Comment)
}

/// Takes the byte after a minus.
fn take_minus(begun: Begun, byte: u8) -> Result<Moved, DratFault>
    ensures { result ≡ after_minus begun byte }
{
    if byte.is_ascii_digit() {
        return go_to(begun, Place::Digits(true, u32::from(byte - b'0')));
    }
    Err(DratFault::BadByte)
}

/// Takes a complete number of a text, of at most the limit.
fn take_number(most: u32, begun: Begun, is_negative: bool, value: u32) -> Result<Moved, DratFault>
    requires { value < 2 ^ 31 }
    ensures { result ≡ number_read most begun is_negative value }
{
    if value == 0 {
        if is_negative {
            return Err(DratFault::BadByte);
        }
        return take_zero(begun, Place::Gap);
    }
    if is_negative {
        take_literal(most, begun, 2 * value + 1, Place::Gap)
    } else {
        take_literal(most, begun, 2 * value, Place::Gap)
    }
}

/// Takes the byte after a digit of a text's number.
fn take_digit(
    most: u32,
    begun: Begun,
    is_negative: bool,
    value: u32,
    byte: u8,
) -> Result<Moved, DratFault>
    requires { most ≤ 199999999 }
    ensures { result ≡ after_digit most begun is_negative value byte }
{
    if value > most {
        return Err(DratFault::VariableTooLarge);
    }
    if byte.is_ascii_digit() {
        let value = 10 * value + u32::from(byte - b'0');
        return go_to(begun, Place::Digits(is_negative, value));
    }
    if is_white(byte) {
        return take_number(most, begun, is_negative, value);
    }
    Err(DratFault::BadByte)
}

/// Takes the letter of a step in binary form.
fn take_step(byte: u8) -> Result<Moved, DratFault>
    ensures { result ≡ after_step byte }
{
    match byte {
        b'a' => go_to(Begun::Nothing, Place::Bits(0, 1)),
        b'd' => go_to(Begun::Deletion, Place::Bits(0, 1)),
        _ => Err(DratFault::BadByte),
    }
}

/// Takes a complete number in binary form.
fn take_code(most: u32, begun: Begun, code: u64) -> Result<Moved, DratFault>
    requires { most ≤ 199999999 }
    ensures { result ≡ code_read most begun code }
{
    if code == 0 {
        return take_zero(begun, Place::Step);
    }
    if code == 1 {
        return Err(DratFault::BadByte);
    }
    if code / 2 > u64::from(most) {
        return Err(DratFault::VariableTooLarge);
    }
    take_literal(most, begun, code as u32, Place::Bits(0, 1))
}

/// Takes a byte of a number in binary form. A byte below 128 is the number's last one, and is not 0 after another one. A number has at most
/// five bytes.
fn take_bits(most: u32, begun: Begun, value: u64, weight: u64, byte: u8) -> Result<Moved, DratFault>
    requires { most ≤ 199999999 }
    ensures { result ≡ after_bits most begun value weight byte }
{
    if value / 2 > u64::from(most) || weight > 1 << 28 {
        return Err(DratFault::VariableTooLarge);
    }
    if byte >= 128 {
        let value = value + weight * u64::from(byte - 128);
        return go_to(begun, Place::Bits(value, 128 * weight));
    }
    if byte == 0 && weight > 1 {
        return Err(DratFault::BadByte);
    }
    take_code(most, begun, value + weight * u64::from(byte))
}

/// Answers what a byte leads to at a place of a proof with variables up to `most`.
#[inline(always)]
pub(crate) fn take_byte(most: u32, begun: Begun, place: Place, byte: u8) -> Result<Moved, DratFault>
    requires { most ≤ 199999999 }
    ensures { result ≡ after_byte most begun place byte }
{
    match place {
        Place::Gap => take_gap(begun, byte),
        Place::Letter => take_letter(begun, byte),
        Place::Comment => take_comment(begun, byte),
        Place::Minus => take_minus(begun, byte),
        Place::Digits(is_negative, value) => take_digit(most, begun, is_negative, value, byte),
        Place::Step => take_step(byte),
        Place::Bits(value, weight) => take_bits(most, begun, value, weight, byte),
        Place::Refuted => go_to(begun, Place::Refuted),
    }
}
