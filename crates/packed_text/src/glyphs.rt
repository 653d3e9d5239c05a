//! Packing and unpacking characters: the fourteen characters of LRAT lines (digits, space, minus, `d`, LF) have codes of four bits, two in
//! a byte.

ghost use Rattle.std.specs.Prelude.{◌≡◌, ◌+◌, ◌*◌, ◌<◌, ◌++◌, ◌∷◌, [], IsTrue, IsOk, ◌≤◌, length, max, vec_capacity, All, OnOk, map, flat_map};
ghost use Rattle.packed_text.specs.Packed.{byte_text, half_text};
ghost use Rattle.packed_text.specs.inner.Glyphs.{value_if, digit_code, other_code, digit_glyph, other_glyph, character, halves};
ghost use Rattle.packed_text.specs.inner.Packed.{IsPair};

use crate::rope::BLOCK;
use std::alloc::AllocError;

// Each function below is a sum of choices without a branch or a table, so that the compiler vectorises the loops over them.

/// Answers the value if both numbers are equal, otherwise 0.
#[inline(always)]
fn value_if(one: u8, other: u8, value: u8) -> u8
    ensures value { result ≡ value_if one other value }
    ensures most { result ≤ value }
{
    if one == other { value } else { 0 }
}

/// Answers a digit's value, and 15 for every other byte.
#[inline(always)]
fn digit_code(byte: u8) -> u8
    ensures { result ≡ digit_code byte }
{
    if byte.is_ascii_digit() {
        byte - b'0'
    } else {
        15
    }
}

/// Answers 15 minus the code of a space (10), a minus (11), the letter d (12) or an LF (13), and 0
/// for every other byte. `code` subtracts it from the 15 that `digit_code` gives for these bytes.
#[inline(always)]
fn other_code(byte: u8) -> u8
    ensures { result ≡ other_code byte }
{
    value_if(byte, b' ', 5)
        + value_if(byte, b'-', 4)
        + value_if(byte, b'd', 3)
        + value_if(byte, b'\n', 2)
}

/// Answers the code of a character, from 0 to 13; 15 for a byte that is no character of lines. The
/// difference needs no branch: one of the two is 0 for a digit, and `digit_code` is 15 for the
/// rest.
#[inline(always)]
fn code(byte: u8) -> u8
    ensures half { result < 16 }
    ensures text { result < 14 → half_text result ≡ byte ∷ [] }
{
    digit_code(byte) - other_code(byte)
}

/// Answers the digit of a code below 10, and 0 for every other code.
#[inline(always)]
fn digit_glyph(half: u8) -> u8
    ensures value { result ≡ digit_glyph half }
    ensures most { result ≤ 57 }
{
    if half < 10 { b'0' + half } else { 0 }
}

/// Answers the space, the minus, the letter d or the LF of a code from 10 to 13, and 0 for every
/// other code.
#[inline(always)]
fn other_glyph(half: u8) -> u8
    ensures value { result ≡ other_glyph half }
    ensures most { result ≤ 187 }
{
    value_if(half, 10, b' ')
        + value_if(half, 11, b'-')
        + value_if(half, 12, b'd')
        + value_if(half, 13, b'\n')
}

/// Answers the character of a code from 0 to 13: a sum without a branch, of which one part is 0.
#[inline(always)]
fn glyph(half: u8) -> u8
    requires { half < 14 }
    ensures { result ≡ character half }
{
    digit_glyph(half) + other_glyph(half)
}

/// Answers the greater of two numbers.
#[inline(always)]
fn greater(one: u8, other: u8) -> u8
    ensures { result ≡ max one other }
{
    if one < other { other } else { one }
}

/// Packs a text, two characters into each byte of `pairs`. Answers `false` if some byte is no character of lines; `pairs` then means
/// nothing.
pub(crate) fn pack(pairs: &mut [u8], text: &[u8]) -> bool
    requires { length text.now ≡ 2 * length pairs.old }
    ensures length { length pairs.new ≡ length pairs.old }
    ensures pairs { IsTrue result → All IsPair pairs.new }
    ensures text { IsTrue result → flat_map byte_text pairs.new ≡ text.now }
{
    let mut most = 0;
    for i in 0..pairs.len() {
        let first = code(text[2 * i]);
        let second = code(text[2 * i + 1]);
        most = greater(most, greater(first, second));
        pairs[i] = first * 16 + second;
    }
    most < 14
}

/// Writes the two codes of each packed byte, the upper half first, each into a byte of `text`.
fn write_halves(text: &mut [u8], pairs: &[u8])
    requires { length text.old ≡ 2 * length pairs.now }
    ensures { text.new ≡ flat_map halves pairs.now }
{
    for i in 0..pairs.len() {
        let byte = pairs[i];
        text[2 * i] = byte / 16;
        text[2 * i + 1] = byte % 16;
    }
}

/// Replaces each code by its character.
fn write_characters(text: &mut [u8])
    requires { All (λ h. h < 14) text.old }
    ensures { text.new ≡ map character text.old }
{
    for i in 0..text.len() {
        text[i] = glyph(text[i]);
    }
}

/// Writes the text of packed bytes into `text`.
fn write_glyphs(text: &mut [u8], pairs: &[u8])
    requires pairs { All IsPair pairs.now }
    requires room { length text.old ≡ 2 * length pairs.now }
    ensures { text.new ≡ flat_map byte_text pairs.now }
{
    write_halves(text, pairs);
    write_characters(text);
}

/// Appends the text of at most one block of packed bytes. It allocates nothing if `out` has the capacity.
pub(crate) fn unpack(out: &mut Vec<u8>, pairs: &[u8]) -> Result<(), AllocError>
    requires pairs { All IsPair pairs.now }
    requires few { length pairs.now ≤ 2048 }
    ensures ok { OnOk result (out.new.items ≡ out.old.items ++ flat_map byte_text pairs.now) }
    ensures room { length out.old.items + 2 * length pairs.now ≤ vec_capacity out.old → IsOk result }
    ensures capacity { vec_capacity out.old ≤ vec_capacity out.new }
{
    let mut text = [0; 2 * BLOCK];
    let text = &mut text[..2 * pairs.len()];
    write_glyphs(text, pairs);
    out.extend_from_slice(text)
}
