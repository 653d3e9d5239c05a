//! Writers of token blocks: up to 16 tokens, each after a space. A block is written backwards into an array on the stack, so that one call
//! appends it to a text.

ghost use Rattle.std.specs.Prelude.{◌≡◌, ◌+◌, ◌≤◌, ◌++◌, length, drop, flat_map};
ghost use Rattle.lrat_text.specs.inner.LineParts.{number_text, literal_text};

use dimacs::Lit;
use itoa::write_digits;

/// The greatest number of tokens in a block.
pub(crate) const MANY: usize = 16;

/// The length of the array in bytes: a token has at most a space, a minus and 20 digits.
pub(crate) const ROOM: usize = 22 * MANY;

/// Writes a space and a number so that they end before offset `end`, and answers the offset of the space.
#[inline(always)]
fn write_number(room: &mut [u8], number: u64, end: usize) -> usize
    requires { (22 ≤ end) × (end ≤ length room.old) }
    ensures start { (result ≤ end) × (end ≤ result + 22) }
    ensures text { drop result room.new ≡ number_text number ++ drop end room.old }
    ensures room { length room.new ≡ length room.old }
{
    let digits = write_digits(number, room, end);
    room[digits - 1] = b' ';
    digits - 1
}

/// Writes a space and a literal so that they end before offset `end`, and answers the offset of the space.
#[inline(always)]
fn write_literal(room: &mut [u8], literal: Lit, end: usize) -> usize
    requires { (22 ≤ end) × (end ≤ length room.old) }
    ensures start { (result ≤ end) × (end ≤ result + 22) }
    ensures text { drop result room.new ≡ literal_text literal ++ drop end room.old }
    ensures room { length room.new ≡ length room.old }
{
    let digits = write_digits(u64::from(literal.var().number()), room, end);
    if literal.is_negative() {
        room[digits - 1] = b'-';
        room[digits - 2] = b' ';
        return digits - 2;
    }
    room[digits - 1] = b' ';
    digits - 1
}

/// Writes at most 16 numbers at the end of the array, each after a space, and answers the offset of the first space.
pub(crate) fn write_numbers(room: &mut [u8; ROOM], numbers: &[u64]) -> usize
    requires { length numbers.now ≤ 16 }
    ensures start { result ≤ 352 }
    ensures text { drop result room.new ≡ flat_map number_text numbers.now }
{
    let mut start = ROOM;
    for i in 0..numbers.len() {
        start = write_number(room, numbers[numbers.len() - 1 - i], start);
    }
    start
}

/// Writes at most 16 literals at the end of the array, each after a space, and answers the offset of the first space.
pub(crate) fn write_literals(room: &mut [u8; ROOM], literals: &[Lit]) -> usize
    requires { length literals.now ≤ 16 }
    ensures start { result ≤ 352 }
    ensures text { drop result room.new ≡ flat_map literal_text literals.now }
{
    let mut start = ROOM;
    for i in 0..literals.len() {
        start = write_literal(room, literals[literals.len() - 1 - i], start);
    }
    start
}
