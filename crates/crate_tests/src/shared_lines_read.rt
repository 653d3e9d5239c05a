//! The lines of a log that takes over lemmas, and lines that offer some.

use lrat_text::TextFault;
use shared_lines::{OfferBuffer, SharedLine, SharedLineBuffer};
use std::process::Abort;

/// What a line is: its letter, its number or time, how many literals or bytes of a name it has, and two further numbers.
type Told = (u8, u64, usize, u64, u64);

/// Lines, and what they are; `None` for what is no line.
const LINES: [(&[u8], Option<Told>); 24] = [
    (b"5 -1 2 0 1 4 0", Some((b'l', 5, 2, 1, 4))),
    (b"5  0 1 0", Some((b'l', 5, 0, 1, 0))),
    (b"7 d 5 6 0", Some((b'd', 5, 2, 6, 0))),
    (b"w 1 b2Z 0", Some((b'w', 1, 3, 0, 0))),
    (
        b"w 281474976710655 0 0",
        Some((b'w', 281_474_976_710_655, 1, 0, 0)),
    ),
    (b"e 0 0", Some((b'e', 0, 0, 0, 0))),
    (
        b"e 1099511627776 0",
        Some((b'e', 1_099_511_627_776, 0, 0, 0)),
    ),
    (b"5 i 2 0 1 6 0", Some((b'i', 5, 1, 1, 6))),
    (b"5 i 0 1 6 0", Some((b'i', 5, 0, 1, 6))),
    (b"", None),
    (b"5 -1 2 0 1 -4 0", None),
    (b"5 i 2 0 1 0", None),
    (b"5 i 2 0 1 6 7 0", None),
    (b"5 i 2 0 1 -6 0", None),
    (b"5 i2 0 1 6 0", None),
    (b"5 i d 1 0", None),
    (b" i 5 2 0 1 6 0", None),
    (b"w 0 b 0", None),
    (b"w 01 b 0", None),
    (b"w 1 b_ 0", None),
    (b"w 1 b", None),
    (b"w 1  0", None),
    (b"e 1099511627777 0", None),
    (b"e 1 0 ", None),
];

fn at(numbers: &[u64], place: usize) -> u64 {
    match numbers.get(place) {
        Some(&number) => number,
        None => 0,
    }
}

fn told(line: SharedLine<'_>) -> Told {
    match line {
        SharedLine::Lemma {
            number,
            literals,
            hints,
        } => (b'l', number, literals.len(), at(hints, 0), at(hints, 1)),
        SharedLine::Deletion { numbers } => {
            (b'd', at(numbers, 0), numbers.len(), at(numbers, 1), 0)
        }
        SharedLine::Name { number, name } => (b'w', number, name.len(), 0, 0),
        SharedLine::Import {
            number,
            literals,
            log,
            there,
        } => (b'i', number, literals.len(), log, there),
        SharedLine::Clock { time } => (b'e', time, 0, 0, 0),
    }
}

/// Reads a line, and compares what it is.
fn read_one(rt: &impl Abort, buffer: &mut SharedLineBuffer, text: &[u8], want: Option<Told>) {
    let found = match buffer.read(2_000_000, text) {
        Ok(()) => Some(told(buffer.as_ref())),
        Err(fault) => {
            assert!(rt; fault != TextFault::NoMemory);
            None
        }
    };
    assert_eq!(rt; found, want);
}

#[test]
fn lines_are_read(rt: HostRuntime) {
    let mut buffer = SharedLineBuffer::new(rt.alloc());
    for (text, want) in &LINES {
        read_one(&rt, &mut buffer, *text, *want);
    }
}

/// Lines, and the time, the number and the count of literals that they offer; `None` for what offers nothing.
const OFFERS: [(&[u8], Option<(u64, u64, usize)>); 8] = [
    (b"3 5 -1 2 0", Some((3, 5, 2))),
    (b"0 5 0", Some((0, 5, 0))),
    (b"1099511627776 5  1  0", Some((1_099_511_627_776, 5, 1))),
    (b"3 5 -1 2", None),
    (b"3 5 -1 0 2 0", None),
    (b"3 d 5 0", None),
    (b"-3 5 -1 0", None),
    (b"3 5 -1 2 0 ", None),
];

/// Reads an offer, and compares what it is.
fn read_offer(
    rt: &impl Abort,
    buffer: &mut OfferBuffer,
    text: &[u8],
    want: Option<(u64, u64, usize)>,
) {
    let found = match buffer.read(2_000_000, text) {
        Ok(()) => {
            let offer = buffer.as_ref();
            Some((offer.time, offer.number, offer.literals.len()))
        }
        Err(fault) => {
            assert!(rt; fault != TextFault::NoMemory);
            None
        }
    };
    assert_eq!(rt; found, want);
}

#[test]
fn offers_are_read(rt: HostRuntime) {
    let mut buffer = OfferBuffer::new(rt.alloc());
    for (text, want) in &OFFERS {
        read_offer(&rt, &mut buffer, *text, *want);
    }
}
