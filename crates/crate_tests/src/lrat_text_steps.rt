//! Steps of proofs: buffers, groups of hints, and what is written of a line.

use dimacs::{Lit, Var};
use lrat_text::{StepBuffer, StepRef, TextFault, next, put, put_ref, read_line};
use packed_text::PackedText;
use std::alloc::Global;
use std::process::Abort;

/// The line that is written for the step of a line, under the number 7.
fn again(rt: &impl Abort, alloc: Global, line: &[u8]) -> Vec<u8> {
    let mut buffer = StepBuffer::new(alloc);
    assert!(rt; read_line(&mut buffer, line).is_ok());
    let mut out = Vec::new(alloc);
    put_ref(buffer.as_ref(), 7, &mut out).expect(rt, "memory");
    out
}

/// A line, and what is written for its step under the number 7.
type Row = (&'static [u8], &'static [u8]);

const ROWS: &[Row] = &[
    (b"5 2 0 1 2 0", b"5 2 0 1 2 0\n"),
    (b"5   2  -1 2 0 0", b"5 2 -1 2 0 0\n"),
    (b"6 -3 1 0 -5 0", b"6 -3 1 0 -5 0\n"),
    (
        b"6 -3 1 0 4 -5 1 2 -6 -7 3 0",
        b"6 -3 1 0 4 -5 1 2 -6 -7 3 0\n",
    ),
    (b"5 0 0", b"5 0 0\n"),
    (b"5 d 1 0", b"7 d 1 0\n"),
    (b"5 d 0", b"7 d 0\n"),
    (
        b"281474976710655 2000000 -2000000 0 281474976710655 0",
        b"281474976710655 2000000 -2000000 0 281474976710655 0\n",
    ),
];

/// The steps of all lines, put to a packed text under the number 7.
fn packed_of(rt: &impl Abort, alloc: Global, rows: &[Row]) -> PackedText {
    let mut buffer = StepBuffer::new(alloc);
    let mut scratch = Vec::new(alloc);
    let mut packed = PackedText::new(alloc);
    for (line, _) in rows {
        assert!(rt; read_line(&mut buffer, *line).is_ok());
        packed
            .put(buffer.as_ref(), 7, &mut scratch)
            .expect(rt, "memory");
    }
    packed
}

/// What is written for all lines.
fn written(rt: &impl Abort, alloc: Global, rows: &[Row]) -> Vec<u8> {
    let mut text = Vec::new(alloc);
    for (_, want) in rows {
        text.extend_from_slice(*want).expect(rt, "memory");
    }
    text
}

#[test]
fn lines_are_read_and_written(rt: HostRuntime) {
    for (line, want) in ROWS {
        assert_eq!(&rt; again(&rt, rt.alloc(), *line).as_slice(), *want);
    }
    let packed = packed_of(&rt, rt.alloc(), ROWS);
    is_text(&rt, rt.alloc(), &packed, &written(&rt, rt.alloc(), ROWS));
}

/// A text of 9,001 bytes: characters of lines, and from a place on any bytes.
fn long_text(rt: &impl Abort, alloc: Global, plain: usize) -> Vec<u8> {
    let mut text = Vec::new(alloc);
    for i in 0usize..9001 {
        let byte = if i < plain {
            b"0123456789 -d\n"[i % 14]
        } else {
            (i % 256) as u8
        };
        text.push(byte).expect(rt, "memory");
    }
    text
}

fn part(rt: &impl Abort, alloc: Global, text: &[u8], from: usize, count: usize) -> Vec<u8> {
    let bytes = text.iter().skip(from).take(count);
    bytes.copied().collect(alloc).expect(rt, "memory")
}

/// A part of the packed text is that of the text.
fn is_read(rt: &impl Abort, alloc: Global, plain: usize, from: usize, count: usize) {
    let text = long_text(rt, alloc, plain);
    let packed = PackedText::of(alloc, &text).expect(rt, "memory");
    let found = packed.read(alloc, from, count).expect(rt, "memory");
    assert!(rt; found == part(rt, alloc, &text, from, count));
}

/// The packed text is all of these bytes.
fn is_text(rt: &impl Abort, alloc: Global, packed: &PackedText, bytes: &[u8]) {
    let found = packed.to_text(alloc).expect(rt, "memory");
    assert!(rt; found.as_slice() == bytes);
}

/// A packed text that is cut, and gets its end again, is the text.
fn is_mended(rt: &impl Abort, alloc: Global, plain: usize, cut: usize) {
    let text = long_text(rt, alloc, plain);
    let whole = PackedText::of(alloc, &text).expect(rt, "memory");
    let mut packed = PackedText::of(alloc, &text).expect(rt, "memory");
    packed.truncate(cut);
    is_text(rt, alloc, &packed, &part(rt, alloc, &text, 0, cut));
    packed
        .extend(&part(rt, alloc, &text, cut, 9001))
        .expect(rt, "memory");
    packed.share_last(&whole);
    assert_eq!(rt; packed.len(), 9001);
    is_text(rt, alloc, &packed, &text);
}

/// Where bytes begin that are not those of lines, and from which place on how many bytes are read.
const PARTS: [(usize, usize, usize); 6] = [
    (9001, 0, 9001),
    (9001, 4001, 4000),
    (9001, 8191, 3),
    (5000, 1, 9000),
    (5000, 8999, 10),
    (0, 4000, 4000),
];

#[test]
fn a_packed_text_is_read_from_any_place(rt: HostRuntime) {
    for (plain, from, count) in &PARTS {
        is_read(&rt, rt.alloc(), *plain, *from, *count);
    }
}

/// Where bytes begin that are not those of lines, and where the text is cut.
const CUTS: [(usize, usize); 5] = [(9001, 4097), (9001, 8000), (5000, 3), (5000, 6000), (0, 1)];

#[test]
fn a_packed_text_is_cut_anywhere(rt: HostRuntime) {
    for (plain, cut) in &CUTS {
        is_mended(&rt, rt.alloc(), *plain, *cut);
    }
}

/// Writes the step at a place of a text under a number. Answers where its line ends.
fn put_at(
    rt: &impl Abort,
    alloc: Global,
    text: &[u8],
    place: usize,
    number: u64,
    out: &mut Vec<u8>,
) -> usize {
    match next(alloc, text, place) {
        Ok(Some((step, end))) => {
            assert!(rt; number >= 1 && number < 100);
            put(&step, number, out).expect(rt, "memory");
            end
        }
        _ => panic!(rt; "no line"),
    }
}

#[test]
fn the_line_at_a_place(rt: HostRuntime) {
    let a = rt.alloc();
    let text = b"5 2 0 1 2 0\n5 d 1 0\n6 0";
    let mut out = Vec::new(a);
    assert_eq!(rt; put_at(&rt, a, text, 0, 1, &mut out), 12);
    assert_eq!(rt; put_at(&rt, a, text, 12, 5, &mut out), 20);
    assert_eq!(rt; out.as_slice(), &text[..20]);
    assert!(rt; next(a, text, 20).err() == Some(TextFault::LineNotEnded));
}

/// An addition of one literal and one hint.
fn is_short(step: StepRef<'_>, number: u64, literal: Lit, hint: u64) -> bool {
    match step {
        StepRef::Add {
            id,
            lits,
            hints,
            groups,
        } => id == number
            && lits == [literal].as_slice()
            && hints == [hint].as_slice()
            && groups.is_empty(),
        StepRef::Delete { .. } => false,
    }
}

#[test]
fn a_buffer_is_used_again(rt: HostRuntime) {
    let mut buffer = StepBuffer::new(rt.alloc());
    assert!(rt; read_line(&mut buffer, b"6 -3 1 0 4 -5 1 0").is_ok());
    assert!(rt; read_line(&mut buffer, b"6 x").is_err());
    assert!(rt; read_line(&mut buffer, b"7 8 0 9 0").is_ok());
    let eight = Lit::positive(Var::new(8));
    assert!(rt; is_short(buffer.as_ref(), 7, eight, 9));
}
