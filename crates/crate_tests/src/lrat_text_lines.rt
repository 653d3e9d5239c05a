//! Lines of proofs.

use lrat_text::{StepBuffer, canonical_id, next, put, read_line};
use std::alloc::Global;
use std::process::Abort;

/// A line, and the number of its text fault: 0 where it spells a step.
type Row = (&'static [u8], u8);

fn fault_of(alloc: Global, line: &[u8]) -> u8 {
    match next(alloc, line, 0) {
        Ok(_) => 0,
        Err(fault) => fault.number(),
    }
}

fn all_fault(rt: &impl Abort, alloc: Global, rows: &[Row]) {
    for (line, number) in rows {
        assert_eq!(rt; fault_of(alloc, *line), *number);
    }
}

const ENDS: &[Row] = &[
    (b"5 2 0 1 2 0\n", 0),
    (b"5 2 0 1 2 0", 2),
    (b"x", 2),
    (b"", 0),
    (b"5 2 0 1 2\n", 3),
    (b"5\n", 3),
    (b"5 2\n", 3),
    (b"5 2 0\n", 3),
    (b"5 2 0 -1\n", 3),
    (b"5 d\n", 3),
    (b"5 d 1\n", 3),
    (b"5 2 0 1 2 0 0\n", 1),
];

const NUMBERS: &[Row] = &[
    (b"5 2000001 0 0\n", 4),
    (b"5 -2000001 0 0\n", 4),
    (b"5 2000001 x\n", 4),
    (b"5 2000000 0 0\n", 0),
    (b"281474976710655 0 0\n", 0),
    (b"281474976710656 0 0\n", 4),
    (b"281474976710656 d 1 0\n", 4),
    (b"5 2 0 281474976710656 0\n", 4),
    (b"5 1 0 -281474976710656 0\n", 4),
    (b"5 d 281474976710656 0\n", 4),
    (b"5 18446744073709551617 0 0\n", 4),
    (b"-281474976710656 1 0 0\n", 1),
    (b"99999999999999999999999999999999999999999 1 0 0\n", 4),
];

const TOKENS: &[Row] = &[
    (b"\n", 1),
    (b" \n", 1),
    (b" 5 2 0 0\n", 1),
    (b"5 2 0 0 \n", 1),
    (b"5  2 0   0\n", 0),
    (b"5\t2 0 0\n", 1),
    (b"5 2 0 0\r\n", 1),
    (b"05 2 0 0\n", 1),
    (b"5 +2 0 0\n", 1),
    (b"5 -0 0 0\n", 1),
    (b"0 d 1 0\n", 1),
    (b"-5 d 1 0\n", 1),
    (b"5 d -1 0\n", 1),
    (b"d 1 0\n", 1),
    (b"5 d d 0\n", 1),
    (b"5 2 d 0\n", 1),
    (b"5 00 0\n", 1),
    (b"5 - 0 0\n", 1),
    (b"5 2 0 1 0 281474976710656\n", 1),
    (b"5 d 1 0 2\n", 1),
    (b"c 5 2 0 1 0\n", 1),
    (b"5 x 2000001\n", 1),
];

#[test]
fn a_line_has_its_tokens_numbers_and_end(rt: HostRuntime) {
    all_fault(&rt, rt.alloc(), ENDS);
    all_fault(&rt, rt.alloc(), NUMBERS);
    all_fault(&rt, rt.alloc(), TOKENS);
}

const LINES: [&'static [u8]; 4] = [
    b"5 2 -1 0 1 2 0\n",
    b"6 -3 1 0 4 -5 -7 1 2 0\n",
    b"6 d 1 2 0\n",
    b"6 0 5 3 4 0\n",
];

/// What is put under the number 6 for the step of a text that is one line.
fn put_again(rt: &impl Abort, alloc: Global, line: &[u8]) -> Vec<u8> {
    let mut out = Vec::new(alloc);
    match next(alloc, line, 0) {
        Ok(Some((step, end))) => {
            assert!(rt; end == line.len());
            put(&step, 6, &mut out).expect(rt, "memory");
        }
        _ => panic!(rt; "no step"),
    }
    out
}

#[test]
fn what_was_put_is_read_back(rt: HostRuntime) {
    for line in &LINES {
        assert_eq!(&rt; put_again(&rt, rt.alloc(), *line).as_slice(), *line);
    }
}

/// The number of an addition that stands as it is written, where the line spells a step at all.
fn id_of(alloc: Global, line: &[u8]) -> Option<u64> {
    let mut buffer = StepBuffer::new(alloc);
    match read_line(&mut buffer, line) {
        Ok(()) => canonical_id(line),
        Err(_) => None,
    }
}

const WRITTEN: [(&'static [u8], Option<u64>); 8] = [
    (b"5 2 0 1 2 0", Some(5)),
    (b"281474976710655 0 5 -1 2 -2 0", Some(281_474_976_710_655)),
    (b"7 0 0", Some(7)),
    (b"5  2 0 1 2 0", None),
    (b"5 2 0  1 2 0", None),
    (b"5 2 0 1 2  0", None),
    (b"5 d 1 2 0", None),
    (b"5 d 0", None),
];

#[test]
fn an_addition_stands_as_it_is_written(rt: HostRuntime) {
    for (line, id) in &WRITTEN {
        assert_eq!(&rt; id_of(rt.alloc(), *line), *id);
    }
}

/// Whether a text has neither a line nor a fault at a place.
fn is_end(alloc: Global, text: &[u8], place: usize) -> bool {
    matches!(next(alloc, text, place), Ok(None))
}

#[test]
fn at_the_end_is_no_line(rt: HostRuntime) {
    let text = b"5 2 0 0\n";
    assert!(rt; is_end(rt.alloc(), text, 8));
    assert!(rt; is_end(rt.alloc(), text, 9));
}
