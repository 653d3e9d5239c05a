//! Proofs that come in pieces: however they are cut, the answers are those of the whole.

use crate::check::{FOUR, Row};
use dimacs::{Formula, read};
use lrat_check::{CheckFault, Checker, StreamChecker, check, check_pieces};
use lrat_text::{LineBuffer, Step, StepReader, TextFault, read_pieces, take_lines};
use proof_check::ProofCheck;
use std::alloc::{AllocError, Global};
use std::process::Abort;

/// A fault's number, line and text; 0 where a proof is accepted.
type Told = (u8, u64, u8);

fn told(answer: Result<(), CheckFault>) -> Told {
    match answer {
        Ok(()) => (0, 0, 0),
        Err(fault) => (fault.number, fault.line, fault.text),
    }
}

/// What a stream answers to two pieces.
fn in_two(alloc: Global, formula: &Formula, front: &[u8], back: &[u8]) -> Result<Told, AllocError> {
    let mut stream = StreamChecker::new(alloc, formula)?;
    let first = stream.feed(front);
    let second = stream.feed(back);
    // A fault is answered from then on.
    let last = stream.finish();
    if first.is_err() {
        return Ok(if second == first && last == first {
            told(first)
        } else {
            (0, 0, 0)
        });
    }
    Ok(told(if second.is_err() { second } else { last }))
}

/// Each byte as a piece.
fn bytes_of(alloc: Global, text: &[u8]) -> Result<Vec<Vec<u8>>, AllocError> {
    let mut pieces = Vec::new(alloc);
    for i in 0..text.len() {
        pieces.push(Vec::from_slice(alloc, &text[i..i + 1])?)?;
    }
    Ok(pieces)
}

/// A text is told so whole, byte by byte, and cut in two at each place.
fn is_told_in_pieces(rt: &impl Abort, alloc: Global, formula: &Formula, text: &[u8], want: Told) {
    let pieces = bytes_of(alloc, text).expect(rt, "memory");
    assert_eq!(rt; told(check(alloc, formula, text)), want);
    assert_eq!(rt; told(check_pieces(alloc, formula, &pieces)), want);
    for at in 0..text.len() + 1 {
        let found = in_two(alloc, formula, &text[..at], &text[at..]);
        assert_eq!(rt; found.expect(rt, "memory"), want);
    }
}

const CUT: &[(&'static [u8], Told)] = &[
    (b"5 2 0 1 2 0\n6 d 1 2 0\n6 0 5 3 4 0\n", (0, 0, 0)),
    (b"5 2 0 1 2 0\n", (13, 2, 0)),
    (b"5 2 0 1 2 0\n6 0 5 3 4 0", (1, 2, 2)),
    (b"5 2 0 1 2 0\n6 0 5 3 4 0\nx", (1, 3, 2)),
    (b"5 2 0 1 2 3 0\n5 2 0 1 2 0\n", (7, 1, 0)),
    (b"5 d 1 0\n5 2 0 1 2 0\n", (3, 2, 0)),
    (b"5 2 0 1 2 0\n5000000000000000 d 1 0\n", (1, 2, 4)),
    (b"5 2 0 1 2 0\n6 0 5 3 4 0\n7 0 1 0\n\n", (1, 4, 1)),
    (b"", (13, 1, 0)),
];

#[test]
fn each_cutting_tells_the_same(rt: HostRuntime) {
    let formula = read(rt.alloc(), FOUR).expect(&rt, "a formula");
    for (text, want) in CUT {
        is_told_in_pieces(&rt, rt.alloc(), &formula, *text, *want);
    }
}

fn steps_of(rt: &impl Abort, alloc: Global, text: &[u8]) -> Vec<Step> {
    let mut steps = Vec::new(alloc);
    let read = StepReader::new(alloc).feed(text, &mut steps);
    assert!(rt; read.is_ok());
    steps
}

/// How many clauses are live behind each step over the four clauses.
fn live_behind(rt: &impl Abort, alloc: Global, steps: &[Step]) -> Vec<u64> {
    let formula = read(alloc, FOUR).expect(rt, "a formula");
    let mut checker = Checker::new(alloc, &formula).expect(rt, "memory");
    let mut live = Vec::new(alloc);
    for step in steps {
        assert!(rt; checker.step(step).is_ok());
        live.push(checker.live()).expect(rt, "memory");
    }
    live
}

#[test]
fn live_clauses_are_counted(rt: HostRuntime) {
    let text = b"5 2 0 1 2 0\n6 d 1 2 0\n6 0 5 3 4 0\n";
    let steps = steps_of(&rt, rt.alloc(), text);
    let live = live_behind(&rt, rt.alloc(), &steps);
    assert_eq!(&rt; live.as_slice(), [5, 3, 4].as_slice());
}

/// The steps of a text that comes byte by byte.
fn steps_bytewise(rt: &impl Abort, alloc: Global, text: &[u8]) -> Vec<Step> {
    let pieces = bytes_of(alloc, text).expect(rt, "memory");
    let mut steps = Vec::new(alloc);
    let read = read_pieces(alloc, &pieces, &mut steps);
    assert!(rt; read.is_ok());
    steps
}

/// What a reader says at the end of a text without a fault.
fn end_of(
    rt: &impl Abort,
    alloc: Global,
    text: &[u8],
    steps: &mut Vec<Step>,
) -> Result<(), TextFault> {
    let mut reader = StepReader::new(alloc);
    assert!(rt; reader.feed(text, steps).is_ok());
    reader.finish()
}

#[test]
fn a_reader_takes_bytes(rt: HostRuntime) {
    let text = b"5 2 0 1 2 0\n6 0 5 3 4 0\n";
    let mut steps = steps_bytewise(&rt, rt.alloc(), text);
    assert_eq!(&rt; steps.len(), 2);
    let end = end_of(&rt, rt.alloc(), b"5 2", &mut steps);
    assert_eq!(&rt; end, Err(TextFault::LineNotEnded));
    assert_eq!(&rt; steps.len(), 2);
}

/// A piece comes, without a fault or with one, and this is kept of a line.
fn keeps(
    rt: &impl Abort,
    buffer: &mut LineBuffer,
    steps: &mut Vec<Step>,
    piece: &[u8],
    is_well: bool,
    want: &[u8],
) {
    let fed = buffer.feed(piece, steps);
    assert_eq!(rt; fed.is_ok(), is_well);
    assert_eq!(rt; buffer.as_slice(), want);
}

#[test]
fn lines_are_handed_on(rt: HostRuntime) {
    let mut steps: Vec<Step> = Vec::new(rt.alloc());
    let rest = take_lines(&mut steps, b"5 2 0 1 2 0\n6 0 5 3 4 0\n7 0");
    assert!(&rt; rest == Ok(b"7 0".as_slice()));
    assert_eq!(&rt; steps.len(), 2);
    let mut begun = LineBuffer::new(rt.alloc());
    keeps(&rt, &mut begun, &mut steps, b"5 2 0", true, b"5 2 0");
    keeps(&rt, &mut begun, &mut steps, b" 1 2 0\n6", true, b"6");
    keeps(&rt, &mut begun, &mut steps, b" x\n", false, b"6");
    assert_eq!(&rt; steps.len(), 3);
}

/// What is printed of a proof in two pieces.
fn printed(alloc: Global, input: &[u8], front: &[u8], back: &[u8]) -> Result<Vec<u8>, AllocError> {
    let mut check = ProofCheck::new(alloc, input);
    check.feed(front);
    check.feed(back);
    Ok(check.finish()?.stdout)
}

const FAULTS: &[Row] = &[
    (FOUR, b"5 2 0 1 2 0\n6 0 5 3 4 0\n", b"s VERIFIED\n"),
    (
        FOUR,
        b"4 2 0 1 2 0\n\n",
        b"s NOT VERIFIED\nc line 1 fault 2\n",
    ),
    (
        FOUR,
        b"5 2 0 1 2 0\n6 0 5",
        b"s NOT VERIFIED\nc line 2 fault 1\n",
    ),
    (
        b"p cnf 1 1\n2 0\n",
        b"5 0 1 0\n",
        b"c input line 2 fault 4\n",
    ),
];

/// The same is printed wherever a proof is cut in two.
fn is_printed(rt: &impl Abort, alloc: Global, input: &[u8], proof: &[u8], want: &[u8]) {
    for at in 0..proof.len() {
        let found = printed(alloc, input, &proof[..at], &proof[at..]);
        assert_eq!(rt; found.expect(rt, "memory").as_slice(), want);
    }
}

#[test]
fn faults_are_kept_to_the_end(rt: HostRuntime) {
    for (input, proof, want) in FAULTS {
        is_printed(&rt, rt.alloc(), *input, *proof, *want);
    }
}

/// Proofs in binary form, whose faults are told by step.
const BINARY: &[Row] = &[
    (
        FOUR,
        b"a\x0a\x04\0\x02\x04\0a\x0c\0\x0a\x06\x08\0",
        b"s VERIFIED\n",
    ),
    // Each candidate has a group, and a deletion names nothing.
    (
        FOUR,
        b"d\0a\x0a\x04\0\x07\x02\x09\x04\0a\x0c\0\x0a\x06\x08\0",
        b"s VERIFIED\n",
    ),
    // No empty clause: one more than there are steps.
    (
        FOUR,
        b"a\x0a\x04\0\x02\x04\0",
        b"s NOT VERIFIED\nc step 2 fault 13\n",
    ),
    (
        FOUR,
        b"a\x08\x04\0\x02\x04\0",
        b"s NOT VERIFIED\nc step 1 fault 2\n",
    ),
    // Another letter, behind a right step.
    (
        FOUR,
        b"a\x0a\x04\0\x02\x04\0x",
        b"s NOT VERIFIED\nc step 2 fault 1\n",
    ),
    // A text of DRAT: the number 49 of a deletion is odd.
    (FOUR, b"d 1 2 0\n", b"s NOT VERIFIED\nc step 1 fault 1\n"),
    // A number with a needless byte.
    (
        FOUR,
        b"a\x8a\0\x04\0\x02\x04\0",
        b"s NOT VERIFIED\nc step 1 fault 1\n",
    ),
    // An eighth byte.
    (
        FOUR,
        b"d\x80\x80\x80\x80\x80\x80\x80\x01\0",
        b"s NOT VERIFIED\nc step 1 fault 1\n",
    ),
    // The greatest number is no live clause.
    (
        FOUR,
        b"d\xfe\xff\xff\xff\xff\xff\x7f\0",
        b"s NOT VERIFIED\nc step 1 fault 3\n",
    ),
    // The end within a step.
    (
        FOUR,
        b"d\0a\x0a\x04\0\x02",
        b"s NOT VERIFIED\nc step 2 fault 1\n",
    ),
];

#[test]
fn faults_of_the_binary_form_are_told_by_step(rt: HostRuntime) {
    for (input, proof, want) in BINARY {
        is_printed(&rt, rt.alloc(), *input, *proof, *want);
    }
}
