//! A text that CaDiCaL wrote while it refuted four cubes in one process, as one log over the formula.

use crate::check::same;
use dimacs::{Lit, Var, read};
use leaves::{BlockLift, Split, SplitReader};
use lidrup::CubeLog;
use lrat_check::{CheckFault, check_log};
use std::alloc::Global;
use std::process::Abort;

/// Four pigeons, and three holes.
const PIGEONS: &[u8] =
    b"p cnf 12 22\n1 2 3 0\n4 5 6 0\n7 8 9 0\n10 11 12 0\n-1 -4 0\n-1 -7 0\n-4 -7 0\n\
-1 -10 0\n-4 -10 0\n-7 -10 0\n-2 -5 0\n-2 -8 0\n-5 -8 0\n-2 -11 0\n-5 -11 0\n-8 -11 0\n\
-3 -6 0\n-3 -9 0\n-6 -9 0\n-3 -12 0\n-6 -12 0\n-9 -12 0\n";

/// What CaDiCaL 2.1.3 writes for the cubes 1 4, 1 -4, -1 2 and -1 -2 (`--lidrup --no-binary`).
const PROOF: &[u8] =
    b"i 1 1 2 3 0\ni 2 4 5 6 0\ni 3 7 8 9 0\ni 4 10 11 12 0\ni 5 -1 -4 0\ni 6 -1 -7 0\n\
i 7 -4 -7 0\ni 8 -1 -10 0\ni 9 -4 -10 0\ni 10 -7 -10 0\ni 11 -2 -5 0\ni 12 -2 -8 0\n\
i 13 -5 -8 0\ni 14 -2 -11 0\ni 15 -5 -11 0\ni 16 -8 -11 0\ni 17 -3 -6 0\ni 18 -3 -9 0\n\
i 19 -6 -9 0\ni 20 -3 -12 0\ni 21 -6 -12 0\ni 22 -9 -12 0\nq 4 1 0\ns UNSATISFIABLE\n\
u 1 4 0 5 0\ni 24 -4 -1 0\nq -4 1 0\nl 25 -12 7 4 0 21 22 2 3 13 0\n\
l 26 -1 4 0 6 8 25 4 15 16 2 3 19 0\ns UNSATISFIABLE\nu 1 -4 0 26 0\ni 28 4 -1 0\n\
q 2 -1 0\nl 29 -10 -2 0 12 11 9 10 2 3 19 0\nl 30 -2 0 11 12 14 29 4 21 22 2 3 7 0\n\
s UNSATISFIABLE\nu 2 0 30 0\ni 32 -2 0\nd 32 0\nq -2 -1 0\n\
l 33 -7 -3 0 20 17 7 10 2 4 15 0\nl 34 -3 0 17 18 20 33 3 13 16 2 4 9 0\n\
l 35 1 0 34 30 1 0\nl 36 -4 0 35 5 0\nl 37 -7 0 35 6 0\nl 38 -10 0 35 8 0\n\
l 39 0 36 35 28 0\ns UNSATISFIABLE\nu 0 39 0\ni 40 0\n";

/// The cubes, as the leaves of a tree.
const LEAVES: &[u8] = b"a 1 4 0\na 1 -4 0\na -1 2 0\na -1 -2 0\n";

/// What is told of them at the end of the text.
const CLOSED: &[u8] = b"c leaf 1 closed\nc leaf 2 closed\nc leaf 3 closed\nc leaf 4 closed\n";

/// The same where two of them are still open.
const HALF: &[u8] = b"c leaf 1 closed\nc leaf 2 closed\nc leaf 3 missing\nc leaf 4 missing\n";

/// What it writes for the cubes 1 -4 and -1 2, the leaves 2 and 3, behind the lines of the clauses.
const BLOCK: &[u8] = b"q -4 1 0\nl 23 -12 7 4 0 21 22 2 3 13 0\n\
l 24 -1 4 0 6 8 23 4 15 16 2 3 19 0\ns UNSATISFIABLE\nu 1 -4 0 24 0\ni 26 4 -1 0\n\
q 2 -1 0\nl 27 -10 -2 0 12 11 9 10 2 3 19 0\nl 28 -2 0 11 12 14 27 4 21 22 2 3 7 0\n\
s UNSATISFIABLE\nu 2 0 28 0\ni 30 -2 0\n";

/// The lines of the clauses, and those up to the second cube.
const GIVEN: usize = 289;

const FIRST: usize = 117;

/// Three clauses of three variables.
const OTHER: &[u8] = b"p cnf 3 3\n1 2 3 0\n-1 2 0\n-2 3 0\n";

/// The lines up to the lemmas under the third cube, and no clause that closes it.
const OPEN: usize = 536;

/// Literals, by their numbers.
fn cube_of(rt: &impl Abort, alloc: Global, numbers: &[i32]) -> Vec<Lit> {
    let mut cube = Vec::new(alloc);
    for number in numbers {
        let variable = number.unsigned_abs();
        assert!(rt; variable >= 1 && variable < 100);
        let positive = Lit::positive(Var::new(variable));
        let literal = if *number < 0 {
            positive.negate()
        } else {
            positive
        };
        cube.push(literal).expect(rt, "memory");
    }
    cube
}

/// A cube's number among those that were asked, its literals, and whether it is closed.
type Closing = (usize, &'static [i32], bool);

fn all_are_told(rt: &impl Abort, alloc: Global, log: &CubeLog, rows: &[Closing]) {
    for (number, cube, want) in rows {
        let cube = cube_of(rt, alloc, *cube);
        assert_eq!(rt; log.closes(*number, &cube), *want);
    }
}

/// Turns a text into a log over a formula, in pieces of eleven bytes, which is put behind `out`.
fn turned(
    rt: &impl Abort,
    alloc: Global,
    formula: &[u8],
    text: &[u8],
    out: &mut Vec<u8>,
) -> CubeLog {
    let formula = read(alloc, formula).expect(rt, "a formula");
    let mut log = CubeLog::of(alloc, formula).expect(rt, "memory");
    for piece in text.chunks(11) {
        log.feed(piece);
        out.extend_from_slice(log.written()).expect(rt, "memory");
        log.forget();
    }
    log
}

/// The number and the line of the first fault of a text over the pigeons, 0 if it has none.
fn fault_of(rt: &impl Abort, alloc: Global, text: &[u8]) -> (u8, u64) {
    let mut out = Vec::new(alloc);
    match turned(rt, alloc, PIGEONS, text, &mut out).finish() {
        Ok(()) => (0, 0),
        Err(CheckFault { number, line, .. }) => (number, line),
    }
}

fn is_log(rt: &impl Abort, alloc: Global, text: &[u8]) {
    let formula = read(alloc, PIGEONS).expect(rt, "a formula");
    let checked = check_log(alloc, &formula, text);
    assert!(rt; checked.is_ok());
}

/// The text up to a byte.
fn front(count: usize) -> &'static [u8] {
    PROOF.get(..count).unwrap_or(PROOF)
}

/// Of the text up to a byte this is told, and what is written is a log over the pigeons.
fn closes(rt: &impl Abort, alloc: Global, count: usize, rows: &[Closing]) {
    let mut text = Vec::new(alloc);
    let log = turned(rt, alloc, PIGEONS, front(count), &mut text);
    assert!(rt; log.finish().is_ok());
    is_log(rt, alloc, &text);
    all_are_told(rt, alloc, &log, rows);
}

const EACH: &[Closing] = &[
    (0, &[1, 4], true),
    (1, &[1, -4], true),
    (2, &[-1, 2], true),
    (3, &[-1, -2], true),
];

#[test]
fn every_cube_is_closed(rt: HostRuntime) {
    closes(&rt, rt.alloc(), PROOF.len(), EACH);
}

const TWO: &[Closing] = &[
    (0, &[1, 4], true),
    (0, &[-1, 2], false),
    (1, &[1, -4], true),
    (2, &[-1, 2], false),
    (3, &[-1, -2], false),
];

#[test]
fn a_cube_without_its_closing_stays_open(rt: HostRuntime) {
    closes(&rt, rt.alloc(), OPEN, TWO);
}

/// Texts over the pigeons, and their first faults.
const FAULTS: &[(&'static [u8], (u8, u64))] = &[
    (b"i 1 1 2 3 0\nl 2 1 2 0 -1 0\n", (1, 2)),
    (b"i 2 1 2 3 0\ni 1 4 5 6 0\n", (2, 2)),
    (b"i 1 1 2 3 0\nq 1 0\nu 1 0 2 0\n", (3, 3)),
    (b"i 1 1 2 3 0\nu 1 0 1 0\n", (3, 2)),
    (b"i 1 1 2 3 0\nl 2 1 0 1 0\n", (6, 2)),
];

/// The text is one of another formula.
fn is_refused(rt: &impl Abort, alloc: Global) {
    let mut out = Vec::new(alloc);
    let log = turned(rt, alloc, OTHER, front(PROOF.len()), &mut out);
    assert!(rt; log.finish().is_err());
    all_are_told(rt, alloc, &log, &[(0, &[1, 4], false)]);
}

#[test]
fn a_text_that_is_cut_or_of_another_formula_is_refused(rt: HostRuntime) {
    assert_eq!(&rt; fault_of(&rt, rt.alloc(), front(OPEN - 1)), (1, 35));
    for (text, want) in FAULTS {
        assert_eq!(&rt; fault_of(&rt, rt.alloc(), *text), *want);
    }
    is_refused(&rt, rt.alloc());
}

/// The pigeons, split into the leaves.
fn split(rt: &impl Abort, alloc: Global) -> Split {
    let formula = read(alloc, PIGEONS).expect(rt, "a formula");
    let mut reader = SplitReader::new(alloc, formula).expect(rt, "memory");
    reader.feed(b"p inccnf\n");
    reader.feed(PIGEONS.get(12..).unwrap_or(b""));
    reader.feed(LEAVES);
    match reader.finish() {
        Ok(split) => split,
        Err(_) => panic!(rt; "no tree"),
    }
}

/// A lift ends, and tells this with this status.
fn is_told(rt: &impl Abort, alloc: Global, lift: &BlockLift, stdout: &[u8], status: u8) {
    assert!(rt; lift.finish().is_ok());
    let report = lift.report(alloc).expect(rt, "memory");
    same(
        rt,
        (report.stdout.as_slice(), report.status),
        (stdout, status),
    );
}

/// Takes a piece, and puts what it comes to behind a log.
fn take(rt: &impl Abort, lift: &mut BlockLift, log: &mut Vec<u8>, piece: &[u8]) {
    lift.feed(piece);
    log.extend_from_slice(lift.written()).expect(rt, "memory");
    lift.forget();
}

/// The text up to a byte tells this of the leaves, with this status, and its log is one over the pigeons.
fn tells(rt: &impl Abort, alloc: Global, count: usize, stdout: &[u8], status: u8) {
    let mut log = Vec::new(alloc);
    let mut lift = BlockLift::of(alloc, split(rt, alloc)).expect(rt, "memory");
    for piece in front(count).chunks(13) {
        take(rt, &mut lift, &mut log, piece);
    }
    is_told(rt, alloc, &lift, stdout, status);
    is_log(rt, alloc, &log);
}

/// The text for a block, up to a byte behind the clauses, tells this of the leaves from one number on, two of them at most; nothing if
/// there are none.
fn tells_block(rt: &impl Abort, alloc: Global, first: u64, last: u64, row: (usize, &[u8], u8)) {
    let mut log = Vec::new(alloc);
    let (count, stdout, status) = row;
    let begun = BlockLift::block(alloc, split(rt, alloc), first, last).expect(rt, "memory");
    let Some(mut lift) = begun else {
        assert_eq!(rt; status, 1);
        return;
    };
    take(rt, &mut lift, &mut log, front(GIVEN));
    take(rt, &mut lift, &mut log, BLOCK.get(..count).unwrap_or(BLOCK));
    is_told(rt, alloc, &lift, stdout, status);
    is_log(rt, alloc, &log);
}

#[test]
fn it_is_told_which_leaves_are_closed(rt: HostRuntime) {
    tells(&rt, rt.alloc(), PROOF.len(), CLOSED, 20);
    tells(&rt, rt.alloc(), OPEN, HALF, 0);
}

/// Blocks of leaves, and what is told of each: the bytes of the text, the lines, the status.
const BLOCKS: &[(u64, u64, (usize, &'static [u8], u8))] = &[
    (2, 3, (1000, b"c leaf 2 closed\nc leaf 3 closed\n", 20)),
    (2, 3, (FIRST, b"c leaf 2 closed\nc leaf 3 missing\n", 0)),
    (2, 2, (1000, b"c leaf 2 closed\n", 20)),
    (1, 2, (1000, b"c leaf 1 missing\nc leaf 2 missing\n", 0)),
    (0, 2, (1000, b"", 1)),
    (3, 2, (1000, b"", 1)),
    (3, 5, (1000, b"", 1)),
];

#[test]
fn it_is_told_which_leaves_of_a_block_are_closed(rt: HostRuntime) {
    for (first, last, row) in BLOCKS {
        tells_block(&rt, rt.alloc(), *first, *last, *row);
    }
}
