//! Logs that any machines bring, gathered into one proof.

use crate::check::{FOUR, VERIFIED, prints};
use dimacs::read;
use leaves::{FileOutcome, Join, Split, SplitReader};
use std::alloc::Global;
use std::process::Abort;

/// The leaves 1 and -1 of the four clauses.
const HALVES: &[u8] = b"p inccnf\n1 2 0\n-1 2 0\n1 -2 0\n-1 -2 0\na 1 0\na -1 0\n";

/// A log that closes the leaf 1, with a lemma that nothing needs behind it.
const LEFT: &[u8] = b"5 2 0 1 2 0\n6 -1 0 2 4 0\n";

/// One that closes the leaf -1.
const RIGHT: &[u8] = b"5 1 0 1 3 0\n";

/// A log whose second line names a clause that is not unit.
const FAULTY: &[u8] = b"5 2 0 1 2 0\n6 1 0 4 3 0\n";

/// An answer that no clause but the last refutes.
const ANSWER: &[u8] = b"s SATISFIABLE\nv 1 2 0\n";

/// What was a file, in a letter, and its first fault.
type Told = (u8, u64, u8);

fn halves(rt: &impl Abort, alloc: Global) -> Split {
    let formula = read(alloc, FOUR).expect(rt, "a formula");
    let mut reader = SplitReader::new(alloc, formula).expect(rt, "memory");
    reader.feed(HALVES);
    match reader.finish() {
        Ok(split) => split,
        Err(_) => panic!(rt; "no tree"),
    }
}

fn told(end: FileOutcome) -> Told {
    match end {
        FileOutcome::Closes => (b'c', 0, 0),
        FileOutcome::ClosesNothing => (b'n', 0, 0),
        FileOutcome::Refused { line, number } => (b'r', line, number),
        FileOutcome::Satisfies(_) => (b's', 0, 0),
    }
}

/// Reads a file, in pieces of five bytes, and tells what it was.
fn taken(rt: &impl Abort, join: &mut Join, file: &[u8]) -> Told {
    for piece in file.chunks(5) {
        assert!(rt; join.feed(piece).is_ok());
    }
    match join.end() {
        Ok(end) => told(end),
        Err(_) => panic!(rt; "no memory"),
    }
}

/// Files of which these things are told.
type Files = &'static [(&'static [u8], Told)];

/// Takes files one after the other.
fn take_all(rt: &impl Abort, join: &mut Join, files: Files) {
    for (file, what) in files {
        assert_eq!(rt; taken(rt, join, *file), *what);
    }
}

/// The end of a join prints this.
fn ends(rt: &impl Abort, alloc: Global, join: &mut Join, want: &[u8]) {
    match join.finish(Vec::new(alloc)) {
        Ok(report) => assert_eq!(rt; report.stdout.as_slice(), want),
        Err(_) => panic!(rt; "no memory"),
    }
}

/// Joins files, and prints this of the end; the proof.
fn gathered(rt: &impl Abort, alloc: Global, files: Files, want: &[u8]) -> Vec<u8> {
    let mut join = Join::of(alloc, halves(rt, alloc)).expect(rt, "memory");
    take_all(rt, &mut join, files);
    ends(rt, alloc, &mut join, want);
    Vec::from_slice(alloc, join.written()).expect(rt, "memory")
}

const BOTH: Files = &[(LEFT, (b'c', 0, 0)), (RIGHT, (b'c', 0, 0))];

/// Their proof, the fork behind both.
const FORKED: &[u8] = b"5 2 0 1 2 0\n6 -1 0 2 4 0\n6 d 5 0\n7 1 0 1 3 0\n8 0 6 7 0\n";

#[test]
fn logs_and_the_fork_are_one_proof(rt: HostRuntime) {
    let proof = gathered(&rt, rt.alloc(), BOTH, b"s UNSATISFIABLE\n");
    assert_eq!(&rt; proof.as_slice(), FORKED);
    prints(&rt, rt.alloc(), FOUR, proof.as_slice(), VERIFIED);
}

const USELESS: Files = &[
    (FAULTY, (b'r', 2, 5)),
    (LEFT, (b'c', 0, 0)),
    (LEFT, (b'n', 0, 0)),
    (ANSWER, (b'n', 0, 0)),
];

#[test]
fn what_closes_no_leaf_is_told(rt: HostRuntime) {
    gathered(&rt, rt.alloc(), USELESS, b"c leaf 2 missing\ns UNKNOWN\n");
}
