//! Answers of solvers: which are believed, and which satisfy a formula.

use answers::{AnswerReader, Kind, ModelCheck};
use dimacs::{Answer, Assignment, Formula, answer_lines, read, satisfies};
use std::alloc::Global;
use std::process::Abort;
use std::test::Fail;

/// Three clauses over three variables.
const THREE: &[u8] = b"p cnf 3 3\n1 2 0\n-1 3 0\n-2 -3 0\n";

/// An answer, and the first clause that has none of its literals, or its fault's kind and line.
type Row = (&'static [u8], Result<Option<u64>, (Kind, u64)>);

/// The answer is read in pieces of so many bytes.
fn outcome(
    rt: &impl Abort,
    alloc: Global,
    text: &[u8],
    size: usize,
) -> Result<Option<u64>, (Kind, u64)> {
    let formula = read(alloc, THREE).expect(rt, "a formula");
    let mut reader = AnswerReader::new(alloc);
    let mut rest = text;
    for _ in 0..text.len() + 1 {
        let (piece, later) = rest.split_at(size.min(rest.len()));
        reader.feed(piece);
        rest = later;
    }
    match reader.finish() {
        Ok(named) => Ok(named.first_missed(&formula)),
        Err(fault) => Err((fault.kind, fault.line)),
    }
}

fn all_are_judged(rt: &impl Abort, alloc: Global, rows: &[Row]) {
    for (text, want) in rows {
        for size in [1, 3, 100] {
            assert_eq!(rt; outcome(rt, alloc, *text, size), *want);
        }
    }
}

const NAMED: &[Row] = &[
    (b"c x\ns SATISFIABLE\nv 1 -2 3 0\n", Ok(None)),
    (b"v 1 3 -2\nv 0", Ok(None)),
    (b"v1\t3\r\nv -2 0 \r\n \t\r\n\nc v 2\ns v -1\n", Ok(None)),
    (b"v 1 3 0\n", Ok(Some(3))),
    (b"v -2 3 0\n", Ok(Some(1))),
    (b"v 2 -3 0\n", Ok(Some(2))),
    (b"v 2 2 -1 -3 2 0\n", Ok(None)),
    (b"v 0\n", Ok(Some(1))),
    (b"v 1 3 -2 4 -2000000 0", Ok(None)),
    (b"s UNSATISFIABLE\nv\nv 1 -2 3 0\nv \n", Ok(None)),
    (b"c\ncv 7 x\nv 1 -2 3 0\ns", Ok(None)),
    (b"v 1000000 4 5 6 7 8 0\n", Ok(Some(1))),
];

const FAULTS: &[Row] = &[
    (b"", Err((Kind::NotEnded, 1))),
    (b"s SATISFIABLE\n", Err((Kind::NotEnded, 2))),
    (b"v 1 -2 3\n", Err((Kind::NotEnded, 2))),
    (b"v 1 -2 3 10", Err((Kind::NotEnded, 1))),
    (b"s SATISFIABLE\n v 1 0\n", Err((Kind::ForeignLine, 2))),
    (b"v 1\n1 0\n", Err((Kind::ForeignLine, 2))),
    (b"\n\np cnf 1 1\n", Err((Kind::ForeignLine, 3))),
    (b"v 1 x 0\n", Err((Kind::BadToken, 1))),
    (b"v 01 0\n", Err((Kind::BadToken, 1))),
    (b"v +1 0\n", Err((Kind::BadToken, 1))),
    (b"v -0\n", Err((Kind::BadToken, 1))),
    (b"v\nv 100000000 0\n", Err((Kind::BadToken, 2))),
    (b"version 1\n", Err((Kind::BadToken, 1))),
    (b"v 1 -2 0 3\n", Err((Kind::BehindEnd, 1))),
    (b"v 1 -2 0\nv 3 0\n", Err((Kind::BehindEnd, 2))),
    (b"v 0 0\n", Err((Kind::BehindEnd, 1))),
    (b"v 0 x\n", Err((Kind::BehindEnd, 1))),
    (b"v 1 -2\nv 2 0\n", Err((Kind::ComplementaryPair, 2))),
    (b"v -1 -2 1 0", Err((Kind::ComplementaryPair, 1))),
    (b"v 5000000 -5000000 0", Err((Kind::ComplementaryPair, 1))),
];

#[test]
fn each_clause_has_a_literal_that_is_named_or_the_first_fault_is_told(rt: HostRuntime) {
    all_are_judged(&rt, rt.alloc(), NAMED);
    all_are_judged(&rt, rt.alloc(), FAULTS);
}

/// The assignment of the formula that an answer names.
fn assignment_of(rt: &impl Abort, alloc: Global, formula: &Formula, text: &[u8]) -> Assignment {
    let mut reader = AnswerReader::new(alloc);
    reader.feed(text);
    let named = reader.finish().expect(rt, "an answer");
    named.assignment(alloc, formula.vars()).expect(rt, "memory")
}

#[test]
fn what_is_named_is_an_assignment(rt: HostRuntime) {
    let alloc = rt.alloc();
    let formula = read(alloc, THREE).expect(&rt, "a formula");
    let assignment = assignment_of(&rt, alloc, &formula, b"v 2 -3 -1 0\n");
    assert!(&rt; assignment.len() == formula.vars() as usize);
    assert!(&rt; satisfies(&assignment, &formula));
    let mut text = Vec::new(alloc);
    answer_lines(Answer::Satisfiable(&assignment), true, &mut text).expect(&rt, "memory");
    assert_eq!(&rt; text.as_slice(), b"s SATISFIABLE\nv -1 2 -3 0\n".as_slice());
}

/// An answer, and what is printed of it with which status.
type Printed = (&'static [u8], &'static [u8], u8);

const REPORTS: &[Printed] = &[
    (b"s SATISFIABLE\nv 1 -2 3 0\n", b"s VERIFIED\n", 0),
    (b"v 1 2 3 0\n", b"s NOT VERIFIED\nc clause 3\n", 1),
    (b"v 1 2\nv -1 0\n", b"s NOT VERIFIED\nc line 2 fault 4\n", 1),
    (b"", b"s NOT VERIFIED\nc line 1 fault 5\n", 1),
];

fn is_reported(rt: &impl Abort, alloc: Global, text: &[u8], want: &[u8], status: u8) {
    let formula = read(alloc, THREE).expect(rt, "a formula");
    let mut check = ModelCheck::of(alloc, formula);
    check.feed(text);
    let report = check.finish().expect(rt, "memory");
    assert_eq!(rt; report.text.as_slice(), want);
    assert_eq!(rt; report.status, status);
}

#[test]
fn a_report_tells_the_clause_or_the_fault(rt: HostRuntime) {
    for (text, want, status) in REPORTS {
        is_reported(&rt, rt.alloc(), *text, *want, *status);
    }
}
