//! Logs over a formula, line by line and one after the other.

use crate::inputs::FOUR;
use dimacs::read;
use lrat_check::{CheckFault, LogChecker, check_log};
use lrat_text::{StepRef, take_lines};
use std::alloc::Global;
use std::process::Abort;
use std::test::Fail;

/// A text, and its fault's number and line: 0 where it is a log.
type Row = (&'static [u8], (u8, u64));

/// Texts over the four clauses, which are numbered from 1 to 4.
const ROWS: [Row; 11] = [
    (b"", (0, 0)),
    (b"5 -1 0 2 4 0\n", (0, 0)),
    (b"5 -1 0 2 4 0\n6 0 5 1 3 0\n7 d 5 6 0\n", (0, 0)),
    (b"5 -1 0 2 4 0\n5 d 5 0\n6 1 0 1 3 0\n", (0, 0)),
    (b"5 x 0 0\n", (1, 1)),
    (b"5 -1 0 2 4 0\n6 1 0 1 3 0", (1, 2)),
    (b"6 -1 0 2 4 0\n", (2, 1)),
    (b"5 -1 0 2 4 0\n5 d 6 0\n", (3, 2)),
    (b"5 2 0 1 -3 1 0\n", (15, 1)),
    (b"5 3 -1 0 0\n", (15, 1)),
    (b"5 -1 0 2 4 0\n5 d 4 0\n", (16, 2)),
];

fn told(answer: Result<(), CheckFault>) -> (u8, u64) {
    match answer {
        Ok(()) => (0, 0),
        Err(fault) => (fault.number, fault.line),
    }
}

#[test]
fn logs_are_checked(rt: HostRuntime) -> Result<(), Fail> {
    let formula = read(rt.alloc(), FOUR)?;
    for (text, want) in &ROWS {
        assert_eq!(&rt; told(check_log(rt.alloc(), &formula, *text)), *want);
    }
    Ok(())
}

/// Takes the lines of a text, and is answered what its end gives, or the first fault.
fn taken(checker: &mut LogChecker, text: &[u8]) -> Result<(), CheckFault> {
    match take_lines(checker, text) {
        Ok(rest) => checker.end(rest),
        Err(fault) => Err(fault),
    }
}

/// A checker has the four clauses alone, and stands at the first line.
fn is_begun(rt: &impl Abort, checker: &LogChecker) {
    assert_eq!(rt; (checker.base(), checker.top(), checker.line()), (4, 4, 1));
    assert!(rt; checker.clause(5).is_none() && checker.clause(4).is_some());
}

#[test]
fn logs_are_checked_one_after_the_other(rt: HostRuntime) -> Result<(), Fail> {
    let formula = read(rt.alloc(), FOUR)?;
    let mut checker = LogChecker::of(rt.alloc(), formula)?;
    // also behind one that was refused
    for (text, want) in &ROWS {
        assert_eq!(&rt; told(taken(&mut checker, *text)), *want);
        checker.begin();
        is_begun(&rt, &checker);
    }
    Ok(())
}

/// The number of an addition, and that of its first literal.
fn told_of(step: StepRef<'_>) -> Option<(u64, i32)> {
    match step {
        StepRef::Add {
            id,
            lits: [first, ..],
            ..
        } => Some((id, first.number())),
        _ => None,
    }
}

/// How many literals a clause has, if there is one of this number.
fn length_of(checker: &LogChecker, number: u64) -> Option<usize> {
    match checker.clause(number) {
        Some(literals) => Some(literals.len()),
        None => None,
    }
}

/// A checker of the four clauses behind one line.
fn behind(rt: &impl Abort, alloc: Global, line: &[u8]) -> LogChecker {
    let formula = read(alloc, FOUR).expect(rt, "a formula");
    let mut checker = LogChecker::of(alloc, formula).expect(rt, "memory");
    checker.take(line).expect(rt, "a step");
    checker
}

#[test]
fn what_was_taken_is_lent(rt: HostRuntime) {
    let checker = behind(&rt, rt.alloc(), b"5 -1 0 2 4 0");
    assert_eq!(&rt; told_of(checker.step()), Some((5, -1)));
    assert_eq!(&rt; (checker.top(), checker.line()), (5, 2));
    assert_eq!(&rt; length_of(&checker, 5), Some(1));
}
