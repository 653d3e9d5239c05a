//! What `solve` answers.

ghost use Rattle.std.specs.Prelude.{◌≤◌};

use crate::check::{FOUR, WIDE};
use crate::run_reports::{ALONE, refutes, says, solved};
use dimacs::{Limits, read, read_within, write};
use links::{Counted, Memory};
use node_main::{Options, Start, begin_within, run_solve_within};
use std::alloc::Global;
use std::process::Abort;

/// The eight clauses over three variables, which nothing satisfies.
pub(crate) const EIGHT: &[u8] =
    b"p cnf 3 8\n1 2 3 0\n1 2 -3 0\n1 -2 3 0\n1 -2 -3 0\n-1 2 3 0\n-1 2 -3 0\n-1 -2 3 0\n-1 -2 -3 0\n";

/// An input, and what is printed of it.
const ANSWERS: [(&'static [u8], &'static [u8]); 5] = [
    // No variable has an empty witness.
    (b"p cnf 0 0\n", b"s SATISFIABLE\nv 0\n"),
    // Units decide.
    (b"p cnf 2 2\n1 0\n-2 0\n", b"s SATISFIABLE\nv 1 -2 0\n"),
    // A line of the witness has at most 78 bytes.
    (
        b"p cnf 30 30\n-1 0\n-2 0\n3 0\n4 0\n5 0\n6 0\n7 0\n8 0\n9 0\n10 0\n11 0\n12 0\n13 0\n14 0\n15 0\n16 0\n17 0\n18 0\n19 0\n20 0\n21 0\n22 0\n23 0\n24 0\n25 0\n26 0\n27 0\n28 0\n29 0\n30 0\n",
        b"s SATISFIABLE\nv -1 -2 3 4 5 6 7 8 9 10 11 12 13 14 15 16 17 18 19 20 21 22 23 24 25 26 27 28\nv 29 30 0\n",
    ),
    // An open clause is a fault, and a header above the limit.
    (b"p cnf 2 2\n1 2 0\n-1", b"c input line 3 fault 5\n"),
    (b"p cnf 1000001 0\n", b"c input line 1 fault 8\n"),
];

#[test]
fn an_input_is_answered_or_its_fault_is_told(rt: HostRuntime) {
    for (input, want) in &ANSWERS {
        says(&rt, &solved(&rt, rt.alloc(), *input, None, &ALONE), *want);
    }
}

/// A cube at its limit is cut in two.
const BRIEF: Options = Options { limit: 1, ..ALONE };

#[test]
fn a_refutation_is_a_proof_that_is_verified(rt: HostRuntime) {
    let a = rt.alloc();
    refutes(&rt, a, FOUR, &solved(&rt, a, FOUR, None, &ALONE));
    refutes(&rt, a, EIGHT, &solved(&rt, a, EIGHT, None, &BRIEF));
}

/// The most that may be split.
const DEEP: Options = Options { depth: 6, ..ALONE };

/// How many leaves the tree has by which an input within the large limits is split.
fn leaves_of(rt: &impl Abort, alloc: Global, input: &[u8], cubes: Option<&[u8]>) -> usize {
    let limits = Limits::large();
    let found = read_within(alloc, limits, input);
    match begin_within(alloc, found, limits, cubes, &DEEP) {
        Ok(Start::With(_, tree)) => tree.leaves(),
        _ => panic!(rt; "the input is refused"),
    }
}

/// The four clauses over more variables.
const WIDE_FOUR: &[u8] = b"p cnf 1000001 4\n1 2 0\n-1 2 0\n1 -2 0\n-1 -2 0\n";

/// The four clauses, and two cubes.
const CUT_FOUR: &[u8] = b"p inccnf\n1 2 0\n-1 2 0\n1 -2 0\n-1 -2 0\na 1 0\na -1 0\n";

#[test]
fn a_formula_of_more_than_a_million_variables_is_not_split(rt: HostRuntime) {
    let a = rt.alloc();
    assert!(&rt; leaves_of(&rt, a, FOUR, None) > 1);
    assert_eq!(&rt; leaves_of(&rt, a, FOUR, Some(CUT_FOUR)), 2);
    assert_eq!(&rt; leaves_of(&rt, a, WIDE_FOUR, None), 1);
    assert_eq!(&rt; leaves_of(&rt, a, WIDE_FOUR, Some(CUT_FOUR)), 1);
    let limits = Limits::large();
    let mut links = Counted::new(Memory::new(a, DEEP.workers).expect(&rt, "memory"));
    let found = read_within(a, limits, WIDE);
    let report = run_solve_within(a, found, limits, None, &DEEP, &mut links).expect(&rt, "memory");
    assert_eq!(&rt; report.status, 20);
    assert_eq!(&rt; report.stdout.as_slice(), b"s UNSATISFIABLE\n".as_slice());
}

const SHORT: Options = Options {
    quiet: true,
    witness: false,
    ..ALONE
};

#[test]
fn options_leave_lines_out(rt: HostRuntime) {
    let model = solved(&rt, rt.alloc(), b"p cnf 1 0\n", None, &SHORT);
    says(&rt, &model, b"s SATISFIABLE\n");
    let fault = solved(&rt, rt.alloc(), b"p cnf 1\n", None, &SHORT);
    says(&rt, &fault, b"");
}

#[test]
fn a_formula_is_written_a_clause_a_line(rt: HostRuntime) {
    let formula = read(rt.alloc(), b"p cnf 2 2\n1\n0 -2 0").expect(&rt, "a formula");
    let mut out = Vec::new(rt.alloc());
    write(&formula, &mut out).expect(&rt, "memory");
    assert_eq!(rt; out.as_slice(), b"p cnf 2 2\n1 0\n-2 0\n".as_slice());
}
