//! What `check` prints.

use dimacs::{Limits, read_within};
use proof_check::{ProofCheck, run_check};
use std::alloc::Global;
use std::process::Abort;

/// The four clauses over two variables, which nothing satisfies.
pub(crate) const FOUR: &[u8] = b"p cnf 2 4\n1 2 0\n-1 2 0\n1 -2 0\n-1 -2 0\n";

pub(crate) const VERIFIED: &[u8] = b"s VERIFIED\n";

/// An input, a proof, and what is printed of it.
pub(crate) type Row = (&'static [u8], &'static [u8], &'static [u8]);

/// What is printed, with the status, is what is wanted.
pub(crate) fn same(rt: &impl Abort, printed: (&[u8], u8), wanted: (&[u8], u8)) {
    assert_eq!(rt; printed, wanted);
}

/// This is printed, and the status is 0 where a proof is verified.
fn tells(rt: &impl Abort, text: &[u8], status: u8, want: &[u8]) {
    assert_eq!(rt; text, want);
    assert!(rt; (status == 0) == (want == VERIFIED));
}

pub(crate) fn prints(rt: &impl Abort, alloc: Global, input: &[u8], proof: &[u8], want: &[u8]) {
    let report = run_check(alloc, input, proof).expect(rt, "memory");
    tells(rt, report.stdout.as_slice(), report.status, want);
}

pub(crate) fn all_print(rt: &impl Abort, alloc: Global, rows: &[Row]) {
    for (input, proof, want) in rows {
        prints(rt, alloc, *input, *proof, *want);
    }
}

const ROWS: &[Row] = &[
    // A proof by unit propagation.
    (FOUR, b"5 2 0 1 2 0\n6 0 5 3 4 0\n", VERIFIED),
    (
        FOUR,
        b"5 2 0 1 2 0\n",
        b"s NOT VERIFIED\nc line 2 fault 13\n",
    ),
    (FOUR, b"", b"s NOT VERIFIED\nc line 1 fault 13\n"),
    (
        FOUR,
        b"4 2 0 1 2 0\n",
        b"s NOT VERIFIED\nc line 1 fault 2\n",
    ),
    (
        FOUR,
        b"5 2 0 1 2 0\n6 0 5 3 4 0\nx\n",
        b"s NOT VERIFIED\nc line 3 fault 1\n",
    ),
    // A hint that is no unit clause.
    (
        FOUR,
        b"5 2 0 1 2 3 0\n",
        b"s NOT VERIFIED\nc line 1 fault 7\n",
    ),
    (FOUR, b"5 2 0 3 0\n", b"s NOT VERIFIED\nc line 1 fault 5\n"),
    (FOUR, b"5 0 1 0\n", b"s NOT VERIFIED\nc line 1 fault 6\n"),
    (FOUR, b"5 2 0 9 0\n", b"s NOT VERIFIED\nc line 1 fault 3\n"),
    (
        FOUR,
        b"5 2 -2 0 1 0\n",
        b"s NOT VERIFIED\nc line 1 fault 4\n",
    ),
    // An empty clause in the input is added again.
    (b"p cnf 1 1\n0\n", b"2 0 1 0\n", VERIFIED),
    // A repeated literal counts once.
    (b"p cnf 1 2\n1 1 0\n-1 0\n", b"3 0 1 2 0\n", VERIFIED),
    // Hints without a conflict.
    (
        b"p cnf 1 1\n1 0\n",
        b"2 0 1 0\n",
        b"s NOT VERIFIED\nc line 1 fault 8\n",
    ),
    // A faulty input.
    (b"p cnf 2 2\n1 2 0\n-1", b"", b"c input line 3 fault 5\n"),
    (b"p cnf 1000001 0\n", b"", b"c input line 1 fault 8\n"),
    // A hint that names a deleted clause.
    (
        FOUR,
        b"5 d 1 0\n5 2 0 1 2 0\n",
        b"s NOT VERIFIED\nc line 2 fault 3\n",
    ),
    (
        FOUR,
        b"5 2 0 1 2 0\n5 d 5 0\n6 0 5 3 4 0\n",
        b"s NOT VERIFIED\nc line 3 fault 3\n",
    ),
    // A clause is deleted once.
    (FOUR, b"5 d 1 1 0\n", b"s NOT VERIFIED\nc line 1 fault 3\n"),
    (FOUR, b"5 2 0 1 2 0\n6 d 1 2 0\n6 0 5 3 4 0\n", VERIFIED),
    // An empty deletion.
    (FOUR, b"5 d 0\n5 2 0 1 2 0\n6 0 5 3 4 0\n", VERIFIED),
    // Numbers rise with gaps.
    (
        FOUR,
        b"281474976710654 2 0 1 2 0\n281474976710655 0 281474976710654 3 4 0\n",
        VERIFIED,
    ),
    (
        FOUR,
        b"281474976710656 2 0 1 2 0\n",
        b"s NOT VERIFIED\nc line 1 fault 1\n",
    ),
    (
        FOUR,
        b"281474976710655 2 0 1 2 0\n",
        b"s NOT VERIFIED\nc line 2 fault 13\n",
    ),
    // The greatest number in a proof of one line.
    (
        b"p cnf 1 2\n1 0\n-1 0\n",
        b"281474976710655 0 1 2 0\n",
        VERIFIED,
    ),
];

#[test]
fn proofs_are_verified_or_their_first_fault_is_told(rt: HostRuntime) {
    all_print(&rt, rt.alloc(), ROWS);
}

/// Two units of variable 1,000,001, which nothing satisfies.
pub(crate) const WIDE: &[u8] = b"p cnf 1000001 2\n1000001 0\n-1000001 0\n";

/// Inputs that are read within the large limits. The variables of a proof go to twice those of the input, if these are more than 1,000,000.
const LARGE: &[Row] = &[
    (WIDE, b"3 0 1 2 0\n", VERIFIED),
    (WIDE, b"3 2000002 0 1 2 0\n4 0 1 2 0\n", VERIFIED),
    (
        WIDE,
        b"3 2000003 0 1 2 0\n4 0 1 2 0\n",
        b"s NOT VERIFIED\nc line 1 fault 1\n",
    ),
    (
        FOUR,
        b"5 2000001 2 0 1 2 0\n6 2 0 1 2 0\n7 0 6 3 4 0\n",
        b"s NOT VERIFIED\nc line 1 fault 1\n",
    ),
    (b"p cnf 100000000 0\n", b"", b"c input line 1 fault 8\n"),
];

#[test]
fn large_inputs_are_checked(rt: HostRuntime) {
    for (input, proof, want) in LARGE {
        let found = read_within(rt.alloc(), Limits::large(), *input);
        let mut check = ProofCheck::of(rt.alloc(), found);
        check.feed(*proof);
        let report = check.finish().expect(&rt, "memory");
        tells(&rt, report.stdout.as_slice(), report.status, *want);
    }
}
