//! Proofs that are kept while their formula grows.

use crate::check::{FOUR, VERIFIED, prints};
use proof_join::renumber;
use std::alloc::Global;
use std::process::Abort;

/// The four clauses, and the clause `3`.
const WITH_THREE: &[u8] = b"p cnf 3 5\n1 2 0\n-1 2 0\n1 -2 0\n-1 -2 0\n3 0\n";

/// The four clauses, and the clause `1`.
const WITH_ONE: &[u8] = b"p cnf 2 5\n1 2 0\n-1 2 0\n1 -2 0\n-1 -2 0\n1 0\n";

/// The greatest number of a clause.
const MOST: u64 = 281_474_976_710_655;

/// What a proof of the four clauses becomes where a fifth stands behind these; it is a proof of this input then.
type Row = (&'static [u8], &'static [u8], &'static [u8], &'static [u8]);

const WITH_GROUPS: &[u8] =
    b"5 3 -1 -2 0 0\n6 -3 1 0 -5 0\n7 -3 2 0 -5 0\n8 2 0 1 2 0\n9 0 8 3 4 0\n";

const RAISED: &[u8] = b"6 3 -1 -2 0 0\n7 -3 1 0 -6 0\n8 -3 2 0 -6 0\n9 2 0 1 2 0\n10 0 9 3 4 0\n";

const ROWS: [Row; 3] = [
    (
        b"5 2  0 1 2 0\n2 d 1 0\n6 0 5 3 4 0\n",
        b"6 2 0 1 2 0\n6 d 1 0\n7 0 6 3 4 0\n",
        WITH_THREE,
        VERIFIED,
    ),
    (WITH_GROUPS, RAISED, WITH_ONE, VERIFIED),
    // The new clause is a candidate that no group names.
    (
        WITH_GROUPS,
        RAISED,
        WITH_THREE,
        b"s NOT VERIFIED\nc line 2 fault 9\n",
    ),
];

/// What a proof of the four clauses becomes.
fn raised(rt: &impl Abort, alloc: Global, proof: &[u8]) -> Vec<u8> {
    match renumber(alloc, proof, 4, 1).expect(rt, "memory") {
        Some(text) => text,
        None => panic!(rt; "no text"),
    }
}

#[test]
fn a_proof_goes_on_behind_a_new_clause(rt: HostRuntime) {
    for (proof, want, input, told) in &ROWS {
        prints(&rt, rt.alloc(), FOUR, *proof, VERIFIED);
        let text = raised(&rt, rt.alloc(), *proof);
        assert_eq!(&rt; text.as_slice(), *want);
        prints(&rt, rt.alloc(), *input, text.as_slice(), *told);
    }
}

/// A text, how many clauses its formula has, how many come, and whether there is a text with other numbers.
const TEXTS: [(&'static [u8], u64, u64, bool); 7] = [
    (b"5 0 1 0", 4, 1, false),
    (b"5 0 1\n", 4, 1, false),
    (b"281474976710655 0 0\n", 4, 1, false),
    (b"5 0 -281474976710655 0\n", 4, 1, false),
    (b"281474976710655 0 0\n", MOST, u64::MAX, true),
    (b"1 d 1 0\n", MOST, 0, true),
    (b"1 d 1 0\n", MOST, 1, false),
];

#[test]
fn a_text_that_has_no_other_numbers(rt: HostRuntime) {
    for (text, clauses, more, is_some) in &TEXTS {
        let found = renumber(rt.alloc(), *text, *clauses, *more).expect(&rt, "memory");
        assert_eq!(&rt; found.is_some(), *is_some);
    }
}
