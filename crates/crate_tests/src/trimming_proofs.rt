//! Proofs are trimmed.

use dimacs::read;
use lrat_check::check;
use lrat_trim::{Trimmed, trim};
use std::alloc::Global;
use std::process::Abort;

/// The four clauses over two variables, which nothing satisfies, and one more that holds a third variable.
const FIVE: &[u8] = b"p cnf 3 5\n1 2 0\n-1 2 0\n1 -2 0\n-1 -2 0\n3 -1 0\n";

/// Once clause 5 is deleted, 6 and 8 are RAT, and 9 has them as candidates. Lemma 8 is needed as a candidate alone, and 7 as its hint
/// alone.
const LONG: &[u8] =
    b"5 d 5 0\n6 -3 1 0 0\n7 2 0 1 2 0\n8 -3 2 0 0\n9 3 -1 0 -6 -8 7 0\n10 3 0 9 1 3 0\n\
11  1 0 10 6 0\n11 d 7 8 9 0\n13 0 11 2 4 0\n13 d 1 0\n";

/// What is left of it. Line 11 is as it was, with its two spaces.
const SHORT: &[u8] =
    b"5 d 5 0\n6 -3 1 0 0\n9 3 -1 0 -6 0\n10 3 0 9 1 3 0\n11  1 0 10 6 0\n11 d 9 0\n13 0 11 2 4 0\n";

fn trimmed(rt: &impl Abort, alloc: Global, proof: &[u8]) -> Trimmed {
    let formula = read(alloc, FIVE).expect(rt, "a formula");
    trim(alloc, formula, proof).expect(rt, "a proof")
}

fn is_short(rt: &impl Abort, alloc: Global, trimmed: &Trimmed) {
    let text = trimmed.text.to_text(alloc).expect(rt, "memory");
    assert_eq!(rt; text.as_slice(), SHORT);
}

#[test]
fn lemmas_groups_and_deletions_that_nothing_needs_go(rt: HostRuntime) {
    let short = trimmed(&rt, rt.alloc(), LONG);
    is_short(&rt, rt.alloc(), &short);
    assert_eq!(rt; (short.kept, short.all), (5, 7));
    is_short(&rt, rt.alloc(), &trimmed(&rt, rt.alloc(), SHORT));
}

#[test]
fn a_fault_of_a_lemma_that_would_go_is_told(rt: HostRuntime) {
    let proof = b"7 3 -2 0 1 0\n8 2 0 1 2 0\n9 0 8 3 4 0\n";
    let formula = read(rt.alloc(), FIVE).expect(&rt, "a formula");
    let found = check(rt.alloc(), &formula, proof).err();
    assert!(rt; found.is_some());
    assert_eq!(rt; trim(rt.alloc(), formula, proof).err(), found);
}
