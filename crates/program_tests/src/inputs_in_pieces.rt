//! Inputs that come in pieces, and lines under `-q`.

use crate::check::{FOUR, VERIFIED, same};
use dimacs::FormulaReader;
use proof_check::ProofCheck;
use reports::Refusal;
use std::alloc::Global;

/// The check of proofs of an input that comes byte by byte.
fn check_of(alloc: Global, input: &[u8]) -> ProofCheck {
    let mut reader = FormulaReader::new(alloc);
    for byte in input {
        reader.feed(&[*byte]);
    }
    ProofCheck::of(alloc, reader.finish())
}

#[test]
fn an_input_in_pieces_is_checked(rt: HostRuntime) {
    let mut check = check_of(rt.alloc(), FOUR);
    check.feed(b"5 2 0 1 2 0\n6 0 5 3 4 0\n");
    let report = check.finish().expect(&rt, "memory");
    same(
        &rt,
        (report.stdout.as_slice(), report.status),
        (VERIFIED, 0),
    );
}

/// What is refused, whether `-q` was said, and the line.
const LINES: [(Refusal, bool, &'static str); 4] = [
    (Refusal::Usage, true, "c usage\n"),
    (Refusal::Usage, false, "c usage\n"),
    (Refusal::Writing, true, ""),
    (Refusal::Writing, false, "c cannot write proof\n"),
];

#[test]
fn only_refused_words_are_told_under_quiet(rt: HostRuntime) {
    for (refusal, quiet, want) in &LINES {
        assert_eq!(&rt; refusal.line(*quiet), *want);
    }
}
