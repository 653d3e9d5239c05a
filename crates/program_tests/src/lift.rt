//! Proofs of solvers for the formulas of leaves, lifted to logs and joined.

use crate::check::{VERIFIED, prints};
use dimacs::read;
use leaves::{FileOutcome, Join, Lift, SearchOptions, Split, SplitReader, run_refute};
use std::alloc::Global;
use std::process::Abort;

/// Four pigeons, and three holes.
const PIGEONS: &[u8] =
    b"p cnf 12 22\n1 2 3 0\n4 5 6 0\n7 8 9 0\n10 11 12 0\n-1 -4 0\n-1 -7 0\n-4 -7 0\n\
-1 -10 0\n-4 -10 0\n-7 -10 0\n-2 -5 0\n-2 -8 0\n-5 -8 0\n-2 -11 0\n-5 -11 0\n-8 -11 0\n\
-3 -6 0\n-3 -9 0\n-6 -9 0\n-3 -12 0\n-6 -12 0\n-9 -12 0\n";

/// The leaves 1 and -1.
const HALVES: &[u8] = b"a 1 0\na -1 0\n";

/// What CaDiCaL 2.1.3 writes for the formula of the leaf 1 (`--lrat --no-binary`).
const CADICAL_LEFT: &[u8] =
    b"24 -4 0 23 5 0\n25 -7 0 23 6 0\n26 -10 0 23 8 0\n27 -12 0 24 25 21 22 2 3 13 0\n\
28 11 0 27 26 4 0\n29 -2 0 28 14 0\n30 -5 0 28 15 0\n31 -8 0 28 16 0\n32 6 0 30 24 2 0\n\
33 9 0 31 25 3 0\n34 -3 0 32 17 0\n35 0 32 33 19 0\n";

/// The same for the leaf -1.
const CADICAL_RIGHT: &[u8] = b"24 -12 0 23 20 21 22 1 11 12 2 3 7 0\n25 -8 4 0 23 12 13 1 2 17 0\n\
26 -10 0 23 9 10 25 3 18 19 1 2 11 0\n27 11 0 26 24 4 0\n28 -2 0 27 14 0\n\
29 -5 0 27 15 0\n30 -8 0 27 16 0\n31 3 0 28 23 1 0\n32 -6 0 31 17 0\n33 -9 0 31 18 0\n\
34 4 0 32 29 2 0\n35 7 0 33 30 3 0\n36 0 34 35 7 0\n";

/// What drat-trim makes (`-L`) of the proof that Kissat 4.0.4 writes for the leaf 1 (`--no-factor`).
const KISSAT_LEFT: &[u8] =
    b"23 d 1 7 9 10 11 12 14 17 18 20 0\n29 -5 0 23 6 8 13 3 15 4 22 0\n29 d 13 15 22 0\n\
36 0 23 5 6 8 29 2 19 21 3 4 16 0\n";

/// The same for the leaf -1.
const KISSAT_RIGHT: &[u8] = b"23 d 5 6 8 0\n24 -12 0 23 20 1 11 12 21 2 7 3 22 0\n24 d 20 21 22 0\n\
25 -11 0 23 14 1 17 18 15 2 16 3 7 0\n25 d 14 15 16 7 0\n\
29 -9 0 23 24 25 4 9 18 1 19 2 11 0\n29 d 18 19 11 0\n\
36 0 23 24 25 4 9 10 29 3 12 13 1 2 17 0\n";

/// The proof of `satcluster solve` for the leaf 1.
const SOLVE_LEFT: &[u8] = b"24 -4 0 23 5 0\n25 -4 0 23 5 0\n26 -4 0 23 5 0\n27 -4 0 23 5 0\n\
28 -5 0 23 8 6 13 15 3 4 22 0\n29 -5 0 23 8 6 13 15 3 4 22 0\n\
30 5 0 23 8 6 5 2 19 21 3 4 16 0\n31 5 0 23 8 6 5 2 19 21 3 4 16 0\n32 0 28 30 0\n\
33 1 0 23 0\n34 1 0 23 0\n35 1 0 23 0\n36 1 0 23 0\n37 1 0 23 0\n38 1 0 23 0\n\
39 1 0 23 0\n40 1 0 23 0\n";

/// The same for the leaf -1.
const SOLVE_RIGHT: &[u8] =
    b"24 -1 0 23 0\n25 -1 0 23 0\n26 -1 0 23 0\n27 -1 0 23 0\n28 -1 0 23 0\n29 -1 0 23 0\n\
30 -1 0 23 0\n31 -1 0 23 0\n32 -5 -2 0 11 0\n33 -5 -2 0 11 0\n\
34 -6 -2 0 12 14 19 21 3 4 10 0\n35 6 -2 0 11 12 14 2 7 9 3 4 22 0\n36 -2 0 34 35 0\n\
37 -6 2 0 23 1 17 0\n38 -5 12 9 0 13 15 3 4 10 0\n\
39 2 0 23 1 17 18 20 38 2 7 9 3 4 16 0\n40 3 2 0 23 1 0\n41 3 2 0 23 1 0\n42 0 36 39 0\n";

/// The leaves 5 and -5 of the formula of the leaf 1.
const QUARTERS: &[u8] = b"a 5 0\na -5 0\n";

/// The line and the number of a proof's first fault.
type Fault = (u64, u8);

/// A split of a formula whose header has twelve bytes.
fn split(rt: &impl Abort, alloc: Global, input: &[u8], cubes: &[u8]) -> Split {
    let formula = read(alloc, input).expect(rt, "a formula");
    let mut reader = SplitReader::new(alloc, formula).expect(rt, "memory");
    reader.feed(b"p inccnf\n");
    reader.feed(input.get(12..).unwrap_or(b""));
    reader.feed(cubes);
    match reader.finish() {
        Ok(split) => split,
        Err(_) => panic!(rt; "no tree"),
    }
}

/// The pigeons, split into the leaves 1 and -1.
fn pigeons(rt: &impl Abort, alloc: Global) -> Split {
    split(rt, alloc, PIGEONS, HALVES)
}

/// A lift of the formula of a leaf of the pigeons.
fn lift_of(rt: &impl Abort, alloc: Global, leaf: u64) -> Lift {
    match Lift::of(alloc, pigeons(rt, alloc), leaf).expect(rt, "memory") {
        Some(lift) => lift,
        None => panic!(rt; "no leaf"),
    }
}

/// Lifts a proof of the formula of a leaf of the pigeons, in pieces of seven bytes.
fn lifted(rt: &impl Abort, alloc: Global, leaf: u64, proof: &[u8]) -> Result<Vec<u8>, Fault> {
    let mut lift = lift_of(rt, alloc, leaf);
    let mut log = Vec::new(alloc);
    for piece in proof.chunks(7) {
        lift.feed(piece);
        log.extend_from_slice(lift.written()).expect(rt, "memory");
        lift.forget();
    }
    match lift.finish() {
        Ok(rest) => {
            log.extend_from_slice(&rest).expect(rt, "memory");
            Ok(log)
        }
        Err(fault) => Err((fault.line, fault.number)),
    }
}

/// Takes a log that closes a leaf.
fn take(rt: &impl Abort, join: &mut Join, log: &[u8]) {
    assert!(rt; join.feed(log).is_ok());
    assert!(rt; matches!(join.end(), Ok(FileOutcome::Closes)));
}

/// The proof that the logs of all leaves are joined to.
fn proof_of(rt: &impl Abort, alloc: Global, join: &mut Join) -> Vec<u8> {
    match join.finish(Vec::new(alloc)) {
        Ok(report) => assert!(rt; report.status == 20),
        Err(_) => panic!(rt; "no memory"),
    }
    Vec::from_slice(alloc, join.written()).expect(rt, "memory")
}

/// Takes the log that a proof of the formula of a leaf is lifted to.
fn take_lifted(rt: &impl Abort, alloc: Global, join: &mut Join, leaf: u64, proof: &[u8]) {
    match lifted(rt, alloc, leaf, proof) {
        Ok(log) => take(rt, join, &log),
        Err(_) => panic!(rt; "a fault"),
    }
}

/// Proofs of both leaves are lifted, and joined to a proof.
fn are_joined(rt: &impl Abort, alloc: Global, left: &[u8], right: &[u8]) {
    let mut join = Join::of(alloc, pigeons(rt, alloc)).expect(rt, "memory");
    take_lifted(rt, alloc, &mut join, 1, left);
    take_lifted(rt, alloc, &mut join, 2, right);
    let proof = proof_of(rt, alloc, &mut join);
    prints(rt, alloc, PIGEONS, &proof, VERIFIED);
}

/// Proofs for both leaves, of each solver.
const SOLVERS: &[(&'static [u8], &'static [u8])] = &[
    (CADICAL_LEFT, CADICAL_RIGHT),
    (KISSAT_LEFT, KISSAT_RIGHT),
    (SOLVE_LEFT, SOLVE_RIGHT),
];

#[test]
fn proofs_of_solvers_are_joined(rt: HostRuntime) {
    for (left, right) in SOLVERS {
        are_joined(&rt, rt.alloc(), *left, *right);
    }
}

/// Proofs for the leaf 1, and their first faults.
const FAULTS: &[(&'static [u8], Fault)] = &[
    // what CaDiCaL writes without --no-binary
    (b"a0\x09\x00.\n\x00a2\x0b\x00.\x0c\x00", (1, 1)),
    // the proof of the other leaf
    (CADICAL_RIGHT, (1, 6)),
    // cut in mid-line
    (b"24 -4 0 23 5 0\n25 -7 0 2", (2, 1)),
    // a number twice, a hint above the lemma, a group
    (b"24 -4 0 23 5 0\n24 -7 0 23 6 0\n", (2, 2)),
    (b"24 -4 0 25 5 0\n25 -7 0 23 6 0\n", (1, 3)),
    (b"24 -4 0 -5 23 0\n", (1, 15)),
    // no empty lemma, and propagation finds no conflict
    (b"24 -4 0 23 5 0\n", (2, 13)),
    (b"", (1, 13)),
];

#[test]
fn the_first_fault_of_a_proof_is_told(rt: HostRuntime) {
    for (proof, fault) in FAULTS {
        match lifted(&rt, rt.alloc(), 1, *proof) {
            Ok(_) => panic!(&rt; "no fault"),
            Err(told) => assert_eq!(&rt; told, *fault),
        }
    }
}

#[test]
fn a_proof_without_the_empty_lemma_is_lifted(rt: HostRuntime) {
    are_joined(&rt, rt.alloc(), &CADICAL_LEFT[..192], CADICAL_RIGHT);
}

/// The formula of the leaf 1.
fn formula_of_leaf(rt: &impl Abort, alloc: Global) -> Vec<u8> {
    let mut text = Vec::from_slice(alloc, b"p cnf 12 23\n").expect(rt, "memory");
    text.extend_from_slice(&PIGEONS[12..]).expect(rt, "memory");
    text.extend_from_slice(b"1 0\n").expect(rt, "memory");
    text
}

/// The log of a search under a leaf.
fn refuted(rt: &impl Abort, alloc: Global, split: &Split, leaf: u64) -> Vec<u8> {
    let search = SearchOptions {
        limit: 100,
        quiet: true,
        witness: false,
    };
    let report = run_refute(alloc, split, leaf, &search).expect(rt, "memory");
    match &report.proof {
        Some(log) => log.to_text(alloc).expect(rt, "memory"),
        None => panic!(rt; "no log"),
    }
}

/// The proof of a formula whose quarters are refuted.
fn proof_by_quarters(rt: &impl Abort, alloc: Global, input: &[u8]) -> Vec<u8> {
    let quarters = split(rt, alloc, input, QUARTERS);
    let again = split(rt, alloc, input, QUARTERS);
    let mut join = Join::of(alloc, again).expect(rt, "memory");
    take(rt, &mut join, &refuted(rt, alloc, &quarters, 1));
    take(rt, &mut join, &refuted(rt, alloc, &quarters, 2));
    proof_of(rt, alloc, &mut join)
}

#[test]
fn a_run_over_the_formula_of_a_leaf_is_a_leaf_of_another(rt: HostRuntime) {
    let input = formula_of_leaf(&rt, rt.alloc());
    let proof = proof_by_quarters(&rt, rt.alloc(), &input);
    are_joined(&rt, rt.alloc(), &proof, CADICAL_RIGHT);
}
