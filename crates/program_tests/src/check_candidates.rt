//! Lemmas with a pivot, and their candidates.

use crate::check::{FOUR, Row, VERIFIED, all_print};

/// Three clauses over three variables; `1` is a pivot with the second as its candidate.
const THREE: &[u8] = b"p cnf 3 3\n1 2 0\n-1 3 0\n3 -2 0\n";

const ROWS: &[Row] = &[
    // A definition has two blocked candidates. The variable 3 is defined above those of the formula.
    (
        FOUR,
        b"5 3 -1 -2 0 0\n6 -3 1 0 -5 0\n7 -3 2 0 -5 0\n8 2 0 1 2 0\n9 0 8 3 4 0\n",
        VERIFIED,
    ),
    // A candidate that no group names.
    (
        FOUR,
        b"5 3 -1 -2 0 0\n6 -3 1 0 0\n7 -3 2 0 -5 0\n8 2 0 1 2 0\n9 0 8 3 4 0\n",
        b"s NOT VERIFIED\nc line 2 fault 9\n",
    ),
    // A group names a clause that is no candidate.
    (
        FOUR,
        b"5 3 -1 -2 0 0\n6 -3 1 0 -1 0\n",
        b"s NOT VERIFIED\nc line 2 fault 10\n",
    ),
    // A candidate is named twice.
    (
        FOUR,
        b"5 3 -1 -2 0 0\n6 -3 1 0 -5 -5 0\n",
        b"s NOT VERIFIED\nc line 2 fault 11\n",
    ),
    // A blocked candidate has hints.
    (
        FOUR,
        b"5 3 -1 -2 0 0\n6 -3 1 0 -5 1 0\n",
        b"s NOT VERIFIED\nc line 2 fault 12\n",
    ),
    // A group names no live clause.
    (
        FOUR,
        b"5 3 -1 -2 0 0\n6 -3 1 0 -9 0\n",
        b"s NOT VERIFIED\nc line 2 fault 3\n",
    ),
    // A candidate that is not blocked owes hints.
    (
        THREE,
        b"4 1 0 -2 1 3 0\n",
        b"s NOT VERIFIED\nc line 2 fault 13\n",
    ),
    (
        THREE,
        b"4 1 0 -2 1 0\n",
        b"s NOT VERIFIED\nc line 1 fault 8\n",
    ),
    // A candidate with the pivot in both signs owes hints.
    (
        b"p cnf 2 1\n1 -1 0\n",
        b"2 1 0 -1 0\n",
        b"s NOT VERIFIED\nc line 1 fault 8\n",
    ),
    // A tautology over another variable is blocked.
    (
        b"p cnf 2 1\n-1 2 -2 0\n",
        b"2 1 0 -1 0\n",
        b"s NOT VERIFIED\nc line 2 fault 13\n",
    ),
    // A deleted candidate is not counted. The first lemma with a pivot comes after the candidate went out.
    (THREE, b"4 1 0 0\n", b"s NOT VERIFIED\nc line 1 fault 9\n"),
    (
        THREE,
        b"4 d 2 0\n5 1 0 0\n",
        b"s NOT VERIFIED\nc line 3 fault 13\n",
    ),
    // Candidates are counted from the first pivot on. A lemma with a pivot came before: the candidate goes out, and a new one joins.
    (
        THREE,
        b"4 1 0 -2 1 3 0\n5 d 2 0\n6 1 2 0 0\n",
        b"s NOT VERIFIED\nc line 4 fault 13\n",
    ),
    (
        THREE,
        b"4 1 0 -2 1 3 0\n5 -1 3 0 2 0\n6 1 0 -2 1 3 0\n",
        b"s NOT VERIFIED\nc line 3 fault 9\n",
    ),
    (
        THREE,
        b"4 1 0 -2 1 3 0\n5 -1 3 0 2 0\n6 1 0 -2 1 3 -5 1 3 0\n",
        b"s NOT VERIFIED\nc line 4 fault 13\n",
    ),
    (
        THREE,
        b"4 4 0 0\n5 -1 3 0 2 0\n6 1 0 -2 1 3 0\n",
        b"s NOT VERIFIED\nc line 3 fault 9\n",
    ),
];

#[test]
fn each_candidate_is_named_once_and_owes_hints_unless_it_is_blocked(rt: HostRuntime) {
    all_print(&rt, rt.alloc(), ROWS);
}
