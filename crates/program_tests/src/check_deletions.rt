//! Long proofs whose lemmas go out again: the room of what went out is used again, and what stays is found.

ghost use Rattle.std.specs.Prelude.{◌<◌, ◌^◌};

use crate::check::{FOUR, VERIFIED, prints};
use std::alloc::Global;
use std::fmt::Write;
use std::process::Abort;

/// The lemma `2`, which stays.
const KEPT: u64 = 5;

/// How far numbers lie apart that fill no table.
const FAR: u64 = 4_000_000_000;

/// A lemma that nothing needs, and its deletion.
fn put_idle(rt: &impl Abort, text: &mut String, number: u64) {
    write!(text, "{number} 2 1 0 1 0\n{number} d {number} 0\n").expect(rt, "memory");
}

/// Lemmas, each with its deletion, and an end; their numbers lie so far apart.
fn churn(rt: &impl Abort, alloc: Global, apart: u64, end: &str) -> String
    requires { apart < 2 ^ 32 }
{
    let mut text = String::new(alloc);
    write!(text, "{KEPT} 2 0 1 2 0\n").expect(rt, "memory");
    for turn in 1u64..3000 {
        put_idle(rt, &mut text, 10 + turn * apart);
    }
    text.push_str(end).expect(rt, "memory");
    text
}

/// How far numbers lie apart, an end, and what is printed.
type Row = (u64, &'static str, &'static [u8]);

const ROWS: &[Row] = &[
    // What stays is found.
    (1, "4000 0 5 3 4 0\n", VERIFIED),
    (
        FAR,
        "20000000000000 1 2 0 1 0\n20000000000001 0 5 3 4 0\n",
        VERIFIED,
    ),
    // What went out is not.
    (
        1,
        "4000 0 3000 3 4 0\n",
        b"s NOT VERIFIED\nc line 6000 fault 3\n",
    ),
    (
        FAR,
        "20000000000001 0 4000000010 3 4 0\n",
        b"s NOT VERIFIED\nc line 6000 fault 3\n",
    ),
    // The holders of each literal are counted for the first time when many lemmas went out.
    (
        1,
        "4000 3 -1 -2 0 0\n4001 -3 1 0 -4000 0\n4002 -3 2 0 -4000 0\n4003 0 5 3 4 0\n",
        VERIFIED,
    ),
    (1, "4000 -2 0 0\n", b"s NOT VERIFIED\nc line 6000 fault 9\n"),
    // Candidates have numbers that lie far apart.
    (
        FAR,
        "20000000000000 3 -1 -2 0 0\n20000000000001 -3 1 0 -20000000000000 0\n20000000000002 0 5 3 4 0\n",
        VERIFIED,
    ),
    (
        FAR,
        "20000000000000 3 -1 -2 0 0\n20000000000001 -3 1 0 0\n",
        b"s NOT VERIFIED\nc line 6001 fault 9\n",
    ),
];

#[test]
fn what_stays_is_found_after_deletions(rt: HostRuntime) {
    for (apart, end, want) in ROWS {
        assert!(&rt; *apart <= FAR);
        let text = churn(&rt, rt.alloc(), *apart, *end);
        prints(&rt, rt.alloc(), FOUR, text.as_str().as_bytes(), *want);
    }
}
