//! What `check --session` prints of texts that come in pieces, each as far as it is wanted.

use crate::check::same;
use sessions::{SessionCheck, Wants, session_report};
use std::alloc::Global;
use std::process::Abort;

const EVENTS: &[u8] = b"p inccnf\n1 2 0\n-1 2 0\na -2 0\na 1 0\n-2 3 0\na 3 -3 0\na -3 -3 9 0\n";

const PROOF: &[u8] = b"i 1 1 2 0\ni 2 -1 2 0\nq -2 0\ns UNSATISFIABLE\nl 3 2 0 1 2 0\nu -2 0 3 0\n\
q 1 0\ns SATISFIABLE\nm 1 2 0\ni 4 -2 3 0\nq 3 -3 0\ns UNSATISFIABLE\nu 3 -3 0 0\n\
q -3 -3 9 0\ns UNSATISFIABLE\nu -3 0 3 4 0\n";

/// Events with one clause and one query.
const TWO: &[u8] = b"p inccnf\n1 2 0\na 1 0\n";

/// The first bytes of a text, so many at most.
fn first(text: &[u8], most: usize) -> &[u8] {
    text.get(..most).unwrap_or(text)
}

/// Behind so many bytes.
fn behind(text: &[u8], taken: usize) -> &[u8] {
    text.get(taken..).unwrap_or(b"")
}

/// Feeds both texts, so many bytes at a time at most, until nothing is wanted.
fn feed(check: &mut SessionCheck, events: &[u8], proof: &[u8], most: usize) {
    let mut events = events;
    let mut proof = proof;
    for _ in 0..10_000 {
        match check.wants() {
            Wants::Events if events.is_empty() => check.end_events(),
            Wants::Events => events = behind(events, check.feed_events(first(events, most))),
            Wants::Proof if proof.is_empty() => check.end_proof(),
            Wants::Proof => proof = behind(proof, check.feed_proof(first(proof, most))),
            Wants::Nothing => return,
        }
    }
}

/// This is printed with this status, whatever the pieces are.
fn prints(rt: &impl Abort, alloc: Global, events: &[u8], proof: &[u8], want: (&[u8], u8)) {
    for most in [1, 5, 1_000] {
        let mut check = SessionCheck::new(alloc).expect(rt, "memory");
        feed(&mut check, events, proof, most);
        let report = session_report(alloc, check.finish()).expect(rt, "a report");
        same(rt, (report.stdout.as_slice(), report.status), want);
    }
}

#[test]
fn a_session_that_is_right(rt: HostRuntime) {
    let want = b"s VERIFIED\nc 4 queries: 1 satisfiable, 3 unsatisfiable, 0 unknown\n";
    prints(&rt, rt.alloc(), EVENTS, PROOF, (want, 0));
}

#[test]
fn a_session_that_was_killed(rt: HostRuntime) {
    let want = b"s NOT VERIFIED\nc line 16 fault 1\nc 3 queries before\n";
    prints(
        &rt,
        rt.alloc(),
        EVENTS,
        first(PROOF, PROOF.len() - 1),
        (want, 1),
    );
}

#[test]
fn a_clause_that_was_not_sent(rt: HostRuntime) {
    let want = b"s NOT VERIFIED\nc line 1 fault 18\nc 0 queries before\n";
    prints(&rt, rt.alloc(), TWO, b"i 1 2 1 0\n", (want, 1));
}

#[test]
fn events_whose_fault_stands_behind_the_proofs(rt: HostRuntime) {
    let want = b"c input line 3 fault 5\n";
    prints(&rt, rt.alloc(), b"p inccnf\n1 2 0\n1", b"x\n", (want, 1));
}
