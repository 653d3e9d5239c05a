//! A worker, frame by frame.

use crate::inputs::{FOUR, UNITS};
use crate::told::{Found, Told, formula_of, takes};
use frames::{Answer, WorkerNumber, encode, len};
use lrat_check::{Reaction, Verdict};
use std::alloc::Global;
use std::process::Abort;
use worker_core::Worker;

/// A proof that no assignment satisfies the four clauses.
const PROOF: &[u8] = b"5 2 0 1 2 0\n6 0 5 3 4 0\n";

/// What worker 1 of incarnation 1 sends when it has nothing to do.
const IDLE: &[u8] = b"CC\x08\0\x0c\0\0\0\x01\0\0\0\0\0\0\0\x01";

/// Of session 1, job 1: an assignment of two bytes.
const DONE: &[u8] =
    b"CC\x02\0\x21\0\0\0\0\0\0\0\x01\0\0\0\0\0\0\0\x01\0\0\0\x01\0\0\0\0\0\0\0\x01\x02\0\0\0\x02";

/// Its bytes, from the first on.
const PIECE: &[u8] =
    b"CC\x04\0\x22\0\0\0\0\0\0\0\x01\0\0\0\0\0\0\0\x01\0\0\0\x01\0\0\0\0\0\0\0\x01\0\0\0\0\x01\0";

/// What befalls a worker, as a table has it.
#[derive(Clone, Copy)]
enum Turn {
    /// A frame of a session comes, which is to be answered so.
    Comes(u64, Told, Reaction),
    /// It works, and is to answer so.
    Works(Reaction),
    /// Its next frame is to be spelled so.
    Sends(&'static [u8]),
    /// It begins anew, with an incarnation, and holds nothing.
    Restarts(u64),
    HoldsNothing,
    HoldsAssignment,
}

/// Worker 1 of this formula, of incarnation 1.
fn worker_of(rt: &impl Abort, alloc: Global, input: &[u8]) -> Worker {
    let formula = formula_of(rt, alloc, input);
    Worker::new(alloc, formula, WorkerNumber::new(1), 1).expect(rt, "memory")
}

/// The next frame that it sends is spelled so.
fn sends(rt: &impl Abort, worker: &mut Worker, bytes: &[u8]) {
    let frame = worker.poll().expect(rt, "memory");
    let mut out = [0; 4037];
    let size = len(&frame);
    let written = encode(&frame, &mut out);
    assert!(rt; written == size && bytes == &out[..written]);
}

fn works(rt: &impl Abort, worker: &mut Worker, wanted: Reaction) {
    assert_eq!(rt; worker.work(), wanted);
}

fn restart(rt: &impl Abort, worker: &mut Worker, number: u64) {
    worker.restart(number);
    assert_eq!(rt; worker.incarnation(), number);
}

fn holds_nothing(worker: &Worker) -> bool {
    matches!(worker.verdict(), Verdict::Nothing)
}

fn holds_assignment(worker: &Worker) -> bool {
    matches!(worker.verdict(), Verdict::Model(_))
}

fn play_turn(rt: &impl Abort, alloc: Global, worker: &mut Worker, turn: Turn) {
    match turn {
        Turn::Comes(session, told, wanted) => takes(rt, alloc, worker, session, told, wanted),
        Turn::Works(wanted) => works(rt, worker, wanted),
        Turn::Sends(bytes) => sends(rt, worker, bytes),
        Turn::Restarts(number) => restart(rt, worker, number),
        Turn::HoldsNothing => assert!(rt; holds_nothing(worker)),
        Turn::HoldsAssignment => assert!(rt; holds_assignment(worker)),
    }
}

/// Plays one turn after the other to a worker of a formula.
fn play(rt: &impl Abort, alloc: Global, input: &[u8], turns: &[Turn]) {
    let mut worker = worker_of(rt, alloc, input);
    for turn in turns {
        play_turn(rt, alloc, &mut worker, *turn);
    }
}

const ASSIGNMENTS: &[Turn] = &[
    Turn::Comes(1, Told::Verdict(Found::Values(3)), Reaction::Refused(2)),
    Turn::Comes(
        1,
        Told::Part(Answer::Assignment, 0, &[1]),
        Reaction::Ignored,
    ),
    Turn::Comes(1, Told::Verdict(Found::Values(2)), Reaction::Taken),
    Turn::Comes(
        1,
        Told::Part(Answer::Assignment, 0, &[0, 0]),
        Reaction::Refused(2),
    ),
    Turn::Comes(
        1,
        Told::Part(Answer::Assignment, 0, &[1, 0]),
        Reaction::Ignored,
    ),
    Turn::Comes(2, Told::Verdict(Found::Values(2)), Reaction::Taken),
    Turn::Comes(
        2,
        Told::Part(Answer::Assignment, 0, &[1, 0]),
        Reaction::Verdict,
    ),
    Turn::Comes(
        2,
        Told::Part(Answer::Assignment, 0, &[1, 0]),
        Reaction::Ignored,
    ),
    Turn::Comes(3, Told::Verdict(Found::Values(2)), Reaction::Ignored),
    Turn::HoldsAssignment,
];

/// An assignment of no variable is judged at once.
const HOLDS: &[Turn] = &[Turn::Comes(1, Told::Verdict(Found::Values(0)), Reaction::Verdict)];

const IS_WRONG: &[Turn] = &[Turn::Comes(1, Told::Verdict(Found::Values(0)), Reaction::Refused(2))];

#[test]
fn an_assignment_is_held_once_it_satisfies(rt: HostRuntime) {
    play(&rt, rt.alloc(), UNITS, ASSIGNMENTS);
    play(&rt, rt.alloc(), b"p cnf 0 0\n", HOLDS);
    play(&rt, rt.alloc(), b"p cnf 0 1\n0\n", IS_WRONG);
}

/// Delivers a proof byte by byte, each but the last being taken, which is to be answered so. Now and then the worker works between two
/// bytes, so that some are checked as they come, and others later.
fn play_bytes(
    rt: &impl Abort,
    alloc: Global,
    worker: &mut Worker,
    proof: &'static [u8],
    wanted: Reaction,
) {
    assert!(rt; !proof.is_empty() && proof.len() < 1000);
    let announced = Told::Verdict(Found::Proof(proof.len() as u32));
    takes(rt, alloc, worker, 1, announced, Reaction::Taken);
    for i in 0..proof.len() {
        let answer = if i + 1 == proof.len() {
            wanted
        } else {
            Reaction::Taken
        };
        let byte = Told::Part(Answer::Refuted, i as u32, &proof[i..i + 1]);
        takes(rt, alloc, worker, 1, byte, answer);
        if i % 3 == 1 {
            works(rt, worker, Reaction::Ignored);
        }
    }
}

/// The fault of a line is told with the last byte.
#[test]
fn a_proof_is_judged_once_its_last_byte_is_there(rt: HostRuntime) {
    let wrong = b"4 2 0 1 2 0\n6 0 5 3 4 0\n";
    let mut worker = worker_of(&rt, rt.alloc(), FOUR);
    play_bytes(&rt, rt.alloc(), &mut worker, wrong, Reaction::Refused(1));
    assert!(rt; holds_nothing(&worker));
    let mut worker = worker_of(&rt, rt.alloc(), FOUR);
    play_bytes(&rt, rt.alloc(), &mut worker, PROOF, Reaction::Verdict);
    match worker.into_verdict() {
        Verdict::Proof(text) => assert!(rt; text.as_plain() == Some(PROOF)),
        _ => panic!(&rt; "no proof"),
    }
}

const FETCHED: &[Turn] = &[
    Turn::Comes(1, Told::Task(1, &[]), Reaction::Taken),
    Turn::Sends(IDLE),
    Turn::Works(Reaction::Finished),
    Turn::Works(Reaction::Ignored),
    Turn::Sends(DONE),
    Turn::Comes(1, Told::Fetch(1, 2, 1, 0), Reaction::Ignored),
    Turn::Comes(1, Told::Fetch(1, 1, 1, 2), Reaction::Ignored),
    Turn::Comes(1, Told::Fetch(1, 1, 1, 0), Reaction::Taken),
    Turn::Sends(PIECE),
    Turn::Sends(DONE),
    Turn::HoldsNothing,
];

const RESTARTS: &[Turn] = &[
    Turn::Comes(1, Told::Task(1, &[]), Reaction::Taken),
    Turn::Works(Reaction::Finished),
    Turn::Comes(1, Told::Verdict(Found::Values(2)), Reaction::Taken),
    Turn::Comes(
        1,
        Told::Part(Answer::Assignment, 0, &[1, 0]),
        Reaction::Verdict,
    ),
    Turn::Restarts(2),
    Turn::HoldsNothing,
    Turn::Comes(1, Told::Fetch(1, 1, 1, 0), Reaction::Ignored),
    Turn::Comes(1, Told::Verdict(Found::Values(2)), Reaction::Taken),
    Turn::Comes(
        1,
        Told::Part(Answer::Assignment, 0, &[1, 0]),
        Reaction::Verdict,
    ),
];

#[test]
fn an_answer_is_told_and_its_bytes_fetched(rt: HostRuntime) {
    play(&rt, rt.alloc(), UNITS, FETCHED);
}

#[test]
fn a_restart_drops_what_was_held(rt: HostRuntime) {
    play(&rt, rt.alloc(), UNITS, RESTARTS);
}
