//! A coordinator, frame by frame.

use crate::inputs::{FOUR, UNITS};
use crate::told::{Found, Told, formula_of, hears, says, worker_of};
use coordinator_core::Coordinator;
use dimacs::Var;
use frames::Answer;
use icnf::Tree;
use lrat_check::{Reaction, Verdict, check};
use std::alloc::Global;
use std::process::Abort;

/// A fragment that closes the leaf of the literal 1.
const LEFT: &[u8] = b"5 -1 0 2 4 0\n";

/// A fragment that closes the leaf of the literal -1.
const RIGHT: &[u8] = b"5 2 0 1 2 0\n6 1 2 0 1 0\n6 d 6 0\n7 1 0 5 3 0\n";

/// Fragments that close the leaves of `1 2`, and of `1 -2`.
const BOTH_TRUE: &[u8] = b"5 -1 -2 0 4 0\n";

const ONE_TRUE: &[u8] = b"5 -1 2 0 2 0\n";

/// Those of the literals 1 and -1, joined.
const JOINED: &[u8] = b"5 -1 0 2 4 0\n6 2 0 1 2 0\n7 1 2 0 1 0\n7 d 7 0\n8 1 0 6 3 0\n9 0 5 8 0\n";

/// What is joined, from its byte 60 on.
const JOINED_END: &[u8] = b" 5 8 0\n";

/// What befalls a coordinator, as a table has it.
#[derive(Clone, Copy)]
enum Turn {
    /// A frame comes, which is to be answered so.
    Comes(Told, Reaction),
    /// It is polled for a worker, and is to say this.
    Says(u32, Told),
    /// The link of a worker is lost.
    Lost(u32),
    /// It is to join one leaf more, and says whether it does.
    Joins(bool),
    /// It begins anew, with a session.
    Restarts(u64),
    /// It is to hold nothing, or a proof.
    Holds(&'static [u8]),
}

/// The text of the short proof that it holds, none where it holds none.
fn text_of(coordinator: &Coordinator) -> &[u8] {
    match coordinator.verdict() {
        Verdict::Proof(text) => text.as_plain().unwrap_or(&[]),
        _ => &[],
    }
}

fn advance(rt: &impl Abort, coordinator: &mut Coordinator, wanted: bool) {
    assert_eq!(rt; coordinator.advance(), wanted);
}

fn holds(rt: &impl Abort, coordinator: &Coordinator, text: &[u8]) {
    assert_eq!(rt; text_of(coordinator), text);
}

/// Plays a turn. Answers the session behind it.
fn play_turn(
    rt: &impl Abort,
    alloc: Global,
    coordinator: &mut Coordinator,
    session: u64,
    turn: Turn,
) -> u64 {
    match turn {
        Turn::Comes(told, wanted) => hears(rt, alloc, coordinator, session, told, wanted),
        Turn::Says(worker, told) => says(rt, alloc, coordinator, session, worker, told),
        Turn::Lost(worker) => coordinator.lost(worker_of(rt, worker)),
        Turn::Joins(wanted) => advance(rt, coordinator, wanted),
        Turn::Restarts(number) => {
            coordinator.restart(number).expect(rt, "memory");
            return number;
        }
        Turn::Holds(text) => holds(rt, coordinator, text),
    }
    session
}

/// Plays one turn after the other, from session 1 on.
fn play(rt: &impl Abort, alloc: Global, coordinator: &mut Coordinator, turns: &[Turn]) {
    let mut session = 1;
    for turn in turns {
        session = play_turn(rt, alloc, coordinator, session, *turn);
    }
}

/// Plays turns to a coordinator of one worker, and one leaf of no literal.
fn of_one_leaf(rt: &impl Abort, alloc: Global, input: &[u8], turns: &[Turn]) -> Coordinator {
    let formula = formula_of(rt, alloc, input);
    let tree = Tree::leaf(alloc).expect(rt, "memory");
    let mut coordinator = Coordinator::new(alloc, formula, tree, 1000, 1, 1).expect(rt, "memory");
    play(rt, alloc, &mut coordinator, turns);
    coordinator
}

/// Two workers, and the leaves 1 and -1 of the four clauses.
fn two_leaves(rt: &impl Abort, alloc: Global) -> Coordinator {
    let formula = formula_of(rt, alloc, FOUR);
    let mut tree = Tree::leaf(alloc).expect(rt, "memory");
    tree.split(0, Var::new(1)).expect(rt, "memory");
    assert!(rt; formula.vars() >= 1);
    Coordinator::new(alloc, formula, tree, 1000, 2, 1).expect(rt, "memory")
}

fn of_two_leaves(rt: &impl Abort, alloc: Global, turns: &[Turn]) -> Coordinator {
    let mut coordinator = two_leaves(rt, alloc);
    play(rt, alloc, &mut coordinator, turns);
    coordinator
}

const AN_ASSIGNMENT: &[Turn] = &[
    Turn::Says(1, Told::Task(1, &[])),
    Turn::Comes(Told::Done(1, 1, Found::Values(2)), Reaction::Taken),
    Turn::Comes(Told::Done(1, 1, Found::Values(2)), Reaction::Ignored),
    Turn::Comes(Told::Done(1, 1, Found::Limit), Reaction::Ignored),
    Turn::Comes(Told::Idle(1, 1), Reaction::Ignored),
    Turn::Comes(Told::Want(1, 0), Reaction::Ignored),
    Turn::Says(1, Told::Fetch(1, 1, 1, 0)),
    Turn::Comes(Told::Piece(1, 1, 0, &[1, 0]), Reaction::Verdict),
    Turn::Comes(Told::Piece(1, 1, 0, &[1, 0]), Reaction::Ignored),
    Turn::Says(1, Told::Verdict(Found::Values(2))),
    Turn::Comes(Told::Want(1, 2), Reaction::Ignored),
    Turn::Comes(Told::Want(1, 0), Reaction::Taken),
    Turn::Says(1, Told::Part(Answer::Assignment, 0, &[1, 0])),
    Turn::Says(1, Told::Verdict(Found::Values(2))),
];

#[test]
fn an_assignment_is_fetched_and_held(rt: HostRuntime) {
    let coordinator = of_one_leaf(&rt, rt.alloc(), UNITS, AN_ASSIGNMENT);
    assert!(rt; matches!(coordinator.verdict(), Verdict::Model(_)));
}

const LIMITS: &[Turn] = &[
    Turn::Says(1, Told::Task(1, &[])),
    Turn::Comes(Told::Done(1, 1, Found::Limit), Reaction::Taken),
    Turn::Says(1, Told::Task(2, &[1])),
    Turn::Comes(Told::Done(1, 1, Found::Limit), Reaction::Ignored),
    Turn::Comes(Told::Done(1, 2, Found::Limit), Reaction::Taken),
    Turn::Says(1, Told::Task(3, &[1, 2])),
    Turn::Comes(Told::Done(1, 3, Found::Limit), Reaction::Taken),
    Turn::Says(1, Told::Rest),
];

#[test]
fn a_leaf_whose_search_met_its_limit_is_split(rt: HostRuntime) {
    let coordinator = of_one_leaf(&rt, rt.alloc(), FOUR, LIMITS);
    assert!(rt; coordinator.stuck());
}

/// The leaf 1 is split while the leaf -1 is closed, and each leaf is joined as soon as those in front of it are.
const OPEN_LEAVES: &[Turn] = &[
    Turn::Joins(false),
    Turn::Says(1, Told::Task(1, &[1])),
    Turn::Says(2, Told::Task(2, &[-1])),
    Turn::Comes(Told::Done(2, 2, Found::Proof(44)), Reaction::Taken),
    Turn::Says(2, Told::Fetch(2, 1, 2, 0)),
    Turn::Comes(Told::Piece(2, 2, 0, RIGHT), Reaction::Taken),
    Turn::Joins(false),
    Turn::Comes(Told::Done(1, 1, Found::Limit), Reaction::Taken),
    Turn::Says(1, Told::Task(3, &[1, 2])),
    Turn::Says(2, Told::Task(4, &[1, -2])),
    Turn::Comes(Told::Done(1, 3, Found::Proof(14)), Reaction::Taken),
    Turn::Comes(Told::Piece(1, 3, 0, BOTH_TRUE), Reaction::Taken),
    Turn::Joins(true),
    Turn::Joins(false),
    Turn::Lost(2),
    Turn::Joins(false),
    Turn::Says(1, Told::Task(5, &[1, -2])),
    Turn::Comes(Told::Done(1, 5, Found::Proof(13)), Reaction::Taken),
    Turn::Comes(Told::Piece(1, 5, 0, ONE_TRUE), Reaction::Verdict),
    Turn::Joins(false),
];

/// The same, joined at the end alone.
const UNJOINED: &[Turn] = &[
    Turn::Says(1, Told::Task(1, &[1])),
    Turn::Says(2, Told::Task(2, &[-1])),
    Turn::Comes(Told::Done(2, 2, Found::Proof(44)), Reaction::Taken),
    Turn::Comes(Told::Done(1, 1, Found::Limit), Reaction::Taken),
    Turn::Comes(Told::Piece(2, 2, 0, RIGHT), Reaction::Taken),
    Turn::Says(1, Told::Task(3, &[1, 2])),
    Turn::Says(2, Told::Task(4, &[1, -2])),
    Turn::Lost(2),
    Turn::Comes(Told::Done(1, 3, Found::Proof(14)), Reaction::Taken),
    Turn::Comes(Told::Piece(1, 3, 0, BOTH_TRUE), Reaction::Taken),
    Turn::Says(1, Told::Task(5, &[1, -2])),
    Turn::Comes(Told::Done(1, 5, Found::Proof(13)), Reaction::Taken),
    Turn::Comes(Told::Piece(1, 5, 0, ONE_TRUE), Reaction::Verdict),
];

#[test]
fn leaves_are_split_and_joined_while_others_are_open(rt: HostRuntime) {
    let formula = formula_of(&rt, rt.alloc(), FOUR);
    for turns in [OPEN_LEAVES, UNJOINED] {
        let coordinator = of_two_leaves(&rt, rt.alloc(), turns);
        assert!(rt; check(rt.alloc(), &formula, text_of(&coordinator)).is_ok());
    }
}

/// One leaf is closed and joined, then both, and nothing is left of either.
const RESTARTS: &[Turn] = &[
    Turn::Says(1, Told::Task(1, &[1])),
    Turn::Comes(Told::Done(1, 1, Found::Proof(13)), Reaction::Taken),
    Turn::Comes(Told::Piece(1, 1, 0, LEFT), Reaction::Taken),
    Turn::Joins(true),
    Turn::Restarts(2),
    Turn::Says(1, Told::Task(1, &[1])),
    Turn::Says(2, Told::Task(2, &[-1])),
    Turn::Comes(Told::Done(1, 1, Found::Proof(13)), Reaction::Taken),
    Turn::Comes(Told::Done(2, 2, Found::Proof(44)), Reaction::Taken),
    Turn::Comes(Told::Piece(2, 2, 0, RIGHT), Reaction::Taken),
    Turn::Comes(Told::Piece(1, 1, 0, LEFT), Reaction::Verdict),
    Turn::Holds(JOINED),
    Turn::Restarts(3),
    Turn::Holds(b""),
    Turn::Comes(Told::Want(1, 0), Reaction::Ignored),
    Turn::Says(1, Told::Task(1, &[1])),
    Turn::Says(2, Told::Task(2, &[-1])),
    Turn::Comes(Told::Done(1, 1, Found::Proof(13)), Reaction::Taken),
    Turn::Comes(Told::Done(2, 2, Found::Proof(44)), Reaction::Taken),
    Turn::Comes(Told::Piece(2, 2, 0, RIGHT), Reaction::Taken),
    Turn::Says(2, Told::Rest),
    Turn::Comes(Told::Piece(1, 1, 0, LEFT), Reaction::Verdict),
    Turn::Holds(JOINED),
];

#[test]
fn a_restart_drops_the_verdict_and_what_was_joined(rt: HostRuntime) {
    of_two_leaves(&rt, rt.alloc(), RESTARTS);
}

const HANDED_OUT: &[Turn] = &[
    Turn::Says(1, Told::Task(1, &[1])),
    Turn::Says(2, Told::Task(2, &[-1])),
    Turn::Comes(Told::Done(1, 1, Found::Proof(13)), Reaction::Taken),
    Turn::Comes(Told::Done(2, 2, Found::Proof(44)), Reaction::Taken),
    Turn::Comes(Told::Piece(2, 2, 0, RIGHT), Reaction::Taken),
    Turn::Says(2, Told::Rest),
    Turn::Comes(Told::Piece(1, 1, 0, LEFT), Reaction::Verdict),
    Turn::Holds(JOINED),
    Turn::Comes(Told::Want(1, 0), Reaction::Taken),
    Turn::Comes(Told::Want(2, 60), Reaction::Taken),
    Turn::Comes(Told::Want(3, 0), Reaction::Ignored),
    Turn::Says(1, Told::Part(Answer::Refuted, 0, JOINED)),
    Turn::Says(1, Told::Verdict(Found::Proof(67))),
    Turn::Says(2, Told::Part(Answer::Refuted, 60, JOINED_END)),
    Turn::Says(2, Told::Verdict(Found::Proof(67))),
];

/// A frame of another session is ignored.
#[test]
fn fragments_are_joined_and_handed_out(rt: HostRuntime) {
    let mut coordinator = of_two_leaves(&rt, rt.alloc(), HANDED_OUT);
    let want = Turn::Comes(Told::Want(1, 0), Reaction::Ignored);
    play_turn(&rt, rt.alloc(), &mut coordinator, 2, want);
}

const LOST_LINKS: &[Turn] = &[
    Turn::Says(1, Told::Task(1, &[1])),
    Turn::Says(2, Told::Task(2, &[-1])),
    Turn::Lost(1),
    Turn::Comes(Told::Done(1, 1, Found::Proof(13)), Reaction::Ignored),
    Turn::Says(2, Told::Task(2, &[-1])),
    Turn::Says(1, Told::Task(3, &[1])),
    Turn::Lost(1),
    Turn::Lost(2),
    Turn::Says(2, Told::Task(4, &[1])),
    Turn::Says(1, Told::Task(5, &[-1])),
];

#[test]
fn a_lost_link_opens_the_leaf(rt: HostRuntime) {
    of_two_leaves(&rt, rt.alloc(), LOST_LINKS);
}
