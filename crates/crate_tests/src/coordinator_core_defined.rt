//! Nodes over defined variables.

use crate::inputs::FOUR;
use crate::told::{Found, Told, formula_of, hears, polled, takes};
use coordinator_core::Coordinator;
use dimacs::Builder;
use frames::{Frame, WorkerNumber};
use icnf::Tree;
use lrat_check::Reaction;
use std::alloc::Global;
use std::process::Abort;
use worker_core::Worker;

/// What befalls a worker, as a table has it.
#[derive(Clone, Copy)]
enum Turn {
    /// A task comes, which is to be answered so.
    Comes(Told, Reaction),
    /// It begins anew, with an incarnation.
    Restarts(u64),
    /// No clause comes, over three variables, and an incarnation.
    Extends(u64),
}

fn extend(rt: &impl Abort, alloc: Global, worker: &mut Worker, incarnation: u64) {
    let builder = Builder::new(alloc).expect(rt, "memory");
    let extension = builder.finish_extension(3);
    assert_eq!(rt; worker.extend(&extension, incarnation), Reaction::Taken);
}

fn play_turn(rt: &impl Abort, alloc: Global, worker: &mut Worker, turn: Turn) {
    match turn {
        Turn::Comes(told, wanted) => takes(rt, alloc, worker, 1, told, wanted),
        Turn::Restarts(incarnation) => worker.restart(incarnation),
        Turn::Extends(incarnation) => extend(rt, alloc, worker, incarnation),
    }
}

fn play(rt: &impl Abort, alloc: Global, worker: &mut Worker, turns: &[Turn]) {
    for turn in turns {
        play_turn(rt, alloc, worker, *turn);
    }
}

const PLAIN: &[Turn] = &[Turn::Comes(Told::Task(1, &[3]), Reaction::Refused(3))];

const DEFINING: &[Turn] = &[
    Turn::Comes(Told::Task(1, &[3]), Reaction::Taken),
    Turn::Restarts(2),
    Turn::Comes(Told::Task(1, &[3]), Reaction::Taken),
    Turn::Comes(Told::Task(2, &[4]), Reaction::Refused(3)),
    // Of three variables the next one is defined.
    Turn::Extends(3),
    Turn::Comes(Told::Task(1, &[4]), Reaction::Taken),
    Turn::Comes(Told::Task(2, &[5]), Reaction::Refused(3)),
];

#[test]
fn a_worker_keeps_as_many_definitions(rt: HostRuntime) {
    let one = WorkerNumber::new(1);
    let formula = formula_of(&rt, rt.alloc(), FOUR);
    let mut plain = Worker::new(rt.alloc(), formula, one, 1).expect(&rt, "memory");
    play(&rt, rt.alloc(), &mut plain, PLAIN);
    let formula = formula_of(&rt, rt.alloc(), FOUR);
    let mut worker = Worker::with_defs(rt.alloc(), formula, one, 1, 1).expect(&rt, "memory");
    play(&rt, rt.alloc(), &mut worker, DEFINING);
}

/// The number of the first literal of a task, 0 where it has none.
fn first_literal(frame: &Frame) -> i32 {
    match frame {
        Frame::Task { cube, .. } => match cube.as_slice() {
            [literal, ..] => literal.number(),
            [] => 0,
        },
        _ => 0,
    }
}

/// A coordinator tells worker 1 a task of this first literal, 0 if it has none.
fn tells(rt: &impl Abort, coordinator: &mut Coordinator, want: i32) {
    let frame = polled(rt, coordinator, 1);
    assert_eq!(rt; first_literal(&frame), want);
}

/// One worker, one definition, and one leaf of the four clauses.
fn coordinator_of(rt: &impl Abort, alloc: Global) -> Coordinator {
    let formula = formula_of(rt, alloc, FOUR);
    let tree = Tree::leaf(alloc).expect(rt, "memory");
    Coordinator::with_defs(alloc, formula, tree, 1000, 1, 1, 1).expect(rt, "memory")
}

#[test]
fn a_coordinator_splits_on_a_defined_variable(rt: HostRuntime) {
    let mut coordinator = coordinator_of(&rt, rt.alloc());
    tells(&rt, &mut coordinator, 0);
    let limited = Told::Done(1, 1, Found::Limit);
    hears(
        &rt,
        rt.alloc(),
        &mut coordinator,
        1,
        limited,
        Reaction::Taken,
    );
    tells(&rt, &mut coordinator, 3);
}
