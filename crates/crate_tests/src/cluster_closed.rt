//! A cluster whose nodes are handed their own frames alone.

use crate::inputs::UNITS;
use crate::told::formula_of;
use cluster::ClosedCluster;
use frames::Frame;
use honest_cluster::ClosedEvent;
use icnf::Tree;
use lrat_check::{Reaction, Verdict};
use std::alloc::Global;
use std::process::Abort;

/// The clauses `1` and `-2`, one leaf and one worker.
fn small_cluster(rt: &impl Abort, alloc: Global) -> ClosedCluster {
    let formula = formula_of(rt, alloc, UNITS);
    let tree = Tree::leaf(alloc).expect(rt, "memory");
    ClosedCluster::new(alloc, &formula, tree, 100_000, 1).expect(rt, "memory")
}

/// A run that comes to an assignment, and what each event is answered.
const TURNS: [(ClosedEvent, Reaction); 11] = [
    (ClosedEvent::Poll { node: 0, worker: 1 }, Reaction::Taken),
    (ClosedEvent::Deliver { node: 1, place: 0 }, Reaction::Taken),
    (ClosedEvent::Work { node: 1 }, Reaction::Finished),
    (ClosedEvent::Poll { node: 1, worker: 0 }, Reaction::Taken),
    (ClosedEvent::Deliver { node: 0, place: 1 }, Reaction::Taken),
    (
        ClosedEvent::Deliver { node: 0, place: 1 },
        Reaction::Ignored,
    ),
    (ClosedEvent::Poll { node: 0, worker: 1 }, Reaction::Taken),
    (ClosedEvent::Deliver { node: 1, place: 2 }, Reaction::Taken),
    (ClosedEvent::Poll { node: 1, worker: 0 }, Reaction::Taken),
    (
        ClosedEvent::Deliver { node: 0, place: 3 },
        Reaction::Verdict,
    ),
    (
        ClosedEvent::Deliver { node: 0, place: 3 },
        Reaction::Ignored,
    ),
];

fn is_first_task(frame: &Frame) -> bool {
    matches!(
        frame,
        Frame::Task {
            job: 1,
            limit: 100_000,
            ..
        }
    )
}

fn is_done(frame: &Frame) -> bool {
    matches!(frame, Frame::Done { .. })
}

fn is_first_fetch(frame: &Frame) -> bool {
    matches!(frame, Frame::Fetch { offset: 0, .. })
}

fn is_first_piece(frame: &Frame) -> bool {
    matches!(frame, Frame::Piece { offset: 0, .. })
}

/// The coordinator holds an assignment, behind these four frames.
fn expect_model(rt: &impl Abort, cluster: &ClosedCluster) {
    assert!(rt; matches!(cluster.verdict(0), Some(Verdict::Model(_))));
    match cluster.frames() {
        [task, done, fetch, piece] => {
            assert!(rt; is_first_task(task) && is_done(done));
            assert!(rt; is_first_fetch(fetch) && is_first_piece(piece));
        }
        _ => panic!(rt; "no four frames"),
    }
}

#[test]
fn a_small_run_comes_to_an_assignment(rt: HostRuntime) {
    let mut cluster = small_cluster(&rt, rt.alloc());
    for (event, answer) in &TURNS {
        assert_eq!(&rt; cluster.step(event), *answer);
    }
    expect_model(&rt, &cluster);
    assert!(rt; matches!(cluster.verdict(1), Some(Verdict::Nothing)));
}

const EVENTS: &[ClosedEvent] = &[
    ClosedEvent::Poll { node: 0, worker: 1 },
    ClosedEvent::Deliver { node: 1, place: 0 },
    ClosedEvent::Work { node: 1 },
    ClosedEvent::Poll { node: 1, worker: 0 },
    ClosedEvent::Deliver { node: 0, place: 1 },
    ClosedEvent::Poll { node: 0, worker: 1 },
    ClosedEvent::Deliver { node: 1, place: 2 },
    ClosedEvent::Poll { node: 1, worker: 0 },
    ClosedEvent::Deliver { node: 0, place: 3 },
];

#[test]
fn a_run_of_a_closed_cluster_is_its_events_in_turn(rt: HostRuntime) {
    let mut cluster = small_cluster(&rt, rt.alloc());
    cluster.run(EVENTS);
    expect_model(&rt, &cluster);
}
