//! Nodes to which any bytes come.

use crate::inputs::UNITS;
use crate::told::formula_of;
use cluster::{Bytes, Node, OpenCluster, OpenEvent};
use coordinator_core::Coordinator;
use frames::{Answer, Chunk, Finding, Frame, ProofLength, WorkerNumber, encode, len};
use icnf::Tree;
use lrat_check::{Reaction, Verdict};
use std::alloc::Global;
use std::process::Abort;
use worker_core::Worker;

fn coordinator_of(rt: &impl Abort, alloc: Global, input: &[u8]) -> Node {
    let formula = formula_of(rt, alloc, input);
    let tree = Tree::leaf(alloc).expect(rt, "memory");
    let coordinator = Coordinator::new(alloc, formula, tree, 1000, 1, 1).expect(rt, "memory");
    Node::Coordinator(coordinator)
}

fn worker_of(rt: &impl Abort, alloc: Global, input: &[u8]) -> Node {
    let formula = formula_of(rt, alloc, input);
    let worker = Worker::new(alloc, formula, WorkerNumber::new(1), 1).expect(rt, "memory");
    Node::Worker(worker)
}

/// Node 0 is a coordinator of one worker and one leaf, node 1 its worker.
pub(crate) fn cluster_of(rt: &impl Abort, alloc: Global, input: &[u8]) -> OpenCluster {
    let mut nodes = Vec::new(alloc);
    nodes
        .push(coordinator_of(rt, alloc, input))
        .expect(rt, "memory");
    nodes.push(worker_of(rt, alloc, input)).expect(rt, "memory");
    OpenCluster::new(alloc, nodes)
}

fn spelled(rt: &impl Abort, alloc: Global, frame: &Frame) -> Vec<u8> {
    let mut bytes = vec![in alloc; 0; len(frame)].expect(rt, "memory");
    encode(frame, &mut bytes);
    bytes
}

/// Bytes come to a node of a cluster.
fn deliver_bytes(
    rt: &impl Abort,
    alloc: Global,
    cluster: &mut OpenCluster,
    node: usize,
    bytes: &[u8],
) -> Reaction {
    let bytes = Bytes::from_vec(Vec::from_slice(alloc, bytes).expect(rt, "memory"));
    cluster.step(&OpenEvent::Deliver { node, bytes })
}

fn finding_of(rt: &impl Abort, answer: Answer, bytes: &[u8]) -> Finding {
    assert!(rt; !bytes.is_empty() && bytes.len() <= 4000);
    let length = bytes.len() as u32;
    match answer {
        Answer::Refuted => Finding::Refuted {
            length: ProofLength::new(length),
        },
        Answer::Assignment => Finding::Assignment { length },
    }
}

fn part_of(rt: &impl Abort, alloc: Global, answer: Answer, bytes: &[u8]) -> Frame {
    assert!(rt; !bytes.is_empty() && bytes.len() <= 4000);
    Frame::Part {
        session: 1,
        answer,
        offset: 0,
        bytes: Chunk::from_slice(alloc, bytes).expect(rt, "memory"),
    }
}

/// Announces evidence to the worker, and hands it over in one part.
pub(crate) fn offer(
    rt: &impl Abort,
    alloc: Global,
    cluster: &mut OpenCluster,
    answer: Answer,
    bytes: &[u8],
) {
    let finding = finding_of(rt, answer, bytes);
    let announced = Frame::Verdict {
        session: 1,
        finding,
    };
    for frame in [announced, part_of(rt, alloc, answer, bytes)] {
        deliver_bytes(rt, alloc, cluster, 1, &spelled(rt, alloc, &frame));
    }
}

/// Of session 1: an assignment of two bytes.
const VERDICT: &[u8] = b"CC\x05\0\x0d\0\0\0\0\0\0\0\x01\x02\0\0\0\x02";

const SHORT: &[u8] = b"CC\x05\0\x0d\0\0\0\0\0\0\0\x01\x02\0\0\0";

/// A node, bytes that come to it, bytes behind them, and its answer. What follows the first frame is not looked at.
type Row = (usize, &'static [u8], &'static [u8], Reaction);

const ROWS: [Row; 8] = [
    (0, b"", b"", Reaction::Ignored),
    (0, b"CD", b"", Reaction::Ignored),
    (0, SHORT, b"", Reaction::Ignored),
    (1, b"", b"", Reaction::Ignored),
    (1, b"CD", b"", Reaction::Ignored),
    (1, SHORT, b"", Reaction::Ignored),
    (1, VERDICT, b"CD", Reaction::Taken),
    (1, VERDICT, VERDICT, Reaction::Ignored),
];

fn joined(rt: &impl Abort, alloc: Global, front: &[u8], back: &[u8]) -> Vec<u8> {
    let mut bytes = Vec::from_slice(alloc, front).expect(rt, "memory");
    bytes.extend_from_slice(back).expect(rt, "memory");
    bytes
}

#[test]
fn bytes_without_a_whole_frame_are_ignored(rt: HostRuntime) {
    let mut cluster = cluster_of(&rt, rt.alloc(), UNITS);
    for (node, front, back, wanted) in &ROWS {
        let bytes = joined(&rt, rt.alloc(), *front, *back);
        assert_eq!(&rt;
            deliver_bytes(&rt, rt.alloc(), &mut cluster, *node, &bytes),
            *wanted
        );
    }
}

/// Bytes that come to the worker.
fn arrival(rt: &impl Abort, alloc: Global, bytes: &[u8]) -> OpenEvent {
    let bytes = Bytes::from_vec(Vec::from_slice(alloc, bytes).expect(rt, "memory"));
    OpenEvent::Deliver { node: 1, bytes }
}

/// A restart of the worker, Verdict, and this frame.
fn events_of(rt: &impl Abort, alloc: Global, frame: &Frame) -> Vec<OpenEvent> {
    let mut events = Vec::new(alloc);
    events
        .push(OpenEvent::Restart { node: 1, number: 2 })
        .expect(rt, "memory");
    events
        .push(arrival(rt, alloc, VERDICT))
        .expect(rt, "memory");
    events
        .push(arrival(rt, alloc, &spelled(rt, alloc, frame)))
        .expect(rt, "memory");
    events
}

#[test]
fn a_run_is_its_events_in_turn(rt: HostRuntime) {
    let a = rt.alloc();
    let part = part_of(&rt, a, Answer::Assignment, &[1, 0]);
    let events = events_of(&rt, a, &part);
    let mut cluster = cluster_of(&rt, a, UNITS);
    cluster.run(&events);
    assert!(rt; matches!(cluster.verdict(1), Some(Verdict::Model(_))));
}
