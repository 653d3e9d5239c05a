//! Frames as tables have them, and helpers that promise nothing, so that a test's context stays small.

use crate::inputs::literal_of;
use coordinator_core::Coordinator;
use dimacs::{Formula, read};
use frames::{
    Answer, Attempt, Chunk, Cube, Ending, Finding, Frame, ProofLength, WorkerNumber, encode, len,
};
use lrat_check::Reaction;
use std::alloc::Global;
use std::process::Abort;
use worker_core::Worker;

/// What was found, with the length of what bears it out.
#[derive(Clone, Copy)]
pub(crate) enum Found {
    Proof(u32),
    Values(u32),
    Limit,
}

/// A frame of a session. Tasks have the limit 1000; an answer is that of a worker of incarnation 1 at a job.
#[derive(Clone, Copy)]
pub(crate) enum Told {
    /// A job, and the literals of its cube.
    Task(u64, &'static [i32]),
    /// A worker, its job, and how that ended.
    Done(u32, u64, Found),
    /// A worker, its incarnation, its job, and from which byte on.
    Fetch(u32, u64, u64, u32),
    /// A worker, its job, and bytes from this one on.
    Piece(u32, u64, u32, &'static [u8]),
    Verdict(Found),
    /// A worker, and from which byte on.
    Want(u32, u32),
    /// Bytes of a verdict, from this one on.
    Part(Answer, u32, &'static [u8]),
    /// A worker, and its incarnation.
    Idle(u32, u64),
    Rest,
}

pub(crate) fn formula_of(rt: &impl Abort, alloc: Global, input: &[u8]) -> Formula {
    read(alloc, input).expect(rt, "a formula")
}

pub(crate) fn worker_of(rt: &impl Abort, number: u32) -> WorkerNumber {
    assert!(rt; number >= 1 && number <= 64);
    WorkerNumber::new(number)
}

fn cube_of(rt: &impl Abort, alloc: Global, numbers: &[i32]) -> Cube {
    let mut cube = Cube::new(alloc);
    for number in numbers {
        let literal = literal_of(rt, *number);
        assert!(rt; cube.takes(literal));
        cube.push(literal).expect(rt, "memory");
    }
    cube
}

fn attempt_of(rt: &impl Abort, session: u64, worker: u32, incarnation: u64, job: u64) -> Attempt {
    Attempt {
        session,
        job,
        worker: worker_of(rt, worker),
        incarnation,
    }
}

fn finding_of(rt: &impl Abort, found: Found) -> Option<Finding> {
    match found {
        Found::Proof(length) => {
            assert!(rt; length > 0);
            let length = ProofLength::new(length);
            Some(Finding::Refuted { length })
        }
        Found::Values(length) => Some(Finding::Assignment { length }),
        Found::Limit => None,
    }
}

fn ending_of(rt: &impl Abort, found: Found) -> Ending {
    match finding_of(rt, found) {
        Some(finding) => Ending::Decided(finding),
        None => Ending::Limit,
    }
}

fn chunk_of(rt: &impl Abort, alloc: Global, bytes: &[u8]) -> Chunk {
    assert!(rt; !bytes.is_empty() && bytes.len() <= 4000);
    Chunk::from_slice(alloc, bytes).expect(rt, "memory")
}

fn verdict_of(rt: &impl Abort, session: u64, found: Found) -> Frame {
    match finding_of(rt, found) {
        Some(finding) => Frame::Verdict { session, finding },
        None => panic!(rt; "no finding"),
    }
}

pub(crate) fn frame_of(rt: &impl Abort, alloc: Global, session: u64, told: Told) -> Frame {
    match told {
        Told::Task(job, cube) => Frame::Task {
            session,
            job,
            limit: 1000,
            cube: cube_of(rt, alloc, cube),
        },
        Told::Done(worker, job, found) => Frame::Done {
            attempt: attempt_of(rt, session, worker, 1, job),
            ending: ending_of(rt, found),
        },
        Told::Fetch(worker, incarnation, job, offset) => Frame::Fetch {
            attempt: attempt_of(rt, session, worker, incarnation, job),
            offset,
        },
        Told::Piece(worker, job, offset, bytes) => Frame::Piece {
            attempt: attempt_of(rt, session, worker, 1, job),
            offset,
            bytes: chunk_of(rt, alloc, bytes),
        },
        Told::Verdict(found) => verdict_of(rt, session, found),
        Told::Want(worker, offset) => Frame::Want {
            session,
            worker: worker_of(rt, worker),
            offset,
        },
        Told::Part(answer, offset, bytes) => Frame::Part {
            session,
            answer,
            offset,
            bytes: chunk_of(rt, alloc, bytes),
        },
        Told::Idle(worker, incarnation) => Frame::Idle {
            worker: worker_of(rt, worker),
            incarnation,
        },
        Told::Rest => Frame::Rest,
    }
}

/// Whether two frames are spelled alike.
fn are_alike(left: &Frame, right: &Frame) -> bool {
    let mut one = [0; 4037];
    let mut other = [0; 4037];
    let size = len(left);
    let length = len(right);
    let written = encode(left, &mut one) + encode(right, &mut other);
    written == size + length && one[..size] == other[..length]
}

/// What a coordinator tells a worker.
pub(crate) fn polled(rt: &impl Abort, coordinator: &mut Coordinator, worker: u32) -> Frame {
    assert!(rt; worker >= 1 && worker <= coordinator.workers());
    coordinator
        .poll(WorkerNumber::new(worker))
        .expect(rt, "memory")
}

/// A coordinator is polled for a worker, and is to say this.
pub(crate) fn says(
    rt: &impl Abort,
    alloc: Global,
    coordinator: &mut Coordinator,
    session: u64,
    worker: u32,
    told: Told,
) {
    let frame = frame_of(rt, alloc, session, told);
    assert!(rt; are_alike(&polled(rt, coordinator, worker), &frame));
}

/// A frame comes to a coordinator, which is to answer so.
pub(crate) fn hears(
    rt: &impl Abort,
    alloc: Global,
    coordinator: &mut Coordinator,
    session: u64,
    told: Told,
    wanted: Reaction,
) {
    let frame = frame_of(rt, alloc, session, told);
    assert_eq!(rt; coordinator.deliver(&frame), wanted);
}

/// A frame comes to a worker, which is to answer so.
pub(crate) fn takes(
    rt: &impl Abort,
    alloc: Global,
    worker: &mut Worker,
    session: u64,
    told: Told,
    wanted: Reaction,
) {
    let frame = frame_of(rt, alloc, session, told);
    assert_eq!(rt; worker.deliver(&frame), wanted);
}
