//! The frames that complete a proof at a worker, and close the last leaf at a coordinator; clauses
//! that are added at nodes that hold a verdict.

use super::call::{Answer, Call, Tried, try_twice};
use super::fragment_join::{LEFT, RIGHT_WITH_DELETION};
use crate::formulas::{FOUR, UNITS};
use coordinator_core::Coordinator;
use dimacs::{Builder, Extension, Lit, Var, read};
use frames::{
    Answer as Evidence, Attempt, Chunk, Ending, Finding, Frame, ProofLength, WorkerNumber,
};
use icnf::Tree;
use lrat_check::{Reaction, Verdict};
use std::alloc::{AllocError, Global};
use worker_core::Worker;

/// A proof of the four clauses, in two parts.
const PROOF: &[u8] = b"5 2 0 1 2 0\n6 0 5 3 4 0\n";

/// The first part of the proof; it ends inside a line.
const FIRST: &[u8] = b"5 2 0 1 2 0\n6 0 5";

/// The second and last part of the proof.
const LAST: &[u8] = b" 3 4 0\n";

/// The fragments of both leaves, joined.
const JOINED: &[u8] = b"5 -1 0 2 4 0\n6 2 0 1 2 0\n7 1 2 0 1 0\n7 d 7 0\n8 1 0 6 3 0\n9 0 5 8 0\n";

/// The proof, if there is a fifth clause after the four.
const RAISED_PROOF: &[u8] = b"6 2 0 1 2 0\n7 0 6 3 4 0\n";

/// The fragments of both leaves, joined, if there is a fifth clause after the four.
const RAISED_JOINED: &[u8] =
    b"6 -1 0 2 4 0\n7 2 0 1 2 0\n8 1 2 0 1 0\n8 d 8 0\n9 1 0 7 3 0\n10 0 6 9 0\n";

/// A worker that has all parts of a proof except the last.
struct AtWorker {
    worker: Worker,
    last: Frame,
}

impl Drop for AtWorker {
    fn drop(self) {
        let AtWorker { worker: _, last: _ } = self;
    }
}

impl AtWorker {
    /// Hands over the worker.
    fn into_worker(self) -> Worker {
        let AtWorker { worker, last: _ } = self;
        worker
    }
}

/// A coordinator whose leaves are closed except one.
struct AtCoordinator {
    coordinator: Coordinator,
    last: Frame,
}

impl Drop for AtCoordinator {
    fn drop(self) {
        let AtCoordinator {
            coordinator: _,
            last: _,
        } = self;
    }
}

impl AtCoordinator {
    /// Hands over the coordinator.
    fn into_coordinator(self) -> Coordinator {
        let AtCoordinator {
            coordinator,
            last: _,
        } = self;
        coordinator
    }
}

/// A worker to which a clause is added, the verdict that it holds before, and the one that it is to hold then.
struct ExtendedWorker {
    worker: Worker,
    extension: Extension,
    old: Held,
    new: Held,
}

impl Drop for ExtendedWorker {
    fn drop(self) {
        let ExtendedWorker {
            worker: _,
            extension: _,
            old: _,
            new: _,
        } = self;
    }
}

/// A coordinator to which a clause is added, and the verdicts before and after.
struct ExtendedCoordinator {
    coordinator: Coordinator,
    extension: Extension,
    old: Held,
    new: Held,
}

impl Drop for ExtendedCoordinator {
    fn drop(self) {
        let ExtendedCoordinator {
            coordinator: _,
            extension: _,
            old: _,
            new: _,
        } = self;
    }
}

/// A verdict that is held.
#[derive(Clone, Copy)]
enum Held {
    Text(&'static [u8]),
    Values(&'static [bool]),
}

/// Whether a verdict is the expected text of a proof, or the expected assignment.
fn holds(verdict: &Verdict, held: Held) -> bool {
    match (verdict, held) {
        (Verdict::Proof(text), Held::Text(wanted)) => text.as_plain() == Some(wanted),
        (Verdict::Model(values), Held::Values(wanted)) => values.values() == wanted,
        _ => false,
    }
}

/// The answer of an extension, if one verdict was held before and another one has to be held after it.
fn kept_of(reaction: Reaction, verdict: &Verdict, old: Held, new: Held) -> Answer {
    match reaction {
        Reaction::Taken if holds(verdict, new) => Answer::Said("the verdict is kept\n"),
        Reaction::NoMemory if holds(verdict, old) => Answer::NoMemory,
        Reaction::NoMemory => Answer::Changed,
        _ => Answer::Said("the verdict is not kept\n"),
    }
}

/// The answer of a reaction after which this proof has to be held.
fn answer_of(reaction: Reaction, verdict: &Verdict, wanted: &[u8]) -> Answer {
    match (reaction, verdict) {
        (Reaction::Verdict, Verdict::Proof(text)) if text.as_plain() == Some(wanted) => {
            Answer::Said("the proof is held\n")
        }
        (Reaction::NoMemory, Verdict::Nothing) => Answer::NoMemory,
        (Reaction::NoMemory, _) => Answer::Changed,
        _ => Answer::Said("the proof is not held\n"),
    }
}

impl Call for AtWorker {
    /// Delivers the last part of the proof to the worker.
    fn make(&mut self) -> Answer {
        let reaction = self.worker.deliver(&self.last);
        answer_of(reaction, self.worker.verdict(), PROOF)
    }
}

impl Call for AtCoordinator {
    /// Delivers the piece that closes the last leaf to the coordinator.
    fn make(&mut self) -> Answer {
        let reaction = self.coordinator.deliver(&self.last);
        answer_of(reaction, self.coordinator.verdict(), JOINED)
    }
}

impl Call for ExtendedWorker {
    /// Adds the clause to the formula of the worker.
    fn make(&mut self) -> Answer {
        let reaction = self.worker.extend(&self.extension, 2);
        kept_of(reaction, self.worker.verdict(), self.old, self.new)
    }
}

impl Call for ExtendedCoordinator {
    /// Adds the clause to the formula of the coordinator.
    fn make(&mut self) -> Answer {
        let reaction = self.coordinator.extend(&self.extension, 2);
        kept_of(reaction, self.coordinator.verdict(), self.old, self.new)
    }
}

/// Makes the Part frame of session 1 with these bytes of the proof, which begin at this offset.
fn part(alloc: Global, offset: u32, bytes: &[u8]) -> Option<Frame> {
    if bytes.is_empty() || bytes.len() > Chunk::LONGEST {
        return None;
    }
    Some(Frame::Part {
        session: 1,
        answer: Evidence::Refuted,
        offset,
        bytes: Chunk::from_slice(alloc, bytes).ok()?,
    })
}

/// Worker 1 of a formula.
fn worker_of(alloc: Global, text: &[u8]) -> Option<Worker> {
    let formula = read(alloc, text).ok()?;
    Worker::new(alloc, formula, WorkerNumber::new(1), 1).ok()
}

/// Delivers a frame to a worker. `None` if the reaction is another one than `wanted`.
fn give(worker: &mut Worker, frame: &Frame, wanted: Reaction) -> Option<()> {
    if worker.deliver(frame) == wanted {
        Some(())
    } else {
        None
    }
}

/// Announces a verdict to a worker. `None` if memory was wanting.
fn announce_verdict(worker: &mut Worker, finding: Finding) -> Option<()> {
    let announced = Frame::Verdict {
        session: 1,
        finding,
    };
    give(worker, &announced, Reaction::Taken)
}

/// Announces the proof to a worker, and gives it the first part. `None` if memory was wanting.
fn begin_proof(alloc: Global, worker: &mut Worker) -> Option<()> {
    let length = ProofLength::new(24);
    announce_verdict(worker, Finding::Refuted { length })?;
    let first = part(alloc, 0, FIRST)?;
    give(worker, &first, Reaction::Taken)
}

/// A worker that lacks the last part of the proof, and that part.
fn before_the_last_part(alloc: Global) -> Option<AtWorker> {
    let mut worker = worker_of(alloc, FOUR)?;
    begin_proof(alloc, &mut worker)?;
    let last = part(alloc, FIRST.len() as u32, LAST)?;
    Some(AtWorker { worker, last })
}

/// A worker that holds the proof. `None` if memory was wanting.
fn with_proof(alloc: Global) -> Option<Worker> {
    let mut at = before_the_last_part(alloc)?;
    give(&mut at.worker, &at.last, Reaction::Verdict)?;
    Some(at.into_worker())
}

/// Completes a proof at a worker, twice if memory was wanting.
pub(crate) fn last_part(alloc: Global) -> Option<Tried> {
    Some(try_twice(&mut before_the_last_part(alloc)?))
}

/// The clause `3`.
fn clause_three(alloc: Global) -> Result<Extension, AllocError> {
    let mut builder = Builder::new(alloc)?;
    builder.push(Lit::positive(Var::new(3)))?;
    builder.end_clause()?;
    Ok(builder.finish_extension(3))
}

/// The clause `-3`.
fn clause_not_three(alloc: Global) -> Result<Extension, AllocError> {
    let mut builder = Builder::new(alloc)?;
    builder.push(Lit::negative(Var::new(3)))?;
    builder.end_clause()?;
    Ok(builder.finish_extension(3))
}

/// Adds a clause at a worker that holds a proof, twice if memory was wanting.
pub(crate) fn extended_proof(alloc: Global) -> Option<Tried> {
    let worker = with_proof(alloc)?;
    let extension = clause_three(alloc).ok()?;
    Some(try_twice(&mut ExtendedWorker {
        worker,
        extension,
        old: Held::Text(PROOF),
        new: Held::Text(RAISED_PROOF),
    }))
}

/// A worker that holds an assignment. `None` if memory was wanting.
fn with_assignment(alloc: Global) -> Option<Worker> {
    let mut worker = worker_of(alloc, UNITS)?;
    announce_verdict(&mut worker, Finding::Assignment { length: 2 })?;
    let all = Frame::Part {
        session: 1,
        answer: Evidence::Assignment,
        offset: 0,
        bytes: Chunk::from_slice(alloc, b"\x01\x00").ok()?,
    };
    give(&mut worker, &all, Reaction::Verdict)?;
    Some(worker)
}

/// Adds a clause at a worker that holds an assignment, twice if memory was wanting.
pub(crate) fn extended_assignment(alloc: Global) -> Option<Tried> {
    let worker = with_assignment(alloc)?;
    let extension = clause_not_three(alloc).ok()?;
    Some(try_twice(&mut ExtendedWorker {
        worker,
        extension,
        old: Held::Values(&[true, false]),
        new: Held::Values(&[true, false, false]),
    }))
}

/// The attempt of worker 1, in its incarnation 1, at a job of session 1.
fn attempt(job: u64) -> Attempt {
    Attempt {
        session: 1,
        job,
        worker: WorkerNumber::new(1),
        incarnation: 1,
    }
}

/// Makes the Done frame of a job, which announces its fragment of 1 to 4,000 bytes.
fn done(job: u64, fragment: &[u8]) -> Option<Frame> {
    if fragment.is_empty() || fragment.len() > Chunk::LONGEST {
        return None;
    }
    let length = ProofLength::new(fragment.len() as u32);
    Some(Frame::Done {
        attempt: attempt(job),
        ending: Ending::Decided(Finding::Refuted { length }),
    })
}

/// Makes the Piece frame of a job with its whole fragment.
fn piece(alloc: Global, job: u64, fragment: &[u8]) -> Option<Frame> {
    if fragment.is_empty() || fragment.len() > Chunk::LONGEST {
        return None;
    }
    Some(Frame::Piece {
        attempt: attempt(job),
        offset: 0,
        bytes: Chunk::from_slice(alloc, fragment).ok()?,
    })
}

/// Polls the coordinator for worker 1, which gives that its next job. `None` if memory was wanting.
fn hand_out(coordinator: &mut Coordinator) -> Option<()> {
    if coordinator.workers() < 1 {
        return None;
    }
    let _ = coordinator.poll(WorkerNumber::new(1)).ok()?;
    Some(())
}

/// Delivers a frame to a coordinator. `None` if the coordinator does not take it, as for want of
/// memory.
fn take(coordinator: &mut Coordinator, frame: &Frame) -> Option<()> {
    match coordinator.deliver(frame) {
        Reaction::Taken => Some(()),
        _ => None,
    }
}

/// Gives worker 1 its next job, and delivers the Done that announces its fragment. `None` if memory
/// was wanting.
fn announce(coordinator: &mut Coordinator, job: u64, fragment: &[u8]) -> Option<()> {
    hand_out(coordinator)?;
    let done = done(job, fragment)?;
    take(coordinator, &done)
}

/// Closes the leaf of a job, by the job's Done and one Piece. `None` if memory was wanting.
fn close(alloc: Global, coordinator: &mut Coordinator, job: u64, fragment: &[u8]) -> Option<()> {
    announce(coordinator, job, fragment)?;
    let piece = piece(alloc, job, fragment)?;
    take(coordinator, &piece)
}

/// Makes a coordinator of one worker for every clause over two variables, split into the leaves 1
/// and -1.
fn of_two_leaves(alloc: Global) -> Option<Coordinator> {
    let formula = read(alloc, FOUR).ok()?;
    if formula.vars() < 1 {
        return None;
    }
    let Ok(mut tree) = Tree::leaf(alloc) else {
        return None;
    };
    match tree.split(0, Var::new(1)) {
        Ok(()) => Coordinator::new(alloc, formula, tree, 1000, 1, 1).ok(),
        Err(_) => None,
    }
}

/// A coordinator whose leaves are closed except one, and the piece that closes that one.
fn before_the_last_piece(alloc: Global) -> Option<AtCoordinator> {
    let mut coordinator = of_two_leaves(alloc)?;
    close(alloc, &mut coordinator, 1, LEFT)?;
    announce(&mut coordinator, 2, RIGHT_WITH_DELETION)?;
    let last = piece(alloc, 2, RIGHT_WITH_DELETION)?;
    Some(AtCoordinator { coordinator, last })
}

/// A coordinator that holds the joined proof. `None` if memory was wanting.
fn with_join(alloc: Global) -> Option<Coordinator> {
    let mut at = before_the_last_piece(alloc)?;
    if at.coordinator.deliver(&at.last) != Reaction::Verdict {
        return None;
    }
    Some(at.into_coordinator())
}

/// Closes the last leaf at a coordinator, twice if memory was wanting.
pub(crate) fn last_piece(alloc: Global) -> Option<Tried> {
    Some(try_twice(&mut before_the_last_piece(alloc)?))
}

/// Adds a clause at a coordinator that holds a joined proof, twice if memory was wanting.
pub(crate) fn extended_join(alloc: Global) -> Option<Tried> {
    let coordinator = with_join(alloc)?;
    let extension = clause_three(alloc).ok()?;
    Some(try_twice(&mut ExtendedCoordinator {
        coordinator,
        extension,
        old: Held::Text(JOINED),
        new: Held::Text(RAISED_JOINED),
    }))
}
