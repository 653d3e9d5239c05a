//! Frames that are sent to workers, and the timeouts of the tasks that are sent.

ghost use Rattle.std.specs.Prelude.{◌≡◌, ◌≢◌, ◌<◌, ◌≤◌, ◌+◌, ℕ, None, Some, IsSome, IfSome, OnOk, length};
ghost use Rattle.coordinator_core.specs.Coordinator.{coordinator_poll};
ghost use Rattle.frames.specs.declared.frame.Frame.TheVariants.{Rest};
ghost use Rattle.links.specs.Counts.{one_more};
ghost use Rattle.event_loop.specs.inner.Accounts.{Refuses, Spends};
ghost use Rattle.event_loop.specs.inner.Deliveries.{HasNothing, PolledFor, StaysLinked};
ghost use Rattle.event_loop.specs.inner.Connections.{one_if_closed};
ghost use Rattle.event_loop.specs.inner.Registrations.{idle_worker, registered_worker};

use crate::connection::{Broken, Connection};
use crate::coordinator_calls::poll;
use coordinator_core::Coordinator;
use frames::{Attempt, Chunk, Cube, Frame, encode, len};
use links::Arrivals;
use std::alloc::{AllocError, Global};

/// The bytes of the longest frame, and so the length of the buffer for each receive.
pub(crate) const LONGEST: usize = 4037;

/// The most parts of an answer that are asked for together with the first one. The worker sends them all at once, so neither end waits
/// between two parts.
const FURTHER: u32 = 15;

/// The most times that the timeout of one leaf's tasks is doubled.
const DOUBLINGS: u32 = 32;

/// Where and when an event is handled.
#[derive(Clone, Copy, Debug)]
pub(crate) struct At {
    /// The index of the link, from 0.
    pub(crate) place: u8,
    /// The time in ticks.
    pub(crate) tick: u64,
}

/// The timeouts of tasks. The timeout of a leaf's tasks doubles each time the leaf is taken back from a worker: else a long task would time
/// out again and again.
#[derive(Drop)]
pub(crate) struct Patience {
    /// The timeout in ticks of a task whose leaf was never taken back; `None` is no timeout.
    ticks: Option<u64>,
    /// For each time that a leaf was taken back, the hash of its cube.
    taken_back: Vec<u64>,
}

/// A hash (FNV-1a) of a leaf's cube. Leaves with the same hash share their timeout.
fn mark_of(cube: &Cube) -> u64 {
    let mut mark = 0xcbf2_9ce4_8422_2325;
    for literal in cube.as_slice() {
        mark = (mark ^ literal.index() as u64).wrapping_mul(0x0000_0100_0000_01b3);
    }
    mark
}

impl Patience {
    /// The timeout in ticks of a task whose leaf was never taken back, and of a run without a connection; `None` is no timeout.
    pub(crate) fn ticks(&self) -> Option<u64>
        ensures { result ≡ self.now.ticks }
    {
        self.ticks
    }

    /// Timeouts of tasks before any leaf was taken back: a task may take `ticks` ticks, and `None` is no timeout.
    pub(crate) fn new(alloc: Global, ticks: Option<u64>) -> Patience {
        Patience {
            ticks,
            taken_back: Vec::new(alloc),
        }
    }

    /// The timeout in ticks of a task whose cube has this hash: doubled for each time that such a
    /// leaf was taken back, up to `DOUBLINGS` times. `None` is no timeout.
    fn of(&self, leaf: u64) -> Option<u64> {
        let mut ticks = self.ticks?;
        let mut doublings = DOUBLINGS;
        for mark in &self.taken_back {
            if *mark == leaf && 0 < doublings {
                ticks = ticks.saturating_mul(2);
                doublings -= 1;
            }
        }
        Some(ticks)
    }

    /// Notes that a leaf whose cube has this hash was taken back from a worker at a timeout; its
    /// next task has twice the time. An error is want of memory.
    pub(crate) fn note(&mut self, leaf: u64) -> Result<(), AllocError> {
        self.taken_back.push(leaf)?;
        Ok(())
    }
}

/// Writes into `room`, from index `at`, the Fetch frame that asks for the bytes of the evidence at
/// this offset. Answers the index after the frame; `None` if `room` is too short.
fn write_fetch(attempt: &Attempt, offset: u32, room: &mut [u8], at: usize) -> Option<usize>
    requires { at ≤ length room.old }
    ensures { IfSome result (λ end. end ≤ length room.new) }
{
    let frame = Frame::Fetch {
        attempt: *attempt,
        offset,
    };
    if room.len() - at < len(&frame) {
        return None;
    }
    Some(at + encode(&frame, &mut room[at..]))
}

/// Writes into `room`, from index `at`, Fetch frames for the `parts` parts of the evidence after
/// the one at `offset`, or as many as fit. So several parts cost one round trip. Answers how many
/// frames were written, and the index after them.
fn write_further(
    attempt: &Attempt,
    offset: u32,
    parts: u32,
    room: &mut [u8],
    at: usize,
) -> (u32, usize)
    requires { at ≤ length room.old }
    ensures parts { result.0 ≤ parts }
    ensures room { result.1 ≤ length room.new }
{
    let mut offset = offset;
    let mut at = at;
    for part in 0..parts {
        offset = offset.saturating_add(Chunk::LONGEST as u32);
        match write_fetch(attempt, offset, room, at) {
            Some(end) => at = end,
            None => return (part, at),
        }
    }
    (parts, at)
}

/// Writes a frame at the front of `room`. If it is a Fetch, Fetch frames for the next parts of the
/// evidence, which has `announced` bytes, follow it. Answers how many frames were written, and the
/// index after them.
fn write(frame: &Frame, announced: u32, room: &mut [u8]) -> (u32, usize)
    requires { 4037 ≤ length room.old }
    ensures { result.1 ≤ length room.new }
{
    let end = len(frame);
    encode(frame, room);
    match frame {
        Frame::Fetch { attempt, offset } => {
            // The offset of the answer's last byte tells how many parts follow.
            let left = announced.saturating_sub(*offset).saturating_sub(1) / Chunk::LONGEST as u32;
            let (further, end) = write_further(attempt, *offset, left.min(FURTHER), room, end);
            (1 + further, end)
        }
        _ => (1, end),
    }
}

/// Sends a frame over the link of a connection, and notes how many replies are pending. A Fetch is
/// sent with those for the next parts of the evidence. Answers `Closed` if the link refuses the
/// bytes.
fn send<A: Arrivals>(
    links: &mut A,
    place: u8,
    connection: &mut Connection,
    frame: &Frame,
) -> Result<(), Broken>
    ensures connection { connection.new ≡ record connection.old { pending_replies = connection.new.pending_replies } }
    ensures calls { A.call_count links.new ≡ one_more (A.call_count links.old) }
    ensures spends { Spends A.Arrivals 1 links.old links.new }
    // At most one call is refused, over this link alone, and only if the result is `Closed`.
    ensures refusals { Refuses A.Arrivals place (one_if_closed result) 0 links.old links.new }
{
    let mut room = [0u8; LONGEST];
    let (frames, end) = write(frame, connection.announced(), &mut room);
    connection.set_pending_replies(frames);
    match links.send_to(place, &room[..end]) {
        Ok(()) => Ok(()),
        Err(_) => Err(Broken::Closed),
    }
}

/// Notes that this frame is sent to the connection's worker: a Task gives the worker a task with its own timeout, any other frame makes a
/// reply pending.
fn note_sent(connection: &mut Connection, patience: &Patience, at: At, frame: &Frame)
    ensures link { IsSome (registered_worker connection.old) → StaysLinked connection.old connection.new }
    ensures idle { idle_worker connection.new ≡ None }
{
    match frame {
        Frame::Task { cube, .. } => {
            let leaf = mark_of(cube);
            connection.set_working(at.tick, leaf, patience.of(leaf));
        }
        _ => connection.set_pending(at.tick),
    }
}

/// Sends a frame to the connection's worker if no reply of it is pending. Else the frame is dropped, and the next reply leads to a new
/// poll. Answers `Closed` if the link refuses the bytes.
fn send_unless_pending<A: Arrivals>(
    links: &mut A,
    patience: &Patience,
    at: At,
    connection: &mut Connection,
    frame: &Frame,
) -> Result<(), Broken>
    // The frame is sent if and only if no reply is pending.
    ensures pending { 0 < connection.old.pending_replies → A.call_count links.new ≡ A.call_count links.old }
    ensures told { connection.old.pending_replies ≡ 0 → A.call_count links.new ≡ one_more (A.call_count links.old) }
    ensures spends { Spends A.Arrivals 1 links.old links.new }
    // At most one call is refused, over this link alone, and only if the result is `Closed`.
    ensures refusals { Refuses A.Arrivals at.place (one_if_closed result) 0 links.old links.new }
    ensures link { IsSome (registered_worker connection.old) → StaysLinked connection.old connection.new }
    ensures idle { idle_worker connection.new ≡ None }
{
    if connection.has_pending() {
        connection.set_pending(at.tick);
        return Ok(());
    }
    note_sent(connection, patience, at, frame);
    send(links, at.place, connection, frame)
}

/// Polls the coordinator for a frame to the connection's worker, and sends it. If a reply is pending, the frame is dropped, and the next
/// reply leads to a new poll. If there is nothing for the worker to do, it is idle from now on. Nothing happens if no worker is registered.
pub(crate) fn poll_and_send<A: Arrivals>(
    links: &mut A,
    coordinator: &mut Coordinator,
    patience: &Patience,
    at: At,
    connection: &mut Connection,
) -> Result<(), Broken>
    ensures formula { coordinator.new.formula ≡ coordinator.old.formula }
    ensures verdict { coordinator.new.verdict ≡ coordinator.old.verdict }
    ensures spends { Spends A.Arrivals 1 links.old links.new }
    // At most one call is refused, over this link alone, and only if the result is `Closed`.
    ensures refusals { Refuses A.Arrivals at.place (one_if_closed result) 0 links.old links.new }
    ensures link { StaysLinked connection.old connection.new }
    ensures asked { OnOk result (PolledFor (registered_worker connection.old) coordinator.old coordinator.new) }
    ensures pending { 0 < connection.old.pending_replies → A.call_count links.new ≡ A.call_count links.old }
    ensures told { OnOk result ((worker : ℕ) → registered_worker connection.old ≡ Some worker → connection.old.pending_replies ≡ 0 → (coordinator_poll coordinator.old worker).frame ≢ Rest → A.call_count links.new ≡ one_more (A.call_count links.old)) }
    ensures idle { OnOk result ((worker : ℕ) → idle_worker connection.new ≡ Some worker → HasNothing coordinator.new worker) }
{
    let Some(worker) = connection.registered() else {
        return Ok(());
    };
    match poll(coordinator, worker) {
        Ok(Some(frame)) => send_unless_pending(links, patience, at, connection, &frame),
        Ok(None) => {
            connection.set_idle();
            Ok(())
        }
        Err(broken) => Err(broken),
    }
}
