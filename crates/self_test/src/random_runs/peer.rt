//! A worker at the other end of a link.

ghost use Rattle.std.specs.Prelude.{◌≤◌, length};

use dimacs::Formula;
use frames::{Frame, Reader, WorkerNumber, encode, len};
use lrat_check::{Reaction, Verdict};
use std::alloc::{AllocError, Global};
use worker_core::Worker;

/// The bytes of the longest frame.
const LONGEST: usize = 4037;

/// A worker that does what `work` does: a frame comes, it works once, and sends one.
pub(crate) struct Peer {
    alloc: Global,
    worker: Worker,
    reader: Reader,
    waiting: Vec<Frame>,
    /// The bytes that it sent and that are under way.
    sent: Vec<u8>,
    /// Its last frame.
    last: Vec<u8>,
    /// Whether it does nothing any more, although its link is open.
    pub(crate) is_silent: bool,
    /// How many frames it refused.
    pub(crate) refused: u64,
}

impl Drop for Peer {
    fn drop(self) {
        let Peer {
            alloc: _,
            worker: _,
            reader: _,
            waiting: _,
            sent: _,
            last: _,
            is_silent: _,
            refused: _,
        } = self;
    }
}

impl Peer {
    /// A worker that has sent its first frame. An error is want of memory.
    pub(crate) fn new(
        alloc: Global,
        formula: &Formula,
        number: WorkerNumber,
        incarnation: u64,
    ) -> Result<Peer, AllocError> {
        let mut peer = Peer {
            alloc,
            worker: Worker::new(alloc, formula.copy()?, number, incarnation)?,
            reader: Reader::new(alloc)?,
            waiting: Vec::new(alloc),
            sent: Vec::new(alloc),
            last: Vec::new(alloc),
            is_silent: false,
            refused: 0,
        };
        peer.send()?;
        Ok(peer)
    }

    /// Its number.
    pub(crate) fn number(&self) -> u32 {
        self.worker.number().number()
    }

    /// Whether it holds a verdict.
    pub(crate) fn is_decided(&self) -> bool {
        !matches!(self.worker.verdict(), Verdict::Nothing)
    }

    /// Whether bytes that it sent are under way.
    pub(crate) fn has_sent(&self) -> bool {
        !self.sent.is_empty()
    }

    /// Polls the worker for a frame, and puts its bytes under way.
    fn send(&mut self) -> Result<(), AllocError> {
        let frame = self.worker.poll()?;
        let mut room = [0u8; LONGEST];
        let count = len(&frame);
        encode(&frame, &mut room);
        self.last = Vec::from_slice(self.alloc, &room[..count])?;
        self.repeat()
    }

    /// Puts the worker's last frame under way once more, as a link that repeats would.
    pub(crate) fn repeat(&mut self) -> Result<(), AllocError> {
        self.sent.extend_from_slice(&self.last)?;
        Ok(())
    }

    /// Reads bytes that the coordinator has sent into frames, which wait. Answers whether they are
    /// frames so far.
    pub(crate) fn take(&mut self, bytes: &[u8]) -> bool {
        self.reader
            .feed(self.alloc, bytes, &mut self.waiting)
            .is_ok()
    }

    /// Has the worker take the first frame that waits, work once, and send a frame, unless it is
    /// silent or holds a verdict.
    pub(crate) fn turn(&mut self) -> Result<(), AllocError> {
        if self.waiting.is_empty() || self.is_silent || self.is_decided() {
            return Ok(());
        }
        let frame = self.waiting.remove(0);
        if let Reaction::Refused(_) = self.worker.deliver(&frame) {
            self.refused = self.refused.saturating_add(1);
        }
        let _ = self.worker.work();
        self.send()
    }

    /// Puts the first bytes that are under way at the front of the room, `most` at most, and answers how many.
    pub(crate) fn fetch(&mut self, room: &mut [u8], most: usize) -> usize
        ensures { result ≤ length room.new }
    {
        let mut count = 0;
        for place in 0..room.len() {
            if self.sent.is_empty() || most <= place {
                return count;
            }
            room[place] = self.sent.remove(0);
            count = place + 1;
        }
        count
    }
}
