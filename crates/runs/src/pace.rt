//! The pace of a worker: in which rounds it searches.

ghost use Rattle.std.specs.Prelude.{◌≤◌};

use crate::plan::Order;
use frames::Frame;

/// The longest beat, in rounds.
const LONGEST: u64 = 256;

/// What a worker does first in a round, and, if it sends first, in which rounds it begins a search.
///
/// A coordinator waits for each worker in turn, so a worker that searches keeps all others waiting. Therefore workers that send first begin
/// their searches together, in rounds whose number is a multiple of a beat: all count the same rounds. The beat is the least power of four
/// that is at least twice the number of pieces of the last answer, but at most 256. So a worker that sends about as many pieces has its
/// next task by then, and the beat is short if searches are.
#[derive(Clone, Copy, Debug)]
pub(crate) struct Pace {
    /// What the worker does first in a round.
    order: Order,
    /// How many frames the worker has sent: one a round.
    sent: u64,
    /// How many pieces of its last answer the worker has sent.
    pieces: u64,
    /// Whether the worker's last frame was Idle: if it has something to do, that is the beginning of a search. True before the first frame.
    is_idle: bool,
}

impl Pace {
    /// The pace of a worker that has sent no frame.
    pub(crate) fn new(order: Order) -> Pace {
        Pace {
            order,
            sent: 0,
            pieces: 0,
            is_idle: true,
        }
    }

    /// What the worker does first in a round.
    pub(crate) fn order(&self) -> Order {
        self.order
    }

    /// Counts a frame that the worker has sent: a beat grows with the number of Pieces that the
    /// last answer took.
    pub(crate) fn note(&mut self, frame: &Frame) {
        self.sent = self.sent.saturating_add(1);
        self.is_idle = matches!(frame, Frame::Idle { .. });
        match frame {
            Frame::Done { .. } => self.pieces = 0,
            Frame::Piece { .. } => self.pieces = self.pieces.saturating_add(1),
            _ => {}
        }
    }

    /// Tells whether the worker searches in this round: always if its last frame was no Idle, and
    /// else once a beat, since only the beginning of a search takes long.
    pub(crate) fn is_due(&self) -> bool {
        !self.is_idle || self.sent % self.beat() == 0
    }

    /// The length of a beat, in rounds, from 1 to 256: a search begins in rounds whose number is a multiple of it.
    fn beat(&self) -> u64
        ensures { 1 ≤ result }
    {
        match self.pieces {
            0 => 1,
            1..=2 => 4,
            3..=8 => 16,
            9..=32 => 64,
            _ => LONGEST,
        }
    }
}
