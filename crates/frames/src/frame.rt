//! Frames: the messages between a coordinator and its workers.

ghost use Rattle.std.specs.Prelude.{◌≡◌};
ghost use Rattle.frames.specs.WireFormat.{kind_number, kind_from_number, kind_of, allows_length};

use crate::answer::{Answer, Ending, Finding};
use crate::chunk::Chunk;
use crate::cube::Cube;
use crate::worker::WorkerNumber;

/// An attempt: one worker at one job. A job's number is given once in a session, and a restarted worker has another incarnation.
#[derive(Clone, Copy, Debug, PartialEq, Eq)]
pub struct Attempt {
    /// The number of the session.
    pub session: u64,
    /// The number of the job in the session.
    pub job: u64,
    /// The number of the worker.
    pub worker: WorkerNumber,
    /// The worker's incarnation.
    pub incarnation: u64,
}

/// A message between a coordinator and a worker. Its types can hold right fields alone, so that each frame has one encoding, and each
/// encoding is of one frame.
#[derive(Debug, Drop)]
pub enum Frame {
    /// To a worker: search under this cube, with this limit.
    Task {
        session: u64,
        job: u64,
        limit: u64,
        cube: Cube,
    },
    /// To the coordinator: how the search ended.
    Done {
        attempt: Attempt,
        ending: Ending,
    },
    /// To a worker: send the evidence for your answer, from byte `offset` on.
    Fetch {
        attempt: Attempt,
        offset: u32,
    },
    /// To the coordinator: bytes of the evidence for an answer, from byte `offset` on.
    Piece {
        attempt: Attempt,
        offset: u32,
        bytes: Chunk,
    },
    /// To a worker: the formula is decided.
    Verdict {
        session: u64,
        finding: Finding,
    },
    /// To the coordinator: send the verdict's bytes, from byte `offset` on.
    Want {
        session: u64,
        worker: WorkerNumber,
        offset: u32,
    },
    /// To a worker: bytes of the verdict, from byte `offset` on.
    Part {
        session: u64,
        answer: Answer,
        offset: u32,
        bytes: Chunk,
    },
    /// To the coordinator: this worker is idle.
    Idle {
        worker: WorkerNumber,
        incarnation: u64,
    },
    /// To a worker: there is no task for you now.
    Rest,
}

/// The kind of a frame.
#[derive(Clone, Copy, Debug, PartialEq, Eq)]
pub enum Kind {
    Task,
    Done,
    Fetch,
    Piece,
    Verdict,
    Want,
    Part,
    Idle,
    Rest,
}

impl Kind {
    /// The number of the kind in a frame, 1 to 9.
    pub fn number(self) -> u8
        ensures { result ≡ kind_number self }
    {
        match self {
            Kind::Task => 1,
            Kind::Done => 2,
            Kind::Fetch => 3,
            Kind::Piece => 4,
            Kind::Verdict => 5,
            Kind::Want => 6,
            Kind::Part => 7,
            Kind::Idle => 8,
            Kind::Rest => 9,
        }
    }

    /// Whether a payload of this kind may have this length.
    pub fn allows_length(self, len: u16) -> bool
        ensures { result ≡ allows_length self len }
    {
        match self {
            Kind::Task => (24..=280).contains(&len) && len % 4 == 0,
            Kind::Done => len == 33,
            Kind::Fetch => len == 32,
            Kind::Piece => (33..=4032).contains(&len),
            Kind::Verdict => len == 13,
            Kind::Want => len == 16,
            Kind::Part => (14..=4013).contains(&len),
            Kind::Idle => len == 12,
            Kind::Rest => len == 0,
        }
    }

    /// The kind of this number; None if it is not 1 to 9.
    pub fn from_number(number: u8) -> Option<Kind>
        ensures { result ≡ kind_from_number number }
    {
        match number {
            1 => Some(Kind::Task),
            2 => Some(Kind::Done),
            3 => Some(Kind::Fetch),
            4 => Some(Kind::Piece),
            5 => Some(Kind::Verdict),
            6 => Some(Kind::Want),
            7 => Some(Kind::Part),
            8 => Some(Kind::Idle),
            9 => Some(Kind::Rest),
            _ => None,
        }
    }
}

impl Frame {
    /// The kind of the frame.
    pub fn kind(&self) -> Kind
        ensures { result ≡ kind_of self.now }
    {
        match self {
            Frame::Task { .. } => Kind::Task,
            Frame::Done { .. } => Kind::Done,
            Frame::Fetch { .. } => Kind::Fetch,
            Frame::Piece { .. } => Kind::Piece,
            Frame::Verdict { .. } => Kind::Verdict,
            Frame::Want { .. } => Kind::Want,
            Frame::Part { .. } => Kind::Part,
            Frame::Idle { .. } => Kind::Idle,
            Frame::Rest => Kind::Rest,
        }
    }
}
