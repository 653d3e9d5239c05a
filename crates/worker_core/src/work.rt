//! A worker's work: its pending task, or its kept answer.

ghost use Rattle.std.specs.Prelude.{◌≡◌};
ghost use Rattle.worker_core.specs.Worker.{without_note};

use evidence::JobName;
use frames::{Answer, Cube};
use packed_text::PackedText;

/// The work of a worker: a pending task, a kept answer, or neither.
#[derive(Drop)]
pub enum Work {
    /// No task is pending, and no answer is kept.
    Free,
    /// A task is pending.
    Pending {
        name: JobName,
        cube: Cube,
        limit: u64,
    },
    /// The search met its limit.
    Limited {
        name: JobName,
    },
    /// The search found an answer, whose evidence is kept; `noted` is the offset of the last Fetch, if no poll has sent the bytes from
    /// there yet.
    Found {
        name: JobName,
        answer: Answer,
        bytes: PackedText,
        noted: Option<u32>,
    },
}

impl Work {
    /// Clears the noted offset of a Fetch, if there is one, after its Piece was made.
    pub(crate) fn forget_note(&mut self)
        ensures { self.new ≡ without_note self.old }
    {
        if let Work::Found { noted, .. } = self {
            *noted = None;
        }
    }
}
