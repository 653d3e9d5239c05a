//! The inbox of one end of a link: bytes are put in, frames are taken out.

ghost use Rattle.std.specs.Prelude.{◌≡◌, ◌≢◌, [], IfOk, IsSome};

use crate::broken::Broken;
use frames::{Frame, FrameFault, Reader};
use std::alloc::{AllocError, Global};

/// The bytes and frames that came to one end of a link and are not delivered yet.
pub struct Inbox {
    /// The allocator of the frames.
    alloc: Global,
    /// The reader of the frames; between calls it holds the bytes of a frame that is not complete.
    reader: Reader,
    /// The complete frames that are not delivered yet, in order.
    waiting: Vec<Frame>,
}

impl Drop for Inbox {
    fn drop(self) {
        let Inbox {
            alloc: _,
            reader: _,
            waiting: _,
        } = self;
    }
}

impl Inbox {
    /// An empty inbox. An error is want of memory.
    pub(crate) fn new(alloc: Global) -> Result<Inbox, AllocError>
        ensures { IfOk result (λ i. i.waiting.items ≡ []) }
    {
        Ok(Inbox {
            alloc,
            reader: Reader::new(alloc)?,
            waiting: Vec::new(alloc),
        })
    }

    /// Cuts the bytes that came into frames, which wait. Answers `Closed` if the bytes are no frames, and `NoMemory` if memory is refused.
    pub(crate) fn take(&mut self, bytes: &[u8]) -> Result<(), Broken> {
        match self.reader.feed(self.alloc, bytes, &mut self.waiting) {
            Ok(()) => Ok(()),
            Err(FrameFault::NoMemory) => Err(Broken::NoMemory),
            Err(_) => Err(Broken::Closed),
        }
    }

    /// Takes the first waiting frame out of the inbox; `None` if no frame waits.
    pub(crate) fn next(&mut self) -> Option<Frame>
        ensures { IsSome result → self.old.waiting.items ≢ [] }
    {
        if self.waiting.is_empty() {
            return None;
        }
        Some(self.waiting.remove(0))
    }

    /// Drops the frames that wait in the inbox.
    pub(crate) fn clear(&mut self) {
        self.waiting.clear();
    }
}
