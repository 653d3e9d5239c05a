//! Bytes that were opened and not handed out yet.

ghost use Rattle.std.specs.Prelude.{◌≤◌, length, IfSome};

use std::alloc::Global;

/// Bytes of the peer at a place that were opened and not handed out yet: those from `start` on.
#[derive(Drop)]
pub(crate) struct Pending {
    pub(crate) place: u8,
    pub(crate) bytes: Vec<u8>,
    start: usize,
}

impl Pending {
    /// No bytes.
    pub(crate) fn new(alloc: Global) -> Pending {
        Pending {
            place: 0,
            bytes: Vec::new(alloc),
            start: 0,
        }
    }

    /// These bytes, of the peer at place 0.
    pub(crate) fn of(bytes: Vec<u8>) -> Pending {
        Pending {
            place: 0,
            bytes,
            start: 0,
        }
    }

    /// Moves bytes to the front of the room, as many as fit. Returns how many; None if there are none, or the room is empty.
    pub(crate) fn hand_out(&mut self, room: &mut [u8]) -> Option<usize>
        ensures { IfSome result (λ count. count ≤ length room.new) }
    {
        let left = self.bytes.len().saturating_sub(self.start);
        let count = left.min(room.len());
        if count == 0 {
            return None;
        }
        let end = self.start + count;
        room[..count].copy_from_slice(&self.bytes[self.start..end]);
        self.start = end;
        Some(count)
    }

    /// Drops what is there, to begin anew with what the peer at this place sends.
    pub(crate) fn begin(&mut self, place: u8) {
        self.place = place;
        self.bytes.clear();
        self.start = 0;
    }
}
