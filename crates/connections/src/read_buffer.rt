//! The read buffer: bytes that were read from one connection at once, and are handed out in smaller pieces.

use crate::connection::Connection;
use crate::slots::read_between;
use std::alloc::{AllocError, Global};
use std::io::Read;
use std::marker::Model;

/// The number of bytes that one read asks for: more than a worker sends in one go, so that mostly a single read finds all that has come.
const ROOM: usize = 65_536;

/// A buffer of bytes that were read from the connection at `place` and not handed out yet: `room[start..end]`.
#[derive(Drop)]
pub(crate) struct ReadBuffer {
    /// The memory of the buffer, `ROOM` bytes.
    room: Vec<u8>,
    /// The place of the connection from which the bytes were read.
    place: u8,
    start: usize,
    end: usize,
}

impl Model for ReadBuffer {
    ghost use Rattle.std.specs.Prelude.{◌-◌, ◌≤◌, drop, take, vec_len};
    ghost use Rattle.connections.specs.Unread.{Unread};

    ghost Value = { Unread };

    ghost view = { λ a. record { place = a.place; bytes = take (a.end - a.start) (drop a.start a.room.items) } };

    ghost invariant = { λ a. (a.start ≤ a.end) × (a.end ≤ vec_len a.room) };
}

impl ReadBuffer {
    ghost use Rattle.std.specs.Prelude.{◌≡◌, ◌≢◌, ◌<◌, ◌≤◌, [], length, map, is_some, IfOk, IfSome, MatchBool, MatchOption};
    ghost use Rattle.connections.specs.inner.NextEvent.{IsHandedOut};
    ghost use Rattle.connections.specs.inner.Known.{ReadsOne, known_at};

    /// An empty buffer. It is an error if memory is refused.
    pub(crate) fn new(alloc: Global) -> Result<ReadBuffer, AllocError>
        ensures { IfOk result (λ a. a.bytes ≡ []) }
    {
        Ok(ReadBuffer {
            room: vec![in alloc; 0; ROOM]?,
            place: 0,
            start: 0,
            end: 0,
        })
    }

    /// Whether the buffer has bytes that were not handed out yet.
    pub(crate) fn has_left(&self) -> bool
        ensures { MatchBool result (self.now.bytes ≢ []) (self.now.bytes ≡ []) }
    {
        self.start < self.end
    }

    /// Reads into the empty buffer from the first connection, at a place in `from..to`, that has something. Returns its place and how many
    /// bytes; 0 bytes mean that the connection has ended, or failed. None if no connection has something.
    pub(crate) fn read<S: Read>(
        &mut self,
        slots: &mut [Option<Connection<S>>],
        from: u8,
        to: u8,
    ) -> Option<(u8, usize)>
        requires { self.old.bytes ≡ [] }
        ensures links { map (λ e. is_some e) slots.new ≡ map (λ e. is_some e) slots.old }
        ensures bytes { ReadsOne (known_at S.remaining slots.old) result self.new.bytes (known_at S.remaining slots.new) }
        ensures left { MatchOption result (self.new ≡ self.old) (λ found. (self.new.place ≡ found.0) × (length self.new.bytes ≡ found.1)) }
    {
        let (place, count) = read_between(slots, from, to, &mut self.room)?;
        self.place = place;
        self.start = 0;
        self.end = count;
        Some((place, count))
    }

    /// Moves bytes from the front of the buffer to the front of the room, as many as fit. Returns the place of their connection and how
    /// many; `None` if the buffer or the room is empty.
    pub(crate) fn take(&mut self, room: &mut [u8]) -> Option<(u8, usize)>
        ensures within { IfSome result (λ found. found.1 ≤ length room.new) }
        ensures taken { MatchOption result ((self.new ≡ self.old) × (0 < length room.new → self.old.bytes ≡ [])) (λ found. IsHandedOut self.old found.0 found.1 room.new self.new) }
    {
        let count = room.len().min(self.end - self.start);
        if count == 0 {
            return None;
        }
        let end = self.start + count;
        room[..count].copy_from_slice(&self.room[self.start..end]);
        self.start = end;
        Some((self.place, count))
    }

    /// Drops the bytes that were read from the connection at this place, if the buffer has any,
    /// since that connection is closed and its place may be used again.
    pub(crate) fn forget(&mut self, place: u8)
        ensures there { self.old.place ≡ place → self.new.bytes ≡ [] }
        ensures place { self.new.place ≡ self.old.place }
        ensures elsewhere { self.old.place ≢ place → self.new ≡ self.old }
    {
        if self.place == place {
            self.start = self.end;
        }
    }
}
