//! The slots of a listener: at each place a connection, or none.

ghost use Rattle.std.specs.Prelude.{◌≡◌, ◌<◌, ◌≤◌, ℕ, length, map, replicate, set, get_or, false, true, is_some, IfOk, IfNone, IfSome, IsErr, OnOk};
ghost use Rattle.std.specs.Io.KnownBytes.{Appends};
ghost use Rattle.connections.specs.inner.Known.{Reads, ReadsOne, known_at, known_in};

use crate::connection::Connection;
use links::LinkFault;
use mio::Events;
use mio::event::Event;
use std::alloc::{AllocError, Global};
use std::io::{Read, Write};

/// The token of the listener for mio. The token of a connection is its place, 0 to 255.
pub(crate) const LISTENER: usize = 256;

/// Makes this many free slots. It is an error if memory is refused.
pub(crate) fn places<S: Drop>(
    alloc: Global,
    count: u8,
) -> Result<Vec<Option<Connection<S>>>, AllocError>
    ensures { IfOk result (λ v. map (λ e. is_some e) v.items ≡ replicate count false) }
{
    let mut slots = Vec::new(alloc);
    for _ in 0..count {
        slots.push(None)?;
    }
    Ok(slots)
}

/// The place of the first free slot; None if there is none.
pub(crate) fn free_place<S>(slots: &[Option<Connection<S>>]) -> Option<u8>
    ensures some { IfSome result (λ place. (place < length slots.now) × (get_or (map (λ e. is_some e) slots.now) place true ≡ false)) }
    ensures none { IfNone result ((place : ℕ) → place < 255 → get_or (map (λ e. is_some e) slots.now) place true ≡ true) }
{
    for place in 0..u8::MAX {
        if slots.len() <= place as usize {
            return None;
        }
        if slots[place as usize].is_none() {
            return Some(place);
        }
    }
    None
}

/// Puts a connection into the slot at this place, or frees the slot if it is None.
pub(crate) fn put<S: Drop>(
    slots: &mut [Option<Connection<S>>],
    place: u8,
    connection: Option<Connection<S>>,
)
    requires { place < length slots.old }
    ensures { map (λ e. is_some e) slots.new ≡ set (map (λ e. is_some e) slots.old) place (is_some connection) }
{
    slots[place as usize] = connection;
}

/// Whether an event reports that the peer hung up, or an error.
fn is_hang_up(event: &Event) -> bool {
    event.is_read_closed() || event.is_write_closed() || event.is_error()
}

/// Notes in a connection what mio reports of it: it may be read, and perhaps the peer hung up;
/// nothing changes if the slot is free.
fn note<S>(connection: &mut Option<Connection<S>>, event: &Event)
    ensures { is_some connection.new ≡ is_some connection.old }
{
    if let Some(connection) = connection {
        connection.is_ready = true;
        connection.has_hung_up = connection.has_hung_up || is_hang_up(event);
    }
}

/// Notes what the events report of each connection. Returns true if one was the listener's: a connection may wait to be accepted.
pub(crate) fn note_all<S>(slots: &mut [Option<Connection<S>>], events: &Events) -> bool
    ensures { map (λ e. is_some e) slots.new ≡ map (λ e. is_some e) slots.old }
{
    let mut may_accept = false;
    for event in events {
        let place = event.token().0;
        if place == LISTENER {
            may_accept = true;
        } else if place < slots.len() {
            note(&mut slots[place], event);
        }
    }
    may_accept
}

/// Writes all bytes to a connection without blocking. It is an error if the connection has no room for them, or if the slot is free.
pub(crate) fn send<S: Write>(
    connection: &mut Option<Connection<S>>,
    bytes: &[u8],
) -> Result<(), LinkFault>
    ensures links { is_some connection.new ≡ is_some connection.old }
    ensures nobody { is_some connection.old ≡ false → IsErr result }
    ensures sent { OnOk result (Appends (known_in S.contents connection.old) (known_in S.contents connection.new) bytes.now) }
{
    match connection {
        Some(connection) => connection.write(bytes),
        None => Err(LinkFault),
    }
}

/// Whether a read of some connection may find something.
pub(crate) fn is_ready<S>(slots: &[Option<Connection<S>>]) -> bool {
    slots.iter().any(|connection| match connection {
        Some(connection) => connection.is_ready,
        None => false,
    })
}

/// Reads from a connection once, if that may find something. Returns how many bytes; None if nothing has come or the slot is free.
fn read_slot<S: Read>(connection: &mut Option<Connection<S>>, room: &mut [u8]) -> Option<usize>
    ensures bytes { Reads (known_in S.remaining connection.old) result room.new (known_in S.remaining connection.new) }
    ensures within { IfSome result (λ count. count ≤ length room.new) }
    ensures links { is_some connection.new ≡ is_some connection.old }
{
    match connection {
        Some(connection) if connection.is_ready => connection.read(room),
        _ => None,
    }
}

/// Reads from the first connection, at a place in `from..to`, that has something. Returns its place and how many bytes; 0 bytes mean its
/// end. None if no connection has something.
pub(crate) fn read_between<S: Read>(
    slots: &mut [Option<Connection<S>>],
    from: u8,
    to: u8,
    room: &mut [u8],
) -> Option<(u8, usize)>
    ensures bytes { ReadsOne (known_at S.remaining slots.old) result room.new (known_at S.remaining slots.new) }
    ensures within { IfSome result (λ found. found.1 ≤ length room.new) }
    ensures links { map (λ e. is_some e) slots.new ≡ map (λ e. is_some e) slots.old }
{
    for place in from..to {
        if slots.len() <= place as usize {
            return None;
        }
        if let Some(count) = read_slot(&mut slots[place as usize], room) {
            return Some((place, count));
        }
    }
    None
}
