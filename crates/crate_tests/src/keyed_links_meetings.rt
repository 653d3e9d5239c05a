//! Links under a shared key over carriers in memory: a worker that is told of when it has shown the key, and peers that are silent, have
//! another key, or send garbage; a worker's end over a stream.

ghost use Rattle.std.specs.Prelude.{◌≤◌, length};
ghost use Rattle.links.specs.Arrivals.{IsWithin};

use crate::sealed_links_wire::{key_of, sent_by};
use keyed_links::{KeyedEvents, KeyedWorker, MeetFault};
use links::{Arrival, Carrier, End, Event, EventCarrier, LinkFault};
use sealed_links::Side;
use std::alloc::Global;
use std::io;
use std::io::{Read, Write};
use std::process::Abort;
use std::random::RandomSource;

/// A source of ones.
#[derive(Drop)]
struct Ones;

impl RandomSource for Ones {
    fn fill_bytes(&self, buf: &mut [u8]) -> io::Result<()> {
        for byte in buf.iter_mut() {
            *byte = 1;
        }
        Ok(())
    }
}

/// An event, when it comes, and its bytes.
#[derive(Drop)]
struct Turn {
    tick: u64,
    event: Event,
    bytes: Vec<u8>,
}

/// Events that come, the last one first; what was sent; the places that were dropped.
#[derive(Drop)]
struct Events {
    turns: Vec<Turn>,
    sent: Vec<u8>,
    dropped: Vec<u8>,
}

/// The event of a turn, with its bytes at the front of the room.
fn played(turn: &Turn, room: &mut [u8]) -> Arrival
    ensures { IsWithin result.event (length room.new) }
{
    let count = turn.bytes.len().min(room.len());
    room[..count].copy_from_slice(&turn.bytes[..count]);
    let event = match turn.event {
        Event::Bytes { place, .. } => Event::Bytes { place, count },
        Event::Linked { place } => Event::Linked { place },
        Event::Quiet => Event::Quiet,
        Event::Over => Event::Over,
    };
    Arrival {
        tick: turn.tick,
        event,
    }
}

impl EventCarrier for Events {
    fn await_any(&mut self, room: &mut [u8]) -> Arrival {
        match self.turns.pop() {
            Some(turn) => played(&turn, room),
            None => Arrival {
                tick: 0,
                event: Event::Over,
            },
        }
    }

    fn carry_to(&mut self, _place: u8, bytes: &[u8]) -> Result<(), LinkFault> {
        self.sent.extend_from_slice(bytes).map_err(|_| LinkFault)
    }

    fn drop_at(&mut self, place: u8) {
        let _ = self.dropped.push(place);
    }
}

/// A turn with these bytes.
fn turn_of(rt: &impl Abort, alloc: Global, tick: u64, event: Event, bytes: &[u8]) -> Turn {
    let bytes = Vec::from_slice(alloc, bytes).expect(rt, "memory");
    Turn { tick, event, bytes }
}

/// Adds a turn before those that are there.
fn add(rt: &impl Abort, turns: &mut Vec<Turn>, turn: Turn) {
    assert!(rt; turns.push(turn).is_ok());
}

/// A coordinator's ends with the key 7 and the formula 5, to which these events come, the last one first.
fn ends_of(rt: &impl Abort, alloc: Global, turns: Vec<Turn>) -> KeyedEvents<Events, Ones> {
    let events = Events {
        turns,
        sent: Vec::new(alloc),
        dropped: Vec::new(alloc),
    };
    KeyedEvents::new(alloc, events, Ones, key_of(rt, alloc, 7), [5; 32]).expect(rt, "memory")
}

/// The next event, with a room of 16 bytes.
fn next_of(ends: &mut KeyedEvents<Events, Ones>) -> Event {
    let mut room = [0; 16];
    ends.await_any(&mut room).event
}

/// Bytes at place 3.
const BYTES: Event = Event::Bytes { place: 3, count: 0 };

#[test]
fn a_worker_is_told_of_when_it_has_shown_the_key(rt: HostRuntime) {
    let wire = sent_by(&rt, rt.alloc(), Side::Worker, Side::Coordinator, 7);
    let (front, back) = wire.split_at(70.min(wire.len()));
    let mut turns = Vec::new(rt.alloc());
    add(&rt, &mut turns, turn_of(&rt, rt.alloc(), 1, BYTES, back));
    add(&rt, &mut turns, turn_of(&rt, rt.alloc(), 0, BYTES, front));
    add(
        &rt,
        &mut turns,
        turn_of(&rt, rt.alloc(), 0, Event::Linked { place: 3 }, b""),
    );
    let mut ends = ends_of(&rt, rt.alloc(), turns);
    assert_eq!(&rt; next_of(&mut ends), Event::Quiet);
    assert!(&rt; ends.carry_to(3, b"early").is_err());
    assert_eq!(&rt; next_of(&mut ends), Event::Quiet);
    assert_eq!(&rt; next_of(&mut ends), Event::Linked { place: 3 });
    assert_eq!(&rt; next_of(&mut ends), Event::Bytes { place: 3, count: 3 });
    assert!(&rt; ends.carry_to(3, b"one").is_ok());
    let sent = sent_by(&rt, rt.alloc(), Side::Coordinator, Side::Worker, 7);
    assert_eq!(&rt; ends.carrier().sent.as_slice(), sent.as_slice());
}

/// The places that are dropped, after so many events.
fn dropped_after(rt: &impl Abort, alloc: Global, turns: Vec<Turn>, count: usize) -> Vec<u8> {
    let mut ends = ends_of(rt, alloc, turns);
    for _ in 0..count {
        assert_eq!(rt; next_of(&mut ends), Event::Quiet);
    }
    Vec::from_slice(alloc, &ends.carrier().dropped).expect(rt, "memory")
}

#[test]
fn a_silent_peer_is_dropped_after_ten_seconds(rt: HostRuntime) {
    let mut turns = Vec::new(rt.alloc());
    add(
        &rt,
        &mut turns,
        turn_of(&rt, rt.alloc(), 14, Event::Quiet, b""),
    );
    add(
        &rt,
        &mut turns,
        turn_of(&rt, rt.alloc(), 13, Event::Quiet, b""),
    );
    add(
        &rt,
        &mut turns,
        turn_of(&rt, rt.alloc(), 4, Event::Linked { place: 3 }, b""),
    );
    add(
        &rt,
        &mut turns,
        turn_of(&rt, rt.alloc(), 4, Event::Quiet, b""),
    );
    assert_eq!(&rt;
        dropped_after(&rt, rt.alloc(), turns, 4).as_slice(),
        [3].as_slice()
    );
    let mut turns = Vec::new(rt.alloc());
    add(
        &rt,
        &mut turns,
        turn_of(&rt, rt.alloc(), 13, Event::Quiet, b""),
    );
    add(
        &rt,
        &mut turns,
        turn_of(&rt, rt.alloc(), 4, Event::Linked { place: 3 }, b""),
    );
    add(
        &rt,
        &mut turns,
        turn_of(&rt, rt.alloc(), 4, Event::Quiet, b""),
    );
    assert!(&rt; dropped_after(&rt, rt.alloc(), turns, 3).is_empty());
}

#[test]
fn garbage_and_another_key_are_dropped_at_once(rt: HostRuntime) {
    for bytes in [
        [9; 127].as_slice(),
        &sent_by(&rt, rt.alloc(), Side::Worker, Side::Coordinator, 8),
    ] {
        let mut turns = Vec::new(rt.alloc());
        add(&rt, &mut turns, turn_of(&rt, rt.alloc(), 0, BYTES, bytes));
        add(
            &rt,
            &mut turns,
            turn_of(&rt, rt.alloc(), 0, Event::Linked { place: 3 }, b""),
        );
        assert_eq!(&rt;
            dropped_after(&rt, rt.alloc(), turns, 2).as_slice(),
            [3].as_slice()
        );
    }
}

/// A stream that hands in bytes, and takes all that is written.
#[derive(Drop)]
struct Pipe {
    input: Vec<u8>,
    at: usize,
}

impl Read for Pipe {
    fn read(&mut self, buf: &mut [u8]) -> io::Result<usize> {
        let start = self.at.min(self.input.len());
        let end = start + (self.input.len() - start).min(buf.len());
        let count = end - start;
        buf[..count].copy_from_slice(&self.input[start..end]);
        self.at = end;
        Ok(count)
    }
}

impl Write for Pipe {
    fn write(&mut self, buf: &[u8]) -> io::Result<usize> {
        Ok(buf.len())
    }

    fn flush(&mut self) -> io::Result<()> {
        Ok(())
    }
}

/// The worker's end with this key, over a stream from a coordinator with the key 7.
fn worker_of(rt: &impl Abort, alloc: Global, key: u8) -> Result<KeyedWorker<Pipe>, MeetFault> {
    let input = sent_by(rt, alloc, Side::Coordinator, Side::Worker, 7);
    KeyedWorker::meet(
        Pipe { input, at: 0 },
        alloc,
        &key_of(rt, alloc, key),
        [2; 32],
        [5; 32],
    )
}

#[test]
fn a_worker_meets_a_coordinator_that_has_its_key(rt: HostRuntime) {
    let mut worker = worker_of(&rt, rt.alloc(), 7).expect(&rt, "they meet");
    let mut room = [0; 16];
    assert_eq!(&rt; worker.fetch(End::Worker(1), &mut room), Ok(3));
    assert!(&rt; room.as_slice().starts_with(b"one"));
    assert_eq!(&rt; worker.fetch(End::Worker(1), &mut room), Ok(0));
    assert!(&rt; worker.carry(End::Worker(1), b"two").is_ok());
    assert!(&rt; matches!(&worker_of(&rt, rt.alloc(), 8), Err(MeetFault::OtherKey)));
}
