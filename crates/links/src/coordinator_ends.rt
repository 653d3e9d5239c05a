//! The coordinator's ends of the links of its workers, over connections that were accepted.

ghost use Rattle.std.specs.Prelude.{◌≡◌, ◌<◌, ◌≤◌, ◌+◌, ◌-◌, ◌⊎◌, ◌↔◌, true, false, length, replicate, set, IfOk, IsOk, OnOk, OnErr, IsSome, IfSome, IfNone, is_some};
ghost use Rattle.std.specs.List.{list_all};
ghost use Rattle.links.specs.Linked.{linked_of, is_missing, IsOneOf};

use crate::carrier::Carrier;
use crate::link::{End, LinkFault};
use crate::stream::{read_next, write_whole};
use std::alloc::{AllocError, Global};
use std::io::{Read, Write};

/// A worker's connection, and the bytes that were read from it before the worker was linked.
#[derive(Drop)]
struct Linked<S> {
    stream: S,
    /// The bytes that were read before the worker was linked.
    early: Vec<u8>,
    /// The number of the early bytes that were handed in.
    handed: usize,
}

/// The coordinator's ends of the links of workers 1 to n. The workers' ends are in other processes: their calls are refused. If a worker is
/// not linked, a receive from it returns 0 bytes, and a send to it is refused.
#[derive(Drop)]
pub struct CoordinatorEnds<S> {
    /// By worker, from number 1 on: the connection; None if the worker is not linked.
    ends: Vec<Option<Linked<S>>>,
}

/// Copies as many bytes as fit to the front of the room of a receive. Returns how many.
fn hand_in(bytes: &[u8], room: &mut [u8]) -> usize
    ensures { result ≤ length room.new }
{
    let count = bytes.len().min(room.len());
    room[..count].copy_from_slice(&bytes[..count]);
    count
}

/// Whether every worker is linked.
fn are_linked<S>(ends: &[Option<Linked<S>>]) -> bool
    ensures { result ≡ list_all (λ e. is_some e) ends.now }
{
    ends.iter().all(|end| end.is_some())
}

/// The index of a worker among `count` workers, its number less 1; None if there is no worker of this number.
fn place_of(worker: u32, count: usize) -> Option<usize>
    ensures place { IfSome result (λ place. (place < count) × (worker ≡ place + 1)) }
    ensures some { IsSome result ↔ IsOneOf count worker }
    ensures none { IfNone result ((worker ≡ 0) ⊎ (count < worker)) }
{
    let place = worker.checked_sub(1)? as usize;
    if place < count { Some(place) } else { None }
}

impl<S: Read> Linked<S> {
    /// Reads from a worker's connection: first the early bytes, which were read with its handshake,
    /// and then what comes. Returns how many bytes; 0 means that the link has ended.
    fn fetch(&mut self, room: &mut [u8]) -> Result<usize, LinkFault>
        ensures { IfOk result (λ n. n ≤ length room.new) }
    {
        if self.handed < self.early.len() {
            let count = hand_in(&self.early[self.handed..], room);
            self.handed = self.handed.saturating_add(count);
            return Ok(count);
        }
        read_next(&mut self.stream, room)
    }
}

impl<S> CoordinatorEnds<S> {
    /// The ends of workers 1 to `workers`, none of them linked. It is an error if memory is refused.
    pub fn new(alloc: Global, workers: u32) -> Result<CoordinatorEnds<S>, AllocError>
    where
        S: Drop,
        ensures { IfOk result (λ s. linked_of s ≡ replicate workers false) }
    {
        let mut ends = Vec::new(alloc);
        for _ in 0..workers {
            ends.push(None)?;
        }
        Ok(CoordinatorEnds { ends })
    }

    /// The slot of a coordinator's end. It is an error if the end is a worker's or there is no worker of this number.
    fn end(&mut self, end: End) -> Result<&mut Option<Linked<S>>, LinkFault> {
        let End::Coordinator(worker) = end else {
            return Err(LinkFault);
        };
        let place = worker.checked_sub(1).ok_or(LinkFault)?;
        self.ends.get_mut(place as usize).ok_or(LinkFault)
    }

    /// Whether there is a worker of this number that is not linked yet.
    pub fn lacks(&self, worker: u32) -> bool
        ensures { result ≡ is_missing (linked_of self.now) worker }
    {
        match place_of(worker, self.ends.len()) {
            Some(place) => self.ends[place].is_none(),
            None => false,
        }
    }

    /// Whether every worker is linked.
    pub fn is_complete(&self) -> bool
        ensures { result ≡ list_all (λ b. b) (linked_of self.now) }
    {
        are_linked(&self.ends)
    }

    /// Links a worker by its connection, from which the `early` bytes were read already. If the worker is linked, this connection replaces
    /// its old one. It is an error if there is no worker of this number; then nothing changes.
    pub fn link(&mut self, worker: u32, stream: S, early: Vec<u8>) -> Result<(), LinkFault>
    where
        S: Drop,
        ensures ok { OnOk result (linked_of self.new ≡ set (linked_of self.old) (worker - 1) true) }
        ensures number { IsOk result ↔ IsOneOf (length (linked_of self.old)) worker }
        ensures err { OnErr result (self.new ≡ self.old) }
    {
        let Some(place) = place_of(worker, self.ends.len()) else {
            return Err(LinkFault);
        };
        self.ends[place] = Some(Linked {
            stream,
            early,
            handed: 0,
        });
        Ok(())
    }
}

impl<S: Read + Write> Carrier for CoordinatorEnds<S> {
    /// Writes all bytes to the connection of the end's worker. It is an error if the worker is not
    /// linked.
    fn carry(&mut self, from: End, bytes: &[u8]) -> Result<(), LinkFault> {
        match self.end(from)? {
            Some(linked) => write_whole(&mut linked.stream, bytes),
            None => Err(LinkFault),
        }
    }

    /// Reads from the connection of the end's worker; 0 bytes, the end, if the worker is not
    /// linked.
    fn fetch(&mut self, at: End, room: &mut [u8]) -> Result<usize, LinkFault> {
        match self.end(at)? {
            Some(linked) => linked.fetch(room),
            None => Ok(0),
        }
    }
}
