//! Links in memory with random events.

ghost use Rattle.std.specs.Prelude.{◌<◌, ◌≤◌, ℕ, IfOk, IfSome, length};
ghost use Rattle.links.specs.Arrivals.{IsWithin};

use super::peer::Peer;
use dimacs::Formula;
use frames::WorkerNumber;
use links::{Arrival, Event, EventCarrier, LinkFault};
use rand_core::{Rng, SeedableRng};
use rand_xoshiro::Xoshiro256PlusPlus;
use std::alloc::{AllocError, Global};

/// How many workers there are.
const WORKERS: u64 = 3;

/// How many places there are.
const PLACES: u8 = 8;

/// How many random steps a run has at most.
const DRAWS: u64 = 100_000;

/// Workers and their links. Each step a random worker links, works, or sends some of its bytes. While disorder lasts, links also end, break
/// or are full, frames come twice, and workers fall silent or link again beside their old link.
pub(crate) struct RandomLinks<'a> {
    alloc: Global,
    formula: &'a Formula,
    words: Xoshiro256PlusPlus,
    peers: Vec<Option<Peer>>,
    tick: u64,
    drawn: u64,
    /// For how many steps disorder lasts yet.
    disorder: u64,
    /// The last incarnation.
    incarnation: u64,
    /// Whether there was no disorder from the beginning.
    is_orderly: bool,
    /// How many frames were refused by workers that are gone.
    refused: u64,
    /// How many links were hung up.
    hung_up: u64,
}

impl Drop for RandomLinks<'_> {
    fn drop(self) {
        let RandomLinks {
            alloc: _,
            formula: _,
            words: _,
            peers: _,
            tick: _,
            drawn: _,
            disorder: _,
            incarnation: _,
            is_orderly: _,
            refused: _,
            hung_up: _,
        } = self;
    }
}

impl<'a> RandomLinks<'a> {
    /// Links to which no worker is linked yet. The first `disorder` steps are in disorder. An error
    /// is want of memory.
    pub(crate) fn new(
        alloc: Global,
        formula: &'a Formula,
        seed: u64,
        disorder: u64,
    ) -> Result<RandomLinks<'a>, AllocError> {
        let mut peers = Vec::new(alloc);
        for _ in 0..PLACES {
            peers.push(None)?;
        }
        Ok(RandomLinks {
            alloc,
            formula,
            words: Xoshiro256PlusPlus::seed_from_u64(seed),
            peers,
            tick: 0,
            drawn: 0,
            disorder,
            incarnation: 0,
            is_orderly: disorder == 0,
            refused: 0,
            hung_up: 0,
        })
    }

    /// How many frames workers refused.
    pub(crate) fn refused(&self) -> u64 {
        let mut refused = self.refused;
        for peer in &self.peers {
            if let Some(peer) = peer {
                refused = refused.saturating_add(peer.refused);
            }
        }
        refused
    }

    /// How many links were hung up, if there was no disorder from the beginning; else 0.
    pub(crate) fn hung_up(&self) -> u64 {
        if self.is_orderly { self.hung_up } else { 0 }
    }

    /// A random number below `end`.
    fn below(&mut self, end: u64) -> u64
        requires { 1 ≤ end }
        ensures { result < end }
    {
        self.words.next_u64() % end
    }

    /// Whether a worker of this number is linked.
    fn has(&self, number: u32) -> bool {
        self.peers.iter().any(|peer| match peer {
            Some(peer) => peer.number() == number,
            None => false,
        })
    }

    /// The worker at a place.
    fn peer_at(&mut self, place: u8) -> Option<&mut Peer> {
        match self.peers.get_mut(place as usize) {
            Some(Some(peer)) => Some(peer),
            _ => None,
        }
    }

    /// A random worker links at a random place, if that is free. Without disorder each worker has one link at most.
    fn link(&mut self) -> Result<Option<Event>, AllocError>
        ensures { IfOk result (λ found. IfSome found (λ event. (most : ℕ) → IsWithin event most)) }
    {
        let place = self.below(PLACES as u64) as u8;
        let number = 1 + self.below(WORKERS) as u32;
        if place as usize >= self.peers.len() || self.peers[place as usize].is_some() {
            return Ok(None);
        }
        if self.disorder == 0 && self.has(number) {
            return Ok(None);
        }
        self.incarnation = self.incarnation.saturating_add(1);
        let worker = WorkerNumber::new(number);
        let peer = Peer::new(self.alloc, self.formula, worker, self.incarnation)?;
        self.peers[place as usize] = Some(peer);
        Ok(Some(Event::Linked { place }))
    }

    /// Drops the worker at a place; the event is the end of its link.
    fn end(&mut self, place: u8) -> Option<Event>
        ensures { IfSome result (λ event. (most : ℕ) → IsWithin event most) }
    {
        let peer = self.peers.get_mut(place as usize)?;
        if let Some(gone) = peer {
            self.refused = self.refused.saturating_add(gone.refused);
        }
        *peer = None;
        Some(Event::Bytes { place, count: 0 })
    }

    /// Some of the bytes of a worker come; or the end of its link, if it is done, or silent while there is no disorder.
    fn send(&mut self, place: u8, room: &mut [u8]) -> Option<Event>
        ensures { IfSome result (λ event. IsWithin event (length room.new)) }
    {
        let most = 1 + self.below(room.len() as u64 + 1) as usize;
        let is_orderly = self.disorder == 0;
        let Some(peer) = self.peer_at(place) else {
            return None;
        };
        if peer.has_sent() && !peer.is_silent {
            let count = peer.fetch(room, most);
            return Some(Event::Bytes { place, count });
        }
        if peer.is_decided() || (peer.is_silent && is_orderly) {
            return self.end(place);
        }
        None
    }

    /// Gives the worker at a place a turn, which is no event.
    fn work(&mut self, place: u8) -> Result<Option<Event>, AllocError>
        ensures { IfOk result (λ found. IfSome found (λ event. (most : ℕ) → IsWithin event most)) }
    {
        if let Some(peer) = self.peer_at(place) {
            peer.turn()?;
        }
        Ok(None)
    }

    /// While disorder lasts, something may go wrong at a place: the link ends, the worker falls
    /// silent, or it repeats its last frame.
    fn go_wrong(&mut self, place: u8) -> Result<Option<Event>, AllocError>
        ensures { IfOk result (λ found. IfSome found (λ event. (most : ℕ) → IsWithin event most)) }
    {
        if self.disorder == 0 {
            return Ok(None);
        }
        let what = self.below(8);
        let Some(peer) = self.peer_at(place) else {
            return Ok(None);
        };
        match what {
            0 => return Ok(self.end(place)),
            1 => peer.is_silent = true,
            2..=4 => peer.repeat()?,
            _ => {}
        }
        Ok(None)
    }

    /// Draws a random step and takes it: bytes come, a worker works, one links, something goes
    /// wrong, or time passes. Answers its event, if it has one.
    fn draw(&mut self, room: &mut [u8]) -> Result<Option<Event>, AllocError>
        ensures { IfOk result (λ found. IfSome found (λ event. IsWithin event (length room.new))) }
    {
        let place = self.below(PLACES as u64) as u8;
        match self.below(16) {
            0..=6 => Ok(self.send(place, room)),
            7..=12 => self.work(place),
            13 => self.link(),
            14 => self.go_wrong(place),
            _ => {
                // Without disorder no worker is slow.
                if self.disorder != 0 {
                    self.tick = self.tick.saturating_add(1);
                }
                Ok(Some(Event::Quiet))
            }
        }
    }

    /// Answers the next event: takes random steps until one has an event, or the run has had its
    /// `DRAWS` steps.
    fn next(&mut self, room: &mut [u8]) -> Event
        ensures { IsWithin result (length room.new) }
    {
        for _ in 0..DRAWS {
            if DRAWS <= self.drawn {
                return Event::Over;
            }
            self.drawn = self.drawn.saturating_add(1);
            self.disorder = self.disorder.saturating_sub(1);
            match self.draw(room) {
                Ok(Some(event)) => return event,
                Ok(None) => {}
                Err(_) => return Event::Over,
            }
        }
        Event::Over
    }
}

impl EventCarrier for RandomLinks<'_> {
    /// Answers the next random event, with the tick of the simulated clock.
    fn await_any(&mut self, room: &mut [u8]) -> Arrival
        ensures { IsWithin result.event (length room.new) }
    {
        let event = self.next(room);
        Arrival {
            tick: self.tick,
            event,
        }
    }

    /// Gives the bytes to the worker at a place; one call in 64 is refused while disorder lasts.
    fn carry_to(&mut self, place: u8, bytes: &[u8]) -> Result<(), LinkFault> {
        if self.disorder != 0 && self.below(64) == 0 {
            return Err(LinkFault);
        }
        let Some(peer) = self.peer_at(place) else {
            return Err(LinkFault);
        };
        if peer.take(bytes) {
            return Ok(());
        }
        Err(LinkFault)
    }

    /// Counts a link that the coordinator hangs up, and drops its worker.
    fn drop_at(&mut self, place: u8) {
        self.hung_up = self.hung_up.saturating_add(1);
        let _ = self.end(place);
    }
}
