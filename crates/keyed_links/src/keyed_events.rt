//! The coordinator's ends of links that come and go, under a shared key.

ghost use Rattle.std.specs.Prelude.{◌≡◌, ◌≤◌, ℕ, length, IfOk};
ghost use Rattle.keyed_links.specs.Carriers.{carrier_of};
ghost use Rattle.links.specs.Arrivals.{IsWithin};

use crate::hearing::{Heard, hear};
use crate::peers::{Peer, Peers};
use crate::pending::Pending;
use links::{Arrival, Event, EventCarrier, LinkFault, Progress};
use sealed_links::{Handshake, Link, SharedKey, Side};
use std::alloc::{AllocError, Global};
use std::random::RandomSource;

/// The number of bytes that are received at once.
const ROOM: usize = 65_536;

/// What both sides have to have.
#[derive(Drop)]
struct Common {
    /// The key.
    key: SharedKey,
    /// The SHA-256 of the formula.
    digest: [u8; 32],
}

/// The coordinator's ends over another carrier: it tells of a link when its peer has shown that it has the key and the formula, and hands
/// on the payloads of its records. Peers that have shown nothing within ten seconds are dropped, and no one is told of them.
#[derive(Drop)]
pub struct KeyedEvents<C, R> {
    carrier: C,
    /// Where fresh values come from.
    random: R,
    alloc: Global,
    common: Common,
    peers: Peers,
    /// Room for what is received.
    room: Vec<u8>,
    /// The records that are sent next.
    records: Vec<u8>,
    pending: Pending,
    /// The time of the last event of the carrier, in seconds.
    tick: u64,
}

impl<C, R> KeyedEvents<C, R> {
    /// Ends over this carrier, under this key, for the formula with this SHA-256. It is an error if memory is refused.
    pub fn new(
        alloc: Global,
        carrier: C,
        random: R,
        key: SharedKey,
        digest: [u8; 32],
    ) -> Result<KeyedEvents<C, R>, AllocError>
    where
        C: Drop,
        R: Drop,
        ensures { IfOk result (λ ends. carrier_of ends ≡ carrier) }
    {
        let peers = Peers::new(alloc)?;
        let room = vec![in alloc; 0; ROOM]?;
        Ok(KeyedEvents {
            carrier,
            random,
            alloc,
            common: Common { key, digest },
            peers,
            room,
            records: Vec::new(alloc),
            pending: Pending::new(alloc),
            tick: 0,
        })
    }

    /// The carrier beneath.
    pub fn carrier(&self) -> &C
        ensures { result.now ≡ carrier_of self.now }
    {
        &self.carrier
    }
}

impl<C: EventCarrier, R: RandomSource> KeyedEvents<C, R> {
    /// Ends the link at a place beneath, of whose peer no one was told.
    fn refuse(&mut self, place: u8) -> Event
        ensures { result ≡ Event.Quiet }
    {
        self.peers.put(place, None);
        self.carrier.drop_at(place);
        Event::Quiet
    }

    /// Begins the handshake with a peer that came to a place.
    fn greet(&mut self, place: u8) -> Event
        ensures { result ≡ Event.Quiet }
    {
        let mut fresh = [0; 32];
        if self.random.fill_bytes(&mut fresh).is_err() {
            return self.refuse(place);
        }
        let handshake = Handshake::new(Side::Coordinator, fresh, self.common.digest);
        if self.carrier.carry_to(place, &handshake.hello()).is_err() {
            return self.refuse(place);
        }
        let peer = Peer {
            link: Link::Meeting(handshake),
            since: self.tick,
        };
        self.peers.put(place, Some(peer));
        Event::Quiet
    }

    /// Goes on with a peer that has not shown yet that it has the key: it is told of as soon as it has.
    fn meet(&mut self, place: u8, since: u64, handshake: Handshake, count: usize) -> Event
        requires { count ≤ length self.old.room.items }
        ensures { (n : ℕ) → IsWithin result n }
    {
        let mut heard = Heard::new(self.alloc);
        let meeting = Link::Meeting(handshake);
        let Ok(link) = hear(
            meeting,
            self.alloc,
            &self.common.key,
            &self.room[..count],
            &mut heard,
        ) else {
            return self.refuse(place);
        };
        if !heard.send.is_empty() && self.carrier.carry_to(place, &heard.send).is_err() {
            return self.refuse(place);
        }
        let is_open = matches!(&link, Link::Open(_));
        self.peers.put(place, Some(Peer { link, since }));
        if !is_open {
            return Event::Quiet;
        }
        self.pending.begin(place);
        self.pending.bytes = heard.out;
        Event::Linked { place }
    }
}

impl<C: EventCarrier, R: RandomSource> KeyedEvents<C, R> {
    /// Opens the records that came of a peer that has shown that it has the key. 0 bytes tell that its link has ended.
    fn open(&mut self, place: u8, peer: Peer, count: usize, room: &mut [u8]) -> Event
        requires { count ≤ length self.old.room.items }
        ensures { IsWithin result (length room.new) }
    {
        self.pending.begin(place);
        let Peer { link, since } = peer;
        match link.take(
            self.alloc,
            &self.common.key,
            &self.room[..count],
            &mut self.pending.bytes,
        ) {
            Ok(link) => self.peers.put(place, Some(Peer { link, since })),
            Err(_) => {
                self.pending.begin(place);
                return Event::Bytes { place, count: 0 };
            }
        }
        match self.pending.hand_out(room) {
            Some(count) => Event::Bytes { place, count },
            None => Event::Quiet,
        }
    }

    /// Takes bytes that came to a place. 0 bytes mean that the link there has ended.
    fn hear(&mut self, place: u8, count: usize, room: &mut [u8]) -> Event
        requires { count ≤ length self.old.room.items }
        ensures { IsWithin result (length room.new) }
    {
        let Some(peer) = self.peers.take(place) else {
            return Event::Quiet;
        };
        let Peer { link, since } = peer;
        match link {
            Link::Meeting(_) if count == 0 => self.refuse(place),
            Link::Meeting(handshake) => self.meet(place, since, handshake, count),
            Link::Open(_) if count == 0 => Event::Bytes { place, count: 0 },
            Link::Open(session) => {
                let link = Link::Open(session);
                self.open(place, Peer { link, since }, count, room)
            }
        }
    }

    /// Drops the peers that have not shown in time that they have the key.
    fn drop_overdue(&mut self) {
        for place in 0..=u8::MAX {
            if self.peers.is_overdue(place, self.tick) {
                self.refuse(place);
            }
        }
    }

    /// What is told above of an event beneath.
    fn told(&mut self, event: Event, room: &mut [u8]) -> Event
        requires { IsWithin event (length self.old.room.items) }
        ensures { IsWithin result (length room.new) }
    {
        match event {
            Event::Linked { place } => self.greet(place),
            Event::Bytes { place, count } => self.hear(place, count, room),
            Event::Quiet => Event::Quiet,
            Event::Over => Event::Over,
        }
    }

    /// Waits for the next event beneath, and tells it. When a second has passed, those who are overdue are dropped.
    fn next_event(&mut self, room: &mut [u8]) -> Event
        ensures { IsWithin result (length room.new) }
    {
        let arrival = self.carrier.await_any(&mut self.room);
        let has_passed = self.tick != arrival.tick;
        self.tick = arrival.tick;
        let event = self.told(arrival.event, room);
        if has_passed {
            self.drop_overdue();
        }
        event
    }
}

impl<C: EventCarrier, R: RandomSource> EventCarrier for KeyedEvents<C, R> {
    /// Hands out what records have brought, or else waits for the next event beneath. An empty room is told `Quiet` at once, so that nothing
    /// is opened for which there is no room.
    fn await_any(&mut self, room: &mut [u8]) -> Arrival {
        let event = match self.pending.hand_out(room) {
            Some(count) => Event::Bytes {
                place: self.pending.place,
                count,
            },
            None if room.is_empty() => Event::Quiet,
            None => self.next_event(room),
        };
        Arrival {
            tick: self.tick,
            event,
        }
    }

    /// Sends bytes, as records, to a peer that has shown that it has the key.
    fn carry_to(&mut self, place: u8, bytes: &[u8]) -> Result<(), LinkFault> {
        self.records.clear();
        if !self.peers.seal(place, bytes, &mut self.records) {
            return Err(LinkFault);
        }
        self.carrier.carry_to(place, &self.records)
    }

    /// Ends the link at a place, with what was opened of it and not handed out.
    fn drop_at(&mut self, place: u8) {
        if self.pending.place == place {
            self.pending.begin(place);
        }
        self.peers.put(place, None);
        self.carrier.drop_at(place);
    }

    /// Shows the progress of a run.
    fn show(&mut self, progress: &Progress) {
        self.carrier.show(progress);
    }
}
