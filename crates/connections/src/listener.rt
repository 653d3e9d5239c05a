//! A listener and its connections, polled with mio.

ghost use Rattle.std.specs.Prelude.{◌≡◌, ◌≢◌, ◌<◌, ◌≤◌, ◌⊎◌, [], length, replicate, set, get_or, false, true, IfOk, IfSome, IfNone, IsErr, MatchOption, OnOk, OnErr};
ghost use Rattle.links.specs.Arrivals.{IsWithin};
ghost use Rattle.connections.specs.Connections.{links_of, unread_of};
ghost use Rattle.connections.specs.inner.NextEvent.{Finds};
ghost use Rattle.connections.specs.inner.Changes.{Changes};
ghost use Rattle.links.specs.declared.arrivals.Event.TheVariants as events;

use crate::connection::Connection;
use crate::read_buffer::ReadBuffer;
use crate::slots::{LISTENER, free_place, is_ready, note_all, places, put, send};
use links::{Arrival, Event, EventCarrier, LinkFault};
use mio::net::{TcpListener, TcpStream};
use mio::{Events, Interest, Poll, Token};
use std::alloc::Global;
use std::io;
use std::io::ErrorKind;
use std::net::{Ipv4Addr, Net, SocketAddr};
use std::time::{Clock, Duration};

/// The greatest number of events that mio reports at once.
const EVENTS: usize = 64;

/// Timeout of a poll, in seconds.
const TICK: u64 = 1;

/// The greatest number of reads between two polls, so that a connection that floods holds up no other for long.
const MOST_READS: u32 = 64;

/// A listener, its connections, and the clock that gives each arrival its tick.
#[derive(Drop)]
pub struct Connections<C> {
    clock: C,
    /// The time that was read from the clock last, in seconds.
    tick: u64,
    poll: Poll,
    /// The events of the last poll.
    events: Events,
    listener: TcpListener,
    /// By place: the connection; None if the slot is free.
    slots: Vec<Option<Connection<TcpStream>>>,
    /// Bytes that were read from one connection and not handed out yet.
    buffer: ReadBuffer,
    /// The number of reads since the last poll.
    reads: u32,
    /// Whether the last event was `Quiet`.
    is_quiet: bool,
    /// The place from which the next read begins: connections are read in turn.
    cursor: u8,
    /// Whether a connection may wait to be accepted.
    may_accept: bool,
    /// Whether the last event was a new connection: if it was, the others are read before the next one is accepted.
    has_accepted: bool,
}

/// Listens at a port of 127.0.0.1, and registers the listener with a new poll. An error is that of the listener or the poll.
fn listen<R: Net>(net: &R, port: u16) -> io::Result<(Poll, TcpListener)> {
    let at = SocketAddr::from((Ipv4Addr::LOCALHOST, port));
    let mut listener = TcpListener::bind(net, at)?;
    let poll = Poll::new(net)?;
    poll.registry()
        .register(&mut listener, Token(LISTENER), Interest::READABLE)?;
    Ok((poll, listener))
}

impl<C> Connections<C> {
    /// Listens at a port of 127.0.0.1, or at a free one if `port` is 0, with places for `count` links. The operating system decides whether
    /// it can. An error is that of the listener, or memory was refused.
    pub fn open<R: Net>(
        net: &R,
        alloc: Global,
        clock: C,
        port: u16,
        count: u8,
    ) -> io::Result<Connections<C>>
    where
        C: Drop,
        ensures links { IfOk result (λ h. links_of h ≡ replicate count false) }
        ensures unread { IfOk result (λ h. (unread_of h).bytes ≡ []) }
    {
        let (poll, listener) = listen(net, port)?;
        let events = Events::with_capacity(alloc, EVENTS)?;
        let slots = places(alloc, count)?;
        let buffer = ReadBuffer::new(alloc)?;
        Ok(Connections {
            clock,
            tick: 0,
            poll,
            events,
            listener,
            slots,
            buffer,
            reads: 0,
            is_quiet: false,
            cursor: 0,
            may_accept: true,
            has_accepted: false,
        })
    }

    /// The port at which the listener listens.
    pub fn port(&self) -> io::Result<u16> {
        Ok(self.listener.local_addr()?.port())
    }

    /// Whether a read or an accept may find something without a poll: mio reports only changes, so
    /// what was reported may be left over.
    fn is_busy(&self) -> bool {
        is_ready(&self.slots) || (self.may_accept && free_place(&self.slots).is_some())
    }

    /// Polls mio, unless a connection is known to be ready and fewer than `MOST_READS` reads were made since the last poll. The poll waits
    /// only if nothing is ready and the last event was `Quiet`: so the caller learns first that nothing has come, and can use the time.
    fn poll_events(&mut self) -> io::Result<()>
        ensures links { links_of self.new ≡ links_of self.old }
        ensures unread { unread_of self.new ≡ unread_of self.old }
    {
        let is_busy = self.is_busy();
        if is_busy && self.reads < MOST_READS {
            return Ok(());
        }
        self.reads = 0;
        let seconds = if is_busy || !self.is_quiet { 0 } else { TICK };
        self.poll
            .poll(&mut self.events, Some(Duration::from_secs(seconds)))?;
        if note_all(&mut self.slots, &self.events) {
            self.may_accept = true;
        }
        Ok(())
    }

    /// Registers a new connection with the poll, and puts it into the free slot at this place. `TCP_NODELAY` is set: a small packet does
    /// not wait for the next.
    fn link(&mut self, place: u8, mut stream: TcpStream) -> io::Result<()>
        requires { place < length (links_of self.old) }
        ensures ok { OnOk result (links_of self.new ≡ set (links_of self.old) place true) }
        ensures err { OnErr result (links_of self.new ≡ links_of self.old) }
        ensures unread { unread_of self.new ≡ unread_of self.old }
    {
        stream.set_nodelay(true)?;
        self.poll
            .registry()
            .register(&mut stream, Token(place as usize), Interest::READABLE)?;
        let connection = Connection {
            stream,
            is_ready: true,
            has_hung_up: false,
        };
        put(&mut self.slots, place, Some(connection));
        Ok(())
    }

    /// Accepts a connection if a slot is free. Returns its place; None if there is no free slot or no connection. An error of one
    /// connection ends nothing else: if the peer has closed it, the next accept is tried at once, else at the next event of the listener,
    /// hang-up or tick.
    fn accept(&mut self) -> Option<u8>
        ensures some { IfSome result (λ place. Changes (events.Linked place) (links_of self.old) (links_of self.new)) }
        ensures none { IfNone result (links_of self.new ≡ links_of self.old) }
        ensures unread { unread_of self.new ≡ unread_of self.old }
    {
        let place = free_place(&self.slots)?;
        match self.listener.accept() {
            Ok((stream, _)) => match self.link(place, stream) {
                Ok(()) => Some(place),
                Err(_) => None,
            },
            Err(error) => {
                self.may_accept = error.kind() == ErrorKind::ConnectionAborted;
                None
            }
        }
    }

    /// Reads into the empty buffer from the next ready connection in turn. Returns its place and how many bytes; 0 bytes mean its end. None
    /// if no connection has something.
    fn read_ahead(&mut self) -> Option<(u8, usize)>
        requires { (unread_of self.old).bytes ≡ [] }
        ensures links { links_of self.new ≡ links_of self.old }
        ensures unread { MatchOption result (unread_of self.new ≡ unread_of self.old) (λ found. ((unread_of self.new).place ≡ found.0) × (length (unread_of self.new).bytes ≡ found.1)) }
    {
        let cursor = self.cursor;
        let found = match self.buffer.read(&mut self.slots, cursor, u8::MAX) {
            Some(found) => Some(found),
            None => self.buffer.read(&mut self.slots, 0, cursor),
        };
        if let Some((place, _)) = found {
            self.cursor = place.saturating_add(1);
            self.reads = self.reads.saturating_add(1);
        }
        found
    }

    /// Reads from the next ready connection in turn, and puts the bytes that fit at the front of the room. Returns its place and how many
    /// bytes; 0 bytes mean its end. Bytes that do not fit stay in the buffer. None if the buffer has bytes already, or no connection has
    /// something.
    fn read(&mut self, room: &mut [u8]) -> Option<(u8, usize)>
        ensures within { IfSome result (λ found. found.1 ≤ length room.new) }
        ensures links { links_of self.new ≡ links_of self.old }
        ensures some { IfSome result (λ found. ((unread_of self.old).bytes ≡ []) × ((unread_of self.new).place ≡ found.0)) }
        ensures none { IfNone result (0 < length room.new → unread_of self.new ≡ unread_of self.old) }
        ensures kept { ((unread_of self.old).bytes ≡ []) ⊎ (unread_of self.new ≡ unread_of self.old) }
    {
        if self.buffer.has_left() {
            return None;
        }
        let (place, count) = self.read_ahead()?;
        if count == 0 {
            return Some((place, 0));
        }
        self.buffer.take(room)
    }

    /// Accepts a connection if one may wait and the last event was not a new connection. Returns its place; None if there is none.
    fn accept_in_turn(&mut self) -> Option<u8>
        ensures some { IfSome result (λ place. Changes (events.Linked place) (links_of self.old) (links_of self.new)) }
        ensures none { IfNone result (links_of self.new ≡ links_of self.old) }
        ensures unread { unread_of self.new ≡ unread_of self.old }
    {
        if self.may_accept && !self.has_accepted {
            return self.accept();
        }
        None
    }

    /// Finds the next event without a poll: new connections and bytes of the others take turns; `Quiet` if nothing has come.
    fn take_next(&mut self, room: &mut [u8]) -> Event
        requires { 0 < length room.old → (unread_of self.old).bytes ≡ [] }
        ensures finds { Finds (unread_of self.old) result room.new (unread_of self.new) }
        ensures within { IsWithin result (length room.new) }
        ensures changes { Changes result (links_of self.old) (links_of self.new) }
    {
        if let Some(place) = self.accept_in_turn() {
            self.has_accepted = true;
            return Event::Linked { place };
        }
        self.has_accepted = false;
        match self.read(room) {
            Some((place, count)) => Event::Bytes { place, count },
            None => Event::Quiet,
        }
    }
}

impl<C: Clock> Connections<C> {
    /// Reads the clock, in seconds. After each tick an accept may be tried again: what hindered one may be gone.
    fn read_clock(&mut self)
        ensures links { links_of self.new ≡ links_of self.old }
        ensures unread { unread_of self.new ≡ unread_of self.old }
    {
        if let Ok(time) = self.clock.monotonic() {
            if self.tick != time.as_secs() {
                self.tick = time.as_secs();
                self.may_accept = true;
            }
        }
    }

    /// Finds the next event after a poll; `Over` if the poll fails, since nothing comes any more.
    fn poll_next(&mut self, room: &mut [u8]) -> Event
        requires { 0 < length room.old → (unread_of self.old).bytes ≡ [] }
        ensures finds { Finds (unread_of self.old) result room.new (unread_of self.new) }
        ensures within { IsWithin result (length room.new) }
        ensures changes { Changes result (links_of self.old) (links_of self.new) }
    {
        let looked = self.poll_events();
        self.read_clock();
        match looked {
            Ok(()) => self.take_next(room),
            Err(_) => Event::Over,
        }
    }

    /// Finds the next event: bytes that are left in the buffer, or else what comes after a poll.
    fn next_event(&mut self, room: &mut [u8]) -> Event
        ensures finds { Finds (unread_of self.old) result room.new (unread_of self.new) }
        ensures within { IsWithin result (length room.new) }
        ensures changes { Changes result (links_of self.old) (links_of self.new) }
    {
        match self.buffer.take(room) {
            Some((place, count)) => Event::Bytes { place, count },
            None => self.poll_next(room),
        }
    }
}

impl<C: Clock> EventCarrier for Connections<C> {
    /// Waits for the next event, at most a tick, and notes whether it was `Quiet`: only then the
    /// next poll may wait.
    fn await_any(&mut self, room: &mut [u8]) -> Arrival
        ensures within { IsWithin result.event (length room.new) }
        // Bytes that are left in the buffer come first, in order and under their place.
        ensures finds { Finds (unread_of self.old) result.event room.new (unread_of self.new) }
        ensures changes { Changes result.event (links_of self.old) (links_of self.new) }
    {
        let event = self.next_event(room);
        self.is_quiet = matches!(event, Event::Quiet);
        Arrival {
            tick: self.tick,
            event,
        }
    }

    /// Writes all bytes to the connection at this place without blocking.
    fn carry_to(&mut self, place: u8, bytes: &[u8]) -> Result<(), LinkFault>
        ensures links { links_of self.new ≡ links_of self.old }
        ensures unread { unread_of self.new ≡ unread_of self.old }
        // A send to a place without a connection is refused.
        ensures unlinked { get_or (links_of self.old) place false ≡ false → IsErr result }
    {
        if self.slots.len() <= place as usize {
            return Err(LinkFault);
        }
        send(&mut self.slots[place as usize], bytes)
    }

    /// Drops the connection at this place with what was read of it. Its slot is free then, so an
    /// accept may be tried.
    fn drop_at(&mut self, place: u8)
        ensures links { links_of self.new ≡ set (links_of self.old) place false }
        // No bytes stay in the buffer of a link that was hung up.
        ensures there { place < length (links_of self.old) → (unread_of self.old).place ≡ place → (unread_of self.new).bytes ≡ [] }
        ensures elsewhere { (unread_of self.old).place ≢ place → unread_of self.new ≡ unread_of self.old }
    {
        if (place as usize) < self.slots.len() {
            put(&mut self.slots, place, None);
            self.buffer.forget(place);
            self.may_accept = true;
        }
    }
}
