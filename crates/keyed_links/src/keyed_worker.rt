//! The worker's end of its link, over a stream, under a shared key.

ghost use Rattle.std.specs.Prelude.{◌≤◌, length, IfOk};

use crate::hearing::{Heard, hear, seal_all};
use crate::pending::Pending;
use links::{Carrier, End, LinkFault};
use sealed_links::{Handshake, Link, LinkEnd, Session, SharedKey, Side};
use std::alloc::Global;
use std::io;
use std::io::{ErrorKind, Read, Write};
use thiserror::Error;

/// The number of bytes that one read asks for.
const ROOM: usize = 65_536;

/// Why a worker and its coordinator did not meet.
#[derive(Debug, Drop, Error)]
pub enum MeetFault {
    /// The coordinator has another key, or is none.
    #[error("the coordinator does not have this key")]
    OtherKey,
    /// The coordinator has the key, and another formula.
    #[error("the coordinator serves another formula")]
    OtherFormula,
    /// The coordinator ended the link in the handshake: it does so if this side's key is another one.
    #[error("the coordinator ended the link in the handshake: this key may not be its key")]
    Ended,
    /// An error of the stream.
    #[error("{0}")]
    Stream(#[source] io::Error),
    /// Memory was refused.
    #[error("out of memory")]
    NoMemory,
}

/// The worker's end of its link, whose coordinator has shown that it has the key. The coordinator's end is in another process: its calls
/// are refused.
#[derive(Drop)]
pub struct KeyedWorker<S> {
    stream: S,
    session: Session,
    /// Room for what is read.
    room: Vec<u8>,
    /// The records that are sent next.
    records: Vec<u8>,
    pending: Pending,
}

/// Why a handshake was refused, for the one who works.
fn fault_of(end: LinkEnd) -> MeetFault {
    match end {
        LinkEnd::OtherKey | LinkEnd::WrongRecord => MeetFault::OtherKey,
        LinkEnd::OtherFormula => MeetFault::OtherFormula,
        LinkEnd::NoMemory => MeetFault::NoMemory,
    }
}

/// Reads what comes next. Returns how many bytes; 0 bytes mean the end. A read that a signal interrupted is tried again.
fn read_next<S: Read>(stream: &mut S, room: &mut [u8]) -> io::Result<usize>
    ensures { IfOk result (λ n. n ≤ length room.new) }
{
    for _ in 0..u64::MAX {
        match stream.read(room) {
            Ok(count) => return Ok(count),
            Err(error) if error.kind() == ErrorKind::Interrupted => {}
            Err(error) => return Err(error),
        }
    }
    Ok(0)
}

/// Reads once in the handshake, and sends what is due.
fn meet_on<S: Read + Write>(
    stream: &mut S,
    link: Link,
    alloc: Global,
    key: &SharedKey,
    heard: &mut Heard,
) -> Result<Link, MeetFault> {
    let mut room = [0; 96];
    let count = match read_next(stream, &mut room) {
        Ok(0) => return Err(MeetFault::Ended),
        Ok(count) => count,
        Err(error) => return Err(MeetFault::Stream(error)),
    };
    let link = match hear(link, alloc, key, &room[..count], heard) {
        Ok(link) => link,
        Err(end) => return Err(fault_of(end)),
    };
    if let Err(error) = stream.write_all(&heard.send) {
        return Err(MeetFault::Stream(error));
    }
    heard.send.clear();
    Ok(link)
}

/// Makes the handshake.
fn met<S: Read + Write>(
    stream: &mut S,
    handshake: Handshake,
    alloc: Global,
    key: &SharedKey,
    heard: &mut Heard,
) -> Result<Session, MeetFault> {
    if let Err(error) = stream.write_all(&handshake.hello()) {
        return Err(MeetFault::Stream(error));
    }
    let mut link = Link::Meeting(handshake);
    for _ in 0..u64::MAX {
        link = match meet_on(stream, link, alloc, key, heard)? {
            Link::Open(session) => return Ok(session),
            meeting => meeting,
        };
    }
    Err(MeetFault::Ended)
}

impl<S: Read + Write> KeyedWorker<S> {
    /// Meets the coordinator at the other end of a stream: both show that they have the key, and the formula with this digest. The fresh
    /// value has to be fresh for each link. The stream's own timeouts bound how long it may take.
    pub fn meet(
        mut stream: S,
        alloc: Global,
        key: &SharedKey,
        fresh: [u8; 32],
        digest: [u8; 32],
    ) -> Result<KeyedWorker<S>, MeetFault>
    where
        S: Drop,
    {
        let mut heard = Heard::new(alloc);
        let handshake = Handshake::new(Side::Worker, fresh, digest);
        let session = met(&mut stream, handshake, alloc, key, &mut heard)?;
        let Ok(room) = vec![in alloc; 0; ROOM] else {
            return Err(MeetFault::NoMemory);
        };
        Ok(KeyedWorker {
            stream,
            session,
            room,
            records: Vec::new(alloc),
            pending: Pending::of(heard.out),
        })
    }
}

impl<S: Write> KeyedWorker<S> {
    /// Sends bytes, as records.
    fn send(&mut self, bytes: &[u8]) -> Result<(), LinkFault> {
        self.records.clear();
        if !seal_all(&mut self.session.sealer, bytes, &mut self.records) {
            return Err(LinkFault);
        }
        self.stream.write_all(&self.records).map_err(|_| LinkFault)
    }
}

impl<S: Read> KeyedWorker<S> {
    /// Reads once, and opens the records that have come whole. Returns false if the link has ended.
    fn open_next(&mut self) -> Result<bool, LinkFault> {
        let count = read_next(&mut self.stream, &mut self.room).map_err(|_| LinkFault)?;
        if count == 0 {
            return Ok(false);
        }
        self.pending.begin(0);
        match self
            .session
            .opener
            .open(&self.room[..count], &mut self.pending.bytes)
        {
            Ok(()) => Ok(true),
            Err(_) => Err(LinkFault),
        }
    }
}

impl<S: Read + Write> Carrier for KeyedWorker<S> {
    /// Sends all bytes, as records; the coordinator's end is not here, and refuses.
    fn carry(&mut self, from: End, bytes: &[u8]) -> Result<(), LinkFault> {
        match from {
            End::Worker(_) => self.send(bytes),
            End::Coordinator(_) => Err(LinkFault),
        }
    }

    /// Hands in what records have brought, and waits for one if there is none; an empty room is answered 0 bytes.
    fn fetch(&mut self, at: End, room: &mut [u8]) -> Result<usize, LinkFault> {
        if let End::Coordinator(_) = at {
            return Err(LinkFault);
        }
        for _ in 0..u64::MAX {
            if let Some(count) = self.pending.hand_out(room) {
                return Ok(count);
            }
            if room.is_empty() || !self.open_next()? {
                return Ok(0);
            }
        }
        Ok(0)
    }
}
