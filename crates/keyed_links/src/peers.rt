//! The peers of a coordinator, by their places.

use crate::hearing::seal_all;
use sealed_links::Link;
use std::alloc::{AllocError, Global};

/// The number of places.
const PLACES: usize = 256;

/// How long a peer may take to show that it has the key, in seconds.
const PATIENCE: u64 = 10;

/// A peer, from the moment at which it came.
#[derive(Drop)]
pub(crate) struct Peer {
    /// This side's end of its link.
    pub(crate) link: Link,
    /// When it came, in seconds.
    pub(crate) since: u64,
}

/// The peers by place; None if there is none.
#[derive(Drop)]
pub(crate) struct Peers {
    slots: Vec<Option<Peer>>,
}

/// Whether a peer has not shown in time that it has the key.
fn is_overdue(peer: &Option<Peer>, now: u64) -> bool {
    match peer {
        Some(peer) => match &peer.link {
            Link::Meeting(_) => PATIENCE <= now.saturating_sub(peer.since),
            Link::Open(_) => false,
        },
        None => false,
    }
}

impl Peers {
    /// No peers.
    pub(crate) fn new(alloc: Global) -> Result<Peers, AllocError> {
        let mut slots = Vec::new(alloc);
        for _ in 0..PLACES {
            slots.push(None)?;
        }
        Ok(Peers { slots })
    }

    /// Puts a peer at a place, or none; what was there is dropped.
    pub(crate) fn put(&mut self, place: u8, peer: Option<Peer>) {
        if let Some(slot) = self.slots.get_mut(place as usize) {
            *slot = peer;
        }
    }

    /// Takes the peer at a place away.
    pub(crate) fn take(&mut self, place: u8) -> Option<Peer> {
        match self.slots.get_mut(place as usize) {
            Some(slot) => slot.take(),
            None => None,
        }
    }

    /// Appends the records of these bytes for the peer at a place. It is false if there is no peer there that has shown the key, or memory
    /// is refused.
    pub(crate) fn seal(&mut self, place: u8, bytes: &[u8], records: &mut Vec<u8>) -> bool {
        match self.slots.get_mut(place as usize) {
            Some(Some(peer)) => seal_for(&mut peer.link, bytes, records),
            _ => false,
        }
    }

    /// Whether the peer at a place has not shown in time that it has the key.
    pub(crate) fn is_overdue(&self, place: u8, now: u64) -> bool {
        match self.slots.get(place as usize) {
            Some(peer) => is_overdue(peer, now),
            None => false,
        }
    }
}

/// Appends the records of these bytes for a link, if the peer has shown the key.
fn seal_for(link: &mut Link, bytes: &[u8], records: &mut Vec<u8>) -> bool {
    match link {
        Link::Open(session) => seal_all(&mut session.sealer, bytes, records),
        Link::Meeting(_) => false,
    }
}
