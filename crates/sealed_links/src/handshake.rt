//! The handshake, in which both sides show that they have the same key, and that they have the same formula.

ghost use Rattle.std.specs.Prelude.{◌≡◌, ◌+◌, ◌-◌, ◌≤◌, ◌<◌, ◌++◌, [], drop, length, min, take, IfSome, IsSome, IsTrue, ◌↔◌};
ghost use Rattle.hmac.specs.Hmac.{hmac_of};

use crate::key::{Nonces, Purpose, SharedKey};
use crate::opener::Opener;
use crate::sealer::Sealer;
use crate::siphash::TagKey;
use hmac::is_same;
use std::alloc::Global;

/// The number of bytes of a side's first message: its fresh value and its formula's digest.
const HELLO: usize = 64;

/// The number of bytes that a side sends in the handshake: its first message, and the MAC by which it shows the key.
const WHOLE: usize = 96;

/// A side of a link.
#[derive(Clone, Copy, Debug, PartialEq, Eq)]
pub enum Side {
    Coordinator,
    Worker,
}

/// The two directions of a link whose handshake is done, as one side has them.
#[derive(Drop)]
pub struct Session {
    /// Makes the records that this side sends.
    pub sealer: Sealer,
    /// Opens those that it receives.
    pub opener: Opener,
}

/// What a handshake says of the peer.
#[derive(Drop)]
pub enum Verdict {
    /// Not all of its bytes have come.
    Unfinished,
    /// It did not show that it has the key.
    OtherKey,
    /// It has the key, and another formula.
    OtherFormula,
    /// It has the key and the formula.
    Accepted(Session),
}

/// A handshake under way, as one side has it: it sends `hello`, and `reply` as soon as there is one, and takes what the peer sends.
#[derive(Drop)]
pub struct Handshake {
    pub(crate) side: Side,
    /// This side's fresh value.
    pub(crate) nonce: [u8; 32],
    /// The SHA-256 of this side's formula.
    pub(crate) digest: [u8; 32],
    /// Room for all that the peer sends in the handshake.
    pub(crate) heard: [u8; WHOLE],
    /// The number of these bytes that have come.
    pub(crate) count: usize,
    pub ghost within: { count ≤ 96 },
}

impl Side {
    ghost use Rattle.sealed_links.specs.Handshakes.{other, shows, towards};

    /// What the MAC of this side is for.
    fn shows(self) -> Purpose
        ensures { result ≡ shows self }
    {
        match self {
            Side::Coordinator => Purpose::CoordinatorShows,
            Side::Worker => Purpose::WorkerShows,
        }
    }

    /// What the key of the records to this side is for.
    fn towards(self) -> Purpose
        ensures { result ≡ towards self }
    {
        match self {
            Side::Coordinator => Purpose::ToCoordinator,
            Side::Worker => Purpose::ToWorker,
        }
    }

    /// The other side.
    fn other(self) -> Side
        ensures { result ≡ other self }
    {
        match self {
            Side::Coordinator => Side::Worker,
            Side::Worker => Side::Coordinator,
        }
    }
}

impl Handshake {
    ghost use Rattle.sealed_links.specs.Handshakes.{HasShown, IsJudged, IsSameHandshake, IsSession, heard_of, nonces_of, said, shows};

    /// A handshake of this side with this fresh value, over the formula with this SHA-256. The value has to be fresh for each handshake.
    pub fn new(side: Side, nonce: [u8; 32], digest: [u8; 32]) -> Handshake
        ensures side { result.side ≡ side }
        ensures nonce { result.nonce ≡ nonce }
        ensures digest { result.digest ≡ digest }
        ensures heard { heard_of result ≡ [] }
    {
        Handshake {
            side,
            nonce,
            digest,
            heard: [0; WHOLE],
            count: 0,
        }
    }

    /// The first message of this side, which is sent at once.
    pub fn hello(&self) -> [u8; HELLO]
        ensures { result ≡ self.now.nonce ++ self.now.digest }
    {
        let mut message = [0; HELLO];
        message[..32].copy_from_slice(&self.nonce);
        message[32..].copy_from_slice(&self.digest);
        message
    }

    /// Takes the first of these bytes of the peer, as many as are wanting to its handshake. Returns how many.
    pub fn take(&mut self, bytes: &[u8]) -> usize
        ensures count { result ≡ min (96 - length (heard_of self.old)) (length bytes.now) }
        ensures heard { heard_of self.new ≡ heard_of self.old ++ take result bytes.now }
        ensures same { IsSameHandshake self.old self.new }
    {
        let count = (WHOLE - self.count).min(bytes.len());
        let end = self.count + count;
        self.heard[self.count..end].copy_from_slice(&bytes[..count]);
        self.count = end;
        count
    }

    /// The number of bytes that are wanting to the peer's first message.
    pub fn lacks(&self) -> usize
        ensures { result ≡ 64 - length (heard_of self.now) }
    {
        HELLO.saturating_sub(self.count)
    }

    /// The 32 bytes of what the peer sends that begin at this place.
    fn part(&self, place: usize) -> [u8; 32]
        requires { place + 32 ≤ 96 }
        ensures { result ≡ take 32 (drop place self.now.heard) }
    {
        let mut part = [0; 32];
        part.copy_from_slice(&self.heard[place..place + 32]);
        part
    }

    /// The fresh values of both sides.
    fn nonces(&self) -> Nonces
        ensures { result ≡ nonces_of self.now }
    {
        let peers = self.part(0);
        match self.side {
            Side::Coordinator => Nonces {
                coordinator: self.nonce,
                worker: peers,
            },
            Side::Worker => Nonces {
                coordinator: peers,
                worker: self.nonce,
            },
        }
    }

    /// The MAC by which this side shows that it has the key, as soon as the peer's first message has come.
    pub fn reply(&self, key: &SharedKey) -> Option<[u8; 32]>
        ensures some { IsSome result ↔ (64 ≤ length (heard_of self.now)) }
        ensures mac { IfSome result (λ mac. mac ≡ hmac_of key.now.bytes.items (said (shows self.now.side) (nonces_of self.now) self.now.digest)) }
    {
        if self.count < HELLO {
            return None;
        }
        Some(key.mac(self.side.shows(), &self.nonces(), &self.digest))
    }

    /// Whether the peer's MAC is right, for the formula of which it told the digest.
    fn has_shown(&self, key: &SharedKey) -> bool
        ensures { IsTrue result ↔ HasShown key.now.bytes.items self.now }
    {
        let wanted = key.mac(self.side.other().shows(), &self.nonces(), &self.part(32));
        is_same(&self.part(64), &wanted)
    }

    /// The two directions, with keys of their own.
    fn session(&self, alloc: Global, key: &SharedKey) -> Session
        ensures { IsSession key.now.bytes.items self.now result }
    {
        let nonces = self.nonces();
        let out = key.mac(self.side.other().towards(), &nonces, &self.digest);
        let into = key.mac(self.side.towards(), &nonces, &self.digest);
        Session {
            sealer: Sealer::new(TagKey::of(&out)),
            opener: Opener::new(alloc, TagKey::of(&into)),
        }
    }

    /// What the peer has shown so far. Nothing of its is used before its MAC was tested.
    pub fn verdict(&self, alloc: Global, key: &SharedKey) -> Verdict
        ensures { IsJudged key.now.bytes.items self.now result }
    {
        if self.count < WHOLE {
            return Verdict::Unfinished;
        }
        if !self.has_shown(key) {
            return Verdict::OtherKey;
        }
        if !is_same(&self.part(32), &self.digest) {
            return Verdict::OtherFormula;
        }
        Verdict::Accepted(self.session(alloc, key))
    }
}
