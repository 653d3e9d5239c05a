//! One end of a link: first the handshake, and then the records of both directions.

ghost use Rattle.std.specs.Prelude.{◌≡◌, ◌+◌, ◌<◌, ◌⊎◌, length, IfOk};
ghost use Rattle.sealed_links.specs.Handshakes.{heard_of};
ghost use Rattle.sealed_links.specs.Meetings.{HasMet, IsOpen, Replies, Takes, TakesOpen, end_of, lack_of};
ghost use Rattle.sealed_links.specs.declared.handshake.Handshake.{Handshake};

use crate::handshake::{Handshake, Session, Verdict};
use crate::incoming::OpenFault;
use crate::key::SharedKey;
use std::alloc::Global;

/// Why a link has ended.
#[derive(Clone, Copy, Debug, PartialEq, Eq)]
pub enum LinkEnd {
    /// The peer did not show that it has the key.
    OtherKey,
    /// The peer has the key, and another formula.
    OtherFormula,
    /// What came is not the next record of its direction.
    WrongRecord,
    /// Memory was refused.
    NoMemory,
}

/// One side's end of a link. A call that takes bytes takes the end too, and gives it back if there was no fault: so nothing is handed on
/// after one.
#[derive(Drop)]
pub enum Link {
    /// The peer has not shown yet that it has the key.
    Meeting(Handshake),
    /// The peer has shown it, and records go both ways.
    Open(Session),
}

/// Why a link ends at this fault of its records.
fn end_at(fault: OpenFault) -> LinkEnd
    ensures { result ≡ end_of fault }
{
    match fault {
        OpenFault::Wrong | OpenFault::Ended => LinkEnd::WrongRecord,
        OpenFault::NoMemory => LinkEnd::NoMemory,
    }
}

/// Opens the records that came.
fn opened(mut session: Session, bytes: &[u8], out: &mut Vec<u8>) -> Result<Link, LinkEnd>
    ensures { TakesOpen session bytes.now out.old.items out.new.items result }
{
    match session.opener.open(bytes, out) {
        Ok(()) => Ok(Link::Open(session)),
        Err(fault) => Err(end_at(fault)),
    }
}

/// Takes bytes of a peer that has not shown yet that it has the key.
fn met(
    mut handshake: Handshake,
    alloc: Global,
    key: &SharedKey,
    bytes: &[u8],
    out: &mut Vec<u8>,
) -> Result<Link, LinkEnd>
    ensures before { ((after : Handshake) × HasMet key.now.bytes.items handshake bytes.now after) ⊎ (out.new.items ≡ out.old.items) }
    ensures open { IfOk result (λ link. IsOpen link → (after : Handshake) × HasMet key.now.bytes.items handshake bytes.now after) }
    ensures unfinished { IfOk result (λ link. (IsOpen link → ⊥) → length (heard_of handshake) + length bytes.now < 96) }
{
    let count = handshake.take(bytes);
    match handshake.verdict(alloc, key) {
        Verdict::Unfinished => Ok(Link::Meeting(handshake)),
        Verdict::OtherKey => Err(LinkEnd::OtherKey),
        Verdict::OtherFormula => Err(LinkEnd::OtherFormula),
        Verdict::Accepted(session) => opened(session, &bytes[count..], out),
    }
}

impl Link {
    /// Takes the next bytes of the peer, and appends what is handed on of them. Nothing is handed on before the peer's MAC was tested.
    pub fn take(
        self,
        alloc: Global,
        key: &SharedKey,
        bytes: &[u8],
        out: &mut Vec<u8>,
    ) -> Result<Link, LinkEnd>
        ensures { Takes key.now.bytes.items self bytes.now out.old.items out.new.items result }
    {
        match self {
            Link::Meeting(handshake) => met(handshake, alloc, key, bytes, out),
            Link::Open(session) => opened(session, bytes, out),
        }
    }

    /// The number of bytes that are wanting to the peer's first message. When it is whole, `reply` is to be sent.
    pub fn lacks(&self) -> usize
        ensures { result ≡ lack_of self.now }
    {
        match self {
            Link::Meeting(handshake) => handshake.lacks(),
            Link::Open(_) => 0,
        }
    }

    /// The MAC by which this side shows that it has the key; None before the peer's first message has come, and after the handshake.
    pub fn reply(&self, key: &SharedKey) -> Option<[u8; 32]>
        ensures { Replies key.now.bytes.items self.now result }
    {
        match self {
            Link::Meeting(handshake) => handshake.reply(key),
            Link::Open(_) => None,
        }
    }
}
