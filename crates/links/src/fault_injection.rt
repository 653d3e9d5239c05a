//! Fault injection: carriers that refuse calls, or hand in one byte a call. Tests put them around another carrier.

ghost use Rattle.std.specs.Prelude.{◌≤◌, length};

use crate::carrier::Carrier;
use crate::link::{End, LinkFault};

/// A carrier that refuses every call.
#[derive(Drop)]
pub struct RefusesAll;

impl Carrier for RefusesAll {
    /// Refuses each send.
    fn carry(&mut self, _from: End, _bytes: &[u8]) -> Result<(), LinkFault> {
        Err(LinkFault)
    }

    /// Refuses each receive.
    fn fetch(&mut self, _at: End, _room: &mut [u8]) -> Result<usize, LinkFault> {
        Err(LinkFault)
    }
}

/// A carrier that refuses one call, and passes the others on to another carrier.
#[derive(Drop)]
pub struct RefusesAt<C> {
    /// The carrier that the other calls go to.
    pub carrier: C,
    /// The number of the refused call, counted from the next call as 1; 0 if no call is to be refused any more.
    pub number: u64,
}

impl<C> RefusesAt<C> {
    /// Counts a call down to the one that is to be refused. Returns whether it is this one.
    fn refuses(&mut self) -> bool {
        let refuses = self.number == 1;
        self.number = self.number.saturating_sub(1);
        refuses
    }
}

impl<C: Carrier> Carrier for RefusesAt<C> {
    /// Refuses the send if it is the chosen call; else the inner carrier carries the bytes.
    fn carry(&mut self, from: End, bytes: &[u8]) -> Result<(), LinkFault> {
        if self.refuses() {
            return Err(LinkFault);
        }
        self.carrier.carry(from, bytes)
    }

    /// Refuses the receive if it is the chosen call; else the inner carrier fetches bytes.
    fn fetch(&mut self, at: End, room: &mut [u8]) -> Result<usize, LinkFault> {
        if self.refuses() {
            return Err(LinkFault);
        }
        self.carrier.fetch(at, room)
    }
}

/// A carrier that hands in the bytes of another one, one byte a call.
#[derive(Drop)]
pub struct Bytewise<C> {
    /// The carrier that the bytes come from.
    pub carrier: C,
}

impl<C: Carrier> Carrier for Bytewise<C> {
    /// Carries the bytes; only what comes is cut into single bytes.
    fn carry(&mut self, from: End, bytes: &[u8]) -> Result<(), LinkFault> {
        self.carrier.carry(from, bytes)
    }

    /// Fetches one byte, so that frames come cut into single bytes.
    fn fetch(&mut self, at: End, room: &mut [u8]) -> Result<usize, LinkFault> {
        if room.is_empty() {
            return Ok(0);
        }
        self.carrier.fetch(at, &mut room[..1])
    }
}
