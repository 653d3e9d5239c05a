//! The end of a direction that opens records.

ghost use Rattle.std.specs.Prelude.{◌≡◌, ◌↔◌, [], true, false, IfErr, IsErr, IsTrue, OnOk};
ghost use Rattle.sealed_links.specs.Links.{IsTheReading, StopsWithin, TakesAll};

use crate::incoming::{Incoming, OpenFault};
use crate::siphash::TagKey;
use std::alloc::Global;

/// Opens the records of one direction, up to the first fault.
#[derive(Drop)]
pub struct Opener {
    pub(crate) incoming: Incoming,
    /// Whether there was a fault.
    pub(crate) has_ended: bool,
}

impl Opener {
    /// The end that opens records under this key, from number 0 on.
    pub fn new(alloc: Global, key: TagKey) -> Opener
        ensures key { result.incoming.key ≡ key }
        ensures number { result.incoming.number ≡ 0 }
        ensures held { result.incoming.held.items ≡ [] }
        ensures open { result.has_ended ≡ false }
    {
        Opener {
            incoming: Incoming::new(alloc, key),
            has_ended: false,
        }
    }

    /// Takes the bytes that came next, and appends the payloads of the records that have come whole. After a fault nothing is taken any
    /// more, and nothing handed on.
    pub fn open(&mut self, bytes: &[u8], out: &mut Vec<u8>) -> Result<(), OpenFault>
        ensures ok { OnOk result (TakesAll self.old.incoming self.new.incoming bytes.now out.old.items out.new.items) }
        ensures all { OnOk result (IsTheReading self.old.incoming bytes.now out.old.items out.new.items) }
        ensures up_to_wrong { result ≡ Err OpenFault.Wrong → IsTheReading self.old.incoming bytes.now out.old.items out.new.items }
        ensures fault { self.old.has_ended ≡ false → IfErr result (λ fault. StopsWithin fault self.old.incoming bytes.now out.old.items out.new.items) }
        ensures before { self.old.has_ended ≡ true → (result ≡ Err OpenFault.Ended) × (out.new.items ≡ out.old.items) }
        ensures ended { IsTrue self.new.has_ended ↔ IsErr result }
    {
        if self.has_ended {
            return Err(OpenFault::Ended);
        }
        match self.incoming.take(bytes, out) {
            Ok(()) => Ok(()),
            Err(fault) => {
                self.has_ended = true;
                Err(fault)
            }
        }
    }
}
