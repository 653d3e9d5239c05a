//! A carrier that hands in the bytes of a script. By it tests play peers that send wrong frames.

ghost use Rattle.std.specs.Prelude.{◌≡◌, ◌≤◌, [], length, IfOk};
ghost use Rattle.links.specs.Scripted.{left_of, sent_of};

use crate::carrier::Carrier;
use crate::link::{End, LinkFault};
use std::alloc::{AllocError, Global};

/// A script: it hands in the bytes that it was made with, to whichever end asks, and then ends. What is sent goes nowhere; tests can look
/// at it.
#[derive(Drop)]
pub struct Script {
    /// The bytes that are handed in.
    hands: Vec<u8>,
    /// The number of them that were handed in.
    at: usize,
    /// The bytes that were sent so far, by either end.
    sent: Vec<u8>,
}

impl Script {
    /// A script that hands in these bytes. It is an error if memory is refused.
    pub fn new(alloc: Global, hands: &[u8]) -> Result<Script, AllocError>
        ensures hands { IfOk result (λ s. left_of s ≡ hands.now) }
        ensures sent { IfOk result (λ s. sent_of s ≡ []) }
    {
        Ok(Script {
            hands: Vec::from_slice(alloc, hands)?,
            at: 0,
            sent: Vec::new(alloc),
        })
    }

    /// The bytes that were sent so far, by either end.
    pub fn sent(&self) -> &[u8]
        ensures { result.now ≡ sent_of self.now }
    {
        &self.sent
    }
}

impl Carrier for Script {
    /// Keeps the bytes that are sent, for the test to look at.
    fn carry(&mut self, _from: End, bytes: &[u8]) -> Result<(), LinkFault> {
        self.sent.extend_from_slice(bytes).map_err(|_| LinkFault)
    }

    /// Hands in the next bytes of the script; after its last byte 0 bytes, the end of the link.
    fn fetch(&mut self, _at: End, room: &mut [u8]) -> Result<usize, LinkFault> {
        let left = self.hands.len().saturating_sub(self.at);
        let count = left.min(room.len());
        for i in 0..count {
            room[i] = self
                .hands
                .get(self.at.saturating_add(i))
                .copied()
                .unwrap_or(0);
        }
        self.at = self.at.saturating_add(count);
        Ok(count)
    }
}
