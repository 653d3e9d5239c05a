//! What both sides do with bytes of a peer, and with bytes that they send.

ghost use Rattle.std.specs.Prelude.{IsTrue};
ghost use Rattle.keyed_links.specs.inner.Seals.{SealsAll};

use sealed_links::{Link, LinkEnd, MOST_BYTES, Sealer, SharedKey};
use std::alloc::Global;

/// Bytes that are to be sent to a peer, and bytes of it that are handed on.
#[derive(Drop)]
pub(crate) struct Heard {
    /// The MAC of this side, if it is due.
    pub(crate) send: Vec<u8>,
    /// The payloads of records.
    pub(crate) out: Vec<u8>,
}

impl Heard {
    /// Nothing was heard.
    pub(crate) fn new(alloc: Global) -> Heard {
        Heard {
            send: Vec::new(alloc),
            out: Vec::new(alloc),
        }
    }
}

/// Takes the next bytes of a peer. If its first message is whole with them, this side's MAC is to be sent.
pub(crate) fn hear(
    link: Link,
    alloc: Global,
    key: &SharedKey,
    bytes: &[u8],
    heard: &mut Heard,
) -> Result<Link, LinkEnd> {
    let first = link.lacks().min(bytes.len());
    if first == 0 {
        return link.take(alloc, key, bytes, &mut heard.out);
    }
    let link = link.take(alloc, key, &bytes[..first], &mut heard.out)?;
    if let Some(mac) = link.reply(key) {
        if heard.send.extend_from_slice(&mac).is_err() {
            return Err(LinkEnd::NoMemory);
        }
    }
    link.take(alloc, key, &bytes[first..], &mut heard.out)
}

/// Appends the records of these bytes. It is false if memory is refused, or all numbers are used.
pub(crate) fn seal_all(sealer: &mut Sealer, bytes: &[u8], records: &mut Vec<u8>) -> bool
    ensures { IsTrue result → SealsAll sealer.old sealer.new bytes.now records.old.items records.new.items }
{
    let mut left = bytes;
    while !left.is_empty() {
        let count = left.len().min(MOST_BYTES);
        match sealer.seal(&left[..count], records) {
            Ok(()) => left = &left[count..],
            Err(_) => return false,
        }
    }
    true
}
