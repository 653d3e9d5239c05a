//! Sending and receiving of frames over links.

ghost use Rattle.std.specs.Prelude.{◌≤◌};
ghost use Rattle.links.specs.Ends.{link_of};
ghost use Rattle.runs.specs.inner.Accounts.{RoseWithin, Refuses, one_if_none, one_if_err};

use crate::broken::Broken;
use crate::inbox::Inbox;
use frames::{Frame, encode, len};
use links::{End, Links};

/// The bytes of the longest frame, and so the length of the buffer for each receive.
const LONGEST: usize = 4037;

/// The most rounds of a run.
pub(crate) const ROUNDS: u64 = 1_000_000;

/// Sends a frame over a link from this end. Answers `Closed` if the link refuses the bytes.
pub(crate) fn send<L: Links>(links: &mut L, from: End, frame: &Frame) -> Result<(), Broken>
    requires { link_of from ≤ 64 }
    ensures calls { RoseWithin 1 1 (L.call_count links.old) (L.call_count links.new) }
    // At most one call is refused, over this worker's link alone, and only if the result is `Err`.
    ensures refusals { Refuses L.refusal_count L.refused_at (link_of from) (one_if_err result) 0 links.old links.new }
{
    let mut room = [0u8; LONGEST];
    let count = len(frame);
    encode(frame, &mut room);
    match links.send(from, &room[..count]) {
        Ok(()) => Ok(()),
        Err(_) => Err(Broken::Closed),
    }
}

/// Receives bytes once at this end of a link, and puts them into the inbox. Answers `Closed` if the link refuses or has ended, or if the
/// bytes are no frames, and `NoMemory` if memory is refused.
fn receive_some<L: Links>(links: &mut L, at: End, inbox: &mut Inbox) -> Result<(), Broken>
    requires { link_of at ≤ 64 }
    ensures calls { RoseWithin 1 1 (L.call_count links.old) (L.call_count links.new) }
    // At most one call is refused, over this worker's link alone, and only if the result is `Err`.
    ensures refusals { Refuses L.refusal_count L.refused_at (link_of at) (one_if_err result) 0 links.old links.new }
{
    let mut room = [0u8; LONGEST];
    match links.receive(at, &mut room) {
        Ok(count) if 0 < count => inbox.take(&room[..count]),
        _ => Err(Broken::Closed),
    }
}

/// The next frame at this end of a link: the first that waits in the inbox, or else the first that becomes complete. Each receive brings at
/// least one byte, so 4037 of them are enough. Answers why the link is broken, if it is.
pub(crate) fn receive<L: Links>(links: &mut L, at: End, inbox: &mut Inbox) -> Result<Frame, Broken>
    requires { link_of at ≤ 64 }
    // At most 4,037 receives, of a byte each; at least one if no frame waits.
    ensures calls { RoseWithin (one_if_none inbox.old.waiting.items) 4037 (L.call_count links.old) (L.call_count links.new) }
    // At most one call is refused, over this worker's link alone, and only if the result is `Err`.
    ensures refusals { Refuses L.refusal_count L.refused_at (link_of at) (one_if_err result) 0 links.old links.new }
{
    for _ in 0..LONGEST {
        if let Some(frame) = inbox.next() {
            return Ok(frame);
        }
        receive_some(links, at, inbox)?;
    }
    match inbox.next() {
        Some(frame) => Ok(frame),
        None => Err(Broken::Closed),
    }
}
