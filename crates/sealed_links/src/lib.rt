//! Links between two machines that hold the same key: a handshake in which both show that they have it, and then records, each under a
//! MAC of its own. No sockets: bytes go in, bytes come out. The layer above may rest on this: of an open link what is handed on are, in
//! order and once each, the payloads of the records that are right for this direction and their number, up to the first that is not,
//! however the bytes are cut into pieces; and nothing is handed on before the peer has shown the key. What is handed on by the very call
//! in which it shows the key, and when such a call refuses it, is tested. Nothing is encrypted: who listens can read it all.
//!
//! The handshake and the keys of the two directions come from HMAC-SHA-256. A record has a tag by SipHash-2-4 with 128 bits of output
//! under the 128-bit key of its direction, since SHA-256 would take longer than the network for what it covers: 100 MB a second.
#![tactic(auto)]

mod handshake;
mod incoming;
mod key;
mod link;
mod numbers;
mod opener;
mod sealer;
mod siphash;

pub use handshake::{Handshake, Session, Side, Verdict};
pub use incoming::{Incoming, OpenFault};
pub use key::SharedKey;
pub use link::{Link, LinkEnd};
pub use opener::Opener;
pub use sealer::{MOST_BYTES, SealFault, Sealer};
pub use siphash::{TagKey, tag};
