//! HMAC-SHA-256: the message authentication code (MAC) by which one who holds a key shows that a text is theirs (RFC 2104, with SHA-256
//! of FIPS 180-4). The layer above may rest on this: the MAC of a text is the one that the standard defines, however the text is cut
//! into pieces, and two MACs are called the same exactly if their bytes are equal. How hard a MAC is to forge no contract says.
#![tactic(auto)]

mod block;
mod mac;
mod same;

pub use mac::{Key, Mac, hmac};
pub use same::is_same;
