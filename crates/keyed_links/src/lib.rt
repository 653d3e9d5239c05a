//! Links under a shared key, over links that carry bytes as they are: of a worker over one stream, of a coordinator over links that come
//! and go. The layer above sees links whose peers have shown that they have the key; a peer that has not is never told of, nothing of it
//! is handed on, and it is dropped ten seconds after it came.
#![tactic(auto)]

mod hearing;
mod keyed_events;
mod keyed_worker;
mod peers;
mod pending;

pub use keyed_events::KeyedEvents;
pub use keyed_worker::{KeyedWorker, MeetFault};
