//! Links: what carries bytes between a coordinator and its workers.
//!
//! What a layer above may rest on: each send and each receive is counted, and so is each that was refused; a receive returns no more bytes
//! than the room that it was lent. Nothing is promised of the bytes: links may lose them, repeat them, or make them up. [`Links`] are there
//! from the beginning, one a worker; [`Counted`] makes them of any [`Carrier`]: sockets of this machine, queues in memory, or one that
//! refuses, ends or lies. [`Arrivals`] are links that come and go, and are handled event by event; [`CountedArrivals`] makes them of any
//! [`EventCarrier`].
#![tactic(auto)]

mod arrivals;
mod carrier;
mod coordinator_ends;
mod counted;
mod counted_arrivals;
mod event_carrier;
mod fault_injection;
mod link;
mod loopback;
mod memory;
mod progress;
mod script;
mod stream;
mod worker_end;

pub use arrivals::{Arrival, Arrivals, Event};
pub use carrier::Carrier;
pub use coordinator_ends::CoordinatorEnds;
pub use counted::Counted;
pub use counted_arrivals::CountedArrivals;
pub use event_carrier::EventCarrier;
pub use fault_injection::{Bytewise, RefusesAll, RefusesAt};
pub use link::{End, LinkFault, Links};
pub use loopback::Loopback;
pub use memory::Memory;
pub use progress::Progress;
pub use script::Script;
pub use worker_end::WorkerEnd;
