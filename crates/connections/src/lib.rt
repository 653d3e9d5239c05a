//! A listener on 127.0.0.1 and its connections, over mio: none is waited for alone, each is read when it is ready.
//!
//! What a layer above may rest on: a link begins at a place that has none, and stays there until it is hung up. A place is a number from 0
//! on. No call waits for one link, neither for its bytes nor for room to send to it. What was read from a connection is handed out once, in
//! order and with its place. A send that the connection refuses is an error. The operating system decides which connections come, and what
//! they send.
#![tactic(auto)]

mod connection;
mod listener;
mod read_buffer;
mod slots;

pub use listener::Connections;
