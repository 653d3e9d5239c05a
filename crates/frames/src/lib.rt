//! Frames: the messages between the nodes of a cluster, their encoding in bytes, and the reader of a stream that is cut into pieces
//! anywhere. `docs/dev/FRAMES.md` has the format.
#![tactic(auto)]

mod answer;
mod big_endian;
mod chunk;
mod cube;
mod decoder;
mod encoder;
mod fault;
mod fields;
mod frame;
mod header;
mod laws;
mod reader;
mod worker;

pub use answer::{Answer, Ending, Finding, ProofLength};
pub use chunk::Chunk;
pub use cube::Cube;
pub use encoder::{encode, len};
pub use fault::FrameFault;
pub use frame::{Attempt, Frame, Kind};
pub use header::Header;
pub use laws::{fields_are_right, no_spelling_begins_another, streams_are_read_one_way};
pub use reader::{Reader, first_frame, read_pieces};
pub use worker::WorkerNumber;
