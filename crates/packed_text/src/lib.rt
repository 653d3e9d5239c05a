//! Texts of proofs in half their memory: four bits for a character of LRAT lines.
//!
//! A layer above may rely on this: the value of a [`PackedText`] is the bytes that were appended to it, whatever they are. How they are
//! stored shows in no contract. [`PackedLines`] reads its lines and unpacks one block at a time.
#![tactic(auto)]

mod glyphs;
mod lines;
mod rope;
mod text;

pub use lines::PackedLines;
pub use text::PackedText;
