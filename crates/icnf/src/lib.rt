//! Formulas with cubes: the iCNF text, and splitting trees, whose leaves are the cubes.
#![tactic(auto)]

mod body;
mod builder;
mod comparison;
mod cubes;
mod cubes_fault;
mod fault;
mod header;
mod laws;
mod parser;
mod place;
mod span;
mod tree;
mod tree_body;
mod tree_lines;
mod tree_reader;
mod walk;
mod writer;

pub use builder::TreeBuilder;
pub use cubes_fault::CubesFault;
pub use fault::{IcnfFault, Kind};
pub use header::read_header;
pub use laws::{no_text_wants_memory, reading_is_spelling, writing_is_spelling};
pub use parser::{read, read_within};
pub use tree::Tree;
pub use tree_reader::{TreeReader, tree_of, tree_within};
pub use writer::write;
