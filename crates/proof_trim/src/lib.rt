//! Trims fragments: drops the lemmas that the last one does not need.
#![tactic(auto)]

mod fragment_trim;
mod line_reader;
mod line_scan;
mod needs;
mod reverse_lines;
mod rewriter;

pub use fragment_trim::trim;
