//! The decision heap: a priority queue of variables by score (the activity of VSIDS, Eén and Sörensson 2003). The variable with the
//! greatest score comes first, and of several the one with the lowest number. Scores are bumped by growing amounts and rescaled from
//! time to time, so that they favour variables met often and lately. The layer above may rest on the contracts alone, which do not
//! show how the variables lie in the heap.
#![tactic(auto)]

mod heap;
mod rows;
mod sift;
mod updates;

pub use heap::DecideHeap;
