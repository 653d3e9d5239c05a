//! The state of writing the lines of forks.

ghost use Rattle.std.specs.Prelude.{◌^◌, ◌<◌};

use dimacs::Lit;
use std::alloc::Global;

/// The lines of forks so far, the path to the current subtree, and the greatest number of a line so far.
#[derive(Drop)]
pub(crate) struct ForkWriter {
    pub(crate) alloc: Global,
    pub(crate) path: Vec<Lit>,
    pub(crate) top: u64,
    pub(crate) lines: Vec<u8>,
    ghost limit: { top < 2 ^ 48 },
}
