//! One worker of a cell: a search of a formula that shares lemmas with others through a folder.
//!
//! In the folder each worker has a log and its offers, to which only it appends. What a layer above may rest on: whatever bytes the others'
//! offers have, what stands in this worker's log at each moment is the beginning of the text of a log with imports over the formula; an
//! assignment satisfies the formula; and a query that is told closed has a lemma in the log that closes it.
#![tactic(auto)]

mod beginning;
mod exchange;
mod folder;
mod inbox;
mod known_leaves;
mod peer;
mod run;

pub use folder::{Folder, Teller};
pub use run::{Asked, Cell, Shared, share};
