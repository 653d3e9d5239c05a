//! The clause arena: all literals of all clauses in one vector, so that no clause is an allocation of its own. A clause is lent as a
//! slice of that vector (MiniSat's clause arena, Eén and Sörensson 2003), and is found by its number through an index.
//!
//! What a layer above may rest on: an arena is a map from a clause number to an offset and a clause. The offset is the index of the
//! clause's first literal in the vector. A `Ref` has the number, the offset and the length of a live clause, so that `clause` and `swap`
//! read the literals alone, without the index. `remove` leaves a gap; `compact` closes all gaps and lists the clauses that moved.
#![tactic(auto)]

mod arena;
mod blocks;
mod compaction;
mod index;
mod literals;
mod reference;
mod slot;
mod slot_map;
mod slot_table;

pub use arena::Arena;
pub use reference::Ref;
