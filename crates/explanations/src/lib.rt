//! Explanations: what the lines of a report mean, in words: what is wrong, where, and what to do.
//!
//! No answer of the program rests on an explanation. What a layer above may rest on: each number that a fault can have has a sentence, and
//! no other number has; the kind of a file follows from its first bytes and from one line by a written definition; and the words of a
//! command line without `--explain` and `--no-explain` are all others, in their order.
#![tactic(auto)]

mod asked;
mod lines;
mod looks;
mod names;
mod other_lines;
mod reasons;
mod sentences;
mod table;

pub use asked::{Asked, Explaining};
pub use lines::{Fault, File, Unit, is_of_clause, unread_number};
pub use looks::{Look, look_of, packing_of};
pub use names::{in_command, shown};
pub use other_lines::Other;
pub use reasons::Reason;
pub use sentences::Told;
pub use table::{Subject, explain_fault};
