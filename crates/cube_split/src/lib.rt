//! Splits a formula into cubes: the preamble (unit clauses and defined variables), the variable that a cube is split on, and the
//! splitting tree.
//!
//! What a layer above may rest on: `preamble` is the unit clause of each pure literal, `choose` is the split rule, and `tree` splits by
//! this rule down to the depth that it is given. The tables that count are private.
#![tactic(auto)]

mod chooser;
mod cooccurrences;
mod definitions;
mod descent;
mod frequent_pairs;
mod greatest;
mod laws;
mod marks;
mod open_clauses;
mod opened;
mod pair;
mod places;
mod pure;
mod split_tree;
mod tally;
mod units;
mod walk;

pub use chooser::Chooser;
pub use laws::{choices_are_free, definitions_are_settled, units_are_rat, without_definitions};
pub use opened::Opened;
pub use pair::Pair;
pub use pure::{preamble, preamble_with};
pub use split_tree::{grow, tree, tree_with};
pub use units::{Preamble, base_or};
