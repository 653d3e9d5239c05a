//! Lookahead, as for cube and conquer: splits a formula into cubes. Both literals of each candidate are propagated, and the branching
//! variable is the one that reduces the most clauses (Heule, Kullmann, Wieringa and Biere 2011).
//!
//! What a layer above may rest on: a tree is grown leaf by leaf, each time on a variable without a literal in the cube of the leaf. No
//! contract says which variable it is: `docs/dev/SPLITTING.md` has the rule, and a script tests it.
#![tactic(auto)]

mod branching_variable;
mod candidates;
mod clause_states;
mod clauses;
mod counting_propagator;
mod lookahead;
mod occurrences;
mod splitting_tree;
mod trail;
mod tree_walk;
mod variable_weights;

pub use branching_variable::choose;
pub use splitting_tree::grow_tree;
