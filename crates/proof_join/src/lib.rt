//! One proof of a formula from the fragments that close the leaves of a splitting tree.
//!
//! A fragment is a log over the formula's base that closes its cube. The joined text has the preamble's lines first, then the fragments
//! from left to right, renumbered so that their numbers rise. After the two branches of a fork comes the line that resolves their clauses,
//! unless one branch's clause closes the fork too. What a layer above may rest on: [`join`] makes the text that the definition fixes, and
//! this text is an accepted proof of the formula, without the preamble's clauses.
//!
//! [`renumber`] rewrites a proof for a formula to which clauses were added. The new text is an accepted proof of that formula if all
//! additions are by reverse unit propagation.
#![tactic(auto)]

mod examples;
mod fault;
mod finished;
mod joined_proof;
mod joiner;
mod laws;
mod lines;
mod output;
mod preamble;
mod renumbered_proof;
mod subtree;

pub use examples::{worked_definitions, worked_joins, worked_renumberings};
pub use fault::JoinFault;
pub use joined_proof::{join, join_packed};
pub use joiner::Joiner;
pub use laws::{
    definitions_are_a_preamble, definitions_are_rat, joined_is_accepted, one_text_is_joined,
    one_text_is_renumbered, renumbered_proofs_are_accepted, units_are_a_preamble,
};
pub use renumbered_proof::renumber;
