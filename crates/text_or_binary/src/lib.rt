//! Lift, trim and join of proofs in either form: LRAT text, or the binary form that solvers write.
//!
//! The crates below take text. Here they are fed the text form of the bytes, so that their promises are about that text: the fault of line
//! L is that of step L of a binary proof.
#![tactic(auto)]

mod form_join;
mod form_lift;
mod form_trim;

pub use form_join::FormJoin;
pub use form_lift::FormLift;
pub use form_trim::FormTrimming;
