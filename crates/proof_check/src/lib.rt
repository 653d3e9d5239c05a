//! The check of a proof in either form, text or binary, as it comes in pieces, and what is reported of it.
//!
//! What a layer above may rely on: however the bytes are cut into pieces, [`ProofCheck::finish`] reports `s VERIFIED` if and only if they
//! spell, in the form that their first byte tells, steps of which a prefix refutes the formula; else the first fault, with the number of its
//! line or step, or want of memory. [`BinaryChecker`] checks the steps of the binary form with the checker of `lrat_check`.
#![tactic(auto)]

mod check_report;
mod either_form;
mod laws;
mod stage;
mod steps;
mod stream;
mod text_check;

pub use either_form::ProofCheck;
pub use laws::accepted_binary_proofs_are_sound;
pub use stream::{BinaryChecker, check_binary};
pub use text_check::run_check;
