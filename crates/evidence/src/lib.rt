//! What coordinator and worker share: names of jobs, evidence for an answer, which is received in pieces, the events of a machine,
//! and what is kept of a verdict when clauses are added to its formula.
//!
//! What a layer above may rest on: the rules of both machines are stated in the definitions of this crate, and [`grow`] keeps of a
//! verdict exactly what is right for the longer formula.
#![tactic(auto)]

mod evidence;
mod job;
mod kept_verdict;
mod laws;

pub use evidence::{Evidence, has_wrong_length};
pub use job::JobName;
pub use kept_verdict::{Grown, grow};
pub use laws::{rup_proofs_are_kept, what_is_kept_is_right};
