//! The checker of LRAT proofs (Cruz-Filipe, Heule, Hunt, Kaufmann and Schneider-Kamp 2017), in the profile of docs/FORMATS.md.
//!
//! A proof that `check` takes is accepted by the definition `Accepts` of `lrat_text`, and a formula with an accepted proof has no
//! satisfying assignment: `accepted_proofs_are_sound`. So neither this code nor the solver that wrote the proof has to be trusted.
#![tactic(auto)]

mod block;
mod blocks;
mod checker;
mod compaction;
mod counts;
mod fault;
mod fragment;
mod groups;
mod holders;
mod judgement;
mod laws;
mod lemma;
mod limit;
mod line_checker;
mod literal_table;
mod live;
mod loader;
mod log;
mod log_checker;
mod marks;
mod named_candidates;
mod propagation;
mod rup;
mod slot;
mod slot_tables;
mod status;
mod store;
mod stream;
mod verdict;

pub use checker::Checker;
pub use fault::StepFault;
pub use fragment::{check_fragment, check_packed_fragment};
pub use judgement::{Judged, judge_values};
pub use laws::{
    accepted_proofs_are_sound, fragment_fault_is_exact, log_fault_is_exact, proof_fault_is_exact,
    right_verdicts_agree, right_verdicts_are_true, step_fault_is_exact,
};
pub use line_checker::CheckFault;
pub use log_checker::{LogChecker, check_log};
pub use rup::RupChecker;
pub use status::{Status, with_free};
pub use stream::{StreamChecker, check, check_pieces};
pub use verdict::{Reaction, Verdict};
