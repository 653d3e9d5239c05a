//! Elaborates DRAT proofs to LRAT, whose lemmas name what they follow from.
//!
//! How the lemmas are found is believed by nobody: a proof is handed out only if the checker of LRAT accepts it. So this crate owes that it
//! is safe and returns, and that its faults have their numbers; what it finds, and how fast, is tested.
//!
//! 1. All steps are read, and a deletion finds its clause by a table (`step_loader`, `clause_table`).
//! 2. The steps are replayed forwards, with propagation at the root alone, until a clause is false (`replay`).
//! 3. The steps are undone, the last one first. So a clause is watched once, and no watch has to be repaired (`backward`).
//! 4. A needed lemma is checked by propagation, which looks at needed clauses first (`propagator`); what its conflict rests on becomes
//!    needed. A root literal that is used gets a unit lemma where it was propagated.
//! 5. If that fails, the lemma is tried on its first literal as its pivot, then on the others. The candidates are the needed clauses with
//!    the pivot's negation, among them those that this very check makes needed (`candidates`). The LRAT proof deletes each clause behind
//!    its last use, so it has no other candidates.
#![tactic(auto)]

mod arena;
mod assignment;
mod backward;
mod candidates;
mod clause_table;
mod elaborator;
mod fault;
mod lrat_writer;
mod observer;
mod occurrences;
mod propagator;
mod replay;
mod report;
mod stamps;
mod step_loader;
mod trace;
mod watch_lists;

pub use elaborator::{Elaborated, Elaborator, Statistics, elaborate};
pub use fault::{ElaborationFault, Kind};
pub use observer::{ElaborationObserver, Phase, Stage, Unobserved};
pub use report::elaboration_report;
