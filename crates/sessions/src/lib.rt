//! Checks sessions of an incremental solver: the events give clauses and ask queries in turn, and one LIDRUP text proves all answers.
#![tactic(auto)]

mod check;
mod event_lines;
mod fault;
mod kind;
mod known;
mod laws;
mod line_literals;
mod literal_set;
mod numbers;
mod proof_lines;
mod proof_side;
mod report;
mod stage;
mod tally;

pub use check::{SessionCheck, SessionFault, Wants};
pub use event_lines::{EventLines, Sent};
pub use laws::{accepted_sessions_are_right, events_are_heard, events_are_spelled};
pub use report::{check_report, session_report};
pub use tally::Tally;
