//! A search of one formula that takes over lemmas of other searches of it, and writes a log with imports.
//!
//! A [`CellWorker`] is lent lemmas that others offer, searches in turns, and hands out the bytes of its log and of its own offers. What a
//! layer above may rest on: whatever it is lent, and whatever the seed, the bytes of its log are the text of a log with imports over the
//! formula (`shared_logs`); an assignment satisfies the formula; and a query that is closed has a lemma of its own in the log. Files and
//! what others' bytes say are not its business.
#![tactic(auto)]

mod kept_session;
mod offers;
mod restoring;
mod shared_text;
mod turn;
mod worker;

pub use turn::Turn;
pub use worker::CellWorker;
