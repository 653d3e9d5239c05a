//! The lines of a log that takes over lemmas of other logs, and of what such a log offers, one by one.
//!
//! A line is read exactly if `shared_logs` says that it is spelled so. Lines with clauses are read as lines of LRAT text, by `lrat_text`.
#![tactic(auto)]

mod bytes;
mod fields;
mod line;
mod line_buffer;
mod number;
mod offer_buffer;

pub use fields::{is_clause_number, is_name};
pub use line::{Offer, SharedLine};
pub use line_buffer::SharedLineBuffer;
pub use offer_buffer::OfferBuffer;
