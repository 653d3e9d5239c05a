//! Receipts: a log is checked on the machine that made it, and a small text, the receipt, says which leaves of a tree the log closes.
//!
//! What a layer above may rest on: a receipt is made only of a log over the formula that closes a leaf. A receipt has exactly one text. If
//! receipts over a formula cover the leaves of a tree, and each was made of some log, no assignment satisfies the formula.
#![tactic(auto)]

mod cover;
mod coverage;
mod coverage_update;
mod fault;
mod formula_hash;
mod head;
mod header_fields;
mod laws;
mod lemma;
mod lemma_lines;
mod receipt;
mod receipt_builder;
mod receipt_reader;
mod receipt_writer;

pub use cover::{Cover, TextKind};
pub use fault::{BuildFault, CoverFault, ReceiptFault};
pub use laws::{covered_leaves_are_closed, covering_refutes, told_lemmas_follow};
pub use lemma::ClosingLemma;
pub use receipt::Receipt;
pub use receipt_builder::ReceiptBuilder;
pub use receipt_reader::read;
pub use receipt_writer::write;
