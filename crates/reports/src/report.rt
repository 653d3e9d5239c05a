//! The report of a run: what it prints, and its exit status.

ghost use Rattle.std.specs.Prelude.{◌≡◌, IfOk, None};

use packed_text::PackedText;
use std::alloc::{AllocError, Global};

/// The report of a run.
#[derive(Drop)]
pub struct Report {
    /// What is printed, each line ended by LF.
    pub stdout: Vec<u8>,
    /// The exit status.
    pub status: u8,
    /// The proof to be written, if there is one: its text, packed.
    pub proof: Option<PackedText>,
}

impl Report {
    /// A report of this text and this exit status, without a proof.
    pub fn of(alloc: Global, text: &[u8], status: u8) -> Result<Report, AllocError>
        ensures text { IfOk result (λ r. r.stdout.items ≡ text.now) }
        ensures status { IfOk result (λ r. r.status ≡ status) }
        ensures proof { IfOk result (λ r. r.proof ≡ None) }
    {
        Ok(Report {
            stdout: Vec::from_slice(alloc, text)?,
            status,
            proof: None,
        })
    }
}
