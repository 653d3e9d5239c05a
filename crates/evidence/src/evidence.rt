//! Evidence: the bytes of a proof or an assignment, which show that an answer is right.

ghost use Rattle.std.specs.Prelude.{◌≡◌, ◌≤◌, [], ◌++◌, ℕ, List, length, IsTrue, ◌↔◌, OnOk, OnErr};
ghost use Rattle.evidence.specs.Evidence.{ComeNext, HasWrongLength, IsComplete, announced, with_bytes};

use dimacs::Formula;
use frames::Finding;
use packed_text::PackedText;
use std::alloc::{AllocError, Global};

/// Tells whether the finding is an assignment whose length is not the formula's number of variables. False for a refutation.
pub fn has_wrong_length(formula: &Formula, finding: &Finding) -> bool
    ensures { IsTrue result ↔ HasWrongLength formula.now finding.now }
{
    match finding {
        Finding::Refuted { .. } => false,
        Finding::Assignment { length } => *length != formula.vars(),
    }
}

/// Evidence that is received in pieces: the announced answer and length, and the bytes received so far.
#[derive(Drop)]
pub struct Evidence {
    pub finding: Finding,
    pub bytes: PackedText,
}

impl Evidence {
    /// Makes evidence with this announced answer and length, of which no byte has been received. It takes no memory.
    pub fn new(alloc: Global, finding: Finding) -> Evidence
        ensures { result ≡ announced finding }
    {
        Evidence {
            finding,
            bytes: PackedText::new(alloc),
        }
    }

    /// Tells whether `count` bytes from `offset` on follow the bytes received so far, and do not go beyond the announced length.
    pub fn comes_next(&self, offset: u32, count: usize) -> bool
        requires { count ≤ 4000 }
        ensures { (more : List ℕ) → length more ≡ count → IsTrue result ↔ ComeNext self.now offset more }
    {
        let there = self.bytes.len();
        let all = self.finding.length() as usize;
        offset as usize == there && there <= all && count <= all - there
    }

    /// Tells whether all announced bytes have been received.
    pub fn is_complete(&self) -> bool
        ensures { IsTrue result ↔ IsComplete self.now }
    {
        self.bytes.len() == self.finding.length() as usize
    }

    /// Appends bytes to those received so far. If memory is refused, the evidence is unchanged.
    pub fn extend(&mut self, more: &[u8]) -> Result<(), AllocError>
        ensures ok { OnOk result (self.new ≡ with_bytes self.old more.now) }
        ensures err { OnErr result (self.new ≡ self.old) }
    {
        self.bytes.extend(more)
    }
}
