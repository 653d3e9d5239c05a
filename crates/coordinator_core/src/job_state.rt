//! The state of a job, and the state of a leaf.

ghost use Rattle.std.specs.Prelude.{◌≡◌, ◌≤◌, ◌↔◌, ℕ, List, IsTrue, length, OnOk, OnErr, Some};
ghost use Rattle.coordinator_core.specs.inner.PrivateCalls.{IsWhole, fixed_cut_to, fixed_with_more, job_with_bytes};
ghost use Rattle.evidence.specs.Evidence.{ComeNext};
ghost use Rattle.coordinator_core.specs.declared.job_state.Fixed.{Fixed};

use evidence::Evidence;
use frames::{Answer, WorkerNumber};
use packed_text::PackedText;
use std::alloc::{AllocError, Global};
use std::mem;

/// What the first Done of a job fixed: the worker's incarnation, and the announced evidence with its bytes so far.
#[derive(Drop)]
pub struct Fixed {
    pub incarnation: u64,
    pub evidence: Evidence,
}

/// A job: its number from 1, the index of its leaf from 0, and what its first Done fixed, if that was delivered.
#[derive(Drop)]
pub struct Job {
    pub number: u64,
    pub leaf: usize,
    pub fixed: Option<Fixed>,
}

// The calls are about the evidence that is fixed. If nothing is fixed, they change nothing.
impl Job {
    /// Tells whether `count` bytes from `offset` on follow the bytes so far of the evidence that this incarnation announced. False if
    /// nothing is fixed.
    pub(crate) fn comes_next(&self, incarnation: u64, offset: u32, count: usize) -> bool
        requires { count ≤ 4000 }
        ensures { (more : List ℕ) → length more ≡ count → IsTrue result ↔ ((x : Fixed) × (self.now.fixed ≡ Some x) × (incarnation ≡ x.incarnation) × ComeNext x.evidence offset more) }
    {
        match &self.fixed {
            None => false,
            Some(fixed) => {
                fixed.incarnation == incarnation && fixed.evidence.comes_next(offset, count)
            }
        }
    }

    /// Returns which answer the complete evidence is for; `None` if bytes are missing, or no
    /// evidence was announced.
    pub(crate) fn whole(&self) -> Option<Answer>
        ensures { (x : Fixed) → self.now.fixed ≡ Some x → IsWhole x result }
    {
        match &self.fixed {
            Some(fixed) if fixed.evidence.is_complete() => Some(fixed.evidence.finding.answer()),
            _ => None,
        }
    }

    /// Appends bytes to the evidence. If memory is refused, the job is unchanged.
    pub(crate) fn extend(&mut self, more: &[u8]) -> Result<(), AllocError>
        ensures ok { OnOk result (self.new ≡ record self.old { fixed = fixed_with_more self.old.fixed more.now }) }
        ensures err { OnErr result (self.new ≡ self.old) }
    {
        match &mut self.fixed {
            None => Ok(()),
            Some(fixed) => fixed.evidence.extend(more),
        }
    }

    /// Truncates the evidence to its first `count` bytes, to undo an append if memory is refused
    /// after it.
    pub(crate) fn shorten(&mut self, count: usize)
        ensures { self.new ≡ record self.old { fixed = fixed_cut_to count self.old.fixed } }
    {
        if let Some(fixed) = &mut self.fixed {
            fixed.evidence.bytes.truncate(count);
        }
    }

    /// Saves memory: if the last block of the evidence has the same bytes as the block of `like` at the same offset, both share one block.
    pub(crate) fn share(&mut self, like: &PackedText)
        ensures { self.new ≡ self.old }
    {
        if let Some(fixed) = &mut self.fixed {
            fixed.evidence.bytes.share_last(like);
        }
    }

    /// Moves the bytes out of the evidence into the table of leaves, without a copy. The evidence
    /// is empty then. It takes no memory.
    pub(crate) fn take_bytes(&mut self, alloc: Global) -> PackedText
        ensures leaf { self.new.leaf ≡ self.old.leaf }
        ensures bytes { (x : Fixed) → self.old.fixed ≡ Some x → result ≡ x.evidence.bytes }
        ensures back { job_with_bytes self.new result ≡ self.old }
    {
        let none = PackedText::new(alloc);
        match &mut self.fixed {
            None => none,
            Some(fixed) => mem::replace(&mut fixed.evidence.bytes, none),
        }
    }

    /// Puts bytes back into the evidence, if closing the leaf is undone.
    pub(crate) fn give_bytes(&mut self, bytes: PackedText)
        ensures { self.new ≡ job_with_bytes self.old bytes }
    {
        if let Some(fixed) = &mut self.fixed {
            fixed.evidence.bytes = bytes;
        }
    }
}

/// The state of a leaf: open, given to a worker, or closed. The fragment of a closed leaf is kept in another vector.
#[derive(Clone, Copy, Debug, PartialEq, Eq)]
pub enum LeafState {
    Open,
    GivenTo(WorkerNumber),
    Closed,
}
