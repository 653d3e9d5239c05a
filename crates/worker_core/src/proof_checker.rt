//! The check of a refutation while its bytes are received.

ghost use Rattle.std.specs.Prelude.{◌≡◌, ◌<◌, ◌≤◌, [], length, IfOk, OnOk, IfSome};
ghost use Rattle.dimacs.specs.logic.Cnf.{Cnf};
ghost use Rattle.lrat_check.specs.Stream.{HasTaken};
ghost use Rattle.worker_core.specs.inner.Invariant.{ChecksPrefix, HasTakenPrefix};

use dimacs::Formula;
use lrat_check::StreamChecker;
use packed_text::PackedText;
use std::alloc::{AllocError, Global};

/// The number of bytes that are unpacked at once.
const BLOCK: usize = 16384;

/// A stream checker for the text of a candidate, and the number of the text's bytes that the checker has taken.
#[derive(Drop)]
pub struct ProofChecker {
    pub(crate) stream: StreamChecker,
    pub(crate) taken: usize,
}

impl ProofChecker {
    /// Makes a checker that has taken no byte. It copies the formula.
    pub(crate) fn new(alloc: Global, formula: &Formula) -> Result<ProofChecker, AllocError>
        ensures { IfOk result (λ f. HasTakenPrefix formula.now f []) }
    {
        Ok(ProofChecker {
            stream: StreamChecker::new(alloc, formula)?,
            taken: 0,
        })
    }

    /// Takes the next block of bytes that were not taken yet. A fault of the text stays in the stream checker, which reports it at the end.
    fn take_block(&mut self, alloc: Global, bytes: &PackedText) -> Result<(), AllocError>
        requires { self.old.taken < length bytes.now }
        ensures further { OnOk result ((self.old.taken < self.new.taken) × (self.new.taken ≤ length bytes.now)) }
        ensures behind { OnOk result ((F : Cnf) → HasTakenPrefix F self.old bytes.now → HasTakenPrefix F self.new bytes.now) }
    {
        let count = BLOCK.min(bytes.len() - self.taken);
        let block = bytes.read(alloc, self.taken, count)?;
        match self.stream.feed(&block) {
            Err(fault) if fault.is_no_memory() => Err(AllocError),
            _ => {
                self.taken += count;
                Ok(())
            }
        }
    }

    /// Takes all bytes that were not taken yet, block by block, so that the text is never unpacked as a whole. If memory is refused, the
    /// checker is dropped.
    pub(crate) fn catch_up(
        self,
        alloc: Global,
        bytes: &PackedText,
    ) -> Result<ProofChecker, AllocError>
        requires { self.taken ≤ length bytes.now }
        ensures { IfOk result (λ f. (f.taken ≡ length bytes.now) × ((F : Cnf) → HasTakenPrefix F self bytes.now → HasTaken F f.stream bytes.now)) }
    {
        let mut checker = self;
        'takes: while checker.taken < bytes.len() {
            checker.take_block(alloc, bytes)?;
        }
        Ok(checker)
    }
}

/// Returns the checker, if there is one, after it has taken all of `bytes`; `None` without a checker, or if memory was refused.
pub(crate) fn caught_up(
    alloc: Global,
    checker: Option<ProofChecker>,
    bytes: &PackedText,
) -> Option<ProofChecker>
    requires { (F : Cnf) × ChecksPrefix F checker bytes.now }
    ensures { (F : Cnf) → ChecksPrefix F checker bytes.now → IfSome result (λ f. (f.taken ≡ length bytes.now) × HasTaken F f.stream bytes.now) }
{
    match checker {
        None => None,
        Some(checker) => checker.catch_up(alloc, bytes).ok(),
    }
}
