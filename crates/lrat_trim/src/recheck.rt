//! The check of a trimmed proof, which does not rely on how the proof was trimmed.

ghost use Rattle.std.specs.Prelude.{◌≡◌, IfOk, Ok, Err};
ghost use Rattle.std.specs.Bool.{OnTrue};
ghost use Rattle.lrat_text.specs.Proof.{Accepts};
ghost use Rattle.lrat_check.specs.ProofFaults.{GivesCheck, check_of};

use crate::text_blocks::TextBlocks;
use dimacs::Formula;
use lrat_check::{CheckFault, StreamChecker, proof_fault_is_exact};
use packed_text::PackedText;
use std::alloc::{AllocError, Global};

/// Checks a packed text against the formula, block by block. `Err` with the first fault of a text that is no accepted proof.
fn check_packed(alloc: Global, formula: Formula, text: &PackedText) -> Result<(), CheckFault>
    ensures { GivesCheck result (check_of formula text.now) }
{
    let mut stream = StreamChecker::of(alloc, formula)?;
    let mut blocks = TextBlocks::of(alloc, text);
    while let Some(block) = blocks.next()? {
        stream.feed(&block)?;
    }
    stream.finish()
}

/// Tells whether a text is an accepted proof of the formula.
pub fn is_accepted(alloc: Global, formula: Formula, text: &PackedText) -> Result<bool, AllocError>
    ensures { IfOk result (λ is. OnTrue is (Accepts formula text.now)) }
{
    proof_fault_is_exact();
    match check_packed(alloc, formula, text) {
        Ok(()) => Ok(true),
        Err(fault) if fault.is_no_memory() => Err(AllocError),
        Err(_) => Ok(false),
    }
}
