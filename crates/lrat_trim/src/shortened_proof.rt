//! A shorter text of a proof, to be checked in place of the proof.

use crate::lemmas::Lemmas;
use crate::needs::{Kept, needs_of};
use crate::rewriter::rewrite;
use lrat_text::{StepBuffer, TextFault};
use packed_text::PackedText;
use std::alloc::{AllocError, Global};

/// Returns the proof without the lemmas that the empty clause does not need: lists the lemmas,
/// traces the needs backwards, and copies the lines that stay.
fn without_the_rest(alloc: Global, base: u64, proof: &PackedText) -> Result<PackedText, TextFault> {
    let lemmas = Lemmas::of(alloc, base, proof)?;
    let mut buffer = StepBuffer::new(alloc);
    let needs = needs_of(alloc, proof, &mut buffer, &lemmas)?;
    rewrite(
        alloc,
        proof,
        &mut buffer,
        Kept {
            lemmas: &lemmas,
            needs: &needs,
        },
    )
}

/// Returns the proof without the lemmas that its first empty clause does not need, and without their groups and deletions. The numbers
/// stay. Whether the text is a proof has to be checked. `None` if the proof cannot be parsed.
pub(crate) fn shortened(
    alloc: Global,
    base: u64,
    proof: &PackedText,
) -> Result<Option<PackedText>, AllocError> {
    match without_the_rest(alloc, base, proof) {
        Ok(text) => Ok(Some(text)),
        Err(TextFault::NoMemory) => Err(AllocError),
        Err(_) => Ok(None),
    }
}
