//! Reads the lines of a receipt's lemmas.

ghost use Rattle.std.specs.Prelude.{◌≡◌, ◌≢◌, ℕ, List, None, IfOk, MatchOption, MatchResult, All, map, slice_index_or};
ghost use Rattle.log_join.specs.ClosedLeaves.{Numbered};
ghost use Rattle.lrat_text.specs.Grammar.{IsStep, SpellsStep};
ghost use Rattle.lrat_text.specs.Steps.{step_of};
ghost use Rattle.lrat_text.specs.WrittenLine.{line_text};
ghost use Rattle.receipts.specs.Receipts.{closing_text, unhinted};
ghost use Rattle.receipts.specs.Contents.{lemma_of, lemmas_in};

use crate::fault::ReceiptFault;
use crate::lemma::ClosingLemma;
use lrat_text::{StepBuffer, StepRef, TextFault, canonical_id, cut_line, read_line};
use std::alloc::{AllocError, Global};

/// The lemma of a line that was read as this step; None if the line is not the one that is written for a lemma without hints.
fn lemma_of_step(
    alloc: Global,
    line: &[u8],
    step: StepRef<'_>,
) -> Result<Option<ClosingLemma>, AllocError>
    requires { SpellsStep line.now (step_of step) }
    ensures { IfOk result (λ found. MatchOption found
        ((l : Numbered) → IsStep (unhinted l) → line.now ≢ line_text l.id (unhinted l))
        (λ l. (line.now ≡ line_text l.id (unhinted (lemma_of l))) × IsStep (unhinted (lemma_of l)))) }
{
    let StepRef::Add {
        id,
        lits,
        hints,
        groups,
    } = step
    else {
        return Ok(None);
    };
    if !hints.is_empty() || groups.len() > 0 || canonical_id(line).is_none() {
        return Ok(None);
    }
    let clause = Vec::from_slice(alloc, lits)?;
    Ok(Some(ClosingLemma { id, clause }))
}

/// Answers None for a line that is no LRAT line, which is a fault of the receipt; Err if memory was
/// refused.
fn unread(fault: TextFault) -> Result<Option<ClosingLemma>, AllocError>
    ensures { IfOk result (λ found. (fault ≢ TextFault.NoMemory) × (found ≡ None)) }
{
    match fault {
        TextFault::NoMemory => Err(AllocError),
        _ => Ok(None),
    }
}

/// Reads the lemma of a line, without its LF; None if the line is not the one that is written for a lemma. Err if memory was refused.
fn lemma_in(
    alloc: Global,
    buffer: &mut StepBuffer,
    line: &[u8],
) -> Result<Option<ClosingLemma>, AllocError>
    ensures { IfOk result (λ found. MatchOption found
        ((l : Numbered) → IsStep (unhinted l) → line.now ≢ line_text l.id (unhinted l))
        (λ l. (line.now ≡ line_text l.id (unhinted (lemma_of l))) × IsStep (unhinted (lemma_of l)))) }
{
    match read_line(buffer, line) {
        Ok(()) => lemma_of_step(alloc, line, buffer.as_ref()),
        Err(fault) => unread(fault),
    }
}

/// Reads the lines of lemmas, and `end` as the last line. `first` is the number of the text's first line in the receipt, from 1. Err has
/// the number of the first line that is none of these, or memory was refused.
pub(crate) fn closing_in(
    alloc: Global,
    text: &[u8],
    first: u64,
) -> Result<Vec<ClosingLemma>, ReceiptFault>
    ensures found { IfOk result (λ lemmas. (text.now ≡ closing_text (lemmas_in lemmas.items)) × All (λ l. IsStep (unhinted l)) (lemmas_in lemmas.items)) }
    ensures only { (lemmas : List Numbered) → All (λ l. IsStep (unhinted l)) lemmas → text.now ≡ closing_text lemmas
        → MatchResult result (λ found. lemmas_in found.items ≡ lemmas) (λ fault. fault ≡ ReceiptFault.NoMemory) }
{
    let mut buffer = StepBuffer::new(alloc);
    let mut lemmas = Vec::new(alloc);
    let mut rest = text;
    let mut number = first;
    while let Some((line, later)) = cut_line(rest) {
        if line == b"end".as_slice() {
            if later.is_empty() {
                return Ok(lemmas);
            }
            return Err(ReceiptFault::Line(number.saturating_add(1)));
        }
        match lemma_in(alloc, &mut buffer, line)? {
            Some(lemma) => lemmas.push(lemma)?,
            None => return Err(ReceiptFault::Line(number)),
        }
        rest = later;
        number = number.saturating_add(1);
    }
    Err(ReceiptFault::Line(number))
}
