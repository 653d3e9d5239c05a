//! Reads the text of a receipt.

ghost use Rattle.std.specs.Prelude.{◌≡◌, ℕ, List, IfOk, MatchResult};
ghost use Rattle.receipts.specs.Receipts.{SpellsReceipt, ReceiptContents};
ghost use Rattle.receipts.specs.Contents.{contents_of};
ghost use Rattle.receipts.specs.inner.Heads.{IsHead, parted};

use crate::fault::ReceiptFault;
use crate::head::Head;
use crate::header_fields::{digest_after, number_after};
use crate::lemma_lines::closing_in;
use crate::receipt::Receipt;
use std::alloc::Global;

/// The first line of a receipt, and the beginning of the second.
const FRONT: &[u8] = b"satcluster receipt 1\nformula ";

/// The first line of a receipt.
const VERSION: &[u8] = b"satcluster receipt 1\n";

/// Reads the head of a receipt. Answers it and the bytes after it; or Err with the number, from 1, of the first line that is not one of a
/// receipt.
fn head_in(text: &[u8]) -> Result<(Head, &[u8]), u64>
    ensures { MatchResult result
        (λ p. IsHead p.0 × (text.now ≡ parted p.0 p.1.now))
        (λ _. (h : Head) (rest : List ℕ) → IsHead h → ¬ (text.now ≡ parted h rest)) }
{
    let Some((formula, rest)) = digest_after(text, FRONT) else {
        return Err(2 - u64::from(!text.starts_with(VERSION)));
    };
    let Some((log, rest)) = digest_after(rest, b"\nlog ") else {
        return Err(3);
    };
    let Some((lemmas, rest)) = number_after(rest, b"\nlemmas ") else {
        return Err(4);
    };
    let Some((bytes, rest)) = number_after(rest, b"bytes ") else {
        return Err(5);
    };
    let head = Head {
        formula,
        log,
        lemmas,
        bytes,
    };
    Ok((head, rest))
}

/// Reads the text of a receipt. Err is `Line` only if the text is not that of a receipt, and `NoMemory` if memory is refused.
pub fn read(alloc: Global, text: &[u8]) -> Result<Receipt, ReceiptFault>
    // The text is that of the receipt that was read.
    ensures found { IfOk result (λ r. SpellsReceipt text.now (contents_of r)) }
    // The text of a receipt is read, unless memory is refused.
    ensures only { (r : ReceiptContents) → SpellsReceipt text.now r → MatchResult result (λ found. contents_of found ≡ r) (λ fault. fault ≡ ReceiptFault.NoMemory) }
{
    let (head, rest) = match head_in(text) {
        Ok(found) => found,
        Err(line) => return Err(ReceiptFault::Line(line)),
    };
    let closing = closing_in(alloc, rest, 6)?;
    Ok(Receipt { head, closing })
}
