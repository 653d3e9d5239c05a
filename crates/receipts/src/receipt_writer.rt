//! Writes the text of a receipt.

ghost use Rattle.std.specs.Prelude.{◌≡◌, ◌++◌, OnOk, OnErr, decimal, []};
ghost use Rattle.dimacs.specs.text.Grammar.{Begins};
ghost use Rattle.hex.specs.Hex.{encode_lower};
ghost use Rattle.receipts.specs.Receipts.{closing_text, lemma_line, receipt_text};
ghost use Rattle.receipts.specs.Contents.{lemma_of, lemmas_in, contents_of};
ghost use Rattle.receipts.specs.inner.Heads.{headed};

use crate::head::Head;
use crate::lemma::ClosingLemma;
use crate::receipt::Receipt;
use hex::encode_to_slice;
use itoa::Buffer;
use lrat_text::{Groups, StepRef, put_ref};
use std::alloc::{AllocError, Global};

/// Appends the bytes `text`.
fn put(out: &mut Vec<u8>, text: &[u8]) -> Result<(), AllocError>
    ensures ok { OnOk result (out.new.items ≡ out.old.items ++ text.now) }
    ensures begins { Begins out.old.items out.new.items }
{
    out.extend_from_slice(text)
}

/// Appends a number in decimal.
fn put_number(out: &mut Vec<u8>, number: u64) -> Result<(), AllocError>
    ensures ok { OnOk result (out.new.items ≡ out.old.items ++ decimal number) }
    ensures begins { Begins out.old.items out.new.items }
{
    let mut buffer = Buffer::new();
    let text = buffer.format(number);
    put(out, text.as_bytes())
}

/// Appends a digest, two hexadecimal digits a byte.
fn put_digest(out: &mut Vec<u8>, digest: &[u8; 32]) -> Result<(), AllocError>
    ensures ok { OnOk result (out.new.items ≡ out.old.items ++ encode_lower digest.now) }
    ensures begins { Begins out.old.items out.new.items }
{
    let mut digits = [0; 64];
    if encode_to_slice(digest, &mut digits).is_err() {
        return Err(AllocError);
    }
    put(out, &digits)
}

/// Appends the five lines of a receipt's head.
fn put_head(out: &mut Vec<u8>, head: &Head) -> Result<(), AllocError>
    ensures ok { OnOk result (out.new.items ≡ out.old.items ++ headed head.now []) }
    ensures begins { Begins out.old.items out.new.items }
{
    put(out, b"satcluster receipt 1\nformula ")?;
    put_digest(out, &head.formula.bytes)?;
    put(out, b"\nlog ")?;
    put_digest(out, &head.log.bytes)?;
    put(out, b"\nlemmas ")?;
    put_number(out, head.lemmas)?;
    put(out, b"\nbytes ")?;
    put_number(out, head.bytes)?;
    put(out, b"\n")
}

/// Appends the line of a lemma: its number and literals, and no hints.
fn put_lemma(out: &mut Vec<u8>, lemma: &ClosingLemma, groups: &Groups) -> Result<(), AllocError>
    requires { groups.now ≡ [] }
    ensures ok { OnOk result (out.new.items ≡ out.old.items ++ lemma_line (lemma_of lemma.now)) }
    ensures begins { Begins out.old.items out.new.items }
{
    let step = StepRef::Add {
        id: lemma.id,
        lits: &lemma.clause,
        hints: &[],
        groups,
    };
    put_ref(step, lemma.id, out)
}

/// Appends the lines of the lemmas, and the last line, `end`.
fn put_closing(out: &mut Vec<u8>, alloc: Global, closing: &[ClosingLemma]) -> Result<(), AllocError>
    ensures ok { OnOk result (out.new.items ≡ out.old.items ++ closing_text (lemmas_in closing.now)) }
    ensures begins { Begins out.old.items out.new.items }
{
    let groups = Groups::new(alloc);
    for lemma in closing {
        put_lemma(out, lemma, &groups)?;
    }
    put(out, b"end\n")
}

/// Appends the text of a receipt. If memory is refused, a prefix of the text may be appended.
fn put_receipt(out: &mut Vec<u8>, alloc: Global, receipt: &Receipt) -> Result<(), AllocError>
    ensures ok { OnOk result (out.new.items ≡ out.old.items ++ receipt_text (contents_of receipt.now)) }
    ensures begins { Begins out.old.items out.new.items }
{
    put_head(out, &receipt.head)?;
    put_closing(out, alloc, &receipt.closing)
}

/// Appends the text of a receipt. If memory is refused, `out` is unchanged.
pub fn write(alloc: Global, receipt: &Receipt, out: &mut Vec<u8>) -> Result<(), AllocError>
    ensures ok { OnOk result (out.new.items ≡ out.old.items ++ receipt_text (contents_of receipt.now)) }
    ensures err { OnErr result (out.new.items ≡ out.old.items) }
{
    let len = out.len();
    let written = put_receipt(out, alloc, receipt);
    if written.is_err() {
        out.truncate(len);
    }
    written
}
