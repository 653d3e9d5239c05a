//! The SHA-256 digest of a formula's text.

ghost use Rattle.std.specs.Prelude.{◌≡◌, ◌++◌, IfOk, codes};
ghost use Rattle.dimacs.specs.text.Grammar.{header_text};
ghost use Rattle.sha2.specs.Hashers.{Holds256};
ghost use Rattle.receipts.specs.Receipts.{formula_digest};

use crate::head::Hash;
use dimacs::{Formula, put_clause};
use itoa::Buffer;
use sha2::{Digest, Sha256};
use std::alloc::{AllocError, Global};

/// A hasher (SHA-256) that has taken the header line of a formula's DIMACS text.
fn header_of(formula: &Formula) -> Sha256
    ensures { Holds256 result (header_text formula.now ++ codes "\n") }
{
    let mut hasher = Sha256::new();
    let mut buffer = Buffer::new();
    hasher.update(b"p cnf ".as_slice());
    hasher.update(buffer.format(formula.vars()).as_bytes());
    hasher.update(b" ".as_slice());
    hasher.update(buffer.format(formula.len()).as_bytes());
    hasher.update(b"\n".as_slice());
    hasher
}

/// Hashes the DIMACS text that is written for a formula (SHA-256). One line of the text is in memory at a time.
pub(crate) fn digest_of_formula(alloc: Global, formula: &Formula) -> Result<Hash, AllocError>
    ensures { IfOk result (λ d. d.bytes ≡ formula_digest formula.now) }
{
    let mut hasher = header_of(formula);
    let mut line = Vec::new(alloc);
    for i in 0..formula.len() {
        line.clear();
        put_clause(&mut line, formula.clause(i))?;
        hasher.update(line.as_slice());
    }
    let bytes = hasher.finalize();
    Ok(Hash { bytes })
}
