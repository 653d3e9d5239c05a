//! Checks a log, and makes its receipt.

ghost use Rattle.std.specs.Prelude.{◌≡◌, ℕ, ◌+◌, ◌-◌, ◌∷◌, ◌++◌, List, [], All, Err, IfOk, IfErr, OnOk, is_some};
ghost use Rattle.std.specs.FinMap.{get};
ghost use Rattle.dimacs.specs.logic.Cnf.{Cnf, AreWithin};
ghost use Rattle.icnf.specs.Leaves.{Cube};
ghost use Rattle.dimacs.specs.logic.Literal.{IsWithin};
ghost use Rattle.log_join.specs.ClosedLeaves.{Numbered};
ghost use Rattle.log_join.specs.JoinedLogs.{live_from, with_live};
ghost use Rattle.lrat_text.specs.Grammar.{IsClauseNumber};
ghost use Rattle.receipts.specs.ClosedLeaves.{closing_of};
ghost use Rattle.receipts.specs.Coverage.{HasTakenClauses};
ghost use Rattle.receipts.specs.inner.KeptLemmas.{HasTakenLemmas};
ghost use Rattle.lrat_check.specs.Logs.{log_of};
ghost use Rattle.receipts.specs.LogReceipt.{ClosesNone, HasLogFault, HasReadLog, IsReceiptOf, IsLogSoFar};
ghost use Rattle.receipts.specs.Contents.{lemma_of, lemmas_in, contents_of};

use crate::coverage::Coverage;
use crate::fault::{BuildFault, CoverFault};
use crate::formula_hash::digest_of_formula;
use crate::head::{Hash, Head};
use crate::lemma::ClosingLemma;
use crate::receipt::Receipt;
use dimacs::{Formula, Lit};
use icnf::Tree;
use lrat_check::{CheckFault, LogChecker};
use lrat_text::LineBuffer;
use sha2::{Digest, Sha256};
use std::alloc::{AllocError, Global};

/// Checks a log over a formula and hashes its bytes in one pass. The log comes piece by piece; `finish` makes the receipt.
pub struct ReceiptBuilder {
    pub(crate) alloc: Global,
    /// The digest of the formula's text.
    pub(crate) formula: Hash,
    /// Checks the log's lines, and knows its live lemmas.
    pub(crate) checker: LogChecker,
    /// The bytes after the last LF: the line that has not ended.
    pub(crate) begun: LineBuffer,
    /// Hashes the log's bytes.
    pub(crate) hasher: Sha256,
    /// How many bytes of the log were read, up to 2^64 - 1.
    pub(crate) bytes: u64,
    /// The first fault of the log, if one is found.
    pub(crate) fault: Option<CheckFault>,
    /// The leaves of the tree. It takes no clause before `finish`.
    pub(crate) coverage: Coverage,
}

impl Drop for ReceiptBuilder {
    fn drop(self) {
        let ReceiptBuilder {
            alloc: _,
            formula: _,
            checker: _,
            begun: _,
            hasher: _,
            bytes: _,
            fault: _,
            coverage: _,
        } = self;
    }
}

/// Makes the entry of a closing lemma: its number, and a copy of its clause.
fn lemma(alloc: Global, id: u64, clause: &[Lit]) -> Result<ClosingLemma, AllocError>
    requires numbered { IsClauseNumber id }
    requires small { All (IsWithin 2000000) clause.now }
    ensures { IfOk result (λ l. lemma_of l ≡ record { id = id; clause = clause.now }) }
{
    let clause = Vec::from_slice(alloc, clause)?;
    Ok(ClosingLemma { id, clause })
}

/// Answers `NoMemory` if the coverage has refused a lemma. `TooMany`, 2^48 clauses, does not fit
/// into memory either.
fn build_fault(_fault: CoverFault) -> BuildFault
    ensures { result ≡ BuildFault.NoMemory }
{
    BuildFault::NoMemory
}

/// Hands a lemma to the coverage, and appends it to `closing` if it closes a leaf that no lemma before it closes.
fn take_clause(
    alloc: Global,
    number: u64,
    clause: &[Lit],
    coverage: &mut Coverage,
    closing: &mut Vec<ClosingLemma>,
) -> Result<(), BuildFault>
    requires { IsClauseNumber number }
    ensures memory { IfErr result (λ fault. fault ≡ BuildFault.NoMemory) }
    ensures handed { OnOk result ((cubes : List Cube) (lemmas : List Numbered) → HasTakenLemmas cubes lemmas coverage.old closing.old.items
        → HasTakenLemmas cubes (lemmas ++ record { id = number; clause = clause.now } ∷ []) coverage.new closing.new.items) }
{
    let closes = match coverage.add(clause) {
        Ok(closes) => closes,
        Err(fault) => return Err(build_fault(fault)),
    };
    if !closes {
        return Ok(());
    }
    let lemma = lemma(alloc, number, clause)?;
    closing.push(lemma)?;
    Ok(())
}

/// Hands the lemma of this number to the coverage if it is live, and appends it to `closing` if it closes a leaf that no lemma before it
/// closes.
fn take_lemma(
    alloc: Global,
    checker: &LogChecker,
    number: u64,
    coverage: &mut Coverage,
    closing: &mut Vec<ClosingLemma>,
) -> Result<(), BuildFault>
    requires { IsClauseNumber number }
    ensures memory { IfErr result (λ fault. fault ≡ BuildFault.NoMemory) }
    ensures handed { OnOk result ((cubes : List Cube) (lemmas : List Numbered) → HasTakenLemmas cubes lemmas coverage.old closing.old.items
        → HasTakenLemmas cubes (lemmas ++ with_live number (get checker.now.live number) []) coverage.new closing.new.items) }
{
    match checker.clause(number) {
        Some(clause) => take_clause(alloc, number, clause, coverage, closing),
        None => Ok(()),
    }
}

/// The live lemmas of a log, by rising numbers, that each close a leaf which no live lemma before it closes.
fn closing_in_log(
    alloc: Global,
    checker: &LogChecker,
    coverage: &mut Coverage,
) -> Result<Vec<ClosingLemma>, BuildFault>
    ensures memory { IfErr result (λ fault. fault ≡ BuildFault.NoMemory) }
    ensures found { IfOk result (λ found. (cubes : List Cube) → HasTakenClauses cubes [] coverage.old
        → lemmas_in found.items ≡ closing_of cubes [] (live_from (λ n. n) checker.now.live (checker.now.base + 1) (checker.now.top - checker.now.base))) }
{
    let mut closing = Vec::new(alloc);
    for number in checker.base() + 1..checker.top() + 1 {
        take_lemma(alloc, checker, number, coverage, &mut closing)?;
    }
    Ok(closing)
}

impl ReceiptBuilder {
    /// A builder that has read no byte of the log.
    pub fn of(alloc: Global, formula: &Formula, tree: &Tree) -> Result<ReceiptBuilder, AllocError>
        requires { AreWithin 2000000 tree.now }
        ensures { IfOk result (HasReadLog formula.now tree.now []) }
    {
        Ok(ReceiptBuilder {
            alloc,
            formula: digest_of_formula(alloc, formula)?,
            checker: LogChecker::of(alloc, formula.copy()?)?,
            begun: LineBuffer::new(alloc),
            hasher: Sha256::new(),
            bytes: 0,
            fault: None,
            coverage: Coverage::of(alloc, tree)?,
        })
    }

    /// Checks the lines that are complete with a piece, and hashes its bytes. Err is the log's
    /// first fault, or memory was refused.
    fn read(&mut self, piece: &[u8]) -> Result<(), CheckFault>
        ensures reads { OnOk result ((F : Cnf) (bytes : List ℕ) → IsLogSoFar F bytes self.old → IsLogSoFar F (bytes ++ piece.now) self.new) }
        ensures met { IfErr result (λ fault. (F : Cnf) (bytes : List ℕ) → IsLogSoFar F bytes self.old → HasLogFault F (bytes ++ piece.now) fault) }
        ensures formula { self.new.formula ≡ self.old.formula }
        ensures fault { self.new.fault ≡ self.old.fault }
        ensures coverage { self.new.coverage ≡ self.old.coverage }
    {
        match self.begun.feed(piece, &mut self.checker) {
            Ok(()) => {}
            Err(fault) => return Err(CheckFault::of_piece(fault)),
        }
        self.hasher.update(piece);
        self.bytes = self.bytes.saturating_add(piece.len() as u64);
        Ok(())
    }

    /// Reads the next piece of the log. A fault is kept for `finish`.
    pub fn feed(&mut self, piece: &[u8])
        ensures { (F : Cnf) (cubes : List Cube) (bytes : List ℕ) → HasReadLog F cubes bytes self.old → HasReadLog F cubes (bytes ++ piece.now) self.new }
    {
        if self.fault.is_some() {
            return;
        }
        match self.read(piece) {
            Ok(()) => {}
            Err(fault) => self.fault = Some(fault),
        }
    }

    /// Answers whether the log has a fault, so that no further byte changes anything.
    pub fn is_settled(&self) -> bool
        ensures { result ≡ is_some self.now.fault }
    {
        self.fault.is_some()
    }

    /// Ends the log, and answers its receipt. Err if the log has a fault, closes no leaf, or memory is refused.
    pub fn finish(self) -> Result<Receipt, BuildFault>
        ensures receipt { IfOk result (λ r. (F : Cnf) (cubes : List Cube) (bytes : List ℕ) → HasReadLog F cubes bytes self → IsReceiptOf F cubes bytes (contents_of r)) }
        ensures fault { (fault : CheckFault) → result ≡ Err (BuildFault.Log fault) → (F : Cnf) (cubes : List Cube) (bytes : List ℕ) → HasReadLog F cubes bytes self → (log_of F bytes ≡ Err fault) }
        ensures none { result ≡ Err BuildFault.ClosesNothing → (F : Cnf) (cubes : List Cube) (bytes : List ℕ) → HasReadLog F cubes bytes self → ClosesNone F cubes bytes }
    {
        let ReceiptBuilder {
            alloc,
            formula,
            checker,
            begun,
            hasher,
            bytes,
            fault,
            mut coverage,
        } = self;
        if let Some(fault) = fault {
            return Err(BuildFault::of_check(fault));
        }
        match checker.end(begun.as_slice()) {
            Ok(()) => {}
            Err(fault) => return Err(BuildFault::of_check(fault)),
        }
        let closing = closing_in_log(alloc, &checker, &mut coverage)?;
        if closing.is_empty() {
            return Err(BuildFault::ClosesNothing);
        }
        let digest = hasher.finalize();
        let head = Head {
            formula,
            log: Hash { bytes: digest },
            lemmas: checker.top() - checker.base(),
            bytes,
        };
        Ok(Receipt { head, closing })
    }
}
