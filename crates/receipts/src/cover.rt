//! A cover: which leaves of a tree are closed by receipts. The receipts come as texts, one after the other.

ghost use Rattle.std.specs.Prelude.{◌≡◌, ◌≢◌, ◌↔◌, ℕ, ◌∷◌, ◌++◌, ◌||◌, List, [], true, map, IfOk, OnOk};
ghost use Rattle.dimacs.specs.logic.Cnf.{Cnf, AreWithin};
ghost use Rattle.dimacs.specs.logic.Literal.{Clause};
ghost use Rattle.log_join.specs.ClosedLeaves.{Leaf, open_from};
ghost use Rattle.icnf.specs.Leaves.{Cube};
ghost use Rattle.receipts.specs.ClosedLeaves.{AreCovered, LeavesClosedByTexts, ClassifiesText, closing_of};
ghost use Rattle.receipts.specs.Receipts.{SpellsReceipt, ReceiptContents};
ghost use Rattle.receipts.specs.Contents.{lemmas_in, contents_of};
ghost use Rattle.receipts.specs.Coverage.{HasTakenClauses};
ghost use Rattle.receipts.specs.inner.NonEmpty.{is_some_lemma};
ghost use Rattle.receipts.specs.Cover.{HasTakenTexts};

use crate::coverage::Coverage;
use crate::fault::{CoverFault, ReceiptFault};
use crate::formula_hash::digest_of_formula;
use crate::head::Hash;
use crate::lemma::ClosingLemma;
use crate::receipt::Receipt;
use crate::receipt_reader::read;
use dimacs::Formula;
use icnf::Tree;
use std::alloc::{AllocError, Global};

/// What a text is that was handed to `Cover::take`.
#[derive(Clone, Copy, Debug, PartialEq, Eq)]
pub enum TextKind {
    /// A receipt over the formula that closes a leaf which no text before it closes.
    Closes,
    /// A receipt over the formula that closes no leaf which was open before.
    ClosesNothing,
    /// A receipt over another formula.
    OtherFormula,
    /// No receipt: this line, from 1, is not one of a receipt, or the text ends in this line. No contract speaks of the line's number.
    Refused { line: u64 },
}

/// The leaves of a tree that are closed by the receipts over a formula, among the texts taken so far.
pub struct Cover {
    pub(crate) alloc: Global,
    /// The digest of the formula's text.
    pub(crate) formula: Hash,
    /// The leaves that the lemmas of the receipts close.
    pub(crate) coverage: Coverage,
}

impl Drop for Cover {
    fn drop(self) {
        let Cover {
            alloc: _,
            formula: _,
            coverage: _,
        } = self;
    }
}

/// Answers `Refused` for a text that is no receipt; Err if memory was refused.
fn unread_kind(fault: ReceiptFault) -> Result<TextKind, CoverFault>
    ensures { IfOk result (λ taken. (fault ≢ ReceiptFault.NoMemory)
        × ((F : Cnf) (cubes : List Cube) (texts : List (List ℕ)) (text : List ℕ) → ((r : ReceiptContents) → ¬ (SpellsReceipt text r)) → ClassifiesText F cubes texts text taken)) }
{
    match fault {
        ReceiptFault::Line(line) => Ok(TextKind::Refused { line }),
        ReceiptFault::NoMemory => Err(CoverFault::NoMemory),
    }
}

/// Answers whether at least one of the two holds. Unlike `||`, it evaluates both arguments, so that
/// each lemma is taken.
fn either(one: bool, other: bool) -> bool
    ensures { result ≡ (one || other) }
{
    one || other
}

/// Hands the lemmas of a receipt to the coverage. Answers whether one of them closes a leaf that no clause before it closes.
fn take_all(coverage: &mut Coverage, lemmas: &[ClosingLemma]) -> Result<bool, CoverFault>
    ensures covers { OnOk result ((cubes : List Cube) (clauses : List Clause) → HasTakenClauses cubes clauses coverage.old
        → HasTakenClauses cubes (clauses ++ map (λ l. l.clause) (lemmas_in lemmas.now)) coverage.new) }
    ensures told { IfOk result (λ b. (cubes : List Cube) (clauses : List Clause) → HasTakenClauses cubes clauses coverage.old
        → b ≡ is_some_lemma (closing_of cubes clauses (lemmas_in lemmas.now))) }
{
    let mut closes = false;
    for lemma in lemmas {
        let closed = coverage.add(&lemma.clause)?;
        closes = either(closes, closed);
    }
    Ok(closes)
}

impl Cover {
    /// A cover that has taken no text: each leaf of the tree is open.
    pub fn of(alloc: Global, formula: &Formula, tree: &Tree) -> Result<Cover, AllocError>
        requires { AreWithin 2000000 tree.now }
        ensures { IfOk result (HasTakenTexts formula.now tree.now []) }
    {
        Ok(Cover {
            alloc,
            formula: digest_of_formula(alloc, formula)?,
            coverage: Coverage::of(alloc, tree)?,
        })
    }

    /// Takes a receipt that was read from a text, and answers what the text is: `Closes`, `ClosesNothing` or `OtherFormula`.
    fn take_receipt(&mut self, receipt: &Receipt) -> Result<TextKind, CoverFault>
        ensures holds { OnOk result ((F : Cnf) (cubes : List Cube) (texts : List (List ℕ)) (text : List ℕ) → HasTakenTexts F cubes texts self.old
            → SpellsReceipt text (contents_of receipt.now) → ((r : ReceiptContents) → SpellsReceipt text r → contents_of receipt.now ≡ r) → HasTakenTexts F cubes (texts ++ text ∷ []) self.new) }
        ensures tells { IfOk result (λ taken. (F : Cnf) (cubes : List Cube) (texts : List (List ℕ)) (text : List ℕ) → HasTakenTexts F cubes texts self.old
            → SpellsReceipt text (contents_of receipt.now) → ((r : ReceiptContents) → SpellsReceipt text r → contents_of receipt.now ≡ r) → ClassifiesText F cubes texts text taken) }
    {
        if !receipt.head.formula.is(&self.formula) {
            return Ok(TextKind::OtherFormula);
        }
        let closes = take_all(&mut self.coverage, &receipt.closing)?;
        if closes {
            return Ok(TextKind::Closes);
        }
        Ok(TextKind::ClosesNothing)
    }

    /// Reads a text, takes its receipt, and answers what the text is. After an Err the cover is of no use.
    pub fn take(&mut self, text: &[u8]) -> Result<TextKind, CoverFault>
        ensures holds { OnOk result ((F : Cnf) (cubes : List Cube) (texts : List (List ℕ)) → HasTakenTexts F cubes texts self.old → HasTakenTexts F cubes (texts ++ text.now ∷ []) self.new) }
        ensures tells { IfOk result (λ taken. (F : Cnf) (cubes : List Cube) (texts : List (List ℕ)) → HasTakenTexts F cubes texts self.old → ClassifiesText F cubes texts text.now taken) }
    {
        match read(self.alloc, text) {
            Ok(receipt) => self.take_receipt(&receipt),
            Err(fault) => unread_kind(fault),
        }
    }

    /// Answers whether every leaf is closed.
    pub fn is_complete(&self) -> bool
        ensures { (F : Cnf) (cubes : List Cube) (texts : List (List ℕ)) → HasTakenTexts F cubes texts self.now → (result ≡ true) ↔ AreCovered F cubes texts }
    {
        self.coverage.joiner.is_complete()
    }

    /// The indices, from 0 and rising, of the leaves that no text closes.
    pub fn missing(&self) -> Result<Vec<usize>, AllocError>
        ensures { IfOk result (λ places. (F : Cnf) (cubes : List Cube) (texts : List (List ℕ)) → HasTakenTexts F cubes texts self.now
            → (leaves : List Leaf) × LeavesClosedByTexts F cubes texts leaves × (places.items ≡ open_from 0 leaves)) }
    {
        self.coverage.joiner.missing()
    }
}
