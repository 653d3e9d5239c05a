//! Theorems on receipts, as contracts of functions that do nothing.

ghost use Rattle.std.specs.Prelude.{◌≡◌, ℕ, List, Contains, IsTrue};
ghost use Rattle.dimacs.specs.logic.Cnf.{Cnf};
ghost use Rattle.log_join.specs.ClosedLeaves.{Numbered};
ghost use Rattle.icnf.specs.Leaves.{Cube};
ghost use Rattle.receipts.specs.ClosedLeaves.{AreCovered, CoveringRefutes, Follows};
ghost use Rattle.receipts.specs.Receipts.{ReceiptContents, formula_digest, SpellsReceipt};
ghost use Rattle.receipts.specs.LogReceipt.{IsClosedByLog, IsReceiptOf};

/// Does nothing. Its contract says: if clauses follow from a formula, and every leaf of a tree is closed by one of them, no assignment
/// satisfies the formula.
pub fn covering_refutes()
    ensures { CoveringRefutes }
{}

/// Does nothing. Its contract says: the lemmas that a receipt of a log names follow from the formula.
pub fn told_lemmas_follow()
    ensures { (F : Cnf) (cubes : List Cube) (log : List ℕ) (r : ReceiptContents) → IsReceiptOf F cubes log r → (l : Numbered) → Contains r.closing l → Follows F l.clause }
{}

/// Does nothing. Its contract says: if texts cover the leaves of a tree, and each receipt over the formula among them is the receipt of one
/// of some files, for whatever tree, then every leaf is closed by one of these files, as a log over the formula.
pub fn covered_leaves_are_closed()
    ensures { (F : Cnf) (cubes : List Cube) (texts files : List (List ℕ)) → AreCovered F cubes texts
        → ((text : List ℕ) (r : ReceiptContents) → Contains texts text → SpellsReceipt text r → r.formula ≡ formula_digest F
        → (file : List ℕ) × (tree : List Cube) × Contains files file × IsReceiptOf F tree file r)
        → (q : Cube) → Contains cubes q → IsClosedByLog F files q }
{}
