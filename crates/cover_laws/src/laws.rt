//! The law, as the contract of a function that does nothing.

ghost use Rattle.std.specs.Prelude.{◌≡◌, ℕ, List, Contains, map};
ghost use Rattle.dimacs.specs.logic.Cnf.{Cnf};
ghost use Rattle.icnf.specs.Leaves.{Cube};
ghost use Rattle.leaves.specs.Join.{AreClosed};
ghost use Rattle.lrat_forms.specs.Forms.{text_form_within};
ghost use Rattle.lrat_text.specs.Log.{log_top};
ghost use Rattle.receipts.specs.ClosedLeaves.{AreCovered};
ghost use Rattle.receipts.specs.Receipts.{ReceiptContents, SpellsReceipt, formula_digest};
ghost use Rattle.receipts.specs.LogReceipt.{IsReceiptOf};

/// If texts cover the leaves of a tree, as `cover` says, and each receipt over the formula among them is the receipt of one of some files,
/// for whatever tree, then every leaf is closed by one of these files. So `join` of these files over that tree prints that the formula is
/// unsatisfiable, if it can read them.
pub fn covered_leaves_are_joined()
    ensures { (F : Cnf) (cubes : List Cube) (texts files : List (List ℕ)) → AreCovered F cubes texts
        → ((text : List ℕ) (r : ReceiptContents) → Contains texts text → SpellsReceipt text r → r.formula ≡ formula_digest F
        → (file : List ℕ) × (tree : List Cube) × Contains files file × IsReceiptOf F tree file r)
        → AreClosed F cubes (map (text_form_within (log_top F)) files) }
{}
