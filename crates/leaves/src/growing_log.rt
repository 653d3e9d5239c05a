//! The file of a log that grows while a block of leaves is searched.

ghost use Rattle.std.specs.Prelude.{◌∷◌, ◌++◌, ℕ, List, [], IfErr, OnErr, OnOk};
ghost use Rattle.dimacs.specs.text.Grammar.{Begins};
ghost use Rattle.leaves.specs.GrowingLog.{GoesOn, IsNotKept, Standing, standing};

use packed_text::PackedText;
use reports::Refusal;

/// Where a log is kept, and its leaves are told, while it grows. Only an implementation states what the operating system does, by the ghost
/// relations.
pub trait GrowingLog {
    // `stood kept standings`: after each leaf that was kept, in order, the file had the bytes of its standing, and its text was told
    ghost stood: { Self → List Standing → Type 0 } = { λ _ _. Unit {0} };
    // `cut kept standings bytes`: after these the next leaf was not kept whole, and the file has these bytes
    ghost cut: { Self → List Standing → List ℕ → Type 0 } = { λ _ _ _. Unit {0} };

    /// Appends to the file what it does not have of `log`, which begins with the file's bytes, and then tells what was not told of `told`,
    /// which begins with what was. An error says that not all of that was done, and that the file has a prefix of the log.
    fn keep_leaf(&mut self, log: &PackedText, told: &[u8]) -> Result<(), Refusal>
        ensures stands { OnOk result ((before : List Standing) → stood self.old before → GoesOn before log.now told.now → stood self.new (before ++ standing log.now told.now ∷ [])) }
        ensures front { OnErr result ((before : List Standing) → stood self.old before → GoesOn before log.now told.now → (front : List ℕ) × Begins front log.now × cut self.new before front) }
        ensures refused { IfErr result IsNotKept };
}
