//! Lifts another solver's proof of the formula of a leaf, in text or binary form, to a log over the whole formula.

ghost use Rattle.std.specs.Prelude.{◌≡◌, ◌⊎◌, ◌++◌, ℕ, List, [], false, true, Err, IfOk, IfErr};
ghost use Rattle.dimacs.specs.logic.Cnf.{Cnf};
ghost use Rattle.text_or_binary.specs.FormLift.{BeginsFormLeaf, HasTakenFormProof};
ghost use Rattle.icnf.specs.Leaves.{Cube};
ghost use Rattle.leaves.specs.Leaf.{leaf_of};
ghost use Rattle.leaves.specs.LeafLift.{EndsLifted};
ghost use Rattle.lrat_check.specs.ProofFaults.{no_memory};
ghost use Rattle.lrat_forms.specs.Forms.{is_binary, text_form_within};
ghost use Rattle.lrat_forms.specs.Pieces.{is_cut};
ghost use Rattle.lrat_text.specs.Log.{Closes, log_top};
ghost use Rattle.proof_lift.specs.Leaves.{IsRefutation};
ghost use Rattle.proof_lift.specs.Stream.{IsFaultOf};

use leaves::{Lift, Split};
use lrat_check::CheckFault;
use lrat_forms::TextForm;
use lrat_text::log_top;
use std::alloc::{AllocError, Global};

/// Lifts a proof of the formula of a leaf to a log over the formula that closes the leaf, as `leaves::Lift` does. The proof may have either
/// form.
///
/// The bytes of the log are handed out as they come. They are of use only if `finish` answers `Ok`.
pub struct FormLift {
    /// The converter of the proof to its text form.
    pub(crate) form: TextForm,
    /// The lift of the text form.
    pub(crate) lift: Lift,
}

impl Drop for FormLift {
    fn drop(self) {
        let FormLift { form: _, lift: _ } = self;
    }
}

impl FormLift {
    /// A lift of a proof of the formula of the leaf of this number (from 1) that has taken no byte; `None` if there is no such leaf. It
    /// errs if memory runs out.
    pub fn of(alloc: Global, split: Split, leaf: u64) -> Result<Option<FormLift>, AllocError>
        ensures { IfOk result (BeginsFormLeaf split.formula split.tree leaf) }
    {
        let most = log_top(split.formula().as_base());
        match Lift::of(alloc, split, leaf)? {
            Some(lift) => Ok(Some(FormLift {
                form: TextForm::within(alloc, most),
                lift,
            })),
            None => Ok(None),
        }
    }

    /// Takes the next piece of the proof. A fault is kept for `finish`.
    pub fn feed(&mut self, piece: &[u8])
        ensures { (F : Cnf) (q : Cube) (bytes handed : List ℕ) → HasTakenFormProof F q bytes handed self.old → HasTakenFormProof F q (bytes ++ piece.now) handed self.new }
    {
        self.form.feed(piece);
        self.lift.feed(self.form.given(piece));
    }

    /// Lends the bytes of the log that were written since the last call of `forget`.
    pub fn written(&self) -> &[u8]
        ensures { result.now ≡ self.now.lift.out.items }
    {
        self.lift.written()
    }

    /// Drops the bytes that `written` lends, after the caller has stored them.
    pub fn forget(&mut self)
        ensures stands { (F : Cnf) (q : Cube) (bytes handed : List ℕ) → HasTakenFormProof F q bytes handed self.old → HasTakenFormProof F q bytes (handed ++ self.old.lift.out.items) self.new }
        ensures out { self.new.lift.out.items ≡ [] }
    {
        self.lift.forget();
    }

    /// Whether the proof is in binary form, so that its fault is that of a step and not of a line. If memory was refused it is not known.
    pub fn is_binary(&self) -> bool
        ensures { (F : Cnf) (q : Cube) (bytes handed : List ℕ) → HasTakenFormProof F q bytes handed self.now → is_cut self.now.form.stage ≡ false → result ≡ is_binary bytes }
    {
        self.form.is_binary()
    }

    /// Ends the proof: answers the bytes of the log that are not handed out yet, or the first fault of the proof, as an error.
    pub fn finish(self) -> Result<Vec<u8>, CheckFault>
        // Whatever came in, the bytes handed out and those that are left are a log over the formula that closes the leaf.
        ensures closes { IfOk result (λ rest. (F : Cnf) (q : Cube) (bytes handed : List ℕ) → HasTakenFormProof F q bytes handed self → Closes F q (handed ++ rest.items)) }
        // A refutation of the leaf's formula by reverse unit propagation alone is refused only if memory is refused.
        ensures complete { (F : Cnf) (q : Cube) (bytes handed : List ℕ) → HasTakenFormProof F q bytes handed self → IsRefutation (leaf_of q F) (text_form_within (log_top F) bytes) → EndsLifted result }
        // The fault is the first one of the proof's text form, with its line; the line is the step of a binary proof.
        ensures exact { IfErr result (λ fault. (F : Cnf) (q : Cube) (bytes handed : List ℕ) → HasTakenFormProof F q bytes handed self → (fault ≡ no_memory) ⊎ IsFaultOf F q (text_form_within (log_top F) bytes) fault) }
        ensures wanting { is_cut self.form.stage ≡ true → result ≡ Err no_memory }
    {
        let FormLift { form, mut lift } = self;
        if form.is_cut() {
            return Err(CheckFault::from(AllocError));
        }
        lift.feed(form.rest());
        lift.finish()
    }
}
