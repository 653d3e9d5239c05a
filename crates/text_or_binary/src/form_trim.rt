//! Checks and trims a proof in text or binary form.

ghost use Rattle.std.specs.Prelude.{◌≡◌, ◌++◌, ℕ, List, [], false, true, Err, IfOk};
ghost use Rattle.dimacs.specs.logic.Cnf.{Cnf};
ghost use Rattle.text_or_binary.specs.FormTrim.{HasTakenForm};
ghost use Rattle.lrat_check.specs.ProofFaults.{no_memory};
ghost use Rattle.lrat_check.specs.Stream.{answer_in};
ghost use Rattle.lrat_forms.specs.Forms.{is_binary, text_form_within};
ghost use Rattle.lrat_forms.specs.Pieces.{is_cut};
ghost use Rattle.lrat_text.specs.Proof.{proof_top};
ghost use Rattle.lrat_trim.specs.TrimmedProof.{Trims};

use dimacs::Formula;
use lrat_check::CheckFault;
use lrat_forms::TextForm;
use lrat_text::proof_top;
use lrat_trim::{Trimmed, Trimmer};
use std::alloc::{AllocError, Global};

/// A trimming of a proof that comes in pieces, in LRAT text or in binary form. The trimmed proof is text.
pub struct FormTrimming {
    /// The converter of the proof to its text form.
    pub(crate) form: TextForm,
    /// The trimming of the text form.
    pub(crate) trimming: Trimmer,
}

impl Drop for FormTrimming {
    fn drop(self) {
        let FormTrimming {
            form: _,
            trimming: _,
        } = self;
    }
}

impl FormTrimming {
    /// A trimming of a proof of the formula that has taken no byte. It errs if memory runs out.
    pub fn new(alloc: Global, formula: Formula) -> Result<FormTrimming, AllocError>
        ensures { IfOk result (λ t. HasTakenForm formula t []) }
    {
        let most = proof_top(&formula);
        Ok(FormTrimming {
            form: TextForm::within(alloc, most),
            trimming: Trimmer::new(alloc, formula)?,
        })
    }

    /// Takes the next piece of the proof. The error is the first fault of the lines or steps that are whole by now; later calls answer it
    /// again.
    pub fn feed(&mut self, piece: &[u8]) -> Result<(), CheckFault>
        ensures answers { is_cut self.new.form.stage ≡ false → result ≡ answer_in self.new.trimming.progress }
        ensures wanting { is_cut self.new.form.stage ≡ true → result ≡ Err no_memory }
        ensures taken { (F : Cnf) (bytes : List ℕ) → HasTakenForm F self.old bytes → HasTakenForm F self.new (bytes ++ piece.now) }
    {
        self.form.feed(piece);
        let answer = self.trimming.feed(self.form.given(piece));
        if self.form.is_cut() {
            return Err(CheckFault::from(AllocError));
        }
        answer
    }

    /// Whether the proof is in binary form, so that its fault is that of a step and not of a line. If memory was refused it is not known.
    pub fn is_binary(&self) -> bool
        ensures { (F : Cnf) (bytes : List ℕ) → HasTakenForm F self.now bytes → is_cut self.now.form.stage ≡ false → result ≡ is_binary bytes }
    {
        self.form.is_binary()
    }

    /// Ends the proof: answers the proof without the lines that its empty clause does not need; it errs with the first fault of a proof
    /// that is not accepted.
    pub fn finish(self) -> Result<Trimmed, CheckFault>
        ensures trims { (F : Cnf) (proof : List ℕ) → HasTakenForm F self proof → Trims F (text_form_within (proof_top F) proof) result }
        ensures wanting { is_cut self.form.stage ≡ true → result ≡ Err no_memory }
    {
        let FormTrimming { form, mut trimming } = self;
        if form.is_cut() {
            return Err(CheckFault::from(AllocError));
        }
        // `finish` answers a fault again.
        let _ = trimming.feed(form.rest());
        trimming.finish()
    }
}
