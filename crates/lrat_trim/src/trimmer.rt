//! Checks a proof, trims it, and checks the result.

ghost use Rattle.std.specs.Prelude.{◌≡◌, ◌⊎◌, ◌++◌, [], ℕ, List, Ok, Err, IfOk, IfErr, OnOk};
ghost use Rattle.dimacs.specs.logic.Cnf.{Cnf};
ghost use Rattle.lrat_text.specs.Proof.{Accepts};
ghost use Rattle.lrat_check.specs.ProofFaults.{check_of, no_memory};
ghost use Rattle.lrat_check.specs.Stream.{answer_in};
ghost use Rattle.lrat_trim.specs.TrimmedProof.{HasTaken, IsTrimmed, Trims};

use crate::lemma_count::count_lemmas;
use crate::recheck::is_accepted;
use crate::shortened_proof::shortened;
use dimacs::Formula;
use lrat_check::{CheckFault, StreamChecker, proof_fault_is_exact};
use packed_text::PackedText;
use std::alloc::{AllocError, Global};
use std::marker::Model;

/// A trimmed proof: without the lemmas that its empty clause does not need.
#[derive(Drop)]
pub struct Trimmed {
    /// The text of the trimmed proof, which is accepted.
    pub text: PackedText,
    /// The number of lemmas of the trimmed proof.
    pub kept: u64,
    /// The number of lemmas of the original proof.
    pub all: u64,
}

/// Trims an accepted proof, and checks the result; if that is refused, the proof is returned as it came.
fn trim_accepted(alloc: Global, formula: Formula, proof: PackedText) -> Result<Trimmed, AllocError>
    ensures { IfOk result (λ t. Accepts formula proof → IsTrimmed formula proof t) }
{
    let _ = formula.vars(); // its contract says that the formula is within its limits
    let all = count_lemmas(alloc, &proof)?;
    if let Some(text) = shortened(alloc, formula.len() as u64, &proof)? {
        let kept = count_lemmas(alloc, &text)?;
        if kept <= all && is_accepted(alloc, formula, &text)? {
            return Ok(Trimmed { text, kept, all });
        }
    }
    Ok(Trimmed {
        text: proof,
        kept: all,
        all,
    })
}

/// Trims a proof that comes in pieces. It checks each piece as it comes, and keeps the text packed, in half its size.
pub struct Trimmer {
    alloc: Global,
    formula: Formula,
    checker: StreamChecker,
    text: PackedText,
    /// Whether memory was refused for a piece.
    is_cut: bool,
}

impl Drop for Trimmer {
    fn drop(self) {
        let Trimmer {
            alloc: _,
            formula: _,
            checker: _,
            text: _,
            is_cut: _,
        } = self;
    }
}

impl Model for Trimmer {
    ghost use Rattle.std.specs.Coded.{codes};
    ghost use Rattle.dimacs.specs.inner.Codes.{clause_map_code};
    ghost use Rattle.lrat_trim.specs.TrimmedProof.{TrimProgress, progress_of};

    ghost Value = { TrimProgress };

    ghost coded = { Prim.hlevel (codes, clause_map_code) };

    ghost view = { λ t. record { formula = t.formula; text = t.text; progress = progress_of t.is_cut t.checker } };
}

impl Trimmer {
    /// Makes a trimmer that has taken no byte of a proof of the formula.
    pub fn new(alloc: Global, formula: Formula) -> Result<Trimmer, AllocError>
        ensures { IfOk result (λ t. HasTaken formula t []) }
    {
        let checker = StreamChecker::new(alloc, &formula)?;
        Ok(Trimmer {
            alloc,
            formula,
            checker,
            text: PackedText::new(alloc),
            is_cut: false,
        })
    }

    /// Takes the next piece, or returns the first fault of the lines that are complete by now. After a fault each call returns that fault.
    pub fn feed(&mut self, piece: &[u8]) -> Result<(), CheckFault>
        ensures answers { result ≡ answer_in self.new.progress }
        ensures taken { (F : Cnf) (bytes : List ℕ) → HasTaken F self.old bytes → HasTaken F self.new (bytes ++ piece.now) }
    {
        if self.is_cut {
            return Err(CheckFault::from(AllocError));
        }
        self.checker.feed(piece)?;
        match self.text.extend(piece) {
            Ok(()) => Ok(()),
            Err(error) => {
                self.is_cut = true;
                Err(CheckFault::from(error))
            }
        }
    }

    /// Returns the trimmed proof, if no further byte comes; or the first fault of a proof that is not accepted.
    pub fn finish(self) -> Result<Trimmed, CheckFault>
        ensures { (F : Cnf) (proof : List ℕ) → HasTaken F self proof → Trims F proof result }
    {
        if self.is_cut {
            return Err(CheckFault::from(AllocError));
        }
        self.checker.finish()?;
        let Trimmer {
            alloc,
            formula,
            checker,
            text,
            is_cut: _,
        } = self;
        // Freed before the tables of trimming are allocated.
        drop(checker);
        proof_fault_is_exact();
        Ok(trim_accepted(alloc, formula, text)?)
    }
}

/// Trims a proof: the lemmas that its empty clause does not need are left out, and with them the groups of which they are candidates, and
/// their deletions. A proof that is not accepted has the fault that [`lrat_check::check`] tells.
///
/// How the needed lemmas are found does not have to be trusted: the result is checked, and if it is refused the proof is handed out as it
/// came.
pub fn trim(alloc: Global, formula: Formula, proof: &[u8]) -> Result<Trimmed, CheckFault>
    ensures trims { IfOk result (IsTrimmed formula proof.now) }
    // a proof is trimmed if and only if it is accepted, except for want of memory
    ensures accepted { OnOk result (Accepts formula proof.now) }
    ensures complete { Accepts formula proof.now → IfErr result (λ fault. fault ≡ no_memory) }
    // the first fault, and its line
    ensures refused { IfErr result (λ fault. (fault ≡ no_memory) ⊎ (check_of formula proof.now ≡ Err fault)) }
{
    proof_fault_is_exact();
    let _ = formula.vars(); // its contract says that the formula is within its limits
    let mut trimming = Trimmer::new(alloc, formula)?;
    trimming.feed(proof)?;
    trimming.finish()
}
