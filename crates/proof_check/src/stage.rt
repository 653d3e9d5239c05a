//! The stage of a check: no byte of the proof was taken, or the checker of the proof's form, text or binary, is at work.

ghost use Rattle.std.specs.Prelude.{◌≡◌, ◌++◌, ℕ, true, List, IfOk};
ghost use Rattle.dimacs.specs.logic.Limits.{Limits};
ghost use Rattle.dimacs.specs.text.Grammar.{SpellsWithin};
ghost use Rattle.dimacs.specs.logic.Cnf.{Cnf};
ghost use Rattle.proof_check.specs.Forms.{is_letter};
ghost use Rattle.proof_check.specs.ProofChecks.{IsCheckReport, IsShort, Reaches, has_met};
ghost use Rattle.proof_check.specs.inner.Checks.{IsBegun, IsFed};

use crate::check_report::{answered, answered_binary};
use crate::stream::BinaryChecker;
use dimacs::Formula;
use lrat_check::{CheckFault, StreamChecker};
use reports::Report;
use std::alloc::{AllocError, Global};

/// The fault of a proof without a byte, which counts as a text: no line adds the empty clause.
const NOTHING: CheckFault = CheckFault {
    number: 13,
    line: 1,
    text: 0,
};

/// How far a proof was checked.
#[derive(Drop)]
pub(crate) enum Stage {
    /// No byte was taken, so the form of the proof is not known.
    Awaiting(Formula),
    /// The proof is a text.
    Text(StreamChecker),
    /// The proof is in binary form.
    Binary(BinaryChecker),
}

/// Tells whether a proof that begins with this byte is in binary form.
fn is_letter(byte: u8) -> bool
    ensures { result ≡ is_letter byte }
{
    byte == b'a' || byte == b'd'
}

/// The checker for a proof whose first byte is `first`: of binary form, or of text. It has taken no
/// byte yet. An error is want of memory.
fn begun(alloc: Global, formula: Formula, first: u8) -> Result<Stage, AllocError>
    ensures { IfOk result (λ stage. IsBegun formula (is_letter first) stage) }
{
    if is_letter(first) {
        Ok(Stage::Binary(BinaryChecker::of(alloc, formula)?))
    } else {
        Ok(Stage::Text(StreamChecker::of(alloc, formula)?))
    }
}

/// Feeds a piece of the proof to the checker, if there is one. A fault is not answered here, since the checker keeps it for `finish`.
fn fed(stage: Stage, piece: &[u8]) -> Stage
    ensures fed { IsFed stage piece.now result }
    ensures short { IsShort result }
{
    match stage {
        Stage::Awaiting(formula) => Stage::Awaiting(formula),
        Stage::Text(mut stream) => {
            let _ = stream.feed(piece);
            Stage::Text(stream)
        }
        Stage::Binary(mut stream) => {
            let _ = stream.feed(piece);
            Stage::Binary(stream)
        }
    }
}

impl Stage {
    /// Takes the next piece of a proof; the first byte tells the form. An error is want of memory.
    pub(crate) fn with_piece(self, alloc: Global, piece: &[u8]) -> Result<Stage, AllocError>
        ensures reaches { (F : Cnf) (proof : List ℕ) → Reaches F self proof → IfOk result (λ stage. Reaches F stage (proof ++ piece.now)) }
        ensures short { IfOk result IsShort }
    {
        let Some(first) = piece.first() else {
            return Ok(fed(self, piece));
        };
        match self {
            Stage::Awaiting(formula) => Ok(fed(begun(alloc, formula, *first)?, piece)),
            _ => Ok(fed(self, piece)),
        }
    }

    /// Tells whether the checker has met a fault, of the proof or of memory; then no more bytes change the answer.
    pub(crate) fn is_settled(&self) -> bool
        ensures fault { result ≡ has_met self.now }
        ensures stays { result ≡ true → (F : Cnf) (proof more : List ℕ) → Reaches F self.now proof → Reaches F self.now (proof ++ more) }
    {
        match self {
            Stage::Awaiting(_) => false,
            Stage::Text(stream) => stream.is_settled(),
            Stage::Binary(stream) => stream.is_settled(),
        }
    }

    /// The report of the check if no more bytes come. An error is want of memory.
    pub(crate) fn report(&self, alloc: Global) -> Result<Report, AllocError>
        ensures { (L : Limits) (input proof : List ℕ) (F : Cnf) → SpellsWithin L input F → Reaches F self.now proof → IfOk result (IsCheckReport L input proof) }
    {
        match self {
            Stage::Awaiting(_) => answered(alloc, Err(NOTHING)),
            Stage::Text(stream) => answered(alloc, stream.finish()),
            Stage::Binary(stream) => answered_binary(alloc, stream.finish()),
        }
    }
}
