//! The check of a whole text of a proof.

ghost use Rattle.std.specs.Prelude.{◌≡◌, ◌↔◌, ◌⊎◌, IfOk, None};
ghost use Rattle.dimacs.specs.logic.Cnf.{Cnf};
ghost use Rattle.dimacs.specs.logic.Limits.{written};
ghost use Rattle.dimacs.specs.text.Parser.{parse};
ghost use Rattle.dimacs.specs.text.Grammar.{Spells};
ghost use Rattle.lrat_text.specs.Proof.{Accepts};
ghost use Rattle.proof_check.specs.Reports.{check_text};
ghost use Rattle.proof_check.specs.Truth.{SpellsUnsatisfiable};
ghost use Rattle.proof_check.specs.inner.Checks.{IsTextReport};

use crate::check_report::{answered, unread};
use dimacs::read;
use lrat_check::{accepted_proofs_are_sound, check};
use reports::Report;
use std::alloc::{AllocError, Global};

/// Checks the text of a proof against the formula of an input, and reports the answer. An error is want of memory.
fn check_text(alloc: Global, input: &[u8], proof: &[u8]) -> Result<Report, AllocError>
    ensures { IfOk result (IsTextReport written input.now proof.now) }
{
    match read(alloc, input) {
        Ok(formula) => answered(alloc, check(alloc, &formula, proof)),
        Err(fault) => unread(alloc, fault),
    }
}

/// Reads a formula, checks the text of a proof of it, and reports the answer. The error stands for the report `c no memory`, status 1.
pub fn run_check(alloc: Global, input: &[u8], proof: &[u8]) -> Result<Report, AllocError>
    // Status 0 if and only if the input spells a formula and the proof is accepted against it.
    ensures verified { IfOk result (λ r. (r.status ≡ 0) ↔ ((F : Cnf) × Spells input.now F × Accepts F proof.now)) }
    ensures status { IfOk result (λ r. (r.status ≡ 0) ⊎ (r.status ≡ 1)) }
    // So with status 0 the formula that the input spells is unsatisfiable.
    ensures truth { IfOk result (λ r. r.status ≡ 0 → SpellsUnsatisfiable written input.now) }
    // Which lines are printed, and so which fault, in which line.
    ensures text { IfOk result (λ r. r.stdout.items ≡ check_text (parse input.now) proof.now) }
    ensures proof { IfOk result (λ r. r.proof ≡ None) }
{
    accepted_proofs_are_sound();
    check_text(alloc, input, proof)
}
