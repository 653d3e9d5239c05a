//! What is kept of a verdict when clauses are added to its formula.

ghost use Rattle.std.specs.Prelude.{◌≡◌, ◌≤◌, ℕ, List, length, IfOk, IfSome, MatchOption, OnErr};
ghost use Rattle.dimacs.specs.logic.Cnf.{Cnf, FitsIn};
ghost use Rattle.dimacs.specs.logic.Extension.{extended};
ghost use Rattle.dimacs.specs.logic.Limits.{written};
ghost use Rattle.lrat_check.specs.Verdicts.{Right};
ghost use Rattle.lrat_check.specs.declared.verdict.Verdict.TheVariants.{Model, Proof};
ghost use Rattle.proof_join.specs.RenumberedProof.{Renumbers};
ghost use Rattle.evidence.specs.KeptVerdict.{IsGrown, KeptVerdict, lengthened};
ghost use Rattle.evidence.specs.inner.KeptProof.{IsHeldIfAccepted};

use dimacs::{Assignment, Extension, Formula, satisfies};
use lrat_check::{Verdict, check};
use packed_text::PackedText;
use proof_join::renumber;
use std::alloc::{AllocError, Global};

/// A formula with added clauses, and what is kept of the verdict on the formula without these clauses.
#[derive(Drop)]
pub struct Grown {
    pub formula: Formula,
    pub verdict: Verdict,
}

/// Returns the formula with these clauses after its own, and what is kept of `verdict`, which is right for the formula without them; `None`
/// if the longer formula would exceed a written limit.
///
/// An assignment is extended by false for the new variables, and kept if and only if it satisfies the longer formula. A proof is
/// renumbered, and kept if and only if it is accepted for the longer formula. A proof by reverse unit propagation alone is always
/// accepted, unless renumbering makes it too long.
pub fn grow(
    alloc: Global,
    formula: &Formula,
    extension: &Extension,
    verdict: &Verdict,
) -> Result<Option<Grown>, AllocError>
    requires { Right formula.now verdict.now }
    ensures kept { IfOk result (λ found. MatchOption found
        (¬ (FitsIn written (extended formula.now extension.now)))
        (λ grown. IsGrown formula.now extension.now verdict.now grown)) }
    ensures right { IfOk result (λ found. IfSome found (λ grown. Right grown.formula grown.verdict)) }
    // memory is refused only if the longer formula is within the written limits
    ensures limits { OnErr result (FitsIn written (extended formula.now extension.now)) }
{
    let Some(grown) = formula.extended(alloc, extension)? else {
        return Ok(None);
    };
    let verdict = keep_verdict(alloc, formula, extension, &grown, verdict)?;
    Ok(Some(Grown {
        formula: grown,
        verdict,
    }))
}

/// Returns what is kept of a right verdict on `formula`, if `grown` is the formula with the added clauses; `Verdict::Nothing` if nothing
/// is.
fn keep_verdict(
    alloc: Global,
    formula: &Formula,
    extension: &Extension,
    grown: &Formula,
    verdict: &Verdict,
) -> Result<Verdict, AllocError>
    requires grown { grown.now ≡ extended formula.now extension.now }
    requires right { Right formula.now verdict.now }
    ensures { IfOk result (λ kept. KeptVerdict formula.now extension.now verdict.now kept) }
{
    match verdict {
        Verdict::Nothing => Ok(Verdict::Nothing),
        Verdict::Model(values) => keep_values(alloc, grown, values),
        Verdict::Proof(text) => {
            let (old, more) = (formula.len() as u64, extension.len() as u64);
            keep_proof(alloc, grown, text, old, more)
        }
    }
}

/// Returns the assignment, extended by false for the new variables, if it satisfies the longer formula `formula`; else `Verdict::Nothing`.
fn keep_values(alloc: Global, formula: &Formula, values: &Assignment) -> Result<Verdict, AllocError>
    requires { length values.now ≤ formula.now.vars }
    ensures { IfOk result (λ kept. (F x : Cnf) → formula.now ≡ extended F x → KeptVerdict F x (Model values.now) kept) }
{
    let longer = Assignment::new(lengthen(alloc, values.values(), formula.vars() as usize)?);
    if satisfies(&longer, formula) {
        Ok(Verdict::Model(longer))
    } else {
        Ok(Verdict::Nothing)
    }
}

/// Returns these truth values, and false for each further variable up to `vars`.
fn lengthen(alloc: Global, values: &[bool], vars: usize) -> Result<Vec<bool>, AllocError>
    requires { length values.now ≤ vars }
    ensures { IfOk result (λ longer. longer.items ≡ lengthened vars values.now) }
{
    let mut longer = Vec::with_capacity(alloc, vars)?;
    longer.extend_from_slice(values)?;
    longer.resize(vars, false)?;
    Ok(longer)
}

/// Returns the proof, renumbered, if it is accepted for the longer formula; else `Verdict::Nothing`. `formula` is the longer formula: `old`
/// clauses, and `more` clauses after these.
fn keep_proof(
    alloc: Global,
    formula: &Formula,
    text: &PackedText,
    old: u64,
    more: u64,
) -> Result<Verdict, AllocError>
    ensures { IfOk result (λ kept. (F x : Cnf) → formula.now ≡ extended F x → old ≡ length F.clauses → more ≡ length x.clauses
        → KeptVerdict F x (Proof text.now) kept) }
{
    match renumbered(alloc, text, old, more)? {
        None => Ok(Verdict::Nothing),
        Some(raised) => held_if_accepted(alloc, formula, raised),
    }
}

/// Returns the text of a proof, with the numbers of its lemmas raised by `more`; `old` is the number of the formula's clauses. `None` if
/// the text cannot be renumbered. The unpacked text is freed when this returns.
fn renumbered(
    alloc: Global,
    text: &PackedText,
    old: u64,
    more: u64,
) -> Result<Option<Vec<u8>>, AllocError>
    ensures { IfOk result (λ found. MatchOption found
        ((new : List ℕ) → ¬ (Renumbers old more text.now new))
        (λ new. Renumbers old more text.now new.items)) }
{
    let whole = text.to_text(alloc)?;
    renumber(alloc, &whole, old, more)
}

/// Returns the text as a verdict if it is an accepted proof of the formula; else `Verdict::Nothing`.
fn held_if_accepted(alloc: Global, formula: &Formula, text: Vec<u8>) -> Result<Verdict, AllocError>
    ensures { IfOk result (λ held. IsHeldIfAccepted formula.now text.items held) }
{
    match check(alloc, formula, &text) {
        Ok(()) => Ok(Verdict::Proof(PackedText::of(alloc, &text)?)),
        Err(fault) if fault.is_no_memory() => Err(AllocError),
        Err(_) => Ok(Verdict::Nothing),
    }
}
