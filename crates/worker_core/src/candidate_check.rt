//! The check of a candidate: its bytes are appended as they are received, and checked when it is complete.

ghost use Rattle.std.specs.Prelude.{◌≡◌, ◌≤◌, ◌⊎◌, ◌↔◌, ℕ, List, length, IsTrue, IfOk, OnOk, Ok, Err};
ghost use Rattle.lrat_text.specs.Proof.{Accepts};
ghost use Rattle.lrat_check.specs.ProofFaults.{no_memory};
ghost use Rattle.lrat_check.specs.Stream.{HasTaken};
ghost use Rattle.frames.specs.Answers.{answer_of};
ghost use Rattle.frames.specs.declared.answer.Answer.TheVariants as answers;
ghost use Rattle.evidence.specs.Evidence.{IsComplete};
ghost use Rattle.worker_core.specs.inner.CandidateCheck.{IsCheckedAs, IfNoMemory, IsNextPartOf, longer};
ghost use Rattle.worker_core.specs.inner.Invariant.{ChecksPrefix};

use crate::candidate::Candidate;
use crate::proof_checker::{ProofChecker, caught_up};
use dimacs::Formula;
use frames::Answer;
use lrat_check::{CheckFault, Judged, Verdict, judge_values};
use lrat_text::reading_within_is_spelling;
use packed_text::PackedText;
use std::alloc::{AllocError, Global};

/// The outcome of a check of a candidate. A candidate that stays is returned with its checker, if it has one.
#[derive(Drop)]
pub enum CandidateCheck {
    /// The candidate is incomplete.
    Incomplete(Candidate, Option<ProofChecker>),
    /// The candidate is complete, and is this right verdict.
    Right(Verdict),
    /// The candidate is complete, and is no right verdict.
    Wrong,
    /// Memory was refused; the candidate is as before the call.
    NoMemory(Candidate, Option<ProofChecker>),
}

/// Tells whether a Part frame with `count` bytes from `offset` on belongs to the candidate (same
/// session and answer) and follows the candidate's bytes so far.
pub(crate) fn is_next_part(
    candidate: &Candidate,
    session: u64,
    part: Answer,
    offset: u32,
    count: usize,
) -> bool
    requires { count ≤ 4000 }
    ensures { (more : List ℕ) → length more ≡ count → IsTrue result ↔ IsNextPartOf candidate.now session part offset more }
{
    candidate.session == session
        && candidate.evidence.finding.answer() == part
        && candidate.evidence.comes_next(offset, count)
}

/// Appends bytes to a candidate, and checks it if it is complete.
///
/// A refutation gets a checker with its first bytes. The checker takes what has been received whenever the worker has no task, and the
/// rest after the last byte. If memory is refused the checker is dropped, and the whole text is checked once it is complete.
pub(crate) fn collect(
    alloc: Global,
    formula: &Formula,
    candidate: Candidate,
    checker: Option<ProofChecker>,
    more: &[u8],
) -> CandidateCheck
    requires { ChecksPrefix formula.now checker candidate.evidence.bytes }
    ensures { IsCheckedAs formula.now candidate (longer candidate more.now) result }
{
    let Ok(checker) = checker_for(alloc, formula, &candidate, checker) else {
        return CandidateCheck::NoMemory(candidate, None);
    };
    let mut candidate = candidate;
    let before = candidate.evidence.bytes.len();
    let Ok(()) = candidate.evidence.extend(more) else {
        return CandidateCheck::NoMemory(candidate, checker);
    };
    match check_candidate(alloc, formula, candidate, checker) {
        CandidateCheck::NoMemory(longer, _) => {
            let mut candidate = longer;
            candidate.evidence.bytes.truncate(before);
            CandidateCheck::NoMemory(candidate, None)
        }
        collected => collected,
    }
}

/// Returns the checker of a candidate that gets more bytes: the present one, or a new one if these are the first bytes of a refutation;
/// else `None`.
fn checker_for(
    alloc: Global,
    formula: &Formula,
    candidate: &Candidate,
    checker: Option<ProofChecker>,
) -> Result<Option<ProofChecker>, AllocError>
    requires { ChecksPrefix formula.now checker candidate.now.evidence.bytes }
    ensures { IfOk result (λ s. ChecksPrefix formula.now s candidate.now.evidence.bytes) }
{
    if checker.is_none()
        && candidate.evidence.bytes.len() == 0
        && candidate.evidence.finding.answer() == Answer::Refuted
    {
        return Ok(Some(ProofChecker::new(alloc, formula)?));
    }
    Ok(checker)
}

/// Checks a candidate if it is complete; else returns it as incomplete.
pub(crate) fn check_candidate(
    alloc: Global,
    formula: &Formula,
    candidate: Candidate,
    checker: Option<ProofChecker>,
) -> CandidateCheck
    requires { ChecksPrefix formula.now checker candidate.evidence.bytes }
    ensures found { IsCheckedAs formula.now candidate candidate result }
    ensures complete { IfNoMemory result (IsComplete candidate.evidence) }
{
    if !candidate.evidence.is_complete() {
        return CandidateCheck::Incomplete(candidate, checker);
    }
    match candidate.evidence.finding.answer() {
        Answer::Refuted => check_text(alloc, formula, candidate, checker),
        Answer::Assignment => check_assignment(alloc, formula, candidate),
    }
}

/// Checks the complete text of a refutation. An accepted text becomes the verdict without a copy.
fn check_text(
    alloc: Global,
    formula: &Formula,
    candidate: Candidate,
    checker: Option<ProofChecker>,
) -> CandidateCheck
    requires complete { IsComplete candidate.evidence }
    requires refuted { answer_of candidate.evidence.finding ≡ answers.Refuted }
    requires follows { ChecksPrefix formula.now checker candidate.evidence.bytes }
    ensures { IsCheckedAs formula.now candidate candidate result }
{
    match check_proof(alloc, formula, checker, &candidate.evidence.bytes) {
        Ok(()) => CandidateCheck::Right(Verdict::Proof(candidate.evidence.bytes)),
        Err(fault) if fault.is_no_memory() => CandidateCheck::NoMemory(candidate, None),
        Err(_) => CandidateCheck::Wrong,
    }
}

/// Returns a checker that has taken the whole text: the present checker after it has taken the rest, or else a new one.
fn checker_at_end(
    alloc: Global,
    formula: &Formula,
    checker: Option<ProofChecker>,
    text: &PackedText,
) -> Result<ProofChecker, AllocError>
    requires { ChecksPrefix formula.now checker text.now }
    ensures { IfOk result (λ f. HasTaken formula.now f.stream text.now) }
{
    if let Some(checker) = caught_up(alloc, checker, text) {
        return Ok(checker);
    }
    ProofChecker::new(alloc, formula)?.catch_up(alloc, text)
}

/// Checks the whole text: `Ok` if it is an accepted proof of the formula. The checker, if there is one, has taken a prefix of the text.
fn check_proof(
    alloc: Global,
    formula: &Formula,
    checker: Option<ProofChecker>,
    text: &PackedText,
) -> Result<(), CheckFault>
    requires { ChecksPrefix formula.now checker text.now }
    ensures accepted { OnOk result (Accepts formula.now text.now) }
    ensures complete { Accepts formula.now text.now → (result ≡ Ok tt) ⊎ (result ≡ Err no_memory) }
{
    let checker = checker_at_end(alloc, formula, checker, text)?;
    // A law, which does nothing: the steps that were read are those that the text spells.
    reading_within_is_spelling();
    let _ = formula.vars(); // ensures that the formula is within the limits
    checker.stream.finish()
}

/// Checks the complete bytes of an assignment: right if they satisfy the formula.
fn check_assignment(alloc: Global, formula: &Formula, candidate: Candidate) -> CandidateCheck
    requires complete { IsComplete candidate.evidence }
    requires assignment { answer_of candidate.evidence.finding ≡ answers.Assignment }
    ensures { IsCheckedAs formula.now candidate candidate result }
{
    let Ok(values) = candidate.evidence.bytes.to_text(alloc) else {
        return CandidateCheck::NoMemory(candidate, None);
    };
    match judge_values(alloc, formula, &values) {
        Judged::Right(verdict) => CandidateCheck::Right(verdict),
        Judged::Wrong => CandidateCheck::Wrong,
        Judged::NoMemory => CandidateCheck::NoMemory(candidate, None),
    }
}
