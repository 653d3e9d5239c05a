//! `decide`: reads a formula, decides it by one search over it, and writes the proof while it is found.

ghost use Rattle.std.specs.Prelude.{◌≡◌, ◌≢◌, ℕ, List, None, false, IfOk, IfErr, IsTrue, OnErr, OnOk};
ghost use Rattle.commands.specs.Decide.{DecidesInput};
ghost use Rattle.commands.specs.Join.{IsFree, IsStored};
ghost use Rattle.commands.specs.Known.{HoldsOf};
ghost use Rattle.commands.specs.Refusals.{IsRefusedAs, IsOneOf};
ghost use Rattle.commands.specs.Written.{Keeps};
ghost use Rattle.commands.specs.inner.FoundProof.{HasText};
ghost use Rattle.dimacs.specs.logic.Cnf.{Cnf};
ghost use Rattle.formula_search.specs.Decisions.{DecidesTo};
ghost use Rattle.formula_search.specs.declared.decision.Asked.{Asked};
ghost use Rattle.proof_check.specs.Truth.{IsTrueReport};

use crate::disk::Disk;
use crate::drafts::{Drafts, Target};
use crate::formula_tree::{hushed, refused_input};
use crate::found_proof::{FoundProof, ProofSink, give_up, keep_found, none_found};
use crate::whole_source::read_formula;
use cube_solve::Observer;
use dimacs::{Formula, Limits};
use formula_search::{Asked, Nowhere, decide_to};
use lrat_check::accepted_proofs_are_sound;
use reports::{Refusal, Report};
use std::alloc::Global;

/// The files of `decide`, and what is asked of its search.
#[derive(Clone, Copy)]
pub struct Deciding<'a> {
    /// The path of the formula.
    pub input: &'a str,
    /// The file of the proof, if one is to be written.
    pub proof: Option<Target<'a>>,
    /// How long the search may be, and what is printed of an assignment.
    pub asked: Asked,
    /// Whether the `c` line of a fault is left out (`-q`).
    pub quiet: bool,
}

/// Whether the path of the proof leads to the file of the formula.
fn is_overwritten<D: Drafts>(disk: &D, files: &Deciding<'_>) -> bool
    ensures { result ≡ false → IsFree (D.apart disk.now) files.now.proof files.now.input.now }
{
    match files.proof {
        Some(target) => disk.is_same(target.path, files.input),
        None => false,
    }
}

/// Errs if the proof cannot be written where it is to go, as far as this can be told before there is one.
fn test_target<D: Drafts>(disk: &D, proof: Option<Target<'_>>) -> Result<(), Refusal>
    ensures { IfErr result (IsRefusedAs Refusal.Writing) }
{
    match proof {
        Some(target) => disk.test(target.path),
        None => Ok(()),
    }
}

/// Whether two targets are one file in one form.
fn is_same_target(target: Target<'_>, other: Target<'_>) -> bool
    ensures { IsTrue result → (target.entry.binary ≡ other.entry.binary) × (target.entry.path.now ≡ other.entry.path.now) }
{
    target.binary == other.binary && target.path == other.path
}

/// What a search answers, and the proof that it found. It has no `Drop`, as the proof has none.
struct Searched<F> {
    answer: Result<Report, Refusal>,
    proof: FoundProof<F>,
}

/// Decides a formula, and writes the proof to the file of the target while it is found.
fn search_to_file<D: Drafts, O: Observer>(
    disk: &D,
    target: Target<'_>,
    formula: &Formula,
    asked: Asked,
    observer: &mut O,
) -> Searched<D::Draft>
    ensures decides { IfOk result.answer (DecidesTo formula.now asked (λ text. HasText D.made target.entry text result.proof.part result.proof.held.text)) }
    ensures refused { IfErr result.answer (IsRefusedAs Refusal.Writing) }
{
    let mut sink = ProofSink {
        disk,
        target,
        is_settled: false,
        proof: none_found(disk.alloc()),
    };
    let answer = decide_to(disk.alloc(), formula, asked, &mut sink, observer);
    let ProofSink {
        disk: _,
        target: reached,
        is_settled: _,
        proof,
    } = sink;
    if !is_same_target(reached, target) {
        let answer = Err(Refusal::Writing); // what takes a proof leaves the target, which its contract does not say
        return Searched { answer, proof };
    }
    Searched { answer, proof }
}

/// Puts a proof at the path of its target if the report says that nothing satisfies the formula, and else gives it up. Answers the report.
fn keep_refutation<D: Drafts>(
    disk: &mut D,
    target: Target<'_>,
    report: Report,
    proof: FoundProof<D::Draft>,
) -> Result<Report, Refusal>
    ensures decides { (F : Cnf) (asked : Asked) → DecidesTo F asked (λ text. HasText D.made target.entry text proof.part proof.held.text) report
        → IfOk result (DecidesTo F asked (Keeps D.kept disk.old disk.new target.entry.binary target.entry.path.now)) }
    ensures same { IfOk result (λ r. r.status ≢ 20 → disk.new ≡ disk.old) }
    ensures left { OnErr result (disk.new ≡ disk.old) }
    ensures refused { IfErr result (IsRefusedAs Refusal.Writing) }
{
    if report.status != 20 {
        give_up(disk, proof);
        return Ok(report);
    }
    keep_found(disk, target, proof)?;
    Ok(report)
}

/// Ends a search: the proof is kept if it refutes the formula. After an error it is given up.
fn end_search<D: Drafts>(
    disk: &mut D,
    target: Target<'_>,
    searched: Searched<D::Draft>,
) -> Result<Report, Refusal>
    ensures decides { (F : Cnf) (asked : Asked) → IfOk searched.answer (DecidesTo F asked (λ text. HasText D.made target.entry text searched.proof.part searched.proof.held.text))
        → IfOk result (DecidesTo F asked (Keeps D.kept disk.old disk.new target.entry.binary target.entry.path.now)) }
    ensures same { IfOk result (λ r. r.status ≢ 20 → disk.new ≡ disk.old) }
    ensures left { OnErr result (disk.new ≡ disk.old) }
    ensures refused { IfErr searched.answer (IsRefusedAs Refusal.Writing) → IfErr result (IsRefusedAs Refusal.Writing) }
{
    let Searched { answer, proof } = searched;
    match answer {
        Ok(report) => keep_refutation(disk, target, report, proof),
        Err(refusal) => {
            give_up(disk, proof);
            Err(refusal)
        }
    }
}

/// Decides a formula, and makes no proof.
fn search_alone<O: Observer>(
    alloc: Global,
    formula: &Formula,
    asked: Asked,
    observer: &mut O,
) -> Result<Report, Refusal>
    ensures decides { IfOk result (DecidesTo formula.now asked (λ text. Unit {0})) }
    ensures refused { IfErr result (IsRefusedAs Refusal.Writing) }
{
    decide_to(alloc, formula, asked, &mut Nowhere, observer)
}

/// Decides a formula, and writes the proof if its file is named.
fn search<D: Drafts, O: Observer>(
    disk: &mut D,
    files: &Deciding<'_>,
    formula: &Formula,
    observer: &mut O,
) -> Result<Report, Refusal>
    ensures decides { IfOk result (DecidesTo formula.now files.now.asked (IsStored D.kept disk.old disk.new files.now.proof)) }
    ensures same { IfOk result (λ r. r.status ≢ 20 → disk.new ≡ disk.old) }
    ensures unnamed { files.now.proof ≡ None → disk.new ≡ disk.old }
    ensures left { OnErr result (disk.new ≡ disk.old) }
    ensures refused { IfErr result (IsRefusedAs Refusal.Writing) }
{
    match files.proof {
        Some(target) => {
            let searched = search_to_file(disk, target, formula, files.asked, observer);
            end_search(disk, target, searched)
        }
        None => search_alone(disk.alloc(), formula, files.asked, observer),
    }
}

/// Decides a formula. That its proof would be written over its file, or cannot be written, is an error, which is found before the search
/// begins as far as it can be told then.
fn told_apart<D: Drafts, O: Observer>(
    disk: &mut D,
    files: &Deciding<'_>,
    formula: &Formula,
    observer: &mut O,
) -> Result<Report, Refusal>
    ensures tells { IfOk result (DecidesTo formula.now files.now.asked (IsStored D.kept disk.old disk.new files.now.proof)) }
    ensures apart { OnOk result (IsFree (D.apart disk.old) files.now.proof files.now.input.now) }
    ensures same { IfOk result (λ r. r.status ≢ 20 → disk.new ≡ disk.old) }
    ensures unnamed { files.now.proof ≡ None → disk.new ≡ disk.old }
    ensures left { OnErr result (disk.new ≡ disk.old) }
    ensures refused { IfErr result (IsRefusedAs Refusal.Writing) }
{
    if is_overwritten(disk, files) {
        return Err(Refusal::Writing);
    }
    test_target(disk, files.proof)?;
    search(disk, files, formula, observer)
}

/// Reads the formula in `files.input` within these limits, and decides it; or reports its first
/// fault.
fn read_and_decide<D: Drafts, O: Observer>(
    disk: &mut D,
    limits: Limits,
    files: &Deciding<'_>,
    observer: &mut O,
) -> Result<Report, Refusal>
    ensures tells { IfOk result (λ r. HoldsOf (D.holds disk.old files.now.input.now) (λ text. DecidesInput limits files.now (IsStored D.kept disk.old disk.new files.now.proof) text r)) }
    ensures apart { IfOk result (λ r. r.status ≡ 20 → IsFree (D.apart disk.old) files.now.proof files.now.input.now) }
    ensures same { IfOk result (λ r. r.status ≢ 20 → disk.new ≡ disk.old) }
    ensures unnamed { files.now.proof ≡ None → disk.new ≡ disk.old }
    ensures left { OnErr result (disk.new ≡ disk.old) }
    ensures refused { IfErr result (IsOneOf Refusal.Input Refusal.Writing) }
{
    let mut text = disk.open(files.input, Refusal::Input)?;
    let found = read_formula(disk.alloc(), limits, &mut text)?;
    match found {
        Ok(formula) => told_apart(disk, files, &formula, observer),
        Err(fault) => {
            let report = refused_input(disk.alloc(), fault)?;
            Ok(hushed(report, files.quiet))
        }
    }
}

/// Decides the formula in `files.input`, which is read within these limits, by one search over it, and answers the report; or reports the
/// first fault of the input. The proof goes to a temporary file beside `files.proof`, if that is named, while it is found; if nothing
/// satisfies the formula, that file is put there, whole and before the answer is told, and never over the formula. If `files.proof` is a
/// device or a pipe, the lines of a long search go there as they are found, whatever the answer will be. The observer is shown how far the
/// search has come.
///
/// The report has no proof: what was kept is one. The error is that the formula cannot be read or the proof not be written, or want of
/// memory; then no file has changed.
pub fn decide_files<D: Drafts, O: Observer>(
    disk: &mut D,
    limits: Limits,
    files: &Deciding<'_>,
    observer: &mut O,
) -> Result<Report, Refusal>
    ensures tells { IfOk result (λ r. HoldsOf (D.holds disk.old files.now.input.now) (λ text. DecidesInput limits files.now (IsStored D.kept disk.old disk.new files.now.proof) text r)) }
    ensures truth { IfOk result (λ r. HoldsOf (D.holds disk.old files.now.input.now) (λ text. IsTrueReport limits text r)) }
    ensures same { IfOk result (λ r. r.status ≢ 20 → disk.new ≡ disk.old) }
    ensures unnamed { files.now.proof ≡ None → disk.new ≡ disk.old }
    ensures apart { IfOk result (λ r. r.status ≡ 20 → IsFree (D.apart disk.old) files.now.proof files.now.input.now) }
    ensures left { OnErr result (disk.new ≡ disk.old) }
    ensures refused { IfErr result (IsOneOf Refusal.Input Refusal.Writing) }
{
    accepted_proofs_are_sound();
    let _ = limits.vars(); // its contract says that the limits are no more than the large ones
    read_and_decide(disk, limits, files, observer)
}
