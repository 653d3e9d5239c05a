//! `elaborate`: reads a formula and a DRAT proof of it, and writes an LRAT proof.

ghost use Rattle.std.specs.Prelude.{◌≡◌, ℕ, List, IfOk, IfErr, IsSome, OnErr, OnOk, is_ok, if◌then◌else◌};
ghost use Rattle.commands.specs.Elaborate.{Elaborates, TellsElaboration};
ghost use Rattle.commands.specs.Known.{HoldsOf};
ghost use Rattle.commands.specs.Refusals.{IsRefusedAs, IsOneOf, IsUntrimmed, IsWanting};
ghost use Rattle.commands.specs.Trim.{IsApart};
ghost use Rattle.commands.specs.Written.{IsWritten};
ghost use Rattle.commands.specs.inner.Elaborate.{IsOf};
ghost use Rattle.dimacs.specs.logic.Cnf.{Cnf};
ghost use Rattle.drat_elaborate.specs.Reports.{elaborated_text, elaboration_text};
ghost use Rattle.lrat_text.specs.Proof.{Accepts};

use crate::disk::Disk;
use crate::drafts::Drafts;
use crate::feed_loop::{Feeds, feed_all};
use crate::formula_tree::refused_input;
use crate::piece_reader::Pieces;
use crate::trim::{TrimFiles, write_out};
use crate::whole_source::{out_of_memory, read_formula};
use dimacs::{Formula, Limits};
use drat_elaborate::{
    Elaborated, ElaborationFault, ElaborationObserver, Elaborator, Phase, Stage, elaboration_report,
};
use reports::{Refusal, Report};
use std::alloc::Global;
use std::io::Read;

/// A DRAT proof that is read.
#[derive(Drop)]
enum DratText {
    /// It has no fault so far.
    Right(Elaborator),
    /// It is refused for its first fault.
    Refused(ElaborationFault),
}

impl DratText {
    /// Gives the next piece of the proof's file to the elaborator. At the first fault the elaborator is dropped, and the fault kept.
    fn take(&mut self, piece: &[u8])
        ensures { (F : Cnf) → IsOf F self.old → IsOf F self.new }
    {
        let fault = match self {
            DratText::Right(elaborator) => match elaborator.feed(piece) {
                Ok(()) => return,
                Err(fault) => fault,
            },
            DratText::Refused(_) => return,
        };
        *self = DratText::Refused(fault);
    }

    /// Shows how many steps were read, unless the proof has a fault.
    fn show<O: ElaborationObserver>(&self, observer: &mut O) {
        if let DratText::Right(elaborator) = self {
            let steps = elaborator.steps();
            observer.see(&Stage {
                phase: Phase::Reading,
                done: steps,
                steps,
            });
        }
    }
}

/// A DRAT proof that is read, and who is shown how far.
struct Reading<'a, O> {
    text: DratText,
    observer: &'a mut O,
}

impl<O> Drop for Reading<'_, O> {
    fn drop(self) {
        let Reading {
            text: _,
            observer: _,
        } = self;
    }
}

impl<O> Reading<'_, O> {
    /// The proof as far as it was read.
    fn into_text(self) -> DratText
        ensures { result ≡ self.entry.text }
    {
        let Reading { text, observer: _ } = self;
        text
    }
}

impl<O: ElaborationObserver> Feeds for Reading<'_, O> {
    ghost took = { λ old new more. (F : Cnf) → IsOf F old.text → IsOf F new.text };

    ghost nothing = { λ s F h. h };

    ghost more = { λ a b c xs ys h k F i. k F (h F i) };

    /// Takes the next piece of the proof's file, and shows how many steps were read.
    fn feed(&mut self, piece: &[u8]) -> Result<(), Refusal> {
        self.text.take(piece);
        self.text.show(self.observer);
        Ok(())
    }

    /// Whether the proof has a fault, so that the rest of its file changes nothing.
    fn is_settled(&self) -> bool {
        matches!(self.text, DratText::Refused(_))
    }
}

/// An elaborator of a proof of the formula that has taken no byte.
fn opened(alloc: Global, formula: Formula) -> DratText
    ensures { IsOf formula result }
{
    match Elaborator::new(alloc, formula) {
        Ok(elaborator) => DratText::Right(elaborator),
        Err(fault) => DratText::Refused(fault),
    }
}

/// Ends a proof, and finds the LRAT proof or the first fault.
fn finished<O: ElaborationObserver>(
    text: DratText,
    observer: &mut O,
) -> Result<Elaborated, ElaborationFault>
    ensures { (F : Cnf) → IsOf F text → IfOk result (λ e. Accepts F e.text) }
{
    match text {
        DratText::Right(elaborator) => elaborator.finish_observed(observer),
        DratText::Refused(fault) => Err(fault),
    }
}

/// Reads a DRAT proof to its end, or until it has a fault, and shows the observer how far. It errs if a read fails or memory runs out.
fn read_text<S: Read + Drop, O: ElaborationObserver>(
    pieces: &mut Pieces<S>,
    text: DratText,
    observer: &mut O,
) -> Result<DratText, Refusal>
    ensures of { IfOk result (λ t. (F : Cnf) → IsOf F text → IsOf F t) }
    ensures refused { IfErr result (IsRefusedAs pieces.old.refusal) }
{
    let mut reading = Reading { text, observer };
    feed_all(pieces, &mut reading)?;
    Ok(reading.into_text())
}

/// Reads a DRAT proof of the formula, and finds the LRAT proof or the first fault, which is the inner error. The outer error is a read that
/// fails, or want of memory. The observer is shown how far the elaboration has come.
pub(crate) fn elaborate_pieces<S: Read + Drop, O: ElaborationObserver>(
    alloc: Global,
    formula: Formula,
    pieces: &mut Pieces<S>,
    observer: &mut O,
) -> Result<Result<Elaborated, ElaborationFault>, Refusal>
    ensures accepted { IfOk result (λ found. IfOk found (λ e. Accepts formula e.text)) }
    ensures refused { IfErr result (IsRefusedAs pieces.old.refusal) }
{
    let begun = opened(alloc, formula);
    let text = read_text(pieces, begun, observer)?;
    Ok(finished(text, observer))
}

/// Reports an LRAT proof that was made, or the first fault. Out of memory is an error instead.
pub(crate) fn told(
    alloc: Global,
    found: Result<Elaborated, ElaborationFault>,
) -> Result<Report, Refusal>
    ensures text { IfOk result (λ r. r.stdout.items ≡ elaboration_text found) }
    ensures status { IfOk result (λ r. r.status ≡ (if is_ok found then 0 else 1)) }
    ensures proof { IfOk result (λ r. r.proof ≡ elaborated_text found) }
    ensures refused { IfErr result IsWanting }
{
    elaboration_report(alloc, found).map_err(out_of_memory)
}

/// Reads the DRAT proof in the file `proof`, and reports an LRAT proof or the first fault. It errs if the proof cannot be read or memory
/// runs out.
fn elaborated<D: Disk, O: ElaborationObserver>(
    disk: &D,
    formula: Formula,
    proof: &str,
    observer: &mut O,
) -> Result<Report, Refusal>
    ensures tells { IfOk result (TellsElaboration formula) }
    ensures refused { IfErr result (IsRefusedAs Refusal.Proof) }
{
    let mut pieces = disk.open(proof, Refusal::Proof)?;
    let found = elaborate_pieces(disk.alloc(), formula, &mut pieces, observer)?;
    told(disk.alloc(), found)
}

/// Elaborates the proof in `files.proof`, unless the path of the output leads to one of the files that are read, which is an error.
fn told_apart<D: Drafts, O: ElaborationObserver>(
    disk: &D,
    files: &TrimFiles<'_>,
    formula: Formula,
    observer: &mut O,
) -> Result<Report, Refusal>
    ensures tells { IfOk result (TellsElaboration formula) }
    ensures apart { OnOk result (IsApart D.apart disk.now files.now) }
    ensures refused { IfErr result (IsOneOf Refusal.Proof Refusal.Writing) }
{
    let path = files.out.path;
    if disk.is_same(path, files.proof) || disk.is_same(path, files.input) {
        return Err(Refusal::Writing);
    }
    elaborated(disk, formula, files.proof, observer)
}

/// Reads the formula in `files.input` within these limits, and elaborates the DRAT proof in `files.proof`. If the formula has a fault, that is
/// reported, and the proof is not opened.
fn read_and_elaborate<D: Drafts, O: ElaborationObserver>(
    disk: &D,
    limits: Limits,
    files: &TrimFiles<'_>,
    observer: &mut O,
) -> Result<Report, Refusal>
    ensures tells { IfOk result (λ r. HoldsOf (D.holds disk.now files.now.input.now) (λ text. Elaborates limits text r)) }
    ensures apart { IfOk result (λ r. IsSome r.proof → IsApart D.apart disk.now files.now) }
    ensures refused { IfErr result IsUntrimmed }
{
    let mut text = disk.open(files.input, Refusal::Input)?;
    let found = read_formula(disk.alloc(), limits, &mut text)?;
    match found {
        Ok(formula) => told_apart(disk, files, formula, observer),
        Err(fault) => refused_input(disk.alloc(), fault),
    }
}

/// Elaborates the DRAT proof in `files.proof` of the formula in `files.input`, which is read within these limits, writes the LRAT proof to
/// `files.out`, and answers the report. Nothing is written if a fault is reported, and never over a file that is read. The observer is shown
/// how far the elaboration has come.
pub fn elaborate_files<D: Drafts, O: ElaborationObserver>(
    disk: &mut D,
    limits: Limits,
    files: &TrimFiles<'_>,
    observer: &mut O,
) -> Result<Report, Refusal>
    ensures tells { IfOk result (λ r. HoldsOf (D.holds disk.old files.now.input.now) (λ text. Elaborates limits text r)) }
    ensures written { IfOk result (λ r. IsWritten D.kept disk.old disk.new files.now.out.binary files.now.out.path.now r.proof) }
    ensures apart { IfOk result (λ r. IsSome r.proof → IsApart D.apart disk.old files.now) }
    ensures left { OnErr result (disk.new ≡ disk.old) }
    ensures refused { IfErr result IsUntrimmed }
{
    let report = read_and_elaborate(disk, limits, files, observer)?;
    write_out(disk, files.out, &report.proof)?;
    Ok(report)
}

/// Checks the DRAT proof in `proof` of the formula in `input`, which is read within these limits, by way of an LRAT proof that is not kept,
/// and answers the report. The observer is shown how far the elaboration has come.
pub fn check_drat_files<D: Disk, O: ElaborationObserver>(
    disk: &D,
    limits: Limits,
    input: &str,
    proof: &str,
    observer: &mut O,
) -> Result<Report, Refusal>
    ensures tells { IfOk result (λ r. HoldsOf (D.holds disk.now input.now) (λ text. Elaborates limits text r)) }
    ensures refused { IfErr result (IsOneOf Refusal.Input Refusal.Proof) }
{
    let mut text = disk.open(input, Refusal::Input)?;
    let found = read_formula(disk.alloc(), limits, &mut text)?;
    match found {
        Ok(formula) => elaborated(disk, formula, proof, observer),
        Err(fault) => refused_input(disk.alloc(), fault),
    }
}
