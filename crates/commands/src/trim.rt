//! `trim`: reads a formula, checks a proof of it while the proof is read, and writes the proof without the lines that it does not need.

ghost use Rattle.std.specs.Prelude.{◌≡◌, ◌≢◌, ◌++◌, ℕ, List, [], Err, IfOk, IfErr, IsSome, OnErr, OnOk, is_ok, if◌then◌else◌};
ghost use Rattle.commands.specs.Known.{HoldsOf};
ghost use Rattle.commands.specs.Refusals.{IsRefusedAs, IsOneOf, IsUntrimmed, IsWanting};
ghost use Rattle.commands.specs.Trim.{IsApart, TellsTrimming, Trims};
ghost use Rattle.commands.specs.Written.{IsWritten};
ghost use Rattle.commands.specs.inner.Feed.{Extends};
ghost use Rattle.commands.specs.inner.Trim.{IsTaken, IsTrimming};
ghost use Rattle.dimacs.specs.logic.Cnf.{Cnf};
ghost use Rattle.text_or_binary.specs.FormTrim.{HasTakenForm};
ghost use Rattle.lrat_check.specs.ProofFaults.{no_memory};
ghost use Rattle.lrat_trim.specs.Reports.{trim_text, trimmed_text};

use crate::atomic_write::write_text;
use crate::disk::Disk;
use crate::drafts::{Drafts, Target};
use crate::feed_loop::{Feeds, feed_all};
use crate::formula_tree::refused_input;
use crate::whole_source::{out_of_memory, read_formula};
use dimacs::{Formula, Limits};
use lrat_check::CheckFault;
use lrat_trim::{Trimmed, trim_report};
use packed_text::PackedText;
use reports::{Refusal, Report};
use std::alloc::Global;
use text_or_binary::FormTrimming;

/// The first fault of a proof: of a line, or in binary form of a step.
#[derive(Clone, Copy)]
struct Faulty {
    /// The fault, at a line of the text or a step of the binary form.
    fault: CheckFault,
    /// Whether the proof is in binary form.
    is_binary: bool,
}

/// A proof that is read, and checked meanwhile.
#[derive(Drop)]
enum TrimText {
    /// It has no fault so far.
    Right(FormTrimming),
    /// It is refused for its first fault.
    Refused(Faulty),
}

/// Takes the next piece of a proof that has no fault so far. It errs with the first fault of the proof.
fn feed_piece(trimming: &mut FormTrimming, piece: &[u8]) -> Result<(), Faulty>
    ensures { (F : Cnf) (bytes : List ℕ) → HasTakenForm F trimming.old bytes → IsTaken F (bytes ++ piece.now) trimming.new result }
{
    if piece.is_empty() {
        return Ok(());
    }
    match trimming.feed(piece) {
        Ok(()) => Ok(()),
        Err(fault) => Err(Faulty {
            fault,
            is_binary: trimming.is_binary(),
        }),
    }
}

impl Feeds for TrimText {
    ghost use Rattle.commands.specs.inner.Feed.{extends_nothing, extends_more};

    ghost took = { λ old new more. (F : Cnf) → Extends (IsTrimming F) old new more };

    ghost nothing = { λ s F. extends_nothing (IsTrimming F) s };

    ghost more = { λ a b c xs ys h k F. extends_more (IsTrimming F) a b c xs ys (h F) (k F) };

    /// Gives the next piece of the proof's file to the trimmer. At the first fault the trimmer is
    /// dropped, and the fault kept.
    fn feed(&mut self, piece: &[u8]) -> Result<(), Refusal> {
        let faulty = match self {
            TrimText::Right(trimming) => match feed_piece(trimming, piece) {
                Ok(()) => return Ok(()),
                Err(faulty) => faulty,
            },
            TrimText::Refused(_) => return Ok(()),
        };
        *self = TrimText::Refused(faulty);
        Ok(())
    }

    /// Whether the proof has a fault, so that the rest of its file changes nothing.
    fn is_settled(&self) -> bool {
        matches!(self, TrimText::Refused(_))
    }
}

/// Reports what trimming answered: the trimmed proof, with status 0, or the first fault, with status 1. Out of memory is an error instead.
fn reported(
    alloc: Global,
    is_binary: bool,
    found: Result<Trimmed, CheckFault>,
) -> Result<Report, Refusal>
    ensures text { IfOk result (λ r. r.stdout.items ≡ trim_text is_binary found) }
    ensures status { IfOk result (λ r. r.status ≡ (if is_ok found then 0 else 1)) }
    ensures proof { IfOk result (λ r. r.proof ≡ trimmed_text found) }
    ensures memory { OnOk result (found ≢ Err no_memory) }
    ensures refused { IfErr result IsWanting }
{
    trim_report(alloc, is_binary, found).map_err(out_of_memory)
}

/// Ends a proof, and reports the trimmed proof or the first fault.
fn finished(alloc: Global, text: TrimText) -> Result<Report, Refusal>
    ensures tells { (F : Cnf) (proof : List ℕ) → IsTrimming F proof text → IfOk result (TellsTrimming F proof) }
    ensures refused { IfErr result IsWanting }
{
    match text {
        TrimText::Right(trimming) => {
            let is_binary = trimming.is_binary();
            reported(alloc, is_binary, trimming.finish())
        }
        TrimText::Refused(faulty) => reported(alloc, faulty.is_binary, Err(faulty.fault)),
    }
}

/// A trimmer of a proof of the formula that has taken no byte. It errs if memory runs out.
fn opened(alloc: Global, formula: Formula) -> Result<TrimText, Refusal>
    ensures trims { IfOk result (IsTrimming formula []) }
    ensures refused { IfErr result IsWanting }
{
    let trimming = FormTrimming::new(alloc, formula).map_err(out_of_memory)?;
    Ok(TrimText::Right(trimming))
}

/// Reads the proof in the file `proof`, trims it, and reports the trimmed proof or the first fault. A regular file is read to its end even
/// after a fault, a pipe up to the first fault. It errs if the proof cannot be read or memory runs out.
fn trimmed<D: Disk>(disk: &D, formula: Formula, proof: &str) -> Result<Report, Refusal>
    ensures tells { IfOk result (λ r. HoldsOf (D.holds disk.now proof.now) (λ bytes. TellsTrimming formula bytes r)) }
    ensures refused { IfErr result (IsRefusedAs Refusal.Proof) }
{
    let mut text = opened(disk.alloc(), formula)?;
    let mut bytes = disk.open(proof, Refusal::Proof)?;
    feed_all(&mut bytes, &mut text)?;
    finished(disk.alloc(), text)
}

/// The files of `trim`: two that are read, and one that is written.
#[derive(Clone, Copy)]
pub struct TrimFiles<'a> {
    /// The path of the formula.
    pub input: &'a str,
    /// The path of the proof.
    pub proof: &'a str,
    /// The file of the trimmed proof.
    pub out: Target<'a>,
}

/// Trims the proof in `files.proof`, unless the path of the output leads to one of the files that
/// are read, which is an error. Reports the trimmed proof or the first fault.
fn told_apart<D: Drafts>(
    disk: &D,
    files: &TrimFiles<'_>,
    formula: Formula,
) -> Result<Report, Refusal>
    ensures tells { IfOk result (λ r. HoldsOf (D.holds disk.now files.now.proof.now) (λ bytes. TellsTrimming formula bytes r)) }
    ensures apart { OnOk result (IsApart D.apart disk.now files.now) }
    ensures refused { IfErr result (IsOneOf Refusal.Proof Refusal.Writing) }
{
    let path = files.out.path;
    if disk.is_same(path, files.proof) || disk.is_same(path, files.input) {
        return Err(Refusal::Writing);
    }
    trimmed(disk, formula, files.proof)
}

/// Reads the formula in `files.input` within these limits, trims the proof in `files.proof`, and reports the trimmed proof or the first
/// fault. If the formula has a fault, that is reported, and the proof is not opened.
fn read_and_trim<D: Drafts>(
    disk: &D,
    limits: Limits,
    files: &TrimFiles<'_>,
) -> Result<Report, Refusal>
    ensures tells { IfOk result (λ r. HoldsOf (D.holds disk.now files.now.input.now) (λ text. HoldsOf (D.holds disk.now files.now.proof.now) (λ bytes. Trims limits text bytes r))) }
    ensures apart { IfOk result (λ r. IsSome r.proof → IsApart D.apart disk.now files.now) }
    ensures refused { IfErr result IsUntrimmed }
{
    let mut text = disk.open(files.input, Refusal::Input)?;
    let found = read_formula(disk.alloc(), limits, &mut text)?;
    match found {
        Ok(formula) => told_apart(disk, files, formula),
        Err(fault) => refused_input(disk.alloc(), fault),
    }
}

/// Writes the trimmed proof to the output's file; without a proof, after a fault, no file is
/// touched.
pub(crate) fn write_out<D: Drafts>(
    disk: &mut D,
    out: Target<'_>,
    proof: &Option<PackedText>,
) -> Result<(), Refusal>
    ensures written { OnOk result (IsWritten D.kept disk.old disk.new out.entry.binary out.entry.path.now proof.now) }
    ensures left { OnErr result (disk.new ≡ disk.old) }
    ensures refused { IfErr result (IsRefusedAs Refusal.Writing) }
{
    match proof {
        Some(text) => write_text(disk, out, text),
        None => Ok(()),
    }
}

/// Trims the proof in `files.proof` of the formula in `files.input`, which is read within these limits, writes the trimmed proof to
/// `files.out`, and answers the report. Nothing is written if a fault is reported, and never over a file that is read.
pub fn trim_files<D: Drafts>(
    disk: &mut D,
    limits: Limits,
    files: &TrimFiles<'_>,
) -> Result<Report, Refusal>
    ensures tells { IfOk result (λ r. HoldsOf (D.holds disk.old files.now.input.now) (λ text. HoldsOf (D.holds disk.old files.now.proof.now) (λ bytes. Trims limits text bytes r))) }
    ensures written { IfOk result (λ r. IsWritten D.kept disk.old disk.new files.now.out.binary files.now.out.path.now r.proof) }
    ensures apart { IfOk result (λ r. IsSome r.proof → IsApart D.apart disk.old files.now) }
    ensures left { OnErr result (disk.new ≡ disk.old) }
    ensures refused { IfErr result IsUntrimmed }
{
    let report = read_and_trim(disk, limits, files)?;
    write_out(disk, files.out, &report.proof)?;
    Ok(report)
}
