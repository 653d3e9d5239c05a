//! `receipt`: checks a log while its file is read, and writes a small file, the receipt, that tells which leaves the log closes.

ghost use Rattle.std.specs.Prelude.{◌≡◌, ◌≢◌, ℕ, List, [], false, IfOk, IfErr, OnErr, OnOk};
ghost use Rattle.commands.specs.Known.{HoldsOf};
ghost use Rattle.commands.specs.Receipts.{IsApart, TellsReceipt, log_fault_text};
ghost use Rattle.commands.specs.Refusals.{IsRefusedAs, IsUnreadOrUnwritten, IsOneOf, IsWanting};
ghost use Rattle.commands.specs.Trees.{OfTree};
ghost use Rattle.commands.specs.inner.Feed.{Extends};
ghost use Rattle.commands.specs.inner.Receipts.{ComesTo, SaysFault};
ghost use Rattle.dimacs.specs.logic.Cnf.{Cnf};
ghost use Rattle.dimacs.specs.logic.Limits.{written};
ghost use Rattle.icnf.specs.Leaves.{Cube};
ghost use Rattle.leaves.specs.Leaf.{Prints};
ghost use Rattle.receipts.specs.Receipts.{receipt_text};
ghost use Rattle.receipts.specs.LogReceipt.{HasReadLog, IsReceiptOf};
ghost use Rattle.receipts.specs.Contents.{contents_of};

use crate::closed_leaves::{MOST, closed_report};
use crate::drafts::{Drafts, Way};
use crate::feed_loop::{Feeds, feed_all};
use crate::formula_tree::{Begun, begin_files};
use crate::whole_source::out_of_memory;
use dimacs::Limits;
use leaves::Split;
use lrat_check::CheckFault;
use receipts::{BuildFault, Receipt, ReceiptBuilder, write};
use reports::{Refusal, Report, put_fault};
use std::alloc::{AllocError, Global};

/// The files of `receipt`: three that are read, and one that is written.
#[derive(Clone, Copy)]
pub struct ReceiptFiles<'a> {
    /// The path of the formula.
    pub input: &'a str,
    /// The path of the tree of its cubes.
    pub cubes: &'a str,
    /// The path of the log.
    pub log: &'a str,
    /// The path of the receipt.
    pub receipt: &'a str,
}

/// What comes of a log that was read: its receipt, or why it has none.
#[derive(Drop)]
enum Received {
    /// The text of the receipt, and the report of the leaves that the receipt closes.
    Told { text: Vec<u8>, report: Report },
    /// The report of why the log has no receipt.
    Refused(Report),
}

impl Feeds for ReceiptBuilder {
    ghost use Rattle.commands.specs.inner.Feed.{extends_nothing, extends_more};

    ghost took = { λ old new more. (F : Cnf) (cubes : List Cube) → Extends (HasReadLog F cubes) old new more };

    ghost nothing = { λ s F cubes. extends_nothing (HasReadLog F cubes) s };

    ghost more = { λ a b c xs ys h k F cubes. extends_more (HasReadLog F cubes) a b c xs ys (h F cubes) (k F cubes) };

    /// Gives the next piece of the log's file to the builder of its receipt.
    fn feed(&mut self, piece: &[u8]) -> Result<(), Refusal> {
        ReceiptBuilder::feed(self, piece);
        Ok(())
    }

    /// Whether the log has a fault, so that the rest of its file changes nothing.
    fn is_settled(&self) -> bool {
        ReceiptBuilder::is_settled(self)
    }
}

/// A builder of a receipt that has taken no byte of the log. It errs if memory runs out, or if the
/// formula has more than `MOST` variables, which no reader of these commands lets pass.
fn opened(alloc: Global, split: &Split) -> Result<ReceiptBuilder, Refusal>
    ensures reads { IfOk result (HasReadLog split.now.formula split.now.tree []) }
    ensures refused { IfErr result IsWanting }
{
    let formula = split.formula();
    if formula.vars() > MOST {
        return Err(Refusal::NoMemory);
    }
    ReceiptBuilder::of(alloc, formula, split.tree()).map_err(out_of_memory)
}

/// Answers the text of a receipt. It errs if memory runs out.
fn text_of(alloc: Global, receipt: &Receipt) -> Result<Vec<u8>, Refusal>
    ensures text { IfOk result (λ text. text.items ≡ receipt_text (contents_of receipt.now)) }
    ensures refused { IfErr result IsWanting }
{
    let mut text = Vec::new(alloc);
    match write(alloc, receipt, &mut text) {
        Ok(()) => Ok(text),
        Err(_) => Err(Refusal::NoMemory),
    }
}

/// Answers the text of a receipt, and the report of the leaves that it closes. It errs if memory runs out.
fn receipt_and_report(alloc: Global, split: &Split, receipt: &Receipt) -> Result<Received, Refusal>
    ensures tells { IfOk result (λ x. (log : List ℕ) → IsReceiptOf split.now.formula split.now.tree log (contents_of receipt.now) → ComesTo split.now.formula split.now.tree log x) }
    ensures refused { IfErr result IsWanting }
{
    let text = text_of(alloc, receipt)?;
    let report = closed_report(alloc, split, &text)?;
    Ok(Received::Told { text, report })
}

/// Reports, with status 1, the first fault of a log.
fn faulty(alloc: Global, fault: CheckFault) -> Result<Report, AllocError>
    ensures { IfOk result (Prints 1 (log_fault_text fault)) }
{
    let mut report = Report::of(alloc, b"c log ", 1)?;
    put_fault(&mut report.stdout, fault.line, fault.number)?;
    Ok(report)
}

/// Reports, with status 1, why a log has no receipt: its first fault, or that it closes nothing. Out of memory is an error instead.
fn refused_report(alloc: Global, fault: BuildFault) -> Result<Report, Refusal>
    ensures says { IfOk result (SaysFault fault) }
    ensures refused { IfErr result IsWanting }
{
    match fault {
        BuildFault::Log(fault) => faulty(alloc, fault).map_err(out_of_memory),
        BuildFault::ClosesNothing => {
            Report::of(alloc, b"c closes nothing\n", 1).map_err(out_of_memory)
        }
        BuildFault::NoMemory => Err(Refusal::NoMemory),
    }
}

/// Ends the check of a log: answers the text of its receipt with the report of the leaves that it closes, or the report of why it has none.
fn finished(alloc: Global, split: &Split, receiving: ReceiptBuilder) -> Result<Received, Refusal>
    ensures comes { (log : List ℕ) → HasReadLog split.now.formula split.now.tree log receiving → IfOk result (ComesTo split.now.formula split.now.tree log) }
    ensures refused { IfErr result IsWanting }
{
    match receiving.finish() {
        Ok(receipt) => receipt_and_report(alloc, split, &receipt),
        Err(fault) => {
            let report = refused_report(alloc, fault)?;
            Ok(Received::Refused(report))
        }
    }
}

/// Checks the log in the file `log`, and answers its receipt, or why it has none. A regular file is read to its end even after a fault, a
/// pipe up to the first fault. It errs if the log cannot be read or memory runs out.
fn read_log<D: Drafts>(disk: &D, log: &str, split: &Split) -> Result<Received, Refusal>
    ensures comes { IfOk result (λ x. HoldsOf (D.holds disk.now log.now) (λ bytes. ComesTo split.now.formula split.now.tree bytes x)) }
    ensures refused { IfErr result (IsRefusedAs Refusal.Proof) }
{
    let mut receiving = opened(disk.alloc(), split)?;
    let mut bytes = disk.open(log, Refusal::Proof)?;
    feed_all(&mut bytes, &mut receiving)?;
    finished(disk.alloc(), split, receiving)
}

/// Writes a text to a temporary file beside the path, and renames that to the path. It errs if one of these cannot be done; the temporary
/// file is then removed.
fn keep_text<D: Drafts>(disk: &mut D, path: &str, text: &[u8]) -> Result<(), Refusal>
    ensures kept { OnOk result (D.kept disk.old disk.new path.now text.now) }
    ensures left { OnErr result (disk.new ≡ disk.old) }
    ensures refused { IfErr result (IsRefusedAs Refusal.Writing) }
{
    let Some(mut draft) = disk.begin(path, Way::Beside)? else {
        return Err(Refusal::Writing);
    };
    if let Err(refusal) = disk.append(&mut draft, text) {
        disk.remove(draft);
        return Err(refusal);
    }
    if disk.keep(draft)? {
        Ok(())
    } else {
        Err(Refusal::Writing)
    }
}

/// Writes the receipt of a log, if it has one, to the path, and answers the report.
fn write_receipt<D: Drafts>(disk: &mut D, path: &str, received: Received) -> Result<Report, Refusal>
    ensures tells { (F : Cnf) (cubes : List Cube) (log : List ℕ) → ComesTo F cubes log received
        → IfOk result (TellsReceipt (D.kept disk.old disk.new path.now) (disk.new ≡ disk.old) F cubes log) }
    ensures left { OnErr result (disk.new ≡ disk.old) }
    ensures refused { IfErr result (IsRefusedAs Refusal.Writing) }
{
    match received {
        Received::Told { text, report } => {
            keep_text(disk, path, &text)?;
            Ok(report)
        }
        Received::Refused(report) => Ok(report),
    }
}

/// Whether the path of the receipt leads to one of the three files that are read.
fn is_read<D: Drafts>(disk: &D, files: &ReceiptFiles<'_>) -> bool
    ensures { result ≡ false → IsApart D.apart disk.now files.now }
{
    disk.is_same(files.receipt, files.input)
        || disk.is_same(files.receipt, files.cubes)
        || disk.is_same(files.receipt, files.log)
}

/// Checks a log over a formula and the tree of its cubes, writes its receipt, and answers the report. It errs if the path of the receipt
/// leads to a file that is read.
fn receipt_tree<D: Drafts>(
    disk: &mut D,
    files: &ReceiptFiles<'_>,
    split: &Split,
) -> Result<Report, Refusal>
    ensures tells { IfOk result (λ r. HoldsOf (D.holds disk.old files.now.log.now)
        (λ log. TellsReceipt (D.kept disk.old disk.new files.now.receipt.now) (disk.new ≡ disk.old) split.now.formula split.now.tree log r)) }
    ensures apart { OnOk result (IsApart D.apart disk.old files.now) }
    ensures left { OnErr result (disk.new ≡ disk.old) }
    ensures refused { IfErr result (IsOneOf Refusal.Proof Refusal.Writing) }
{
    if is_read(disk, files) {
        return Err(Refusal::Writing);
    }
    let received = read_log(disk, files.log, split)?;
    write_receipt(disk, files.receipt, received)
}

/// Checks the log in `files.log` over the formula in `files.input`, and writes to `files.receipt` which leaves of the tree in `files.cubes`
/// the log closes. Answers the report. The receipt is written whole or not at all, and never over a file that is read.
pub fn receipt_files<D: Drafts>(disk: &mut D, files: &ReceiptFiles<'_>) -> Result<Report, Refusal>
    ensures tells { IfOk result (λ r. HoldsOf (D.holds disk.old files.now.input.now) (λ text. HoldsOf (D.holds disk.old files.now.cubes.now) (λ lines. OfTree written text lines (λ F tree. HoldsOf (D.holds disk.old files.now.log.now)
        (λ log. TellsReceipt (D.kept disk.old disk.new files.now.receipt.now) (disk.new ≡ disk.old) F tree log r)) r))) }
    ensures dropped { IfOk result (λ r. r.status ≡ 1 → disk.new ≡ disk.old) }
    ensures apart { IfOk result (λ r. r.status ≢ 1 → IsApart D.apart disk.old files.now) }
    ensures left { OnErr result (disk.new ≡ disk.old) }
    ensures refused { IfErr result IsUnreadOrUnwritten }
{
    let begun = begin_files(disk, Limits::written(), files.input, files.cubes)?;
    match begun {
        Begun::With(split) => receipt_tree(disk, files, &split),
        Begun::Refused(report) => Ok(report),
    }
}
