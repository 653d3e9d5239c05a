//! `lift`: reads another solver's proof of the formula of a leaf, or its LIDRUP text for several leaves, and writes meanwhile the log over
//! the whole formula to which it is lifted.

ghost use Rattle.std.specs.Prelude.{◌≡◌, ◌≢◌, ◌++◌, ◌-◌, ℕ, List, [], IfOk, IfErr, OnErr, OnOk};
ghost use Rattle.commands.specs.Known.{HoldsOf};
ghost use Rattle.commands.specs.Lift.{IsApart, LiftsAt, LiftsBlock, LiftsEach, LiftsTree, fault_lines};
ghost use Rattle.commands.specs.Refusals.{IsRefusedAs, IsUnreadOrUnwritten, IsOneOf, IsWanting};
ghost use Rattle.commands.specs.Trees.{OfTree};
ghost use Rattle.commands.specs.Written.{Keeps};
ghost use Rattle.commands.specs.inner.Parts.{Begins};
ghost use Rattle.commands.specs.inner.Filter.{IsFiltered};
ghost use Rattle.dimacs.specs.logic.Cnf.{Cnf};
ghost use Rattle.text_or_binary.specs.FormLift.{BeginsFormLeaf};
ghost use Rattle.icnf.specs.Leaves.{Cube};
ghost use Rattle.leaves.specs.BlockLift.{BeginsBlock, HasTakenBlock, PrintsBlock, block_of};
ghost use Rattle.leaves.specs.Leaf.{Prints, leaf_at, no_leaf_text};
ghost use Rattle.lidrup.specs.CubeLog.{IsEnded};
ghost use Rattle.lrat_check.specs.ProofFaults.{no_memory};

use crate::drafts::{Drafts, Target, Way};
use crate::filter::{Ending, Filter, run_filter};
use crate::formula_tree::{Begun, begin_files};
use crate::part_file::{Part, part_of};
use crate::whole_source::out_of_memory;
use dimacs::Limits;
use leaves::{BlockLift, LiftOutcome, Split, lift_report};
use lrat_check::CheckFault;
use reports::{Refusal, Report};
use std::alloc::Global;
use text_or_binary::FormLift;

/// The files of a lift: three that are read, and one that is written.
#[derive(Clone, Copy)]
pub struct LiftFiles<'a> {
    /// The path of the formula.
    pub input: &'a str,
    /// The path of the tree of its cubes.
    pub cubes: &'a str,
    /// The path of the other solver's proof, or of its LIDRUP text.
    pub proof: &'a str,
    /// The file of the log.
    pub log: Target<'a>,
}

/// What is lifted, and for which leaves, which are numbered from 1.
#[derive(Clone, Copy)]
pub enum Lifted {
    /// A proof of the formula of the leaf of this number.
    Leaf(u64),
    /// A LIDRUP text for all leaves.
    All,
    /// A LIDRUP text for the leaves from the number `first` to the number `last`.
    Block { first: u64, last: u64 },
}

/// The lift of a proof of the formula of a leaf, and the leaf's number, from 1.
pub(crate) struct LeafLift {
    pub(crate) lift: FormLift,
    pub(crate) leaf: u64,
}

impl Drop for LeafLift {
    fn drop(self) {
        let LeafLift { lift: _, leaf: _ } = self;
    }
}

/// Reports, with status 1, the first fault of a proof, by its line, or in binary form by its step. Out of memory is an error instead.
fn faulty(alloc: Global, fault: CheckFault, is_binary: bool) -> Result<Report, Refusal>
    ensures text { IfOk result (Prints 1 (fault_lines is_binary fault)) }
    ensures memory { OnOk result (fault ≢ no_memory) }
    ensures refused { IfErr result IsWanting }
{
    if fault.is_no_memory() {
        return Err(Refusal::NoMemory);
    }
    let end = if is_binary {
        LiftOutcome::RefusedStep {
            step: fault.line,
            number: fault.number,
        }
    } else {
        LiftOutcome::Refused {
            line: fault.line,
            number: fault.number,
        }
    };
    lift_report(alloc, 0, end).map_err(out_of_memory)
}

/// Reports, with status 1, that no leaf has the number.
pub(crate) fn no_leaf(alloc: Global) -> Result<Report, Refusal>
    ensures text { IfOk result (Prints 1 no_leaf_text) }
    ensures refused { IfErr result IsWanting }
{
    lift_report(alloc, 0, LiftOutcome::NoLeaf).map_err(out_of_memory)
}

impl Filter for LeafLift {
    ghost use Rattle.commands.specs.inner.Lift.{EndsLeaf, leaf_moves, leaf_more, leaf_nothing};

    ghost moved = { leaf_moves };

    ghost out = { λ l. l.lift.lift.out.items };

    ghost ended = { EndsLeaf };

    ghost nothing = { leaf_nothing };

    ghost more = { leaf_more };

    /// Gives the next piece of the proof to the lift.
    fn take(&mut self, piece: &[u8]) -> Result<(), Refusal> {
        self.lift.feed(piece);
        Ok(())
    }

    /// Lends the bytes of the log that are not written to its file yet.
    fn waiting(&self) -> &[u8] {
        self.lift.written()
    }

    /// Drops the bytes of the log that were written.
    fn hand_out(&mut self) {
        self.lift.forget();
    }

    /// Ends the proof: the log is kept if the proof has no fault, and else dropped with a report of
    /// the fault.
    fn end(self, alloc: Global) -> Result<Ending, Refusal> {
        let LeafLift { lift, leaf } = self;
        let is_binary = lift.is_binary();
        match lift.finish() {
            Ok(rest) => {
                let report = lift_report(alloc, leaf, LiftOutcome::Lifted).map_err(out_of_memory)?;
                Ok(Ending::Kept { rest, report })
            }
            Err(fault) => {
                let report = faulty(alloc, fault, is_binary)?;
                Ok(Ending::Dropped(report))
            }
        }
    }
}

/// Copies the last bytes of the log of several leaves, which are not written to its file yet.
fn rest_of(alloc: Global, lift: &BlockLift) -> Result<Vec<u8>, Refusal>
    ensures rest { IfOk result (λ rest. rest.items ≡ lift.now.log.lines.out.items) }
    ensures refused { IfErr result IsWanting }
{
    Vec::from_slice(alloc, lift.written()).map_err(out_of_memory)
}

/// Reports which of the leaves the log closes.
fn told_all(alloc: Global, lift: &BlockLift) -> Result<Report, Refusal>
    requires { IsEnded lift.now.log }
    ensures prints { IfOk result (λ r. (F : Cnf) (place : ℕ) (cubes : List Cube) (bytes handed : List ℕ) → HasTakenBlock F place cubes bytes handed lift.now → PrintsBlock F place cubes bytes (handed ++ lift.now.log.lines.out.items) r) }
    ensures refused { IfErr result IsWanting }
{
    lift.report(alloc).map_err(out_of_memory)
}

impl Filter for BlockLift {
    ghost use Rattle.commands.specs.inner.Lift.{EndsEach, each_moves, each_more, each_nothing};

    ghost moved = { each_moves };

    ghost out = { λ l. l.log.lines.out.items };

    ghost ended = { EndsEach };

    ghost nothing = { each_nothing };

    ghost more = { each_more };

    /// Gives the next piece of the LIDRUP text to the lift.
    fn take(&mut self, piece: &[u8]) -> Result<(), Refusal> {
        self.feed(piece);
        Ok(())
    }

    /// Lends the bytes of the log that are not written to its file yet.
    fn waiting(&self) -> &[u8] {
        self.written()
    }

    /// Drops the bytes of the log that were written.
    fn hand_out(&mut self) {
        self.forget();
    }

    /// Ends the LIDRUP text: the log is kept if the text has no fault, and else dropped with a
    /// report of the fault.
    fn end(self, alloc: Global) -> Result<Ending, Refusal> {
        match self.finish() {
            Ok(()) => {
                let rest = rest_of(alloc, &self)?;
                let report = told_all(alloc, &self)?;
                Ok(Ending::Kept { rest, report })
            }
            Err(fault) => {
                let refused = faulty(alloc, fault, false)?;
                Ok(Ending::Dropped(refused))
            }
        }
    }
}

/// Errs if the path of the log leads to one of the three files that are read.
fn test_apart<D: Drafts>(disk: &D, files: &LiftFiles<'_>) -> Result<(), Refusal>
    ensures apart { OnOk result (IsApart D.apart disk.now files.now) }
    ensures refused { IfErr result (IsRefusedAs Refusal.Writing) }
{
    let path = files.log.path;
    if disk.is_same(path, files.input)
        || disk.is_same(path, files.cubes)
        || disk.is_same(path, files.proof)
    {
        return Err(Refusal::Writing);
    }
    Ok(())
}

/// Errs if the path of the log leads to one of the three files that are read, or if no log can be written there, as far as this can be told
/// before there is one.
pub(crate) fn test_log<D: Drafts>(disk: &D, files: &LiftFiles<'_>) -> Result<(), Refusal>
    ensures refused { IfErr result (IsRefusedAs Refusal.Writing) }
{
    test_apart(disk, files)?;
    disk.test(files.log.path)
}

/// Creates the file of the log. It errs if its path leads to one of the three files that are read, or if it cannot be created beside that
/// path.
pub(crate) fn begin_log<D: Drafts>(
    disk: &D,
    files: &LiftFiles<'_>,
) -> Result<Part<D::Draft>, Refusal>
    ensures begins { IfOk result (Begins D.made files.now.log.binary files.now.log.path.now) }
    ensures apart { OnOk result (IsApart D.apart disk.now files.now) }
    ensures refused { IfErr result (IsRefusedAs Refusal.Writing) }
{
    test_apart(disk, files)?;
    match disk.begin(files.log.path, Way::Beside)? {
        Some(draft) => Ok(part_of(disk, draft, files.log.binary)),
        None => Err(Refusal::Writing),
    }
}

/// Runs the filter `taker` over the file of the proof, writes the log, and answers the filter's report. The proof is opened before the log
/// is created.
fn lift_proof<D: Drafts, P: Filter + Drop>(
    disk: &mut D,
    files: &LiftFiles<'_>,
    taker: P,
) -> Result<Report, Refusal>
    ensures poured { IfOk result (λ r. HoldsOf (D.holds disk.old files.now.proof.now)
        (λ bytes. IsFiltered P.moved P.ended D.kept disk.old disk.new files.now.log.binary files.now.log.path.now taker bytes r)) }
    ensures apart { OnOk result (IsApart D.apart disk.old files.now) }
    ensures left { OnErr result (disk.new ≡ disk.old) }
    ensures refused { IfErr result (IsOneOf Refusal.Proof Refusal.Writing) }
{
    let pieces = disk.open(files.proof, Refusal::Proof)?;
    let part = begin_log(disk, files)?;
    run_filter(disk, pieces, part, taker)
}

/// A lift of a proof of the leaf of this number, from 1, that has taken no byte; `None` if there is no such leaf.
pub(crate) fn begin_leaf(
    alloc: Global,
    split: Split,
    leaf: u64,
) -> Result<Option<FormLift>, Refusal>
    ensures begins { IfOk result (BeginsFormLeaf split.formula split.tree leaf) }
    ensures refused { IfErr result IsWanting }
{
    FormLift::of(alloc, split, leaf).map_err(out_of_memory)
}

/// A lift of a LIDRUP text for all leaves of a tree that has taken no byte.
fn begin_all(alloc: Global, split: Split) -> Result<BlockLift, Refusal>
    ensures begins { IfOk result (HasTakenBlock split.formula 0 split.tree [] []) }
    ensures refused { IfErr result IsWanting }
{
    BlockLift::of(alloc, split).map_err(out_of_memory)
}

/// A lift of a LIDRUP text for the leaves from number `first` to number `last`, from 1, that has taken no byte; `None` if there are no such
/// leaves.
fn begin_block(
    alloc: Global,
    split: Split,
    first: u64,
    last: u64,
) -> Result<Option<BlockLift>, Refusal>
    ensures begins { IfOk result (BeginsBlock split.formula split.tree first last) }
    ensures refused { IfErr result IsWanting }
{
    BlockLift::block(alloc, split, first, last).map_err(out_of_memory)
}

/// Lifts a proof of the formula of the leaf of this number, from 1, and writes its log. Answers the report, also that there is no such
/// leaf.
fn lift_leaf<D: Drafts>(
    disk: &mut D,
    files: &LiftFiles<'_>,
    split: Split,
    leaf: u64,
) -> Result<Report, Refusal>
    ensures lifts { IfOk result (λ r. HoldsOf (D.holds disk.old files.now.proof.now)
        (λ proof. LiftsAt (Keeps D.kept disk.old disk.new files.now.log.binary files.now.log.path.now) (disk.new ≡ disk.old) split.formula (leaf_at split.tree leaf) leaf proof r)) }
    ensures apart { IfOk result (λ r. r.status ≢ 1 → IsApart D.apart disk.old files.now) }
    ensures left { OnErr result (disk.new ≡ disk.old) }
    ensures refused { IfErr result (IsOneOf Refusal.Proof Refusal.Writing) }
{
    let begun = begin_leaf(disk.alloc(), split, leaf)?;
    match begun {
        Some(lift) => lift_proof(disk, files, LeafLift { lift, leaf }),
        None => no_leaf(disk.alloc()),
    }
}

/// Lifts a LIDRUP text for the leaves of `lift`, and writes its log. Answers the report.
fn lift_text<D: Drafts>(
    disk: &mut D,
    files: &LiftFiles<'_>,
    lift: BlockLift,
) -> Result<Report, Refusal>
    ensures lifts { (F : Cnf) (place : ℕ) (cubes : List Cube) → HasTakenBlock F place cubes [] [] lift → IfOk result (λ r. HoldsOf (D.holds disk.old files.now.proof.now)
        (λ text. LiftsEach (Keeps D.kept disk.old disk.new files.now.log.binary files.now.log.path.now) (disk.new ≡ disk.old) F place cubes text r)) }
    ensures apart { OnOk result (IsApart D.apart disk.old files.now) }
    ensures left { OnErr result (disk.new ≡ disk.old) }
    ensures refused { IfErr result (IsOneOf Refusal.Proof Refusal.Writing) }
{
    lift_proof(disk, files, lift)
}

/// Lifts a LIDRUP text for all leaves of a tree, and writes its log. Answers the report.
fn lift_all<D: Drafts>(disk: &mut D, files: &LiftFiles<'_>, split: Split) -> Result<Report, Refusal>
    ensures lifts { IfOk result (λ r. HoldsOf (D.holds disk.old files.now.proof.now)
        (λ text. LiftsEach (Keeps D.kept disk.old disk.new files.now.log.binary files.now.log.path.now) (disk.new ≡ disk.old) split.formula 0 split.tree text r)) }
    ensures apart { OnOk result (IsApart D.apart disk.old files.now) }
    ensures left { OnErr result (disk.new ≡ disk.old) }
    ensures refused { IfErr result (IsOneOf Refusal.Proof Refusal.Writing) }
{
    let lift = begin_all(disk.alloc(), split)?;
    lift_text(disk, files, lift)
}

/// Lifts a LIDRUP text for the leaves from number `first` to number `last`, from 1, and writes its log. Answers the report, also that there
/// are no such leaves.
fn lift_block<D: Drafts>(
    disk: &mut D,
    files: &LiftFiles<'_>,
    split: Split,
    first: u64,
    last: u64,
) -> Result<Report, Refusal>
    ensures lifts { IfOk result (λ r. HoldsOf (D.holds disk.old files.now.proof.now)
        (λ text. LiftsBlock (Keeps D.kept disk.old disk.new files.now.log.binary files.now.log.path.now) (disk.new ≡ disk.old) split.formula (first - 1) (block_of split.tree first last) text r)) }
    ensures apart { IfOk result (λ r. r.status ≢ 1 → IsApart D.apart disk.old files.now) }
    ensures left { OnErr result (disk.new ≡ disk.old) }
    ensures refused { IfErr result (IsOneOf Refusal.Proof Refusal.Writing) }
{
    let begun = begin_block(disk.alloc(), split, first, last)?;
    match begun {
        Some(lift) => lift_text(disk, files, lift),
        None => no_leaf(disk.alloc()),
    }
}

/// Lifts a proof for the leaves that `lifted` names, and writes its log. Answers the report.
fn lift_tree<D: Drafts>(
    disk: &mut D,
    files: &LiftFiles<'_>,
    split: Split,
    lifted: Lifted,
) -> Result<Report, Refusal>
    ensures lifts { IfOk result (λ r. HoldsOf (D.holds disk.old files.now.proof.now)
        (λ proof. LiftsTree (Keeps D.kept disk.old disk.new files.now.log.binary files.now.log.path.now) (disk.new ≡ disk.old) split.formula split.tree lifted proof r)) }
    ensures dropped { IfOk result (λ r. r.status ≡ 1 → disk.new ≡ disk.old) }
    ensures apart { IfOk result (λ r. r.status ≢ 1 → IsApart D.apart disk.old files.now) }
    ensures left { OnErr result (disk.new ≡ disk.old) }
    ensures refused { IfErr result (IsOneOf Refusal.Proof Refusal.Writing) }
{
    match lifted {
        Lifted::Leaf(leaf) => lift_leaf(disk, files, split, leaf),
        Lifted::All => lift_all(disk, files, split),
        Lifted::Block { first, last } => lift_block(disk, files, split, first, last),
    }
}

/// Lifts the proof in `files.proof`, for the leaves that `lifted` names of the tree in `files.cubes`, to a log over the formula in
/// `files.input`. Answers the report. The log is written to `files.log`, whole or not at all, and never over a file that is read. The
/// formula and the cubes are read within these limits.
pub fn lift_files<D: Drafts>(
    disk: &mut D,
    limits: Limits,
    files: &LiftFiles<'_>,
    lifted: Lifted,
) -> Result<Report, Refusal>
    ensures lifts { IfOk result (λ r. HoldsOf (D.holds disk.old files.now.input.now) (λ text. HoldsOf (D.holds disk.old files.now.cubes.now) (λ lines. OfTree limits text lines (λ F tree. HoldsOf (D.holds disk.old files.now.proof.now)
        (λ proof. LiftsTree (Keeps D.kept disk.old disk.new files.now.log.binary files.now.log.path.now) (disk.new ≡ disk.old) F tree lifted proof r)) r))) }
    ensures dropped { IfOk result (λ r. r.status ≡ 1 → disk.new ≡ disk.old) }
    ensures apart { IfOk result (λ r. r.status ≢ 1 → IsApart D.apart disk.old files.now) }
    ensures left { OnErr result (disk.new ≡ disk.old) }
    ensures refused { IfErr result IsUnreadOrUnwritten }
{
    let begun = begin_files(disk, limits, files.input, files.cubes)?;
    match begun {
        Begun::With(split) => lift_tree(disk, files, split, lifted),
        Begun::Refused(report) => Ok(report),
    }
}
