//! `lift --drat`: reads another solver's DRAT proof of the formula of a leaf, elaborates it to LRAT, and writes the log over the whole
//! formula to which that is lifted.

ghost use Rattle.std.specs.Prelude.{◌≡◌, ◌≢◌, Some, Err, IfOk, IfErr, OnErr, OnOk};
ghost use Rattle.commands.specs.Known.{HoldsOf};
ghost use Rattle.commands.specs.Lift.{IsApart, LiftsAt};
ghost use Rattle.commands.specs.LiftDrat.{LiftsDrat, LiftsDratAt, needs_rat_text};
ghost use Rattle.commands.specs.Refusals.{IsOneOf, IsRefusedAs, IsUnreadOrUnwritten, IsWanting};
ghost use Rattle.commands.specs.Trees.{OfTree};
ghost use Rattle.commands.specs.Written.{Keeps};
ghost use Rattle.commands.specs.inner.Filter.{IsFiltered};
ghost use Rattle.drat_elaborate.specs.Reports.{elaboration_text};
ghost use Rattle.icnf.specs.Leaves.{Cube};
ghost use Rattle.leaves.specs.Leaf.{GivesLeaf, Prints, leaf_at, leaf_of};
ghost use Rattle.lrat_text.specs.Proof.{Accepts};

use crate::drafts::Drafts;
use crate::elaborate::{elaborate_pieces, told};
use crate::filter::{Filter, run_filter_packed};
use crate::formula_tree::{Begun, begin_files};
use crate::lift::{LeafLift, LiftFiles, begin_leaf, begin_log, no_leaf, test_log};
use crate::whole_source::out_of_memory;
use dimacs::{Formula, Limits};
use drat_elaborate::{Elaborated, ElaborationFault, Unobserved};
use leaves::{Split, leaf_formula};
use packed_text::PackedText;
use reports::{Refusal, Report};
use std::alloc::Global;

/// Reports, with status 1, the fault of a DRAT proof. Out of memory is an error instead.
fn faulty(alloc: Global, fault: ElaborationFault) -> Result<Report, Refusal>
    ensures prints { IfOk result (Prints 1 (elaboration_text (Err fault))) }
    ensures refused { IfErr result IsWanting }
{
    told(alloc, Err(fault))
}

/// Reports, with status 1, that a DRAT proof needs a RAT lemma, which no log has.
fn needs_rat(alloc: Global) -> Result<Report, Refusal>
    ensures prints { IfOk result (Prints 1 needs_rat_text) }
    ensures refused { IfErr result IsWanting }
{
    Report::of(alloc, b"c proof needs RAT\n", 1).map_err(out_of_memory)
}

/// Finds the formula of the leaf of this number, from 1, or the report that says why there is none, which is the inner error.
fn formula_of_leaf(
    alloc: Global,
    limits: Limits,
    split: &Split,
    leaf: u64,
) -> Result<Result<Formula, Report>, Refusal>
    ensures gives { IfOk result (GivesLeaf limits split.now.formula split.now.tree leaf) }
    ensures refused { IfErr result IsWanting }
{
    leaf_formula(alloc, limits, split, leaf).map_err(out_of_memory)
}

/// Elaborates the DRAT proof in `files.proof` of the formula of a leaf. Before its first byte is read it is tested whether the log can be
/// written, as far as this can be told.
fn elaborate_leaf<D: Drafts>(
    disk: &D,
    files: &LiftFiles<'_>,
    formula: Formula,
) -> Result<Result<Elaborated, ElaborationFault>, Refusal>
    ensures accepted { IfOk result (λ found. IfOk found (λ e. Accepts formula e.text)) }
    ensures refused { IfErr result (IsOneOf Refusal.Proof Refusal.Writing) }
{
    let mut pieces = disk.open(files.proof, Refusal::Proof)?;
    test_log(disk, files)?;
    elaborate_pieces(disk.alloc(), formula, &mut pieces, &mut Unobserved)
}

/// Runs the filter `taker` over a proof, writes the log, and answers the filter's report.
fn lift_packed<D: Drafts, P: Filter + Drop>(
    disk: &mut D,
    files: &LiftFiles<'_>,
    proof: &PackedText,
    taker: P,
) -> Result<Report, Refusal>
    ensures poured { IfOk result (IsFiltered P.moved P.ended D.kept disk.old disk.new files.now.log.binary files.now.log.path.now taker proof.now) }
    ensures apart { OnOk result (IsApart D.apart disk.old files.now) }
    ensures left { OnErr result (disk.new ≡ disk.old) }
    ensures refused { IfErr result (IsRefusedAs Refusal.Writing) }
{
    let part = begin_log(disk, files)?;
    run_filter_packed(disk, proof, part, taker)
}

/// Lifts an LRAT proof of the formula of the leaf of this number, from 1, and writes its log. Answers the report.
fn lift_made<D: Drafts>(
    disk: &mut D,
    files: &LiftFiles<'_>,
    split: Split,
    leaf: u64,
    proof: &PackedText,
) -> Result<Report, Refusal>
    ensures lifts { IfOk result (LiftsAt (Keeps D.kept disk.old disk.new files.now.log.binary files.now.log.path.now) (disk.new ≡ disk.old) split.formula (leaf_at split.tree leaf) leaf proof.now) }
    ensures apart { IfOk result (λ r. r.status ≢ 1 → IsApart D.apart disk.old files.now) }
    ensures left { OnErr result (disk.new ≡ disk.old) }
    ensures refused { IfErr result (IsRefusedAs Refusal.Writing) }
{
    let begun = begin_leaf(disk.alloc(), split, leaf)?;
    match begun {
        Some(lift) => lift_packed(disk, files, proof, LeafLift { lift, leaf }),
        None => no_leaf(disk.alloc()),
    }
}

/// Lifts the LRAT proof that was made of a DRAT proof of a leaf's formula, and writes its log; or reports the fault of the DRAT proof, or
/// that it needs a RAT lemma.
fn lift_found<D: Drafts>(
    disk: &mut D,
    files: &LiftFiles<'_>,
    split: Split,
    leaf: u64,
    found: Result<Elaborated, ElaborationFault>,
) -> Result<Report, Refusal>
    ensures lifts { (q : Cube) → leaf_at split.tree leaf ≡ Some q → IfOk found (λ e. Accepts (leaf_of q split.formula) e.text)
        → IfOk result (LiftsDrat (Keeps D.kept disk.old disk.new files.now.log.binary files.now.log.path.now) (disk.new ≡ disk.old) split.formula q leaf) }
    ensures apart { IfOk result (λ r. r.status ≢ 1 → IsApart D.apart disk.old files.now) }
    ensures left { OnErr result (disk.new ≡ disk.old) }
    ensures refused { IfErr result (IsRefusedAs Refusal.Writing) }
{
    match found {
        Ok(Elaborated { text, statistics }) => {
            if statistics.rats > 0 {
                return needs_rat(disk.alloc());
            }
            lift_made(disk, files, split, leaf, &text)
        }
        Err(fault) => faulty(disk.alloc(), fault),
    }
}

/// Lifts a DRAT proof for the leaf of this number, from 1, whose formula has to be within these limits, and writes its log. Answers the
/// report, also that there is no such leaf.
fn lift_drat_leaf<D: Drafts>(
    disk: &mut D,
    limits: Limits,
    files: &LiftFiles<'_>,
    split: Split,
    leaf: u64,
) -> Result<Report, Refusal>
    ensures lifts { IfOk result (LiftsDratAt limits (Keeps D.kept disk.old disk.new files.now.log.binary files.now.log.path.now) (disk.new ≡ disk.old) split.formula (leaf_at split.tree leaf) leaf) }
    ensures apart { IfOk result (λ r. r.status ≢ 1 → IsApart D.apart disk.old files.now) }
    ensures left { OnErr result (disk.new ≡ disk.old) }
    ensures refused { IfErr result (IsOneOf Refusal.Proof Refusal.Writing) }
{
    let given = formula_of_leaf(disk.alloc(), limits, &split, leaf)?;
    match given {
        Ok(formula) => {
            let found = elaborate_leaf(disk, files, formula)?;
            lift_found(disk, files, split, leaf, found)
        }
        Err(report) => Ok(report),
    }
}

/// Lifts the DRAT proof in `files.proof` of the formula of the leaf of this number, from 1, of the tree in `files.cubes`, to a log over the
/// formula in `files.input`: the proof is elaborated to LRAT first. Answers the report. The log is written to `files.log`, whole or not at
/// all, and never over a file that is read. The formula and the cubes are read within these limits, and the leaf's formula has to be within
/// them.
///
/// # Errors
///
/// A file cannot be read, the log cannot be written, or memory runs out. Then no file is changed.
pub fn lift_drat_files<D: Drafts>(
    disk: &mut D,
    limits: Limits,
    files: &LiftFiles<'_>,
    leaf: u64,
) -> Result<Report, Refusal>
    ensures lifts { IfOk result (λ r. HoldsOf (D.holds disk.old files.now.input.now) (λ text. HoldsOf (D.holds disk.old files.now.cubes.now) (λ lines. OfTree limits text lines (λ F tree.
        LiftsDratAt limits (Keeps D.kept disk.old disk.new files.now.log.binary files.now.log.path.now) (disk.new ≡ disk.old) F (leaf_at tree leaf) leaf r) r))) }
    ensures dropped { IfOk result (λ r. r.status ≢ 0 → disk.new ≡ disk.old) }
    ensures apart { IfOk result (λ r. r.status ≢ 1 → IsApart D.apart disk.old files.now) }
    ensures left { OnErr result (disk.new ≡ disk.old) }
    ensures refused { IfErr result IsUnreadOrUnwritten }
{
    let begun = begin_files(disk, limits, files.input, files.cubes)?;
    match begun {
        Begun::With(split) => lift_drat_leaf(disk, limits, files, split, leaf),
        Begun::Refused(report) => Ok(report),
    }
}
