//! `share`: reads a formula, and cubes if it is split, and searches as one worker of a cell.

ghost use Rattle.std.specs.Prelude.{◌≡◌, ◌<◌, ◌∷◌, ℕ, List, [], None, length, IfOk, IfSome, IfNone, IsSome};
ghost use Rattle.commands.specs.Known.{HoldsOf};
ghost use Rattle.commands.specs.FormulaTree.{OfQuietTree};
ghost use Rattle.commands.specs.Share.{IsLogOver, OfQuietFormula, ReportsEnd, Shares, SharesLeaf};
ghost use Rattle.dimacs.specs.logic.Cnf.{AreWithin};
ghost use Rattle.dimacs.specs.text.Answer.{satisfied_lines};
ghost use Rattle.leaves.specs.Leaf.{Prints, leaf_at, no_leaf_text};
ghost use Rattle.leaves.specs.LeafSearch.{shown};
ghost use Rattle.sharing.specs.Sharing.{IsBeginning};

use crate::disk::Disk;
use crate::formula_tree::{Begun, begin_files, hushed, refused_input};
use crate::lift::no_leaf;
use crate::whole_source::{out_of_memory, read_formula};
use dimacs::{Answer, Assignment, Formula, Limits, answer_lines};
use icnf::Tree;
use leaves::Split;
use reports::{Refusal, Report};
use sharing::{Asked, Cell, Folder, Shared, Teller, share};
use std::alloc::Global;
use watches::Watched;

/// What a worker of a cell reads, and what it is asked.
#[derive(Clone, Copy)]
pub struct Sharing<'a> {
    /// The path of the formula.
    pub input: &'a str,
    /// What the worker is asked.
    pub asked: Asked,
    /// Whether the `v` lines of an assignment are printed.
    pub witness: bool,
}

/// What a worker of a cell on a split formula reads, and what it is asked.
#[derive(Clone, Copy)]
pub struct LeafSharing<'a> {
    /// The formula, and what the worker is asked.
    pub sharing: Sharing<'a>,
    /// The path of the tree of the cubes.
    pub cubes: &'a str,
    /// The number of the leaf under which the worker searches first, from 1.
    pub leaf: u64,
}

/// The report of a `c` line, which is left out if `quiet`.
fn told(alloc: Global, line: &[u8], status: u8, quiet: bool) -> Result<Report, Refusal>
    ensures { IfOk result (Prints status (shown quiet line.now)) }
{
    let report = Report::of(alloc, line, status).map_err(out_of_memory)?;
    Ok(hushed(report, quiet))
}

/// The report of an assignment: status 10, and the `v` lines if `witness`.
fn satisfied(alloc: Global, values: &Assignment, witness: bool) -> Result<Report, Refusal>
    ensures { IfOk result (Prints 10 (satisfied_lines values.now witness)) }
{
    let mut text = Vec::new(alloc);
    answer_lines(Answer::Satisfiable(values), witness, &mut text).map_err(out_of_memory)?;
    Ok(Report {
        stdout: text,
        status: 10,
        proof: None,
    })
}

/// Reports how a worker ended.
fn reported(alloc: Global, end: Shared, quiet: bool, witness: bool) -> Result<Report, Refusal>
    ensures { IfOk result (ReportsEnd quiet witness end) }
{
    match end {
        Shared::Satisfied(values) => satisfied(alloc, &values, witness),
        Shared::Closed => told(alloc, b"c closed\n", 20, quiet),
        Shared::ClosedByOthers => told(alloc, b"c closed by others\n", 0, quiet),
        Shared::Limit => told(alloc, b"c limit\n", 0, quiet),
    }
}

/// Searches as one worker of a cell, and reports how that ends.
fn share_cell<F: Folder, T: Teller>(
    alloc: Global,
    cell: Cell<'_>,
    witness: bool,
    folder: &mut F,
    teller: &mut T,
) -> Result<Report, Refusal>
    requires within { AreWithin cell.formula.now.vars cell.tree.now }
    requires first { cell.first < length cell.tree.now }
    ensures log { F.has_logged folder.old [] → (bytes : List ℕ) × F.has_logged folder.new bytes × IsBeginning cell.entry.formula.now bytes }
    ensures shares { IfOk result (λ r. F.has_logged folder.old [] → T.has_told teller.old []
        → Shares (F.has_logged folder.new) (T.has_told teller.new) cell.entry.formula.now cell.entry.tree.now cell.entry.asked.quiet witness r) }
{
    let mut watched = Watched::new(alloc);
    let end = share(alloc, &mut watched, cell, folder, teller)?;
    let report = reported(alloc, end, cell.asked.quiet, witness)?;
    Ok(report)
}

/// Searches for an assignment that satisfies the formula, which is not split.
fn share_whole<F: Folder, T: Teller>(
    alloc: Global,
    formula: &Formula,
    files: &Sharing<'_>,
    folder: &mut F,
    teller: &mut T,
) -> Result<Report, Refusal>
    ensures log { F.has_logged folder.old [] → (bytes : List ℕ) × F.has_logged folder.new bytes × IsBeginning formula.now bytes }
    ensures shares { IfOk result (λ r. F.has_logged folder.old [] → T.has_told teller.old []
        → Shares (F.has_logged folder.new) (T.has_told teller.new) formula.now ([] ∷ []) files.now.asked.quiet files.now.witness r) }
{
    let tree = Tree::leaf(alloc).map_err(out_of_memory)?;
    let cell = Cell {
        formula,
        tree: &tree,
        first: 0,
        asked: files.asked,
    };
    share_cell(alloc, cell, files.witness, folder, teller)
}

/// Reports that no leaf has the number; the line is left out if `quiet`.
fn no_such_leaf(alloc: Global, quiet: bool) -> Result<Report, Refusal>
    ensures { IfOk result (Prints 1 (shown quiet no_leaf_text)) }
{
    let report = no_leaf(alloc)?;
    Ok(hushed(report, quiet))
}

/// The cell of a split formula with a worker that begins with the leaf of this number, from 1; `None` if there is no such leaf.
fn cell_of<'a>(split: &'a Split, leaf: u64, asked: Asked) -> Option<Cell<'a>>
    ensures found { IfSome result (λ cell. (cell.formula.now ≡ split.now.formula) × (cell.tree.now ≡ split.now.tree) × (cell.asked ≡ asked) × (cell.first < length split.now.tree)) }
    ensures within { IfSome result (λ cell. AreWithin cell.formula.now.vars cell.tree.now) }
    ensures leaf { IfSome result (λ cell. IsSome (leaf_at split.now.tree leaf)) }
    ensures none { IfNone result (leaf_at split.now.tree leaf ≡ None) }
{
    let tree = split.tree();
    if leaf == 0 || leaf > tree.leaves() as u64 {
        return None;
    }
    Some(Cell {
        formula: split.formula(),
        tree,
        first: leaf as usize - 1,
        asked,
    })
}

/// Searches under the leaves of a tree, from the one that is asked for on; or reports that there is no such leaf.
fn share_split<F: Folder, T: Teller>(
    alloc: Global,
    split: &Split,
    files: &LeafSharing<'_>,
    folder: &mut F,
    teller: &mut T,
) -> Result<Report, Refusal>
    ensures log { F.has_logged folder.old [] → (bytes : List ℕ) × F.has_logged folder.new bytes × IsBeginning split.now.formula bytes }
    ensures shares { IfOk result (λ r. F.has_logged folder.old [] → T.has_told teller.old []
        → SharesLeaf (F.has_logged folder.new) (T.has_told teller.new) (leaf_at split.now.tree files.now.leaf) split.now.formula split.now.tree files.now.sharing.asked.quiet files.now.sharing.witness r) }
{
    match cell_of(split, files.leaf, files.sharing.asked) {
        Some(cell) => {
            let report = share_cell(alloc, cell, files.sharing.witness, folder, teller)?;
            Ok(report)
        }
        None => {
            let none = no_such_leaf(alloc, files.sharing.asked.quiet)?;
            Ok(none)
        }
    }
}

/// Reads the formula in `files.input` within these limits, and searches as one worker of the cell whose files are in `folder`. Answers the
/// report.
///
/// Whatever the folder's other files have, and however the run ends: what stands in the worker's log is the beginning of a log with imports
/// over the formula.
pub fn share_files<D: Disk, F: Folder, T: Teller>(
    disk: &D,
    limits: Limits,
    files: &Sharing<'_>,
    folder: &mut F,
    teller: &mut T,
) -> Result<Report, Refusal>
    ensures log { F.has_logged folder.old [] → (bytes : List ℕ) × F.has_logged folder.new bytes × HoldsOf (D.holds disk.now files.now.input.now) (λ text. IsLogOver limits text bytes) }
    ensures shares { IfOk result (λ r. HoldsOf (D.holds disk.now files.now.input.now) (λ text. OfQuietFormula limits files.now.asked.quiet text (λ G. F.has_logged folder.old [] → T.has_told teller.old []
        → Shares (F.has_logged folder.new) (T.has_told teller.new) G ([] ∷ []) files.now.asked.quiet files.now.witness r) r)) }
{
    let mut text = disk.open(files.input, Refusal::Input)?;
    let found = read_formula(disk.alloc(), limits, &mut text)?;
    match found {
        Ok(formula) => {
            let told = share_whole(disk.alloc(), &formula, files, folder, teller)?;
            Ok(told)
        }
        Err(fault) => {
            let report = refused_input(disk.alloc(), fault)?;
            Ok(hushed(report, files.asked.quiet))
        }
    }
}

/// Reads the formula and the tree of its cubes, both within these limits, and searches as one worker of the cell whose files are in `folder`,
/// under the leaf that is asked for, and then under the others and the whole formula. Tells `teller` which leaves are closed, and answers the
/// report.
///
/// Whatever the folder's other files have, and however the run ends: what stands in the worker's log is the beginning of a log with imports
/// over the formula.
pub fn share_leaf_files<D: Disk, F: Folder, T: Teller>(
    disk: &D,
    limits: Limits,
    files: &LeafSharing<'_>,
    folder: &mut F,
    teller: &mut T,
) -> Result<Report, Refusal>
    ensures log { F.has_logged folder.old [] → (bytes : List ℕ) × F.has_logged folder.new bytes × HoldsOf (D.holds disk.now files.now.sharing.input.now) (λ text. IsLogOver limits text bytes) }
    ensures shares { IfOk result (λ r. HoldsOf (D.holds disk.now files.now.sharing.input.now) (λ text. HoldsOf (D.holds disk.now files.now.cubes.now) (λ lines. OfQuietTree limits files.now.sharing.asked.quiet text lines
        (λ G tree. F.has_logged folder.old [] → T.has_told teller.old []
        → SharesLeaf (F.has_logged folder.new) (T.has_told teller.new) (leaf_at tree files.now.leaf) G tree files.now.sharing.asked.quiet files.now.sharing.witness r) r))) }
{
    let quiet = files.sharing.asked.quiet;
    let begun = begin_files(disk, limits, files.sharing.input, files.cubes)?;
    match begun {
        Begun::With(split) => {
            let told = share_split(disk.alloc(), &split, files, folder, teller)?;
            Ok(told)
        }
        Begun::Refused(report) => Ok(hushed(report, quiet)),
    }
}
