//! `cover`: reads the receipts of any machines, and reports whether they close all leaves of a tree.

ghost use Rattle.std.specs.Prelude.{map, IfOk, IfErr};
ghost use Rattle.commands.specs.FormulaTree.{OfQuietTree};
ghost use Rattle.commands.specs.Names.{OfNames};
ghost use Rattle.commands.specs.Cover.{IsUncovered, TellsCover};
ghost use Rattle.commands.specs.Known.{HoldsOf};
ghost use Rattle.commands.specs.Refusals.{IsRefusedAs, IsWanting};
ghost use Rattle.dimacs.specs.logic.Limits.{written};

use crate::cover_receipts::{begin_run, take_all};
use crate::disk::Disk;
use crate::formula_tree::{Begun, begin_files, hushed};
use crate::receipt_names::names_of_receipts;
use dimacs::Limits;
use leaves::Split;
use reports::{Refusal, Report};

/// The files of `cover` besides the receipts.
#[derive(Clone, Copy)]
pub struct CoverFiles<'a> {
    /// The path of the formula.
    pub input: &'a str,
    /// The path of the tree of its cubes.
    pub cubes: &'a str,
    /// `-q`: no line for a receipt that closes nothing, and none for a fault of the formula or the cubes.
    pub quiet: bool,
}

/// Reads the receipts in the files of these names, and reports whether they close all leaves of the tree. It errs if memory runs out.
fn cover_names<D: Disk>(
    disk: &D,
    split: &Split,
    names: &[Vec<u8>],
    quiet: bool,
) -> Result<Report, Refusal>
    ensures covers { IfOk result (TellsCover (D.holds disk.now) split.now.formula split.now.tree quiet (map (λ n. n.items) names.now)) }
    ensures refused { IfErr result IsWanting }
{
    let mut run = begin_run(disk.alloc(), split)?;
    take_all(disk, &mut run, names, quiet)?;
    run.finish()
}

/// Reads the receipts in the files that the command line names (that standard input lists, if `-` is the only name), and reports whether
/// they close all leaves of the tree.
fn cover_tree<D: Disk>(
    disk: &D,
    split: &Split,
    names: &[&str],
    quiet: bool,
) -> Result<Report, Refusal>
    ensures covers { IfOk result (λ r. OfNames (D.holds disk.now) (map (λ n. n.now) names.now) (λ all. TellsCover (D.holds disk.now) split.now.formula split.now.tree quiet all r)) }
    ensures refused { IfErr result (IsRefusedAs Refusal.Proof) }
{
    let all = names_of_receipts(disk, names)?;
    cover_names(disk, split, &all, quiet)
}

/// Reads a formula, the tree of its cubes, and the receipts in the files of these names (of those that standard input lists, if `-` is the
/// only name). Reports whether the receipts close all leaves of the tree.
pub fn cover_files<D: Disk>(
    disk: &D,
    files: &CoverFiles<'_>,
    names: &[&str],
) -> Result<Report, Refusal>
    ensures covers { IfOk result (λ r. HoldsOf (D.holds disk.now files.now.input.now) (λ text. HoldsOf (D.holds disk.now files.now.cubes.now) (λ lines. OfQuietTree written files.now.quiet text lines
        (λ F tree. OfNames (D.holds disk.now) (map (λ n. n.now) names.now) (λ all. TellsCover (D.holds disk.now) F tree files.now.quiet all r)) r))) }
    ensures refused { IfErr result IsUncovered }
{
    let begun = begin_files(disk, Limits::written(), files.input, files.cubes)?;
    match begun {
        Begun::With(split) => cover_tree(disk, &split, names, files.quiet),
        Begun::Refused(report) => Ok(hushed(report, files.quiet)),
    }
}
