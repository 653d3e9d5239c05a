//! `leaf` and `cubes --split`: the formula of a leaf, and the tree with a leaf cut in two, within limits.

ghost use Rattle.std.specs.Prelude.{◌≡◌, ℕ, List, IfOk, IfErr};
ghost use Rattle.commands.specs.Known.{HoldsOf};
ghost use Rattle.commands.specs.Refusals.{IsOneOf};
ghost use Rattle.commands.specs.Trees.{OfTree};
ghost use Rattle.leaves.specs.Leaf.{PrintsLeaf};
ghost use Rattle.leaves.specs.LookaheadSplit.{PrintsCut};
ghost use Rattle.leaves.specs.LeafSplit.{PrintsSplit};

use crate::disk::Disk;
use crate::formula_tree::{Begun, begin_files};
use crate::whole_source::out_of_memory;
use dimacs::Limits;
use leaves::{run_leaf, run_split, run_split_by_look};
use reports::{Refusal, Report};

/// Reports the formula of the leaf of this number, from 1: that in the file `input` under the leaf's cube in the file `cubes`. A fault of a
/// file, or a number that no leaf has, or that the leaf's formula is above these limits, is reported instead.
pub fn leaf_files<D: Disk>(
    disk: &D,
    limits: Limits,
    input: &str,
    cubes: &str,
    leaf: u64,
) -> Result<Report, Refusal>
    ensures report { IfOk result (λ r. HoldsOf (D.holds disk.now input.now) (λ text. HoldsOf (D.holds disk.now cubes.now) (λ lines. OfTree limits text lines (λ F tree. PrintsLeaf limits F tree leaf r) r))) }
    ensures refused { IfErr result (IsOneOf Refusal.Input Refusal.Cubes) }
{
    let begun = begin_files(disk, limits, input, cubes)?;
    match begun {
        Begun::With(split) => run_leaf(disk.alloc(), limits, &split, leaf).map_err(out_of_memory),
        Begun::Refused(report) => Ok(report),
    }
}

/// Reports the tree in the file `cubes` with the leaf of this number, from 1, cut in two on the variable `on`, or on one that is chosen if
/// `on` is `None`. The files are read within these limits.
pub fn split_files<D: Disk>(
    disk: &D,
    limits: Limits,
    input: &str,
    cubes: &str,
    leaf: u64,
    on: Option<u32>,
) -> Result<Report, Refusal>
    ensures report { IfOk result (λ r. HoldsOf (D.holds disk.now input.now) (λ text. HoldsOf (D.holds disk.now cubes.now) (λ lines. OfTree limits text lines (λ F tree. PrintsSplit F tree leaf on r) r))) }
    ensures refused { IfErr result (IsOneOf Refusal.Input Refusal.Cubes) }
{
    let begun = begin_files(disk, limits, input, cubes)?;
    match begun {
        Begun::With(split) => run_split(disk.alloc(), split, leaf, on).map_err(out_of_memory),
        Begun::Refused(report) => Ok(report),
    }
}

/// Reports the tree in the file `cubes` with the leaf of this number, from 1, cut in two on a variable that a look ahead chooses. The files
/// are read within these limits.
pub fn split_by_look_files<D: Disk>(
    disk: &D,
    limits: Limits,
    input: &str,
    cubes: &str,
    leaf: u64,
) -> Result<Report, Refusal>
    ensures report { IfOk result (λ r. HoldsOf (D.holds disk.now input.now) (λ text. HoldsOf (D.holds disk.now cubes.now) (λ lines. OfTree limits text lines (λ F tree. PrintsCut F tree leaf r) r))) }
    ensures refused { IfErr result (IsOneOf Refusal.Input Refusal.Cubes) }
{
    let begun = begin_files(disk, limits, input, cubes)?;
    match begun {
        Begun::With(split) => run_split_by_look(disk.alloc(), split, leaf).map_err(out_of_memory),
        Begun::Refused(report) => Ok(report),
    }
}
