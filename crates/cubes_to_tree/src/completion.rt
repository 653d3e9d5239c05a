//! `cubes --complete`: completes a list of cubes to a splitting tree.

ghost use Rattle.std.specs.Prelude.{◌≡◌, ◌<◌, ◌≤◌, ◌^◌, ◌++◌, List, [], false, IfOk, OnOk};
ghost use Rattle.std.specs.List.Sorted.{IsPermutation};
ghost use Rattle.cubes_to_tree.specs.Completion.{Prints, PrintsCompletion, PrintsTree, above_limit_text, added_lines};
ghost use Rattle.cubes_to_tree.specs.CubeList.{listed};
ghost use Rattle.cubes_to_tree.specs.inner.Nodes.{IsBelow, given_below, is_empty_tree, leaf_count};
ghost use Rattle.dimacs.specs.logic.Cnf.{greatest_in};
ghost use Rattle.icnf.specs.Leaves.{Cube};

use crate::cube_reader::read;
use crate::leaf_list::{LeafList, list};
use crate::node::{Node, count};
use dimacs::{Formula, greatest_in};
use icnf::{Kind, TreeBuilder};
use reports::{Report, faulty_cubes, put_number};
use std::alloc::{AllocError, Global};

/// The most leaves that a tree may have.
const LEAVES: usize = 65_536;

/// Appends a line for each leaf that was added, with its number in the tree, from 1.
fn put_added(out: &mut Vec<u8>, added: &[bool]) -> Result<(), AllocError>
    ensures { OnOk result (out.new.items ≡ out.old.items ++ added_lines 1 added.now) }
{
    for (i, flag) in added.iter().enumerate() {
        if *flag {
            out.extend_from_slice(b"c leaf ")?;
            put_number(out, i as u64 + 1)?;
            out.extend_from_slice(b" added\n")?;
        }
    }
    Ok(())
}

/// The report of a tree of at most 65,536 leaves: the added leaves and the tree as iCNF text, status 0.
fn tree_report(alloc: Global, formula: &Formula, root: &Node) -> Result<Report, AllocError>
    requires few { leaf_count root.now ≤ 65536 }
    requires below { IsBelow (greatest_in formula.now.clauses) [] root.now }
    requires some { is_empty_tree root.now ≡ false }
    ensures { IfOk result (λ r. (cubes : List Cube) → IsPermutation (given_below root.now) cubes → PrintsTree formula.now cubes r) }
{
    let mut leaf_list = LeafList {
        cubes: TreeBuilder::new(alloc),
        added: Vec::new(alloc),
    };
    let mut path = Vec::new(alloc);
    list(root, &mut path, &mut leaf_list)?;
    let LeafList { cubes, added } = leaf_list;
    let tree = cubes.finish();
    let mut report = Report::of(alloc, b"", 0)?;
    put_added(&mut report.stdout, &added)?;
    icnf::write(formula, &tree, &mut report.stdout)?;
    Ok(report)
}

/// The report of a tree of more than 65,536 leaves: `c cubes above limit`, status 1.
fn above_limit(alloc: Global) -> Result<Report, AllocError>
    ensures { IfOk result (Prints 1 above_limit_text) }
{
    Report::of(alloc, b"c cubes above limit\n", 1)
}

/// The report of a tree: the tree as iCNF text, or that it has too many leaves.
fn completion_report(alloc: Global, formula: &Formula, root: &Node) -> Result<Report, AllocError>
    requires below { IsBelow (greatest_in formula.now.clauses) [] root.now }
    requires some { is_empty_tree root.now ≡ false }
    ensures { IfOk result (λ r. (cubes : List Cube) → IsPermutation (given_below root.now) cubes → PrintsTree formula.now cubes r) }
{
    if count(root) > LEAVES {
        return above_limit(alloc);
    }
    tree_report(alloc, formula, root)
}

/// Completes the cubes that a text lists to a splitting tree. A line of the text whose first token is `a` is a cube: its literals in the
/// order of the splits, then 0. A line whose first token is not `a` is ignored.
///
/// The report has a line with the number of each leaf that was added, and then the formula and the tree as iCNF text, status 0. Or it has
/// the first fault of the text, or `c cubes above limit` if the tree has more than 65,536 leaves, status 1. An error is reported as `c no
/// memory`, status 1.
pub fn run_complete(alloc: Global, formula: &Formula, text: &[u8]) -> Result<Report, AllocError>
    ensures { IfOk result (PrintsCompletion formula.now (listed (greatest_in formula.now.clauses) text.now)) }
{
    let _ = formula.vars(); // its contract bounds the variables of the literals
    match read(alloc, greatest_in(formula), text) {
        Ok(root) => completion_report(alloc, formula, &root),
        Err(fault) if fault.kind == Kind::NoMemory => Err(AllocError),
        Err(fault) => faulty_cubes(alloc, fault),
    }
}
