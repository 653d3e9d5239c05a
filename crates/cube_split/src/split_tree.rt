//! Splitting trees, grown leaf by leaf or by the split rule.

ghost use Rattle.std.specs.Prelude.{◌≡◌, ◌+◌, ◌^◌, ◌<◌, ◌≤◌, List, [], ◌∷◌, ◌++◌, ◌⊎◌, Some, None, length, slice_index_or, vec_len, All, IfOk, IfSome, IfNone, OnOk, OnErr};
ghost use Rattle.dimacs.specs.logic.Cnf.{Cnf, AreWithin, greatest_in};
ghost use Rattle.dimacs.specs.logic.Literal.{Literal, var_of};
ghost use Rattle.icnf.specs.Leaves.{Cube, IsFree, branched};
ghost use Rattle.cube_split.specs.ChoiceWithDefinitions.{Chooses, IsTreeWith};
ghost use Rattle.cube_split.specs.Definitions.{IsPairOf, Opening};
ghost use Rattle.cube_split.specs.SplitTree.{IsTreeOf};
ghost use Rattle.cube_split.specs.inner.AppendedCubes.{AppendsChosen};
ghost use Rattle.cube_split.specs.inner.DescentInvariant.{IsDescentAt};

use crate::descent::Descent;
use crate::pure::preamble;
use crate::units::Preamble;
use dimacs::{Formula, Lit, Var};
use icnf::{Tree, TreeBuilder};
use std::alloc::{AllocError, Global};

/// Splits a leaf of a tree: replaces it by its two branches on a variable that is not in the leaf's cube, the positive branch first. If
/// memory is refused, the tree is unchanged.
pub fn grow(tree: &mut Tree, leaf: usize, var: Var) -> Result<(), AllocError>
    requires leaf { leaf < length tree.old }
    requires limit { length tree.old < 65536 }
    requires short { length (slice_index_or tree.old leaf []) < 64 }
    requires free { IsFree (slice_index_or tree.old leaf []) var }
    ensures ok { OnOk result (tree.new ≡ branched leaf var tree.old) }
    ensures err { OnErr result (tree.new ≡ tree.old) }
{
    tree.split(leaf, var)
}

/// The variable on which the cube of a walk's path is split; None if no level is left, or if the rule does not split it.
fn next_choice(walk: &Descent, levels: u32) -> Option<Var>
    requires { (F : Cnf) × (opening : Opening) × (path : Cube) × (trail : Cube) × IsDescentAt F opening path trail walk.now }
    ensures none { IfNone result ((F : Cnf) (opening : Opening) (path trail : Cube) → IsDescentAt F opening path trail walk.now → (levels ≡ 0) ⊎ Chooses F opening path None) }
    ensures some { IfSome result (λ v. (F : Cnf) (opening : Opening) (path trail : Cube) → IsDescentAt F opening path trail walk.now → (0 < levels) × Chooses F opening path (Some v)) }
{
    if levels == 0 {
        return None;
    }
    walk.choice()
}

/// Goes down to the branch of a literal of the chosen variable, appends the leaves there, split by the rule at most `levels` deep, and goes
/// back up.
#[cycle(growing)]
fn append_branch(
    walk: &mut Descent,
    leaves: &mut TreeBuilder,
    path: &mut Vec<Lit>,
    literal: Lit,
    levels: u32,
) -> Result<(), AllocError>
    requires stands { (F : Cnf) × (opening : Opening) × (trail : Cube) × IsDescentAt F opening path.old.items trail walk.old × Chooses F opening path.old.items (Some (var_of literal)) }
    requires room { length leaves.old + 2 ^ levels ≤ 65536 }
    requires short { vec_len path.old + levels < 64 }
    ensures stands { OnOk result ((F : Cnf) (opening : Opening) (trail : Cube) → IsDescentAt F opening path.old.items trail walk.old → Chooses F opening path.old.items (Some (var_of literal)) →
        IsDescentAt F opening path.old.items trail walk.new) }
    ensures path { OnOk result (path.new.items ≡ path.old.items) }
    ensures room { OnOk result (length leaves.new ≤ length leaves.old + 2 ^ levels) }
    ensures split { OnOk result ((F : Cnf) (opening : Opening) (trail : Cube) → IsDescentAt F opening path.old.items trail walk.old →
        AppendsChosen F opening levels (path.old.items ++ literal ∷ []) leaves.old leaves.new) }
{
    walk.enter(literal);
    path.push(literal)?;
    append_below(walk, leaves, path, levels)?;
    path.pop();
    walk.leave(literal);
    Ok(())
}

/// Appends the leaves below a path, split by the rule at most `levels` deep: the path itself if it is not split.
#[cycle(growing)]
fn append_below(
    walk: &mut Descent,
    leaves: &mut TreeBuilder,
    path: &mut Vec<Lit>,
    levels: u32,
) -> Result<(), AllocError>
    requires stands { (F : Cnf) × (opening : Opening) × (trail : Cube) × IsDescentAt F opening path.old.items trail walk.old }
    requires room { length leaves.old + 2 ^ levels ≤ 65536 }
    requires short { vec_len path.old + levels ≤ 64 }
    ensures stands { OnOk result ((F : Cnf) (opening : Opening) (trail : Cube) → IsDescentAt F opening path.old.items trail walk.old → IsDescentAt F opening path.old.items trail walk.new) }
    ensures path { OnOk result (path.new.items ≡ path.old.items) }
    ensures room { OnOk result (length leaves.new ≤ length leaves.old + 2 ^ levels) }
    ensures split { OnOk result ((F : Cnf) (opening : Opening) (trail : Cube) → IsDescentAt F opening path.old.items trail walk.old →
        AppendsChosen F opening levels path.old.items leaves.old leaves.new) }
{
    match next_choice(walk, levels) {
        None => leaves.push(path),
        Some(var) => {
            append_branch(walk, leaves, path, Lit::positive(var), levels - 1)?;
            append_branch(walk, leaves, path, Lit::negative(var), levels - 1)
        }
    }
}

/// Makes the tree of a formula with a preamble by the split rule: each leaf whose cube has fewer than `depth` literals is split on the
/// variable that `choose` answers, if there is one.
pub fn tree_with(
    alloc: Global,
    formula: &Formula,
    preamble: &Preamble,
    depth: u32,
) -> Result<Tree, AllocError>
    requires depth { depth ≤ 16 }
    requires pairs { All (IsPairOf formula.now.vars) preamble.now.pairs }
    ensures split { IfOk result (IsTreeWith formula.now preamble.now depth) }
    // Every variable of a cube is the formula's or a defined one.
    ensures within { IfOk result (AreWithin (formula.now.vars + length preamble.now.pairs)) }
{
    if depth == 0 {
        return Tree::leaf(alloc);
    }
    let mut walk = Descent::begin(alloc, formula, preamble)?;
    let mut leaves = TreeBuilder::new(alloc);
    let mut path = Vec::new(alloc);
    append_below(&mut walk, &mut leaves, &mut path, depth)?;
    Ok(leaves.finish())
}

/// Makes the tree of a formula with the preamble of its pure literals by the split rule: each leaf whose cube has fewer than `depth`
/// literals is split on the variable that `choose` answers, if there is one.
pub fn tree(alloc: Global, formula: &Formula, depth: u32) -> Result<Tree, AllocError>
    requires { depth ≤ 16 }
    ensures split { IfOk result (IsTreeOf formula.now depth) }
    // No cube has a variable above the greatest that occurs in a clause.
    ensures within { IfOk result (AreWithin (greatest_in formula.now.clauses)) }
{
    let _ = formula.vars(); // for proofs: the formula is within its limits
    let preamble = preamble(alloc, formula)?;
    tree_with(alloc, formula, &preamble, depth)
}
