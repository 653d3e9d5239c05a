//! Theorems on cubes, as contracts of functions that do nothing.

ghost use Rattle.std.specs.Prelude.{[], List};
ghost use Rattle.cubes_to_tree.specs.Divergence.{AllDiverge};
ghost use Rattle.icnf.specs.Leaves.{Cube, Leaves};

/// Does nothing. Its contract says: each two leaves of a splitting tree diverge. It follows that cubes of which two do not diverge are not
/// leaves of one tree.
pub fn leaves_diverge()
    ensures { (leaves : List Cube) → Leaves [] leaves → AllDiverge leaves }
{}
