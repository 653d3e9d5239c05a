//! Which leaves a join has closed: a fact for proofs, as the contract of a function that does nothing.

ghost use Rattle.std.specs.Prelude.{ℕ, List};
ghost use Rattle.dimacs.specs.logic.Cnf.{Cnf};
ghost use Rattle.log_join.specs.Written.{leaves_of};
ghost use Rattle.icnf.specs.Leaves.{Cube};
ghost use Rattle.leaves.specs.Join.{HasReadFiles, LeavesClosedByFiles};
ghost use Rattle.leaves.specs.declared.join.Join.{Join};

/// Does nothing. Its contract says that the leaves of a join are those of its tree, and that a leaf is closed exactly if one of the files
/// closes it.
pub fn joined_leaves()
    ensures { (F : Cnf) (cubes : List Cube) (files : List (List ℕ)) (bytes written : List ℕ) (j : Join)
        → HasReadFiles F cubes files bytes written j → LeavesClosedByFiles F cubes files (leaves_of j.lines.joiner) }
{}
