//! Laws of the preamble and of the split rule, as contracts of calls that do nothing.

ghost use Rattle.std.specs.Prelude.{◌≡◌, ℕ, ◌+◌, ◌<◌, ◌≤◌, List, [], ◌∷◌, ◌++◌, length, All, Option, Some};
ghost use Rattle.dimacs.specs.logic.Base.{pure_literals, base_of};
ghost use Rattle.dimacs.specs.logic.ClauseMap.{live_in, map_of};
ghost use Rattle.dimacs.specs.logic.Cnf.{Cnf, IsFormula};
ghost use Rattle.dimacs.specs.logic.Literal.{Literal};
ghost use Rattle.dimacs.specs.logic.Rat.{Rat};
ghost use Rattle.icnf.specs.Leaves.{Cube, IsFree};
ghost use Rattle.cube_split.specs.ChoiceWithDefinitions.{Chooses};
ghost use Rattle.cube_split.specs.Definitions.{IsPairOf, Opening};
ghost use Rattle.cube_split.specs.Pairs.{AreDefined, IsBaseWith};
ghost use Rattle.cube_split.specs.SplitTree.{with_units};
ghost use Rattle.cube_split.specs.declared.pair.Pair.{Pair};

/// The unit clause of each pure literal is a resolution asymmetric tautology (RAT) over the formula and the units before it, with no
/// hint and no candidate.
pub fn units_are_rat()
    ensures { (f : Cnf) (before after : List Literal) (l : Literal) → pure_literals f ≡ before ++ l ∷ after
        → Rat (live_in (map_of (with_units f before))) (l ∷ []) [] [] }
{}

/// The pairs that are defined are a function of the formula and of how many definitions are wanted, and the variable on which a cube
/// is split is a function of formula, preamble and cube.
pub fn definitions_are_settled()
    ensures pairs { (F : Cnf) (defs : ℕ) (ps qs : List Pair) → AreDefined F defs [] ps → AreDefined F defs [] qs → ps ≡ qs }
    ensures variable { (F : Cnf) (opening : Opening) (cube : Cube) (v w : Option ℕ) → Chooses F opening cube v → Chooses F opening cube w → v ≡ w }
    // The pairs are of the formula's variables, and no more than wanted.
    ensures inside { (F : Cnf) (defs : ℕ) (pairs : List Pair) → AreDefined F defs [] pairs → All (IsPairOf F.vars) pairs }
    ensures few { (F : Cnf) (defs : ℕ) (pairs : List Pair) → AreDefined F defs [] pairs → length pairs ≤ defs }
{}

/// A variable on which a cube is split has no literal in the cube, and is one of the formula's or a defined one.
pub fn choices_are_free()
    ensures free { (F : Cnf) (opening : Opening) (cube : Cube) (v : ℕ) → Chooses F opening cube (Some v) → IsFree cube v }
    ensures within { (F : Cnf) (opening : Opening) (cube : Cube) (v : ℕ) → IsFormula F → Chooses F opening cube (Some v)
        → (0 < v) × (v ≤ F.vars + length opening.pairs) }
{}

/// The base of a formula with no definitions is the formula's own base.
pub fn without_definitions()
    ensures { (F B : Cnf) → IsBaseWith F 0 B → B ≡ base_of F }
{}
