//! Laws of the grammar and the parser, as contracts of calls that do nothing.

ghost use Rattle.std.specs.Prelude.{◌≡◌, ◌≢◌, ℕ, List, Ok, IfErr};
ghost use Rattle.dimacs.specs.logic.Cnf.{Cnf, FitsIn, IsFormula, AreWithin, greatest_in};
ghost use Rattle.dimacs.specs.logic.Limits.{Limits, AreNoMore, large};
ghost use Rattle.icnf.specs.Leaves.{Cube, IsTree};
ghost use Rattle.icnf.specs.Parser.{parse_within};
ghost use Rattle.icnf.specs.Grammar.{SpellsWithin, formula_of, spelling};

use crate::fault::Kind;

/// The parser's definition gives a formula and a tree within limits if and only if the text spells them within these.
pub fn reading_is_spelling()
    ensures { (L : Limits) (text : List ℕ) (f : Cnf) (cubes : List Cube) → AreNoMore L large
        → (parse_within L text ≡ Ok (f, cubes) → SpellsWithin L text f cubes) × (SpellsWithin L text f cubes → parse_within L text ≡ Ok (f, cubes)) }
{}

/// The text that is written for clauses and a tree spells them, within all limits that the clauses fit into.
pub fn writing_is_spelling()
    ensures { (L : Limits) (f : Cnf) (cubes : List Cube) → IsFormula f → FitsIn L f → IsTree cubes → AreWithin (greatest_in f.clauses) cubes
        → SpellsWithin L (spelling f.clauses cubes) (formula_of f.clauses) cubes }
{}

/// The parser's definition never gives `NoMemory`: only a call can answer it.
pub fn no_text_wants_memory()
    ensures { (L : Limits) (text : List ℕ) → IfErr (parse_within L text) (λ f. f.kind ≢ Kind.NoMemory) }
{}
