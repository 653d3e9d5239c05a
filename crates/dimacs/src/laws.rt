//! Laws of the grammar and the parser, as contracts of calls that do nothing.

ghost use Rattle.std.specs.Prelude.{◌≡◌, ◌≢◌, ℕ, List, Ok, IfErr};
ghost use Rattle.dimacs.specs.logic.Cnf.{Cnf, FitsIn, IsFormula};
ghost use Rattle.dimacs.specs.logic.Limits.{Limits, AreNoMore, large};
ghost use Rattle.dimacs.specs.text.Grammar.{SpellsWithin, spelling};
ghost use Rattle.dimacs.specs.text.Parser.{parse_within};

use crate::fault::Kind;

/// The parser's definition gives a formula within limits if and only if the text spells it within them.
pub fn reading_is_spelling()
    ensures { (L : Limits) (text : List ℕ) (f : Cnf) → AreNoMore L large
        → (parse_within L text ≡ Ok f → SpellsWithin L text f) × (SpellsWithin L text f → parse_within L text ≡ Ok f) }
{}

/// The text that is written for a formula spells it, within all limits that it fits into.
pub fn writing_is_spelling()
    ensures { (L : Limits) (f : Cnf) → IsFormula f → FitsIn L f → SpellsWithin L (spelling f) f }
{}

/// The parser's definition never gives `NoMemory`: only a call can answer it.
pub fn no_text_wants_memory()
    ensures { (L : Limits) (text : List ℕ) → IfErr (parse_within L text) (λ f. f.kind ≢ Kind.NoMemory) }
{}
