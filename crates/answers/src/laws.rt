//! Laws of the definitions, as contracts of calls that do nothing.

ghost use Rattle.std.specs.Prelude.{◌≡◌, ◌≢◌, ℕ, Bool, List, Ok, IfErr};
ghost use Rattle.dimacs.specs.logic.Cnf.{Cnf, Sat};
ghost use Rattle.dimacs.specs.logic.Literal.{Literal, has};
ghost use Rattle.dimacs.specs.logic.Propagation.{Assumed};
ghost use Rattle.answers.specs.Grammar.{Names, Verifies};
ghost use Rattle.answers.specs.Parse.{answer_of};

use crate::fault::Kind;

/// The literals that are read of a text are exactly those that it names.
pub fn reading_is_naming()
    ensures found { (text : List ℕ) (α : Assumed) → answer_of text ≡ Ok α → (named : List Literal) × Names text named × (α ≡ has named) }
    ensures only { (text : List ℕ) (named : List Literal) → Names text named → answer_of text ≡ Ok (has named) }
{}

/// A formula that a text verifies is satisfied by some assignment.
pub fn verified_formulas_are_satisfiable()
    ensures { (text : List ℕ) (F : Cnf) → Verifies text F → (a : ℕ → Bool) × Sat a F }
{}

/// By the definition no text has the fault that memory was refused: only a call answers this.
pub fn no_answer_wants_memory()
    ensures { (text : List ℕ) → IfErr (answer_of text) (λ f. f.kind ≢ Kind.NoMemory) }
{}
