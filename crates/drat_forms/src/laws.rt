//! Laws of the definitions of DRAT proofs, as contracts of calls that do nothing.

ghost use Rattle.std.specs.Prelude.{◌≡◌, ◌≤◌, ℕ, List};
ghost use Rattle.drat_forms.specs.Grammar.{DratStep, Spells, words_of};
ghost use Rattle.drat_forms.specs.Whole.{GivesWords};

/// A proof is read without a fault if and only if its bytes spell steps, and the words that the reader gives are those of the steps.
pub fn reading_is_spelling()
    ensures found { (most : ℕ) (bytes words : List ℕ) → GivesWords most bytes words → (steps : List DratStep) × (words ≡ words_of steps) × Spells most bytes steps }
    ensures only { (most : ℕ) (bytes : List ℕ) (steps : List DratStep) → most ≤ 199999999 → Spells most bytes steps → GivesWords most bytes (words_of steps) }
{}

/// Bytes spell at most one list of steps.
pub fn drat_proofs_spell_one_list()
    ensures { (most : ℕ) (bytes : List ℕ) (steps others : List DratStep) → most ≤ 199999999 → Spells most bytes steps → Spells most bytes others → steps ≡ others }
{}
