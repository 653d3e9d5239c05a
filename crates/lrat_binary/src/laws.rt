//! Laws of proofs in binary form, as contracts of calls that do nothing.

ghost use Rattle.std.specs.Prelude.{◌≡◌, ℕ, ◌^◌, ◌<◌, List, None};
ghost use Rattle.lrat_text.specs.declared.step.Step.{Step};
ghost use Rattle.lrat_binary.specs.Grammar.{Spells, SpellsWithin};
ghost use Rattle.lrat_binary.specs.Parser.{steps_in, steps_within};

/// Steps are read without a fault if and only if the bytes spell them.
pub fn reading_is_spelling()
    ensures found { (bytes : List ℕ) (steps : List Step) → steps_in bytes ≡ (steps, None) → Spells bytes steps }
    ensures only { (bytes : List ℕ) (steps : List Step) → Spells bytes steps → steps_in bytes ≡ (steps, None) }
{}

/// For each limit of the variables below 2^48: steps are read without a fault if and only if the bytes spell them.
pub fn reading_within_is_spelling()
    ensures found { (most : ℕ) (bytes : List ℕ) (steps : List Step) → steps_within most bytes ≡ (steps, None) → SpellsWithin most bytes steps }
    ensures only { (most : ℕ) (bytes : List ℕ) (steps : List Step) → most < 2 ^ 48 → SpellsWithin most bytes steps → steps_within most bytes ≡ (steps, None) }
{}

/// Bytes spell at most one list of steps.
pub fn a_proof_spells_one_list()
    ensures written { (bytes : List ℕ) (steps others : List Step) → Spells bytes steps → Spells bytes others → steps ≡ others }
    // the same for each limit of the variables below 2^48
    ensures within { (most : ℕ) (bytes : List ℕ) (steps others : List Step) → most < 2 ^ 48 → SpellsWithin most bytes steps → SpellsWithin most bytes others → steps ≡ others }
{}
