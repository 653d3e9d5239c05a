//! Laws of the two forms, each the contract of a call that does nothing.

ghost use Rattle.std.specs.Prelude.{◌≡◌, ◌<◌, ◌^◌, ℕ, List, true};
ghost use Rattle.lrat_text.specs.Grammar.{LineSpells, LineSpellsWithin};
ghost use Rattle.lrat_text.specs.declared.step.Step.{Step};
ghost use Rattle.lrat_binary.specs.Grammar.{Spells, SpellsWithin};
ghost use Rattle.lrat_forms.specs.Forms.{is_binary, text_form, text_form_within};
ghost use Rattle.lrat_forms.specs.SameSteps.{SpellTheSameWithin};

/// The text of a proof in binary form spells the steps that its bytes spell.
pub fn both_forms_spell_the_same()
    ensures written { (bytes : List ℕ) (steps : List Step) → is_binary bytes ≡ true → Spells bytes steps → LineSpells (text_form bytes) steps }
    // the same for each limit of the variables below 2^48
    ensures within { (most : ℕ) (bytes : List ℕ) (steps : List Step) → most < 2 ^ 48 → is_binary bytes ≡ true → SpellsWithin most bytes steps → LineSpellsWithin most (text_form_within most bytes) steps }
{}

/// Bytes that spell the steps of a text in binary form, within any limit of the variables, spell
/// them within each limit that the text keeps: they have no other steps and no greater variables.
pub fn binary_form_keeps_the_limit()
    ensures { (most other : ℕ) (text bytes : List ℕ) (steps : List Step) → most < 2 ^ 48 → other < 2 ^ 48 → LineSpellsWithin most text steps
        → SpellTheSameWithin other text bytes → SpellsWithin most bytes steps }
{}
