//! Laws of lines and texts, as contracts of calls that do nothing.

ghost use Rattle.std.specs.Prelude.{◌≡◌, ℕ, ◌^◌, ◌<◌, ◌≤◌, List, [], Ok, Contains};
ghost use Rattle.dimacs.specs.logic.ClauseMap.{map_of};
ghost use Rattle.dimacs.specs.logic.Cnf.{Cnf};
ghost use Rattle.dimacs.specs.text.Words.{lines};
ghost use Rattle.lrat_text.specs.Grammar.{SpellsStep, SpellsStepWithin, LineSpells, LineSpellsWithin, IsStep, IsClauseNumber};
ghost use Rattle.lrat_text.specs.Lines.{AllRead};
ghost use Rattle.lrat_text.specs.Log.{Closes, IsLog, IsHonest, AreFresh, additions};
ghost use Rattle.lrat_text.specs.Proof.{Accepts};
ghost use Rattle.lrat_text.specs.Parser.{step_in, step_within};
ghost use Rattle.lrat_text.specs.WrittenLine.{line_text};
ghost use Rattle.lrat_text.specs.declared.step.Step.{Step};

/// A line is read as a step if and only if it spells that step.
pub fn reading_is_spelling()
    ensures found { (line : List ℕ) (step : Step) → step_in line ≡ Ok step → SpellsStep line step }
    ensures only { (line : List ℕ) (step : Step) → SpellsStep line step → step_in line ≡ Ok step }
{}

/// For each limit of the variables below 2^48: a line is read as a step if and only if it spells that step.
pub fn reading_within_is_spelling()
    ensures found { (most : ℕ) (line : List ℕ) (step : Step) → step_within most line ≡ Ok step → SpellsStepWithin most line step }
    ensures only { (most : ℕ) (line : List ℕ) (step : Step) → most < 2 ^ 48 → SpellsStepWithin most line step → step_within most line ≡ Ok step }
{}

/// A text that spells steps of variables up to a limit spells them under each greater limit.
pub fn a_greater_limit_spells_the_same()
    ensures { (few most : ℕ) (text : List ℕ) (steps : List Step) → few ≤ most → LineSpellsWithin few text steps → LineSpellsWithin most text steps }
{}

/// The text that is written for a step is one line, spells the step, and is read back as that step.
pub fn putting_is_spelling()
    ensures spells { (top : ℕ) (step : Step) → IsClauseNumber top → IsStep step → SpellsStep (line_text top step) step }
    ensures one_line { (top : ℕ) (step : Step) → IsClauseNumber top → IsStep step → ¬ (Contains (line_text top step) 10) }
    ensures read_back { (top : ℕ) (step : Step) → IsClauseNumber top → IsStep step → step_in (line_text top step) ≡ Ok step }
{}

/// A text spells steps if and only if each of its lines is read as the step of the same index.
pub fn text_is_lines()
    ensures read { (text : List ℕ) (steps : List Step) → LineSpells text steps → AllRead (lines text) steps }
    ensures spelled { (text : List ℕ) (steps : List Step) → AllRead (lines text) steps → LineSpells text steps }
{}

/// A fragment that closes the empty cube over a formula is an accepted proof.
pub fn closing_the_empty_cube_is_accepted()
    ensures { (F : Cnf) (text : List ℕ) → Closes F [] text → Accepts F text }
{}

/// A text spells at most one list of steps.
pub fn a_text_spells_one_list()
    ensures written { (text : List ℕ) (steps others : List Step) → LineSpells text steps → LineSpells text others → steps ≡ others }
    // whatever the limits of the variables are
    ensures within { (a b : ℕ) (text : List ℕ) (steps others : List Step) → a < 2 ^ 48 → b < 2 ^ 48 → LineSpellsWithin a text steps → LineSpellsWithin b text others → steps ≡ others }
{}

/// A fresh log over n <= 6 variables deletes nothing, so it has at most 3^n lemmas: as many as there are clauses over n variables without a
/// complementary pair.
pub fn fresh_logs_are_short()
    ensures steps { (B : Cnf) (steps : List Step) → B.vars ≤ 6 → IsLog B steps → AreFresh B (map_of B) steps → additions steps ≤ 3 ^ B.vars }
    ensures text { (B : Cnf) (n : ℕ) (text : List ℕ) (steps : List Step) → B.vars ≤ 6 → IsHonest B n text → LineSpells text steps → AreFresh B (map_of B) steps → n ≤ 3 ^ B.vars }
{}
