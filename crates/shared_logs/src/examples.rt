//! Worked examples of the definitions, proved.

ghost use Rattle.std.specs.Prelude.{ℕ, List, [], Contains, codes};
ghost use Rattle.dimacs.specs.logic.Examples.{small};
ghost use Rattle.lrat_check.specs.Soundness.{IsUnsatisfiable};
ghost use Rattle.lrat_text.specs.Log.{EndsAt, IsLog};
ghost use Rattle.shared_logs.specs.SharedLogs.{AreImportsSupported, Follows, IsCell, IsSharedLog, IsSupported, SharedLog, Writes};
ghost use Rattle.shared_logs.specs.SharedText.{SpellsShared};
ghost use Rattle.shared_logs.specs.WovenLogs.{AreAllLines, AreByClock, AreWoven};
ghost use Rattle.shared_logs.specs.Examples.{all_four, circle, circle_back, deleted_early, going_back, imported_early, one, one_log, repeating, third, third_text, three, three_lines, two};

/// Examples of a cell: a log imports a lemma of another one at a later clock, and a third one imports what rests on that. So the formula has
/// no satisfying assignment.
pub fn worked_cell()
    ensures cell { IsCell all_four three }
    ensures first { IsSupported three 1 one (codes "a") 5 }
    ensures second { IsSupported three 2 two (codes "b") 6 }
    ensures empty { Writes third.steps 6 [] 2 }
    ensures refuted { IsUnsatisfiable all_four }
{}

/// Examples of what is no cell: each of two logs imports the other one's lemma, which does not follow. Each is a log, but the lemmas are not
/// written earlier than they are imported. With a clock that goes back they would be, and so that is no log.
pub fn worked_circle()
    ensures does_not_follow { ¬ (Follows small two) }
    ensures logs { (name : List ℕ) → IsSharedLog small (repeating name) }
    ensures unsupported { ¬ (IsSupported circle 1 two (codes "b") 4) }
    ensures no_cell { ¬ (IsCell small circle) }
    ensures all_supported { (log : SharedLog) → Contains circle_back log → AreImportsSupported circle_back log.steps }
    ensures goes_back { ¬ (IsSharedLog small going_back) }
{}

/// Examples of what is woven: by the clock, the lines of the three logs are one log that refutes the formula. The clause that the first one
/// keeps until later is deleted there once the second one has used it, and no sooner. An import does not come before its lemma.
pub fn worked_weaving()
    ensures order { AreByClock three three_lines }
    ensures all { AreAllLines three three_lines }
    ensures woven { AreWoven all_four three_lines one_log }
    ensures log { IsLog all_four one_log }
    ensures refutes { EndsAt [] one_log }
    ensures not_sooner { ¬ (AreWoven all_four three_lines deleted_early) }
    ensures no_order { ¬ (AreByClock three imported_early) }
{}

/// An example of a text: a line that gives a name, one of the clock, an import from the log of that name, and a lemma.
pub fn worked_text()
    ensures { SpellsShared all_four third_text third.steps }
{}
