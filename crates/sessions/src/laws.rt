//! Theorems on sessions, as contracts of functions that do nothing.

ghost use Rattle.dimacs.specs.logic.Limits.{Limits};
ghost use Rattle.std.specs.Prelude.{◌≡◌, ◌↔◌, ℕ, List, [], None, Ok, length};
ghost use Rattle.sessions.specs.Answers.{AreRight, Event, queries};
ghost use Rattle.sessions.specs.Events.{SpellsWithin, events_within};
ghost use Rattle.sessions.specs.Heard.{heard_within, outcome_of};
ghost use Rattle.sessions.specs.Texts.{session_within};

/// Does nothing. Its contract says: each answer of an accepted text is right for its query. It is a model of the query and of the clauses
/// that were given before the query, or a core that no assignment which satisfies these clauses makes true.
pub fn accepted_sessions_are_right()
    ensures right { (L : Limits) (E : List Event) (text : List ℕ) → (session_within L E text).fault ≡ None → AreRight [] E (session_within L E text).answers }
    // there is one for each query
    ensures all { (L : Limits) (E : List Event) (text : List ℕ) → (session_within L E text).fault ≡ None → length (session_within L E text).answers ≡ queries E }
    // and so is each answer before a text's first fault
    ensures front { (L : Limits) (E : List Event) (text : List ℕ) → AreRight [] E (session_within L E text).answers }
{}

/// Does nothing. Its contract says: the reader of events accepts exactly the texts that spell events, and reads those events.
pub fn events_are_spelled()
    ensures { (L : Limits) (text : List ℕ) (E : List Event) → (events_within L text ≡ Ok E) ↔ SpellsWithin L text E }
{}

/// Does nothing. Its contract says: reading a text of events line by line has the same outcome as reading the whole text.
pub fn events_are_heard()
    ensures { (L : Limits) (text : List ℕ) → events_within L text ≡ outcome_of (heard_within L text) }
{}
