//! Laws of logs behind resolvents, as contracts of calls that do nothing.

ghost use Rattle.std.specs.Prelude.{◌≡◌, ℕ, ◌+◌, ◌<◌, ◌≤◌, Bool, List, [], ◌++◌, length, All};
ghost use Rattle.dimacs.specs.logic.ClauseMap.{map_of, live_in};
ghost use Rattle.dimacs.specs.logic.Cnf.{Cnf};
ghost use Rattle.dimacs.specs.logic.Literal.{Clause};
ghost use Rattle.elimination.specs.Kept.{AddsResolvents, IsKept};
ghost use Rattle.lrat_text.specs.Grammar.{IsClauseNumber, LineSpellsWithin};
ghost use Rattle.lrat_text.specs.Log.{AreFresh, Closes, IsLog, additions, log_top};
ghost use Rattle.lrat_text.specs.Runs.{after_steps};
ghost use Rattle.lrat_text.specs.declared.step.Step.{Step};
ghost use Rattle.renumbered_logs.specs.Renumbered.{Avoids, GoesOn, behind_all, steps_behind};

/// The log of a search over the kept clauses goes on behind the log of the resolvents, under the
/// numbers that its clauses have among all clauses.
pub fn a_log_goes_on_behind_resolvents()
    // Both together are a log over the formula.
    ensures log { (F all kept : Cnf) (numbers : List ℕ) (gone : List Bool) (before : List ℕ) (a : AddsResolvents F all before) → IsKept all kept numbers gone
        → (steps : List Step) → IsLog kept steps → All (Avoids gone) steps
        → IsLog F (a.steps ++ steps_behind numbers (length all.clauses) steps) }
    // If the search's lemmas are new over the kept clauses, they are new over all.
    ensures fresh { (F all kept : Cnf) (numbers : List ℕ) (gone : List Bool) (before : List ℕ) (a : AddsResolvents F all before) → IsKept all kept numbers gone
        → (steps : List Step) → IsLog kept steps → All (Avoids gone) steps → AreFresh kept (map_of kept) steps
        → AreFresh F (map_of F) (a.steps ++ steps_behind numbers (length all.clauses) steps) }
    // It has the additions of both.
    ensures count { (F all kept : Cnf) (numbers : List ℕ) (gone : List Bool) (before : List ℕ) (a : AddsResolvents F all before) → IsKept all kept numbers gone
        → (steps : List Step) → IsLog kept steps → All (Avoids gone) steps
        → additions (a.steps ++ steps_behind numbers (length all.clauses) steps) ≡ additions a.steps + additions steps }
    // What is live at the search's end is live at the end of both.
    ensures live { (F all kept : Cnf) (numbers : List ℕ) (gone : List Bool) (before : List ℕ) (a : AddsResolvents F all before) → IsKept all kept numbers gone
        → (steps : List Step) → IsLog kept steps → All (Avoids gone) steps
        → (n : ℕ) (C : Clause) → live_in (after_steps (map_of kept) steps) n C
        → live_in (after_steps (map_of F) (a.steps ++ steps_behind numbers (length all.clauses) steps)) (behind_all numbers (length all.clauses) n) C }
    // The numbers of lemmas stay above the formula's, and in their order.
    ensures rises { (F all kept : Cnf) (numbers : List ℕ) (gone : List Bool) (before : List ℕ) → AddsResolvents F all before → IsKept all kept numbers gone
        → (n k : ℕ) → length kept.clauses < n → n < k
        → (length F.clauses < behind_all numbers (length all.clauses) n) × (behind_all numbers (length all.clauses) n < behind_all numbers (length all.clauses) k) }
{}

/// The text that goes on behind the text of the resolvents spells the steps of both logs.
pub fn a_text_goes_on_behind_resolvents()
    // Its steps behind those of the resolvents are the search's.
    ensures same { (F all kept : Cnf) (numbers : List ℕ) (gone : List Bool) (before log new : List ℕ) → AddsResolvents F all before → F.vars ≤ 199999999
        → IsKept all kept numbers gone → (g : GoesOn numbers (length all.clauses) gone log before new)
        → (steps : List Step) → LineSpellsWithin (log_top kept) log steps → g.steps ≡ steps }
    // The line of a deletion before the search's first lemma begins with the number of all clauses, so that has to be a clause number.
    ensures spelled { (F all kept : Cnf) (numbers : List ℕ) (gone : List Bool) (before log new : List ℕ) (a : AddsResolvents F all before) → F.vars ≤ 199999999
        → IsKept all kept numbers gone → GoesOn numbers (length all.clauses) gone log before new → IsClauseNumber (length all.clauses)
        → (steps : List Step) → LineSpellsWithin (log_top kept) log steps
        → LineSpellsWithin (log_top F) new (a.steps ++ steps_behind numbers (length all.clauses) steps) }
    // It is one if the search has a lemma.
    ensures numbered { (F all kept : Cnf) (numbers : List ℕ) (gone : List Bool) (before log new : List ℕ) → AddsResolvents F all before → F.vars ≤ 199999999
        → IsKept all kept numbers gone → GoesOn numbers (length all.clauses) gone log before new
        → (steps : List Step) → LineSpellsWithin (log_top kept) log steps → IsLog kept steps → 0 < additions steps → IsClauseNumber (length all.clauses) }
    // If the search's log closes the empty cube, the whole text does.
    ensures closes { (F all kept : Cnf) (numbers : List ℕ) (gone : List Bool) (before log new : List ℕ) → AddsResolvents F all before → F.vars ≤ 199999999
        → IsKept all kept numbers gone → GoesOn numbers (length all.clauses) gone log before new → Closes kept [] log → Closes F [] new }
{}
