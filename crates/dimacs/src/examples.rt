//! Worked examples of the definitions, proved.

ghost use Rattle.std.specs.Prelude.{◌≡◌, true, false, Some, None, [], ◌∷◌, ◌++◌, codes};
ghost use Rattle.std.specs.FinMap.{get};
ghost use Rattle.dimacs.specs.text.Answer.{witness_lines};
ghost use Rattle.dimacs.specs.logic.Base.{is_pure, base_of};
ghost use Rattle.dimacs.specs.logic.ClauseMap.{map_of, live_in};
ghost use Rattle.dimacs.specs.logic.Examples.{one_or_two, one_or_not_two, small, all_but_two};
ghost use Rattle.dimacs.specs.logic.Literal.{Pos, Neg};
ghost use Rattle.dimacs.specs.logic.Propagation.{negations, with_literal, IsFalse, IsUnit, Rup};

/// Examples of pure literals and of the base of a formula: the unit clause `1` is added, and none for variable 2.
pub fn worked_bases()
    ensures pure { is_pure small (Pos 1) ≡ true }
    ensures both_signs { (is_pure small (Pos 2) ≡ false) × (is_pure small (Neg 2) ≡ false) }
    ensures absent { is_pure small (Neg 1) ≡ false }
    ensures base { (base_of small).clauses ≡ small.clauses ++ (Pos 1 ∷ []) ∷ [] }
{}

/// Examples of clauses by number, of unit and false clauses, and of a lemma that has RUP by its hints.
pub fn worked_propagation()
    ensures first { get (map_of small) 1 ≡ Some one_or_two }
    ensures last { get (map_of small) 2 ≡ Some one_or_not_two }
    ensures outside { (get (map_of small) 0 ≡ None) × (get (map_of small) 3 ≡ None) }
    ensures unit { IsUnit (negations (Pos 1 ∷ [])) one_or_two (Pos 2) }
    // A literal that a clause contains twice counts once.
    ensures repeated { IsUnit (negations []) (Pos 1 ∷ Pos 1 ∷ []) (Pos 1) }
    ensures refuted { IsFalse (with_literal (negations (Pos 1 ∷ [])) (Pos 2)) one_or_not_two }
    ensures lemma { Rup (live_in (map_of small)) (Pos 1 ∷ []) (1 ∷ 2 ∷ []) }
{}

/// Examples of `v` lines: no variable, a false one, and a line of exactly 78 bytes.
pub fn worked_answers()
    ensures empty { witness_lines [] ≡ codes "v 0\n" }
    ensures signs { witness_lines (true ∷ false ∷ []) ≡ codes "v 1 -2 0\n" }
    ensures full { witness_lines all_but_two ≡ codes "v -1 -2 3 4 5 6 7 8 9 10 11 12 13 14 15 16 17 18 19 20 21 22 23 24 25 26 27 28\nv 29 30 0\n" }
{}
