//! Worked examples of the split rule, proved.

ghost use Rattle.std.specs.Prelude.{◌≡◌, [], ◌∷◌, true};
ghost use Rattle.dimacs.specs.logic.Literal.{Pos, Neg};
ghost use Rattle.lrat_check.specs.declared.verdict.Reaction.TheVariants.{Ignored, Taken};
ghost use Rattle.frames.specs.declared.frame.Frame.TheVariants.{Task, Rest};
ghost use Rattle.cube_split.specs.Pairs.{AreOf};
ghost use Rattle.coordinator_core.specs.Coordinator.{CoordinatorState};
ghost use Rattle.coordinator_core.specs.Examples.{begun, begun_with_one, one_defined, polled, same_two, sent, MetLimit};

/// Each search of one worker meets its limit: over every clause of two variables, and over two clauses with a definition.
pub fn worked_splits()
    // The whole formula is split on 1. The Done is taken once; the next Task has the cube `1`.
    ensures first { (c : CoordinatorState) × (sent begun ≡ Task 1 1 100 []) × MetLimit (polled begun) 1 Taken c
        × (sent c ≡ Task 1 2 100 (Pos 1 ∷ [])) × MetLimit (polled c) 1 Ignored (polled c) }
    // The cube `1` is split on 2, and after its branches comes the leaf `-1`. The cube `1 2` cannot be split.
    ensures second { (c d e : CoordinatorState) × MetLimit (polled begun) 1 Taken c × MetLimit (polled c) 2 Taken d
        × (d.tree ≡ (Pos 1 ∷ Pos 2 ∷ []) ∷ (Pos 1 ∷ Neg 2 ∷ []) ∷ (Neg 1 ∷ []) ∷ [])
        × (sent d ≡ Task 1 3 100 (Pos 1 ∷ Pos 2 ∷ [])) × MetLimit (polled d) 3 Taken e × (e.stuck ≡ true) × (sent e ≡ Rest) }
    // In the clauses `1 -2` and `-1 2` the pair 1 and -2 is defined as 3.
    ensures pair { AreOf same_two one_defined }
    // The formula is split on 3. In the cube `3` both literals of the pair are true, so it cannot be split.
    ensures defined { (c d : CoordinatorState) × MetLimit (polled begun_with_one) 1 Taken c × (c.tree ≡ (Pos 3 ∷ []) ∷ (Neg 3 ∷ []) ∷ [])
        × (sent c ≡ Task 1 2 100 (Pos 3 ∷ [])) × MetLimit (polled c) 2 Taken d × (d.stuck ≡ true) }
{}
