//! Worked examples of closed schedules, as the contract of a call that does nothing.

ghost use Rattle.std.specs.Prelude.{◌≡◌, [], ◌∷◌, true, false, Some};
ghost use Rattle.lrat_check.specs.declared.verdict.Reaction.TheVariants as reaction;
ghost use Rattle.lrat_check.specs.declared.verdict.Verdict.TheVariants.{Model};
ghost use Rattle.frames.specs.declared.answer.Finding.TheVariants as findings;
ghost use Rattle.frames.specs.declared.answer.Ending.TheVariants as told;
ghost use Rattle.frames.specs.declared.frame.Frame.TheVariants.{Task, Done, Piece, Idle};
ghost use Rattle.coordinator_core.specs.Coordinator.{CoordinatorState, CoordinatorDelivers, coordinator_poll};
ghost use Rattle.honest_cluster.specs.ClosedSchedule.{ClosedState, verdict_at};
ghost use Rattle.honest_cluster.specs.ClosedLaws.{IsMoment};
ghost use Rattle.honest_cluster.specs.Examples.{two, four, beginning, begun, Plays, whole_run, restart_run, asked, second, ninth};

/// States how some small runs of a closed cluster end.
pub fn worked_closed_runs()
    // After a complete run the coordinator holds the worker's assignment.
    ensures decided { (s : ClosedState) × Plays begun whole_run s × IsMoment beginning s × (verdict_at s 0 ≡ Some (Model (true ∷ false ∷ []))) }
    // After a run in which the worker is restarted, its leaf is given again as the next job.
    ensures anew { (s : ClosedState) × Plays begun restart_run s × IsMoment beginning s
        × (s.frames ≡ Task 1 1 100000 [] ∷ Done second (told.Decided (findings.Assignment 2)) ∷ Idle 1 3 ∷ Task 1 2 100000 [] ∷ []) }
    // A fragment that is no log (the bytes of `x` and LF) is refused, and the leaf is given again.
    ensures no_log { (c d : CoordinatorState) × CoordinatorDelivers (asked four) (Done ninth (told.Decided (findings.Refuted 2))) reaction.Taken c
        × CoordinatorDelivers c (Piece ninth 0 (120 ∷ 10 ∷ [])) (reaction.Refused 1) d
        × ((coordinator_poll d 1).frame ≡ Task 1 2 100000 []) }
    // An assignment to three variables of a formula with two is refused, and the leaf is given again.
    ensures wrong_length { (d : CoordinatorState) × CoordinatorDelivers (asked two) (Done ninth (told.Decided (findings.Assignment 3))) (reaction.Refused 2) d
        × ((coordinator_poll d 1).frame ≡ Task 1 2 100000 []) }
{}
