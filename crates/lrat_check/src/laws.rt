//! Laws of the checker's definitions, as contracts of calls that do nothing.

ghost use Rattle.std.specs.Prelude.{◌≡◌, ◌≤◌, ◌<◌, ◌^◌, ℕ, List, None, Ok};
ghost use Rattle.dimacs.specs.logic.ClauseMap.{ClauseMap};
ghost use Rattle.dimacs.specs.logic.Cnf.{Cnf};
ghost use Rattle.lrat_text.specs.Log.{Cube, Closes};
ghost use Rattle.lrat_text.specs.Proof.{Accepts, TakesStep};
ghost use Rattle.lrat_text.specs.declared.step.Step.{Step};
ghost use Rattle.lrat_check.specs.ProofFaults.{check_of};
ghost use Rattle.lrat_check.specs.StepFaults.{step_fault, live_after, top_after};
ghost use Rattle.lrat_check.specs.Fragments.{fragment_of};
ghost use Rattle.lrat_check.specs.Logs.{IsBegun, LogState, SpellsLog, HoldsFormula, TakesLogLine, log_line, log_of};
ghost use Rattle.lrat_check.specs.Soundness.{Soundness};
ghost use Rattle.lrat_check.specs.Verdicts.{Agreement, Truth};

/// A formula with an accepted proof has no satisfying assignment.
pub fn accepted_proofs_are_sound()
    ensures { Soundness }
{}

/// Two right verdicts on one formula do not differ.
pub fn right_verdicts_agree()
    ensures { Agreement }
{}

/// A right verdict is true of its formula: its assignment satisfies it, or no assignment does.
pub fn right_verdicts_are_true()
    ensures { Truth }
{}

/// A step has no fault if and only if the definition of a proof takes it, and then the state after it is unique.
pub fn step_fault_is_exact()
    ensures taken { (M : ClauseMap) (top : ℕ) (step : Step) → step_fault M top step ≡ None → TakesStep M top step (live_after M step) (top_after top step) }
    ensures no_fault { (M M' : ClauseMap) (top top' : ℕ) (step : Step) → TakesStep M top step M' top'
        → (step_fault M top step ≡ None) × (M' ≡ live_after M step) × (top' ≡ top_after top step) }
{}

/// A text has no fault if and only if it is an accepted proof of a formula within the large limits.
pub fn proof_fault_is_exact()
    ensures accepted { (F : Cnf) (text : List ℕ) → check_of F text ≡ Ok tt → Accepts F text }
    ensures none { (F : Cnf) (text : List ℕ) → F.vars ≤ 99999999 → Accepts F text → check_of F text ≡ Ok tt }
{}

/// A fragment has no fault if and only if it closes the cube over the base, which is within the large limits.
pub fn fragment_fault_is_exact()
    ensures closes { (B : Cnf) (q : Cube) (text : List ℕ) → fragment_of B q text ≡ Ok tt → Closes B q text }
    ensures none { (B : Cnf) (q : Cube) (text : List ℕ) → B.vars ≤ 199999999 → Closes B q text → fragment_of B q text ≡ Ok tt }
{}

/// A line has no fault if and only if a log takes it, and then the state after the line is unique. A text has no fault if and only if it is
/// a log. One direction is so for limits below 2^48, as those of formulas within the large limits are.
pub fn log_fault_is_exact()
    ensures line { (old new : LogState) (line : List ℕ)
        → (old.most < 2 ^ 48 → log_line old line ≡ Ok new → TakesLogLine old line new) × (TakesLogLine old line new → log_line old line ≡ Ok new) }
    ensures text { (F : Cnf) (text : List ℕ)
        → (log_of F text ≡ Ok tt → SpellsLog F text) × (F.vars ≤ 199999999 → SpellsLog F text → log_of F text ≡ Ok tt) }
    // before a log's first line the checker holds the formula
    ensures begun { (F : Cnf) (s : LogState) → IsBegun F s → HoldsFormula F s }
{}
