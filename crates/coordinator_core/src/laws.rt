//! Laws of a coordinator's steps, as contracts of calls that do nothing.

ghost use Rattle.std.specs.Prelude.{◌≡◌, ◌⊎◌, ℕ, length, true};
ghost use Rattle.dimacs.specs.logic.Cnf.{Cnf};
ghost use Rattle.lrat_check.specs.declared.verdict.Reaction.{Reaction};
ghost use Rattle.lrat_check.specs.declared.verdict.Reaction.TheVariants.{Taken};
ghost use Rattle.lrat_check.specs.declared.verdict.Verdict.TheVariants.{Nothing};
ghost use Rattle.frames.specs.declared.frame.Frame.TheVariants.{Idle};
ghost use Rattle.evidence.specs.Events.{Event, Delivered, Given};
ghost use Rattle.evidence.specs.KeptVerdict.{formula_after};
ghost use Rattle.coordinator_core.specs.Coordinator.{CoordinatorState, CoordinatorStep, restarted_coordinator};
ghost use Rattle.coordinator_core.specs.AddedClauses.{ExtendsCoordinator};
ghost use Rattle.coordinator_core.specs.Invariant.{IsCoordinator};
ghost use Rattle.coordinator_core.specs.Laws.{KeepsVerdict, KeepsIdentity, ChangesNothing};

use evidence::what_is_kept_is_right;
use proof_join::definitions_are_a_preamble;

/// Every step of a coordinator, and a restart, keep its invariant. Every step keeps the verdict that is held; it does not change formula,
/// definitions, session, limit, initial tree and number of workers; with the output `Ignored` or `NoMemory` it changes nothing. A stuck
/// coordinator holds no verdict, and the delivery of an Idle does not change the verdict.
pub fn coordinators_keep_what_they_hold()
    ensures sound { (old : CoordinatorState) (event : Event) (given : Given) (new : CoordinatorState) → CoordinatorStep old event given new → IsCoordinator old → IsCoordinator new }
    ensures anew { (c : CoordinatorState) (session : ℕ) → IsCoordinator c → IsCoordinator (restarted_coordinator c session) }
    ensures verdict { (old : CoordinatorState) (event : Event) (given : Given) (new : CoordinatorState) → CoordinatorStep old event given new → KeepsVerdict old new }
    ensures itself { (old : CoordinatorState) (event : Event) (given : Given) (new : CoordinatorState) → CoordinatorStep old event given new → KeepsIdentity old new }
    ensures nothing { (old : CoordinatorState) (event : Event) (given : Given) (new : CoordinatorState) → CoordinatorStep old event given new → ChangesNothing given old new }
    ensures stuck { (c : CoordinatorState) → IsCoordinator c → c.stuck ≡ true → c.verdict ≡ Nothing }
    ensures idle { (old : CoordinatorState) (worker incarnation : ℕ) (given : Given) (new : CoordinatorState) → CoordinatorStep old (Delivered (Idle worker incarnation)) given new → new.verdict ≡ old.verdict }
{
    definitions_are_a_preamble();
}

/// When clauses are added to a coordinator's formula, its invariant is kept. If the answer is `Taken`, its formula is then the longer one;
/// else nothing changes.
pub fn extended_coordinators_are_sound()
    ensures sound { (old : CoordinatorState) (x : Cnf) (session : ℕ) (answer : Reaction) (new : CoordinatorState) → ExtendsCoordinator old x session answer new → IsCoordinator old → IsCoordinator new }
    ensures formula { (old : CoordinatorState) (x : Cnf) (session : ℕ) (answer : Reaction) (new : CoordinatorState) → ExtendsCoordinator old x session answer new → new.formula ≡ formula_after x answer old.formula }
    ensures nothing { (old : CoordinatorState) (x : Cnf) (session : ℕ) (answer : Reaction) (new : CoordinatorState) → ExtendsCoordinator old x session answer new → (answer ≡ Taken) ⊎ (new ≡ old) }
{
    what_is_kept_is_right();
}
