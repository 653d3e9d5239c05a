//! Laws of a worker's steps, as contracts of calls that do nothing.

ghost use Rattle.std.specs.Prelude.{◌≡◌, ◌⊎◌, ℕ};
ghost use Rattle.dimacs.specs.logic.Cnf.{Cnf};
ghost use Rattle.lrat_check.specs.declared.verdict.Reaction.{Reaction};
ghost use Rattle.lrat_check.specs.declared.verdict.Reaction.TheVariants.{Taken};
ghost use Rattle.evidence.specs.Events.{Event, Given};
ghost use Rattle.evidence.specs.KeptVerdict.{formula_after};
ghost use Rattle.worker_core.specs.AddedClauses.{ExtendsWorker};
ghost use Rattle.worker_core.specs.Laws.{KeepsVerdict, KeepsIdentity, ChangesNothing, HoldsRight};
ghost use Rattle.worker_core.specs.Worker.{WorkerState, WorkerStep};

use evidence::what_is_kept_is_right;

/// Every step of a worker keeps the verdict that is held, and its rightness; it does not change formula, base, number and incarnation; with
/// the output `Ignored` or `NoMemory` it changes nothing.
pub fn workers_keep_what_they_hold()
    ensures verdict { (old : WorkerState) (event : Event) (given : Given) (new : WorkerState) → WorkerStep old event given new → KeepsVerdict old new }
    ensures right { (old : WorkerState) (event : Event) (given : Given) (new : WorkerState) → WorkerStep old event given new → HoldsRight old → HoldsRight new }
    ensures itself { (old : WorkerState) (event : Event) (given : Given) (new : WorkerState) → WorkerStep old event given new → KeepsIdentity old new }
    ensures nothing { (old : WorkerState) (event : Event) (given : Given) (new : WorkerState) → WorkerStep old event given new → ChangesNothing given old new }
{}

/// When clauses are added to a worker's formula, a right verdict stays right for the formula that the worker has then. That is the
/// longer formula if the answer is `Taken`; else nothing changes.
pub fn extended_workers_hold_what_is_right()
    ensures right { (old : WorkerState) (x : Cnf) (incarnation : ℕ) (answer : Reaction) (new : WorkerState) → ExtendsWorker old x incarnation answer new → HoldsRight old → HoldsRight new }
    ensures formula { (old : WorkerState) (x : Cnf) (incarnation : ℕ) (answer : Reaction) (new : WorkerState) → ExtendsWorker old x incarnation answer new → new.formula ≡ formula_after x answer old.formula }
    ensures nothing { (old : WorkerState) (x : Cnf) (incarnation : ℕ) (answer : Reaction) (new : WorkerState) → ExtendsWorker old x incarnation answer new → (answer ≡ Taken) ⊎ (new ≡ old) }
{
    what_is_kept_is_right();
}
