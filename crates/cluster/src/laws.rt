//! Agreement of verdicts under every open schedule, as the contract of a call that does nothing.

ghost use Rattle.std.specs.Prelude.{◌≡◌, List};
ghost use Rattle.dimacs.specs.logic.Cnf.{Cnf};
ghost use Rattle.lrat_check.specs.declared.verdict.Reaction.{Reaction};
ghost use Rattle.cluster.specs.declared.event.OpenEvent.{OpenEvent};
ghost use Rattle.cluster.specs.declared.node.Node.{Node};
ghost use Rattle.cluster.specs.Agreement.{Agree, AgreeOnMore};
ghost use Rattle.cluster.specs.Formulas.{AreGrown, FormulasAlong, formulas_after_event};
ghost use Rattle.cluster.specs.Nodes.{AreSound, AreRight, AreTrue, formulas};
ghost use Rattle.cluster.specs.OpenSchedule.{ChangesNothing, Happens, Runs};

use coordinator_core::{coordinators_keep_what_they_hold, extended_coordinators_are_sound};
use lrat_check::{right_verdicts_agree, right_verdicts_are_true};
use worker_core::{extended_workers_hold_what_is_right, workers_keep_what_they_hold};

/// Under every open schedule sound nodes stay sound, and a node's formula changes only by clauses that are added to it. The verdict of a
/// sound node is right for its formula, and true of it. Two nodes, each at its own moment, never hold verdicts that differ if their
/// formulas are then equal. If a node holds a proof, no node at any moment holds an assignment of that formula with added clauses. An
/// event with the reaction `Ignored` or `NoMemory` changes nothing.
pub fn verdicts_agree()
    ensures sound { (start later : List Node) (events : List OpenEvent) → AreSound start → Runs start events later → AreSound later }
    ensures formula { (old new : List Node) (event : OpenEvent) (answer : Reaction) → Happens old event answer new → formulas new ≡ formulas_after_event event answer (formulas old) }
    ensures formulas { (start later : List Node) (events : List OpenEvent) → Runs start events later → FormulasAlong (formulas start) events (formulas later) }
    ensures behind { (old new : List Cnf) (events : List OpenEvent) → FormulasAlong old events new → AreGrown old new }
    ensures right { (nodes : List Node) → AreSound nodes → AreRight nodes }
    ensures truth { (nodes : List Node) → AreSound nodes → AreTrue nodes }
    ensures agree { (start early late : List Node) (before after : List OpenEvent)
        → AreSound start → Runs start before early → Runs early after late → Agree early late }
    ensures grown { (start early late : List Node) (before after : List OpenEvent)
        → AreSound start → Runs start before early → Runs early after late → AgreeOnMore early late }
    ensures nothing { (old : List Node) (event : OpenEvent) (answer : Reaction) (new : List Node) → Happens old event answer new → ChangesNothing answer old new }
{
    right_verdicts_agree();
    right_verdicts_are_true();
    workers_keep_what_they_hold();
    coordinators_keep_what_they_hold();
    extended_workers_hold_what_is_right();
    extended_coordinators_are_sound();
}
