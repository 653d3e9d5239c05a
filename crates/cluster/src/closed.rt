//! A cluster under a closed schedule: each frame that is delivered was sent by one of its nodes, and each restart is under a number that no
//! node has used.

ghost use Rattle.std.specs.Prelude.{◌≡◌, ◌<◌, ◌≢◌, ◌≤◌, ℕ, All, IfOk, IfSome, option_copied};
ghost use Rattle.dimacs.specs.logic.Cnf.{Cnf};
ghost use Rattle.dimacs.specs.logic.Literal.{IsWithin};
ghost use Rattle.lrat_check.specs.Verdicts.{Right};
ghost use Rattle.lrat_check.specs.declared.verdict.Reaction.TheVariants as reaction;
ghost use Rattle.cube_split.specs.Pairs.{AreOf, Definitions, IsBaseWith, no_definitions};
ghost use Rattle.evidence.specs.Jobs.{IsOverBase};
ghost use Rattle.honest_cluster.specs.ClosedSchedule.{HappensClosed, RunsClosed, new_closed, verdict_at};
ghost use Rattle.cluster.specs.Closed.{AllHoldRight, HasJoinedIfClosed, IsReached};

use crate::schedule::Schedule;
use dimacs::Formula;
use frames::Frame;
use honest_cluster::{ClosedEvent, closed_clusters_keep_their_word, honest_work_is_never_refused};
use icnf::Tree;
use lrat_check::{Reaction, Verdict};
use std::alloc::{AllocError, Global};
use std::marker::Model;

/// One coordinator, which is node 0, and its workers, worker w being node w, all of one formula; the frames that they have sent; and the
/// numbers that they have used. Events happen one at a time.
pub struct ClosedCluster {
    /// The state of the schedule.
    schedule: Schedule,
}

impl Model for ClosedCluster {
    ghost use Rattle.honest_cluster.specs.ClosedSchedule.{ClosedState};
    ghost use Rattle.cluster.specs.Closed.{IsReached};
    ghost use Rattle.cluster.specs.Members.{state_of};

    ghost Value = { ClosedState };

    ghost view = { λ c. state_of c.schedule };

    ghost invariant = { λ c. IsReached (state_of c.schedule) };
}

impl Drop for ClosedCluster {
    fn drop(self) {
        let ClosedCluster { schedule: _ } = self;
    }
}

impl ClosedCluster {
    /// A cluster at its beginning: a coordinator in session 1, and workers 1 to `workers`, worker w in incarnation w + 1, which have sent
    /// no frame. Each Task will have this limit. The tree has to be over the formula's variables, and over those of frames if they are more
    /// than 1,000,000; and there are 1 to 64 workers. An error is want of memory.
    pub fn new(
        alloc: Global,
        formula: &Formula,
        tree: Tree,
        limit: u64,
        workers: u32,
    ) -> Result<ClosedCluster, AllocError>
        requires inside { All (IsOverBase formula.now) tree }
        requires narrow { 1000000 < formula.now.vars → All (All (IsWithin 2000000)) tree }
        requires workers { (1 ≤ workers) × (workers ≤ 64) }
        ensures { IfOk result (λ c. c ≡ new_closed (record { formula = formula.now; definitions = no_definitions; tree = tree; limit = limit; workers = workers })) }
    {
        ClosedCluster::with_defs(alloc, formula, tree, limit, workers, 0)
    }

    /// A cluster at its beginning: a coordinator in session 1, and workers 1 to `workers`, worker w
    /// in incarnation w + 1, over a base with `defs` definitions, 0 to 64, or fewer if no further
    /// pair of literals can be defined. All nodes share the definitions. The tree has to be over
    /// the base's variables, and over those of frames if the formula has more than 1,000,000. An
    /// error is want of memory.
    pub fn with_defs(
        alloc: Global,
        formula: &Formula,
        tree: Tree,
        limit: u64,
        workers: u32,
        defs: u32,
    ) -> Result<ClosedCluster, AllocError>
        requires inside { (B : Cnf) → IsBaseWith formula.now defs B → All (IsOverBase B) tree }
        requires narrow { 1000000 < formula.now.vars → All (All (IsWithin 2000000)) tree }
        requires workers { (1 ≤ workers) × (workers ≤ 64) }
        requires defs { defs ≤ 64 }
        ensures { IfOk result (λ c. (d : Definitions) × AreOf formula.now d × (d.wanted ≡ defs)
            × (c ≡ new_closed (record { formula = formula.now; definitions = d; tree = tree; limit = limit; workers = workers }))) }
    {
        // The contracts of these two calls say that formula and tree are within their limits.
        let _ = formula.vars();
        let _ = tree.leaves(); // at most 65,536 leaves
        Ok(ClosedCluster {
            schedule: Schedule::new(alloc, formula, tree, limit, workers, defs)?,
        })
    }

    /// Plays one event, and answers the reaction of its node, which is never a refusal. The event is ignored if there is no such node or no
    /// such index in the list of frames, if the coordinator has no such worker, if the number was used before, or if it is `Work` at the
    /// coordinator. `NoMemory` changes nothing.
    pub fn step(&mut self, event: &ClosedEvent) -> Reaction
        ensures happens { HappensClosed self.old event.now result self.new }
        ensures refused { (why : ℕ) → result ≢ reaction.Refused why }
        ensures right { AllHoldRight self.new }
        ensures joined { HasJoinedIfClosed self.new }
        ensures reached { IsReached self.new }
    {
        honest_work_is_never_refused();
        closed_clusters_keep_their_word();
        self.schedule.happen(event)
    }

    /// Plays the events one after the other. An event whose reaction is `NoMemory` changes nothing and is passed over. That is possible for
    /// a poll and a restart that are not ignored, since both make a list longer; for other events only if the node's own rules allow it.
    pub fn run(&mut self, events: &[ClosedEvent])
        ensures runs { RunsClosed self.old events.now self.new }
        ensures right { AllHoldRight self.new }
        ensures joined { HasJoinedIfClosed self.new }
        ensures reached { IsReached self.new }
    {
        honest_work_is_never_refused();
        closed_clusters_keep_their_word();
        for event in events {
            let _ = self.schedule.happen(event);
        }
    }

    /// All frames that polls have returned so far, in order. The call takes no memory.
    pub fn frames(&self) -> &[Frame]
        ensures { result.now ≡ self.now.frames }
    {
        &self.schedule.frames
    }

    /// The verdict that a node holds; `None` if there is no such node. The call takes no memory.
    pub fn verdict(&self, node: usize) -> Option<&Verdict>
        ensures holds { option_copied result ≡ verdict_at self.now node }
        ensures right { IfSome result (λ v. Right self.now.coordinator.formula v.now) }
        ensures reached { IsReached self.now }
    {
        honest_work_is_never_refused();
        closed_clusters_keep_their_word();
        self.schedule.members.verdict(node)
    }
}
