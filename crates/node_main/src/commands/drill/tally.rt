//! The tally of a drill: what is kept and counted from turn to turn.

ghost use Rattle.std.specs.Prelude.{◌≡◌, ◌+◌, ◌<◌, ◌^◌, length, IfOk, OnErr, false};
ghost use Rattle.node_main.specs.DrillSchedule.{DrillState, TakesTurn};
ghost use Rattle.node_main.specs.DrillReports.{drill_status};
ghost use Rattle.node_main.specs.inner.Tallies.{HasRoom, IsTally, counted};

use super::turn::{drawn_event, is_refusal, next_after, react};
use super::verdict_kinds::{Kinds, kinds_of};
use cluster::ClosedCluster;
use std::alloc::AllocError;

/// The counts of the turns that a drill has taken.
#[derive(Drop)]
pub(crate) struct Tally {
    /// The number under which the next restart restarts its node.
    next: u64,
    /// The kinds of the verdicts that any node held after any turn.
    held: Kinds,
    /// The number of reactions that were refusals.
    pub(crate) refused: u64,
    /// The number of turns after which a node held a verdict that differed from one held so far.
    pub(crate) disagreements: u64,
}

/// The count `old`, raised by one if `is_so` is true.
fn counted(old: u64, is_so: bool) -> u64
    requires { old + 1 < 2 ^ 64 }
    ensures { result ≡ counted old is_so }
{
    if is_so { old + 1 } else { old }
}

impl Tally {
    /// The tally before the first turn. The next number is 5, since a new cluster of three workers has used the numbers 1 to 4.
    pub(crate) fn new() -> Tally
        ensures { result ≡ record { next = 5; held = record { assignment = false; proof = false }; refused = 0; disagreements = 0 } }
    {
        Tally {
            next: 5,
            held: Kinds::none(),
            refused: 0,
            disagreements: 0,
        }
    }

    /// The exit status of the drill: 0 if nothing was refused and no verdicts differed, else 1.
    pub(crate) fn status(&self) -> u8
        ensures { result ≡ drill_status self.now.refused self.now.disagreements }
    {
        if self.refused == 0 && self.disagreements == 0 {
            0
        } else {
            1
        }
    }

    /// Takes the turn that these words stand for, and counts its refusal and its disagreement, if any. An error is want of memory: then the
    /// cluster is unchanged.
    pub(crate) fn take(
        &mut self,
        cluster: &mut ClosedCluster,
        words: &[u64; 3],
    ) -> Result<(), AllocError>
        requires room { HasRoom self.old }
        requires workers { length cluster.old.workers ≡ 3 }
        ensures taken { IfOk result (λ u. (old : DrillState) → IsTally self.old old → old.cluster ≡ cluster.old
            → (new : DrillState) × TakesTurn old words.now new × IsTally self.new new × (new.cluster ≡ cluster.new)) }
        ensures stays { OnErr result (cluster.new ≡ cluster.old) }
    {
        let event = drawn_event(words, cluster.frames().len(), self.next);
        let answer = match react(cluster, event) {
            Ok(answer) => answer,
            Err(_) => return Err(AllocError),
        };
        self.next = next_after(event, self.next);
        self.refused = counted(self.refused, is_refusal(answer));
        let kinds = kinds_of(cluster);
        self.held = self.held.and(kinds);
        self.disagreements = counted(self.disagreements, kinds.are_at_odds(self.held));
        Ok(())
    }
}
