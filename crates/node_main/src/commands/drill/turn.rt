//! A turn of a drill: the event that its three words stand for, and the reaction of the cluster.

ghost use Rattle.std.specs.Prelude.{◌≡◌, ◌+◌, ◌<◌, ◌^◌, [], ◌∷◌, IfOk, OnErr, MatchBool};
ghost use Rattle.honest_cluster.specs.declared.event.ClosedEvent.TheVariants.{Deliver, Poll, Restart, Work};
ghost use Rattle.cluster.specs.Closed.{IsReached};
ghost use Rattle.node_main.specs.DrillSchedule.{IsRefusedReaction, Occurs, delivery, drawn_event, next_after, renewal};

use cluster::ClosedCluster;
use honest_cluster::{ClosedEvent, closed_clusters_keep_their_word};
use lrat_check::Reaction;
use std::alloc::AllocError;

/// The event that delivers a frame which some poll has returned, number `b` modulo `frames`, to a
/// node; `None` if there is no frame yet.
fn delivery(b: u64, node: usize, frames: usize) -> Option<ClosedEvent>
    ensures { result ≡ delivery b node frames }
{
    if frames == 0 {
        return None;
    }
    let place = (b % frames as u64) as usize;
    Some(ClosedEvent::Deliver { node, place })
}

/// The event that restarts a node under the number `next`; `None` unless `b` is a multiple of 16,
/// so that restarts are rare.
fn renewal(b: u64, node: usize, next: u64) -> Option<ClosedEvent>
    ensures { result ≡ renewal b node next }
{
    if b % 16 != 0 {
        return None;
    }
    Some(ClosedEvent::Restart { node, number: next })
}

/// The event that the words of a turn stand for, in a cluster whose polls have returned `frames` frames; a restart is under the number
/// `next`. `None` if nothing is to happen.
pub(crate) fn drawn_event(words: &[u64; 3], frames: usize, next: u64) -> Option<ClosedEvent>
    ensures { result ≡ drawn_event words.now frames next }
{
    let [a, b, c] = *words;
    let node = (c % 4) as usize;
    match a % 16 {
        0..=5 => delivery(b, node, frames),
        6..=8 => Some(ClosedEvent::Work { node }),
        9..=14 => {
            let worker = 1 + (b % 3) as u32;
            Some(ClosedEvent::Poll { node, worker })
        }
        _ => renewal(b, node, next),
    }
}

/// States the events of some turns, as worked examples.
pub fn worked_turns()
    ensures first { drawn_event (3 ∷ 7 ∷ 5 ∷ []) 0 5 ≡ None }
    ensures delivery { drawn_event (3 ∷ 7 ∷ 5 ∷ []) 4 5 ≡ Some (Deliver 1 3) }
    ensures work { drawn_event (8 ∷ 7 ∷ 6 ∷ []) 4 5 ≡ Some (Work 2) }
    ensures poll { drawn_event (30 ∷ 7 ∷ 4 ∷ []) 4 5 ≡ Some (Poll 0 2) }
    ensures restart { drawn_event (31 ∷ 32 ∷ 3 ∷ []) 4 5 ≡ Some (Restart 3 5) }
    ensures rest { drawn_event (31 ∷ 33 ∷ 3 ∷ []) 4 5 ≡ None }
{}

/// The number of the next restart after this event, if it was `next` before: one higher after a restart, else the same.
pub(crate) fn next_after(event: Option<ClosedEvent>, next: u64) -> u64
    requires { next + 1 < 2 ^ 64 }
    ensures { result ≡ next_after event next }
{
    match event {
        Some(ClosedEvent::Restart { .. }) => next + 1,
        _ => next,
    }
}

/// A step of proofs: the contract of `verdict` says that some closed schedule led to this cluster.
/// It does nothing at run time.
pub(crate) fn recall_schedule(cluster: &ClosedCluster)
    ensures { IsReached cluster.now }
{
    let _ = cluster.verdict(0);
}

/// Plays an event, if there is one, and answers the reaction, or `None` without an event. An error is want of memory: then the cluster is
/// unchanged.
pub(crate) fn react(
    cluster: &mut ClosedCluster,
    event: Option<ClosedEvent>,
) -> Result<Option<Reaction>, AllocError>
    ensures occurs { IfOk result (λ answer. Occurs cluster.old event answer cluster.new) }
    ensures stays { OnErr result (cluster.new ≡ cluster.old) }
{
    closed_clusters_keep_their_word();
    recall_schedule(cluster);
    let Some(event) = event else {
        return Ok(None);
    };
    match cluster.step(&event) {
        Reaction::NoMemory => Err(AllocError),
        answer => Ok(Some(answer)),
    }
}

/// Tells whether there is a reaction and it is a refusal.
pub(crate) fn is_refusal(answer: Option<Reaction>) -> bool
    ensures { MatchBool result (IsRefusedReaction answer) (¬ (IsRefusedReaction answer)) }
{
    matches!(answer, Some(Reaction::Refused(_)))
}
