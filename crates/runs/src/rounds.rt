//! Rounds of a coordinator: in each round every worker has one turn.

ghost use Rattle.std.specs.Prelude.{◌≡◌, ◌≤◌, ◌+◌, ◌*◌, ◌⊎◌, ℕ, length, OnOk, IfOk, true, not};
ghost use Rattle.std.specs.List.{list_all};
ghost use Rattle.runs.specs.Accounts.{RoseBy, HasBegun};
ghost use Rattle.runs.specs.inner.Accounts.{GoesOn, IsOver, RoseWithin};
ghost use Rattle.runs.specs.inner.Connections.{Closing, IsUnderWay, open_count};

use crate::connection::Connection;
use crate::coordinator_calls::is_over;
use crate::frame_io::ROUNDS;
use crate::peer::Peer;
use coordinator_core::Coordinator;
use frames::WorkerNumber;
use links::Links;
use std::alloc::AllocError;

/// Gives the worker of each connection a turn, in order, until the run is over; connection i, counted from 0, is that of worker i + 1.
/// Answers whether the run is over. An error is want of memory.
fn round<P: Peer, L: Links>(
    links: &mut L,
    coordinator: &mut Coordinator,
    connections: &mut [Connection<P>],
) -> Result<bool, AllocError>
    requires connections { length connections.old ≤ length coordinator.old.jobs }
    requires workers { length coordinator.old.jobs ≤ 64 }
    ensures goes_on { GoesOn coordinator.old coordinator.new }
    // For each connection at most a send, 4,037 receives, and the worker's calls.
    ensures calls { RoseWithin 0 ((4038 + P.most) * length connections.old) (L.call_count links.old) (L.call_count links.new) }
    ensures some { 1 ≤ open_count connections.old → IfOk result (λ over. (over ≡ true) ⊎ RoseBy 1 (L.call_count links.old) (L.call_count links.new)) }
    ensures over { IfOk result (λ over. over ≡ true → IsOver P.HANDS_OUT coordinator.new) }
    ensures served { (base : ℕ) → IsUnderWay P.HANDS_OUT P.least base (L.call_count links.old) coordinator.old connections.old → OnOk result (IsUnderWay P.HANDS_OUT P.least base (L.call_count links.new) coordinator.new connections.new) }
    ensures refusals { Closing L.refusal_count L.refused_at links.old links.new connections.old connections.new }
{
    for i in 0..connections.len() {
        if is_over(coordinator, P::HANDS_OUT) {
            return Ok(true);
        }
        let worker = WorkerNumber::new(i as u32 + 1);
        connections[i].turn(links, coordinator, worker)?;
    }
    Ok(false)
}

/// Tells whether every connection is closed.
fn are_closed<P>(connections: &[Connection<P>]) -> bool
    ensures { result ≡ list_all (λ l. not l.is_open) connections.now }
{
    connections.iter().all(|l| !l.is_open)
}

/// Plays rounds until the run is over, every connection is closed, or 1,000,000 rounds are done. An error is want of memory.
pub(crate) fn run_rounds<P: Peer, L: Links>(
    links: &mut L,
    coordinator: &mut Coordinator,
    connections: &mut [Connection<P>],
) -> Result<(), AllocError>
    requires connections { length connections.old ≤ length coordinator.old.jobs }
    requires workers { length coordinator.old.jobs ≤ 64 }
    ensures goes_on { GoesOn coordinator.old coordinator.new }
    // As many as a round makes, in each of at most 1,000,000 rounds.
    ensures calls { RoseWithin 0 ((4038 + P.most) * length connections.old * 1000000) (L.call_count links.old) (L.call_count links.new) }
    ensures begun { (base : ℕ) → IsUnderWay P.HANDS_OUT P.least base (L.call_count links.old) coordinator.old connections.old → OnOk result (HasBegun base (L.call_count links.new) coordinator.new.verdict) }
    ensures refusals { Closing L.refusal_count L.refused_at links.old links.new connections.old connections.new }
{
    for _ in 0..ROUNDS {
        if are_closed(connections) {
            return Ok(());
        }
        if round(links, coordinator, connections)? {
            return Ok(());
        }
    }
    Ok(())
}
