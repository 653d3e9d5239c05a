//! Polls for idle workers: the coordinator may have a task for them by now.

ghost use Rattle.std.specs.Prelude.{◌≡◌, ◌≤◌, ◌+◌, ℕ, None, Some, IfOk, IsSome, IsSomeAnd, MatchBool, OnOk};
ghost use Rattle.std.specs.List.{list_any};
ghost use Rattle.event_loop.specs.Accounts.{one_if_open, open_at};
ghost use Rattle.event_loop.specs.inner.Accounts.{Refuses, Spends};
ghost use Rattle.event_loop.specs.inner.Deliveries.{IdleHaveNothing, HasNothing};
ghost use Rattle.event_loop.specs.inner.Timeouts.{is_idle};
ghost use Rattle.event_loop.specs.inner.Registrations.{AreApart, idle_in, registered_in};

use crate::connection::Connection;
use crate::dispatcher::{Dispatcher, close_if_broken};
use crate::sender::{At, poll_and_send};
use links::Arrivals;
use std::alloc::AllocError;

/// Tells whether this slot has a connection whose worker is idle.
fn is_idle(connection: &Option<Connection>) -> bool
    ensures value { result ≡ is_idle connection.now }
    ensures cases { MatchBool result (IsSome (idle_in connection.now)) (idle_in connection.now ≡ None) }
{
    match connection {
        Some(connection) => connection.idle().is_some(),
        None => false,
    }
}

/// Tells whether a worker is idle in some slot.
pub(crate) fn has_idle(slots: &[Option<Connection>]) -> bool
    ensures { result ≡ list_any is_idle slots.now }
{
    slots.iter().any(|connection| is_idle(connection))
}

/// Sends the worker of a slot what the coordinator has for it, and closes the connection if it is broken. Nothing happens in an empty slot.
/// An error is want of memory.
fn poll_one<A: Arrivals>(
    links: &mut A,
    dispatcher: &mut Dispatcher,
    at: At,
    connection: &mut Option<Connection>,
) -> Result<(), AllocError>
    ensures formula { dispatcher.new.coordinator.formula ≡ dispatcher.old.coordinator.formula }
    ensures verdict { dispatcher.new.coordinator.verdict ≡ dispatcher.old.coordinator.verdict }
    ensures spends { Spends A.Arrivals 1 links.old links.new }
    // Only calls over this link are refused, and at most one, which closes the connection.
    ensures refusals { Refuses A.Arrivals at.place (one_if_open connection.old) (one_if_open connection.new) links.old links.new }
    ensures owner { (worker : ℕ) → registered_in connection.new ≡ Some worker → registered_in connection.old ≡ Some worker }
    ensures idle { OnOk result ((worker : ℕ) → idle_in connection.new ≡ Some worker → HasNothing dispatcher.new.coordinator worker) }
{
    let turn = match connection {
        None => return Ok(()),
        Some(connection) => poll_and_send(
            links,
            &mut dispatcher.coordinator,
            &dispatcher.patience,
            at,
            connection,
        ),
    };
    close_if_broken(links, dispatcher, at.place, connection, turn)
}

/// Sends the worker of a slot, if it is idle, what the coordinator has for it. Answers whether it is still idle; false if it was not idle.
/// An error is want of memory.
fn poll_if_idle<A: Arrivals>(
    links: &mut A,
    dispatcher: &mut Dispatcher,
    at: At,
    connection: &mut Option<Connection>,
) -> Result<bool, AllocError>
    ensures formula { dispatcher.new.coordinator.formula ≡ dispatcher.old.coordinator.formula }
    ensures verdict { dispatcher.new.coordinator.verdict ≡ dispatcher.old.coordinator.verdict }
    ensures spends { Spends A.Arrivals 1 links.old links.new }
    // Only calls over this link are refused, and at most one, which closes the connection.
    ensures refusals { Refuses A.Arrivals at.place (one_if_open connection.old) (one_if_open connection.new) links.old links.new }
    ensures owner { (worker : ℕ) → registered_in connection.new ≡ Some worker → registered_in connection.old ≡ Some worker }
    ensures idle { IfOk result (λ stays. MatchBool stays (IsSomeAnd (idle_in connection.new) (HasNothing dispatcher.new.coordinator)) (idle_in connection.new ≡ None)) }
{
    if !is_idle(connection) {
        return Ok(false);
    }
    poll_one(links, dispatcher, at, connection)?;
    Ok(is_idle(connection))
}

/// Sends the idle workers of the slots 0 to 254, in order, what the coordinator has for them by
/// now, and stops at the first that stays idle: if there is nothing for one worker, there is
/// nothing for any other. An error is want of memory.
pub(crate) fn poll_idle<A: Arrivals>(
    links: &mut A,
    dispatcher: &mut Dispatcher,
    tick: u64,
    slots: &mut [Option<Connection>],
) -> Result<(), AllocError>
    ensures formula { dispatcher.new.coordinator.formula ≡ dispatcher.old.coordinator.formula }
    ensures verdict { dispatcher.new.coordinator.verdict ≡ dispatcher.old.coordinator.verdict }
    // At most one send for each of the 255 slots.
    ensures spends { Spends A.Arrivals 255 links.old links.new }
    ensures each { (p : ℕ) → A.refusal_count links.new p + open_at slots.new p ≤ A.refusal_count links.old p + open_at slots.old p }
    ensures told { OnOk result (IdleHaveNothing slots.new dispatcher.new.coordinator) }
    ensures apart { AreApart slots.old → AreApart slots.new }
{
    for place in 0..u8::MAX {
        if slots.len() <= place as usize {
            return Ok(());
        }
        let at = At { place, tick };
        if poll_if_idle(links, dispatcher, at, &mut slots[place as usize])? {
            return Ok(());
        }
    }
    Ok(())
}
