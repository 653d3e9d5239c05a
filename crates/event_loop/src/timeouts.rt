//! Timeouts: connections whose timeout is over are closed, and so are inactive connections while the verdict is handed out.

ghost use Rattle.std.specs.Prelude.{◌≡◌, ◌≤◌, ◌+◌, ℕ, None, Ok, Some, OnOk, false, true};
ghost use Rattle.event_loop.specs.Accounts.{one_if_open, open_at};
ghost use Rattle.event_loop.specs.inner.Accounts.{Refuses, Spends};
ghost use Rattle.event_loop.specs.inner.Connections.{AreFresh, IsFresh};
ghost use Rattle.event_loop.specs.inner.Timeouts.{OverdueClosed, is_overdue_in};
ghost use Rattle.event_loop.specs.inner.Registrations.{AreApart, IsLost, registered_in};

use crate::connection::Connection;
use crate::dispatcher::{Dispatcher, close};
use crate::idle_workers::has_idle;
use crate::sender::At;
use links::Arrivals;
use std::alloc::AllocError;

/// Tells whether this slot has a connection whose timeout is over at this tick; `is_other_idle` tells whether a worker is idle.
fn is_overdue(connection: &Option<Connection>, tick: u64, is_other_idle: bool) -> bool
    ensures { result ≡ is_overdue_in connection.now tick is_other_idle }
{
    match connection {
        Some(connection) => connection.is_overdue(tick, is_other_idle),
        None => false,
    }
}

/// A hash of the cube under which the worker of a slot searches; `None` if there is no connection, or its worker has no task.
fn leaf_of(connection: &Option<Connection>) -> Option<u64> {
    match connection {
        Some(connection) => connection.leaf(),
        None => None,
    }
}

/// Closes the connection of a slot if its timeout is over. If its worker had a task, the leaf is noted, so that its next task has a longer
/// timeout. An error is want of memory.
fn close_overdue<A: Arrivals>(
    links: &mut A,
    dispatcher: &mut Dispatcher,
    at: At,
    is_other_idle: bool,
    connection: &mut Option<Connection>,
) -> Result<(), AllocError>
    ensures formula { dispatcher.new.coordinator.formula ≡ dispatcher.old.coordinator.formula }
    ensures verdict { dispatcher.new.coordinator.verdict ≡ dispatcher.old.coordinator.verdict }
    // No send and no receive; hanging up is not counted.
    ensures spends { Spends A.Arrivals 0 links.old links.new }
    // Only calls over this link are refused, and at most one, which closes the connection.
    ensures refusals { Refuses A.Arrivals at.place (one_if_open connection.old) (one_if_open connection.new) links.old links.new }
    ensures fresh { IsFresh connection.old → IsFresh connection.new }
    ensures ended { is_overdue_in connection.old at.tick is_other_idle ≡ true → (connection.new ≡ None) × IsLost (registered_in connection.old) dispatcher.old.coordinator dispatcher.new.coordinator }
    ensures stays { is_overdue_in connection.old at.tick is_other_idle ≡ false → (connection.new ≡ connection.old) × (dispatcher.new ≡ dispatcher.old) × (result ≡ Ok tt) }
    ensures owner { (worker : ℕ) → registered_in connection.new ≡ Some worker → registered_in connection.old ≡ Some worker }
{
    if !is_overdue(connection, at.tick, is_other_idle) {
        return Ok(());
    }
    let leaf = leaf_of(connection);
    close(links, dispatcher, at.place, connection);
    match leaf {
        Some(leaf) => dispatcher.patience.note(leaf),
        None => Ok(()),
    }
}

/// Closes each connection of the slots 0 to 254 whose timeout is over. An error is want of memory.
pub(crate) fn close_all_overdue<A: Arrivals>(
    links: &mut A,
    dispatcher: &mut Dispatcher,
    tick: u64,
    slots: &mut [Option<Connection>],
) -> Result<(), AllocError>
    ensures formula { dispatcher.new.coordinator.formula ≡ dispatcher.old.coordinator.formula }
    ensures verdict { dispatcher.new.coordinator.verdict ≡ dispatcher.old.coordinator.verdict }
    // No send and no receive; hanging up is not counted.
    ensures spends { Spends A.Arrivals 0 links.old links.new }
    ensures each { (p : ℕ) → A.refusal_count links.new p + open_at slots.new p ≤ A.refusal_count links.old p + open_at slots.old p }
    ensures fresh { AreFresh slots.old → AreFresh slots.new }
    ensures apart { AreApart slots.old → AreApart slots.new }
    ensures cleared { OnOk result (OverdueClosed 255 slots.old slots.new tick) }
{
    for place in 0..u8::MAX {
        if slots.len() <= place as usize {
            return Ok(());
        }
        let is_other_idle = has_idle(slots);
        let at = At { place, tick };
        close_overdue(
            links,
            dispatcher,
            at,
            is_other_idle,
            &mut slots[place as usize],
        )?;
    }
    Ok(())
}

/// Closes the connection of a slot, while the verdict is handed out, if no worker is registered at
/// it, or if its timeout began at least `ticks` ticks ago.
fn close_if_inactive<A: Arrivals>(
    links: &mut A,
    dispatcher: &mut Dispatcher,
    at: At,
    ticks: u64,
    connection: &mut Option<Connection>,
)
    ensures formula { dispatcher.new.coordinator.formula ≡ dispatcher.old.coordinator.formula }
    ensures verdict { dispatcher.new.coordinator.verdict ≡ dispatcher.old.coordinator.verdict }
    // No send and no receive; hanging up is not counted.
    ensures spends { Spends A.Arrivals 0 links.old links.new }
    // Only calls over this link are refused, and at most one, which closes the connection.
    ensures refusals { Refuses A.Arrivals at.place (one_if_open connection.old) (one_if_open connection.new) links.old links.new }
    ensures owner { (worker : ℕ) → registered_in connection.new ≡ Some worker → registered_in connection.old ≡ Some worker }
{
    let is_active = match connection {
        Some(connection) => connection.registered().is_some()
            && !connection.is_quiet(at.tick, ticks),
        None => true,
    };
    if !is_active {
        close(links, dispatcher, at.place, connection);
    }
}

/// While the verdict is handed out, closes each connection of the slots 0 to 254 at which no worker
/// is registered, or whose timeout began at least `ticks` ticks ago.
pub(crate) fn close_inactive<A: Arrivals>(
    links: &mut A,
    dispatcher: &mut Dispatcher,
    at_tick: u64,
    ticks: u64,
    slots: &mut [Option<Connection>],
)
    ensures formula { dispatcher.new.coordinator.formula ≡ dispatcher.old.coordinator.formula }
    ensures verdict { dispatcher.new.coordinator.verdict ≡ dispatcher.old.coordinator.verdict }
    // No send and no receive; hanging up is not counted.
    ensures spends { Spends A.Arrivals 0 links.old links.new }
    ensures each { (p : ℕ) → A.refusal_count links.new p + open_at slots.new p ≤ A.refusal_count links.old p + open_at slots.old p }
    ensures apart { AreApart slots.old → AreApart slots.new }
{
    for place in 0..u8::MAX {
        if slots.len() <= place as usize {
            return;
        }
        let at = At {
            place,
            tick: at_tick,
        };
        close_if_inactive(links, dispatcher, at, ticks, &mut slots[place as usize]);
    }
}
