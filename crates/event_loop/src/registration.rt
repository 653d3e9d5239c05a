//! Registration of queued workers: no worker is registered at two connections.

ghost use Rattle.std.specs.Prelude.{◌≡◌, ◌≤◌, ◌<◌, ◌+◌, ◌*◌, ◌⊎◌, ℕ, None, Ok, OnOk, Some, false, true, length};
ghost use Rattle.std.specs.List.{list_any};
ghost use Rattle.event_loop.specs.Accounts.{one_if_open, open_at};
ghost use Rattle.event_loop.specs.inner.Accounts.{Refuses, Spends};
ghost use Rattle.event_loop.specs.inner.Connections.{AreFresh, IsFresh};
ghost use Rattle.event_loop.specs.inner.Registrations.{AreApart, NobodyMayRegister, may_register, queued_in, registered_in, is_registered};

use crate::connection::Connection;
use crate::dispatcher::{Dispatcher, close_if_broken, registered};
use crate::receiver::register;
use crate::sender::At;
use frames::WorkerNumber;
use links::Arrivals;
use std::alloc::AllocError;

/// Tells whether this worker is registered at the connection of a slot.
fn is_registered(connection: &Option<Connection>, worker: WorkerNumber) -> bool
    ensures { result ≡ is_registered worker connection.now }
{
    match registered(connection) {
        Some(other) => other.number() == worker.number(),
        None => false,
    }
}

/// Tells whether this worker is registered at the connection of any slot; then another connection
/// of it stays queued.
fn has(slots: &[Option<Connection>], worker: WorkerNumber) -> bool
    ensures { result ≡ list_any (is_registered worker) slots.now }
{
    slots
        .iter()
        .any(|connection| is_registered(connection, worker))
}

/// The worker that is queued at the connection of a slot; `None` if there is no connection or no worker is queued at it.
fn queued(connection: &Option<Connection>) -> Option<WorkerNumber>
    ensures { result ≡ queued_in connection.now }
{
    match connection {
        Some(connection) => connection.queued(),
        None => None,
    }
}

/// Tells whether a worker is queued at the connection of the slot `place`, and is registered at none.
fn may_register(slots: &[Option<Connection>], place: u8) -> bool
    requires { place < length slots.now }
    ensures { result ≡ may_register slots.now place }
{
    match queued(&slots[place as usize]) {
        Some(worker) => !has(slots, worker),
        None => false,
    }
}

/// Registers the worker that is queued at the connection of a slot, if it may register, and closes the connection if it is broken. An error
/// is want of memory.
fn register_one<A: Arrivals>(
    links: &mut A,
    dispatcher: &mut Dispatcher,
    at: At,
    may_register: bool,
    connection: &mut Option<Connection>,
) -> Result<(), AllocError>
    ensures formula { dispatcher.new.coordinator.formula ≡ dispatcher.old.coordinator.formula }
    // At most 4,038 sends: for the first frame, and for up to 4,037 that wait after it.
    ensures spends { Spends A.Arrivals 4038 links.old links.new }
    // Only calls over this link are refused, and at most one, which closes the connection.
    ensures refusals { Refuses A.Arrivals at.place (one_if_open connection.old) (one_if_open connection.new) links.old links.new }
    ensures fresh { IsFresh connection.old → (dispatcher.new.coordinator.verdict ≡ dispatcher.old.coordinator.verdict) × IsFresh connection.new }
    ensures barred { may_register ≡ false → (connection.new ≡ connection.old) × (dispatcher.new ≡ dispatcher.old) × (result ≡ Ok tt) }
    ensures owner { (worker : ℕ) → registered_in connection.new ≡ Some worker → (registered_in connection.old ≡ Some worker) ⊎ (queued_in connection.old ≡ Some worker) }
    ensures waits { OnOk result (may_register ≡ true → queued_in connection.new ≡ None) }
{
    if !may_register {
        return Ok(());
    }
    let turn = match connection {
        None => return Ok(()),
        Some(connection) => register(
            links,
            &mut dispatcher.coordinator,
            &dispatcher.patience,
            at,
            connection,
        ),
    };
    close_if_broken(links, dispatcher, at.place, connection, turn)
}

/// Registers, in the slots 0 to 254 in order, each queued worker that is registered at no connection. An error is want of memory.
pub(crate) fn register_all<A: Arrivals>(
    links: &mut A,
    dispatcher: &mut Dispatcher,
    tick: u64,
    slots: &mut [Option<Connection>],
) -> Result<(), AllocError>
    ensures formula { dispatcher.new.coordinator.formula ≡ dispatcher.old.coordinator.formula }
    ensures fresh { AreFresh slots.old → dispatcher.new.coordinator.verdict ≡ dispatcher.old.coordinator.verdict }
    // At most 4,038 sends for each of the 255 slots.
    ensures spends { Spends A.Arrivals (4038 * 255) links.old links.new }
    ensures each { (p : ℕ) → A.refusal_count links.new p + open_at slots.new p ≤ A.refusal_count links.old p + open_at slots.old p }
    ensures apart { AreApart slots.old → AreApart slots.new }
    ensures registered { OnOk result (NobodyMayRegister slots.new 255) }
{
    for place in 0..u8::MAX {
        if slots.len() <= place as usize {
            return Ok(());
        }
        let may_register = may_register(slots, place);
        let at = At { place, tick };
        register_one(
            links,
            dispatcher,
            at,
            may_register,
            &mut slots[place as usize],
        )?;
    }
    Ok(())
}
