//! The dispatcher: the coordinator and the slots of its connections. Slot i holds the connection over link i, from 0, or `None`.
//! Connections begin, bring bytes, and are closed.

ghost use Rattle.std.specs.Prelude.{◌≡◌, ◌≢◌, ◌≤◌, ◌+◌, ℕ, [], Err, None, Some, IsSome, OnOk, slice_set};
ghost use Rattle.event_loop.specs.Accounts.{one_if_open, open_at};
ghost use Rattle.event_loop.specs.inner.Accounts.{Refuses, Spends};
ghost use Rattle.event_loop.specs.inner.Deliveries.{BytesHandled, IsElsewhere, BytesHandledAt};
ghost use Rattle.event_loop.specs.inner.Connections.{AreFresh, one_if_closed};
ghost use Rattle.event_loop.specs.inner.Registrations.{AreApart, IsLost, connection_at, registered_in, registered_worker};
ghost use Rattle.links.specs.Arrivals.{begun_at};
ghost use Rattle.links.specs.declared.arrivals.Event.{Event};
ghost use Rattle.event_loop.specs.declared.connection.Broken.TheVariants.{Closed, NoMemory};
ghost use Rattle.event_loop.specs.declared.connection.State.TheVariants.{Handshake};

use crate::connection::{Broken, Connection};
use crate::coordinator_calls::lose;
use crate::receiver::{handle_frames, handshake};
use crate::sender::{At, Patience};
use coordinator_core::Coordinator;
use frames::WorkerNumber;
use links::Arrivals;
use std::alloc::AllocError;

/// A coordinator with the timeouts of its tasks.
#[derive(Drop)]
pub struct Dispatcher {
    /// The coordinator.
    pub(crate) coordinator: Coordinator,
    /// The timeouts of its tasks.
    pub(crate) patience: Patience,
}

/// The worker that is registered at the connection of a slot; `None` if there is no connection or no worker is registered at it.
pub(crate) fn registered(connection: &Option<Connection>) -> Option<WorkerNumber>
    ensures { result ≡ registered_in connection.now }
{
    match connection {
        Some(connection) => connection.registered(),
        None => None,
    }
}

/// Closes the connection of a slot: hangs up the link and empties the slot. If a worker is registered, the coordinator is told that it is
/// lost, so that its leaf is open again.
pub(crate) fn close<A: Arrivals>(
    links: &mut A,
    dispatcher: &mut Dispatcher,
    place: u8,
    connection: &mut Option<Connection>,
)
    ensures formula { dispatcher.new.coordinator.formula ≡ dispatcher.old.coordinator.formula }
    ensures verdict { dispatcher.new.coordinator.verdict ≡ dispatcher.old.coordinator.verdict }
    // No send and no receive; hanging up is not counted.
    ensures spends { Spends A.Arrivals 0 links.old links.new }
    ensures refusals { (p : ℕ) → A.refusal_count links.new p ≡ A.refusal_count links.old p }
    ensures closed { connection.new ≡ None }
    ensures lost { IsLost (registered_in connection.old) dispatcher.old.coordinator dispatcher.new.coordinator }
{
    links.hang_up(place);
    if let Some(worker) = registered(connection) {
        lose(&mut dispatcher.coordinator, worker);
    }
    *connection = None;
}

/// Handles the result of a connection's turn: at `Closed` the connection is closed, and `NoMemory` is an error, which ends the run.
pub(crate) fn close_if_broken<A: Arrivals>(
    links: &mut A,
    dispatcher: &mut Dispatcher,
    place: u8,
    connection: &mut Option<Connection>,
    turn: Result<(), Broken>,
) -> Result<(), AllocError>
    ensures formula { dispatcher.new.coordinator.formula ≡ dispatcher.old.coordinator.formula }
    ensures verdict { dispatcher.new.coordinator.verdict ≡ dispatcher.old.coordinator.verdict }
    // No send and no receive; hanging up is not counted.
    ensures spends { Spends A.Arrivals 0 links.old links.new }
    ensures refusals { (p : ℕ) → A.refusal_count links.new p ≡ A.refusal_count links.old p }
    ensures closed { turn ≡ Err Closed → connection.new ≡ None }
    ensures lost { turn ≡ Err Closed → IsLost (registered_in connection.old) dispatcher.old.coordinator dispatcher.new.coordinator }
    ensures memory { OnOk result (turn ≢ Err NoMemory) }
    ensures same { one_if_closed turn ≡ 0 → (connection.new ≡ connection.old) × (dispatcher.new ≡ dispatcher.old) }
{
    match turn {
        Ok(()) => Ok(()),
        Err(Broken::NoMemory) => Err(AllocError),
        Err(Broken::Closed) => {
            close(links, dispatcher, place, connection);
            Ok(())
        }
    }
}

/// Takes bytes that came over a connection: makes the handshake if no worker is registered, and else delivers the frames in the bytes to
/// the coordinator. Answers why the connection is broken, if it is.
fn handle_bytes<A: Arrivals>(
    links: &mut A,
    dispatcher: &mut Dispatcher,
    at: At,
    connection: &mut Connection,
    bytes: &[u8],
) -> Result<(), Broken>
    ensures formula { dispatcher.new.coordinator.formula ≡ dispatcher.old.coordinator.formula }
    // At most 4,037 sends: one for each frame, and what is received at once has no more frames.
    ensures spends { Spends A.Arrivals 4037 links.old links.new }
    // At most one call is refused, over this link alone, and only if the result is `Closed`.
    ensures refusals { Refuses A.Arrivals at.place (one_if_closed result) 0 links.old links.new }
    ensures handled { OnOk result (IsSome (registered_worker connection.old) → BytesHandled bytes.now connection.old connection.new dispatcher.old.coordinator dispatcher.new.coordinator) }
    ensures owner { registered_worker connection.new ≡ registered_worker connection.old }
{
    if let Err(broken) = connection.take(bytes) {
        return Err(broken);
    }
    if connection.registered().is_none() {
        return handshake(connection, dispatcher.coordinator.workers());
    }
    handle_frames(
        links,
        &mut dispatcher.coordinator,
        &dispatcher.patience,
        at,
        connection,
    )
}

/// Takes bytes that came over the link of a slot, and closes the connection if they break it. If the slot is empty, the link is hung up. An
/// error is want of memory.
fn receive<A: Arrivals>(
    links: &mut A,
    dispatcher: &mut Dispatcher,
    at: At,
    connection: &mut Option<Connection>,
    bytes: &[u8],
) -> Result<(), AllocError>
    ensures formula { dispatcher.new.coordinator.formula ≡ dispatcher.old.coordinator.formula }
    // At most 4,037 sends: one for each frame, and what is received at once has no more frames.
    ensures spends { Spends A.Arrivals 4037 links.old links.new }
    // Only calls over this link are refused, and at most one, which closes the connection.
    ensures refusals { Refuses A.Arrivals at.place (one_if_open connection.old) (one_if_open connection.new) links.old links.new }
    ensures owner { (worker : ℕ) → registered_in connection.new ≡ Some worker → registered_in connection.old ≡ Some worker }
    ensures handled { OnOk result (BytesHandledAt bytes.now connection.old connection.new dispatcher.old.coordinator dispatcher.new.coordinator) }
{
    let turn = match connection {
        None => {
            links.hang_up(at.place);
            return Ok(());
        }
        Some(connection) => handle_bytes(links, dispatcher, at, connection, bytes),
    };
    close_if_broken(links, dispatcher, at.place, connection, turn)
}

/// Takes bytes that came over the link at `at.place`, and closes the connection if they break it. If there is no such slot, or it is empty,
/// the link is hung up. An error is want of memory.
pub(crate) fn receive_at<A: Arrivals>(
    links: &mut A,
    dispatcher: &mut Dispatcher,
    at: At,
    slots: &mut [Option<Connection>],
    bytes: &[u8],
) -> Result<(), AllocError>
    ensures formula { dispatcher.new.coordinator.formula ≡ dispatcher.old.coordinator.formula }
    // At most 4,037 sends: one for each frame, and what is received at once has no more frames.
    ensures spends { Spends A.Arrivals 4037 links.old links.new }
    ensures each { (p : ℕ) → A.refusal_count links.new p + open_at slots.new p ≤ A.refusal_count links.old p + open_at slots.old p }
    ensures handled { OnOk result (BytesHandledAt bytes.now (connection_at slots.old at.place) (connection_at slots.new at.place) dispatcher.old.coordinator dispatcher.new.coordinator) }
    ensures elsewhere { IsElsewhere at.place slots.old slots.new }
    ensures first { slots.old ≡ [] → (dispatcher.new.coordinator.verdict ≡ dispatcher.old.coordinator.verdict) × (slots.new ≡ []) }
    ensures apart { AreApart slots.old → AreApart slots.new }
{
    if slots.len() <= at.place as usize {
        links.hang_up(at.place);
        return Ok(());
    }
    receive(links, dispatcher, at, &mut slots[at.place as usize], bytes)
}

/// Starts the timeout of the connection of a slot anew at this tick; nothing happens in an empty slot.
fn restart_one_timeout(connection: &mut Option<Connection>, tick: u64)
    ensures open { one_if_open connection.new ≡ one_if_open connection.old }
    ensures owner { (worker : ℕ) → registered_in connection.new ≡ Some worker → registered_in connection.old ≡ Some worker }
{
    if let Some(connection) = connection {
        connection.restart_timeout(tick);
    }
}

/// Starts the timeouts of all connections anew at this tick.
pub(crate) fn restart_timeouts(slots: &mut [Option<Connection>], tick: u64)
    ensures open { (p : ℕ) → open_at slots.new p ≡ open_at slots.old p }
    ensures apart { AreApart slots.old → AreApart slots.new }
{
    for place in 0..slots.len() {
        restart_one_timeout(&mut slots[place], tick);
    }
}

/// Puts a new connection into the slot of its link. A connection that the slot still held has
/// ended, and its worker is lost.
pub(crate) fn insert(
    dispatcher: &mut Dispatcher,
    place: u8,
    slots: &mut [Option<Connection>],
    new: Connection,
)
    ensures formula { dispatcher.new.coordinator.formula ≡ dispatcher.old.coordinator.formula }
    ensures verdict { dispatcher.new.coordinator.verdict ≡ dispatcher.old.coordinator.verdict }
    ensures opens { (p : ℕ) → open_at slots.new p ≤ open_at slots.old p + begun_at (Event.Linked place) p }
    ensures fresh { new.state ≡ Handshake → AreFresh slots.old → AreFresh slots.new }
    ensures placed { slots.new ≡ slice_set slots.old place (Some new) }
    ensures lost { IsLost (registered_in (connection_at slots.old place)) dispatcher.old.coordinator dispatcher.new.coordinator }
    ensures apart { new.state ≡ Handshake → AreApart slots.old → AreApart slots.new }
{
    if slots.len() <= place as usize {
        return;
    }
    if let Some(worker) = registered(&slots[place as usize]) {
        lose(&mut dispatcher.coordinator, worker);
    }
    slots[place as usize] = Some(new);
}

/// Appends empty slots until there is a slot `place`. An error is want of memory.
pub(crate) fn grow_to(slots: &mut Vec<Option<Connection>>, place: u8) -> Result<(), AllocError>
    ensures open { (p : ℕ) → open_at slots.new.items p ≡ open_at slots.old.items p }
    ensures places { (p : ℕ) → connection_at slots.new.items p ≡ connection_at slots.old.items p }
    ensures fresh { AreFresh slots.old.items → AreFresh slots.new.items }
    ensures apart { AreApart slots.old.items → AreApart slots.new.items }
{
    for _ in 0..=u8::MAX as usize {
        if (place as usize) < slots.len() {
            return Ok(());
        }
        slots.push(None)?;
    }
    Ok(())
}
