//! Frames that come from workers: the handshake of a connection, the registration of its worker, and the delivery to the coordinator.

ghost use Rattle.std.specs.Prelude.{◌≡◌, ◌⊎◌, ◌∷◌, ℕ, [], Ok, None, Some, IsSome, OnOk, true};
ghost use Rattle.frames.specs.declared.frame.Frame.TheVariants.{Idle};
ghost use Rattle.event_loop.specs.declared.connection.State.TheVariants.{Handshake};
ghost use Rattle.event_loop.specs.inner.Accounts.{Refuses, Spends};
ghost use Rattle.event_loop.specs.inner.Deliveries.{AreDelivered, FrameHandled, IsNextDelivered, StaysLinked, is_own, sender_of};
ghost use Rattle.event_loop.specs.inner.Handshakes.{HandshakeStep};
ghost use Rattle.event_loop.specs.inner.Connections.{one_if_closed};
ghost use Rattle.event_loop.specs.inner.Registrations.{queued_worker, registered_worker};

use crate::connection::{Broken, Connection};
use crate::coordinator_calls::deliver;
use crate::sender::{At, LONGEST, Patience, poll_and_send};
use coordinator_core::Coordinator;
use frames::{Frame, WorkerNumber};
use links::Arrivals;
use lrat_check::Reaction;

/// The worker that a frame to the coordinator names as its sender; `None` for a frame that a coordinator sends.
fn sender_of(frame: &Frame) -> Option<WorkerNumber>
    ensures { result ≡ sender_of frame.now }
{
    match frame {
        Frame::Done { attempt, .. } => Some(attempt.worker),
        Frame::Piece { attempt, .. } => Some(attempt.worker),
        Frame::Want { worker, .. } => Some(*worker),
        Frame::Idle { worker, .. } => Some(*worker),
        _ => None,
    }
}

/// Tells whether a frame names the worker that is registered at the connection; false if none is.
fn is_own(connection: &Connection, frame: &Frame) -> bool
    ensures { result ≡ is_own (registered_worker connection.now) frame.now }
{
    match (connection.registered(), sender_of(frame)) {
        (Some(worker), Some(sender)) => worker.number() == sender.number(),
        _ => false,
    }
}

/// Delivers a frame of a connection's worker to the coordinator. Answers `Closed` if the frame does not name the worker that is registered,
/// if the coordinator refuses it (an honest worker sends none that is refused), or if too many tasks were declined; `NoMemory` if memory is
/// refused.
fn deliver_frame(
    coordinator: &mut Coordinator,
    tick: u64,
    connection: &mut Connection,
    frame: &Frame,
) -> Result<(), Broken>
    ensures formula { coordinator.new.formula ≡ coordinator.old.formula }
    ensures link { StaysLinked connection.old connection.new }
    ensures own { OnOk result (is_own (registered_worker connection.old) frame.now ≡ true) }
    ensures handled { OnOk result (FrameHandled frame.now coordinator.old coordinator.new) }
{
    if !is_own(connection, frame) {
        return Err(Broken::Closed);
    }
    connection.note_reply(frame);
    match deliver(coordinator, frame) {
        Reaction::NoMemory => Err(Broken::NoMemory),
        Reaction::Refused(_) => Err(Broken::Closed),
        Reaction::Ignored => connection.ignore(frame),
        _ => {
            connection.restart_timeout(tick);
            Ok(())
        }
    }
}

/// Delivers a frame of a connection's worker to the coordinator, and then sends the worker what the coordinator has for it.
fn handle_frame<A: Arrivals>(
    links: &mut A,
    coordinator: &mut Coordinator,
    patience: &Patience,
    at: At,
    connection: &mut Connection,
    frame: &Frame,
) -> Result<(), Broken>
    ensures formula { coordinator.new.formula ≡ coordinator.old.formula }
    ensures spends { Spends A.Arrivals 1 links.old links.new }
    // At most one call is refused, over this link alone, and only if the result is `Closed`.
    ensures refusals { Refuses A.Arrivals at.place (one_if_closed result) 0 links.old links.new }
    ensures link { StaysLinked connection.old connection.new }
    ensures delivered { OnOk result (IsNextDelivered (registered_worker connection.old) frame.now coordinator.old coordinator.new) }
{
    if let Err(broken) = deliver_frame(coordinator, at.tick, connection, frame) {
        return Err(broken);
    }
    poll_and_send(links, coordinator, patience, at, connection)
}

/// Delivers the waiting frames of a connection one by one, and after each sends the worker what the coordinator has for it. Stops at the
/// first frame that breaks the connection, and answers why.
pub(crate) fn handle_frames<A: Arrivals>(
    links: &mut A,
    coordinator: &mut Coordinator,
    patience: &Patience,
    at: At,
    connection: &mut Connection,
) -> Result<(), Broken>
    ensures formula { coordinator.new.formula ≡ coordinator.old.formula }
    // At most 4,037 sends: one for each frame, and what is received at once has no more frames.
    ensures spends { Spends A.Arrivals 4037 links.old links.new }
    // At most one call is refused, over this link alone, and only if the result is `Closed`.
    ensures refusals { Refuses A.Arrivals at.place (one_if_closed result) 0 links.old links.new }
    ensures owner { registered_worker connection.new ≡ registered_worker connection.old }
    ensures reader { connection.new.reader ≡ connection.old.reader }
    ensures none_waits { OnOk result (connection.new.waiting.items ≡ []) }
    ensures delivered { OnOk result (AreDelivered (registered_worker connection.old) connection.old.waiting.items coordinator.old coordinator.new) }
{
    for _ in 0..LONGEST {
        let Some(frame) = connection.next() else {
            return Ok(());
        };
        if let Err(broken) = handle_frame(links, coordinator, patience, at, connection, &frame) {
            return Err(broken);
        }
    }
    // A receive has at most LONGEST bytes, and a frame at least one.
    if connection.has_next() {
        return Err(Broken::Closed);
    }
    Ok(())
}

/// Takes the first frame of a connection, if it has come and was not taken before. Answers `Closed` if it is not Idle of a worker whose
/// number is at most `highest`.
pub(crate) fn handshake(connection: &mut Connection, highest: u32) -> Result<(), Broken>
    ensures { HandshakeStep highest connection.old result connection.new }
{
    if !connection.awaits_handshake() {
        return Ok(());
    }
    match connection.next() {
        Some(frame) => connection.handshake(&frame, highest),
        None => Ok(()),
    }
}

/// Registers the worker that is queued at a connection, and delivers its first frame and then those that wait. Nothing happens if no worker
/// is queued. The worker must not be registered at another connection.
pub(crate) fn register<A: Arrivals>(
    links: &mut A,
    coordinator: &mut Coordinator,
    patience: &Patience,
    at: At,
    connection: &mut Connection,
) -> Result<(), Broken>
    ensures formula { coordinator.new.formula ≡ coordinator.old.formula }
    ensures none { queued_worker connection.old ≡ None → (coordinator.new ≡ coordinator.old) × (connection.new ≡ connection.old) × (result ≡ Ok tt) }
    // At most 4,038 sends: for the first frame, and for up to 4,037 that wait after it.
    ensures spends { Spends A.Arrivals 4038 links.old links.new }
    // At most one call is refused, over this link alone, and only if the result is `Closed`.
    ensures refusals { Refuses A.Arrivals at.place (one_if_closed result) 0 links.old links.new }
    ensures owner { (worker : ℕ) → queued_worker connection.old ≡ Some worker → registered_worker connection.new ≡ Some worker }
    ensures waits { OnOk result (queued_worker connection.new ≡ None) }
    ensures none_waits { OnOk result (IsSome (queued_worker connection.old) → connection.new.waiting.items ≡ []) }
    ensures delivered { OnOk result ((worker : ℕ) → queued_worker connection.old ≡ Some worker → AreDelivered (Some worker) (Idle worker connection.old.incarnation ∷ connection.old.waiting.items) coordinator.old coordinator.new) }
{
    let Some(worker) = connection.queued() else {
        return Ok(());
    };
    connection.set_idle();
    let frame = Frame::Idle {
        worker,
        incarnation: connection.incarnation(),
    };
    if let Err(broken) = handle_frame(links, coordinator, patience, at, connection, &frame) {
        return Err(broken);
    }
    handle_frames(links, coordinator, patience, at, connection)
}
