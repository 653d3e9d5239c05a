//! The run of a coordinator: its state, and one round for each event.

ghost use Rattle.std.specs.Prelude.{◌≡◌, ◌<◌, ◌≢◌, ◌≤◌, ◌+◌, ℕ, [], length, All, None, IfOk, OnOk, false, true, not};
ghost use Rattle.dimacs.specs.logic.Cnf.{Cnf};
ghost use Rattle.dimacs.specs.logic.Literal.{IsWithin as IsLiteralWithin};
ghost use Rattle.cube_split.specs.Pairs.{IsBaseWith};
ghost use Rattle.evidence.specs.Jobs.{IsOverBase};
ghost use Rattle.lrat_check.specs.Verdicts.{Right};
ghost use Rattle.lrat_check.specs.declared.verdict.Verdict.TheVariants.{Nothing};
ghost use Rattle.links.specs.Arrivals.{IsWithin, begun_at};
ghost use Rattle.links.specs.Arrivals as arrivals;
ghost use Rattle.event_loop.specs.Accounts.{EachCloses, RoseBy, open_of};
ghost use Rattle.event_loop.specs.Run.{formula_of, verdict_of};
ghost use Rattle.event_loop.specs.Ending.{has_link, is_deserted};
ghost use Rattle.event_loop.specs.inner.Accounts.{Spends};
ghost use Rattle.event_loop.specs.inner.Rounds.{is_over};
ghost use Rattle.event_loop.specs.inner.Deliveries.{IdleHaveNothing, EventHandled, FirstEventHandled, NextEventHandled, IsElsewhere, BytesHandledAt};
ghost use Rattle.event_loop.specs.inner.Connections.{AreFresh};
ghost use Rattle.event_loop.specs.inner.Timeouts.{linked_by};
ghost use Rattle.event_loop.specs.inner.Registrations.{AreApart, connection_at};

use crate::connection::Connection;
use crate::coordinator_calls::{is_decided, join_ahead, progress_of};
use crate::dispatcher::{Dispatcher, grow_to, insert, receive_at};
use crate::idle_workers::poll_idle;
use crate::plan::Plan;
use crate::registration::register_all;
use crate::sender::{At, LONGEST, Patience};
use crate::timeouts::close_all_overdue;
use coordinator_core::Coordinator;
use cube_split::Opened;
use icnf::Tree;
use links::{Arrivals, Event};
use lrat_check::Verdict;
use std::alloc::{AllocError, Global};

/// The most events that a run handles, and that the handing out of its verdict handles.
pub(crate) const ARRIVALS: u64 = 1 << 63;

/// A coordinator and its connections.
pub struct Run {
    /// The allocator of the connections.
    pub(crate) alloc: Global,
    /// The coordinator and the timeouts of its tasks.
    pub(crate) dispatcher: Dispatcher,
    /// The connections: slot i holds the one over link i, from 0, or `None`.
    pub(crate) slots: Vec<Option<Connection>>,
    /// The tick of the last event; 0 before the first event.
    pub(crate) tick: u64,
    /// The last tick at which a connection was open; if there was none yet, the first tick. `None` before the first tick.
    pub(crate) linked: Option<u64>,
}

impl Drop for Run {
    fn drop(self) {
        let Run {
            alloc: _,
            dispatcher: _,
            slots: _,
            tick: _,
            linked: _,
        } = self;
    }
}

/// Tells whether an event may come after this one: always, except after `Over`.
fn may_go_on(event: Event) -> bool
    ensures { result ≡ not (arrivals.is_over event) }
{
    match event {
        Event::Linked { .. } | Event::Bytes { .. } | Event::Quiet => true,
        Event::Over => false,
    }
}

impl Run {
    /// A run that begins: its coordinator holds no verdict, and no connection is open. An error is want of memory.
    pub(crate) fn new(
        alloc: Global,
        opened: Opened,
        tree: Tree,
        plan: &Plan,
    ) -> Result<Run, AllocError>
        requires inside { (B : Cnf) → IsBaseWith opened.formula opened.definitions.wanted B → All (IsOverBase B) tree }
        requires narrow { 1000000 < opened.formula.vars → All (All (IsLiteralWithin 2000000)) tree }
        requires workers { (1 ≤ plan.now.workers) × (plan.now.workers ≤ 64) }
        ensures formula { IfOk result (λ r. formula_of r ≡ opened.formula) }
        ensures verdict { IfOk result (λ r. verdict_of r ≡ Nothing) }
        ensures stuck { IfOk result (λ r. r.dispatcher.coordinator.stuck ≡ false) }
        ensures links { IfOk result (λ r. r.slots.items ≡ []) }
        ensures linked { IfOk result (λ r. r.linked ≡ None) }
    {
        let coordinator = Coordinator::of(
            alloc,
            opened,
            tree,
            plan.limit,
            plan.workers,
            plan.session,
        )?;
        Ok(Run {
            alloc,
            dispatcher: Dispatcher {
                coordinator,
                patience: Patience::new(alloc, plan.patience),
            },
            slots: Vec::new(alloc),
            tick: 0,
            linked: None,
        })
    }

    /// The verdict that the run's coordinator holds, which is right for the formula; `Nothing` if none is held.
    pub fn verdict(&self) -> &Verdict
        ensures value { result.now ≡ verdict_of self.now }
        ensures right { Right (formula_of self.now) result.now }
    {
        self.dispatcher.coordinator.verdict()
    }

    /// Tells whether a verdict is held, or the coordinator is stuck, so that none will be held.
    pub(crate) fn is_over(&self) -> bool
        ensures { result ≡ is_over self.now }
    {
        is_decided(&self.dispatcher.coordinator) || self.dispatcher.coordinator.stuck()
    }

    /// Puts a new connection into the slot of a link that begins. An error is want of memory.
    fn add_connection(&mut self, place: u8) -> Result<(), AllocError>
        ensures formula { formula_of self.new ≡ formula_of self.old }
        ensures verdict { verdict_of self.new ≡ verdict_of self.old }
        ensures opens { (p : ℕ) → open_of self.new p ≤ open_of self.old p + begun_at (Event.Linked place) p }
        ensures fresh { AreFresh self.old.slots.items → AreFresh self.new.slots.items }
        ensures apart { AreApart self.old.slots.items → AreApart self.new.slots.items }
        ensures elsewhere { IsElsewhere place self.old.slots.items self.new.slots.items }
    {
        let connection = Connection::new(self.alloc, self.tick)?;
        grow_to(&mut self.slots, place)?;
        insert(&mut self.dispatcher, place, &mut self.slots, connection);
        Ok(())
    }

    /// Takes bytes that came over the link at `place`; no bytes are its end. An error is want of memory.
    fn take_bytes<A: Arrivals>(
        &mut self,
        links: &mut A,
        place: u8,
        bytes: &[u8],
    ) -> Result<(), AllocError>
        ensures formula { formula_of self.new ≡ formula_of self.old }
        // At most 4,037 sends: one for each frame, and what is received at once has no more
        // frames.
        ensures spends { Spends A.Arrivals 4037 links.old links.new }
        ensures each { (p : ℕ) → A.refusal_count links.new p + open_of self.new p ≤ A.refusal_count links.old p + open_of self.old p }
        ensures first { self.old.slots.items ≡ [] → (verdict_of self.new ≡ verdict_of self.old) × (self.new.slots.items ≡ []) }
        ensures apart { AreApart self.old.slots.items → AreApart self.new.slots.items }
        ensures handled { OnOk result (BytesHandledAt bytes.now (connection_at self.old.slots.items place) (connection_at self.new.slots.items place) self.old.dispatcher.coordinator self.new.dispatcher.coordinator) }
        ensures elsewhere { IsElsewhere place self.old.slots.items self.new.slots.items }
    {
        let at = At {
            place,
            tick: self.tick,
        };
        receive_at(links, &mut self.dispatcher, at, &mut self.slots, bytes)
    }

    /// Handles an event, whose bytes are at the front of `room`. If no event came in time, one leaf is joined in the time in which the loop
    /// would wait. An error is want of memory.
    fn handle_event<A: Arrivals>(
        &mut self,
        links: &mut A,
        event: Event,
        room: &[u8],
    ) -> Result<(), AllocError>
        requires { IsWithin event (length room.now) }
        ensures formula { formula_of self.new ≡ formula_of self.old }
        // At most 4,037 sends: one for each frame, and what is received at once has no more
        // frames.
        ensures spends { Spends A.Arrivals 4037 links.old links.new }
        ensures each { (p : ℕ) → A.refusal_count links.new p + open_of self.new p ≤ A.refusal_count links.old p + open_of self.old p + begun_at event p }
        ensures first { self.old.slots.items ≡ [] → (verdict_of self.new ≡ verdict_of self.old) × AreFresh self.new.slots.items }
        ensures apart { AreApart self.old.slots.items → AreApart self.new.slots.items }
        ensures handled { OnOk result (EventHandled event room.now self.old.slots.items self.new.slots.items self.old.dispatcher.coordinator self.new.dispatcher.coordinator) }
    {
        match event {
            Event::Linked { place } => self.add_connection(place),
            Event::Bytes { place, count } => self.take_bytes(links, place, &room[..count]),
            Event::Quiet => {
                join_ahead(&mut self.dispatcher.coordinator);
                Ok(())
            }
            Event::Over => Ok(()),
        }
    }

    /// Receives and handles the next event. Answers whether an event may come after it. An error is want of memory.
    pub(crate) fn receive_next<A: Arrivals>(&mut self, links: &mut A) -> Result<bool, AllocError>
        ensures formula { formula_of self.new ≡ formula_of self.old }
        // One receive, and at most 4,037 sends: one for each frame of what was received.
        ensures one { RoseBy 1 (A.call_count links.old) (A.call_count links.new) }
        ensures most { A.call_count links.new ≤ A.call_count links.old + 4038 }
        ensures rises { A.call_count links.old ≤ A.call_count links.new }
        ensures arrivals { A.arrival_count links.old ≤ A.arrival_count links.new }
        ensures arrived { IfOk result (λ goes_on. goes_on ≡ true → A.arrival_count links.new ≡ A.arrival_count links.old + 1) }
        // A link that refuses a call is closed: at each place refusals and open connections
        // together rise by no more than the links that begin there.
        ensures each { EachCloses (open_of self.old) (open_of self.new) (A.link_count links.old) (A.link_count links.new) (A.refusal_count links.old) (A.refusal_count links.new) }
        // Without a connection before, the event leads to no verdict and to no handshake.
        ensures first { self.old.slots.items ≡ [] → (verdict_of self.new ≡ verdict_of self.old) × AreFresh self.new.slots.items }
        ensures apart { AreApart self.old.slots.items → AreApart self.new.slots.items }
        ensures over { IfOk result (λ goes_on. goes_on ≡ false → A.has_ended links.new ≡ true) }
        ensures handled { OnOk result (NextEventHandled A.came links.old self.old self.new) }
    {
        let mut room = [0u8; LONGEST];
        let arrival = links.receive_any(&mut room);
        self.tick = arrival.tick;
        self.handle_event(links, arrival.event, &room)?;
        Ok(may_go_on(arrival.event))
    }

    /// Tells whether a connection is open.
    pub(crate) fn has_link(&self) -> bool
        ensures { result ≡ has_link self.now }
    {
        self.slots.iter().any(|connection| connection.is_some())
    }

    /// Tells whether no connection was open for as many ticks as a task may take; false if tasks have no timeout.
    pub(crate) fn is_deserted(&self) -> bool
        ensures { result ≡ is_deserted self.now }
    {
        match (self.dispatcher.patience.ticks(), self.linked) {
            (Some(ticks), Some(linked)) => {
                !self.has_link() && ticks <= self.tick.saturating_sub(linked)
            }
            _ => false,
        }
    }

    /// Notes the tick of the last event as the last one at which a connection was open. The time
    /// without a connection is counted from there.
    fn note_link(&mut self)
        ensures { self.new ≡ record self.old { linked = linked_by self.old.linked (has_link self.old) self.old.tick } }
    {
        if self.linked.is_none() || self.has_link() {
            self.linked = Some(self.tick);
        }
    }

    /// If the tick of the last event differs from `before`: closes connections whose timeout is over, notes whether a connection is open,
    /// and shows the progress. An error is want of memory.
    fn handle_tick<A: Arrivals>(&mut self, links: &mut A, before: u64) -> Result<(), AllocError>
        ensures formula { formula_of self.new ≡ formula_of self.old }
        ensures verdict { verdict_of self.new ≡ verdict_of self.old }
        // No send and no receive; hanging up is not counted.
        ensures spends { Spends A.Arrivals 0 links.old links.new }
        ensures each { (p : ℕ) → A.refusal_count links.new p + open_of self.new p ≤ A.refusal_count links.old p + open_of self.old p }
        ensures fresh { AreFresh self.old.slots.items → AreFresh self.new.slots.items }
        ensures apart { AreApart self.old.slots.items → AreApart self.new.slots.items }
        ensures linked { OnOk result (self.old.tick ≢ before → self.new.linked ≡ linked_by self.old.linked (has_link self.new) self.old.tick) }
    {
        if self.tick == before {
            return Ok(());
        }
        close_all_overdue(links, &mut self.dispatcher, self.tick, &mut self.slots)?;
        self.note_link();
        links.show(&progress_of(&self.dispatcher.coordinator));
        Ok(())
    }

    /// Does what follows each event: closes overdue connections if the tick has changed since
    /// `before`, registers queued workers, and polls the coordinator for idle ones. An error is
    /// want of memory.
    fn handle_waiting<A: Arrivals>(&mut self, links: &mut A, before: u64) -> Result<(), AllocError>
        ensures formula { formula_of self.new ≡ formula_of self.old }
        // At most 4,038 sends for a registration and one for a poll, in each of the 255 slots.
        ensures spends { Spends A.Arrivals 1029945 links.old links.new }
        ensures each { (p : ℕ) → A.refusal_count links.new p + open_of self.new p ≤ A.refusal_count links.old p + open_of self.old p }
        ensures fresh { AreFresh self.old.slots.items → verdict_of self.new ≡ verdict_of self.old }
        ensures apart { AreApart self.old.slots.items → AreApart self.new.slots.items }
        ensures told { OnOk result (IdleHaveNothing self.new.slots.items self.new.dispatcher.coordinator) }
    {
        self.handle_tick(links, before)?;
        register_all(links, &mut self.dispatcher, self.tick, &mut self.slots)?;
        poll_idle(links, &mut self.dispatcher, self.tick, &mut self.slots)
    }

    /// Plays a round: receives and handles the next event, then handles timeouts, queued workers and idle workers. Answers whether an event
    /// may come after it. An error is want of memory.
    pub(crate) fn round<A: Arrivals>(&mut self, links: &mut A) -> Result<bool, AllocError>
        ensures formula { formula_of self.new ≡ formula_of self.old }
        ensures one { RoseBy 1 (A.call_count links.old) (A.call_count links.new) }
        // At most 4,039 calls for each of 256 connections.
        ensures most { A.call_count links.new ≤ A.call_count links.old + 1033984 }
        ensures rises { A.call_count links.old ≤ A.call_count links.new }
        ensures arrivals { A.arrival_count links.old ≤ A.arrival_count links.new }
        ensures arrived { IfOk result (λ goes_on. goes_on ≡ true → A.arrival_count links.new ≡ A.arrival_count links.old + 1) }
        // A link that refuses a call is closed: at each place refusals and open connections
        // together rise by no more than the links that begin there.
        ensures each { EachCloses (open_of self.old) (open_of self.new) (A.link_count links.old) (A.link_count links.new) (A.refusal_count links.old) (A.refusal_count links.new) }
        ensures first { self.old.slots.items ≡ [] → verdict_of self.new ≡ verdict_of self.old }
        ensures apart { AreApart self.old.slots.items → AreApart self.new.slots.items }
        ensures told { OnOk result (IdleHaveNothing self.new.slots.items self.new.dispatcher.coordinator) }
        ensures over { IfOk result (λ goes_on. goes_on ≡ false → A.has_ended links.new ≡ true) }
        ensures handled { OnOk result (FirstEventHandled A.came links.old self.old) }
    {
        let before = self.tick;
        let goes_on = self.receive_next(links)?;
        self.handle_waiting(links, before)?;
        Ok(goes_on)
    }
}
