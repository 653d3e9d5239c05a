//! The handing out of a verdict to the workers that are connected.

ghost use Rattle.std.specs.Prelude.{◌≡◌, ◌≤◌, OnOk};
ghost use Rattle.event_loop.specs.Accounts.{AreBounded, EachCloses, open_of};
ghost use Rattle.event_loop.specs.Ending.{HandsOut, HandoutEnded};
ghost use Rattle.event_loop.specs.Run.{formula_of};
ghost use Rattle.event_loop.specs.inner.Registrations.{AreApart};

use crate::coordinator_calls::is_decided;
use crate::dispatcher::restart_timeouts;
use crate::run::{ARRIVALS, Run};
use crate::timeouts::close_inactive;
use links::Arrivals;
use std::alloc::AllocError;

/// The timeout in ticks of each connection while the verdict is handed out.
const HANDOUT_TIMEOUT: u64 = 10;

impl Run {
    /// Handles events until no connection is left, no event can come any more, or 2^63 were handled. Before each event, inactive
    /// connections are closed: those without a registered worker, and those whose timeout began at least 10 ticks ago. An error is want of
    /// memory.
    fn hand_out_rounds<A: Arrivals>(&mut self, links: &mut A) -> Result<(), AllocError>
        ensures formula { formula_of self.new ≡ formula_of self.old }
        ensures most { AreBounded (A.arrival_count links.old) (A.arrival_count links.new) (A.call_count links.old) (A.call_count links.new) }
        ensures rises { A.call_count links.old ≤ A.call_count links.new }
        // A link that refuses a call is closed: at each place refusals and open connections
        // together rise by no more than the links that begin there.
        ensures each { EachCloses (open_of self.old) (open_of self.new) (A.link_count links.old) (A.link_count links.new) (A.refusal_count links.old) (A.refusal_count links.new) }
        ensures apart { AreApart self.old.slots.items → AreApart self.new.slots.items }
        ensures ended { OnOk result (HandoutEnded (A.arrival_count links.old) (A.arrival_count links.new) (A.has_ended links.new) self.new) }
    {
        for _ in 0..ARRIVALS {
            close_inactive(
                links,
                &mut self.dispatcher,
                self.tick,
                HANDOUT_TIMEOUT,
                &mut self.slots,
            );
            if !self.has_link() {
                return Ok(());
            }
            let goes_on = self.round(links)?;
            if !goes_on {
                return Ok(());
            }
        }
        Ok(())
    }

    /// Hands the verdict out to the workers that are connected, as long as they ask for it. Nothing is done if no verdict is held or no
    /// connection is open. An error is want of memory.
    pub fn hand_out<A: Arrivals>(&mut self, links: &mut A) -> Result<(), AllocError>
        ensures formula { formula_of self.new ≡ formula_of self.old }
        ensures most { AreBounded (A.arrival_count links.old) (A.arrival_count links.new) (A.call_count links.old) (A.call_count links.new) }
        // A link that refuses a call is closed: at each place refusals and open connections
        // together rise by no more than the links that begin there.
        ensures each { EachCloses (open_of self.old) (open_of self.new) (A.link_count links.old) (A.link_count links.new) (A.refusal_count links.old) (A.refusal_count links.new) }
        ensures handed { OnOk result (HandsOut self.old (A.call_count links.old) (A.call_count links.new) (A.arrival_count links.old) (A.arrival_count links.new) (A.has_ended links.new) self.new) }
    {
        if !is_decided(&self.dispatcher.coordinator) {
            return Ok(());
        }
        if !self.has_link() {
            return Ok(());
        }
        // Nothing was received since the verdict, so no timeout may count that time.
        let goes_on = self.receive_next(links)?;
        if !goes_on {
            return Ok(());
        }
        restart_timeouts(&mut self.slots, self.tick);
        self.hand_out_rounds(links)
    }
}
