//! `--progress`: how far a run has come, once a second on standard error.

ghost use Rattle.std.specs.Prelude.{◌≤◌, length, IfOk};
ghost use Rattle.links.specs.Arrivals.{IsWithin};

use crate::status_line::{Showing, StatusLine};
use links::{Arrival, Carrier, End, Event, EventCarrier, LinkFault, Progress};
use std::fmt;
use std::fmt::{Display, Formatter};
use std::rt::Runtime;

/// Links that also show the progress of their run, and count the bytes that the coordinator receives.
pub(crate) struct Shown<'a, R, T> {
    /// The links that carry the bytes.
    links: T,
    line: StatusLine<'a, R>,
    /// How many bytes the coordinator has received.
    bytes: u64,
}

impl<R, T: Drop> Drop for Shown<'_, R, T> {
    fn drop(self) {
        let Shown {
            links: _,
            line: _,
            bytes: _,
        } = self;
    }
}

impl<'a, R: Runtime, T> Shown<'a, R, T> {
    /// These links, with no byte counted and no progress shown.
    pub(crate) fn new(rt: &'a R, links: T, showing: Showing) -> Shown<'a, R, T> {
        Shown {
            links,
            line: StatusLine::new(rt, showing),
            bytes: 0,
        }
    }

    /// Adds to the count of received bytes.
    fn add_bytes(&mut self, count: usize) {
        self.bytes = self.bytes.saturating_add(count as u64);
    }

    /// Shows the progress, at most once a second.
    fn print_progress(&mut self, progress: &Progress) {
        if let Some(elapsed) = self.line.due() {
            self.line.write(&Told {
                progress: *progress,
                bytes: self.bytes,
                seconds: elapsed.seconds,
            });
        }
    }

    /// Ends the line that each progress overwrites.
    pub(crate) fn end(&self) {
        self.line.end();
    }
}

/// The line that tells how far a run has come.
#[derive(Drop)]
struct Told {
    progress: Progress,
    bytes: u64,
    /// The seconds that the run has taken.
    seconds: u64,
}

impl Display for Told {
    fn fmt<W: fmt::Write>(&self, f: &mut Formatter<W>) -> fmt::Result {
        let Progress {
            closed,
            given,
            waiting,
            split,
        } = self.progress;
        let seconds = self.seconds;
        let whole = self.bytes / 1_000_000;
        let tenths = self.bytes % 1_000_000 / 100_000;
        write!(
            f,
            "c {seconds} s: {closed} closed, {given} given, {waiting} open, {split} split, {whole}.{tenths} MB"
        )
    }
}

impl<R: Runtime, C: Carrier> Carrier for Shown<'_, R, C> {
    /// Carries the bytes over the inner links.
    fn carry(&mut self, from: End, bytes: &[u8]) -> Result<(), LinkFault> {
        self.links.carry(from, bytes)
    }

    /// Fetches bytes over the inner links, and counts what comes to the coordinator.
    fn fetch(&mut self, at: End, room: &mut [u8]) -> Result<usize, LinkFault>
        ensures { IfOk result (λ n. n ≤ length room.new) }
    {
        let fetched = self.links.fetch(at, room);
        if let (End::Coordinator(_), Ok(count)) = (at, &fetched) {
            self.add_bytes(*count);
        }
        fetched
    }

    /// Prints the progress, at most once a second.
    fn show(&mut self, progress: &Progress) {
        self.print_progress(progress);
    }
}

impl<R: Runtime, S: EventCarrier> EventCarrier for Shown<'_, R, S> {
    /// Waits for the next event of the inner links, and counts its bytes.
    fn await_any(&mut self, room: &mut [u8]) -> Arrival
        ensures { IsWithin result.event (length room.new) }
    {
        let arrival = self.links.await_any(room);
        if let Event::Bytes { count, .. } = arrival.event {
            self.add_bytes(count);
        }
        arrival
    }

    /// Sends the bytes over the inner links.
    fn carry_to(&mut self, place: u8, bytes: &[u8]) -> Result<(), LinkFault> {
        self.links.carry_to(place, bytes)
    }

    /// Ends a link of the inner links.
    fn drop_at(&mut self, place: u8) {
        self.links.drop_at(place);
    }

    /// Prints the progress, at most once a second.
    fn show(&mut self, progress: &Progress) {
        self.print_progress(progress);
    }
}
