//! A line on standard error that tells how far a run has come, once a second.

ghost use Rattle.std.specs.Prelude.{◌≤◌, IfSome};

use std::fmt::Display;
use std::rt::Runtime;

/// How progress is shown on standard error.
#[derive(Clone, Copy, Debug, PartialEq, Eq)]
pub(crate) enum Showing {
    /// Not at all.
    Nowhere,
    /// A new line each time.
    Lines,
    /// On one line, which is overwritten (a terminal).
    InPlace,
}

/// The seconds of a run, when it shows its progress.
#[derive(Clone, Copy, Debug, PartialEq, Eq)]
pub(crate) struct Elapsed {
    /// Since the run began.
    pub(crate) seconds: u64,
    /// Since progress was last shown, or since the run began; at least 1.
    pub(crate) since: u64,
}

/// When a run shows its progress, and how.
pub(crate) struct StatusLine<'a, R> {
    rt: &'a R,
    showing: Showing,
    /// The second in which the run began, by the clock.
    begun: u64,
    /// The second in which progress was last shown, or in which the run began.
    told: u64,
}

impl<R> Drop for StatusLine<'_, R> {
    fn drop(self) {
        let StatusLine {
            rt: _,
            showing: _,
            begun: _,
            told: _,
        } = self;
    }
}

impl<'a, R: Runtime> StatusLine<'a, R> {
    /// The line of a run that begins now.
    pub(crate) fn new(rt: &'a R, showing: Showing) -> StatusLine<'a, R> {
        let now = seconds(rt);
        StatusLine {
            rt,
            showing,
            begun: now,
            told: now,
        }
    }

    /// The times that the line is to tell, if it is due: at most once a second.
    pub(crate) fn due(&mut self) -> Option<Elapsed>
        ensures { IfSome result (λ elapsed. 1 ≤ elapsed.since) }
    {
        if self.showing == Showing::Nowhere {
            return None;
        }
        let now = seconds(self.rt);
        if now == self.told {
            return None;
        }
        let since = now.saturating_sub(self.told).max(1);
        self.told = now;
        Some(Elapsed {
            seconds: now.saturating_sub(self.begun),
            since,
        })
    }

    /// Writes the line. A write that fails is ignored.
    pub(crate) fn write<D: Display>(&self, line: &D) {
        let _ = match self.showing {
            Showing::InPlace => eprint!(self.rt; "\r{line}\x1b[K"),
            _ => eprintln!(self.rt; "{line}"),
        };
    }

    /// Ends the line that each progress overwrites, so that the report begins a new one.
    pub(crate) fn end(&self) {
        if self.showing == Showing::InPlace && self.told != self.begun {
            let _ = eprintln!(self.rt; "");
        }
    }
}

/// The seconds of the monotonic clock; 0 if it cannot be read.
fn seconds<R: Runtime>(rt: &R) -> u64 {
    match rt.monotonic() {
        Ok(time) => time.as_secs(),
        Err(_) => 0,
    }
}
