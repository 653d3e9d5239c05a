//! The lines of all logs in the order in which they were taken at the first reading.

ghost use Rattle.std.specs.Prelude.{◌≤◌};

use crate::cell::{CellLogs, LogSource};
use crate::fault::WeaveFault;
use crate::log_lines::{LogLines, open_all};
use crate::survey::Run;
use lrat_text::TextFault;
use shared_lines::{SharedLine, SharedLineBuffer};
use std::alloc::{AllocError, Global};

/// A line that was read again.
#[derive(Clone, Copy)]
pub(crate) struct Reread<'a> {
    pub(crate) log: usize,
    /// The line's place in its log, from 1.
    pub(crate) place: u64,
    /// The bytes of the line.
    pub(crate) text: &'a [u8],
    pub(crate) line: SharedLine<'a>,
}

/// The second reading, between two lines.
pub(crate) struct SecondReading<S> {
    /// The greatest variable that a line may have.
    most: u32,
    logs: Vec<LogLines<S>>,
    /// By log, how many lines were read again.
    places: Vec<u64>,
    runs: Vec<Run>,
    /// The place of the next run.
    next: usize,
    /// The log of the run that is read, and how many of its lines are left.
    run: Run,
    buffer: SharedLineBuffer,
    text: Vec<u8>,
    ghost low: { most ≤ 199999999 },
}

impl<S: Drop> Drop for SecondReading<S> {
    fn drop(self) {
        let SecondReading {
            most: _,
            logs: _,
            places: _,
            runs: _,
            next: _,
            run: _,
            buffer: _,
            text: _,
        } = self;
    }
}

impl<S: LogSource + Drop> SecondReading<S> {
    /// The reading before the first line.
    pub(crate) fn of<L: CellLogs<Source = S>>(
        alloc: Global,
        most: u32,
        runs: Vec<Run>,
        logs: &L,
    ) -> Result<SecondReading<S>, WeaveFault>
        requires { most ≤ 199999999 }
    {
        let logs = open_all(alloc, logs)?;
        let places = vec![in alloc; 0; logs.len()]?;
        Ok(SecondReading {
            most,
            logs,
            places,
            runs,
            next: 0,
            run: Run { log: 0, lines: 0 },
            buffer: SharedLineBuffer::new(alloc),
            text: Vec::new(alloc),
        })
    }

    /// Comes to the next run that has lines left, if the present one has none. It errs if there is no such run.
    fn turn(&mut self) -> Result<(), WeaveFault> {
        for _ in self.next..self.runs.len() {
            if self.run.lines > 0 {
                return Ok(());
            }
            if let Some(&run) = self.runs.get(self.next) {
                self.run = run;
            }
            self.next = self.next.saturating_add(1);
        }
        if self.run.lines > 0 {
            Ok(())
        } else {
            Err(WeaveFault::Changed)
        }
    }

    /// Reads the next line of a log.
    fn read(&mut self, log: usize) -> Result<(), WeaveFault> {
        let Some(lines) = self.logs.get_mut(log) else {
            return Err(WeaveFault::Changed);
        };
        if !lines.next(&mut self.text)? {
            return Err(WeaveFault::Changed);
        }
        match self.buffer.read(self.most, &self.text) {
            Ok(()) => Ok(()),
            Err(TextFault::NoMemory) => Err(WeaveFault::from(AllocError)),
            Err(_) => Err(WeaveFault::Changed),
        }
    }

    /// Counts a line of a log.
    fn count(&mut self, log: usize) {
        if let Some(place) = self.places.get_mut(log) {
            *place = place.saturating_add(1);
        }
    }

    /// Reads the next line. It errs if there is none.
    pub(crate) fn next(&mut self) -> Result<(), WeaveFault> {
        self.turn()?;
        self.run.lines = self.run.lines.saturating_sub(1);
        self.count(self.run.log);
        self.read(self.run.log)
    }

    /// Lends the line that was read last.
    pub(crate) fn line(&self) -> Reread<'_> {
        Reread {
            log: self.run.log,
            place: match self.places.get(self.run.log) {
                Some(&place) => place,
                None => 0,
            },
            text: &self.text,
            line: self.buffer.as_ref(),
        }
    }
}
