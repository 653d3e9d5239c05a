//! The lines of a log, one at a time.

use crate::cell::{CellLogs, LogSource};
use crate::fault::WeaveFault;
use lrat_text::cut_line;
use reports::Refusal;
use std::alloc::{AllocError, Global};

/// How many bytes are read at a time.
const ROOM: usize = 16_384;

/// A log that is read line by line.
pub(crate) struct LogLines<S> {
    source: S,
    /// The bytes that were read last.
    room: Vec<u8>,
    /// The place in `room` of the bytes that are not handed out yet.
    from: usize,
    /// The place behind them.
    until: usize,
}

impl<S: Drop> Drop for LogLines<S> {
    fn drop(self) {
        let LogLines {
            source: _,
            room: _,
            from: _,
            until: _,
        } = self;
    }
}

impl<S: LogSource + Drop> LogLines<S> {
    /// The lines of a log that was opened.
    fn of(alloc: Global, source: S) -> Result<LogLines<S>, AllocError> {
        Ok(LogLines {
            source,
            room: vec![in alloc; 0; ROOM]?,
            from: 0,
            until: 0,
        })
    }

    /// Reads the next bytes. Tells whether there are any.
    fn fill(&mut self) -> Result<bool, Refusal> {
        self.from = 0;
        self.until = self.source.read(&mut self.room)?;
        Ok(self.until > 0)
    }

    /// Appends the bytes up to the next LF, or all that were read. Tells whether there is an LF.
    fn take(&mut self, line: &mut Vec<u8>) -> Result<bool, AllocError> {
        let rest = self.room.get(self.from..self.until).unwrap_or(&[]);
        match cut_line(rest) {
            Some((part, later)) => {
                line.extend_from_slice(part)?;
                self.from = self.until.saturating_sub(later.len());
                Ok(true)
            }
            None => {
                line.extend_from_slice(rest)?;
                self.from = self.until;
                Ok(false)
            }
        }
    }

    /// Overwrites `line` with the next line, without its LF. Tells whether there is one: bytes after the last LF are none.
    pub(crate) fn next(&mut self, line: &mut Vec<u8>) -> Result<bool, WeaveFault> {
        line.clear();
        for _ in 0..u64::MAX {
            if self.take(line)? {
                return Ok(true);
            }
            if !self.fill()? {
                return Ok(false);
            }
        }
        Ok(false)
    }
}

/// Opens all logs of a cell.
pub(crate) fn open_all<L: CellLogs>(
    alloc: Global,
    logs: &L,
) -> Result<Vec<LogLines<L::Source>>, WeaveFault> {
    let mut lines = Vec::new(alloc);
    for log in 0..logs.count() {
        let source = logs.open(log)?;
        lines.push(LogLines::of(alloc, source)?)?;
    }
    Ok(lines)
}
