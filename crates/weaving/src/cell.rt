//! The logs of a cell, as the caller hands them in.

ghost use Rattle.std.specs.Prelude.{◌≤◌, length, IfOk};

use reports::Refusal;

/// A log that was opened, to be read from its first byte.
pub trait LogSource {
    /// Reads the next bytes to the front of `room`, and answers how many they are: 0 at the log's end.
    fn read(&mut self, room: &mut [u8]) -> Result<usize, Refusal>
        ensures { IfOk result (λ n. n ≤ length room.new) };
}

/// The logs of a cell. Each is read twice, and all of them at the same time. A log may grow meanwhile.
pub trait CellLogs {
    /// A log that was opened.
    type Source: LogSource + Drop;

    /// Answers how many logs there are. They are counted from 0.
    fn count(&self) -> usize;

    /// Lends the name of a log. No two logs have the same one.
    fn name(&self, log: usize) -> &[u8];

    /// Opens a log.
    fn open(&self, log: usize) -> Result<Self::Source, Refusal>;
}
