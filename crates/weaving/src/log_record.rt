//! What is known of one log while all are read: whom its numbers stand for, what became of its lemmas, and its clock.

use crate::fault::WeaveFault;
use std::alloc::{AllocError, Global};
use std::collections::BTreeMap;

/// The greatest number of lemmas and imports of a log.
const MOST: usize = 0x7FFF_FFFE;

/// What a number of a log stands for.
#[derive(Clone, Copy)]
pub(crate) enum Entry {
    /// A lemma of the log's own, by its number among all lemmas.
    Lemma(u32),
    /// An import of this lemma.
    Import(u32),
    /// A lemma that is left out, since it rests on an import that failed; or that import.
    Failed,
}

/// The word that stands for an entry, so that each takes four bytes: 0 if it failed, else twice the lemma's number plus 2, and 1 more for
/// an import.
fn word_of(entry: Entry) -> u32 {
    match entry {
        Entry::Lemma(lemma) => lemma.wrapping_add(1).wrapping_mul(2),
        Entry::Import(lemma) => lemma.wrapping_add(1).wrapping_mul(2) | 1,
        Entry::Failed => 0,
    }
}

/// The entry for which a word stands.
fn entry_of(word: u32) -> Entry {
    if word < 2 {
        Entry::Failed
    } else if word % 2 == 0 {
        Entry::Lemma(word / 2 - 1)
    } else {
        Entry::Import(word / 2 - 1)
    }
}

/// A time of a log's clock.
#[derive(Clone, Copy)]
struct Turn {
    clock: u64,
    /// How many numbers the log had given when the clock came to this time.
    given: usize,
}

/// What is known of a log.
pub(crate) struct LogRecord {
    /// For each number that stands for a name, the log of that name; `None` if there is no such log.
    logs: BTreeMap<u64, Option<usize>>,
    /// What the log's numbers stand for, from the first one behind the formula's.
    entries: Vec<u32>,
    /// The times of the clock so far.
    turns: Vec<Turn>,
}

impl Drop for LogRecord {
    fn drop(self) {
        let LogRecord {
            logs: _,
            entries: _,
            turns: _,
        } = self;
    }
}

/// The entry of a log at a place among its entries; `None` if there is none.
pub(crate) fn entry_at(entries: &[u32], place: u64) -> Option<Entry> {
    match entries.get(place as usize) {
        Some(&word) => Some(entry_of(word)),
        None => None,
    }
}

impl LogRecord {
    /// The record of a log of which no line was read.
    pub(crate) fn new(alloc: Global) -> Result<LogRecord, AllocError> {
        let mut turns = Vec::new(alloc);
        turns.push(Turn { clock: 0, given: 0 })?;
        Ok(LogRecord {
            logs: BTreeMap::new(alloc),
            entries: Vec::new(alloc),
            turns,
        })
    }

    /// Answers how many numbers the log has given.
    pub(crate) fn given(&self) -> u64 {
        self.entries.len() as u64
    }

    /// Gives the log's next number to this.
    pub(crate) fn give(&mut self, entry: Entry) -> Result<(), WeaveFault> {
        if self.entries.len() >= MOST {
            return Err(WeaveFault::TooMany);
        }
        self.entries.push(word_of(entry))?;
        Ok(())
    }

    /// Answers what the log has at a place among its entries, from 0.
    pub(crate) fn entry(&self, place: u64) -> Option<Entry> {
        entry_at(&self.entries, place)
    }

    /// Lets a number stand for a log. False if it stands for one already.
    pub(crate) fn name(&mut self, number: u64, log: Option<usize>) -> Result<bool, WeaveFault> {
        if self.logs.get(&number).is_some() {
            return Ok(false);
        }
        self.logs.insert(number, log)?;
        Ok(true)
    }

    /// Answers the log for which a number stands; `None` if it stands for no log of the cell.
    pub(crate) fn log_named(&self, number: u64) -> Option<usize> {
        match self.logs.get(&number) {
            Some(&log) => log,
            None => None,
        }
    }

    /// Answers the time of the log's clock.
    pub(crate) fn clock(&self) -> u64 {
        match self.turns.last() {
            Some(turn) => turn.clock,
            None => 0,
        }
    }

    /// Sets the log's clock. False if it is at this time or a later one.
    pub(crate) fn set_clock(&mut self, clock: u64) -> Result<bool, AllocError> {
        if clock <= self.clock() {
            return Ok(false);
        }
        self.turns.push(Turn {
            clock,
            given: self.entries.len(),
        })?;
        Ok(true)
    }

    /// Tells whether the entry at a place was written while the clock was below a time. Of a log whose lines are taken by the clock, the last
    /// two times of the clock tell it, so this is no search.
    pub(crate) fn is_before(&self, place: u64, time: u64) -> bool {
        let mut given = usize::MAX;
        for turn in self.turns.iter().rev() {
            if turn.clock < time {
                break;
            }
            given = turn.given;
        }
        place < given as u64
    }

    /// Takes the record apart: the words that stand for the log's entries.
    pub(crate) fn into_entries(self) -> Vec<u32> {
        let LogRecord {
            logs: _,
            entries,
            turns: _,
        } = self;
        entries
    }
}
