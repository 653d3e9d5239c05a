//! What is known of all logs while they are read: which lemmas there are, and what the numbers of each log stand for.

use crate::cell::CellLogs;
use crate::fault::WeaveFault;
use crate::lemma_table::{LemmaTable, digest_of};
use crate::log_record::{Entry, LogRecord};
use crate::open_cubes::OpenCubes;
use crate::survey::LogOutcome;
use dimacs::Lit;
use shared_lines::SharedLine;
use std::alloc::{AllocError, Global};
use std::collections::BTreeMap;

/// What became of a line.
#[derive(Clone, Copy)]
pub(crate) enum Taken {
    /// The line was taken.
    Line,
    /// The line set the log's clock.
    Later,
    /// The line is none of a log over the formula.
    Bad,
    /// The line is a lemma of this number, and closes a cube.
    Closing(u32),
}

/// What a lemma rests on.
#[derive(Clone, Copy)]
enum Basis {
    /// On lemmas that are there.
    Sound,
    /// On one that is left out.
    Failed,
    /// On a number that the log has not given.
    Unknown,
}

/// The parts of what is known of all logs.
#[derive(Drop)]
pub(crate) struct CellParts {
    pub(crate) lemmas: LemmaTable,
    /// For each log, the words that stand for its entries.
    pub(crate) entries: Vec<Vec<u32>>,
    /// By cube, the lemma that closes it.
    pub(crate) closings: Vec<u32>,
    /// For each log, what was found of it.
    pub(crate) outcomes: Vec<LogOutcome>,
}

/// What is known of all logs.
pub(crate) struct CellRecord {
    /// The number of clauses of the formula.
    rows: u64,
    /// The cubes that are to be closed.
    cubes: OpenCubes,
    /// By name, the log.
    names: BTreeMap<Vec<u8>, usize>,
    pub(crate) records: Vec<LogRecord>,
    pub(crate) lemmas: LemmaTable,
    /// The lemmas among the hints of the line that is taken.
    basis: Vec<u32>,
    pub(crate) outcomes: Vec<LogOutcome>,
}

impl Drop for CellRecord {
    fn drop(self) {
        let CellRecord {
            rows: _,
            cubes: _,
            names: _,
            records: _,
            lemmas: _,
            basis: _,
            outcomes: _,
        } = self;
    }
}

/// Collects the lemmas among the hints of a lemma, over a formula of `rows` clauses.
fn collect_basis(
    record: &LogRecord,
    rows: u64,
    hints: &[u64],
    basis: &mut Vec<u32>,
) -> Result<Basis, AllocError> {
    basis.clear();
    let mut found = Basis::Sound;
    for &hint in hints {
        if hint <= rows {
            continue;
        }
        match record.entry(hint - rows - 1) {
            None => return Ok(Basis::Unknown),
            Some(Entry::Failed) => found = Basis::Failed,
            Some(Entry::Lemma(lemma)) => basis.push(lemma)?,
            Some(Entry::Import(lemma)) => basis.push(lemma)?,
        }
    }
    Ok(found)
}

impl CellRecord {
    /// The cell, before the first line of any log.
    pub(crate) fn of<L: CellLogs>(
        alloc: Global,
        rows: u64,
        cubes: &[&[Lit]],
        logs: &L,
    ) -> Result<CellRecord, WeaveFault> {
        let mut cell = CellRecord {
            rows,
            cubes: OpenCubes::of(alloc, cubes)?,
            names: BTreeMap::new(alloc),
            records: Vec::new(alloc),
            lemmas: LemmaTable::new(alloc),
            basis: Vec::new(alloc),
            outcomes: Vec::new(alloc),
        };
        for log in 0..logs.count() {
            cell.add_log(alloc, log, logs.name(log))?;
        }
        Ok(cell)
    }

    /// Adds a log of this name.
    fn add_log(&mut self, alloc: Global, log: usize, name: &[u8]) -> Result<(), WeaveFault> {
        self.names.insert(name.to_vec(alloc)?, log)?;
        self.records.push(LogRecord::new(alloc)?)?;
        self.outcomes.push(LogOutcome {
            lines: 0,
            is_bad: false,
            failed: 0,
            first_failed: 0,
        })?;
        Ok(())
    }

    /// Tells whether a cube is open.
    pub(crate) fn any_open(&self) -> bool {
        self.cubes.any_open()
    }

    /// Takes a lemma of a log.
    fn take_lemma(
        &mut self,
        log: usize,
        number: u64,
        literals: &[Lit],
        hints: &[u64],
    ) -> Result<Taken, WeaveFault> {
        let Some(record) = self.records.get_mut(log) else {
            return Ok(Taken::Bad);
        };
        if number != next_number(self.rows, record) {
            return Ok(Taken::Bad);
        }
        match collect_basis(record, self.rows, hints, &mut self.basis)? {
            Basis::Unknown => return Ok(Taken::Bad),
            Basis::Failed => {
                record.give(Entry::Failed)?;
                return Ok(Taken::Line);
            }
            Basis::Sound => {}
        }
        let lemma = self.lemmas.add(digest_of(literals), &self.basis)?;
        record.give(Entry::Lemma(lemma))?;
        if self.cubes.close(literals, lemma) {
            Ok(Taken::Closing(lemma))
        } else {
            Ok(Taken::Line)
        }
    }

    /// Answers the lemma with these literals that a log has under its number `there`, if it was written while the clock was below `time`.
    fn supported(&self, log: usize, there: u64, time: u64, literals: &[Lit]) -> Option<u32> {
        let record = self.records.get(log)?;
        let place = there.checked_sub(self.rows)?.checked_sub(1)?;
        match record.entry(place) {
            Some(Entry::Lemma(lemma)) => {
                if record.is_before(place, time)
                    && self.lemmas.has_digest(lemma, digest_of(literals))
                {
                    Some(lemma)
                } else {
                    None
                }
            }
            _ => None,
        }
    }

    /// Notes that the import on the line after the last one that was taken failed.
    fn note_failed(&mut self, log: usize) {
        if let Some(outcome) = self.outcomes.get_mut(log) {
            outcome.failed = outcome.failed.saturating_add(1);
            if outcome.first_failed == 0 {
                outcome.first_failed = outcome.lines.saturating_add(1);
            }
        }
    }

    /// Takes an import of a log.
    fn take_import(
        &mut self,
        log: usize,
        number: u64,
        literals: &[Lit],
        named: u64,
        there: u64,
    ) -> Result<Taken, WeaveFault> {
        let Some(record) = self.records.get(log) else {
            return Ok(Taken::Bad);
        };
        if number != next_number(self.rows, record) {
            return Ok(Taken::Bad);
        }
        let found = match record.log_named(named) {
            Some(other) => self.supported(other, there, record.clock(), literals),
            None => None,
        };
        let entry = match found {
            Some(lemma) => Entry::Import(lemma),
            None => {
                self.note_failed(log);
                Entry::Failed
            }
        };
        self.give(log, entry)?;
        Ok(Taken::Line)
    }

    /// Gives the next number of a log to this.
    fn give(&mut self, log: usize, entry: Entry) -> Result<(), WeaveFault> {
        match self.records.get_mut(log) {
            Some(record) => record.give(entry),
            None => Ok(()),
        }
    }

    /// Takes a line that gives a number to a name.
    fn take_name(&mut self, log: usize, number: u64, name: &[u8]) -> Result<Taken, WeaveFault> {
        let named = match self.names.get(name) {
            Some(&other) => Some(other),
            None => None,
        };
        let Some(record) = self.records.get_mut(log) else {
            return Ok(Taken::Bad);
        };
        if record.name(number, named)? {
            Ok(Taken::Line)
        } else {
            Ok(Taken::Bad)
        }
    }

    /// Takes a line that sets the clock of a log.
    fn take_clock(&mut self, log: usize, time: u64) -> Result<Taken, WeaveFault> {
        let Some(record) = self.records.get_mut(log) else {
            return Ok(Taken::Bad);
        };
        if record.set_clock(time)? {
            Ok(Taken::Later)
        } else {
            Ok(Taken::Bad)
        }
    }

    /// Takes a line of a log. A deletion needs no test, since the woven log has deletions of its own.
    pub(crate) fn take(&mut self, log: usize, line: SharedLine<'_>) -> Result<Taken, WeaveFault> {
        match line {
            SharedLine::Lemma {
                number,
                literals,
                hints,
            } => self.take_lemma(log, number, literals, hints),
            SharedLine::Deletion { .. } => Ok(Taken::Line),
            SharedLine::Name { number, name } => self.take_name(log, number, name),
            SharedLine::Import {
                number,
                literals,
                log: named,
                there,
            } => self.take_import(log, number, literals, named, there),
            SharedLine::Clock { time } => self.take_clock(log, time),
        }
    }

    /// Counts a line of a log that was taken.
    pub(crate) fn count(&mut self, log: usize) {
        if let Some(outcome) = self.outcomes.get_mut(log) {
            outcome.lines = outcome.lines.saturating_add(1);
        }
    }

    /// Notes that the next line of a log is none.
    pub(crate) fn note_bad(&mut self, log: usize) {
        if let Some(outcome) = self.outcomes.get_mut(log) {
            outcome.is_bad = true;
        }
    }

    /// Answers the time of a log's clock.
    pub(crate) fn clock(&self, log: usize) -> u64 {
        match self.records.get(log) {
            Some(record) => record.clock(),
            None => 0,
        }
    }
}

impl CellRecord {
    /// Takes the record apart.
    pub(crate) fn into_parts(self, alloc: Global) -> Result<CellParts, AllocError> {
        let CellRecord {
            rows: _,
            cubes,
            names: _,
            records,
            lemmas,
            basis: _,
            outcomes,
        } = self;
        let mut entries = Vec::new(alloc);
        for record in records {
            entries.push(record.into_entries())?;
        }
        Ok(CellParts {
            lemmas,
            entries,
            closings: cubes.into_closings(),
            outcomes,
        })
    }
}

/// The number that the next lemma or import of a log has to have.
fn next_number(rows: u64, record: &LogRecord) -> u64 {
    rows.saturating_add(record.given()).saturating_add(1)
}
