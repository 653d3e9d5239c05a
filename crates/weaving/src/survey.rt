//! The first reading of the logs, by the clock, until all cubes are closed.

ghost use Rattle.std.specs.Prelude.{◌≤◌};

use crate::cell::{CellLogs, LogSource};
use crate::cell_record::{CellParts, CellRecord, Taken};
use crate::clock_heap::ClockHeap;
use crate::fault::WeaveFault;
use crate::log_lines::{LogLines, open_all};
use crate::needs::last_uses;
use crate::numbering::Numbering;
use crate::open_cubes::closing_of;
use dimacs::{Formula, Lit};
use lrat_text::{TextFault, log_top};
use shared_lines::SharedLineBuffer;
use std::alloc::{AllocError, Global};

/// What was found of a log.
#[derive(Clone, Copy, Debug, Drop)]
pub struct LogOutcome {
    /// How many of its lines were taken.
    pub lines: u64,
    /// Whether the next line is none of a log over the formula: it and all lines after it were passed over.
    pub is_bad: bool,
    /// How many of its imports failed.
    pub failed: u64,
    /// The line of the first import that failed, from 1; 0 if none did.
    pub first_failed: u64,
}

/// Lines of one log that are taken in a row.
#[derive(Clone, Copy)]
pub(crate) struct Run {
    pub(crate) log: usize,
    pub(crate) lines: u64,
}

/// How a log is to be woven that closes cubes.
pub struct Plan {
    /// The number of clauses of the formula.
    rows: u64,
    /// The greatest variable that a line may have.
    most: u32,
    /// In which order the lines are taken.
    runs: Vec<Run>,
    /// For each log, the words that stand for its entries.
    entries: Vec<Vec<u32>>,
    /// By lemma, 1 plus the number of the lemma that needs it last; 0 if none does.
    uses: Vec<u32>,
    /// By cube, the lemma that closes it.
    closings: Vec<u32>,
    /// The last one of these lemmas.
    last: u32,
    ghost low: { most ≤ 199999999 },
}

impl Drop for Plan {
    fn drop(self) {
        let Plan {
            rows: _,
            most: _,
            runs: _,
            entries: _,
            uses: _,
            closings: _,
            last: _,
        } = self;
    }
}

impl Plan {
    /// Answers the greatest variable that a line may have.
    pub(crate) fn most(&self) -> u32
        ensures { result ≤ 199999999 }
    {
        self.most
    }

    /// Tells whether the log closes a cube.
    pub fn closes(&self, cube: usize) -> bool {
        closing_of(&self.closings, cube).is_some()
    }

    /// Answers the place of a cube that the last lemma of the log closes.
    pub fn last(&self) -> usize {
        for (i, &closing) in self.closings.iter().enumerate() {
            if closing == self.last {
                return i;
            }
        }
        0
    }

    /// Takes the plan apart: the order in which it takes lines, and the numbering before the first lemma.
    pub(crate) fn into_parts(self, alloc: Global) -> Result<(Vec<Run>, Numbering), AllocError> {
        let Plan {
            rows,
            most: _,
            runs,
            entries,
            uses,
            closings,
            last,
        } = self;
        let numbering = Numbering::of(alloc, rows, entries, uses, closings, last)?;
        Ok((runs, numbering))
    }
}

/// What the first reading of the logs found.
#[derive(Drop)]
pub struct Survey {
    /// For each log, what was found of it.
    pub logs: Vec<LogOutcome>,
    /// How a log is woven that closes cubes; `None` if none is closed.
    pub plan: Option<Plan>,
}

/// Where the lines of a log end for now.
#[derive(Clone, Copy)]
enum Stop {
    /// The log's clock is at a later time.
    Later,
    /// The log has no further line.
    Ended,
    /// No cube is open.
    Closed,
}

/// The first reading, between two lines.
struct Reading {
    /// The number of clauses of the formula.
    rows: u64,
    /// The greatest variable that a line may have.
    most: u32,
    cell: CellRecord,
    /// The last lemma that closes a cube; `None` if there is none yet.
    last: Option<u32>,
    buffer: SharedLineBuffer,
    line: Vec<u8>,
    ghost low: { most ≤ 199999999 },
}

impl Drop for Reading {
    fn drop(self) {
        let Reading {
            rows: _,
            most: _,
            cell: _,
            last: _,
            buffer: _,
            line: _,
        } = self;
    }
}

impl Reading {
    /// The reading of logs over a formula before the first line.
    fn of<L: CellLogs>(
        alloc: Global,
        formula: &Formula,
        cubes: &[&[Lit]],
        logs: &L,
    ) -> Result<Reading, WeaveFault> {
        let rows = formula.len() as u64;
        Ok(Reading {
            rows,
            most: log_top(formula.as_base()),
            cell: CellRecord::of(alloc, rows, cubes, logs)?,
            last: None,
            buffer: SharedLineBuffer::new(alloc),
            line: Vec::new(alloc),
        })
    }

    /// Takes the line that was read of a log, if it is one.
    fn take_line(&mut self, log: usize) -> Result<Taken, WeaveFault> {
        match self.buffer.read(self.most, &self.line) {
            Ok(()) => self.cell.take(log, self.buffer.as_ref()),
            Err(TextFault::NoMemory) => Err(WeaveFault::from(AllocError)),
            Err(_) => Ok(Taken::Bad),
        }
    }

    /// Takes lines of a log while its clock stands still. Answers how many they are, and where they end.
    fn take_run<S: LogSource + Drop>(
        &mut self,
        log: usize,
        lines: &mut LogLines<S>,
    ) -> Result<(u64, Stop), WeaveFault> {
        for count in 0..u64::MAX {
            if !lines.next(&mut self.line)? {
                return Ok((count, Stop::Ended));
            }
            let taken = self.take_line(log)?;
            if let Taken::Bad = taken {
                self.cell.note_bad(log);
                return Ok((count, Stop::Ended));
            }
            self.cell.count(log);
            match taken {
                Taken::Later => return Ok((count + 1, Stop::Later)),
                Taken::Closing(lemma) => {
                    self.last = Some(lemma);
                    if !self.cell.any_open() {
                        return Ok((count + 1, Stop::Closed));
                    }
                }
                _ => {}
            }
        }
        Ok((0, Stop::Ended))
    }

    /// Takes the lines of all logs by the clock, until no cube is open.
    fn take_all<S: LogSource + Drop>(
        &mut self,
        heap: &mut ClockHeap,
        logs: &mut [LogLines<S>],
        runs: &mut Vec<Run>,
    ) -> Result<(), WeaveFault> {
        for _ in 0..u64::MAX {
            let Some(log) = heap.pop() else {
                break;
            };
            let Some(lines) = logs.get_mut(log) else {
                break;
            };
            let (count, stop) = self.take_run(log, lines)?;
            runs.push(Run { log, lines: count })?;
            match stop {
                Stop::Later => heap.push(self.cell.clock(log), log)?,
                Stop::Ended => {}
                Stop::Closed => break,
            }
        }
        Ok(())
    }

    /// Ends the reading: answers what was found, with the runs in which the lines were taken.
    fn into_survey(self, alloc: Global, runs: Vec<Run>) -> Result<Survey, AllocError> {
        let Reading {
            rows,
            most,
            cell,
            last,
            buffer: _,
            line: _,
        } = self;
        let CellParts {
            lemmas,
            entries,
            closings,
            outcomes,
        } = cell.into_parts(alloc)?;
        let plan = match last {
            None => None,
            Some(last) => Some(Plan {
                rows,
                most,
                runs,
                entries,
                uses: last_uses(alloc, &lemmas, &closings)?,
                closings,
                last,
            }),
        };
        Ok(Survey {
            logs: outcomes,
            plan,
        })
    }
}

/// All logs, none of which has a line taken.
fn all_logs(alloc: Global, count: usize) -> Result<ClockHeap, AllocError> {
    let mut heap = ClockHeap::new(alloc);
    for log in 0..count {
        heap.push(0, log)?;
    }
    Ok(heap)
}

/// Reads the logs of a cell over a formula, by the clock, until each of these cubes is closed: a lemma closes a cube if each of its literals
/// is the negation of one of the cube's. A line that is none ends its log; an import that is not supported fails, and each lemma that rests
/// on it is left out.
pub fn survey_logs<L: CellLogs>(
    alloc: Global,
    formula: &Formula,
    cubes: &[&[Lit]],
    logs: &L,
) -> Result<Survey, WeaveFault> {
    let mut reading = Reading::of(alloc, formula, cubes, logs)?;
    let mut runs = Vec::new(alloc);
    let mut lines = open_all(alloc, logs)?;
    let mut heap = all_logs(alloc, lines.len())?;
    reading.take_all(&mut heap, &mut lines, &mut runs)?;
    Ok(reading.into_survey(alloc, runs)?)
}
