//! `join`: joins the logs of any machines to one proof of the formula.

ghost use Rattle.std.specs.Prelude.{◌≡◌, ◌≤◌, ◌==◌, ◌∷◌, ◌++◌, ℕ, List, [], true, false, IfOk, OnOk};
ghost use Rattle.dimacs.specs.logic.Cnf.{Cnf, IsFormula};
ghost use Rattle.log_join.specs.Written.{leaves_of};
ghost use Rattle.icnf.specs.Leaves.{Cube};
ghost use Rattle.leaves.specs.Join.{Concludes, HasReadFiles, IsFileOutcome, is_answer_letter};
ghost use Rattle.lrat_text.specs.Log.{log_top};
ghost use Rattle.leaves.specs.inner.Join.{IsStopped, KeepsJoined, OpensAs, StaysAs, JoinsPiece, ReportsMissing};

use crate::checked_lines::{CheckedLines, LineFault};
use crate::file_outcome::{FileOutcome, accept, answered, leave, refuse};
use crate::notes::put_missing;
use crate::split::Split;
use answers::AnswerReader;
use dimacs::{Answer, Formula, answer_lines};
use log_join::{LogJoinFault, LogJoiner};
use lrat_check::{CheckFault, LogChecker};
use lrat_text::{LineBuffer, PieceFault};
use reports::Report;
use std::alloc::{AllocError, Global};
use std::mem;

/// What the file that is being read is, by its bytes so far.
#[derive(Drop)]
pub(crate) enum FileState {
    /// No byte of the file is read.
    Begun,
    /// The file is a log, without fault so far.
    Log,
    /// The file is a log with this fault. The rest of the file is skipped.
    Refused(CheckFault),
    /// The file is a solver's answer.
    Answer(AnswerReader),
}

/// Joins logs over a formula to one proof of it. The logs come file by file, and each file piece by piece.
///
/// The bytes of the proof are handed out as they come, so none is taken back. If a log has a fault, its lines before the fault stay in the
/// proof, and their lemmas are deleted.
pub struct Join {
    alloc: Global,
    formula: Formula,
    /// The checker of the log that is being read, and the end of the proof that is not handed out yet.
    pub(crate) lines: CheckedLines,
    /// The bytes after the last LF of a log: the line that has not ended. Empty between files.
    begun: LineBuffer,
    /// What the file is that is being read.
    pub(crate) reading: FileState,
}

impl Drop for Join {
    fn drop(self) {
        let Join {
            alloc: _,
            formula: _,
            lines: _,
            begun: _,
            reading: _,
        } = self;
    }
}

/// Answers whether a file with this first byte is a solver's answer: no line of a log begins with `c`, `s` or `v`.
fn is_answer(first: u8) -> bool
    ensures { result ≡ is_answer_letter first }
{
    first == b'c' || first == b's' || first == b'v'
}

impl Join {
    /// A join that has read no file, and has written no byte.
    pub fn of(alloc: Global, split: Split) -> Result<Join, AllocError>
        ensures holds { IfOk result (HasReadFiles split.formula split.tree [] [] []) }
        ensures out { IfOk result (λ j. j.lines.out.items ≡ []) }
    {
        let Split { formula, tree } = split;
        let _ = tree.leaves(); // its contract bounds the number of leaves
        let _ = formula.vars(); // and its contract the variables
        let checker = LogChecker::of(alloc, formula.copy()?)?;
        let joiner = LogJoiner::of(alloc, &tree, checker.base())?;
        Ok(Join {
            alloc,
            formula,
            lines: CheckedLines {
                checker,
                joiner,
                out: Vec::new(alloc),
            },
            begun: LineBuffer::new(alloc),
            reading: FileState::Begun,
        })
    }

    /// Decides by the file's first byte whether the file is a solver's answer or a log. Does
    /// nothing if that is decided.
    fn open(&mut self, first: u8)
        ensures stands { KeepsJoined self.old self.new }
        ensures kind { OpensAs first self.old.reading self.new.reading }
    {
        match self.reading {
            FileState::Begun => {}
            _ => return,
        }
        if is_answer(first) {
            self.reading = FileState::Answer(AnswerReader::new(self.alloc));
            return;
        }
        self.lines.begin();
        self.reading = FileState::Log;
    }

    /// Checks and joins the next piece of a log. A fault of the log is kept for `end`; Err if the
    /// proof cannot be written or memory is refused.
    fn read(&mut self, piece: &[u8]) -> Result<(), LogJoinFault>
        requires { self.old.reading ≡ FileState.Log }
        ensures stands { OnOk result (JoinsPiece piece.now self.old self.new) }
        ensures kind { OnOk result (StaysAs self.old.reading self.new.reading) }
    {
        let fault = match self.begun.feed(piece, &mut self.lines) {
            Ok(()) => return Ok(()),
            Err(fault) => fault,
        };
        match fault {
            PieceFault::NoMemory => Err(LogJoinFault::NoMemory),
            PieceFault::Line(fault) => self.keep_fault(fault),
        }
    }

    /// Keeps the fault of a refused line, so that the rest of the file is skipped. Err if memory is refused or the proof cannot be written.
    fn keep_fault(&mut self, fault: LineFault) -> Result<(), LogJoinFault>
        ensures { OnOk result (IsStopped fault self.old self.new) }
    {
        match fault {
            LineFault::Gather(fault) => Err(fault),
            LineFault::Log(fault) => {
                if fault.is_no_memory() {
                    return Err(LogJoinFault::NoMemory);
                }
                self.reading = FileState::Refused(fault);
                Ok(())
            }
        }
    }

    /// Reads the next piece of the file. A fault of the file is kept for `end`. After an Err the join is of no use.
    pub fn feed(&mut self, piece: &[u8]) -> Result<(), LogJoinFault>
        ensures holds { OnOk result ((F : Cnf) (cubes : List Cube) (files : List (List ℕ)) (bytes written : List ℕ)
            → HasReadFiles F cubes files bytes written self.old → HasReadFiles F cubes files (bytes ++ piece.now) written self.new) }
    {
        if piece.is_empty() {
            return Ok(());
        }
        self.open(piece[0]);
        match &mut self.reading {
            FileState::Log => {}
            FileState::Answer(reader) => {
                reader.feed(piece);
                return Ok(());
            }
            FileState::Begun => return Ok(()),
            FileState::Refused(_) => return Ok(()),
        }
        self.read(piece)
    }

    /// Ends the file, and answers what it is; the next file may begin. After an Err the join is of no use.
    pub fn end(&mut self) -> Result<FileOutcome, LogJoinFault>
        ensures holds { OnOk result ((F : Cnf) (cubes : List Cube) (files : List (List ℕ)) (bytes written : List ℕ)
            → HasReadFiles F cubes files bytes written self.old → HasReadFiles F cubes (files ++ bytes ∷ []) [] written self.new) }
        ensures tells { IfOk result (λ e. (F : Cnf) (cubes : List Cube) (files : List (List ℕ)) (bytes written : List ℕ)
            → HasReadFiles F cubes files bytes written self.old → IsFileOutcome F cubes files bytes e) }
    {
        let reading = mem::replace(&mut self.reading, FileState::Begun);
        let begun = mem::replace(&mut self.begun, LineBuffer::new(self.alloc));
        match reading {
            FileState::Begun => Ok(FileOutcome::ClosesNothing),
            FileState::Log => match self.lines.checker.end(begun.as_slice()) {
                Ok(()) => accept(&mut self.lines),
                Err(fault) => refuse(&mut self.lines, fault),
            },
            FileState::Refused(fault) => refuse(&mut self.lines, fault),
            FileState::Answer(reader) => answered(self.alloc, &self.formula, reader),
        }
    }

    /// Gives up the file, which cannot be read to its end: the bytes read of it close no leaf. After an Err the join is of no use.
    pub fn abandon(&mut self) -> Result<(), LogJoinFault>
        ensures holds { OnOk result ((F : Cnf) (cubes : List Cube) (files : List (List ℕ)) (bytes written : List ℕ)
            → HasReadFiles F cubes files bytes written self.old → HasReadFiles F cubes files [] written self.new) }
    {
        let reading = mem::replace(&mut self.reading, FileState::Begun);
        self.begun = LineBuffer::new(self.alloc);
        match reading {
            FileState::Begun => Ok(()),
            FileState::Log => leave(&mut self.lines),
            FileState::Refused(_) => leave(&mut self.lines),
            FileState::Answer(_) => Ok(()),
        }
    }

    /// Answers the greatest variable that a log may have.
    pub fn most(&self) -> u32
        ensures value { (F : Cnf) (cubes : List Cube) (files : List (List ℕ)) (bytes written : List ℕ) → HasReadFiles F cubes files bytes written self.now → result ≡ log_top F }
        ensures limit { result ≤ 199999999 }
    {
        self.lines.checker.most()
    }

    /// Lends the bytes of the proof that were written since the last call of `forget`.
    pub fn written(&self) -> &[u8]
        ensures { result.now ≡ self.now.lines.out.items }
    {
        &self.lines.out
    }

    /// Drops the bytes that `written` lends, after the caller has stored them.
    pub fn forget(&mut self)
        ensures holds { (F : Cnf) (cubes : List Cube) (files : List (List ℕ)) (bytes written : List ℕ)
            → HasReadFiles F cubes files bytes written self.old → HasReadFiles F cubes files bytes (written ++ self.old.lines.out.items) self.new }
        ensures out { self.new.lines.out.items ≡ [] }
    {
        self.lines.out.clear();
    }

    /// The report if some leaf is open: the lines `notes`, a line for each open leaf, and `s
    /// UNKNOWN`; status 0.
    fn unknown(&self, mut notes: Vec<u8>) -> Result<Report, LogJoinFault>
        ensures { IfOk result (ReportsMissing notes.items (leaves_of self.now.lines.joiner)) }
    {
        let places = self.lines.joiner.missing()?;
        put_missing(&mut notes, &places)?;
        answer_lines(Answer::Unknown, false, &mut notes)?;
        Ok(Report {
            stdout: notes,
            status: 0,
            proof: None,
        })
    }

    /// Ends the proof, after the last file. `notes` are the lines that were printed of the files.
    ///
    /// The report has status 20 if every leaf is closed: then the bytes that were handed out, and after them those that `written` answers,
    /// are a proof of the formula that every LRAT checker accepts. If a leaf is open, or a file has not ended, the report has status 0 and
    /// names the open leaves.
    pub fn finish(&mut self, mut notes: Vec<u8>) -> Result<Report, LogJoinFault>
        ensures concludes { IfOk result (λ r. (F : Cnf) (cubes : List Cube) (files : List (List ℕ)) (bytes written : List ℕ)
            → HasReadFiles F cubes files bytes written self.old → Concludes F cubes files bytes written notes.items self.new r) }
    {
        match self.reading {
            FileState::Begun => {}
            _ => return self.unknown(notes),
        }
        match self.lines.joiner.forks(&mut self.lines.out) {
            Ok(()) => {
                answer_lines(Answer::Unsatisfiable, false, &mut notes)?;
                Ok(Report {
                    stdout: notes,
                    status: 20,
                    proof: None,
                })
            }
            Err(LogJoinFault::Open) => self.unknown(notes),
            Err(fault) => Err(fault),
        }
    }
}
