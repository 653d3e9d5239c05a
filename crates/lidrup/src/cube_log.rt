//! The log that a LIDRUP text of many cubes becomes; the text comes in pieces.

ghost use Rattle.std.specs.Prelude.{◌≡◌, ◌++◌, ℕ, List, [], IfOk, OnOk, IfErr, MatchBool};
ghost use Rattle.std.specs.Bool.{OnTrue};
ghost use Rattle.dimacs.specs.logic.Cnf.{Cnf};
ghost use Rattle.lidrup.specs.CubeLog.{ClosesCube, EndsAs, IsClosed, IsEnded, KeepsLog, HasLogged};
ghost use Rattle.lidrup.specs.Lidrup.{ClosesQuery, IsClosing, Negates};
ghost use Rattle.lidrup.specs.View.{state_of};
ghost use Rattle.lidrup.specs.inner.LineEffects.{Leads, LeadsToFault};

use crate::cube_lines::CubeLines;
use crate::translator::Translator;
use dimacs::{Formula, Lit, has_literal};
use lrat_check::{CheckFault, LogChecker};
use lrat_text::{LineBuffer, PieceFault, StepBuffer};
use std::alloc::{AllocError, Global};

/// Makes a log of a LIDRUP text that comes in pieces. It keeps the live clauses, and the log's number of each live foreign clause.
pub struct CubeLog {
    pub(crate) lines: CubeLines,
    pub(crate) begun: LineBuffer,
    pub(crate) fault: Option<CheckFault>,
}

impl Drop for CubeLog {
    fn drop(self) {
        let CubeLog {
            lines: _,
            begun: _,
            fault: _,
        } = self;
    }
}

/// Takes a piece, which follows the bytes of the unfinished line. `Err` with the fault of the first line that is refused.
fn take_piece(begun: &mut LineBuffer, lines: &mut CubeLines, piece: &[u8]) -> Result<(), CheckFault>
    ensures took { OnOk result (Leads begun.old lines.old piece.now begun.new lines.new) }
    ensures refused { IfErr result (LeadsToFault begun.old lines.old piece.now) }
{
    match begun.feed(piece, lines) {
        Ok(()) => Ok(()),
        Err(PieceFault::NoMemory) => Err(CheckFault::no_memory()),
        Err(PieceFault::Line(fault)) => Err(fault),
    }
}

impl CubeLog {
    /// Makes the empty log over the formula, before the first byte of a text.
    pub fn of(alloc: Global, formula: Formula) -> Result<CubeLog, AllocError>
        ensures { IfOk result (HasLogged formula [] []) }
    {
        let known = Translator::of(alloc, formula)?;
        Ok(CubeLog {
            lines: CubeLines {
                known,
                buffer: StepBuffer::new(alloc),
                spelled: Vec::new(alloc),
                line: 1,
                out: Vec::new(alloc),
            },
            begun: LineBuffer::new(alloc),
            fault: None,
        })
    }

    /// Takes the next piece. The first fault is kept for `finish`; after it pieces are ignored.
    pub fn feed(&mut self, piece: &[u8])
        ensures { KeepsLog piece.now self.old self.new }
    {
        if self.fault.is_some() {
            return;
        }
        match take_piece(&mut self.begun, &mut self.lines, piece) {
            Ok(()) => {}
            Err(fault) => self.fault = Some(fault),
        }
    }

    /// The bytes of the log that were written since the last call of `forget`.
    pub fn written(&self) -> &[u8]
        ensures { result.now ≡ self.now.lines.out.items }
    {
        &self.lines.out
    }

    /// Drops the bytes that `written` lends, after the caller has stored them.
    pub fn forget(&mut self)
        ensures stands { (F : Cnf) (bytes handed : List ℕ) → HasLogged F bytes handed self.old → HasLogged F bytes (handed ++ self.old.lines.out.items) self.new }
        ensures out { self.new.lines.out.items ≡ [] }
    {
        self.lines.out.clear();
    }

    /// Returns what the text becomes if no further byte comes: `Ok` if the bytes written are its log; else the text's first fault.
    pub fn finish(&self) -> Result<(), CheckFault>
        ensures ends { (F : Cnf) (bytes handed : List ℕ) → HasLogged F bytes handed self.now → EndsAs F bytes (handed ++ self.now.lines.out.items) (state_of self.now.lines.known) result }
        ensures ended { OnOk result (IsEnded self.now) }
    {
        if let Some(fault) = self.fault {
            return Err(fault);
        }
        if self.begun.as_slice().is_empty() {
            return Ok(());
        }
        Err(CheckFault {
            number: 1,
            line: self.lines.line,
            text: 2,
        })
    }

    /// Tells whether the lemma that closes the cube of a query closes this cube. Queries are counted from 0. False if a line was refused.
    pub fn closes(&self, query: usize, cube: &[Lit]) -> bool
        ensures which { MatchBool result (IsClosed self.now query cube.now) (¬ (IsClosed self.now query cube.now)) }
        // after a whole text: exactly if the closing lemma of the text's definition closes the cube
        ensures text { (F : Cnf) (bytes handed : List ℕ) → IsEnded self.now → HasLogged F bytes handed self.now → MatchBool result (ClosesQuery F bytes query cube.now) (¬ (ClosesQuery F bytes query cube.now)) }
        // if the answer is true, a lemma of the log closes the cube
        ensures closes { OnTrue result ((F : Cnf) (bytes handed : List ℕ) → HasLogged F bytes handed self.now → ClosesCube F cube.now (handed ++ self.now.lines.out.items)) }
    {
        if self.fault.is_some() {
            return false;
        }
        has_closing(
            &self.lines.known.log.checker,
            self.lines.known.closing_of(query),
            cube,
        )
    }
}

/// Tells whether a lemma of the log is live under this number and closes the cube: all its literals are negations of the cube's.
fn has_closing(log: &LogChecker, number: u64, cube: &[Lit]) -> bool
    ensures { MatchBool result (IsClosing log.now.base log.now.live number cube.now) (¬ (IsClosing log.now.base log.now.live number cube.now)) }
{
    if number <= log.base() {
        return false;
    }
    match log.clause(number) {
        Some(clause) => negates(cube, clause),
        None => false,
    }
}

/// Tells whether each literal of a clause is the negation of one of the cube's.
fn negates(cube: &[Lit], clause: &[Lit]) -> bool
    ensures { MatchBool result (Negates cube.now clause.now) (¬ (Negates cube.now clause.now)) }
{
    for l in clause {
        if !has_literal(cube, l.negate()) {
            return false;
        }
    }
    true
}
