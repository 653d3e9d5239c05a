//! The proof's side of a check: takes the proof's bytes line by line, and the events that its lines await.

ghost use Rattle.dimacs.specs.logic.Limits.{Limits};
ghost use Rattle.std.specs.Prelude.{◌≡◌, ◌≢◌, ◌==◌, ◌<◌, ◌≤◌, ℕ, List, [], ◌∷◌, ◌++◌, true, IfOk, length, take};
ghost use Rattle.icnf.specs.Comparison.{is_clause};
ghost use Rattle.lrat_text.specs.Lines.{IsOpen};
ghost use Rattle.sessions.specs.Answers.{Event};
ghost use Rattle.sessions.specs.Follows.{Follows};
ghost use Rattle.sessions.specs.inner.Faults.{refusal_of};
ghost use Rattle.sessions.specs.Sides.{IsHigh};
ghost use Rattle.sessions.specs.inner.Sides.{EndsEvents, EndsLine, EndsProof, Gives, Hears, IsEvent, IsFirst, Moves, MovesOn, awaiting, fault_at};

use crate::event_lines::Sent;
use crate::fault::LineFault;
use crate::known::Came;
use crate::proof_lines::ProofLines;
use dimacs::{Limits, Lit};
use lrat_check::CheckFault;
use lrat_text::cut_line;
use std::alloc::{AllocError, Global};

/// What the proof's side waits for.
#[derive(Clone, Copy)]
pub(crate) enum Phase {
    /// The next line of the proof.
    Reading,
    /// The event with the clause that the proof's last line awaits.
    Clause,
    /// The event with the query that the proof's last line awaits.
    Query,
    /// Nothing: the proof has ended without a fault.
    Ended,
    /// Nothing: this is the proof's first fault, or memory was refused.
    Stopped(CheckFault),
}

/// The fault of the proof, if its line of this number, from 1, was refused.
fn refused(fault: LineFault, line: u64) -> CheckFault
    ensures { result ≡ refusal_of fault line }
{
    let (number, text) = match fault {
        LineFault::Text(fault) => (1, fault.number()),
        LineFault::OfLine(number) => (number, 0),
        LineFault::NoMemory => return CheckFault::no_memory(),
    };
    CheckFault { number, line, text }
}

/// Answers whether there are no bytes.
fn is_none(bytes: &[u8]) -> bool
    ensures { result ≡ (length bytes.now == 0) }
{
    bytes.is_empty()
}

/// Answers whether two clauses have the same literals in the same order.
fn is_same(a: &[Lit], b: &[Lit]) -> bool
    ensures { result ≡ is_clause a.now b.now }
{
    a == b
}

/// The state of the session, what the proof waits for, and the proof's line that has not ended.
pub(crate) struct ProofSide {
    /// The reader of the proof's lines, with the state of the session.
    pub(crate) lines: ProofLines,
    /// What the proof waits for.
    pub(crate) phase: Phase,
    /// The number, from 1, of the line that comes next, or that awaits an event.
    pub(crate) line: u64,
    /// The bytes of the proof after the last LF: the line that has not ended.
    pub(crate) begun: Vec<u8>,
    /// Whether the events have ended.
    pub(crate) no_event: bool,
    /// Whether the proof has ended.
    pub(crate) no_byte: bool,
}

impl Drop for ProofSide {
    fn drop(self) {
        let ProofSide {
            lines: _,
            phase: _,
            line: _,
            begun: _,
            no_event: _,
            no_byte: _,
        } = self;
    }
}

impl ProofSide {
    /// A proof's side that has taken no byte.
    pub(crate) fn new(alloc: Global, limits: Limits) -> Result<ProofSide, AllocError>
        ensures { IfOk result (IsFirst limits) }
    {
        let lines = ProofLines::new(alloc, limits)?;
        Ok(ProofSide {
            lines,
            phase: Phase::Reading,
            line: 1,
            begun: Vec::new(alloc),
            no_event: false,
            no_byte: false,
        })
    }

    /// Stops reading the proof at a fault of its current line: the fault's number, and its second
    /// number if the line cannot be read.
    fn stop(&mut self, number: u8, text: u8)
        ensures { self.new ≡ record self.old { phase = Phase.Stopped (fault_at self.old.line number text) } }
    {
        self.phase = Phase::Stopped(CheckFault {
            number,
            line: self.line,
            text,
        });
    }

    /// Stops reading the proof until the event comes that this phase awaits, or stops with fault 18
    /// if the events have ended.
    fn await_event(&mut self, phase: Phase)
        ensures { self.new ≡ record self.old { phase = awaiting self.old.no_event self.old.line phase } }
    {
        if self.no_event {
            self.stop(18, 0);
        } else {
            self.phase = phase;
        }
    }

    /// Goes on to the next line of the proof, or stops as out of memory if its number is above 64
    /// bits.
    fn next_line(&mut self)
        ensures moves { MovesOn self.old self.new }
        ensures flag { self.new.no_event ≡ self.old.no_event }
        ensures byte { self.new.no_byte ≡ self.old.no_byte }
    {
        match self.line.checked_add(1) {
            Some(next) => {
                self.line = next;
                self.phase = Phase::Reading;
            }
            None => self.phase = Phase::Stopped(CheckFault::no_memory()),
        }
    }

    /// Goes on after a line without fault, to the next line or to the event that it awaits.
    fn go_on(&mut self, came: Came)
        ensures moves { Moves came self.old self.new }
        ensures flag { self.new.no_event ≡ self.old.no_event }
        ensures byte { self.new.no_byte ≡ self.old.no_byte }
    {
        match came {
            Came::Goes => self.next_line(),
            Came::Clause => self.await_event(Phase::Clause),
            Came::Query => self.await_event(Phase::Query),
        }
    }

    /// Takes the line of the proof in `begun`, which is complete. Stops at its fault.
    fn end_line(&mut self)
        ensures ends { EndsLine self.old self.new }
        ensures flag { self.new.no_event ≡ self.old.no_event }
        ensures byte { self.new.no_byte ≡ self.old.no_byte }
    {
        let taken = self.lines.take(&self.begun);
        self.begun.clear();
        match taken {
            Ok(came) => self.go_on(came),
            Err(fault) => self.phase = Phase::Stopped(refused(fault, self.line)),
        }
    }

    /// Keeps a piece without LF in `begun`: the line of the proof goes on in the next piece. Stops
    /// if memory is refused.
    fn begin_with(&mut self, piece: &[u8])
        ensures follows { (L : Limits) (E : List Event) (p : List ℕ) → self.old.phase ≡ Phase.Reading → IsOpen piece.now → Follows L E p self.old → Follows L E (p ++ piece.now) self.new }
        ensures flag { self.new.no_event ≡ self.old.no_event }
        ensures byte { self.new.no_byte ≡ self.old.no_byte }
    {
        match self.begun.extend_from_slice(piece) {
            Ok(()) => {}
            Err(_) => self.phase = Phase::Stopped(CheckFault::no_memory()),
        }
    }

    /// Completes the line of the proof in `begun` by these bytes, up to its LF, and takes it.
    fn end_with(&mut self, text: &[u8])
        ensures follows { (L : Limits) (E : List Event) (p : List ℕ) → self.old.phase ≡ Phase.Reading → IsOpen text.now → Follows L E p self.old → Follows L E (p ++ (text.now ++ 10 ∷ [])) self.new }
        ensures flag { self.new.no_event ≡ self.old.no_event }
        ensures byte { self.new.no_byte ≡ self.old.no_byte }
    {
        match self.begun.extend_from_slice(text) {
            Ok(()) => self.end_line(),
            Err(_) => self.phase = Phase::Stopped(CheckFault::no_memory()),
        }
    }

    /// Takes bytes of the proof up to the first LF. Answers how many bytes were taken.
    pub(crate) fn feed(&mut self, piece: &[u8]) -> usize
        requires { self.old.phase ≡ Phase.Reading }
        ensures few { result ≤ length piece.now }
        ensures some { 0 < length piece.now → 0 < result }
        ensures follows { (L : Limits) (E : List Event) (p : List ℕ) → Follows L E p self.old → Follows L E (p ++ take result piece.now) self.new }
        ensures flag { self.new.no_event ≡ self.old.no_event }
        ensures byte { self.new.no_byte ≡ self.old.no_byte }
    {
        match cut_line(piece) {
            Some((text, _)) => {
                self.end_with(text);
                text.len() + 1
            }
            None => {
                self.begin_with(piece);
                piece.len()
            }
        }
    }

    /// Adds the awaited clause, which the event has given, and goes on to the next line of the
    /// proof.
    fn give(&mut self)
        ensures gives { IsHigh Phase.Clause self.old.lines.known → Gives self.old self.new }
        ensures flag { self.new.no_event ≡ self.old.no_event }
        ensures byte { self.new.no_byte ≡ self.old.no_byte }
    {
        match self.lines.known.give() {
            Ok(()) => self.next_line(),
            Err(fault) => self.phase = Phase::Stopped(refused(fault, self.line)),
        }
    }

    /// Takes an event while a clause is awaited. Stops with fault 18 if the event is not that clause.
    fn hear_clause(&mut self, sent: Sent, lits: &[Lit])
        requires { self.old.phase ≡ Phase.Clause }
        ensures hears { (e : Event) → IsHigh Phase.Clause self.old.lines.known → IsEvent sent lits.now e → Hears self.old e self.new }
        ensures flag { self.new.no_event ≡ self.old.no_event }
        ensures byte { self.new.no_byte ≡ self.old.no_byte }
    {
        match sent {
            Sent::Clause => {
                if is_same(&self.lines.known.awaited, lits) {
                    self.give();
                } else {
                    self.stop(18, 0);
                }
            }
            Sent::Query | Sent::Nothing => self.stop(18, 0),
        }
    }

    /// Takes an event while a query is awaited. Stops with fault 18 if the event is not that query.
    fn hear_query(&mut self, sent: Sent, lits: &[Lit])
        requires { self.old.phase ≡ Phase.Query }
        ensures hears { (e : Event) → IsEvent sent lits.now e → Hears self.old e self.new }
        ensures flag { self.new.no_event ≡ self.old.no_event }
        ensures byte { self.new.no_byte ≡ self.old.no_byte }
    {
        match sent {
            Sent::Query => {
                if is_same(&self.lines.known.awaited, lits) {
                    self.lines.known.ask();
                    self.next_line();
                } else {
                    self.stop(18, 0);
                }
            }
            Sent::Clause | Sent::Nothing => self.stop(18, 0),
        }
    }

    /// Takes an event at a time when no line of the proof is awaited. It is compared with the line
    /// of the proof that awaits it; after the proof's end it is fault 22; after a fault it is ignored.
    pub(crate) fn hear(&mut self, sent: Sent, lits: &[Lit])
        requires { self.old.phase ≢ Phase.Reading }
        ensures hears { (e : Event) → IsHigh self.old.phase self.old.lines.known → IsEvent sent lits.now e → Hears self.old e self.new }
        ensures flag { self.new.no_event ≡ self.old.no_event }
        ensures byte { self.new.no_byte ≡ self.old.no_byte }
    {
        match self.phase {
            Phase::Clause => self.hear_clause(sent, lits),
            Phase::Query => self.hear_query(sent, lits),
            Phase::Ended => self.stop(22, 0),
            Phase::Reading | Phase::Stopped(_) => {}
        }
    }

    /// Notes that the events have ended. Stops with fault 18 if one is awaited.
    pub(crate) fn end_events(&mut self)
        ensures ends { IsHigh self.old.phase self.old.lines.known → EndsEvents self.old self.new }
        ensures flag { self.new.no_event ≡ true }
        ensures byte { self.new.no_byte ≡ self.old.no_byte }
    {
        self.no_event = true;
        match self.phase {
            Phase::Clause | Phase::Query => self.stop(18, 0),
            Phase::Reading | Phase::Ended | Phase::Stopped(_) => {}
        }
    }

    /// Ends the proof at a time when its next line is awaited. Stops with fault 1 if a line has not
    /// ended, and with fault 22 if a query is open.
    pub(crate) fn end(&mut self)
        ensures ends { EndsProof self.old self.new }
        ensures flag { self.new.no_event ≡ self.old.no_event }
    {
        self.no_byte = true;
        if !is_none(&self.begun) {
            self.stop(1, 2);
        } else if self.lines.known.is_between() {
            self.phase = Phase::Ended;
        } else {
            self.stop(22, 0);
        }
    }
}
