//! The events of a session, which are read line by line as they come.

ghost use Rattle.std.specs.Prelude.{◌≡◌, ◌≢◌, ◌≤◌, ◌++◌, ℕ, List, [], Option, true, false, max, IfOk, IfErr, MatchResult, OnOk, if◌then◌else◌};
ghost use Rattle.std.specs.Io.BufRead.{ends_with_byte, strip_last};
ghost use Rattle.commands.specs.Refusals.{IsRefusedAs, IsWanting};
ghost use Rattle.commands.specs.inner.Greatest.{counted};
ghost use Rattle.dimacs.specs.logic.Cnf.{greatest_of as greatest_of_clause};
ghost use Rattle.dimacs.specs.logic.Limits.{Limits};
ghost use Rattle.icnf.specs.declared.fault.Kind.TheVariants.{NoMemory};
ghost use Rattle.sessions.specs.Answers.{Event};

use crate::piece_reader::refused;
use dimacs::{Limits, Lit};
use icnf::{IcnfFault, Kind};
use reports::Refusal;
use sessions::{EventLines, Sent};
use std::alloc::Global;
use std::io::BufRead;

/// What comes next of the events: a line, their end, or a fault.
#[derive(Clone, Copy)]
pub(crate) enum Next {
    /// A line without a fault: a clause, a query, or one that is neither.
    Line(Sent),
    /// The end of the events, none of whose lines has a fault.
    Ended,
    /// The first fault of the events.
    Faulty(IcnfFault),
}

/// A reader of events. It reads one line at a time, so that a query is answered before the next line is awaited.
pub(crate) struct EventSource<B> {
    /// The source after the lines that were read.
    pub(crate) source: B,
    /// The parser of lines, with the literals of the last one.
    pub(crate) lines: EventLines,
    /// How many lines were read and had no fault.
    pub(crate) read: u64,
    /// The last line that was read, without its LF.
    pub(crate) line: Vec<u8>,
    /// Whether the last line that was read is the last one of the source.
    pub(crate) has_ended: bool,
    /// The greatest variable of the events so far; 0 without one.
    pub(crate) greatest: u32,
    ghost few: { greatest ≤ lines.progress.limits.vars },
}

impl<B: Drop> Drop for EventSource<B> {
    fn drop(self) {
        let EventSource {
            source: _,
            lines: _,
            read: _,
            line: _,
            has_ended: _,
            greatest: _,
        } = self;
    }
}

/// Answers the greatest of `number` and the variables of the literals.
fn greatest_with(literals: &[Lit], number: u32) -> u32
    ensures { result ≡ max (greatest_of_clause literals.now) number }
{
    let mut greatest = number;
    for literal in literals {
        greatest = literal.var().number().max(greatest);
    }
    greatest
}

/// Answers the greatest variable after a line of this kind with these literals; before it that was `number`.
fn greatest_after(sent: Sent, literals: &[Lit], number: u32) -> u32
    ensures { result ≡ counted sent literals.now number }
{
    match sent {
        Sent::Nothing => number,
        Sent::Clause | Sent::Query => greatest_with(literals, number),
    }
}

/// Answers a fault of the events as what the next line is; want of memory is an error instead.
fn faulty(fault: IcnfFault) -> Result<Next, Refusal>
    ensures { MatchResult result (λ next. (next ≡ Next.Faulty fault) × (fault.kind ≢ NoMemory)) IsWanting }
{
    match fault.kind {
        Kind::NoMemory => Err(Refusal::NoMemory),
        _ => Ok(Next::Faulty(fault)),
    }
}

impl<B: BufRead + Drop> EventSource<B> {
    ghost use Rattle.commands.specs.inner.EventSource.{Hears, HearsNext, IsClosed, IsWaitingLine, TakesLine};

    /// A reader of a source within these limits that has read no line.
    pub(crate) fn of(alloc: Global, limits: Limits, source: B) -> EventSource<B>
        ensures hears { Hears limits (B.remaining source) B.remaining [] result }
        ensures limits { result.lines.progress.limits ≡ limits }
    {
        EventSource {
            source,
            lines: EventLines::within(alloc, limits),
            read: 0,
            line: Vec::new(alloc),
            has_ended: false,
            greatest: 0,
        }
    }

    /// Answers the literals of the last line, if that is a clause or a query.
    pub(crate) fn literals(&self) -> &[Lit]
        ensures { result.now ≡ self.now.lines.read.literals }
    {
        self.lines.literals()
    }

    /// Answers the greatest variable of the events so far; 0 without one.
    pub(crate) fn greatest(&self) -> u32
        ensures value { result ≡ self.now.greatest }
        ensures limit { result ≤ self.now.lines.progress.limits.vars }
    {
        self.greatest
    }

    /// Answers the greatest variable that an event may have.
    pub(crate) fn most(&self) -> u32
        ensures value { result ≡ self.now.lines.progress.limits.vars }
        ensures limit { result ≤ 99999999 }
    {
        self.lines.limits().vars()
    }

    /// Removes the LF at the end of the line that was read. A line without one is the last of the
    /// source.
    fn end_line(&mut self)
        ensures same { self.new ≡ record self.old { line = self.new.line; has_ended = self.new.has_ended } }
        ensures line { self.new.line.items ≡ strip_last 10 self.old.line.items }
        ensures ended { self.new.has_ended ≡ (if ends_with_byte 10 self.old.line.items then self.old.has_ended else true) }
    {
        let len = self.line.len();
        if len == 0 || self.line[len - 1] != b'\n' {
            self.has_ended = true;
            return;
        }
        self.line.truncate(len - 1);
    }

    /// Reads the next line, without its LF, into the field `line`; blocks until it is there. It errs if the read fails.
    fn read_line(&mut self) -> Result<(), Refusal>
        requires more { self.old.has_ended ≡ false }
        ensures line { OnOk result (TakesLine (B.remaining self.old.source) (B.remaining self.new.source) self.new.has_ended self.new.line.items) }
        ensures same { self.new ≡ record self.old { source = self.new.source; line = self.new.line; has_ended = self.new.has_ended } }
        ensures refused { IfErr result (IsRefusedAs Refusal.Input) }
    {
        self.line.clear();
        match self.source.read_until(b'\n', &mut self.line) {
            Ok(_) => {
                self.end_line();
                Ok(())
            }
            Err(error) => Err(refused(error, Refusal::Input)),
        }
    }

    /// Answers what the end of the source is: `Ended`, or the fault that the events have no header.
    fn close(&self) -> Next
        ensures { IsClosed self.now.read self.now.lines.progress result }
    {
        if self.lines.is_headed() {
            return Next::Ended;
        }
        Next::Faulty(IcnfFault {
            kind: Kind::NoHeader,
            line: self.read,
        })
    }

    /// Reads and parses the next line; blocks until it is there. At the end of the source each call answers `Ended`, or the fault that
    /// there is no header. After the fault of a line nothing is promised of later calls. It errs if a read fails or memory runs out.
    pub(crate) fn next(&mut self) -> Result<Next, Refusal>
        ensures heard { (L : Limits) (all : Option (List ℕ)) (E : List Event) → Hears L all B.remaining E self.old → IfOk result (HearsNext L all B.remaining E self.new) }
        ensures waits { IfOk result (λ next. IsWaitingLine next self.new.greatest self.new.lines.read.literals) }
        ensures refused { IfErr result (IsRefusedAs Refusal.Input) }
    {
        if self.has_ended {
            return Ok(self.close());
        }
        self.read_line()?;
        let Some(number) = self.read.checked_add(1) else {
            return Err(Refusal::NoMemory);
        };
        match self.lines.read(number, &self.line) {
            Ok(sent) => {
                self.read = number;
                self.greatest = greatest_after(sent, self.lines.literals(), self.greatest);
                Ok(Next::Line(sent))
            }
            Err(fault) => faulty(fault),
        }
    }
}
