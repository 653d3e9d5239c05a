//! Reads the lines of a text of events, one after the other.

ghost use Rattle.dimacs.specs.logic.Limits.{written};
ghost use Rattle.std.specs.Prelude.{◌≡◌, ◌≢◌, ℕ, ◌+◌, List, [], ◌∷◌, IfOk, OnOk, IfErr, None, Some, Ok, bytes_eq, codes};
ghost use Rattle.dimacs.specs.text.Words.{words, words_of};
ghost use Rattle.icnf.specs.Parser.{read_header};
ghost use Rattle.sessions.specs.Events.{put_clause, put_query, read_event, read_row, start};
ghost use Rattle.sessions.specs.Rows.{GivesRow};

use crate::line_literals::{LineLiterals, fault};
use dimacs::words::{is_comment, next_word};
use dimacs::{Limits, Lit};
use icnf::{IcnfFault, Kind, read_header};
use std::alloc::Global;
use std::marker::Model;

/// What a line of events says.
#[derive(Clone, Copy)]
pub enum Sent {
    /// The line is blank, a comment, or the header.
    Nothing,
    /// The line gives a clause.
    Clause,
    /// The line asks a query.
    Query,
}

/// The reader of events: its limits, what it has counted so far, and the literals of the last event, whose buffer is reused.
pub struct EventLines {
    limits: Limits,
    /// Whether the header was read.
    headed: bool,
    /// How many clauses were read.
    clauses: u32,
    /// How many literals these clauses have.
    total: u32,
    /// The literals of the last event.
    literals: LineLiterals,
}

impl Model for EventLines {
    ghost use Rattle.sessions.specs.Rows.{Held};
    ghost use Rattle.std.specs.Prelude.{◌≤◌};

    ghost Value = { Held };

    ghost view = { λ x. record { progress = record { limits = x.limits; headed = x.headed; clauses = x.clauses; literals = x.total }; read = x.literals } };

    ghost invariant = { λ x. (x.clauses ≤ x.limits.clauses) × (x.total ≤ x.limits.literals) };
}

impl Drop for EventLines {
    fn drop(self) {
        let EventLines {
            limits: _,
            headed: _,
            clauses: _,
            total: _,
            literals: _,
        } = self;
    }
}

/// Answers whether a token is `a`, with which the line of a query begins.
fn is_mark(word: &[u8]) -> bool
    ensures { result ≡ bytes_eq word.now (codes "a") }
{
    word == b"a".as_slice()
}

impl EventLines {
    /// A reader that has read no line, within the written limits.
    pub fn new(alloc: Global) -> EventLines
        ensures progress { result.progress ≡ start written }
        ensures literals { result.read.literals ≡ [] }
    {
        EventLines::within(alloc, Limits::written())
    }

    /// A reader within these limits that has read no line. A query has at most as many literals as there may be variables.
    pub fn within(alloc: Global, limits: Limits) -> EventLines
        ensures progress { result.progress ≡ start limits }
        ensures literals { result.read.literals ≡ [] }
    {
        EventLines {
            limits,
            headed: false,
            clauses: 0,
            total: 0,
            literals: LineLiterals::new(alloc),
        }
    }

    /// The literals of the last event that was read.
    pub fn literals(&self) -> &[Lit]
        ensures { result.now ≡ self.now.read.literals }
    {
        self.literals.as_slice()
    }

    /// Answers the limits on the variables, clauses and literals of the events.
    pub fn limits(&self) -> Limits
        ensures { result ≡ self.now.progress.limits }
    {
        self.limits
    }

    /// Answers whether the header was read.
    pub fn is_headed(&self) -> bool
        ensures { result ≡ self.now.progress.headed }
    {
        self.headed
    }

    /// Counts a clause whose literals were read. Err if there would be too many clauses or literals.
    fn put_clause(&mut self, line: u64) -> Result<Sent, IcnfFault>
        ensures row { GivesRow self.new result (put_clause line self.old.progress self.old.read.literals) }
        ensures limits { self.new.progress.limits ≡ self.old.progress.limits }
        ensures says { IfOk result (λ sent. sent ≡ Sent.Clause) }
    {
        let count = self.literals.as_slice().len();
        let most = self.limits.literals() as usize;
        if self.clauses >= self.limits.clauses() || count > most - self.total as usize {
            return Err(fault(Kind::AboveLimit, line));
        }
        self.clauses += 1;
        self.total += count as u32;
        Ok(Sent::Clause)
    }

    /// Tests the query whose literals were read. Err if it has too many literals.
    fn put_query(&self, line: u64) -> Result<Sent, IcnfFault>
        ensures row { GivesRow self.now result (put_query line self.now.progress self.now.read.literals) }
        ensures says { IfOk result (λ sent. sent ≡ Sent.Query) }
    {
        if self.literals.as_slice().len() > self.limits.vars() as usize {
            return Err(fault(Kind::AboveLimit, line));
        }
        Ok(Sent::Query)
    }

    /// Reads a line of an event. `word` is its first token, `after` are the bytes after that token, and `text` is the whole line. Answers
    /// `Clause` or `Query`; Err is the line's first fault.
    fn read_event(
        &mut self,
        line: u64,
        word: &[u8],
        after: &[u8],
        text: &[u8],
    ) -> Result<Sent, IcnfFault>
        requires { words text.now ≡ word.now ∷ words after.now }
        ensures row { GivesRow self.new result (read_event line word.now (words after.now) self.old.progress) }
        ensures limits { self.new.progress.limits ≡ self.old.progress.limits }
        ensures says { IfOk result (λ sent. sent ≢ Sent.Nothing) }
    {
        let most = self.limits.vars();
        if is_mark(word) {
            self.literals.read(most, line, after)?;
            return self.put_query(line);
        }
        self.literals.read(most, line, text)?;
        self.put_clause(line)
    }

    /// Reads the line of this number, from 1; `text` has the line without its LF. Answers what the line says; Err is the line's first
    /// fault. After an Err nothing else is promised of the reader.
    #[tactic(auto, unfolding(crate::specs::Events::read_row))]
    pub fn read(&mut self, line: u64, text: &[u8]) -> Result<Sent, IcnfFault>
        ensures row { GivesRow self.new result (read_row line (words_of text.now) self.old.progress) }
        // the limits stay, also after a fault
        ensures limits { self.new.progress.limits ≡ self.old.progress.limits }
        // a line without an event leaves the literals of the last one
        ensures kept { IfOk result (λ sent. sent ≡ Sent.Nothing → self.new.read.literals ≡ self.old.read.literals) }
    {
        if is_comment(text) {
            return Ok(Sent::Nothing);
        }
        let Some((word, after)) = next_word(text) else {
            return Ok(Sent::Nothing);
        };
        if self.headed {
            return self.read_event(line, word, after, text);
        }
        read_header(line, text)?;
        self.headed = true;
        Ok(Sent::Nothing)
    }
}
