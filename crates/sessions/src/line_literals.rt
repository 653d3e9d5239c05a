//! The literals of a line of events.

ghost use Rattle.std.specs.Prelude.{◌≡◌, ◌≤◌, ℕ, List, option_map};
ghost use Rattle.dimacs.specs.inner.Capped.{capped};
ghost use Rattle.dimacs.specs.inner.Rows.{Gives};
ghost use Rattle.dimacs.specs.text.Numbers.{number};
ghost use Rattle.dimacs.specs.text.Words.{words};
ghost use Rattle.icnf.specs.Parser.{no_memory};
ghost use Rattle.sessions.specs.Events.{literals_in, nothing_read, read_token, read_tokens};
ghost use Rattle.sessions.specs.inner.Rows.{GivesLiterals};

use dimacs::Lit;
use dimacs::number::{Number, next_number};
use icnf::{IcnfFault, Kind};
use std::alloc::Global;
use std::marker::Model;

/// The literals of a line, and whether its `0` was read. The buffer is reused from line to line.
#[derive(Drop)]
pub(crate) struct LineLiterals {
    /// The literals of the line that are read.
    literals: Vec<Lit>,
    /// Whether the `0` at the line's end was read.
    ended: bool,
}

impl Model for LineLiterals {
    ghost use Rattle.sessions.specs.Events.{LineRead};

    ghost Value = { LineRead };

    ghost view = { λ c. record { literals = c.literals.items; ended = c.ended } };
}

/// The fault of this kind in the line of this number, from 1.
pub(crate) fn fault(kind: Kind, line: u64) -> IcnfFault
    ensures { result ≡ record { kind = kind; line = line } }
{
    IcnfFault { kind, line }
}

impl LineLiterals {
    /// An empty buffer: no literal and no `0` is read.
    pub(crate) fn new(alloc: Global) -> LineLiterals
        ensures { result ≡ nothing_read }
    {
        LineLiterals {
            literals: Vec::new(alloc),
            ended: false,
        }
    }

    /// The literals that were read of the line.
    pub(crate) fn as_slice(&self) -> &[Lit]
        ensures { result.now ≡ self.now.literals }
    {
        &self.literals
    }

    /// Empties the buffer for the literals of a new line.
    fn begin(&mut self)
        ensures { self.new ≡ nothing_read }
    {
        self.literals.clear();
        self.ended = false;
    }

    /// Answers whether the line's `0` was read.
    fn has_ended(&self) -> bool
        ensures { result ≡ self.now.ended }
    {
        self.ended
    }

    /// Reads a token, by the number that it spells; `None` if it spells none. Err if it spells none, comes after the `0`, or is above the
    /// limit. Variables are at most `most`.
    fn read_token(&mut self, most: u32, line: u64, found: Option<Number>) -> Result<(), IcnfFault>
        requires { most ≤ 99999999 }
        ensures { (word : List ℕ) → found ≡ option_map capped (number word) → Gives no_memory self.new result (read_token most line word self.old) }
    {
        if self.ended {
            return Err(fault(Kind::ClauseNotEnded, line));
        }
        let Some(number) = found else {
            return Err(fault(Kind::BadToken, line));
        };
        if number.size == 0 {
            self.ended = true;
            return Ok(());
        }
        if number.size > most {
            return Err(fault(Kind::AboveLimit, line));
        }
        self.literals.push(number.literal())?;
        Ok(())
    }

    /// Reads the tokens of `text`, which is in the line of this number, from 1. Err is their first fault.
    fn read_tokens(&mut self, most: u32, line: u64, text: &[u8]) -> Result<(), IcnfFault>
        requires { most ≤ 99999999 }
        ensures { Gives no_memory self.new result (read_tokens most line (words text.now) self.old) }
    {
        let mut rest = text;
        while let Some((number, after)) = next_number(rest) {
            self.read_token(most, line, number)?;
            rest = after;
        }
        Ok(())
    }

    /// Reads the literals of `text`, which is in the line of this number, from 1, up to its `0`. Err is the line's first fault, also if the
    /// `0` is missing. Variables are at most `most`.
    pub(crate) fn read(&mut self, most: u32, line: u64, text: &[u8]) -> Result<(), IcnfFault>
        requires { most ≤ 99999999 }
        ensures { GivesLiterals self.new result (literals_in most line (words text.now)) }
    {
        self.begin();
        self.read_tokens(most, line, text)?;
        if !self.has_ended() {
            return Err(fault(Kind::ClauseNotEnded, line));
        }
        Ok(())
    }
}
