//! The lines of an answer, read piece by piece.

ghost use Rattle.std.specs.Prelude.{◌≡◌, ◌≤◌, ◌+◌, ◌^◌, ◌∷◌, [], false, MatchResult, OnErr};
ghost use Rattle.dimacs.specs.inner.Pieces.{IsOpen};
ghost use Rattle.answers.specs.Pieces.{GivesNamed, read_on};
ghost use Rattle.answers.specs.Parse.{no_memory};
ghost use Rattle.answers.specs.inner.Lines.{Leads, Refuses};

use crate::fault::AnswerFault;
use crate::named_literals::Named;
use crate::open_line::Line;
use crate::token_cut::cut_line;
use crate::value_lines::Values;
use std::alloc::{AllocError, Global};
use std::marker::Model;

/// The number of the line after `count` lines. It is an error, as if memory was refused, only if the number has no room in 64 bits.
fn next_number(count: u64) -> Result<u64, AnswerFault>
    ensures number { MatchResult result (λ n. n ≡ count + 1) (λ fault. fault ≡ no_memory) }
    ensures only { OnErr result (2 ^ 64 ≤ count + 1) }
{
    match count.checked_add(1) {
        Some(number) => Ok(number),
        None => Err(AnswerFault::from(AllocError)),
    }
}

/// What was read of a text: the number of lines that have ended, what they named, and the line that is begun.
#[derive(Drop)]
pub(crate) struct AnswerLines {
    count: u64,
    values: Values,
    line: Line,
}

impl Model for AnswerLines {
    ghost use Rattle.answers.specs.Pieces.{LinesRead};

    ghost Value = { LinesRead };

    ghost view = { λ l. record { count = l.count; naming = l.values; begun = l.line } };
}

impl AnswerLines {
    /// The state in which no byte was read.
    pub(crate) fn new(alloc: Global) -> AnswerLines
        ensures { result ≡ record { count = 0; naming = record { marks = []; ended = false }; begun = [] } }
    {
        AnswerLines {
            count: 0,
            values: Values::new(alloc),
            line: Line::new(alloc),
        }
    }

    /// Reads bytes of the present line, which may have begun in an earlier piece. They have no LF.
    fn take_part(&mut self, part: &[u8]) -> Result<(), AnswerFault>
        requires { IsOpen part.now }
        ensures { MatchResult result (λ _. Leads self.old part.now self.new) (λ fault. Refuses self.old part.now fault) }
    {
        let number = next_number(self.count)?;
        self.line.take(&mut self.values, number, part)
    }

    /// Ends the present line at its LF: its last token is complete now.
    fn end_line(&mut self) -> Result<(), AnswerFault>
        ensures { MatchResult result (λ _. Leads self.old (10 ∷ []) self.new) (λ fault. Refuses self.old (10 ∷ []) fault) }
    {
        let number = next_number(self.count)?;
        self.line.end(&mut self.values, number)?;
        self.count = number;
        Ok(())
    }

    /// Reads the next piece of a text. After a fault this state is of no further use.
    pub(crate) fn take(&mut self, piece: &[u8]) -> Result<(), AnswerFault>
        ensures { MatchResult result (λ _. Leads self.old piece.now self.new) (λ fault. Refuses self.old piece.now fault) }
    {
        let mut rest = piece;
        while let Some((part, later)) = cut_line(rest) {
            self.take_part(part)?;
            self.end_line()?;
            rest = later;
        }
        self.take_part(rest)
    }

    /// Ends the text. Returns the literals that it names, or its first fault.
    pub(crate) fn finish(self) -> Result<Named, AnswerFault>
        ensures { GivesNamed result (read_on self []) }
    {
        let AnswerLines {
            count,
            mut values,
            mut line,
        } = self;
        let number = next_number(count)?;
        line.end(&mut values, number)?;
        values.finish(number)
    }
}
