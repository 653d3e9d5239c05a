//! The values of `v` lines, read token by token.

ghost use Rattle.std.specs.Prelude.{◌≡◌, ℕ, List, [], false, option_map};
ghost use Rattle.dimacs.specs.inner.Capped.{capped};
ghost use Rattle.dimacs.specs.inner.Rows.{Gives};
ghost use Rattle.dimacs.specs.text.Numbers.{number};
ghost use Rattle.dimacs.specs.text.Words.{words};
ghost use Rattle.answers.specs.Pieces.{GivesNamed, naming_of};
ghost use Rattle.answers.specs.Parse.{end_of, no_memory, read_literal, read_token, read_tokens};

use crate::fault::{AnswerFault, Kind};
use crate::named_literals::Named;
use dimacs::Lit;
use dimacs::number::{Number, next_number};
use std::alloc::Global;
use std::marker::Model;

/// The greatest variable that may be named.
const LIMIT: u32 = 99_999_999;

/// The literals that were named so far, and whether the `0` was read.
#[derive(Drop)]
pub(crate) struct Values {
    named: Named,
    ended: bool,
}

impl Model for Values {
    ghost use Rattle.answers.specs.Pieces.{Marking};

    ghost Value = { Marking };

    ghost view = { λ v. record { marks = v.named; ended = v.ended } };
}

impl Values {
    /// The state in which no token was read.
    pub(crate) fn new(alloc: Global) -> Values
        ensures { result ≡ record { marks = []; ended = false } }
    {
        Values {
            named: Named::new(alloc),
            ended: false,
        }
    }

    /// Names a literal that a `v` line lists; a fault on this line if its negation is named.
    fn read_literal(&mut self, line: u64, literal: Lit) -> Result<(), AnswerFault>
        ensures { Gives no_memory (naming_of self.new) result (read_literal line literal (naming_of self.old)) }
    {
        if self.named.has(literal.negate()) {
            return Err(AnswerFault::at(Kind::ComplementaryPair, line));
        }
        self.named.add(literal)?;
        Ok(())
    }

    /// Reads a token of this line: `found` is its number, or None if it is no number.
    fn read_token(&mut self, line: u64, found: Option<Number>) -> Result<(), AnswerFault>
        ensures { (word : List ℕ) → found ≡ option_map capped (number word) → Gives no_memory (naming_of self.new) result (read_token line word (naming_of self.old)) }
    {
        if self.ended {
            return Err(AnswerFault::at(Kind::BehindEnd, line));
        }
        let Some(number) = found else {
            return Err(AnswerFault::at(Kind::BadToken, line));
        };
        if number.size == 0 {
            self.ended = true;
            return Ok(());
        }
        if number.size > LIMIT {
            return Err(AnswerFault::at(Kind::BadToken, line));
        }
        self.read_literal(line, number.literal())
    }

    /// Reads the tokens of a part of a `v` line, which is the line of this number.
    pub(crate) fn read(&mut self, line: u64, text: &[u8]) -> Result<(), AnswerFault>
        ensures { Gives no_memory (naming_of self.new) result (read_tokens line (words text.now) (naming_of self.old)) }
    {
        let mut rest = text;
        while let Some((number, after)) = next_number(rest) {
            self.read_token(line, number)?;
            rest = after;
        }
        Ok(())
    }

    /// Ends the text on this line. Returns the literals that are named; a fault if the `0` was not read.
    pub(crate) fn finish(self, line: u64) -> Result<Named, AnswerFault>
        ensures { GivesNamed result (end_of line (naming_of self)) }
    {
        let Values { named, ended } = self;
        if ended {
            Ok(named)
        } else {
            Err(AnswerFault::at(Kind::NotEnded, line))
        }
    }
}
