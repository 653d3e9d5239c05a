//! The body of a DIMACS text, after the header: the clauses as numbers, each ended by 0.

ghost use Rattle.std.specs.Prelude.{◌≡◌, ℕ, List, ◌+◌, ◌<◌, ◌≤◌, [], ◌∷◌, ◌++◌, length, OnOk, IfOk, nat_le, option_map};
ghost use Rattle.dimacs.specs.inner.Capped.{capped};
ghost use Rattle.dimacs.specs.logic.Literal.{IsWithin};
ghost use Rattle.dimacs.specs.text.Numbers.{number};
ghost use Rattle.dimacs.specs.text.Words.{words};
ghost use Rattle.dimacs.specs.text.Parser.{read_token, format, no_memory};
ghost use Rattle.dimacs.specs.text.Rows.{read_words};
ghost use Rattle.dimacs.specs.inner.Rows.{Gives};

use crate::builder::Builder;
use crate::fault::{DimacsFault, Kind};
use crate::formula::Formula;
use crate::header::read_header;
use crate::limits::Limits;
use crate::literal::Lit;
use crate::number::{Number, next_number};
use crate::rows::Rows;
use crate::words::is_comment;
use std::alloc::{AllocError, Global};
use std::marker::Model;

/// The state of the DIMACS parser after the header.
#[derive(Drop)]
pub(crate) struct Body {
    /// The header's number of variables.
    vars: u32,
    /// The header's number of clauses.
    count: u32,
    /// The limit on the number of literals.
    limit: u32,
    /// The clauses read so far, and the open one.
    clauses: Builder,
}

impl Model for Body {
    ghost use Rattle.std.specs.Prelude.{◌≤◌, length, All};
    ghost use Rattle.dimacs.specs.text.BodyState.{BodyState};
    ghost use Rattle.dimacs.specs.logic.Cnf.{AreWithin};
    ghost use Rattle.dimacs.specs.logic.Literal.{IsWithin};

    ghost Value = { BodyState };

    ghost view = { λ b. record { vars = b.vars; count = b.count; limit = b.limit; done = b.clauses.done; open_clause = b.clauses.open_clause; total = b.clauses.total } };

    ghost invariant = { λ b. (b.vars ≤ 99999999) × (b.count ≤ 99999999) × (b.limit ≤ 999999999) × (length b.clauses.done ≤ b.count) × AreWithin b.vars b.clauses.done × All (IsWithin b.vars) b.clauses.open_clause };
}

impl Body {
    /// A state after the header with these numbers, before the first token of the body.
    fn new(alloc: Global, vars: u32, count: u32, limit: u32) -> Result<Body, AllocError>
        requires vars { vars ≤ 99999999 }
        requires count { count ≤ 99999999 }
        requires limit { limit ≤ 999999999 }
        ensures { IfOk result (λ b. b ≡ record { vars = vars; count = count; limit = limit; done = []; open_clause = []; total = 0 }) }
    {
        Ok(Body {
            vars,
            count,
            limit,
            clauses: Builder::new(alloc)?,
        })
    }

    /// Appends a literal to the open clause.
    fn push(&mut self, literal: Lit) -> Result<(), AllocError>
        requires room { self.old.total < self.old.limit }
        requires within { IsWithin self.old.vars literal }
        ensures { OnOk result (self.new ≡ record self.old { open_clause = self.old.open_clause ++ literal ∷ []; total = self.old.total + 1 }) }
    {
        self.clauses.push(literal)?;
        Ok(())
    }

    /// Ends the open clause.
    fn end_clause(&mut self) -> Result<(), AllocError>
        requires { length self.old.done < self.old.count }
        ensures { OnOk result (self.new ≡ record self.old { done = self.old.done ++ self.old.open_clause ∷ []; open_clause = [] }) }
    {
        self.clauses.end_clause()?;
        Ok(())
    }

    /// Answers whether as many clauses have ended as the header announces.
    fn is_full(&self) -> bool
        ensures { result ≡ nat_le self.now.count (length self.now.done) }
    {
        self.clauses.len() >= self.count as usize
    }

    /// Reads a token, of which `found` is the number, or `None` if it is no number: a literal, or the 0 that ends a clause. The fault is
    /// the first of `BadToken`, `TooManyClauses`, `VariableAboveHeader` and `AboveLimit` that applies.
    fn read_token(&mut self, line: u64, found: Option<Number>) -> Result<(), DimacsFault>
        ensures { (word : List ℕ) → found ≡ option_map capped (number word) → Gives no_memory self.new result (read_token line word self.old) }
    {
        let Some(number) = found else {
            return Err(DimacsFault::at(Kind::BadToken, line));
        };
        if self.is_full() {
            return Err(DimacsFault::at(Kind::TooManyClauses, line));
        }
        if number.size == 0 {
            self.end_clause()?;
            return Ok(());
        }
        if number.size > self.vars {
            return Err(DimacsFault::at(Kind::VariableAboveHeader, line));
        }
        if self.clauses.literals() >= self.limit as usize {
            return Err(DimacsFault::at(Kind::AboveLimit, line));
        }
        self.push(number.literal())?;
        Ok(())
    }

    /// Reads the tokens of a line. It is not inlined, so that the loop over digits has the registers for itself.
    #[inline(never)]
    fn read_words(&mut self, line: u64, text: &[u8]) -> Result<(), DimacsFault>
        ensures { Gives no_memory self.new result (read_words format line (words text.now) self.old) }
    {
        let mut rest = text;
        while let Some((number, after)) = next_number(rest) {
            self.read_token(line, number)?;
            rest = after;
        }
        Ok(())
    }
}

impl Rows for Body {
    ghost use Rattle.dimacs.specs.text.Parser as reading;

    type Value = Formula;

    type Fault = DimacsFault;

    ghost format = { reading.format };

    ghost no_memory = { reading.no_memory };

    /// The fault `NoHeader` in the text's last line.
    fn no_header(lines: u64) -> DimacsFault {
        DimacsFault::at(Kind::NoHeader, lines)
    }

    /// Reads the header `p cnf VARIABLES CLAUSES`.
    fn begin(alloc: Global, limits: Limits, line: u64, header: &[u8]) -> Result<Body, DimacsFault> {
        let (vars, count) = read_header(limits, line, header)?;
        Ok(Body::new(alloc, vars, count, limits.literals())?)
    }

    /// Reads the tokens of a line after the header; a comment has none.
    #[tactic(auto, unfolding(crate::specs::text::Rows::read_words))]
    fn read_line(&mut self, line: u64, text: &[u8]) -> Result<(), DimacsFault> {
        if is_comment(text) {
            return Ok(());
        }
        self.read_words(line, text)
    }

    /// Makes the formula, if the last clause has ended and as many have ended as the header announces.
    fn finish(self, lines: u64) -> Result<Formula, DimacsFault> {
        let Body {
            vars,
            count,
            limit: _,
            clauses,
        } = self;
        if clauses.is_open() {
            return Err(DimacsFault::at(Kind::ClauseNotEnded, lines));
        }
        if clauses.len() < count as usize {
            return Err(DimacsFault::at(Kind::TooFewClauses, lines));
        }
        Ok(clauses.finish(vars)?)
    }
}
