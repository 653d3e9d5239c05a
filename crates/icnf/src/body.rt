//! The body of an iCNF text, after the header: clauses, and then cubes.

ghost use Rattle.std.specs.Prelude.{◌≡◌, ◌≢◌, ℤ, ◌+◌, ◌<◌, ◌≤◌, [], ◌∷◌, ◌++◌, length, OnOk, IfOk, bytes_eq, codes};
ghost use Rattle.dimacs.specs.inner.Capped.{capped};
ghost use Rattle.dimacs.specs.logic.Literal.{var_of};
ghost use Rattle.dimacs.specs.text.Words.{words};
ghost use Rattle.icnf.specs.Parser.{format, no_memory, start, begin, read_mark, in_clause, end_cube, literal_in_cube, in_cube, read_number, read_token};
ghost use Rattle.dimacs.specs.text.Rows.{read_words};
ghost use Rattle.dimacs.specs.inner.Rows.{Gives};

use crate::cubes::{begin_cube, end_cube, read_literal};
use crate::fault::{IcnfFault, Kind};
use crate::header::read_header;
use crate::tree::Tree;
use crate::walk::{Stage, Walk};
use dimacs::number::{Number, signed};
use dimacs::rows::Rows;
use dimacs::words::{is_comment, next_word};
use dimacs::{Builder, Formula, Limits, Lit};
use std::alloc::{AllocError, Global};
use std::marker::Model;

/// The state of the iCNF parser after the header.
pub(crate) struct Body {
    /// The limits of the formula.
    limits: Limits,
    /// The clauses read so far.
    clauses: Builder,
    /// The cubes read so far.
    walk: Walk,
}

impl Drop for Body {
    fn drop(self) {
        let Body {
            limits: _,
            clauses: _,
            walk: _,
        } = self;
    }
}

impl Model for Body {
    ghost use Rattle.icnf.specs.ReadState.{ReadState};
    ghost use Rattle.icnf.specs.inner.ReadState.{IsRead};

    ghost Value = { ReadState };

    ghost view = { λ b. record { limits = b.limits; clauses = b.clauses; walk = b.walk } };

    ghost invariant = { λ b. IsRead (record { limits = b.limits; clauses = b.clauses; walk = b.walk }) };
}

/// Answers whether a token is `a`.
pub(crate) fn is_mark(word: &[u8]) -> bool
    ensures { result ≡ bytes_eq word.now (codes "a") }
{
    word == b"a".as_slice()
}

impl Body {
    /// A state before the first token of the body.
    fn new(alloc: Global, limits: Limits) -> Result<Body, AllocError>
        ensures { IfOk result (λ b. b ≡ start limits) }
    {
        Ok(Body {
            limits,
            clauses: Builder::new(alloc)?,
            walk: Walk::new(alloc),
        })
    }

    /// Begins a cube.
    fn begin(&mut self, line: u64) -> Result<(), IcnfFault>
        requires missing { self.old.walk.stage ≢ Stage.Complete }
        requires closed { self.old.clauses.open_clause ≡ [] }
        ensures { Gives no_memory self.new result (begin line self.old) }
    {
        begin_cube(&mut self.walk, line)
    }

    /// Reads an `a`, which begins a cube. Within a clause or a cube it is `BadToken`, after the tree's last cube `NotATree`.
    fn read_mark(&mut self, line: u64) -> Result<(), IcnfFault>
        ensures { Gives no_memory self.new result (read_mark line self.old.walk.stage self.old) }
    {
        match self.walk.stage() {
            Stage::Clauses if !self.clauses.is_open() => self.begin(line),
            Stage::Outside => self.begin(line),
            Stage::Complete => Err(IcnfFault {
                kind: Kind::NotATree,
                line,
            }),
            _ => Err(IcnfFault {
                kind: Kind::BadToken,
                line,
            }),
        }
    }

    /// Appends a literal to the open clause.
    fn push(&mut self, literal: Lit) -> Result<(), AllocError>
        requires clauses { self.old.walk.stage ≡ Stage.Clauses }
        requires room { self.old.clauses.total < 999999999 }
        requires within { var_of literal ≤ 99999999 }
        ensures { OnOk result (self.new ≡ record self.old { clauses = record self.old.clauses { open_clause = self.old.clauses.open_clause ++ literal ∷ []; total = self.old.clauses.total + 1 } }) }
    {
        self.clauses.push(literal)?;
        Ok(())
    }

    /// Ends the open clause.
    fn end_clause(&mut self) -> Result<(), AllocError>
        requires clauses { self.old.walk.stage ≡ Stage.Clauses }
        requires room { length self.old.clauses.done < 99999999 }
        ensures { OnOk result (self.new ≡ record self.old { clauses = record self.old.clauses { done = self.old.clauses.done ++ self.old.clauses.open_clause ∷ []; open_clause = [] } }) }
    {
        self.clauses.end_clause()?;
        Ok(())
    }

    /// Reads a number in a clause: a literal, or the 0 that ends the clause. Beyond a limit it is `AboveLimit`.
    fn in_clause(&mut self, line: u64, number: Number) -> Result<(), IcnfFault>
        requires { self.old.walk.stage ≡ Stage.Clauses }
        ensures { (z : ℤ) → number ≡ capped z → Gives no_memory self.new result (in_clause line z self.old) }
    {
        if self.clauses.len() >= self.limits.clauses() as usize {
            return Err(IcnfFault {
                kind: Kind::AboveLimit,
                line,
            });
        }
        if number.size == 0 {
            self.end_clause()?;
            return Ok(());
        }
        if number.size > self.limits.vars()
            || self.clauses.literals() >= self.limits.literals() as usize
        {
            return Err(IcnfFault {
                kind: Kind::AboveLimit,
                line,
            });
        }
        self.push(number.literal())?;
        Ok(())
    }

    /// Ends the open cube; `NotATree` if a literal must still follow.
    fn end_cube(&mut self, line: u64) -> Result<(), IcnfFault>
        requires { self.old.walk.stage ≡ Stage.Inside }
        ensures { Gives no_memory self.new result (end_cube line self.old.walk.forced self.old) }
    {
        end_cube(&mut self.walk, line)
    }

    /// Reads a literal of the open cube; a fault if it repeats a variable, is not the one that must
    /// come, or is the 65th.
    fn literal_in_cube(&mut self, line: u64, literal: Lit) -> Result<(), IcnfFault>
        requires { self.old.walk.stage ≡ Stage.Inside }
        ensures { Gives no_memory self.new result (literal_in_cube line literal self.old) }
    {
        read_literal(&mut self.walk, line, literal)
    }

    /// Reads a number in a cube: a literal, or the 0 that ends the cube. A variable above those of the clauses is `VariableAboveClauses`.
    fn in_cube(&mut self, line: u64, number: Number) -> Result<(), IcnfFault>
        requires { self.old.walk.stage ≡ Stage.Inside }
        ensures { (z : ℤ) → number ≡ capped z → Gives no_memory self.new result (in_cube line z self.old) }
    {
        if number.size == 0 {
            return self.end_cube(line);
        }
        if number.size > self.clauses.greatest() {
            return Err(IcnfFault {
                kind: Kind::VariableAboveClauses,
                line,
            });
        }
        self.literal_in_cube(line, number.literal())
    }

    /// Reads a number, in a clause or in a cube. Between two cubes and after the last one it is `ClauseBehindCube`.
    fn read_number(&mut self, line: u64, number: Number) -> Result<(), IcnfFault>
        ensures { (z : ℤ) → number ≡ capped z → Gives no_memory self.new result (read_number line z self.old.walk.stage self.old) }
    {
        match self.walk.stage() {
            Stage::Clauses => self.in_clause(line, number),
            Stage::Inside => self.in_cube(line, number),
            _ => Err(IcnfFault {
                kind: Kind::ClauseBehindCube,
                line,
            }),
        }
    }

    /// Reads a token, `a` or a number; another one is `BadToken`.
    fn read_token(&mut self, line: u64, word: &[u8]) -> Result<(), IcnfFault>
        ensures { Gives no_memory self.new result (read_token line word.now self.old) }
    {
        if is_mark(word) {
            return self.read_mark(line);
        }
        let Some(number) = signed(word) else {
            return Err(IcnfFault {
                kind: Kind::BadToken,
                line,
            });
        };
        self.read_number(line, number)
    }

    /// Reads the tokens of a line.
    fn read_words(&mut self, line: u64, text: &[u8]) -> Result<(), IcnfFault>
        ensures { Gives no_memory self.new result (read_words format line (words text.now) self.old) }
    {
        let mut rest = text;
        while let Some((word, after)) = next_word(rest) {
            self.read_token(line, word)?;
            rest = after;
        }
        Ok(())
    }
}

impl Rows for Body {
    ghost use Rattle.icnf.specs.Parser as reading;

    type Value = (Formula, Tree);

    type Fault = IcnfFault;

    ghost format = { reading.format };

    ghost no_memory = { reading.no_memory };

    /// The fault `NoHeader` in the text's last line.
    fn no_header(lines: u64) -> IcnfFault {
        IcnfFault {
            kind: Kind::NoHeader,
            line: lines,
        }
    }

    /// Reads the header `p inccnf`.
    fn begin(alloc: Global, limits: Limits, line: u64, header: &[u8]) -> Result<Body, IcnfFault> {
        read_header(line, header)?;
        Ok(Body::new(alloc, limits)?)
    }

    /// Reads the tokens of a line after the header; a comment has none.
    #[tactic(auto, unfolding(dimacs::specs::text::Rows::read_words))]
    fn read_line(&mut self, line: u64, text: &[u8]) -> Result<(), IcnfFault> {
        if is_comment(text) {
            return Ok(());
        }
        self.read_words(line, text)
    }

    /// Ends the text: makes the formula and the tree, if the last cube was the last leaf of a tree.
    #[tactic(auto, unfolding(crate::specs::Parser::finish))]
    fn finish(self, lines: u64) -> Result<(Formula, Tree), IcnfFault> {
        let Body {
            limits: _,
            clauses,
            walk,
        } = self;
        let kind = match walk.stage() {
            Stage::Complete => {
                let vars = clauses.greatest();
                return Ok((clauses.finish(vars)?, walk.finish()));
            }
            Stage::Clauses if !clauses.is_open() => Kind::NotATree,
            Stage::Outside => Kind::NotATree,
            _ => Kind::ClauseNotEnded,
        };
        Err(IcnfFault { kind, line: lines })
    }
}
