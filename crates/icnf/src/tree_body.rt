//! The body of an iCNF text that is read for a given formula: its clauses are compared with the formula's and not stored.

ghost use Rattle.std.specs.Prelude.{◌≡◌, ◌≢◌, ℕ, ℤ, List, ◌∷◌, bytes_eq, codes, option_map};
ghost use Rattle.dimacs.specs.inner.Capped.{capped};
ghost use Rattle.dimacs.specs.inner.Rows.{Gives};
ghost use Rattle.dimacs.specs.text.Numbers.{number};
ghost use Rattle.dimacs.specs.text.Rows.{read_words};
ghost use Rattle.dimacs.specs.text.Words.{words, words_of};
ghost use Rattle.icnf.specs.Parser.{no_memory};
ghost use Rattle.icnf.specs.inner.TreeBody.{none_read, walks, take_mark, take_in_clause, take_in_cube, take_number, take_token, finish, format};
ghost use Rattle.icnf.specs.inner.Cubes.{begin_cube};

use crate::body::is_mark;
use crate::comparison::Comparison;
use crate::cubes::{begin_cube, end_cube, read_literal};
use crate::fault::{IcnfFault, Kind};
use crate::tree::Tree;
use crate::walk::{Stage, Walk};
use dimacs::number::{Number, next_number};
use dimacs::words::{is_comment, next_word};
use dimacs::{Formula, Limits};
use std::alloc::Global;

/// The state, after the header, of the parser that compares the clauses.
#[derive(Drop)]
pub(crate) struct TreeBody {
    /// The limits of the formula.
    pub(crate) limits: Limits,
    /// How far the clauses read so far agree with the formula's.
    pub(crate) clauses: Comparison,
    /// The cubes read so far.
    pub(crate) walk: Walk,
}

/// Answers whether the first token of a text is `a`.
fn begins_with_mark(text: &[u8]) -> bool
    ensures { (word : List ℕ) (more : List (List ℕ)) → words text.now ≡ word ∷ more → result ≡ bytes_eq word (codes "a") }
{
    match next_word(text) {
        Some((word, _)) => is_mark(word),
        None => false,
    }
}

impl TreeBody {
    /// A state before the first token of the body.
    pub(crate) fn new(alloc: Global, limits: Limits) -> TreeBody
        ensures { result ≡ none_read limits }
    {
        TreeBody {
            limits,
            clauses: Comparison::new(),
            walk: Walk::new(alloc),
        }
    }

    /// Begins a cube.
    fn begin(&mut self, line: u64) -> Result<(), IcnfFault>
        requires { self.old.walk.stage ≢ Stage.Complete }
        ensures { Gives no_memory self.new result (walks (begin_cube line self.old.walk) self.old) }
    {
        begin_cube(&mut self.walk, line)
    }

    /// Reads an `a`, which begins a cube. Within a clause or a cube it is `BadToken`, after the tree's last cube `NotATree`.
    fn read_mark(&mut self, line: u64) -> Result<(), IcnfFault>
        ensures { Gives no_memory self.new result (take_mark line self.old.walk.stage self.old) }
    {
        match self.walk.stage() {
            Stage::Clauses if !self.clauses.is_open() => self.begin(line),
            Stage::Outside => self.begin(line),
            Stage::Complete => Err(IcnfFault {
                kind: Kind::NotATree,
                line,
            }),
            _ => Err(IcnfFault {
                kind: Kind::BadToken,
                line,
            }),
        }
    }

    /// Reads a number in a clause: a literal, or the 0 that ends the clause. Beyond a limit it is `AboveLimit`.
    #[tactic(auto, unfolding(crate::specs::inner::TreeBody::take_in_clause))]
    fn in_clause(&mut self, formula: &Formula, line: u64, number: Number) -> Result<(), IcnfFault>
        ensures { (z : ℤ) → number ≡ capped z → Gives no_memory self.new result (take_in_clause formula.now.clauses line z self.old) }
    {
        if self.clauses.len() >= self.limits.clauses() as usize {
            return Err(IcnfFault {
                kind: Kind::AboveLimit,
                line,
            });
        }
        if number.size == 0 {
            self.clauses.end_clause(formula);
            return Ok(());
        }
        if number.size > self.limits.vars()
            || self.clauses.literals() >= self.limits.literals() as usize
        {
            return Err(IcnfFault {
                kind: Kind::AboveLimit,
                line,
            });
        }
        self.clauses.push(formula, number.literal());
        Ok(())
    }

    /// Reads a number in a cube: a literal, or the 0 that ends the cube. A variable above those of the clauses is `VariableAboveClauses`.
    #[tactic(auto, unfolding(crate::specs::inner::TreeBody::take_in_cube))]
    fn in_cube(&mut self, line: u64, number: Number) -> Result<(), IcnfFault>
        requires { self.old.walk.stage ≡ Stage.Inside }
        ensures { (z : ℤ) → number ≡ capped z → Gives no_memory self.new result (take_in_cube line z self.old) }
    {
        if number.size == 0 {
            return end_cube(&mut self.walk, line);
        }
        if number.size > self.clauses.greatest() {
            return Err(IcnfFault {
                kind: Kind::VariableAboveClauses,
                line,
            });
        }
        read_literal(&mut self.walk, line, number.literal())
    }

    /// Reads a number, in a clause or in a cube. Between two cubes and after the last one it is `ClauseBehindCube`.
    fn read_number(&mut self, formula: &Formula, line: u64, number: Number) -> Result<(), IcnfFault>
        ensures { (z : ℤ) → number ≡ capped z → Gives no_memory self.new result (take_number formula.now.clauses line z self.old.walk.stage self.old) }
    {
        match self.walk.stage() {
            Stage::Clauses => self.in_clause(formula, line, number),
            Stage::Inside => self.in_cube(line, number),
            _ => Err(IcnfFault {
                kind: Kind::ClauseBehindCube,
                line,
            }),
        }
    }

    /// Reads the first token of a text, `a` or a number; another one is `BadToken`. `found` is the token's number, or `None` if it is no
    /// number.
    #[inline(always)]
    fn read_found(
        &mut self,
        formula: &Formula,
        line: u64,
        found: Option<Number>,
        text: &[u8],
    ) -> Result<(), IcnfFault>
        ensures { (word : List ℕ) (more : List (List ℕ)) → words text.now ≡ word ∷ more → found ≡ option_map capped (number word) → Gives no_memory self.new result (take_token formula.now.clauses line word self.old) }
    {
        match found {
            Some(number) => self.read_number(formula, line, number),
            None if begins_with_mark(text) => self.read_mark(line),
            None => Err(IcnfFault {
                kind: Kind::BadToken,
                line,
            }),
        }
    }

    /// Reads the tokens of a line. It is not inlined, so that the loop over digits has the registers for itself.
    #[inline(never)]
    fn read_words(&mut self, formula: &Formula, line: u64, text: &[u8]) -> Result<(), IcnfFault>
        ensures { Gives no_memory self.new result (read_words (format formula.now.clauses) line (words text.now) self.old) }
    {
        let mut rest = text;
        while let Some((found, after)) = next_number(rest) {
            self.read_found(formula, line, found, rest)?;
            rest = after;
        }
        Ok(())
    }

    /// Reads a line of this number (from 1) after the header.
    #[tactic(auto, unfolding(dimacs::specs::text::Rows::read_words))]
    pub(crate) fn read_line(
        &mut self,
        formula: &Formula,
        line: u64,
        text: &[u8],
    ) -> Result<(), IcnfFault>
        ensures { Gives no_memory self.new result (read_words (format formula.now.clauses) line (words_of text.now) self.old) }
    {
        if is_comment(text) {
            return Ok(());
        }
        self.read_words(formula, line, text)
    }

    /// Answers whether the clauses are the formula's, and the tree, if the text ends after this number of lines.
    #[tactic(auto, unfolding(crate::specs::inner::TreeBody::finish))]
    pub(crate) fn finish(self, formula: &Formula, lines: u64) -> Result<(bool, Tree), IcnfFault>
        ensures { result ≡ finish formula.now.clauses lines self }
    {
        let TreeBody {
            limits: _,
            clauses,
            walk,
        } = self;
        let kind = match walk.stage() {
            Stage::Complete => return Ok((clauses.is_whole(formula), walk.finish())),
            Stage::Clauses if !clauses.is_open() => Kind::NotATree,
            Stage::Outside => Kind::NotATree,
            _ => Kind::ClauseNotEnded,
        };
        Err(IcnfFault { kind, line: lines })
    }
}
