//! Comparing a text's clauses with a formula's as they are read; none is stored.

ghost use Rattle.std.specs.Prelude.{◌≡◌, ◌≢◌, ◌<◌, ◌≤◌, ◌==◌, ◌&&◌, [], length, slice_index_or, MatchBool};
ghost use Rattle.dimacs.specs.logic.Literal.{var_of};
ghost use Rattle.icnf.specs.inner.Comparison.{has_at, ends_at, none_compared, with_literal, with_end};

use dimacs::{Formula, Lit};
use std::marker::Model;

/// What is known of the clauses that were read: those that have ended, and the open one.
#[derive(Drop)]
pub(crate) struct Comparison {
    /// The number of clauses that have ended.
    count: u32,
    /// The number of literals of the open clause.
    at: u32,
    /// The number of literals of all clauses, with those of the open one.
    total: u32,
    /// The greatest variable of the clauses that have ended; 0 if they have no literal.
    greatest: u32,
    /// The greatest variable of the open clause; 0 if it has no literal.
    open_greatest: u32,
    /// Whether the clauses that have ended are the first ones of the formula.
    agrees: bool,
    /// Whether the formula's next clause begins with the literals of the open clause.
    open_agrees: bool,
}

impl Model for Comparison {
    ghost use Rattle.icnf.specs.Comparison.{Compared};
    ghost use Rattle.icnf.specs.inner.Comparison.{AreCounted};

    ghost Value = { Compared };

    ghost view = { λ c. record { count = c.count; at = c.at; total = c.total; greatest = c.greatest; open_greatest = c.open_greatest; agrees = c.agrees; open_agrees = c.open_agrees } };

    ghost invariant = { λ c. AreCounted (record { count = c.count; at = c.at; total = c.total; greatest = c.greatest; open_greatest = c.open_greatest; agrees = c.agrees; open_agrees = c.open_agrees }) };
}

/// Lends the formula's clause of index `i`, from 0; the empty clause if the text has more clauses
/// than the formula, so that the comparison fails there.
#[inline(always)]
fn clause_at(formula: &Formula, i: usize) -> &[Lit]
    ensures { result.now ≡ slice_index_or formula.now.clauses i [] }
{
    if i < formula.len() {
        formula.clause(i)
    } else {
        &[]
    }
}

/// Answers whether a clause has this literal at index `at`, from 0.
#[inline(always)]
fn has_at(clause: &[Lit], at: usize, literal: Lit) -> bool
    ensures { result ≡ has_at clause.now at literal }
{
    at < clause.len() && clause[at] == literal
}

/// Answers whether the formula has a clause of index `i`, from 0, and this clause has `len` literals.
fn ends_at(formula: &Formula, i: usize, len: usize) -> bool
    ensures { result ≡ ends_at formula.now.clauses i len }
{
    i < formula.len() && len == formula.clause(i).len()
}

impl Comparison {
    /// A comparison before the first literal.
    pub(crate) fn new() -> Comparison
        ensures { result ≡ none_compared }
    {
        Comparison {
            count: 0,
            at: 0,
            total: 0,
            greatest: 0,
            open_greatest: 0,
            agrees: true,
            open_agrees: true,
        }
    }

    /// Compares the next literal of the open clause with the formula's literal at that place.
    #[inline(always)]
    #[tactic(auto, unfolding(crate::specs::inner::Comparison::with_literal))]
    pub(crate) fn push(&mut self, formula: &Formula, literal: Lit)
        requires room { self.old.total < 999999999 }
        requires within { var_of literal ≤ 99999999 }
        ensures { self.new ≡ with_literal formula.now.clauses literal self.old }
    {
        let clause = clause_at(formula, self.count as usize);
        self.open_agrees = self.open_agrees && has_at(clause, self.at as usize, literal);
        self.at += 1;
        self.total += 1;
        self.open_greatest = self.open_greatest.max(literal.var().number());
    }

    /// Ends the open clause: it has to have as many literals as the formula's clause.
    #[tactic(auto, unfolding(crate::specs::inner::Comparison::with_end))]
    pub(crate) fn end_clause(&mut self, formula: &Formula)
        requires { self.old.count < 99999999 }
        ensures { self.new ≡ with_end formula.now.clauses self.old }
    {
        self.agrees = self.agrees
            && self.open_agrees
            && ends_at(formula, self.count as usize, self.at as usize);
        self.open_agrees = true;
        self.count += 1;
        self.at = 0;
        self.greatest = self.greatest.max(self.open_greatest);
        self.open_greatest = 0;
    }

    /// Answers the number of clauses that have ended.
    pub(crate) fn len(&self) -> usize
        ensures { result ≡ self.now.count }
    {
        self.count as usize
    }

    /// Answers the number of literals of all clauses, with those of the open one.
    pub(crate) fn literals(&self) -> usize
        ensures { result ≡ self.now.total }
    {
        self.total as usize
    }

    /// Answers whether the open clause has a literal.
    pub(crate) fn is_open(&self) -> bool
        ensures { MatchBool result (0 < self.now.at) (self.now.at ≡ 0) }
    {
        self.at > 0
    }

    /// Answers the greatest variable of the clauses that have ended, at most 99,999,999; 0 if they
    /// have no literal. A cube's variables may not exceed it.
    pub(crate) fn greatest(&self) -> u32
        ensures value { result ≡ self.now.greatest }
        ensures limit { result ≤ 99999999 }
    {
        self.greatest
    }

    /// Answers whether the clauses that have ended are all those of the formula.
    pub(crate) fn is_whole(&self, formula: &Formula) -> bool
        ensures { result ≡ self.now.agrees && (self.now.count == length formula.now.clauses) }
    {
        self.agrees && self.count as usize == formula.len()
    }
}
