//! The builder of formulas, clause by clause.

ghost use Rattle.std.specs.Prelude.{◌≡◌, ℕ, ◌+◌, ◌^◌, ◌<◌, ◌≤◌, max, [], ◌∷◌, ◌++◌, length, OnOk, OnErr, IfOk, MatchBool};
ghost use Rattle.dimacs.specs.logic.Cnf.{AreWithin, greatest_of, greatest_in};

use crate::extension::Extension;
use crate::formula::Formula;
use crate::literal::Lit;
use std::alloc::{AllocError, Global};
use std::marker::Model;

/// Builds a formula: it holds the clauses that have ended, and an open one. All literals lie in one vector, as in a formula. The number of
/// variables is given at the end.
#[derive(Drop)]
pub struct Builder {
    /// The literals, clause after clause, and those of the open clause after them.
    literals: Vec<Lit>,
    /// The offsets in `literals` at which the clauses begin; the last one is that of the open clause.
    places: Vec<u32>,
    /// The greatest variable of the literals; 0 if there is none.
    greatest: u32,
}

impl Model for Builder {
    ghost use Rattle.std.specs.Prelude.{ℕ, vec_len, drop};
    ghost use Rattle.dimacs.specs.layout.BuilderState.{BuilderState};
    ghost use Rattle.dimacs.specs.inner.BuilderLayout.{IsLaid};
    ghost use Rattle.dimacs.specs.layout.Flat.{parts, last_place};

    ghost Value = { BuilderState };

    ghost view = { λ b. record { done = parts b.literals.items b.places.items; open_clause = drop (last_place b.places.items) b.literals.items; total = vec_len b.literals } };

    ghost invariant = { λ b. IsLaid b.literals.items b.places.items b.greatest };
}

impl Builder {
    /// A builder without clauses, whose open clause is empty.
    pub fn new(alloc: Global) -> Result<Builder, AllocError>
        ensures { IfOk result (λ b. b ≡ record { done = []; open_clause = []; total = 0 }) }
    {
        let mut places = Vec::new(alloc);
        places.push(0)?;
        Ok(Builder {
            literals: Vec::new(alloc),
            places,
            greatest: 0,
        })
    }

    /// Appends a literal to the open clause. If memory is refused, the builder is as before.
    pub fn push(&mut self, literal: Lit) -> Result<(), AllocError>
        requires { self.old.total < 999999999 }
        ensures ok { OnOk result (self.new ≡ record self.old { open_clause = self.old.open_clause ++ literal ∷ []; total = self.old.total + 1 }) }
        ensures err { OnErr result (self.new ≡ self.old) }
    {
        self.literals.push(literal)?;
        self.greatest = self.greatest.max(literal.var().number());
        Ok(())
    }

    /// Ends the open clause, which may be empty, and opens a new one. If memory is refused, the builder is as before.
    pub fn end_clause(&mut self) -> Result<(), AllocError>
        requires { length self.old.done < 99999999 }
        ensures ok { OnOk result (self.new ≡ record self.old { done = self.old.done ++ self.old.open_clause ∷ []; open_clause = [] }) }
        ensures err { OnErr result (self.new ≡ self.old) }
    {
        let end = self.literals.len() as u32;
        self.places.push(end)?;
        Ok(())
    }

    /// Answers the number of clauses that have ended.
    pub fn len(&self) -> usize
        ensures { result ≡ length self.now.done }
    {
        self.places.len() - 1
    }

    /// Answers the number of literals, with those of the open clause.
    pub fn literals(&self) -> usize
        ensures { result ≡ self.now.total }
    {
        self.literals.len()
    }

    /// Answers whether the open clause has a literal.
    pub fn is_open(&self) -> bool
        ensures { MatchBool result (0 < length self.now.open_clause) (self.now.open_clause ≡ []) }
    {
        (self.places[self.places.len() - 1] as usize) < self.literals.len()
    }

    /// Answers the greatest variable so far, also of the open clause; 0 if there is no literal.
    pub fn greatest(&self) -> u32
        ensures value { result ≡ max (greatest_in self.now.done) (greatest_of self.now.open_clause) }
        ensures within { AreWithin result self.now.done }
        ensures limit { result < 2 ^ 31 }
    {
        self.greatest
    }

    /// Makes the formula of the clauses, over the variables from 1 to `vars`.
    pub fn finish(self, vars: u32) -> Result<Formula, AllocError>
        requires limit { vars ≤ 99999999 }
        requires closed { self.open_clause ≡ [] }
        requires within { AreWithin vars self.done }
        ensures { IfOk result (λ f. f ≡ record { vars = vars; clauses = self.done }) }
    {
        let Builder {
            literals,
            places,
            ..
        } = self;
        Formula::from_parts(vars, literals, places)
    }

    /// Makes an extension of the clauses, over the variables from 1 to `vars`, which may exceed a formula's limit.
    pub fn finish_extension(self, vars: u32) -> Extension
        requires closed { self.open_clause ≡ [] }
        requires within { AreWithin vars self.done }
        ensures { result ≡ record { vars = vars; clauses = self.done } }
    {
        let Builder {
            literals,
            places,
            ..
        } = self;
        Extension::from_parts(vars, literals, places)
    }
}
