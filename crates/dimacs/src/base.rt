//! The base of a proof: the clauses that it starts from, which are a formula's and those that were added after them.

ghost use Rattle.std.specs.Prelude.{◌≡◌, ◌+◌, ◌<◌, ◌≤◌, [], ◌∷◌, ◌++◌, length, slice_index_or, All, IfOk, OnOk, OnErr, vec_len};
ghost use Rattle.dimacs.specs.logic.Cnf.{IsBase, literal_count};
ghost use Rattle.dimacs.specs.layout.Flat.{parts, ArePlaces, Fills};
ghost use Rattle.dimacs.specs.logic.Literal.{IsWithin};

use crate::flat;
use crate::formula::Formula;
use crate::literal::Lit;
use std::alloc::{AllocError, Global};
use std::marker::Model;

/// A formula's clauses, and those that were added after them: unit clauses of pure literals, and definitions of new variables.
///
/// It has at most 199,999,999 variables, 200,000,190 clauses and 1,100,000,446 literals.
pub struct Base {
    /// The number of variables.
    vars: u32,
    /// The literals, clause after clause.
    literals: Vec<Lit>,
    /// The offsets in `literals` at which the clauses begin, and the end of the last one.
    places: Vec<u32>,
}

impl Drop for Base {
    fn drop(self) {
        let Base {
            vars: _,
            literals: _,
            places: _,
        } = self;
    }
}

impl Model for Base {
    ghost use Rattle.dimacs.specs.logic.Cnf.{Cnf, IsBase};
    ghost use Rattle.dimacs.specs.layout.Flat.{parts, Fills};

    ghost Value = { Cnf };

    ghost view = { λ b. record { vars = b.vars; clauses = parts b.literals.items b.places.items } };

    ghost invariant = { λ b. Fills b.literals.items b.places.items × IsBase (record { vars = b.vars; clauses = parts b.literals.items b.places.items }) };
}

impl Base {
    /// Makes a base of its number of variables, its literals, clause after clause, and the offsets at which the clauses begin, with the end
    /// of the last one.
    pub(crate) fn from_parts(vars: u32, literals: Vec<Lit>, places: Vec<u32>) -> Base
        requires places { Fills literals.items places.items }
        requires valid { IsBase (record { vars = vars; clauses = parts literals.items places.items }) }
        ensures { result ≡ record { vars = vars; clauses = parts literals.items places.items } }
    {
        Base {
            vars,
            literals,
            places,
        }
    }

    /// Takes the base apart: answers its number of variables, its literals, clause after clause, and the offsets at which the clauses
    /// begin, with the end of the last one.
    pub(crate) fn into_parts(self) -> (u32, Vec<Lit>, Vec<u32>)
        ensures value { self ≡ record { vars = result.0; clauses = parts result.1.items result.2.items } }
        ensures fills { Fills result.1.items result.2.items }
    {
        let Base {
            vars,
            literals,
            places,
        } = self;
        (vars, literals, places)
    }

    /// Lends the literals, clause after clause, and the offsets at which the clauses begin, with the end of the last one.
    pub(crate) fn parts(&self) -> (&[Lit], &[u32])
        ensures clauses { parts result.0.now result.1.now ≡ self.now.clauses }
        ensures fills { Fills result.0.now result.1.now }
    {
        (&self.literals, &self.places)
    }

    /// Makes a base of a copy of the formula's clauses, with none added.
    pub fn of(alloc: Global, formula: &Formula) -> Result<Base, AllocError>
        ensures { IfOk result (λ b. b ≡ formula.now) }
    {
        formula.as_base().copy(alloc)
    }

    /// Makes a copy of the base.
    pub fn copy(&self, alloc: Global) -> Result<Base, AllocError>
        ensures { IfOk result (λ b. b ≡ self.now) }
    {
        Ok(Base {
            vars: self.vars,
            literals: Vec::from_slice(alloc, &self.literals)?,
            places: Vec::from_slice(alloc, &self.places)?,
        })
    }

    /// Answers the number of variables, at most 199,999,999: the greatest variable that a clause may name.
    pub fn vars(&self) -> u32
        ensures value { result ≡ self.now.vars }
        ensures limit { result ≤ 199999999 }
        ensures valid { IsBase self.now }
    {
        self.vars
    }

    /// Answers the number of clauses.
    #[tactic(auto, using(crate::proofs::FlatLemmas::length_parts))]
    pub fn len(&self) -> usize
        ensures { result ≡ length self.now.clauses }
    {
        self.places.len() - 1
    }

    /// Lends the clause of index `i`, from 0.
    pub fn clause(&self, i: usize) -> &[Lit]
        requires { i < length self.now.clauses }
        ensures clause { result.now ≡ slice_index_or self.now.clauses i [] }
        ensures within { All (IsWithin self.now.vars) result.now }
        ensures valid { IsBase self.now }
    {
        flat::clause_at(&self.literals, &self.places, i)
    }

    /// Copies the literals, clause after clause, and the offsets at which the clauses begin, with the end of the last one.
    pub fn copy_parts(&self, alloc: Global) -> Result<(Vec<Lit>, Vec<u32>), AllocError>
        ensures clauses { IfOk result (λ p. parts p.0.items p.1.items ≡ self.now.clauses) }
        ensures places { IfOk result (λ p. ArePlaces p.1.items (vec_len p.0)) }
    {
        Ok((
            Vec::from_slice(alloc, &self.literals)?,
            Vec::from_slice(alloc, &self.places)?,
        ))
    }

    /// Appends a clause. If memory is refused, the base is as before.
    pub fn push_clause(&mut self, clause: &[Lit]) -> Result<(), AllocError>
        requires room { length self.old.clauses < 200000190 }
        requires literals { literal_count self.old.clauses + length clause.now ≤ 1100000446 }
        requires within { All (IsWithin self.old.vars) clause.now }
        ensures ok { OnOk result (self.new ≡ record self.old { clauses = self.old.clauses ++ clause.now ∷ [] }) }
        ensures err { OnErr result (self.new ≡ self.old) }
    {
        flat::push_clause(&mut self.literals, &mut self.places, clause)?;
        Ok(())
    }

    /// Adds `more` new variables after the existing ones.
    pub fn add_vars(&mut self, more: u32)
        requires { self.old.vars + more ≤ 199999999 }
        ensures { self.new ≡ record self.old { vars = self.old.vars + more } }
    {
        self.vars += more;
    }
}
