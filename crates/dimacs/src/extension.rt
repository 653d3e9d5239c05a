//! Extensions: clauses that are to be added to a formula.

ghost use Rattle.std.specs.Prelude.{◌≡◌, ◌<◌, ◌≤◌, [], length, slice_index_or, All, IfOk, vec_len};
ghost use Rattle.dimacs.specs.logic.Cnf.{AreWithin};
ghost use Rattle.dimacs.specs.layout.Flat.{parts, Fills};
ghost use Rattle.dimacs.specs.logic.Literal.{IsWithin};

use crate::flat;
use crate::literal::Lit;
use std::alloc::{AllocError, Global};
use std::marker::Model;

/// Clauses to be added to a formula, and the least number of variables that the formula has afterwards. There are at most 99,999,999
/// clauses, with 999,999,999 literals, and maybe none. The number of variables may exceed a formula's limit.
#[derive(Drop)]
pub struct Extension {
    /// The least number of variables of the extended formula.
    vars: u32,
    /// The literals, clause after clause.
    literals: Vec<Lit>,
    /// The offsets in `literals` at which the clauses begin, and the end of the last one.
    places: Vec<u32>,
}

impl Model for Extension {
    ghost use Rattle.std.specs.Prelude.{◌≤◌, All, vec_len};
    ghost use Rattle.dimacs.specs.logic.Cnf.{Cnf};
    ghost use Rattle.dimacs.specs.logic.Literal.{IsWithin};
    ghost use Rattle.dimacs.specs.layout.Flat.{parts, Fills};

    ghost Value = { Cnf };

    ghost view = { λ x. record { vars = x.vars; clauses = parts x.literals.items x.places.items } };

    ghost invariant = { λ x. Fills x.literals.items x.places.items × All (IsWithin x.vars) x.literals.items × (vec_len x.places ≤ 100000000) × (vec_len x.literals ≤ 999999999) };
}

impl Extension {
    /// Makes an extension of its number of variables, its literals, clause after clause, and the offsets at which the clauses begin, with
    /// the end of the last one.
    pub(crate) fn from_parts(vars: u32, literals: Vec<Lit>, places: Vec<u32>) -> Extension
        requires places { Fills literals.items places.items }
        requires within { All (IsWithin vars) literals.items }
        requires count { vec_len places ≤ 100000000 }
        requires total { vec_len literals ≤ 999999999 }
        ensures { result ≡ record { vars = vars; clauses = parts literals.items places.items } }
    {
        Extension {
            vars,
            literals,
            places,
        }
    }

    /// Answers the least number of variables that the extended formula has: the greatest variable that a clause may name.
    pub fn vars(&self) -> u32
        ensures value { result ≡ self.now.vars }
        ensures within { AreWithin self.now.vars self.now.clauses }
    {
        self.vars
    }

    /// Answers the number of clauses, at most 99,999,999.
    #[tactic(auto, using(crate::proofs::FlatLemmas::length_parts))]
    pub fn len(&self) -> usize
        ensures value { result ≡ length self.now.clauses }
        ensures limit { result ≤ 99999999 }
    {
        self.places.len() - 1
    }

    /// Lends the clause of index `i`, from 0.
    pub fn clause(&self, i: usize) -> &[Lit]
        requires { i < length self.now.clauses }
        ensures clause { result.now ≡ slice_index_or self.now.clauses i [] }
        ensures within { All (IsWithin self.now.vars) result.now }
    {
        flat::clause_at(&self.literals, &self.places, i)
    }

    /// Lends the literals, clause after clause, and the offsets at which the clauses begin, with the end of the last one.
    pub(crate) fn parts(&self) -> (&[Lit], &[u32])
        ensures clauses { parts result.0.now result.1.now ≡ self.now.clauses }
        ensures fills { Fills result.0.now result.1.now }
    {
        (&self.literals, &self.places)
    }

    /// Makes a copy of the extension.
    pub fn copy(&self, alloc: Global) -> Result<Extension, AllocError>
        ensures { IfOk result (λ x. x ≡ self.now) }
    {
        Ok(Extension {
            vars: self.vars,
            literals: Vec::from_slice(alloc, &self.literals)?,
            places: Vec::from_slice(alloc, &self.places)?,
        })
    }
}
