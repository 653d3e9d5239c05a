//! Formulas in conjunctive normal form.

ghost use Rattle.std.specs.Prelude.{OnErr, ◌≡◌, ◌↔◌, ◌<◌, ◌≤◌, [], length, slice_index_or, All, IfOk, IsTrue, MatchOption, vec_len};
ghost use Rattle.dimacs.specs.logic.Cnf.{FitsIn, IsFormula};
ghost use Rattle.dimacs.specs.logic.Extension.{extended};
ghost use Rattle.dimacs.specs.logic.Limits.{AreNoMore, written, large};
ghost use Rattle.dimacs.specs.layout.Flat.{parts, Fills};
ghost use Rattle.dimacs.specs.logic.Literal.{IsWithin};

use crate::base::Base;
use crate::extension::Extension;
use crate::flat;
use crate::limits::Limits;
use crate::literal::Lit;
use std::alloc::{AllocError, Global};
use std::marker::Model;
use std::rc::Rc;

/// A formula of at most 99,999,999 variables, 99,999,999 clauses and 999,999,999 literals.
///
/// No call changes a formula, so copies share its clauses (`Rc`): all nodes of a process hold them once.
pub struct Formula {
    /// The variables and clauses, as a base to which no clause was added; [`Formula::as_base`] lends it.
    base: Rc<Base>,
}

impl Drop for Formula {
    fn drop(self) {
        let Formula { base: _ } = self;
    }
}

impl Model for Formula {
    ghost use Rattle.dimacs.specs.logic.Cnf.{Cnf, IsFormula};

    ghost Value = { Cnf };

    ghost view = { λ f. f.base.value };

    ghost invariant = { λ f. IsFormula f.base.value };
}

/// Answers whether these numbers of variables, clauses and literals are within the limits.
fn are_few(limits: Limits, vars: u32, clauses: usize, literals: usize) -> bool
    ensures few { IsTrue result ↔ (vars ≤ limits.vars) × (clauses ≤ limits.clauses) × (literals ≤ limits.literals) }
    ensures valid { AreNoMore limits large }
{
    let most_vars = limits.vars();
    let most_clauses = limits.clauses() as usize;
    let most_literals = limits.literals() as usize;
    vars <= most_vars && clauses <= most_clauses && literals <= most_literals
}

impl Formula {
    /// Makes a formula of its number of variables, its literals, clause after clause, and the offsets at which the clauses begin, with the
    /// end of the last one.
    pub(crate) fn from_parts(
        vars: u32,
        literals: Vec<Lit>,
        places: Vec<u32>,
    ) -> Result<Formula, AllocError>
        requires limit { vars ≤ 99999999 }
        requires places { Fills literals.items places.items }
        requires within { All (IsWithin vars) literals.items }
        requires count { vec_len places ≤ 100000000 }
        requires total { vec_len literals ≤ 999999999 }
        ensures { IfOk result (λ f. f ≡ record { vars = vars; clauses = parts literals.items places.items }) }
    {
        let alloc = *literals.allocator();
        let base = Rc::new(alloc, Base::from_parts(vars, literals, places))?;
        Ok(Formula { base })
    }

    /// Takes the formula apart: answers its number of variables, its literals, clause after clause, and the offsets at which the clauses
    /// begin, with the end of the last one. They are copied if another copy of the formula shares them.
    pub fn into_parts(self, alloc: Global) -> Result<(u32, Vec<Lit>, Vec<u32>), AllocError>
        ensures value { IfOk result (λ p. self ≡ record { vars = p.0; clauses = parts p.1.items p.2.items }) }
        ensures fills { IfOk result (λ p. Fills p.1.items p.2.items) }
        ensures valid { IsFormula self }
    {
        let Formula { base } = self;
        match Rc::try_unwrap(base) {
            Ok(alone) => Ok(alone.into_parts()),
            Err(shared) => Ok(shared.copy(alloc)?.into_parts()),
        }
    }

    /// Answers the number of variables, at most 99,999,999: the greatest variable that a clause may name.
    pub fn vars(&self) -> u32
        ensures value { result ≡ self.now.vars }
        ensures limit { result ≤ 99999999 }
        ensures valid { IsFormula self.now }
    {
        self.base.vars()
    }

    /// Answers the number of clauses, at most 99,999,999.
    pub fn len(&self) -> usize
        ensures { result ≡ length self.now.clauses }
    {
        self.base.len()
    }

    /// Lends the clause of index `i`, from 0.
    pub fn clause(&self, i: usize) -> &[Lit]
        requires { i < length self.now.clauses }
        ensures clause { result.now ≡ slice_index_or self.now.clauses i [] }
        ensures within { All (IsWithin self.now.vars) result.now }
    {
        self.base.clause(i)
    }

    /// Lends the formula as a base to which no clause was added.
    pub fn as_base(&self) -> &Base
        ensures { result.now ≡ self.now }
    {
        &self.base
    }

    /// Answers the same formula, which shares its clauses with this one. It copies no clause.
    pub fn copy(&self) -> Result<Formula, AllocError>
        ensures { IfOk result (λ f. f ≡ self.now) }
    {
        Ok(Formula {
            base: self.base.clone()?,
        })
    }

    /// Answers the formula with the extension's clauses after its own, over the greater number of variables. `None`, for which nothing is
    /// allocated, if that is above one of these limits of a formula. It takes time linear in the size of both.
    pub fn extended_within(
        &self,
        alloc: Global,
        limits: Limits,
        extension: &Extension,
    ) -> Result<Option<Formula>, AllocError>
        ensures found { IfOk result (λ found. MatchOption found
            (¬ (FitsIn limits (extended self.now extension.now)))
            (λ f. (f ≡ extended self.now extension.now) × FitsIn limits (extended self.now extension.now))) }
        // memory is asked for only if the extended formula is within the limits
        ensures limits { OnErr result (FitsIn limits (extended self.now extension.now)) }
        // what is within the limits is a formula
        ensures formula { FitsIn limits (extended self.now extension.now) → IsFormula (extended self.now extension.now) }
    {
        let (literals, places) = self.as_base().parts();
        let (more, ends) = extension.parts();
        let vars = self.vars().max(extension.vars());
        let clauses = self.len() + extension.len();
        let count = literals.len() + more.len();
        if !are_few(limits, vars, clauses, count) {
            return Ok(None);
        }
        let (literals, places) = flat::joined(alloc, literals, places, more, ends)?;
        Ok(Some(Formula::from_parts(vars, literals, places)?))
    }

    /// Answers the formula with the extension's clauses after its own, over the greater number of
    /// variables; `None` if that is above a written limit.
    pub fn extended(
        &self,
        alloc: Global,
        extension: &Extension,
    ) -> Result<Option<Formula>, AllocError>
        ensures found { IfOk result (λ found. MatchOption found
            (¬ (FitsIn written (extended self.now extension.now)))
            (λ f. (f ≡ extended self.now extension.now) × FitsIn written (extended self.now extension.now))) }
        // memory is asked for only if the extended formula is within the limits
        ensures limits { OnErr result (FitsIn written (extended self.now extension.now)) }
        // what is within the limits is a formula
        ensures formula { FitsIn written (extended self.now extension.now) → IsFormula (extended self.now extension.now) }
    {
        self.extended_within(alloc, Limits::written(), extension)
    }
}
