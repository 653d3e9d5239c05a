//! The preamble of a formula: the unit clauses and definitions that are added to the formula before it is split.

ghost use Rattle.std.specs.Prelude.{◌≡◌, ◌↔◌, ◌+◌, ◌*◌, ◌≤◌, ◌++◌, ◌∷◌, [], None, length, unwrap_or, All, IfOk, OnOk, OnErr};
ghost use Rattle.dimacs.specs.logic.Base.{pure_literals, base_of};
ghost use Rattle.dimacs.specs.logic.Cnf.{IsFormula, literal_count};
ghost use Rattle.dimacs.specs.logic.Literal.{IsWithin};
ghost use Rattle.cube_split.specs.Definitions.{IsPairOf, all_clauses, base_with, opened, pure_opening, with_definitions};
ghost use Rattle.cube_split.specs.SplitTree.{with_units};

use crate::pair::Pair;
use dimacs::{Base, Formula, Lit, Var};
use std::alloc::{AllocError, Global};
use std::marker::Model;

/// A preamble: the literals of unit clauses, at most one for each variable, and the pairs for which variables are defined, at most 64. The
/// first pair defines the variable after the formula's last one, and so on.
#[derive(Drop)]
pub struct Preamble {
    units: Vec<Lit>,
    pairs: Vec<Pair>,
}

impl Model for Preamble {
    ghost use Rattle.std.specs.Prelude.{◌≤◌, length};
    ghost use Rattle.cube_split.specs.Definitions.{Opening};

    ghost Value = { Opening };

    ghost view = { λ p. record { units = p.units.items; pairs = p.pairs.items } };

    ghost invariant = { λ p. (length p.units.items ≤ 99999999) × (length p.pairs.items ≤ 64) };
}

impl Preamble {
    /// A preamble of these unit clauses and pairs.
    pub(crate) fn new(units: Vec<Lit>, pairs: Vec<Pair>) -> Preamble
        requires units { length units.items ≤ 99999999 }
        requires pairs { length pairs.items ≤ 64 }
        ensures { result ≡ record { units = units.items; pairs = pairs.items } }
    {
        Preamble { units, pairs }
    }

    /// The literals of the unit clauses.
    pub fn units(&self) -> &[Lit]
        ensures value { result.now ≡ self.now.units }
        ensures limit { length result.now ≤ 99999999 }
    {
        &self.units
    }

    /// The pairs for which variables are defined: pair i, from 0, defines the variable `vars` + 1 + i.
    pub fn pairs(&self) -> &[Pair]
        ensures value { result.now ≡ self.now.pairs }
        ensures limit { length result.now ≤ 64 }
    {
        &self.pairs
    }

    /// Makes the base: the formula, followed by the unit clauses and the clauses of the definitions.
    pub fn base(&self, alloc: Global, formula: &Formula) -> Result<Base, AllocError>
        requires units { All (IsWithin formula.now.vars) self.now.units }
        requires pairs { All (IsPairOf formula.now.vars) self.now.pairs }
        ensures opened { IfOk result (λ b. b ≡ opened formula.now self.now) }
        // With the formula's own pure literals as units it is the base that the formula's definition says.
        ensures base { self.now.units ≡ pure_literals formula.now → IfOk result (λ b. b ≡ base_with formula.now self.now.pairs) }
        // Without definitions it is the base of the formula and its pure literals.
        ensures plain { self.now ≡ pure_opening formula.now → IfOk result (λ b. b ≡ base_of formula.now) }
    {
        let _ = formula.vars(); // for proofs: the formula is within its limits
        append_definitions(
            append_units(Base::of(alloc, formula)?, &self.units)?,
            &self.pairs,
        )
    }

    /// Makes the base; None if nothing is added, so that the formula is its own base, which takes no memory.
    pub fn own_base(&self, alloc: Global, formula: &Formula) -> Result<Option<Base>, AllocError>
        requires units { self.now.units ≡ pure_literals formula.now }
        requires pairs { All (IsPairOf formula.now.vars) self.now.pairs }
        ensures base { IfOk result (λ found. unwrap_or found formula.now ≡ base_with formula.now self.now.pairs) }
        ensures none { IfOk result (λ found. found ≡ None ↔ (self.now.units ≡ []) × (self.now.pairs ≡ [])) }
        ensures memory { OnErr result (¬ ((self.now.units ≡ []) × (self.now.pairs ≡ []))) }
    {
        if self.units.is_empty() && self.pairs.is_empty() {
            return Ok(None);
        }
        Ok(Some(self.base(alloc, formula)?))
    }
}

/// The base that [`Preamble::own_base`] made, or the formula itself if it made none.
pub fn base_or<'a>(own: &'a Option<Base>, formula: &'a Formula) -> &'a Base
    ensures { result.now ≡ unwrap_or own.now formula.now }
{
    match own {
        Some(base) => base,
        None => formula.as_base(),
    }
}

/// Appends unit clauses to a base that is a formula.
fn append_units(front: Base, units: &[Lit]) -> Result<Base, AllocError>
    requires formula { IsFormula front }
    requires limit { length units.now ≤ 99999999 }
    requires within { All (IsWithin front.vars) units.now }
    ensures { IfOk result (λ b. b ≡ with_units front units.now) }
{
    let mut base = front;
    for unit in units {
        base.push_clause(&[*unit])?;
    }
    Ok(base)
}

/// Appends the three clauses that define a variable as the conjunction of a pair of literals of lower variables.
fn push_definition(base: &mut Base, variable: Var, pair: Pair) -> Result<(), AllocError>
    requires pair { IsPairOf variable pair }
    requires variable { variable ≤ base.old.vars }
    requires room { length base.old.clauses + 3 ≤ 200000190 }
    requires literals { literal_count base.old.clauses + 7 ≤ 1100000446 }
    ensures { OnOk result (base.new ≡ record base.old { clauses = base.old.clauses ++ all_clauses variable (pair ∷ []) }) }
{
    let defined = Lit::positive(variable);
    base.push_clause(&[defined, pair.first.negate(), pair.second.negate()])?;
    base.push_clause(&[defined.negate(), pair.first])?;
    base.push_clause(&[defined.negate(), pair.second])?;
    Ok(())
}

/// Adds a variable for each pair, and appends the clauses that define it.
fn append_definitions(front: Base, pairs: &[Pair]) -> Result<Base, AllocError>
    requires vars { front.vars ≤ 99999999 }
    requires clauses { length front.clauses ≤ 199999998 }
    requires literals { literal_count front.clauses ≤ 1099999998 }
    requires limit { length pairs.now ≤ 64 }
    requires within { All (IsPairOf front.vars) pairs.now }
    ensures { IfOk result (λ b. b ≡ with_definitions front pairs.now) }
{
    let mut base = front;
    let mut variable = base.vars();
    base.add_vars(pairs.len() as u32);
    for &pair in pairs {
        variable += 1;
        push_definition(&mut base, Var::new(variable), pair)?;
    }
    Ok(base)
}
