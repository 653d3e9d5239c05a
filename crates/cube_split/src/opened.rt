//! A formula with its preamble.

ghost use Rattle.std.specs.Prelude.{◌≡◌, ◌≤◌, All, IfOk};
ghost use Rattle.dimacs.specs.logic.Base.{pure_literals};
ghost use Rattle.cube_split.specs.Definitions.{IsPairOf};
ghost use Rattle.cube_split.specs.Pairs.{AreOf};

use crate::pure::preamble_with;
use crate::units::Preamble;
use dimacs::Formula;
use std::alloc::{AllocError, Global};
use std::marker::Model;

/// A formula with its preamble: the units of its pure literals, and as many definitions as wanted, or fewer if no pair is left.
/// Several machines can begin on one of these, so that the preamble is computed once.
pub struct Opened {
    formula: Formula,
    /// The number of definitions that are wanted, 0 to 64.
    defs: u32,
    preamble: Preamble,
}

impl Drop for Opened {
    fn drop(self) {
        let Opened {
            formula: _,
            defs: _,
            preamble: _,
        } = self;
    }
}

impl Model for Opened {
    ghost use Rattle.std.specs.Prelude.{◌≡◌};
    ghost use Rattle.dimacs.specs.logic.Base.{pure_literals};
    ghost use Rattle.cube_split.specs.Pairs.{AreOf, OpenedFormula};

    ghost Value = { OpenedFormula };

    ghost view = { λ o. record { formula = o.formula; definitions = record { wanted = o.defs; pairs = o.preamble.pairs } } };

    ghost invariant = { λ o. (o.preamble.units ≡ pure_literals o.formula) × AreOf o.formula (record { wanted = o.defs; pairs = o.preamble.pairs }) };
}

impl Opened {
    /// Computes the preamble of a formula, with `defs` definitions, 0 to 64, or fewer if no pair is left.
    pub fn of(alloc: Global, formula: Formula, defs: u32) -> Result<Opened, AllocError>
        requires { defs ≤ 64 }
        ensures formula { IfOk result (λ o. o.formula ≡ formula) }
        ensures wanted { IfOk result (λ o. o.definitions.wanted ≡ defs) }
        ensures defined { IfOk result (λ o. AreOf o.formula o.definitions) }
    {
        let preamble = preamble_with(alloc, &formula, defs)?;
        Ok(Opened {
            formula,
            defs,
            preamble,
        })
    }

    /// The formula.
    pub fn formula(&self) -> &Formula
        ensures { result.now ≡ self.now.formula }
    {
        &self.formula
    }

    /// The number of definitions that are wanted, 0 to 64.
    pub fn defs(&self) -> u32
        ensures { result ≡ self.now.definitions.wanted }
    {
        self.defs
    }

    /// The preamble of the formula.
    pub fn preamble(&self) -> &Preamble
        ensures units { result.now.units ≡ pure_literals self.now.formula }
        ensures pairs { result.now.pairs ≡ self.now.definitions.pairs }
        ensures defined { AreOf self.now.formula self.now.definitions }
        ensures inside { All (IsPairOf self.now.formula.vars) result.now.pairs }
    {
        &self.preamble
    }

    /// Hands out the formula, the number of definitions that are wanted, and the preamble.
    pub fn into_parts(self) -> (Formula, u32, Preamble)
        ensures whole { record { formula = result.0; definitions = record { wanted = result.1; pairs = result.2.pairs } } ≡ self }
        ensures units { result.2.units ≡ pure_literals result.0 }
        ensures defined { AreOf result.0 (record { wanted = result.1; pairs = result.2.pairs }) }
    {
        let Opened {
            formula,
            defs,
            preamble,
        } = self;
        (formula, defs, preamble)
    }
}
