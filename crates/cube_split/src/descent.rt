//! A depth-first descent through the tree that the split rule makes, which also follows the pairs of defined variables.

ghost use Rattle.std.specs.Prelude.{ℕ, ◌+◌, ◌≤◌, ◌++◌, ◌∷◌, List, [], Some, length, All, IfOk};
ghost use Rattle.dimacs.specs.logic.Cnf.{Cnf};
ghost use Rattle.dimacs.specs.logic.Literal.{Literal, var_of};
ghost use Rattle.icnf.specs.Leaves.{Cube};
ghost use Rattle.cube_split.specs.ChoiceWithDefinitions.{Chooses, held_by};
ghost use Rattle.cube_split.specs.Definitions.{IsPairOf, Opening};
ghost use Rattle.cube_split.specs.inner.DescentInvariant.{IsDescentAt, IsTrailOf};

use crate::definitions::{first_undecided, held_pair};
use crate::pair::Pair;
use crate::units::Preamble;
use crate::walk::Walk;
use dimacs::{Formula, Lit, Var};
use std::alloc::{AllocError, Global};

/// A descent along a path from the root. With a literal that defines a pair, the walk also enters both literals of the pair.
#[derive(Drop)]
pub(crate) struct Descent {
    /// The walk along the literals that hold.
    pub walk: Walk,
    /// The number of the formula's variables.
    pub vars: u32,
    /// The pairs that define the variables from `vars` + 1 on.
    pub pairs: Vec<Pair>,
}

impl Descent {
    /// A descent at the root of the tree of a formula and its preamble.
    pub(crate) fn begin(
        alloc: Global,
        formula: &Formula,
        preamble: &Preamble,
    ) -> Result<Descent, AllocError>
        requires { All (IsPairOf formula.now.vars) preamble.now.pairs }
        ensures { IfOk result (IsDescentAt formula.now preamble.now [] []) }
    {
        let walk = Walk::begin(alloc, formula, preamble)?;
        let mut pairs = Vec::new(alloc);
        pairs.extend_from_slice(preamble.pairs())?;
        Ok(Descent {
            walk,
            vars: formula.vars(),
            pairs,
        })
    }

    /// The variable on which the cube of the path is split; None if it is not split.
    pub(crate) fn choice(&self) -> Option<Var>
        requires { (F : Cnf) × (opening : Opening) × (path : Cube) × (trail : Cube) × IsDescentAt F opening path trail self.now }
        ensures { (F : Cnf) (opening : Opening) (path trail : Cube) → IsDescentAt F opening path trail self.now → Chooses F opening path result }
    {
        if let Some(defined) = first_undecided(&self.walk.marks, self.vars, &self.pairs) {
            return Some(defined);
        }
        self.walk.choice()
    }

    /// Goes down to the branch of this literal: puts it on the walk's trail, and with a defined
    /// variable the two literals that it implies.
    pub(crate) fn enter(&mut self, literal: Lit)
        requires { (F : Cnf) × (opening : Opening) × (path : Cube) × (trail : Cube) × IsDescentAt F opening path trail self.old × (var_of literal ≤ F.vars + length opening.pairs) × (length path ≤ 64) }
        ensures { (F : Cnf) (opening : Opening) (path trail : Cube) → IsDescentAt F opening path trail self.old →
            IsDescentAt F opening (path ++ literal ∷ []) (trail ++ literal ∷ held_by (literal ∷ []) (F.vars + 1) opening.pairs) self.new }
    {
        self.walk.enter(literal);
        if let Some(pair) = held_pair(self.vars, &self.pairs, literal) {
            self.walk.enter(pair.first);
            self.walk.enter(pair.second);
        }
    }

    /// Goes back up from the branch of this literal, the last of the path: takes it off the walk's
    /// trail, and the literals that went on with it.
    pub(crate) fn leave(&mut self, literal: Lit)
        requires { (F : Cnf) × (opening : Opening) × (path : Cube) × (trail : Cube) × IsTrailOf F opening path trail × Chooses F opening path (Some (var_of literal))
            × IsDescentAt F opening (path ++ literal ∷ []) (trail ++ literal ∷ held_by (literal ∷ []) (F.vars + 1) opening.pairs) self.old }
        ensures { (F : Cnf) (opening : Opening) (path trail : Cube) → IsTrailOf F opening path trail → Chooses F opening path (Some (var_of literal)) →
            IsDescentAt F opening (path ++ literal ∷ []) (trail ++ literal ∷ held_by (literal ∷ []) (F.vars + 1) opening.pairs) self.old → IsDescentAt F opening path trail self.new }
    {
        if let Some(pair) = held_pair(self.vars, &self.pairs, literal) {
            self.walk.leave(pair.second);
            self.walk.leave(pair.first);
        }
        self.walk.leave(literal);
    }
}
