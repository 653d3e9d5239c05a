//! Cubes: the literals that a task assumes.

ghost use Rattle.std.specs.Prelude.{◌≡◌, ◌≤◌, ◌<◌, [], ◌∷◌, ◌++◌, length, IfOk, OnOk, OnErr, IsTrue, ◌↔◌};
ghost use Rattle.std.specs.List.{list_any};
ghost use Rattle.frames.specs.Cubes.{IsCube, names, takes};

use dimacs::Lit;
use std::alloc::{AllocError, Global};
use std::marker::Model;

/// A cube: literals that are assumed together, in order. They are at most 64, of variables up to 2,000,000, no variable twice.
#[derive(Debug, Drop)]
pub struct Cube {
    literals: Vec<Lit>,
}

impl Model for Cube {
    ghost use Rattle.std.specs.Prelude.{List};
    ghost use Rattle.dimacs.specs.logic.Literal.{Literal};
    ghost use Rattle.frames.specs.Cubes.{IsCube};

    ghost Value = { List Literal };

    ghost view = { λ c. c.literals.items };

    ghost invariant = { λ c. IsCube c.literals.items };
}

impl Cube {
    /// The greatest number of literals of a cube.
    pub const LONGEST: usize = 64;

    /// The greatest variable of a cube.
    pub const VARIABLES: u32 = 2000000;

    /// An empty cube.
    pub fn new(alloc: Global) -> Cube
        ensures { result ≡ [] }
    {
        Cube {
            literals: Vec::new(alloc),
        }
    }

    /// A cube with a copy of these literals.
    pub fn from_slice(alloc: Global, literals: &[Lit]) -> Result<Cube, AllocError>
        requires { IsCube literals.now }
        ensures { IfOk result (λ c. c ≡ literals.now) }
    {
        let literals = Vec::from_slice(alloc, literals)?;
        Ok(Cube { literals })
    }

    /// Whether a literal may be appended: the cube has fewer than 64 literals, and the literal's
    /// variable is at most 2,000,000 and not in the cube.
    pub fn takes(&self, literal: Lit) -> bool
        ensures { result ≡ takes self.now literal }
    {
        self.literals.len() < Cube::LONGEST
            && literal.var().number() <= Cube::VARIABLES
            && !has_variable(&self.literals, literal.var().number())
    }

    /// Appends a literal. If memory is refused, the cube is unchanged.
    pub fn push(&mut self, literal: Lit) -> Result<(), AllocError>
        requires { IsTrue (takes self.old literal) }
        ensures ok { OnOk result (self.new ≡ self.old ++ literal ∷ []) }
        ensures err { OnErr result (self.new ≡ self.old) }
    {
        // `number` ensures that the variable is at least 1, which the invariant asks for.
        let _ = literal.var().number();
        self.literals.push(literal)?;
        Ok(())
    }

    /// A copy of the cube.
    pub fn copy(&self, alloc: Global) -> Result<Cube, AllocError>
        ensures { IfOk result (λ c. c ≡ self.now) }
    {
        let literals = Vec::from_slice(alloc, &self.literals)?;
        Ok(Cube { literals })
    }

    /// The number of literals, at most 64.
    #[inline]
    pub fn len(&self) -> usize
        ensures value { result ≡ length self.now }
        ensures below { result ≤ 64 }
    {
        self.literals.len()
    }

    /// Whether the cube has no literal.
    #[inline]
    pub fn is_empty(&self) -> bool
        ensures { IsTrue result ↔ (length self.now ≡ 0) }
    {
        self.literals.is_empty()
    }

    /// The literals, in order.
    #[inline]
    pub fn as_slice(&self) -> &[Lit]
        ensures value { result.now ≡ self.now }
        ensures cube { IsCube self.now }
    {
        self.literals.as_slice()
    }
}

/// Whether one of these literals is of the variable.
fn has_variable(literals: &[Lit], variable: u32) -> bool
    ensures { result ≡ list_any (names variable) literals.now }
{
    literals.iter().any(|l| l.var().number() == variable)
}
