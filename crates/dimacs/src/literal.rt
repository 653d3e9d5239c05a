//! Variables and literals.

ghost use Rattle.std.specs.Prelude.{◌≡◌, ℕ, ◌+◌, ◌*◌, ◌^◌, ◌<◌, ◌≤◌, IsTrue};
ghost use Rattle.dimacs.specs.logic.Literal.{Literal, Pos, Neg, negation, var_of, index_of, number_of, is_negative, has};

use std::marker::Model;

/// A variable, numbered from 1.
#[derive(Clone, Copy, Debug, PartialEq, Eq)]
pub struct Var {
    /// The variable's number, from 1.
    number: u32,
}

impl Model for Var {
    ghost use Rattle.std.specs.Prelude.{ℕ, ◌≤◌, ◌<◌, ◌^◌};

    ghost Value = { ℕ };

    ghost view = { λ v. v.number };

    ghost invariant = { λ v. (1 ≤ v.number) × (v.number < 2 ^ 31) };

    ghost inverse = { λ n. record { number = n } };
}

impl Var {
    /// The variable of this number, which is from 1 to 2^31 - 1.
    pub fn new(number: u32) -> Var
        requires above { 1 ≤ number }
        requires below { number < 2 ^ 31 }
        ensures { result ≡ number }
    {
        Var { number }
    }

    /// Answers the variable's number, from 1.
    pub fn number(self) -> u32
        ensures value { result ≡ self }
        ensures above { 1 ≤ result }
        ensures below { result < 2 ^ 31 }
    {
        self.number
    }
}

/// A literal: a variable, or its negation.
#[derive(Clone, Copy, Debug, PartialEq, Eq)]
pub struct Lit {
    /// Twice the variable's number, plus 1 if the literal is negated.
    code: u32,
}

impl Model for Lit {
    ghost use Rattle.std.specs.Prelude.{◌≤◌};
    ghost use Rattle.dimacs.specs.logic.Literal.{Literal, literal_of, index_of};
    ghost use Rattle.dimacs.specs.inner.Codes.{index_of-literal_of};

    ghost Value = { Literal };

    ghost view = { λ l. literal_of l.code };

    ghost invariant = { λ l. 2 ≤ l.code };

    ghost inverse = { λ l. record { code = index_of l } };

    ghost inverse_ok = { λ s h i. record { code = index_of-literal_of s.code i } };
}

impl Lit {
    /// The literal that is the variable itself.
    pub fn positive(var: Var) -> Lit
        ensures { result ≡ Pos var }
    {
        Lit {
            code: 2 * var.number(),
        }
    }

    /// The literal that is the variable's negation.
    pub fn negative(var: Var) -> Lit
        ensures { result ≡ Neg var }
    {
        Lit {
            code: 2 * var.number() + 1,
        }
    }

    /// Answers the literal that is true if and only if this one is false.
    #[inline]
    pub fn negate(self) -> Lit
        ensures { result ≡ negation self }
    {
        Lit {
            code: self.code ^ 1,
        }
    }

    /// Answers the literal's variable.
    #[inline]
    pub fn var(self) -> Var
        ensures { result ≡ var_of self }
    {
        Var {
            number: self.code / 2,
        }
    }

    /// Answers whether the literal is the negation of its variable.
    #[inline]
    pub fn is_negative(self) -> bool
        ensures { result ≡ is_negative self }
    {
        self.code % 2 == 1
    }

    /// Answers the literal's index in a table of all literals, from 2: twice the variable's number, plus 1 if the literal is negated.
    #[inline]
    pub fn index(self) -> usize
        ensures value { result ≡ index_of self }
        ensures above { 2 ≤ result }
        ensures below { result < 2 ^ 32 }
    {
        self.code as usize
    }

    /// Answers the literal's number in a text: the variable's number, with a minus if the literal is negated.
    pub fn number(self) -> i32
        ensures { result ≡ number_of self }
    {
        let variable = (self.code / 2) as i32;
        if self.code % 2 == 0 {
            variable
        } else {
            -variable
        }
    }
}

/// Answers whether the clause contains the literal.
pub fn has_literal(clause: &[Lit], literal: Lit) -> bool
    ensures { result ≡ has clause.now literal }
{
    clause.iter().any(|l| literal == *l)
}
