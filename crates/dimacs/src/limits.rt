//! The limits on the size of a formula that is read.

ghost use Rattle.std.specs.Prelude.{◌≡◌, ◌≤◌};
ghost use Rattle.dimacs.specs.logic.Limits.{AreNoMore, written, large};

use std::marker::Model;

/// The greatest numbers of variables, clauses and literals of a formula that is read.
#[derive(Clone, Copy, Debug)]
pub struct Limits {
    /// The greatest number of variables.
    vars: u32,
    /// The greatest number of clauses.
    clauses: u32,
    /// The greatest number of literals in all clauses.
    literals: u32,
}

impl Model for Limits {
    ghost use Rattle.dimacs.specs.logic.Limits.{Limits, AreNoMore, large};

    ghost Value = { Limits };

    ghost view = { λ l. record { vars = l.vars; clauses = l.clauses; literals = l.literals } };

    ghost invariant = { λ l. AreNoMore (record { vars = l.vars; clauses = l.clauses; literals = l.literals }) large };

    ghost inverse = { λ l. record { vars = l.vars; clauses = l.clauses; literals = l.literals } };
}

impl Limits {
    /// The limits unless others are given: 1,000,000 variables, 4,000,000 clauses and 50,000,000 literals.
    pub fn written() -> Limits
        ensures { result ≡ written }
    {
        Limits {
            vars: 1_000_000,
            clauses: 4_000_000,
            literals: 50_000_000,
        }
    }

    /// The greatest limits that can be given, those of `--large`: 99,999,999 variables, 99,999,999 clauses and 999,999,999 literals.
    pub fn large() -> Limits
        ensures { result ≡ large }
    {
        Limits {
            vars: 99_999_999,
            clauses: 99_999_999,
            literals: 999_999_999,
        }
    }

    /// Answers the greatest number of variables.
    pub fn vars(self) -> u32
        ensures value { result ≡ self.vars }
        ensures most { result ≤ 99999999 }
        ensures valid { AreNoMore self large }
    {
        self.vars
    }

    /// Answers the greatest number of clauses.
    pub fn clauses(self) -> u32
        ensures value { result ≡ self.clauses }
        ensures most { result ≤ 99999999 }
    {
        self.clauses
    }

    /// Answers the greatest number of literals in all clauses.
    pub fn literals(self) -> u32
        ensures value { result ≡ self.literals }
        ensures most { result ≤ 999999999 }
    {
        self.literals
    }
}
