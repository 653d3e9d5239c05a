//! The faults of DIMACS texts, and their numbers.

ghost use Rattle.std.specs.Prelude.{◌≡◌};
ghost use Rattle.dimacs.specs.text.Faults.{number_of_kind};
ghost use Rattle.dimacs.specs.text.Parser.{no_memory};

use std::alloc::{AllocError, AllocFailed};
use thiserror::Error;

/// What is wrong with a text. The first faulty token decides. If it has several faults, the first of these decides: in the header, from
/// left to right; after the header, `BadToken`, `TooManyClauses`, `VariableAboveHeader`, `AboveLimit`.
#[derive(Clone, Copy, Debug, PartialEq, Eq, Error)]
pub enum Kind {
    /// There is no token, or the first one is not `p`.
    #[error("there is no header")]
    NoHeader,
    /// A token of the header's line is not the one that must stand there, is missing, or is a fifth.
    #[error("the header is not `p cnf VARIABLES CLAUSES`")]
    BadHeader,
    /// A token after the header is no number.
    #[error("a token is no number")]
    BadToken,
    /// A literal's variable is above the header's number of variables.
    #[error("a variable is above the header's number")]
    VariableAboveHeader,
    /// The text ends within a clause.
    #[error("the text ends within a clause")]
    ClauseNotEnded,
    /// The text ends before as many clauses have ended as the header announces.
    #[error("the text ends before the last clause")]
    TooFewClauses,
    /// A number follows the last of the clauses that the header announces.
    #[error("a clause stands behind the last")]
    TooManyClauses,
    /// More variables, clauses or literals than the limits allow.
    #[error("the formula is above a limit")]
    AboveLimit,
    /// Memory was refused.
    #[error("no memory")]
    NoMemory,
}

impl Kind {
    /// Answers the fault number that is printed, from 1 to 9.
    pub fn number(self) -> u8
        ensures { result ≡ number_of_kind self }
    {
        match self {
            Kind::NoHeader => 1,
            Kind::BadHeader => 2,
            Kind::BadToken => 3,
            Kind::VariableAboveHeader => 4,
            Kind::ClauseNotEnded => 5,
            Kind::TooFewClauses => 6,
            Kind::TooManyClauses => 7,
            Kind::AboveLimit => 8,
            Kind::NoMemory => 9,
        }
    }
}

/// The first fault of a text, and its line, from 1: the line of the token; of a missing token of the header, the header's
/// line; at the end of the text, the number of line ends plus 1. `NoMemory` has line 0.
#[derive(Clone, Copy, Debug, PartialEq, Eq, Error)]
#[error("line {line}: {kind}")]
pub struct DimacsFault {
    /// What is wrong.
    pub kind: Kind,
    /// The line, from 1; 0 for `NoMemory`.
    pub line: u64,
}

impl DimacsFault {
    /// A fault of this kind in this line.
    pub(crate) fn at(kind: Kind, line: u64) -> DimacsFault
        ensures { result ≡ record { kind = kind; line = line } }
    {
        DimacsFault { kind, line }
    }

    /// Answers the number of the fault's kind, from 1 to 9.
    pub fn number(self) -> u8
        ensures { result ≡ number_of_kind self.kind }
    {
        self.kind.number()
    }
}

impl From<AllocError> for DimacsFault {
    ghost from_gives = { λ _ e. e ≡ no_memory };

    fn from(_e: AllocError) -> DimacsFault {
        DimacsFault::at(Kind::NoMemory, 0)
    }
}

impl<T: Drop> From<AllocFailed<T>> for DimacsFault {
    ghost from_gives = { λ _ e. e ≡ no_memory };

    fn from(_e: AllocFailed<T>) -> DimacsFault {
        DimacsFault::at(Kind::NoMemory, 0)
    }
}
