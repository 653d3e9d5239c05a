//! The faults of iCNF texts, and their numbers.

ghost use Rattle.std.specs.Prelude.{◌≡◌};
ghost use Rattle.icnf.specs.Faults.{number_of_kind};
ghost use Rattle.icnf.specs.Parser.{no_memory};

use std::alloc::{AllocError, AllocFailed};
use thiserror::Error;

/// What is wrong with a text. The first faulty token decides. If it has several faults, the first one in this list decides, except that
/// `AboveLimit` for a 65,537th cube comes after `NotATree`.
#[derive(Clone, Copy, Debug, PartialEq, Eq, Error)]
pub enum Kind {
    /// There is no token, or the first one is not `p`.
    #[error("there is no header")]
    NoHeader,
    /// The header's line is not `p inccnf`.
    #[error("the header is not `p inccnf`")]
    BadHeader,
    /// A token is neither a number nor `a`, or it is an `a` within a clause or a cube.
    #[error("a token is neither a number nor a mark")]
    BadToken,
    /// After the first cube, a number stands outside a cube.
    #[error("a clause stands behind a cube")]
    ClauseBehindCube,
    /// A variable, or the number of clauses or of their literals, is above its limit, or there are more than 65,536 cubes.
    #[error("the text is above a limit")]
    AboveLimit,
    /// A variable of a cube is above the greatest variable of the clauses.
    #[error("a cube's variable is above those of the clauses")]
    VariableAboveClauses,
    /// A cube has two literals of one variable.
    #[error("a cube has a variable twice")]
    RepeatedVariable,
    /// The cubes are not the leaves of one tree: a literal, a cube's end or a cube that cannot come here, or leaves that are missing
    /// at the end of the text.
    #[error("the cubes are not the leaves of one tree")]
    NotATree,
    /// A cube has more than 64 literals.
    #[error("a cube has more than 64 literals")]
    CubeTooLong,
    /// The text ends within a clause or a cube.
    #[error("the text ends within a clause or a cube")]
    ClauseNotEnded,
    /// Memory was refused.
    #[error("no memory")]
    NoMemory,
}

impl Kind {
    /// Answers the fault number that is printed, from 1 to 13.
    pub fn number(self) -> u8
        ensures { result ≡ number_of_kind self }
    {
        match self {
            Kind::NoHeader => 1,
            Kind::BadHeader => 2,
            Kind::BadToken => 3,
            Kind::VariableAboveClauses => 4,
            Kind::ClauseNotEnded => 5,
            Kind::AboveLimit => 8,
            Kind::NoMemory => 9,
            Kind::ClauseBehindCube => 10,
            Kind::RepeatedVariable => 11,
            Kind::NotATree => 12,
            Kind::CubeTooLong => 13,
        }
    }
}

/// The first fault of a text, and its line, from 1: the line of the token; of a missing token of the header, the header's
/// line; at the end of the text, the number of line ends plus 1. `NoMemory` has line 0.
#[derive(Clone, Copy, Debug, PartialEq, Eq, Error)]
#[error("line {line}: {kind}")]
pub struct IcnfFault {
    /// What is wrong.
    pub kind: Kind,
    /// The line, from 1; 0 for `NoMemory`.
    pub line: u64,
}

impl IcnfFault {
    /// Answers the number of the fault's kind, from 1 to 13.
    pub fn number(self) -> u8
        ensures { result ≡ number_of_kind self.kind }
    {
        self.kind.number()
    }
}

impl From<AllocError> for IcnfFault {
    ghost from_gives = { λ _ e. e ≡ no_memory };

    fn from(_e: AllocError) -> IcnfFault {
        IcnfFault {
            kind: Kind::NoMemory,
            line: 0,
        }
    }
}

impl<T: Drop> From<AllocFailed<T>> for IcnfFault {
    ghost from_gives = { λ _ e. e ≡ no_memory };

    fn from(_e: AllocFailed<T>) -> IcnfFault {
        IcnfFault {
            kind: Kind::NoMemory,
            line: 0,
        }
    }
}
