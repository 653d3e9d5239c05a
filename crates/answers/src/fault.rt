//! The faults of a text for which it is not believed as an answer.

ghost use Rattle.std.specs.Prelude.{◌≡◌};
ghost use Rattle.answers.specs.Faults.{number_of_kind};
ghost use Rattle.answers.specs.Parse.{no_memory};

use std::alloc::{AllocError, AllocFailed};
use thiserror::Error;

/// The kind of a fault. The first line or token that is wrong decides, and of several faults of one token the one that is tested first:
/// `BehindEnd`, `BadToken`, `ComplementaryPair`.
#[derive(Clone, Copy, Debug, PartialEq, Eq, Error)]
pub enum Kind {
    /// A line begins with another byte than `c`, `s` or `v`, and has more than white space.
    #[error("a line is none of an answer")]
    ForeignLine,
    /// A value is no number, or its variable is above 99,999,999.
    #[error("a value is no literal")]
    BadToken,
    /// A token comes after the `0`.
    #[error("a value stands behind the 0")]
    BehindEnd,
    /// A literal is named whose negation was named.
    #[error("a literal is named with its negation")]
    ComplementaryPair,
    /// The text ends before the `0`: it has no `v` line, or was cut.
    #[error("the text ends before the 0")]
    NotEnded,
    /// Memory was refused.
    #[error("no memory")]
    NoMemory,
}

impl Kind {
    /// The number of the kind, as it is printed: 1 to 5, and 14 if memory was refused.
    pub fn number(self) -> u8
        ensures { result ≡ number_of_kind self }
    {
        match self {
            Kind::ForeignLine => 1,
            Kind::BadToken => 2,
            Kind::BehindEnd => 3,
            Kind::ComplementaryPair => 4,
            Kind::NotEnded => 5,
            Kind::NoMemory => 14,
        }
    }
}

/// The first fault of a text, and its line, from 1: that of the token, or of the line itself; at the end of the text, the number of line
/// ends plus 1. If memory was refused, the line is 0.
#[derive(Clone, Copy, Debug, PartialEq, Eq, Error)]
#[error("line {line}: {kind}")]
pub struct AnswerFault {
    pub kind: Kind,
    /// The line, from 1; 0 if memory was refused.
    pub line: u64,
}

impl AnswerFault {
    /// A fault of this kind on this line.
    pub(crate) fn at(kind: Kind, line: u64) -> AnswerFault
        ensures { result ≡ record { kind = kind; line = line } }
    {
        AnswerFault { kind, line }
    }

    /// The number of the fault's kind.
    pub fn number(self) -> u8
        ensures { result ≡ number_of_kind self.kind }
    {
        self.kind.number()
    }
}

impl From<AllocError> for AnswerFault {
    ghost from_gives = { λ _ e. e ≡ no_memory };

    fn from(_e: AllocError) -> AnswerFault {
        AnswerFault::at(Kind::NoMemory, 0)
    }
}

impl<T: Drop> From<AllocFailed<T>> for AnswerFault {
    ghost from_gives = { λ _ e. e ≡ no_memory };

    fn from(_e: AllocFailed<T>) -> AnswerFault {
        AnswerFault::at(Kind::NoMemory, 0)
    }
}
