//! The faults of a line, and their numbers.

ghost use Rattle.std.specs.Prelude.{◌≡◌};
ghost use Rattle.lrat_text.specs.Faults.{fault_number};
ghost use Rattle.lrat_text.specs.declared.fault.TextFault.TheVariants.{NoMemory};

use std::alloc::{AllocError, AllocFailed};
use thiserror::Error;

/// The first fault of a line.
#[derive(Clone, Copy, Debug, PartialEq, Eq, Error)]
pub enum TextFault {
    /// The line is empty, has a space at its beginning or end, or has a token that cannot stand where it does.
    #[error("a token cannot stand where it does")]
    BadToken,
    /// No LF follows the line.
    #[error("the line has no end")]
    LineNotEnded,
    /// The line ends before its last `0`.
    #[error("the line ends before its last `0`")]
    MissingZero,
    /// A clause number is above 2^48 - 1, or a variable above the limit, which is 2,000,000 unless the caller gives another one.
    #[error("a number is above its limit")]
    NumberTooLarge,
    /// Memory was refused.
    #[error("no memory")]
    NoMemory,
}

impl TextFault {
    /// Answers the fault's number, 1 to 5.
    pub fn number(self) -> u8
        ensures { result ≡ fault_number self }
    {
        match self {
            TextFault::BadToken => 1,
            TextFault::LineNotEnded => 2,
            TextFault::MissingZero => 3,
            TextFault::NumberTooLarge => 4,
            TextFault::NoMemory => 5,
        }
    }
}

impl From<AllocError> for TextFault {
    ghost from_gives = { λ _ e. e ≡ NoMemory };

    fn from(_e: AllocError) -> TextFault {
        TextFault::NoMemory
    }
}

impl<T: Drop> From<AllocFailed<T>> for TextFault {
    ghost from_gives = { λ _ e. e ≡ NoMemory };

    fn from(_e: AllocFailed<T>) -> TextFault {
        TextFault::NoMemory
    }
}
