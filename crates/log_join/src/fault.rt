//! The faults of a join: why a step, or the end of the proof, is not written.

ghost use Rattle.std.specs.Prelude.{◌≡◌};
ghost use Rattle.log_join.specs.declared.fault.LogJoinFault.TheVariants.{NoMemory};

use std::alloc::{AllocError, AllocFailed};
use thiserror::Error;

/// Why a call of a joiner wrote nothing.
#[derive(Clone, Copy, Debug, PartialEq, Eq, Error)]
pub enum LogJoinFault {
    /// A number would reach 2^48.
    #[error("a clause number would reach 2^48")]
    TooLong,
    /// A leaf is open.
    #[error("a leaf is open")]
    Open,
    /// Memory was refused.
    #[error("no memory")]
    NoMemory,
}

impl From<AllocError> for LogJoinFault {
    ghost from_gives = { λ _ e. e ≡ NoMemory };

    fn from(_e: AllocError) -> LogJoinFault {
        LogJoinFault::NoMemory
    }
}

impl<T: Drop> From<AllocFailed<T>> for LogJoinFault {
    ghost from_gives = { λ _ e. e ≡ NoMemory };

    fn from(_e: AllocFailed<T>) -> LogJoinFault {
        LogJoinFault::NoMemory
    }
}
