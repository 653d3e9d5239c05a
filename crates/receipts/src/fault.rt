//! The faults of a receipt's text, of a cover, and of a log of which a receipt is made.

ghost use Rattle.std.specs.Prelude.{◌≡◌};
ghost use Rattle.receipts.specs.declared.fault.ReceiptFault.TheVariants as receipt;
ghost use Rattle.receipts.specs.declared.fault.CoverFault.TheVariants as cover;
ghost use Rattle.receipts.specs.declared.fault.BuildFault.TheVariants as receive;

use log_join::LogJoinFault;
use lrat_check::CheckFault;
use std::alloc::{AllocError, AllocFailed};
use thiserror::Error;

/// Why a text is not read as a receipt.
#[derive(Clone, Copy, Debug, PartialEq, Eq, Error)]
pub enum ReceiptFault {
    /// The text is no receipt: this line, from 1, is not one of a receipt, or the text ends in this line. A contract says that the text is
    /// no receipt; none speaks of the line's number.
    #[error("line {0} is none of a receipt")]
    Line(u64),
    /// Memory was refused.
    #[error("no memory")]
    NoMemory,
}

/// Why a cover cannot go on.
#[derive(Clone, Copy, Debug, PartialEq, Eq, Error)]
pub enum CoverFault {
    /// There would be 2^48 clauses, more than there are clause numbers.
    #[error("there would be 2^48 clauses")]
    TooMany,
    /// Memory was refused.
    #[error("no memory")]
    NoMemory,
}

/// Why a log has no receipt.
#[derive(Clone, Copy, Debug, PartialEq, Eq, Error)]
pub enum BuildFault {
    /// The text is no log over the formula: the text's first fault, with its line.
    #[error("{0}")]
    Log(CheckFault),
    /// The text is a log over the formula that closes no leaf.
    #[error("the log closes nothing")]
    ClosesNothing,
    /// Memory was refused, or the log has 2^48 - 2 lemmas or more.
    #[error("no memory")]
    NoMemory,
}

impl BuildFault {
    /// The fault of a text in which the checker has found this fault.
    pub(crate) fn of_check(fault: CheckFault) -> BuildFault
        ensures memory { fault.number ≡ 14 → result ≡ receive.NoMemory }
        ensures log { ¬ (fault.number ≡ 14) → result ≡ receive.Log fault }
    {
        if fault.is_no_memory() {
            return BuildFault::NoMemory;
        }
        BuildFault::Log(fault)
    }
}

impl From<AllocError> for ReceiptFault {
    ghost from_gives = { λ _ e. e ≡ receipt.NoMemory };

    fn from(_e: AllocError) -> ReceiptFault {
        ReceiptFault::NoMemory
    }
}

impl<T: Drop> From<AllocFailed<T>> for ReceiptFault {
    ghost from_gives = { λ _ e. e ≡ receipt.NoMemory };

    fn from(_e: AllocFailed<T>) -> ReceiptFault {
        ReceiptFault::NoMemory
    }
}

impl From<AllocError> for CoverFault {
    ghost from_gives = { λ _ e. e ≡ cover.NoMemory };

    fn from(_e: AllocError) -> CoverFault {
        CoverFault::NoMemory
    }
}

impl From<AllocError> for BuildFault {
    ghost from_gives = { λ _ e. e ≡ receive.NoMemory };

    fn from(_e: AllocError) -> BuildFault {
        BuildFault::NoMemory
    }
}

impl<T: Drop> From<AllocFailed<T>> for BuildFault {
    ghost from_gives = { λ _ e. e ≡ receive.NoMemory };

    fn from(_e: AllocFailed<T>) -> BuildFault {
        BuildFault::NoMemory
    }
}
