//! Why no log is woven.

use lrat_check::CheckFault;
use reports::Refusal;
use std::alloc::{AllocError, AllocFailed};

/// Why no log is woven.
#[derive(Clone, Copy, Debug, PartialEq, Eq)]
pub enum WeaveFault {
    /// A log cannot be read, or memory was refused.
    Refused(Refusal),
    /// There are 2^31 - 1 lemmas or more, or that many numbers of a log.
    TooMany,
    /// A lemma that the last one needs does not follow by its hints: the log that has it, and the lemma's line there, from 1.
    NotImplied { log: usize, line: u64 },
    /// At their second reading, the logs were others than at the first.
    Changed,
}

impl WeaveFault {
    /// Tells whether memory was refused, which says nothing of the logs.
    pub fn is_no_memory(self) -> bool {
        matches!(self, WeaveFault::Refused(Refusal::NoMemory))
    }
}

impl From<AllocError> for WeaveFault {
    fn from(_e: AllocError) -> WeaveFault {
        WeaveFault::Refused(Refusal::NoMemory)
    }
}

impl<T: Drop> From<AllocFailed<T>> for WeaveFault {
    fn from(_e: AllocFailed<T>) -> WeaveFault {
        WeaveFault::Refused(Refusal::NoMemory)
    }
}

impl From<Refusal> for WeaveFault {
    fn from(refusal: Refusal) -> WeaveFault {
        WeaveFault::Refused(refusal)
    }
}

/// The fault of a line, of this number in this log, that the checker refuses.
pub(crate) fn refused_line(fault: CheckFault, log: usize, line: u64) -> WeaveFault {
    if fault.is_no_memory() {
        WeaveFault::Refused(Refusal::NoMemory)
    } else {
        WeaveFault::NotImplied { log, line }
    }
}
