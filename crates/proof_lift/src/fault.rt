//! The faults of a line of a foreign proof: why it is refused.

ghost use Rattle.std.specs.Prelude.{◌≡◌};
ghost use Rattle.proof_lift.specs.inner.Faults.{line_fault_number, line_refusal};
ghost use Rattle.proof_lift.specs.declared.fault.LineFault.TheVariants.{NoMemory};

use lrat_check::CheckFault;
use std::alloc::{AllocError, AllocFailed};

/// The first fault of a step, or that memory was refused.
#[derive(Clone, Copy)]
pub(crate) enum LineFault {
    /// An addition's number is not above those before it.
    NumberNotRising,
    /// A hint or a deleted number is not live.
    UnknownClause,
    /// The lemma holds a literal and its negation.
    Tautology,
    /// The image of a hint's clause has two literals that are not false.
    HintNotUnit,
    /// The lemma has a group, or its hints end in no conflict.
    NotRup,
    /// Memory was refused.
    NoMemory,
}

impl LineFault {
    /// Returns the number by which the fault is reported.
    pub(crate) fn number(self) -> u8
        ensures { result ≡ line_fault_number self }
    {
        match self {
            LineFault::NumberNotRising => 2,
            LineFault::UnknownClause => 3,
            LineFault::Tautology => 4,
            LineFault::HintNotUnit => 6,
            LineFault::NotRup => 15,
            LineFault::NoMemory => 14,
        }
    }
}

impl From<AllocError> for LineFault {
    ghost from_gives = { λ _ e. e ≡ NoMemory };

    fn from(_e: AllocError) -> LineFault {
        LineFault::NoMemory
    }
}

impl<T: Drop> From<AllocFailed<T>> for LineFault {
    ghost from_gives = { λ _ e. e ≡ NoMemory };

    fn from(_e: AllocFailed<T>) -> LineFault {
        LineFault::NoMemory
    }
}

/// Returns the fault of the line of this number whose step is refused; `NoMemory` has no line.
pub(crate) fn step_refused(fault: LineFault, line: u64) -> CheckFault
    ensures { result ≡ line_refusal fault line }
{
    match fault {
        LineFault::NoMemory => CheckFault::no_memory(),
        _ => CheckFault {
            number: fault.number(),
            line,
            text: 0,
        },
    }
}
