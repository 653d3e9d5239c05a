//! The faults of a line of a LIDRUP text: why it is refused.

ghost use Rattle.std.specs.Prelude.{◌≡◌};
ghost use Rattle.lidrup.specs.inner.Faults.{line_refusal};
ghost use Rattle.lidrup.specs.declared.fault.LineFault.TheVariants.{NoMemory};

use lrat_check::CheckFault;
use lrat_text::TextFault;
use std::alloc::{AllocError, AllocFailed};

/// The first fault of a line, or that memory was refused.
#[derive(Clone, Copy)]
pub(crate) enum LineFault {
    /// The line is no line of LIDRUP.
    Text(TextFault),
    /// A foreign number is not above those before it.
    NumberNotRising,
    /// A hint names no clause, or no lemma closed a cube.
    UnknownClause,
    /// The step of the log that the line becomes has the fault of this number.
    OfLog(u8),
    /// Memory was refused, or a number is too great.
    NoMemory,
}

impl From<AllocError> for LineFault {
    ghost from_gives = { λ _ e. e ≡ NoMemory };

    fn from(_e: AllocError) -> LineFault {
        LineFault::NoMemory
    }
}

impl<T: Drop> From<AllocFailed<T>> for LineFault {
    ghost from_gives = { λ _ e. e ≡ NoMemory };

    fn from(_e: AllocFailed<T>) -> LineFault {
        LineFault::NoMemory
    }
}

/// Returns the fault of the line of this number that is refused; `NoMemory` has no line.
pub(crate) fn refused(fault: LineFault, line: u64) -> CheckFault
    ensures { result ≡ line_refusal fault line }
{
    let (number, text) = match fault {
        LineFault::Text(fault) => (1, fault.number()),
        LineFault::NumberNotRising => (2, 0),
        LineFault::UnknownClause => (3, 0),
        LineFault::OfLog(number) => (number, 0),
        LineFault::NoMemory => return CheckFault::no_memory(),
    };
    CheckFault { number, line, text }
}
