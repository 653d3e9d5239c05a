//! Why a line of a session's proof is refused.

ghost use Rattle.std.specs.Prelude.{◌≡◌};
ghost use Rattle.sessions.specs.declared.fault.LineFault.TheVariants.{NoMemory};

use lrat_text::TextFault;
use std::alloc::{AllocError, AllocFailed};

/// The first fault of a line of a proof.
#[derive(Clone, Copy)]
pub(crate) enum LineFault {
    /// The line is no line of the grammar.
    Text(TextFault),
    /// The line is one of the grammar, and has the fault of this number.
    OfLine(u8),
    /// Memory was refused, or a number is above 64 bits.
    NoMemory,
}

impl From<AllocError> for LineFault {
    ghost from_gives = { λ _ e. e ≡ NoMemory };

    fn from(_e: AllocError) -> LineFault {
        LineFault::NoMemory
    }
}

impl<T: Drop> From<AllocFailed<T>> for LineFault {
    ghost from_gives = { λ _ e. e ≡ NoMemory };

    fn from(_e: AllocFailed<T>) -> LineFault {
        LineFault::NoMemory
    }
}
