//! Faults of a stream of frames.

ghost use Rattle.std.specs.Prelude.{◌≡◌};
ghost use Rattle.frames.specs.declared.fault.FrameFault.TheVariants.{NoMemory};

use std::alloc::{AllocError, AllocFailed};
use thiserror::Error;

/// A fault of a stream of frames, in the order of the tests.
#[derive(Clone, Copy, Debug, PartialEq, Eq, Error)]
pub enum FrameFault {
    /// One of the first two bytes of a frame is not 0x43.
    #[error("a frame does not begin with its mark")]
    BadMark,
    /// The kind is not 1 to 9.
    #[error("there is no such kind of frame")]
    BadKind,
    /// The payload's length is not possible for the kind.
    #[error("the length is not possible for the kind")]
    BadLength,
    /// The payload is complete, and a field is not right.
    #[error("a field is not right")]
    BadField,
    /// Memory was refused.
    #[error("no memory")]
    NoMemory,
}

impl FrameFault {
    /// The number of the fault, 1 to 5.
    pub fn number(self) -> u8
        ensures mark { self ≡ FrameFault.BadMark → result ≡ 1 }
        ensures kind { self ≡ FrameFault.BadKind → result ≡ 2 }
        ensures length { self ≡ FrameFault.BadLength → result ≡ 3 }
        ensures field { self ≡ FrameFault.BadField → result ≡ 4 }
        ensures memory { self ≡ FrameFault.NoMemory → result ≡ 5 }
    {
        match self {
            FrameFault::BadMark => 1,
            FrameFault::BadKind => 2,
            FrameFault::BadLength => 3,
            FrameFault::BadField => 4,
            FrameFault::NoMemory => 5,
        }
    }
}

impl From<AllocError> for FrameFault {
    ghost from_gives = { λ _ e. e ≡ NoMemory };

    fn from(_e: AllocError) -> FrameFault {
        FrameFault::NoMemory
    }
}

impl<T: Drop> From<AllocFailed<T>> for FrameFault {
    ghost from_gives = { λ _ e. e ≡ NoMemory };

    fn from(_e: AllocFailed<T>) -> FrameFault {
        FrameFault::NoMemory
    }
}
