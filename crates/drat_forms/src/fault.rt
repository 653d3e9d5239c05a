//! The faults of the bytes of a DRAT proof, and their numbers.

ghost use Rattle.std.specs.Prelude.{◌≡◌};
ghost use Rattle.drat_forms.specs.Faults.{fault_number};
ghost use Rattle.drat_forms.specs.declared.fault.DratFault.TheVariants.{NoMemory};

use std::alloc::{AllocError, AllocFailed};
use thiserror::Error;

/// The first fault of the bytes of a DRAT proof.
#[derive(Clone, Copy, Debug, PartialEq, Eq, Error)]
pub enum DratFault {
    /// A byte cannot stand where it does. In binary form also: a number is 1, or its last byte is 0 after another one.
    #[error("a byte cannot stand where it does")]
    BadByte,
    /// A variable is above the limit: twice the formula's variables, or 2,000,000 if that is more.
    #[error("a variable is above its limit")]
    VariableTooLarge,
    /// The proof ends within a step.
    #[error("the proof ends within a step")]
    StepNotEnded,
    /// The file has no byte.
    #[error("the proof is empty")]
    Empty,
    /// Memory was refused.
    #[error("no memory")]
    NoMemory,
}

impl DratFault {
    /// Answers the fault's number: 1 to 4, or 5 if memory was refused.
    pub fn number(self) -> u8
        ensures { result ≡ fault_number self }
    {
        match self {
            DratFault::BadByte => 1,
            DratFault::VariableTooLarge => 2,
            DratFault::StepNotEnded => 3,
            DratFault::Empty => 4,
            DratFault::NoMemory => 5,
        }
    }
}

impl From<AllocError> for DratFault {
    ghost from_gives = { λ _ e. e ≡ NoMemory };

    fn from(_e: AllocError) -> DratFault {
        DratFault::NoMemory
    }
}

impl<T: Drop> From<AllocFailed<T>> for DratFault {
    ghost from_gives = { λ _ e. e ≡ NoMemory };

    fn from(_e: AllocFailed<T>) -> DratFault {
        DratFault::NoMemory
    }
}
