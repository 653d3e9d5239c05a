//! Why a DRAT proof is not elaborated.

ghost use Rattle.std.specs.Prelude.{◌≡◌};
ghost use Rattle.drat_elaborate.specs.Faults.{fault_number};

use drat_forms::DratFault;
use std::alloc::{AllocError, AllocFailed};
use thiserror::Error;

/// The first fault of a DRAT proof.
#[derive(Clone, Copy, Debug, PartialEq, Eq, Error)]
pub enum Kind {
    /// The bytes spell no step, or there are none.
    #[error("{0}")]
    Bytes(DratFault),
    /// A lemma is needed and is neither RUP nor RAT.
    #[error("the lemma is neither RUP nor RAT")]
    NotImplied,
    /// No clause is false after the last step.
    #[error("the steps do not refute the formula")]
    NotRefuted,
    /// The formula and the proof have 2^29 - 1 clauses or more, or 2^31 - 1 words: a literal takes one, a clause three.
    #[error("the proof is too long")]
    TooLong,
    /// The LRAT proof that was made is not accepted: a fault of this program.
    #[error("the LRAT proof that was made is refused")]
    Refused,
    /// Memory was refused.
    #[error("no memory")]
    NoMemory,
}

impl Kind {
    /// The fault's number: 1 to 4 for bytes, 5 if memory was refused, and 6 to 9.
    pub fn number(self) -> u8
        ensures { result ≡ fault_number self }
    {
        match self {
            Kind::Bytes(fault) => fault.number(),
            Kind::NotImplied => 6,
            Kind::NotRefuted => 7,
            Kind::TooLong => 8,
            Kind::Refused => 9,
            Kind::NoMemory => 5,
        }
    }
}

/// The first fault of a DRAT proof, and the step that has it.
#[derive(Clone, Copy, Debug, PartialEq, Eq, Error)]
#[error("step {step}: {kind}")]
pub struct ElaborationFault {
    pub kind: Kind,
    /// The step, from 1: for a fault of the bytes and for a proof that does not refute the formula, the number of complete steps plus 1. It
    /// is 0 if memory was refused, or the proof that was made.
    pub step: u64,
}

impl ElaborationFault {
    /// Whether memory was refused, which says nothing of the proof.
    pub fn is_no_memory(self) -> bool {
        matches!(self.kind, Kind::NoMemory)
    }
}

impl From<AllocError> for ElaborationFault {
    fn from(_e: AllocError) -> ElaborationFault {
        ElaborationFault {
            kind: Kind::NoMemory,
            step: 0,
        }
    }
}

impl<T: Drop> From<AllocFailed<T>> for ElaborationFault {
    fn from(_e: AllocFailed<T>) -> ElaborationFault {
        ElaborationFault {
            kind: Kind::NoMemory,
            step: 0,
        }
    }
}
