//! The faults of an iCNF text that is read for a given formula.

use crate::fault::IcnfFault;
use thiserror::Error;

/// Why an iCNF text gives no tree for a formula.
#[derive(Clone, Copy, Debug, PartialEq, Eq, Error)]
pub enum CubesFault {
    /// The text is not iCNF, or memory was refused.
    #[error("{0}")]
    Faulty(IcnfFault),
    /// The text's clauses are not the formula's. They are compared as lists of literals, in order.
    #[error("the cubes are of another formula")]
    OtherFormula,
}
