//! The report of a solver's answer to a formula.

ghost use Rattle.std.specs.Prelude.{◌≡◌, ◌++◌, IfOk, OnOk, decimal, is_none, if◌then◌else◌};
ghost use Rattle.answers.specs.Reports.{clause_text, fault_text};

use crate::fault::AnswerFault;
use itoa::Buffer;
use std::alloc::{AllocError, Global};

/// The report of a test of an answer.
#[derive(Drop)]
pub struct ModelReport {
    /// What is printed, each line ended by LF.
    pub text: Vec<u8>,
    /// The exit status: 0 if the formula is satisfied, else 1.
    pub status: u8,
}

/// Appends a number in decimal.
fn put_number(out: &mut Vec<u8>, number: u64) -> Result<(), AllocError>
    ensures { OnOk result (out.new.items ≡ out.old.items ++ decimal number) }
{
    let mut buffer = Buffer::new();
    let text = buffer.format(number);
    out.extend_from_slice(text.as_bytes())
}

/// The report of an answer's literals: verified, or the number `missed` of the first clause of
/// which none is named.
pub(crate) fn judged(alloc: Global, missed: Option<u64>) -> Result<ModelReport, AllocError>
    ensures text { IfOk result (λ r. r.text.items ≡ clause_text missed) }
    ensures status { IfOk result (λ r. r.status ≡ (if is_none missed then 0 else 1)) }
{
    let Some(clause) = missed else {
        return Ok(ModelReport {
            text: Vec::from_slice(alloc, b"s VERIFIED\n")?,
            status: 0,
        });
    };
    let mut text = Vec::from_slice(alloc, b"s NOT VERIFIED\nc clause ")?;
    put_number(&mut text, clause)?;
    text.extend_from_slice(b"\n")?;
    Ok(ModelReport { text, status: 1 })
}

/// The report of an answer that has a fault: not verified, the line and the fault's number; status
/// 1.
pub(crate) fn refused(alloc: Global, fault: AnswerFault) -> Result<ModelReport, AllocError>
    ensures text { IfOk result (λ r. r.text.items ≡ fault_text fault) }
    ensures status { IfOk result (λ r. r.status ≡ 1) }
{
    let mut text = Vec::from_slice(alloc, b"s NOT VERIFIED\nc line ")?;
    put_number(&mut text, fault.line)?;
    text.extend_from_slice(b" fault ")?;
    put_number(&mut text, u64::from(fault.number()))?;
    text.extend_from_slice(b"\n")?;
    Ok(ModelReport { text, status: 1 })
}
