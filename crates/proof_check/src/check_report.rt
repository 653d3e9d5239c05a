//! The report of a check: that the proof is accepted, or the fault of the proof or of the input.

ghost use Rattle.std.specs.Prelude.{◌≡◌, ◌≢◌, Ok, Err, None, IfOk, OnOk, is_ok, if◌then◌else◌};
ghost use Rattle.lrat_check.specs.ProofFaults.{no_memory};
ghost use Rattle.proof_check.specs.Reports.{answer_text, binary_answer_text};
ghost use Rattle.reports.specs.Faults.{input_fault_text};

use dimacs::{DimacsFault, Kind};
use lrat_check::CheckFault;
use reports::{Report, faulty_input, put_fault, put_step_fault};
use std::alloc::{AllocError, Global};

/// The report of the text of a proof that has this fault, status 1. An error is want of memory.
fn refused_text(alloc: Global, fault: CheckFault) -> Result<Report, AllocError>
    ensures text { IfOk result (λ r. r.stdout.items ≡ answer_text (Err fault)) }
    ensures status { IfOk result (λ r. r.status ≡ 1) }
    ensures proof { IfOk result (λ r. r.proof ≡ None) }
{
    let mut report = Report::of(alloc, b"s NOT VERIFIED\nc ", 1)?;
    put_fault(&mut report.stdout, fault.line, fault.number)?;
    Ok(report)
}

/// The report of a check of a text: `s VERIFIED` and status 0 at `Ok`, the fault and status 1 else.
/// An error is want of memory, here or in the check.
pub(crate) fn answered(alloc: Global, answer: Result<(), CheckFault>) -> Result<Report, AllocError>
    ensures text { IfOk result (λ r. r.stdout.items ≡ answer_text answer) }
    ensures status { IfOk result (λ r. r.status ≡ (if is_ok answer then 0 else 1)) }
    ensures proof { IfOk result (λ r. r.proof ≡ None) }
    ensures memory { OnOk result (answer ≢ Err no_memory) }
{
    match answer {
        Ok(()) => Report::of(alloc, b"s VERIFIED\n", 0),
        Err(fault) if fault.is_no_memory() => Err(AllocError),
        Err(fault) => refused_text(alloc, fault),
    }
}

/// The report of a proof in binary form that has this fault, status 1. An error is want of memory.
fn refused_binary(alloc: Global, fault: CheckFault) -> Result<Report, AllocError>
    ensures text { IfOk result (λ r. r.stdout.items ≡ binary_answer_text (Err fault)) }
    ensures status { IfOk result (λ r. r.status ≡ 1) }
    ensures proof { IfOk result (λ r. r.proof ≡ None) }
{
    let mut report = Report::of(alloc, b"s NOT VERIFIED\nc ", 1)?;
    put_step_fault(&mut report.stdout, fault.line, fault.number)?;
    Ok(report)
}

/// The report of a check of a proof in binary form, whose faults are told by step: status 0 at
/// `Ok`, 1 at a fault. An error is want of memory, here or in the check.
pub(crate) fn answered_binary(
    alloc: Global,
    answer: Result<(), CheckFault>,
) -> Result<Report, AllocError>
    ensures text { IfOk result (λ r. r.stdout.items ≡ binary_answer_text answer) }
    ensures status { IfOk result (λ r. r.status ≡ (if is_ok answer then 0 else 1)) }
    ensures proof { IfOk result (λ r. r.proof ≡ None) }
    ensures memory { OnOk result (answer ≢ Err no_memory) }
{
    match answer {
        Ok(()) => Report::of(alloc, b"s VERIFIED\n", 0),
        Err(fault) if fault.is_no_memory() => Err(AllocError),
        Err(fault) => refused_binary(alloc, fault),
    }
}

/// The report of an input that has this fault, status 1. An error is want of memory, here or as this fault.
pub(crate) fn unread(alloc: Global, fault: DimacsFault) -> Result<Report, AllocError>
    ensures text { IfOk result (λ r. r.stdout.items ≡ input_fault_text fault) }
    ensures status { IfOk result (λ r. r.status ≡ 1) }
    ensures proof { IfOk result (λ r. r.proof ≡ None) }
    ensures memory { OnOk result (fault.kind ≢ Kind.NoMemory) }
{
    if fault.kind == Kind::NoMemory {
        return Err(AllocError);
    }
    faulty_input(alloc, fault)
}
