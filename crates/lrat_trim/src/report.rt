//! The report of a proof that was trimmed, or has a fault.

ghost use Rattle.std.specs.Prelude.{◌≡◌, ◌≢◌, ◌++◌, Err, IfOk, OnOk, is_ok, codes, decimal, if◌then◌else◌};
ghost use Rattle.lrat_check.specs.ProofFaults.{no_memory};
ghost use Rattle.lrat_trim.specs.Reports.{lemmas_text, trim_text, trimmed_text};
ghost use Rattle.reports.specs.Faults.{fault_text, step_fault_text};

use crate::trimmer::Trimmed;
use lrat_check::CheckFault;
use reports::{Report, put_fault, put_number, put_step_fault};
use std::alloc::{AllocError, Global};

/// Appends the line with the number of lemmas that were kept, and of how many.
fn put_lemmas(out: &mut Vec<u8>, kept: u64, all: u64) -> Result<(), AllocError>
    ensures { OnOk result (out.new.items ≡ out.old.items ++ lemmas_text kept all) }
{
    out.extend_from_slice(b"c ")?;
    put_number(out, kept)?;
    out.extend_from_slice(b" of ")?;
    put_number(out, all)?;
    out.extend_from_slice(b" lemmas\n")
}

/// Appends the lines that report a fault, by its step if the proof is in binary form, else by its line.
fn put_refusal(out: &mut Vec<u8>, is_binary: bool, place: u64, number: u8) -> Result<(), AllocError>
    ensures { OnOk result (out.new.items ≡ out.old.items ++ (if is_binary then step_fault_text place number else fault_text place number)) }
{
    if is_binary {
        put_step_fault(out, place, number)
    } else {
        put_fault(out, place, number)
    }
}

/// Returns the report of trimming a text, or a proof in binary form. `Err` stands for the report `c no memory`, status 1.
pub fn trim_report(
    alloc: Global,
    is_binary: bool,
    found: Result<Trimmed, CheckFault>,
) -> Result<Report, AllocError>
    ensures text { IfOk result (λ r. r.stdout.items ≡ trim_text is_binary found) }
    ensures status { IfOk result (λ r. r.status ≡ (if is_ok found then 0 else 1)) }
    ensures proof { IfOk result (λ r. r.proof ≡ trimmed_text found) }
    // no report is made if memory was refused
    ensures memory { OnOk result (found ≢ Err no_memory) }
{
    match found {
        Ok(Trimmed { text, kept, all }) => {
            let mut report = Report::of(alloc, b"s VERIFIED\n", 0)?;
            put_lemmas(&mut report.stdout, kept, all)?;
            report.proof = Some(text);
            Ok(report)
        }
        Err(fault) if fault.is_no_memory() => Err(AllocError),
        Err(fault) => {
            let mut report = Report::of(alloc, b"s NOT VERIFIED\nc ", 1)?;
            put_refusal(&mut report.stdout, is_binary, fault.line, fault.number)?;
            Ok(report)
        }
    }
}
