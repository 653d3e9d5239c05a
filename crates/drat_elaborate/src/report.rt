//! The report of a proof that was elaborated, or has a fault.

ghost use Rattle.std.specs.Prelude.{◌≡◌, ◌++◌, IfOk, OnOk, is_ok, codes, decimal, if◌then◌else◌};
ghost use Rattle.drat_elaborate.specs.Reports.{elaborated_text, elaboration_text, form_text, lemmas_text, deletions_text};
ghost use Rattle.reports.specs.Faults.{step_fault_text};

use crate::elaborator::{Elaborated, Statistics};
use crate::fault::ElaborationFault;
use drat_forms::Form;
use reports::{Report, put_number, put_step_fault};
use std::alloc::{AllocError, Global};

/// Appends the line that tells which form the DRAT proof was taken to have.
fn put_form(out: &mut Vec<u8>, form: Form) -> Result<(), AllocError>
    ensures { OnOk result (out.new.items ≡ out.old.items ++ form_text form) }
{
    match form {
        Form::Text => out.extend_from_slice(b"c a text\n"),
        Form::Binary => out.extend_from_slice(b"c in binary form\n"),
    }
}

/// Appends the line with the numbers of lemmas.
fn put_lemmas(out: &mut Vec<u8>, counted: &Statistics) -> Result<(), AllocError>
    ensures { OnOk result (out.new.items ≡ out.old.items ++ lemmas_text counted.now) }
{
    out.extend_from_slice(b"c ")?;
    put_number(out, counted.lemmas)?;
    out.extend_from_slice(b" lemmas, ")?;
    put_number(out, counted.rats)?;
    out.extend_from_slice(b" of them RAT\n")
}

/// Appends the line with the numbers of deletions that were passed over.
fn put_deletions(out: &mut Vec<u8>, counted: &Statistics) -> Result<(), AllocError>
    ensures { OnOk result (out.new.items ≡ out.old.items ++ deletions_text counted.now) }
{
    out.extend_from_slice(b"c ")?;
    put_number(out, counted.unknown)?;
    out.extend_from_slice(b" deletions of no clause, ")?;
    put_number(out, counted.kept)?;
    out.extend_from_slice(b" of unit clauses\n")
}

/// Returns the report of an elaboration. `Err` stands for the report `c no memory`, status 1.
pub fn elaboration_report(
    alloc: Global,
    found: Result<Elaborated, ElaborationFault>,
) -> Result<Report, AllocError>
    ensures text { IfOk result (λ r. r.stdout.items ≡ elaboration_text found) }
    ensures status { IfOk result (λ r. r.status ≡ (if is_ok found then 0 else 1)) }
    ensures proof { IfOk result (λ r. r.proof ≡ elaborated_text found) }
{
    match found {
        Ok(Elaborated { text, statistics }) => {
            let mut report = Report::of(alloc, b"s VERIFIED\n", 0)?;
            put_form(&mut report.stdout, statistics.form)?;
            put_lemmas(&mut report.stdout, &statistics)?;
            put_deletions(&mut report.stdout, &statistics)?;
            report.proof = Some(text);
            Ok(report)
        }
        Err(fault) if fault.is_no_memory() => Err(AllocError),
        Err(fault) => {
            let mut report = Report::of(alloc, b"s NOT VERIFIED\nc ", 1)?;
            put_step_fault(&mut report.stdout, fault.step, fault.kind.number())?;
            Ok(report)
        }
    }
}
