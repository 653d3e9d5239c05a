//! The lines that are printed of a faulty input and of refused cubes.

ghost use Rattle.std.specs.Prelude.{◌≡◌, ◌++◌, OnErr, OnOk, IfOk, None, decimal};
ghost use Rattle.dimacs.specs.text.Grammar.{Begins};
ghost use Rattle.reports.specs.Faults.{cubes_fault_text, fault_at, fault_text, input_fault_text, other_formula_text, step_fault_text};

use crate::report::Report;
use dimacs::DimacsFault;
use icnf::IcnfFault;
use itoa::Buffer;
use std::alloc::{AllocError, Global};

/// Appends a number in decimal. If memory is refused, `out` is unchanged.
pub fn put_number(out: &mut Vec<u8>, number: u64) -> Result<(), AllocError>
    ensures ok { OnOk result (out.new.items ≡ out.old.items ++ decimal number) }
    ensures err { OnErr result (out.new.items ≡ out.old.items) }
{
    let mut buffer = Buffer::new();
    let text = buffer.format(number);
    out.extend_from_slice(text.as_bytes())
}

/// Appends `place`, the number `at`, ` fault `, the number of the fault and LF. If memory is refused, `out` may have some of it.
fn put_words(out: &mut Vec<u8>, place: &[u8], at: u64, number: u8) -> Result<(), AllocError>
    ensures ok { OnOk result (out.new.items ≡ out.old.items ++ fault_at place.now at number) }
    ensures begins { Begins out.old.items out.new.items }
{
    out.extend_from_slice(place)?;
    put_number(out, at)?;
    out.extend_from_slice(b" fault ")?;
    put_number(out, u64::from(number))?;
    out.extend_from_slice(b"\n")
}

/// Appends `place`, the number `at`, ` fault `, the number of the fault and LF. If memory is refused, `out` is unchanged.
fn put_fault_at(out: &mut Vec<u8>, place: &[u8], at: u64, number: u8) -> Result<(), AllocError>
    ensures ok { OnOk result (out.new.items ≡ out.old.items ++ fault_at place.now at number) }
    ensures err { OnErr result (out.new.items ≡ out.old.items) }
{
    let len = out.len();
    let written = put_words(out, place, at, number);
    if written.is_err() {
        out.truncate(len);
    }
    written
}

/// Appends `line L fault N` and LF. If memory is refused, `out` is unchanged.
pub fn put_fault(out: &mut Vec<u8>, line: u64, number: u8) -> Result<(), AllocError>
    ensures ok { OnOk result (out.new.items ≡ out.old.items ++ fault_text line number) }
    ensures err { OnErr result (out.new.items ≡ out.old.items) }
{
    put_fault_at(out, b"line ", line, number)
}

/// Appends `step K fault N` and LF. If memory is refused, `out` is unchanged.
pub fn put_step_fault(out: &mut Vec<u8>, step: u64, number: u8) -> Result<(), AllocError>
    ensures ok { OnOk result (out.new.items ≡ out.old.items ++ step_fault_text step number) }
    ensures err { OnErr result (out.new.items ≡ out.old.items) }
{
    put_fault_at(out, b"step ", step, number)
}

/// The report of an input with this fault.
pub fn faulty_input(alloc: Global, fault: DimacsFault) -> Result<Report, AllocError>
    ensures text { IfOk result (λ r. r.stdout.items ≡ input_fault_text fault) }
    ensures status { IfOk result (λ r. r.status ≡ 1) }
    ensures proof { IfOk result (λ r. r.proof ≡ None) }
{
    let mut report = Report::of(alloc, b"c input ", 1)?;
    put_fault(&mut report.stdout, fault.line, fault.kind.number())?;
    Ok(report)
}

/// The report of cubes with this fault.
pub fn faulty_cubes(alloc: Global, fault: IcnfFault) -> Result<Report, AllocError>
    ensures text { IfOk result (λ r. r.stdout.items ≡ cubes_fault_text fault) }
    ensures status { IfOk result (λ r. r.status ≡ 1) }
    ensures proof { IfOk result (λ r. r.proof ≡ None) }
{
    let mut report = Report::of(alloc, b"c cubes ", 1)?;
    put_fault(&mut report.stdout, fault.line, fault.number())?;
    Ok(report)
}

/// The report of cubes whose clauses are not the formula's.
pub fn other_formula(alloc: Global) -> Result<Report, AllocError>
    ensures text { IfOk result (λ r. r.stdout.items ≡ other_formula_text) }
    ensures status { IfOk result (λ r. r.status ≡ 1) }
    ensures proof { IfOk result (λ r. r.proof ≡ None) }
{
    Report::of(alloc, b"c cubes of another formula\n", 1)
}
