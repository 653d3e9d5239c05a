//! What is printed of a check of a session.

ghost use Rattle.dimacs.specs.logic.Limits.{Limits};
ghost use Rattle.std.specs.Prelude.{◌≡◌, ◌++◌, ℕ, List, Ok, OnOk, IfOk, IfErr, MatchResult, None};
ghost use Rattle.sessions.specs.Check.{HasTaken, OfTexts};
ghost use Rattle.sessions.specs.Reports.{ChecksSession, HasNoReport, Reports, ReportsFault, count_text, events_text, refused_tail, refused_text, total, verified_tail, verified_text};

use crate::check::{SessionCheck, SessionFault};
use crate::tally::Tally;
use icnf::{IcnfFault, Kind};
use lrat_check::CheckFault;
use reports::{Refusal, Report, put_fault, put_number};
use std::alloc::{AllocError, Global};

/// Answers how many queries were answered. Err if the number is above 64 bits.
fn total(t: Tally) -> Result<u64, AllocError>
    ensures { IfOk result (λ n. n ≡ total t) }
{
    let Some(answered) = t.satisfied.checked_add(t.failed) else {
        return Err(AllocError);
    };
    match answered.checked_add(t.unknown) {
        Some(total) => Ok(total),
        None => Err(AllocError),
    }
}

/// Appends a number, and then words.
fn put_count(out: &mut Vec<u8>, count: u64, words: &[u8]) -> Result<(), AllocError>
    ensures { OnOk result (out.new.items ≡ out.old.items ++ count_text count words.now) }
{
    put_number(out, count)?;
    out.extend_from_slice(words)
}

/// Appends how many queries were answered, and how many of each kind.
fn put_tally(out: &mut Vec<u8>, t: Tally) -> Result<(), AllocError>
    ensures { OnOk result (out.new.items ≡ out.old.items ++ verified_tail t) }
{
    put_count(out, total(t)?, b" queries: ")?;
    put_count(out, t.satisfied, b" satisfiable, ")?;
    put_count(out, t.failed, b" unsatisfiable, ")?;
    put_count(out, t.unknown, b" unknown\n")
}

/// Appends where the proof's fault is, and how many answers stand before it.
fn put_refused(out: &mut Vec<u8>, fault: CheckFault, before: Tally) -> Result<(), AllocError>
    ensures { OnOk result (out.new.items ≡ out.old.items ++ refused_tail fault before) }
{
    put_fault(out, fault.line, fault.number)?;
    out.extend_from_slice(b"c ")?;
    put_count(out, total(before)?, b" queries before\n")
}

/// The report of a session that is verified: status 0.
fn verified(alloc: Global, t: Tally) -> Result<Report, AllocError>
    ensures text { IfOk result (λ r. r.stdout.items ≡ verified_text t) }
    ensures status { IfOk result (λ r. r.status ≡ 0) }
    ensures proof { IfOk result (λ r. r.proof ≡ None) }
{
    let mut report = Report::of(alloc, b"s VERIFIED\nc ", 0)?;
    put_tally(&mut report.stdout, t)?;
    Ok(report)
}

/// The report of a proof that is not accepted: its first fault, and the answers before it; status 1.
fn refused(alloc: Global, fault: CheckFault, before: Tally) -> Result<Report, AllocError>
    ensures text { IfOk result (λ r. r.stdout.items ≡ refused_text fault before) }
    ensures status { IfOk result (λ r. r.status ≡ 1) }
    ensures proof { IfOk result (λ r. r.proof ≡ None) }
{
    let mut report = Report::of(alloc, b"s NOT VERIFIED\nc ", 1)?;
    put_refused(&mut report.stdout, fault, before)?;
    Ok(report)
}

/// The report of events that have a fault: the line and the fault's number; status 1.
fn faulty(alloc: Global, fault: IcnfFault) -> Result<Report, AllocError>
    ensures text { IfOk result (λ r. r.stdout.items ≡ events_text fault) }
    ensures status { IfOk result (λ r. r.status ≡ 1) }
    ensures proof { IfOk result (λ r. r.proof ≡ None) }
{
    let mut report = Report::of(alloc, b"c input ", 1)?;
    put_fault(&mut report.stdout, fault.line, fault.number())?;
    Ok(report)
}

/// Answers the report; Err(NoMemory) if memory was refused.
fn printed(report: Result<Report, AllocError>) -> Result<Report, Refusal>
    ensures { MatchResult result (λ r. report ≡ Ok r) (λ f. f ≡ Refusal.NoMemory) }
{
    match report {
        Ok(report) => Ok(report),
        Err(_) => Err(Refusal::NoMemory),
    }
}

/// The report of a fault. Err is the refusal of a check that has no report: memory was refused, or an input is still wanted.
fn fault_report(alloc: Global, fault: SessionFault) -> Result<Report, Refusal>
    ensures { ReportsFault fault result }
{
    match fault {
        SessionFault::Events(fault) => {
            if fault.kind == Kind::NoMemory {
                return Err(Refusal::NoMemory);
            }
            printed(faulty(alloc, fault))
        }
        SessionFault::Proof { fault, before } => {
            if fault.is_no_memory() {
                return Err(Refusal::NoMemory);
            }
            printed(refused(alloc, fault, before))
        }
        SessionFault::Unfinished => Err(Refusal::Proof),
    }
}

/// The report of what [`SessionCheck::finish`](crate::SessionCheck::finish) answered. Err is the refusal of a check that has no report.
pub fn session_report(alloc: Global, answer: Result<Tally, SessionFault>) -> Result<Report, Refusal>
    ensures { Reports answer result }
{
    match answer {
        Ok(tally) => printed(verified(alloc, tally)),
        Err(fault) => fault_report(alloc, fault),
    }
}

/// The report of a check of both texts; it does not depend on the bytes of a text that are not read. Err is the refusal of a check that has
/// no report.
pub fn check_report(alloc: Global, check: &SessionCheck) -> Result<Report, Refusal>
    ensures texts { (L : Limits) (e p : List ℕ) → HasTaken L e p check.now → OfTexts e p check.now (λ events proof. IfOk result (ChecksSession L events proof)) }
    ensures refusal { (L : Limits) (e p : List ℕ) → HasTaken L e p check.now → IfErr result (HasNoReport check.now) }
{
    session_report(alloc, check.finish())
}
