//! The report of a verdict: status 0 at `Nothing`, 10 at an assignment, 20 at a proof.

ghost use Rattle.std.specs.Prelude.{◌≡◌, ℕ, IfOk, None, Some};
ghost use Rattle.dimacs.specs.text.Answer.{Lines};
ghost use Rattle.dimacs.specs.logic.Cnf.{Cnf};
ghost use Rattle.lrat_check.specs.Verdicts.{Right};
ghost use Rattle.event_loop.specs.Accounts as arrivals;
ghost use Rattle.runs.specs.Accounts.{HasBegun};
ghost use Rattle.node_main.specs.Decisions.{Decides};
ghost use Rattle.node_main.specs.RunCalls.{WasRun, WasServed};
ghost use Rattle.node_main.specs.ServiceReports.{proof_in};

use command_line::Options;
use dimacs::{Answer, answer_lines};
use lrat_check::Verdict;
use reports::Report;
use std::alloc::{AllocError, Global};

/// A report with the lines of this answer and this status; the assignment is printed if `witness` is set. An error is want of memory.
fn answered(alloc: Global, answer: Answer, witness: bool, status: u8) -> Result<Report, AllocError>
    ensures text { IfOk result (λ r. r.stdout.items ≡ Lines answer.entry witness) }
    ensures status { IfOk result (λ r. r.status ≡ status) }
    ensures proof { IfOk result (λ r. r.proof ≡ None) }
{
    let mut report = Report::of(alloc, b"", status)?;
    answer_lines(answer, witness, &mut report.stdout)?;
    Ok(report)
}

/// The report of a verdict that the caller keeps, without its proof. An error is want of memory.
pub(crate) fn reported(
    alloc: Global,
    verdict: &Verdict,
    options: &Options,
) -> Result<Report, AllocError>
    // With the proof that the caller keeps, the report of a right verdict decides the formula.
    ensures decides { (F : Cnf) → Right F verdict.now → IfOk result (λ r. Decides F options.now (record r { proof = proof_in verdict.now })) }
    ensures used { (base calls : ℕ) → arrivals.HasBegun base calls verdict.now → IfOk result (λ r. WasServed base calls (record r { proof = proof_in verdict.now })) }
{
    match verdict {
        Verdict::Nothing => answered(alloc, Answer::Unknown, options.witness, 0),
        Verdict::Model(values) => {
            answered(alloc, Answer::Satisfiable(values), options.witness, 10)
        }
        Verdict::Proof(_) => answered(alloc, Answer::Unsatisfiable, options.witness, 20),
    }
}

/// The report of a verdict, with its proof if it has one. An error is want of memory.
pub(crate) fn decided(
    alloc: Global,
    verdict: Verdict,
    options: &Options,
) -> Result<Report, AllocError>
    // The report of a right verdict decides the formula.
    ensures decides { (F : Cnf) → Right F verdict → IfOk result (Decides F options.now) }
    ensures used { (base calls : ℕ) → HasBegun base calls verdict → IfOk result (WasRun base calls) }
{
    match verdict {
        Verdict::Nothing => answered(alloc, Answer::Unknown, options.witness, 0),
        Verdict::Model(values) => {
            answered(alloc, Answer::Satisfiable(&values), options.witness, 10)
        }
        Verdict::Proof(text) => {
            let mut report = answered(alloc, Answer::Unsatisfiable, options.witness, 20)?;
            report.proof = Some(text);
            Ok(report)
        }
    }
}
