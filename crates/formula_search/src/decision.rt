//! What is asked of a search over a formula, and the report of a formula with its proof.

ghost use Rattle.std.specs.Prelude.{◌≡◌, ◌++◌, IfOk, None};
ghost use Rattle.dimacs.specs.text.Answer.{Lines};
ghost use Rattle.formula_search.specs.Decisions.{Decides, most_of, stats_text};

use crate::log_sink::KeptText;
use crate::stats::put_stats;
use crate::streamed_decision::decide_to;
use cube_solve::{Counts, Observer};
use dimacs::{Answer, Formula, answer_lines};
use reports::Report;
use std::alloc::{AllocError, Global};

/// What is asked of a search over a formula.
#[derive(Clone, Copy, Debug, PartialEq, Eq)]
pub struct Asked {
    /// The most lemmas that the search may learn; `None` for any number. A limit above 2^47 counts as 2^47.
    pub limit: Option<u64>,
    /// Whether the `v` lines of an assignment are printed.
    pub witness: bool,
    /// Whether the counts of the search are printed after the answer.
    pub stats: bool,
}

/// The limit of a search without one: 2^47 lemmas, which take more memory than there is.
pub(crate) const NO_LIMIT: u64 = 1 << 47;

/// The most lemmas that a search may learn.
pub(crate) fn most_of(limit: Option<u64>) -> u64
    ensures { result ≡ most_of limit }
{
    match limit {
        Some(limit) => limit,
        None => NO_LIMIT,
    }
}

/// A report of an answer with this status, without a proof, and with the counts of the search if they are asked for. An error is want of
/// memory.
pub(crate) fn answered(
    alloc: Global,
    answer: Answer,
    asked: Asked,
    counts: &Counts,
    status: u8,
) -> Result<Report, AllocError>
    ensures text { IfOk result (λ r. r.stdout.items ≡ Lines answer.entry asked.witness ++ stats_text asked.stats counts.now) }
    ensures status { IfOk result (λ r. r.status ≡ status) }
    ensures proof { IfOk result (λ r. r.proof ≡ None) }
{
    let mut report = Report::of(alloc, b"", status)?;
    answer_lines(answer, asked.witness, &mut report.stdout)?;
    put_stats(&mut report.stdout, asked.stats, counts)?;
    Ok(report)
}

/// Decides a formula, and keeps its proof in memory. Without a limit variables are eliminated if the search is not short and the formula has
/// at most 5,000,000 clauses; else the formula is searched as it is.
///
/// The report has status 10 and an assignment that satisfies the formula; or 20, and as its proof a log over the formula that is accepted
/// as a proof of it; or 0 if the search has learnt as many lemmas as the limit allows. An error is want of memory, or the end of a search
/// at 2^47 lemmas if no limit is named. The observer is shown how far each search has come.
pub fn decide<O: Observer>(
    alloc: Global,
    formula: &Formula,
    asked: Asked,
    observer: &mut O,
) -> Result<Report, AllocError>
    ensures { IfOk result (Decides formula.now asked) }
{
    let mut kept = KeptText::new(alloc);
    match decide_to(alloc, formula, asked, &mut kept, observer) {
        Ok(report) => {
            if report.status == 20 {
                let mut report = report;
                report.proof = Some(kept.into_text());
                return Ok(report);
            }
            Ok(report)
        }
        Err(_) => Err(AllocError),
    }
}
