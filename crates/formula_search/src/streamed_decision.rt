//! Decides a formula, and hands the lines of its proof to a sink as they are found.

ghost use Rattle.std.specs.Prelude.{◌≡◌, ◌^◌, ℕ, List, [], length, IfErr, IfOk, IfSome, MatchBool, None};
ghost use Rattle.cube_solve.specs.declared.stepwise.End.TheVariants.{Limit};
ghost use Rattle.dimacs.specs.logic.Cnf.{Cnf};
ghost use Rattle.elimination.specs.Kept.{IsLeftOf};
ghost use Rattle.formula_search.specs.Decisions.{DecidesTo, most_of};
ghost use Rattle.formula_search.specs.LogSinks.{IsUnwritten};
ghost use Rattle.formula_search.specs.inner.Streams.{HasEnded, IsEndedBy};

use crate::decision::{Asked, answered, most_of};
use crate::kept_streaming::search_kept_to;
use crate::log_sink::LogSink;
use crate::streaming::{Ending, Task, search_to};
use cube_solve::{End, Observer};
use dimacs::{Answer, Formula};
use elimination::{Kept, eliminate};
use lrat_text::closing_the_empty_cube_is_accepted;
use reports::{Refusal, Report};
use std::alloc::{AllocError, Global};

/// How many lemmas a search learns before variables are eliminated: most formulas need no more.
const FEW: u64 = 2000;

/// The most clauses of a formula that is searched twice: it takes a second to load a few million.
const MOST_CLAUSES: usize = 5_000_000;

/// The report of a search over a formula that has ended so. An error is want of memory, or the end of a search at 2^47 lemmas if no limit is
/// named.
fn report_of(alloc: Global, ending: Ending, asked: Asked) -> Result<Report, AllocError>
    ensures { (F : Cnf) (log : List ℕ) → IsEndedBy F (most_of asked.limit) ending.counts log ending.end → length log ≡ ending.counts.bytes → IfOk result (DecidesTo F asked (λ proof. proof ≡ log)) }
{
    closing_the_empty_cube_is_accepted();
    let Ending { end, counts, .. } = ending;
    match end {
        End::Model(values) => answered(alloc, Answer::Satisfiable(&values), asked, &counts, 10),
        End::Refuted => answered(alloc, Answer::Unsatisfiable, asked, &counts, 20),
        End::Limit => match asked.limit {
            Some(_) => answered(alloc, Answer::Unknown, asked, &counts, 0),
            None => Err(AllocError),
        },
    }
}

/// Reports how a search over a formula has ended, whose log the sink has.
fn reported(alloc: Global, ending: Ending, asked: Asked) -> Result<Report, Refusal>
    ensures decided { (F : Cnf) (log : List ℕ) → IsEndedBy F (most_of asked.limit) ending.counts log ending.end → length log ≡ ending.counts.bytes → IfOk result (DecidesTo F asked (λ proof. proof ≡ log)) }
    ensures refused { IfErr result IsUnwritten }
{
    match report_of(alloc, ending, asked) {
        Ok(report) => Ok(report),
        Err(_) => Err(Refusal::NoMemory),
    }
}

/// Whether a search has ended at its limit.
fn is_at_limit(end: &End) -> bool
    ensures { MatchBool result (end.now ≡ Limit) (¬ (end.now ≡ Limit)) }
{
    match end {
        End::Model(_) => false,
        End::Refuted => false,
        End::Limit => true,
    }
}

/// Searches a whole formula to the end.
fn search_whole_to<S: LogSink, O: Observer>(
    alloc: Global,
    formula: &Formula,
    limit: u64,
    sink: &mut S,
    observer: &mut O,
) -> Result<Ending, Refusal>
    requires { S.has sink.old [] }
    ensures ended { IfOk result (HasEnded formula.now limit (S.has sink.new)) }
    ensures refused { IfErr result IsUnwritten }
{
    let task = Task {
        alloc,
        base: formula.as_base(),
        limit,
        places: None,
    };
    let found = search_to(task, sink, observer)?;
    match found {
        Some(ending) => Ok(ending),
        None => Err(Refusal::NoMemory), // no line gets another number
    }
}

/// Decides a formula by one search over it, as [`decide_to`] does.
fn decide_whole_to<S: LogSink, O: Observer>(
    alloc: Global,
    formula: &Formula,
    asked: Asked,
    sink: &mut S,
    observer: &mut O,
) -> Result<Report, Refusal>
    requires { S.has sink.old [] }
    ensures decides { IfOk result (DecidesTo formula.now asked (S.has sink.new)) }
    ensures refused { IfErr result IsUnwritten }
{
    let ending = search_whole_to(alloc, formula, most_of(asked.limit), sink, observer)?;
    let report = reported(alloc, ending, asked)?;
    Ok(report)
}

/// What elimination keeps of a formula, if it can be eliminated from.
fn kept_of(alloc: Global, formula: &Formula) -> Result<Option<Kept>, Refusal>
    ensures kept { IfOk result (λ found. IfSome found (IsLeftOf formula.now)) }
    ensures refused { IfErr result IsUnwritten }
{
    match eliminate(alloc, formula, &[]) {
        Ok(kept) => Ok(kept),
        Err(_) => Err(Refusal::NoMemory),
    }
}

/// Searches what elimination keeps of a formula. `None` if that does not decide the formula.
fn search_less_to<S: LogSink, O: Observer>(
    alloc: Global,
    formula: &Formula,
    sink: &mut S,
    observer: &mut O,
) -> Result<Option<Ending>, Refusal>
    requires { S.has sink.old [] }
    ensures ended { IfOk result (λ found. IfSome found (HasEnded formula.now (2 ^ 47) (S.has sink.new))) }
    ensures refused { IfErr result IsUnwritten }
{
    let Some(kept) = kept_of(alloc, formula)? else {
        return Ok(None);
    };
    let found = search_kept_to(alloc, formula, &kept, sink, observer)?;
    Ok(found)
}

/// Decides a formula by a search over what elimination keeps of it, or by one over the whole formula, as [`decide_to`] does.
fn decide_less_to<S: LogSink, O: Observer>(
    alloc: Global,
    formula: &Formula,
    asked: Asked,
    sink: &mut S,
    observer: &mut O,
) -> Result<Report, Refusal>
    requires limit { asked.limit ≡ None }
    requires begins { S.has sink.old [] }
    ensures decides { IfOk result (DecidesTo formula.now asked (S.has sink.new)) }
    ensures refused { IfErr result IsUnwritten }
{
    sink.settle()?;
    let found = search_less_to(alloc, formula, sink, observer)?;
    match found {
        Some(ending) => {
            let report = reported(alloc, ending, asked)?;
            Ok(report)
        }
        None => {
            sink.empty()?;
            let report = decide_whole_to(alloc, formula, asked, sink, observer)?;
            Ok(report)
        }
    }
}

/// Decides a formula by a short search, and by elimination where that is too short, as [`decide_to`] does.
fn decide_without_limit_to<S: LogSink, O: Observer>(
    alloc: Global,
    formula: &Formula,
    asked: Asked,
    sink: &mut S,
    observer: &mut O,
) -> Result<Report, Refusal>
    requires limit { asked.limit ≡ None }
    requires begins { S.has sink.old [] }
    ensures decides { IfOk result (DecidesTo formula.now asked (S.has sink.new)) }
    ensures refused { IfErr result IsUnwritten }
{
    let ending = search_whole_to(alloc, formula, FEW, sink, observer)?;
    if is_at_limit(&ending.end) {
        sink.empty()?;
        let report = decide_less_to(alloc, formula, asked, sink, observer)?;
        return Ok(report);
    }
    let report = reported(alloc, ending, asked)?;
    Ok(report)
}

/// Decides a formula, and hands the lines of its proof to a sink as they are found, so that memory holds only what lives. Without a limit
/// variables are eliminated if the search is not short and the formula has at most 5,000,000 clauses; else the formula is searched as it
/// is.
///
/// The report has status 10 and an assignment that satisfies the formula; or 20, and then the sink has a log over the formula that is
/// accepted as a proof of it; or 0 if the search has learnt as many lemmas as the limit allows. The proof is not in the report. An error is
/// want of memory, the end of a search at 2^47 lemmas if no limit is named, or that the sink cannot take the proof. The sink is settled
/// before the search that is not the short one. The observer is shown how far each search has come.
pub fn decide_to<S: LogSink, O: Observer>(
    alloc: Global,
    formula: &Formula,
    asked: Asked,
    sink: &mut S,
    observer: &mut O,
) -> Result<Report, Refusal>
    requires { S.has sink.old [] }
    ensures decides { IfOk result (DecidesTo formula.now asked (S.has sink.new)) }
    ensures refused { IfErr result IsUnwritten }
{
    match asked.limit {
        None if formula.len() <= MOST_CLAUSES => {
            let report = decide_without_limit_to(alloc, formula, asked, sink, observer)?;
            Ok(report)
        }
        _ => {
            sink.settle()?;
            let report = decide_whole_to(alloc, formula, asked, sink, observer)?;
            Ok(report)
        }
    }
}
