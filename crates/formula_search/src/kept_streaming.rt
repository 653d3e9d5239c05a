//! A search over what elimination keeps of a formula, whose log is handed to a sink as it grows.

ghost use Rattle.std.specs.Prelude.{◌≡◌, ◌≤◌, ◌^◌, ◌-◌, ◌++◌, ℕ, List, [], length, IfErr, IfOk, IfSome};
ghost use Rattle.dimacs.specs.logic.Cnf.{Sat, assignment_of};
ghost use Rattle.elimination.specs.Kept.{IsLeftOf};
ghost use Rattle.formula_search.specs.LogSinks.{IsUnwritten};
ghost use Rattle.formula_search.specs.inner.Streams.{AreCountsBehind, HasEnded, IsEndedBy, IsMoved};

use crate::decision::NO_LIMIT;
use crate::log_sink::LogSink;
use crate::streaming::{Ending, Task, search_to};
use cube_solve::{Counts, End, Observer};
use dimacs::{Assignment, Formula, satisfies};
use elimination::{Kept, Witness};
use renumbered_logs::Renumbering;
use reports::Refusal;
use std::alloc::Global;

/// The counts of the log of a search behind the lines of the resolvents; `clauses` is the number of the formula's clauses. `None` if one is
/// 2^64.
fn counts_behind(kept: &Kept, clauses: usize, ending: &Ending) -> Option<Counts>
    ensures { IfSome result (AreCountsBehind kept.now.all clauses kept.now.lines ending.now) }
{
    let resolvents = kept.all.saturating_sub(clauses as u64);
    let lines = kept.lines.len() as u64;
    let Some(conflicts) = ending.counts.conflicts.checked_add(resolvents) else {
        return None;
    };
    let Some(bytes) = lines.checked_add(ending.bytes) else {
        return None;
    };
    Some(Counts {
        conflicts,
        bytes,
        ..ending.counts
    })
}

/// An assignment of the formula that extends one of the kept clauses, if it satisfies the formula.
fn extended(
    alloc: Global,
    formula: &Formula,
    witness: &Witness,
    found: &Assignment,
) -> Result<Option<Assignment>, Refusal>
    requires { length found.now ≡ formula.now.vars }
    ensures satisfies { IfOk result (λ extended. IfSome extended (λ values. (length values ≡ formula.now.vars) × Sat (assignment_of values) formula.now)) }
    ensures refused { IfErr result IsUnwritten }
{
    match witness.extended(alloc, found) {
        Ok(values) => {
            if !satisfies(&values, formula) {
                return Ok(None);
            }
            Ok(Some(values))
        }
        Err(_) => Err(Refusal::NoMemory),
    }
}

/// What the end of a search over the kept clauses says of the formula: the counts are those of the whole log. `None` if it does not decide
/// the formula.
fn settled(
    alloc: Global,
    formula: &Formula,
    kept: &Kept,
    ending: Ending,
) -> Result<Option<Ending>, Refusal>
    requires kept { IsLeftOf formula.now kept.now }
    requires some { 1 ≤ kept.now.all }
    requires few { kept.now.all ≤ 2 ^ 47 }
    requires limit { formula.now.vars ≤ 199999999 }
    requires ended { (log : List ℕ) × IsEndedBy kept.now.formula (2 ^ 47 - kept.now.all) ending.counts log ending.end }
    ensures ended { IfOk result (λ found. IfSome found (λ e. (log file : List ℕ) → IsMoved kept.now.numbers.items kept.now.all kept.now.eliminated.items log file → length file ≡ ending.bytes
        → IsEndedBy kept.now.formula (2 ^ 47 - kept.now.all) ending.counts log ending.end → IsEndedBy formula.now (2 ^ 47) e.counts (kept.now.lines ++ file) e.end × (length (kept.now.lines ++ file) ≡ e.counts.bytes))) }
    ensures refused { IfErr result IsUnwritten }
{
    let Some(counts) = counts_behind(kept, formula.len(), &ending) else {
        return Ok(None);
    };
    let Ending { end, bytes, .. } = ending;
    match end {
        End::Model(found) => {
            let Some(values) = extended(alloc, formula, &kept.witness, &found)? else {
                return Ok(None);
            };
            Ok(Some(Ending {
                end: End::Model(values),
                counts,
                bytes,
            }))
        }
        End::Refuted => Ok(Some(Ending {
            end: End::Refuted,
            counts,
            bytes,
        })),
        End::Limit => Ok(None),
    }
}

/// Searches what elimination keeps of a formula. `None` if that search does not decide the formula itself: its assignment satisfies what was
/// kept, and not the rest, or one of the limits is met of which nobody comes near.
pub(crate) fn search_kept_to<S: LogSink, O: Observer>(
    alloc: Global,
    formula: &Formula,
    kept: &Kept,
    sink: &mut S,
    observer: &mut O,
) -> Result<Option<Ending>, Refusal>
    requires kept { IsLeftOf formula.now kept.now }
    requires begins { S.has sink.old [] }
    ensures ended { IfOk result (λ found. IfSome found (HasEnded formula.now (2 ^ 47) (S.has sink.new))) }
    ensures refused { IfErr result IsUnwritten }
{
    let _ = formula.vars(); // tells the proof a bound of the number of variables
    if kept.all == 0 || kept.all > NO_LIMIT {
        return Ok(None);
    }
    sink.put(&kept.lines)?;
    let task = Task {
        alloc,
        base: kept.formula.as_base(),
        limit: NO_LIMIT - kept.all, // with the resolvents they are at most 2^47
        places: Some(Renumbering {
            numbers: &kept.numbers,
            all: kept.all,
            eliminated: &kept.eliminated,
        }),
    };
    let Some(ending) = search_to(task, sink, observer)? else {
        return Ok(None);
    };
    let found = settled(alloc, formula, kept, ending)?;
    Ok(found)
}
