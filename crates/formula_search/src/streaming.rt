//! A search whose log is handed to a sink as it grows, so that memory holds only what lives.

ghost use Rattle.std.specs.Prelude.{◌≡◌, ◌+◌, ◌++◌, ℕ, List, [], length, IfErr, IfOk, IfSome};
ghost use Rattle.cube_solve.specs.Stepwise.{IsAdvanced, IsUnderWay};
ghost use Rattle.dimacs.specs.logic.Cnf.{Cnf};
ghost use Rattle.formula_search.specs.LogSinks.{IsUnwritten};
ghost use Rattle.formula_search.specs.inner.Streams.{CanNumber, HasStreamed, IsMovedBy};
ghost use Rattle.lrat_text.specs.Grammar.{IsClauseNumber};
ghost use Rattle.renumbered_logs.specs.Renumbered.{GoesOn};

use crate::decision::NO_LIMIT;
use crate::log_sink::LogSink;
use cube_solve::{Advance, Counts, End, Observer, Stepwise};
use dimacs::Base;
use packed_text::PackedText;
use renumbered_logs::Renumbering;
use reports::Refusal;
use std::alloc::Global;
use watches::{Propagator, Watched};

/// How many lemmas a search learns before their lines are handed on.
const STEP: u64 = 1000;

/// What is to be searched, and how the lines of the log are handed on.
#[derive(Clone, Copy)]
pub(crate) struct Task<'a> {
    pub(crate) alloc: Global,
    /// The clauses.
    pub(crate) base: &'a Base,
    /// The most lemmas.
    pub(crate) limit: u64,
    /// The numbers under which lines are handed on; `None` for their own.
    pub(crate) places: Option<Renumbering<'a>>,
}

/// How a search has ended.
#[derive(Drop)]
pub(crate) struct Ending {
    /// The end.
    pub(crate) end: End,
    /// The counts, with the bytes of the search's own log.
    pub(crate) counts: Counts,
    /// The bytes that were handed on.
    pub(crate) bytes: u64,
}

/// The lines of a log under other numbers. `None` if a lemma has an eliminated variable, or if a number is too great.
fn renumbered(
    alloc: Global,
    places: Renumbering<'_>,
    text: &PackedText,
) -> Result<Option<PackedText>, Refusal>
    requires { IsClauseNumber places.all }
    ensures moved { IfOk result (λ found. IfSome found (GoesOn places.entry.numbers.now places.entry.all places.entry.eliminated.now text.now [])) }
    ensures refused { IfErr result IsUnwritten }
{
    let mut moved = PackedText::new(alloc);
    match places.append(alloc, &mut moved, text) {
        Ok(true) => Ok(Some(moved)),
        Ok(false) => Ok(None),
        Err(_) => Err(Refusal::NoMemory),
    }
}

/// The sum of bytes. It is an error if that is 2^64.
fn sum(bytes: u64, more: u64) -> Result<u64, Refusal>
    ensures value { IfOk result (λ all. all ≡ bytes + more) }
    ensures refused { IfErr result IsUnwritten }
{
    match bytes.checked_add(more) {
        Some(all) => Ok(all),
        None => Err(Refusal::NoMemory),
    }
}

/// Hands on lines of a log, after so many bytes, and answers how many bytes were handed on with them. `None` if they cannot get their
/// numbers.
fn hand_on<S: LogSink>(
    task: Task<'_>,
    sink: &mut S,
    text: &PackedText,
    bytes: u64,
) -> Result<Option<u64>, Refusal>
    requires { CanNumber task.places }
    ensures handed { IfOk result (λ found. IfSome found (λ all. (file : List ℕ) × IsMovedBy task.entry.places text.now file × (all ≡ bytes + length file) × ((before : List ℕ) → S.has sink.old before → S.has sink.new (before ++ file)))) }
    ensures refused { IfErr result IsUnwritten }
{
    match task.places {
        None => {
            sink.put(text)?;
            let all = sum(bytes, text.len() as u64)?;
            Ok(Some(all))
        }
        Some(places) => {
            let Some(moved) = renumbered(task.alloc, places, text)? else {
                return Ok(None);
            };
            sink.put(&moved)?;
            let all = sum(bytes, moved.len() as u64)?;
            Ok(Some(all))
        }
    }
}

/// A search before its first step.
fn begun<'a, P: Propagator>(
    propagator: &'a mut P,
    task: Task<'_>,
) -> Result<Stepwise<'a, P>, Refusal>
    requires { P.attached propagator.old ≡ [] }
    ensures under { IfOk result (IsUnderWay P.is_ready P.attached task.entry.base.now [] task.entry.limit []) }
    ensures refused { IfErr result IsUnwritten }
{
    match Stepwise::new(task.alloc, propagator, task.base, task.limit) {
        Ok(search) => Ok(search),
        Err(_) => Err(Refusal::NoMemory),
    }
}

/// Goes on by one step.
fn stepped<P: Propagator>(search: &mut Stepwise<'_, P>) -> Result<Advance, Refusal>
    requires { (B : Cnf) × (limit : ℕ) × (before : List ℕ) × IsUnderWay P.is_ready P.attached B [] limit before search.old }
    ensures advanced { IfOk result (λ advance. (B : Cnf) (limit : ℕ) (before : List ℕ) → IsUnderWay P.is_ready P.attached B [] limit before search.old → IsAdvanced P.is_ready P.attached B [] limit before advance search.new) }
    ensures refused { IfErr result IsUnwritten }
{
    match search.advance(&[], STEP) {
        Ok(advance) => Ok(advance),
        Err(_) => Err(Refusal::NoMemory),
    }
}

/// Runs a search to its end, and hands on the lines of its log step by step. The observer is shown the counts after each step. `None` if a
/// line cannot get its number.
fn run<P: Propagator, S: LogSink, O: Observer>(
    search: &mut Stepwise<'_, P>,
    task: Task<'_>,
    sink: &mut S,
    observer: &mut O,
) -> Result<Option<Ending>, Refusal>
    requires under { IsUnderWay P.is_ready P.attached task.base.now [] task.limit [] search.old }
    requires numbered { CanNumber task.places }
    ensures ended { IfOk result (λ found. IfSome found (HasStreamed task.entry.base.now task.entry.limit task.entry.places (S.has sink.old) (S.has sink.new))) }
    ensures refused { IfErr result IsUnwritten }
{
    let mut bytes = 0;
    'steps: for _ in 0..NO_LIMIT {
        let Advance { counts, text, end } = stepped(search)?;
        let Some(all) = hand_on(task, sink, &text, bytes)? else {
            return Ok(None);
        };
        bytes = all;
        observer.see(&counts);
        match end {
            None => {}
            Some(end) => return Ok(Some(Ending { end, counts, bytes })),
        }
    }
    Err(Refusal::NoMemory) // each step learns a lemma, and there are at most 2^47
}

/// Searches to the end, as [`run`] does.
pub(crate) fn search_to<S: LogSink, O: Observer>(
    task: Task<'_>,
    sink: &mut S,
    observer: &mut O,
) -> Result<Option<Ending>, Refusal>
    requires { CanNumber task.places }
    ensures ended { IfOk result (λ found. IfSome found (HasStreamed task.entry.base.now task.entry.limit task.entry.places (S.has sink.old) (S.has sink.new))) }
    ensures refused { IfErr result IsUnwritten }
{
    let mut watched = Watched::new(task.alloc);
    let mut search = begun(&mut watched, task)?;
    run(&mut search, task, sink, observer)
}
