//! The worker's loop: it reads what others offer, takes over the shortest lemmas, searches for a turn, and appends to its log and offers; and
//! so under leaf after leaf.

ghost use Rattle.std.specs.Prelude.{◌≡◌, ◌<◌, ◌≤◌, ◌^◌, ◌++◌, ℕ, List, [], All, MatchBool, IfOk, OnOk, length};
ghost use Rattle.dimacs.specs.logic.Cnf.{AreWithin, Cnf};
ghost use Rattle.dimacs.specs.logic.Literal.{IsTautology, IsWithin};
ghost use Rattle.lrat_text.specs.Log.{Cube};
ghost use Rattle.shared_logs.specs.SharedLogs.{SharedStep};
ghost use Rattle.shared_logs.specs.SharedText.{Names};
ghost use Rattle.cell_worker.specs.WorkerLog.{IsRightTurn, IsSharedText, IsWorkerReady, vars_in};
ghost use Rattle.sharing.specs.Sharing.{FitsLines, IsBeginning, IsRightShare, leaf_line};
ghost use Rattle.sharing.specs.inner.Writing.{Closing, HasEnded, IsLast, IsStanding, IsWriting, IsWritingSteps};

use crate::beginning::{begin, search_alone};
use crate::exchange::Exchange;
use crate::folder::{Folder, Teller};
use cell_worker::{CellWorker, Turn};
use dimacs::{Assignment, Formula, Lit};
use icnf::Tree;
use reports::{Refusal, put_number};
use std::alloc::{AllocError, Global};
use watches::Propagator;

/// What a worker is asked.
#[derive(Clone, Copy, Debug, PartialEq, Eq)]
pub struct Asked {
    /// The seed of its first order of variables and of their first values; 0 for the plain search.
    pub seed: u64,
    /// The greatest number of lemmas, of turns that close nothing.
    pub limit: u64,
    /// The number of lemmas in a turn.
    pub turn: u64,
    /// Whether closed leaves are not told.
    pub quiet: bool,
}

/// What a cell searches, and where one of its workers begins.
#[derive(Clone, Copy)]
pub struct Cell<'a> {
    /// The formula.
    pub formula: &'a Formula,
    /// The tree into which it is split; if it is not split, the tree of one leaf.
    pub tree: &'a Tree,
    /// The place of the leaf under which the worker searches first, from 0.
    pub first: usize,
    /// What the worker is asked.
    pub asked: Asked,
}

/// How a worker ends.
#[derive(Drop)]
pub enum Shared {
    /// An assignment satisfies the formula and makes the query true.
    Satisfied(Assignment),
    /// The last lemma of the log closes the query.
    Closed,
    /// A lemma that was taken over closes the query.
    ClosedByOthers,
    /// As many lemmas were learnt as the limit allows.
    Limit,
}

/// How many lemmas may still be learnt, and how many in a turn.
#[derive(Clone, Copy)]
pub(crate) struct Budget {
    pub(crate) left: u64,
    pub(crate) turn: u64,
}

/// How the worker's search ends after a turn that ended so.
pub(crate) fn ended(how: Turn) -> Shared
    ensures { (C : Cnf) (query : Cube) (steps lines : List SharedStep) → IsRightTurn C query lines how → FitsLines C query (steps ++ lines) result }
{
    match how {
        Turn::Satisfied(values) => Shared::Satisfied(values),
        Turn::Closed(_) => Shared::Closed,
        Turn::Limit | Turn::Restored => Shared::Limit, // in both cases it goes on
    }
}

/// Appends what the worker has written to its log, and then what it offers to its offers.
pub(crate) fn hand_out<F: Folder, P: Propagator>(
    worker: &mut CellWorker<'_, P>,
    folder: &mut F,
) -> Result<(), Refusal>
    requires { IsWorkerReady P.is_ready P.attached worker.old }
    ensures ready { IsWorkerReady P.is_ready P.attached worker.new }
    ensures vars { vars_in worker.new ≡ vars_in worker.old }
    ensures handed { OnOk result ((C : Cnf) (steps : List SharedStep) (log : List ℕ) → IsWritingSteps C steps log worker.old → F.has_logged folder.old log
        → (more : List ℕ) × F.has_logged folder.new (log ++ more) × IsStanding C steps (log ++ more) worker.new) }
    ensures some { (C : Cnf) (log : List ℕ) → IsWriting C log worker.old → F.has_logged folder.old log
        → (more : List ℕ) × F.has_logged folder.new (log ++ more) × IsBeginning C (log ++ more) }
{
    folder.log(worker.written())?;
    worker.forget();
    folder.offer(worker.offered())?;
    worker.forget_offers();
    Ok(())
}

/// Reads, takes over, searches for at most `most` lemmas, and appends. Answers how the search ends; `Limit` says that it goes on.
fn take_turn<F: Folder, P: Propagator>(
    worker: &mut CellWorker<'_, P>,
    exchange: &mut Exchange<'_>,
    folder: &mut F,
    query: &[Lit],
    most: u64,
) -> Result<Shared, Refusal>
    requires ready { IsWorkerReady P.is_ready P.attached worker.old }
    requires within { All (IsWithin (vars_in worker.old)) query.now }
    requires consistent { ¬ (IsTautology query.now) }
    ensures ready { OnOk result (IsWorkerReady P.is_ready P.attached worker.new) }
    ensures vars { OnOk result (vars_in worker.new ≡ vars_in worker.old) }
    ensures log { (C : Cnf) (log : List ℕ) → IsWriting C log worker.old → F.has_logged folder.old log → (bytes : List ℕ) × F.has_logged folder.new bytes × IsBeginning C bytes }
    ensures ended { IfOk result (λ end. (C : Cnf) (steps : List SharedStep) (log : List ℕ) → IsWritingSteps C steps log worker.old → F.has_logged folder.old log
        → (bytes : List ℕ) × F.has_logged folder.new bytes × HasEnded C query.now steps bytes end worker.new) }
{
    exchange.read(folder)?;
    match exchange.take_over(worker, query) {
        Ok(false) => {}
        Ok(true) => {
            hand_out(worker, folder)?;
            return Ok(Shared::ClosedByOthers);
        }
        Err(_) => return Err(Refusal::NoMemory),
    }
    let end = match worker.turn(query, most) {
        Ok(end) => end,
        Err(_) => return Err(Refusal::NoMemory),
    };
    hand_out(worker, folder)?;
    Ok(ended(end))
}

/// Searches for an assignment that satisfies the formula and makes the literals of a query true, by turns.
fn search<F: Folder, P: Propagator>(
    worker: &mut CellWorker<'_, P>,
    exchange: &mut Exchange<'_>,
    folder: &mut F,
    query: &[Lit],
    budget: &mut Budget,
) -> Result<Shared, Refusal>
    requires ready { IsWorkerReady P.is_ready P.attached worker.old }
    requires within { All (IsWithin (vars_in worker.old)) query.now }
    requires consistent { ¬ (IsTautology query.now) }
    ensures ready { OnOk result (IsWorkerReady P.is_ready P.attached worker.new) }
    ensures vars { OnOk result (vars_in worker.new ≡ vars_in worker.old) }
    ensures log { (C : Cnf) (steps : List SharedStep) (log : List ℕ) → IsStanding C steps log worker.old → F.has_logged folder.old log → (bytes : List ℕ) × F.has_logged folder.new bytes × IsBeginning C bytes }
    ensures ended { IfOk result (λ end. (C : Cnf) (steps : List SharedStep) (log : List ℕ) → IsStanding C steps log worker.old → F.has_logged folder.old log
        → (bytes : List ℕ) × F.has_logged folder.new bytes × HasEnded C query.now steps bytes end worker.new) }
{
    'turns: while budget.left > 0 {
        let most = budget.left.min(budget.turn.max(1));
        match take_turn(worker, exchange, folder, query, most)? {
            Shared::Limit => {}
            end => return Ok(end),
        }
        budget.left -= most;
    }
    Ok(Shared::Limit)
}

/// Whether a search under a query that ended so has closed it, and the query is not the whole formula: the worker goes on to the next leaf.
fn goes_on(end: &Shared, query: &[Lit]) -> bool
    ensures { MatchBool result (Closing end.now) (IsLast query.now end.now) }
{
    match end {
        Shared::Closed | Shared::ClosedByOthers => !query.is_empty(),
        Shared::Satisfied(_) | Shared::Limit => false,
    }
}

/// Appends the line that tells that the leaf at a place is closed.
fn put_closed(line: &mut Vec<u8>, place: usize) -> Result<(), AllocError>
    requires { place < 2 ^ 62 }
    ensures { OnOk result (line.new.items ≡ line.old.items ++ leaf_line place) }
{
    line.extend_from_slice(b"c leaf ")?;
    put_number(line, place as u64 + 1)?;
    line.extend_from_slice(b" closed\n")
}

/// Tells that the leaf at a place is closed, except if `quiet`.
fn tell<T: Teller>(alloc: Global, teller: &mut T, place: usize, quiet: bool) -> Result<(), Refusal>
    requires { place < 2 ^ 62 }
    ensures { OnOk result (MatchBool quiet (teller.new ≡ teller.old) ((text : List ℕ) → T.has_told teller.old text → T.has_told teller.new (text ++ leaf_line place))) }
{
    if quiet {
        return Ok(());
    }
    let mut line = Vec::new(alloc);
    match put_closed(&mut line, place) {
        Ok(()) => teller.tell(&line),
        Err(_) => Err(Refusal::NoMemory),
    }
}

/// The place of the leaf after the one at a place; after the last one, the first.
fn next_place(place: usize, leaves: usize) -> usize
    requires within { place < leaves }
    requires few { leaves ≤ 65536 }
    ensures { result < leaves }
{
    if place + 1 < leaves { place + 1 } else { 0 }
}

/// Searches for an assignment that satisfies the formula of a cell, and shares lemmas with the other workers of the folder. The worker
/// searches the whole formula for a turn by itself. If that does not decide it, variables are eliminated, but none that a cube names, and it
/// begins again with what is left. It searches under its first leaf; if that is closed, by itself or by a lemma that it takes over, this is
/// told, and the worker goes on to the leaf behind it, and so on through all leaves; then under the whole formula. The propagator has no
/// clause yet, and the worker's log is empty.
pub fn share<F: Folder, T: Teller, P: Propagator>(
    alloc: Global,
    propagator: &mut P,
    cell: Cell<'_>,
    folder: &mut F,
    teller: &mut T,
) -> Result<Shared, Refusal>
    requires empty { P.attached propagator.old ≡ [] }
    requires within { AreWithin cell.formula.now.vars cell.tree.now }
    requires first { cell.first < length cell.tree.now }
    // whatever the others' bytes say and however the run ends: what stands in the log is the beginning of a log with imports
    ensures log { F.has_logged folder.old [] → (bytes : List ℕ) × F.has_logged folder.new bytes × IsBeginning cell.entry.formula.now bytes }
    ensures ended { IfOk result (λ end. F.has_logged folder.old [] → T.has_told teller.old []
        → (bytes told : List ℕ) × F.has_logged folder.new bytes × T.has_told teller.new told × IsRightShare cell.entry.formula.now cell.entry.tree.now bytes told end) }
{
    let mut budget = Budget {
        left: cell.asked.limit,
        turn: cell.asked.turn,
    };
    if let Some(alone) = search_alone(alloc, propagator, cell, folder, &mut budget)? {
        return Ok(alone);
    }
    propagator.release();
    let mut worker = begin(alloc, propagator, cell, folder)?;
    let mut exchange = match Exchange::of(alloc, cell.tree, cell.formula.vars()) {
        Ok(exchange) => exchange,
        Err(_) => return Err(Refusal::NoMemory),
    };
    let leaves = cell.tree.leaves();
    let mut place = cell.first;
    'leaves: for _ in 0..leaves {
        let query = cell.tree.cube(place);
        let end = search(&mut worker, &mut exchange, folder, query, &mut budget)?;
        if !goes_on(&end, query) {
            return Ok(end);
        }
        tell(alloc, teller, place, cell.asked.quiet)?;
        exchange.note_closed(place);
        place = next_place(place, leaves);
    }
    let last = search(&mut worker, &mut exchange, folder, &[], &mut budget)?;
    Ok(last)
}
