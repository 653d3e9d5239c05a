//! How a worker begins: with a turn by itself, which decides small formulas, and then with what elimination leaves of the formula.

ghost use Rattle.std.specs.Prelude.{◌≡◌, ◌≤◌, ◌^◌, ◌++◌, ℕ, List, [], IfNone, IfOk, IfSome};
ghost use Rattle.elimination.specs.Kept.{IsLeftOf};
ghost use Rattle.shared_logs.specs.SharedLogs.{SharedStep};
ghost use Rattle.cell_worker.specs.WorkerLog.{HasBegun, IsWorkerReady, names_in, vars_in};
ghost use Rattle.sharing.specs.Sharing.{IsBeginning, IsRightShare};
ghost use Rattle.sharing.specs.inner.Writing.{IsStanding};

use crate::folder::Folder;
use crate::run::{Budget, Cell, Shared, ended, hand_out};
use cell_worker::CellWorker;
use elimination::{Kept, eliminate};
use icnf::Tree;
use reports::Refusal;
use std::alloc::{AllocError, Global};
use watches::Propagator;

/// The most clauses of a formula that is searched twice: it takes a second to load a few million.
const MOST_CLAUSES: usize = 5_000_000;

/// The most lemmas of the search without the others, which decides small formulas: elimination takes longer than most of them.
const FEW: u64 = 2000;

/// The greatest number of a clause.
const LAST: u64 = 1 << 47;

/// Whether a search has ended at its limit.
fn is_limit(end: &Shared) -> bool {
    match end {
        Shared::Limit => true,
        Shared::Satisfied(_) | Shared::Closed | Shared::ClosedByOthers => false,
    }
}

/// Searches the whole formula for one turn, without the other workers. `None` if that does not decide it and lemmas may still be learnt, or
/// if the formula is so large that it is searched once: then nothing is handed out.
pub(crate) fn search_alone<F: Folder, P: Propagator>(
    alloc: Global,
    propagator: &mut P,
    cell: Cell<'_>,
    folder: &mut F,
    budget: &mut Budget,
) -> Result<Option<Shared>, Refusal>
    requires { P.attached propagator.old ≡ [] }
    ensures log { F.has_logged folder.old [] → (bytes : List ℕ) × F.has_logged folder.new bytes × IsBeginning cell.entry.formula.now bytes }
    ensures quiet { IfOk result (λ found. IfNone found (folder.new ≡ folder.old)) }
    ensures ended { IfOk result (λ found. IfSome found (λ end. F.has_logged folder.old [] → (bytes : List ℕ) × F.has_logged folder.new bytes × IsRightShare cell.entry.formula.now cell.entry.tree.now bytes [] end)) }
{
    if cell.formula.len() > MOST_CLAUSES {
        return Ok(None);
    }
    let mut worker = match CellWorker::new(alloc, propagator, cell.formula, cell.asked.seed) {
        Ok(worker) => worker,
        Err(_) => return Err(Refusal::NoMemory),
    };
    let most = budget.left.min(budget.turn.min(FEW).max(1));
    let how = match worker.turn(&[], most) {
        Ok(how) => how,
        Err(_) => return Err(Refusal::NoMemory),
    };
    budget.left -= most;
    let end = ended(how);
    if budget.left > 0 && is_limit(&end) {
        return Ok(None);
    }
    hand_out(&mut worker, folder)?;
    Ok(Some(end))
}

/// Which variables the cubes of a tree name, by number.
fn named(alloc: Global, tree: &Tree, vars: u32) -> Result<Vec<bool>, AllocError> {
    let mut named = vec![in alloc; false; vars as usize + 1]?;
    for place in 0..tree.leaves() {
        for literal in tree.cube(place) {
            if let Some(cell) = named.get_mut(literal.var().number() as usize) {
                *cell = true;
            }
        }
    }
    Ok(named)
}

/// What elimination leaves of a cell's formula, with all variables that cubes name. `None` if the formula is too large for it.
fn left_of(alloc: Global, cell: Cell<'_>) -> Result<Option<Kept>, AllocError>
    ensures { IfOk result (λ found. IfSome found (λ kept. IsLeftOf cell.entry.formula.now kept × (kept.all ≤ 2 ^ 47))) }
{
    if cell.formula.len() > MOST_CLAUSES {
        return Ok(None);
    }
    let frozen = named(alloc, cell.tree, cell.formula.vars())?;
    let Some(kept) = eliminate(alloc, cell.formula, &frozen)? else {
        return Ok(None);
    };
    if kept.all > LAST {
        return Ok(None);
    }
    Ok(Some(kept))
}

/// A worker over what elimination leaves of a cell's formula, or over all of it.
fn worker_of<'a, P: Propagator>(
    alloc: Global,
    propagator: &'a mut P,
    cell: Cell<'a>,
) -> Result<CellWorker<'a, P>, AllocError>
    requires { P.attached propagator.old ≡ [] }
    ensures ready { IfOk result (IsWorkerReady P.is_ready P.attached) }
    ensures vars { IfOk result (λ w. vars_in w ≡ cell.entry.formula.now.vars) }
    ensures names { IfOk result (λ w. names_in w ≡ 0) }
    ensures begun { IfOk result (HasBegun cell.entry.formula.now) }
{
    match left_of(alloc, cell)? {
        Some(kept) => {
            let worker = CellWorker::over(alloc, propagator, cell.formula, kept, cell.asked.seed)?;
            Ok(worker)
        }
        None => {
            let worker = CellWorker::new(alloc, propagator, cell.formula, cell.asked.seed)?;
            Ok(worker)
        }
    }
}

/// The worker of a cell that searches with the others, after the first lines of its log were handed out.
pub(crate) fn begin<'a, F: Folder, P: Propagator>(
    alloc: Global,
    propagator: &'a mut P,
    cell: Cell<'a>,
    folder: &mut F,
) -> Result<CellWorker<'a, P>, Refusal>
    requires { P.attached propagator.old ≡ [] }
    ensures ready { IfOk result (IsWorkerReady P.is_ready P.attached) }
    ensures vars { IfOk result (λ w. vars_in w ≡ cell.entry.formula.now.vars) }
    ensures log { F.has_logged folder.old [] → (bytes : List ℕ) × F.has_logged folder.new bytes × IsBeginning cell.entry.formula.now bytes }
    ensures stands { IfOk result (λ w. F.has_logged folder.old [] → (bytes : List ℕ) × F.has_logged folder.new bytes × (steps : List SharedStep) × IsStanding cell.entry.formula.now steps bytes w) }
{
    let mut worker = match worker_of(alloc, propagator, cell) {
        Ok(worker) => worker,
        Err(_) => return Err(Refusal::NoMemory),
    };
    hand_out(&mut worker, folder)?;
    Ok(worker)
}
