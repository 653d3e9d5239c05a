//! The session of a worker whose search has what elimination has left of a formula.

ghost use Rattle.std.specs.Prelude.{◌≡◌, ◌<◌, ◌≤◌, ◌^◌, [], All, IfOk, OnOk};
ghost use Rattle.std.specs.FinMap.{insert};
ghost use Rattle.dimacs.specs.logic.ClauseMap.{ClauseMap};
ghost use Rattle.dimacs.specs.logic.Literal.{IsWithin};
ghost use Rattle.cube_solve.specs.Session.{IsReady, last_of, log_of, vars_of};
ghost use Rattle.cell_worker.specs.inner.KeptSession.{AreNumbered, HasNumbered, KnowsAll};

use cube_solve::Session;
use dimacs::{Builder, Lit};
use elimination::Kept;
use std::alloc::{AllocError, Global};
use watches::Propagator;

/// Gives a clause to a session under a number of its own.
fn give_as<P: Propagator>(
    search: &mut Session<'_, P>,
    number: u64,
    clause: &[Lit],
) -> Result<(), AllocError>
    requires ready { IsReady P.is_ready P.attached search.old }
    requires within { All (IsWithin (vars_of search.old)) clause.now }
    requires above { last_of search.old < number }
    requires most { number ≤ 2 ^ 47 }
    ensures ready { OnOk result (IsReady P.is_ready P.attached search.new) }
    ensures vars { OnOk result (vars_of search.new ≡ vars_of search.old) }
    ensures last { OnOk result (last_of search.new ≡ number) }
    ensures log { OnOk result (log_of search.new ≡ log_of search.old) }
    ensures known { OnOk result ((M : ClauseMap) → KnowsAll M search.old → KnowsAll (insert M number clause.now) search.new) }
{
    search.skip_to(number - 1)?;
    search.give(clause)?;
    Ok(())
}

/// Gives the kept clauses to a session that has none, each under its number among all clauses.
fn give_all<P: Propagator>(search: &mut Session<'_, P>, kept: &Kept) -> Result<(), AllocError>
    requires ready { IsReady P.is_ready P.attached search.old }
    requires vars { vars_of search.old ≡ kept.now.formula.vars }
    requires first { last_of search.old ≡ 0 }
    requires numbered { AreNumbered kept.now.formula.clauses kept.now.numbers.items kept.now.all }
    requires few { kept.now.all ≤ 2 ^ 47 }
    requires none { HasNumbered kept.now.formula.clauses kept.now.numbers.items search.old }
    ensures ready { OnOk result (IsReady P.is_ready P.attached search.new) }
    ensures vars { OnOk result (vars_of search.new ≡ vars_of search.old) }
    ensures last { OnOk result (last_of search.new ≤ kept.now.all) }
    ensures log { OnOk result (log_of search.new ≡ log_of search.old) }
    ensures known { OnOk result (HasNumbered kept.now.formula.clauses kept.now.numbers.items search.new) }
{
    for i in 0..kept.formula.len() {
        give_as(search, kept.numbers[i], kept.formula.clause(i))?;
    }
    Ok(())
}

/// A session that has the kept clauses under their numbers among all clauses; the number of its next clause is behind these.
pub(crate) fn session_over<'a, P: Propagator>(
    alloc: Global,
    propagator: &'a mut P,
    kept: &Kept,
) -> Result<Session<'a, P>, AllocError>
    requires empty { P.attached propagator.old ≡ [] }
    requires numbered { AreNumbered kept.now.formula.clauses kept.now.numbers.items kept.now.all }
    requires few { kept.now.all ≤ 2 ^ 47 }
    ensures ready { IfOk result (IsReady P.is_ready P.attached) }
    ensures vars { IfOk result (λ s. vars_of s ≡ kept.now.formula.vars) }
    ensures last { IfOk result (λ s. last_of s ≡ kept.now.all) }
    ensures log { IfOk result (λ s. log_of s ≡ []) }
    ensures known { IfOk result (HasNumbered kept.now.formula.clauses kept.now.numbers.items) }
{
    let none = Builder::new(alloc)?.finish(kept.formula.vars())?;
    let mut search = Session::new(alloc, propagator, none.as_base())?;
    give_all(&mut search, kept)?;
    search.skip_to(kept.all)?;
    Ok(search)
}
