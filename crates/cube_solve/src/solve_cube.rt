//! The entry points: solving a base under a cube.

ghost use Rattle.std.specs.Prelude.{◌≡◌, [], map, nat_eq, All, IfOk};
ghost use Rattle.std.specs.List.{IsDistinct};
ghost use Rattle.dimacs.specs.logic.Literal.{IsWithin, var_of};
ghost use Rattle.cube_solve.specs.Counts.{AreCounts, HasLog};
ghost use Rattle.cube_solve.specs.Outcome.{IsRightOutcome};

use crate::decision_order::Waiting;
use crate::observer::{Observer, Unobserved};
use crate::outcome::{Outcome, Searched};
use crate::search::Search;
use dimacs::{Base, Lit};
use std::alloc::{AllocError, Global};
use watches::{Propagator, Watched};

/// Searches for an assignment that satisfies the base and makes the cube true, by the caller's
/// propagator, to which no clause is attached yet. [`solve`] has the limits and the outcomes.
pub fn solve_by<P: Propagator>(
    alloc: Global,
    propagator: &mut P,
    base: &Base,
    cube: &[Lit],
    limit: u64,
) -> Result<Outcome, AllocError>
    requires none { P.attached propagator.old ≡ [] }
    requires distinct { IsDistinct nat_eq (map var_of cube.now) }
    requires within { All (IsWithin base.now.vars) cube.now }
    ensures { IfOk result (IsRightOutcome base.now cube.now limit) }
{
    let search = Search::new(alloc, propagator, base, Waiting::All)?;
    let searched = search.run(base, cube, limit, &mut Unobserved)?;
    Ok(searched.into_outcome())
}

/// Searches for an assignment that satisfies the base and makes the cube true. No variable stands in two literals of the cube.
///
/// A model has one truth value for each variable. A refutation is a fragment that closes the cube: a log of at most `limit` lemmas, and
/// then the lemma that closes. At the conflict that would need one lemma more, the search ends with its log. A limit above 2^47 counts
/// as 2^47. Each lemma except the closing one has no clause as a subset that was live when it was learnt. Over at most six variables, a
/// limit above three to the power of their number is never reached.
pub fn solve(alloc: Global, base: &Base, cube: &[Lit], limit: u64) -> Result<Outcome, AllocError>
    requires distinct { IsDistinct nat_eq (map var_of cube.now) }
    requires within { All (IsWithin base.now.vars) cube.now }
    ensures { IfOk result (IsRightOutcome base.now cube.now limit) }
{
    let mut watched = Watched::new(alloc);
    solve_by(alloc, &mut watched, base, cube, limit)
}

/// Searches as [`solve`] does, shows an observer the counts of the search after each 1,000 conflicts and at its end, and answers them
/// beside the outcome,
/// and the log if it found an assignment.
pub fn solve_observed<O: Observer>(
    alloc: Global,
    base: &Base,
    cube: &[Lit],
    limit: u64,
    observer: &mut O,
) -> Result<Searched, AllocError>
    requires distinct { IsDistinct nat_eq (map var_of cube.now) }
    requires within { All (IsWithin base.now.vars) cube.now }
    ensures right { IfOk result (λ s. IsRightOutcome base.now cube.now limit s.outcome) }
    ensures counts { IfOk result (λ s. AreCounts base.now limit s.counts s.outcome) }
    ensures log { IfOk result (λ s. HasLog base.now s.counts s.outcome s.log) }
{
    let mut watched = Watched::new(alloc);
    let search = Search::new(alloc, &mut watched, base, Waiting::All)?;
    let searched = search.run(base, cube, limit, observer)?;
    observer.see(&searched.counts);
    Ok(searched)
}
