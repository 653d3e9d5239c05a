//! Resolvents of two clauses.

ghost use Rattle.std.specs.Prelude.{[], ◌∷◌, IfOk, MatchBool};
ghost use Rattle.dimacs.specs.logic.Literal.{Clause};
ghost use Rattle.elimination.specs.inner.Resolvents.{IsResolvent};
ghost use Rattle.elimination.specs.inner.Gathered.{IsGathered, IsRefused};

use dimacs::{Lit, has_literal};
use std::alloc::AllocError;

/// Appends a literal to `out`, unless it is `on` or stands there. Answers false if no clause that
/// is to have it can be a resolvent: it is the negation of `on`, or its own negation stands there.
#[inline]
fn gather_literal(literal: Lit, on: Lit, out: &mut Vec<Lit>) -> Result<bool, AllocError>
    ensures { IfOk result (λ some. MatchBool some (IsGathered (literal ∷ []) on out.old.items out.new.items) (IsRefused (literal ∷ []) on out.old.items)) }
{
    if literal == on {
        return Ok(true);
    }
    let negation = literal.negate();
    if negation == on || has_literal(out, negation) {
        return Ok(false);
    }
    if !has_literal(out, literal) {
        out.push(literal)?;
    }
    Ok(true)
}

/// Appends to `out` the literals of a clause but `on`, those that do not stand there. Answers false
/// if no resolvent has all of these.
fn gather(clause: &[Lit], on: Lit, out: &mut Vec<Lit>) -> Result<bool, AllocError>
    ensures { IfOk result (λ some. MatchBool some (IsGathered clause.now on out.old.items out.new.items) (IsRefused clause.now on out.old.items)) }
{
    for &literal in clause {
        if !gather_literal(literal, on, out)? {
            return Ok(false);
        }
    }
    Ok(true)
}

/// Writes the resolvent of two clauses on a literal to `out`: the literals of `left` but `on`, and
/// those of `right` but its negation, none twice. Answers false, and then `out` is of no use, if
/// there is none: `on` is not in `left` or its negation not in `right`, one of the clauses has both,
/// or the resolvent would be a tautology.
pub(crate) fn resolve(
    left: &[Lit],
    right: &[Lit],
    on: Lit,
    out: &mut Vec<Lit>,
) -> Result<bool, AllocError>
    ensures { IfOk result (λ some. MatchBool some (IsResolvent left.now right.now on out.new.items) ((R : Clause) → ¬ (IsResolvent left.now right.now on R))) }
{
    let negation = on.negate();
    if !has_literal(left, on) || !has_literal(right, negation) {
        return Ok(false);
    }
    out.clear();
    if !gather(left, on, out)? {
        return Ok(false);
    }
    gather(right, negation, out)
}
