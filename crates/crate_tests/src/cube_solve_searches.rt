//! Searches under a cube, each to every outcome.

ghost use Rattle.dimacs.specs.logic.Literal.{IsWithin};

use crate::inputs::FOUR;
use cube_solve::{Outcome, solve};
use dimacs::{Base, Lit, Var, read};
use std::alloc::{AllocError, Global};
use std::process::Abort;
use std::test::Fail;

/// No assignment of three variables satisfies these clauses.
pub(crate) const EIGHT: &[u8] =
    b"p cnf 3 8\n1 2 3 0\n1 2 -3 0\n1 -2 3 0\n1 -2 -3 0\n-1 2 3 0\n-1 2 -3 0\n-1 -2 3 0\n-1 -2 -3 0\n";

/// The outcome that is expected.
#[derive(Drop)]
enum Want {
    Model(&'static [bool]),
    Refuted(&'static [u8]),
    Limit(&'static [u8]),
}

/// A base, the variable that is assumed, none if 0, the limit, and what comes of it.
type Row = (&'static [u8], u32, u64, Want);

pub(crate) fn base_of(alloc: Global, text: &[u8]) -> Result<Base, Fail> {
    let formula = read(alloc, text)?;
    let base = Base::of(alloc, &formula)?;
    Ok(base)
}

fn solve_alone(alloc: Global, base: &Base, limit: u64) -> Result<Outcome, AllocError> {
    solve(alloc, base, &[], limit)
}

fn solve_under(alloc: Global, base: &Base, literal: Lit, limit: u64) -> Result<Outcome, AllocError>
    requires { IsWithin base.now.vars literal }
{
    solve(alloc, base, &[literal], limit)
}

fn is_wanted(outcome: &Outcome, want: &Want) -> bool {
    match (outcome, want) {
        (Outcome::Model(values), Want::Model(wanted)) => values.values() == *wanted,
        (Outcome::Refuted(text), Want::Refuted(wanted)) => text.as_plain() == Some(*wanted),
        (Outcome::Limit(text), Want::Limit(wanted)) => text.as_plain() == Some(*wanted),
        _ => false,
    }
}

fn all_come(rt: &impl Abort, alloc: Global, rows: &[Row]) -> Result<(), Fail> {
    for (text, assumed, limit, want) in rows {
        let base = base_of(alloc, *text)?;
        let outcome = if *assumed == 0 {
            solve_alone(alloc, &base, *limit)?
        } else {
            assert!(rt; *assumed <= base.vars());
            solve_under(alloc, &base, Lit::positive(Var::new(*assumed)), *limit)?
        };
        assert!(rt; is_wanted(&outcome, want));
    }
    Ok(())
}

#[test]
fn bases_that_a_model_satisfies(rt: HostRuntime) -> Result<(), Fail> {
    let rows: [Row; 4] = [
        (b"p cnf 0 0\n", 0, 0, Want::Model(&[])),
        (b"p cnf 2 0\n", 0, 0, Want::Model(&[false, false])),
        (
            b"p cnf 3 3\n1 1 0\n-2 0\n-1 2 3 3 0\n",
            0,
            0,
            Want::Model(&[true, false, true]),
        ),
        (
            b"p cnf 3 2\n1 2 3 0\n-2 -3 0\n",
            2,
            0,
            Want::Model(&[false, true, false]),
        ),
    ];
    all_come(&rt, rt.alloc(), &rows)
}

#[test]
fn bases_and_cubes_that_are_refuted(rt: HostRuntime) -> Result<(), Fail> {
    let rows: [Row; 5] = [
        (FOUR, 0, 1, Want::Refuted(b"5 1 0 1 3 0\n6 0 5 2 4 0\n")),
        (FOUR, 1, 0, Want::Refuted(b"5 -1 0 2 4 0\n")),
        (
            b"p cnf 2 2\n2 0\n-1 -2 0\n",
            1,
            0,
            Want::Refuted(b"3 -1 0 1 2 0\n"),
        ),
        (
            b"p cnf 1 2\n1 0\n-1 0\n",
            0,
            0,
            Want::Refuted(b"3 0 1 2 0\n"),
        ),
        (b"p cnf 1 2\n1 0\n0\n", 0, 0, Want::Refuted(b"3 0 2 0\n")),
    ];
    all_come(&rt, rt.alloc(), &rows)
}

/// Variables are decided in their order, false first, up to the first conflict; the last four clauses make one more.
#[test]
fn a_lemma_loses_what_follows_from_others(rt: HostRuntime) -> Result<(), Fail> {
    let rows: [Row; 2] = [
        // 4 follows from the decision of 1, which stays.
        (
            b"p cnf 8 8\n1 4 0\n2 5 0\n3 1 6 0\n3 -4 -6 0\n7 8 0\n-7 8 0\n7 -8 0\n-7 -8 0\n",
            0,
            1,
            Want::Limit(b"9 3 1 0 1 3 4 0\n"),
        ),
        // 7 and 6 follow from 5 alone, of which the lemma has nothing: what was found of 5 for 7 holds for 6.
        (
            b"p cnf 10 9\n1 5 0\n-5 6 0\n-5 7 0\n2 -6 8 0\n2 -7 -8 0\n9 10 0\n-9 10 0\n9 -10 0\n-9 -10 0\n",
            0,
            1,
            Want::Limit(b"10 2 -7 -6 0 4 5 0\n"),
        ),
    ];
    all_come(&rt, rt.alloc(), &rows)
}

/// The first conflict meets 2, which 1 implies at level 0. At the second one the lemma of 2 comes first, and counts; then that of the
/// conflict names it alone.
#[test]
fn a_literal_of_level_0_gets_a_lemma_of_its_own(rt: HostRuntime) -> Result<(), Fail> {
    let text =
        b"p cnf 7 8\n1 0\n-1 2 0\n-2 3 4 0\n-2 3 -4 0\n-2 5 6 0\n-2 5 -6 0\n-3 -5 7 0\n-3 -5 -7 0\n";
    let rows: [Row; 3] = [
        (text, 0, 1, Want::Limit(b"9 3 0 1 2 3 4 0\n")),
        (text, 0, 2, Want::Limit(b"9 3 0 1 2 3 4 0\n10 2 0 1 2 0\n")),
        (
            text,
            0,
            3,
            Want::Refuted(b"9 3 0 1 2 3 4 0\n10 2 0 1 2 0\n11 5 0 10 5 6 0\n12 0 9 11 7 8 0\n"),
        ),
    ];
    all_come(&rt, rt.alloc(), &rows)
}

/// The first conflict, under the decision that 1 is false, meets 1 and 3 three times, 4 twice and 2 never, and leaves 3 true: so 3 is
/// decided next, and true.
#[test]
fn what_was_met_most_is_decided_with_its_last_value(rt: HostRuntime) -> Result<(), Fail> {
    let rows: [Row; 1] = [(
        b"p cnf 7 9\n1 3 0\n1 -3 4 0\n1 -3 -4 0\n-1 -3 5 0\n-1 -3 -5 0\n2 6 0\n2 -6 0\n3 7 0\n3 -7 0\n",
        0,
        2,
        Want::Refuted(b"10 1 0 1 2 3 0\n11 -3 0 10 4 5 0\n12 0 11 8 9 0\n"),
    )];
    all_come(&rt, rt.alloc(), &rows)
}

#[test]
fn a_limit_of_0_ends_at_the_first_conflict(rt: HostRuntime) -> Result<(), Fail> {
    let rows: [Row; 1] = [(FOUR, 0, 0, Want::Limit(b""))];
    all_come(&rt, rt.alloc(), &rows)
}

/// The log of a search at its limit.
fn log_of(rt: &impl Abort, alloc: Global, outcome: Outcome) -> Vec<u8> {
    match outcome {
        Outcome::Model(_) => panic!(rt; "no log"),
        Outcome::Refuted(text) => text.to_text(alloc).expect(rt, "memory"),
        Outcome::Limit(text) => text.to_text(alloc).expect(rt, "memory"),
    }
}

/// The log of a search over a base, up to a limit.
pub(crate) fn log_at(rt: &impl Abort, alloc: Global, base: &Base, limit: u64) -> Vec<u8> {
    let outcome = solve_alone(alloc, base, limit).expect(rt, "memory");
    log_of(rt, alloc, outcome)
}

/// A log has so many lines, and another one goes on behind it.
fn begins(rt: &impl Abort, log: &[u8], lines: u64, longer: &[u8]) {
    assert_eq!(rt; log.iter().filter(|b| **b == b'\n').count() as u64, lines);
    assert!(rt; longer.starts_with(log) && log.len() < longer.len());
}

#[test]
fn a_log_has_as_many_lemmas_as_the_limit(rt: HostRuntime) -> Result<(), Fail> {
    let base = base_of(rt.alloc(), EIGHT)?;
    let all = log_at(&rt, rt.alloc(), &base, 19);
    for limit in 1..3u64 {
        let log = log_at(&rt, rt.alloc(), &base, limit);
        begins(&rt, &log, limit, &all);
    }
    Ok(())
}
