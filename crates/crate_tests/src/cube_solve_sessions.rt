//! Sessions that are lent clauses, and seeds.

ghost use Rattle.std.specs.Prelude.{◌≡◌, OnOk};
ghost use Rattle.cube_solve.specs.Session.{IsReady, vars_of};

use crate::cube_solve_profile::pigeons_base;
use crate::cube_solve_searches::base_of;
use cube_solve::{Answer, Session};
use dimacs::Base;
use lrat_text::{StepBuffer, StepRef, cut_line, read_line};
use std::alloc::{AllocError, Global};
use std::fmt::Write;
use std::process::Abort;
use std::test::Fail;
use watches::{Propagator, Watched};

/// Lends a session all clauses of a base over its variables.
fn lend_all<P: Propagator>(session: &mut Session<'_, P>, lent: &Base) -> Result<(), AllocError>
    requires ready { IsReady P.is_ready P.attached session.old }
    requires vars { lent.now.vars ≡ vars_of session.old }
    ensures ready { OnOk result (IsReady P.is_ready P.attached session.new) }
    ensures vars { OnOk result (vars_of session.new ≡ vars_of session.old) }
{
    for i in 0..lent.len() {
        session.lend(lent.clause(i))?;
    }
    Ok(())
}

/// The answer of a session over a base that is lent the clauses of another one, and asked the first clause of a third one.
fn answer_with(
    rt: &impl Abort,
    alloc: Global,
    base: &Base,
    lent: &Base,
    query: &Base,
) -> Result<Answer, AllocError> {
    assert!(rt; lent.vars() == base.vars() && query.vars() == base.vars() && query.len() > 0);
    let mut propagator = Watched::new(alloc);
    let mut session = Session::new(alloc, &mut propagator, base)?;
    lend_all(&mut session, lent)?;
    session.ask(query.clause(0), 0)
}

/// The log of a session over a base that is lent the clauses of another one, and asked nothing, up to a limit.
fn log_with(
    rt: &impl Abort,
    alloc: Global,
    base: &Base,
    lent: &Base,
    seed: u64,
    limit: u64,
) -> Result<Vec<u8>, AllocError> {
    assert!(rt; lent.vars() == base.vars());
    let mut propagator = Watched::new(alloc);
    let mut session = Session::new(alloc, &mut propagator, base)?;
    session.diversify(seed)?;
    lend_all(&mut session, lent)?;
    session.ask(&[], limit)?;
    session.take_log().to_text(alloc)
}

/// A base, the clauses that are lent, a query, and the core and hints of its failure.
type Row = (
    &'static [u8],
    &'static [u8],
    &'static [u8],
    &'static [i32],
    &'static [u64],
);

/// Each hint is the number of a clause from which the core's clause follows by unit propagation, the lent one among them.
#[test]
fn a_lent_clause_makes_a_query_fail(rt: HostRuntime) -> Result<(), Fail> {
    let rows: [Row; 4] = [
        (
            b"p cnf 2 1\n1 2 0\n",
            b"p cnf 2 1\n-1 0\n",
            b"p cnf 2 1\n-2 0\n",
            &[-2],
            &[2, 1],
        ),
        // false at level 0
        (
            b"p cnf 2 2\n1 0\n-1 2 0\n",
            b"p cnf 2 1\n-2 -2 -1 0\n",
            b"p cnf 2 1\n1 0\n",
            &[],
            &[1, 2, 3],
        ),
        (
            b"p cnf 1 0\n",
            b"p cnf 1 1\n0\n",
            b"p cnf 1 1\n1 0\n",
            &[],
            &[1],
        ),
        // a tautology is of no use
        (
            b"p cnf 2 1\n1 2 0\n",
            b"p cnf 2 2\n1 -1 0\n-1 0\n",
            b"p cnf 2 1\n-2 0\n",
            &[-2],
            &[3, 1],
        ),
    ];
    for (text, lent, query, core, hints) in &rows {
        let base = base_of(rt.alloc(), *text)?;
        let lent = base_of(rt.alloc(), *lent)?;
        let query = base_of(rt.alloc(), *query)?;
        match answer_with(&rt, rt.alloc(), &base, &lent, &query)? {
            Answer::Failed(failure) => {
                assert!(rt;
                    failure
                        .core
                        .iter()
                        .map(|l| l.number())
                        .eq(core.iter().copied())
                );
                assert!(rt; failure.hints.as_slice() == *hints);
            }
            _ => assert!(rt; false),
        }
    }
    Ok(())
}

/// How many clauses are lent, so many that lemmas are deleted.
const LENT: u32 = 2500;

/// Clauses over the pigeons' variables, each with the first one of those that say that two pigeons do not share a hole.
fn long_clauses(alloc: Global) -> Result<Base, Fail> {
    let mut text = String::new(alloc);
    write!(text, "p cnf 72 {}\n", LENT)?;
    for number in 0..LENT {
        text.push_str("-9 -1")?;
        for place in 0..12u32 {
            let sign = if number >> place & 1 == 1 { "-" } else { "" };
            write!(text, " {}{}", sign, 20 + place)?;
        }
        text.push_str(" 0\n")?;
    }
    base_of(alloc, text.as_str().as_bytes())
}

/// How many of the clauses with the numbers from `from` to `to` a log deletes.
fn deleted(rt: &impl Abort, alloc: Global, log: &[u8], from: u64, to: u64) -> usize {
    let mut step = StepBuffer::new(alloc);
    let mut rest = log;
    let mut count = 0usize;
    for _ in 0..4000 {
        let Some((line, later)) = cut_line(rest) else {
            break;
        };
        assert!(rt; read_line(&mut step, line).is_ok());
        if let StepRef::Delete { ids } = step.as_ref() {
            count = count.saturating_add(
                ids.iter().filter(|id| from <= **id && **id <= to).count(),
            );
        }
        rest = later;
    }
    count
}

#[test]
fn a_reduction_deletes_lent_clauses(rt: HostRuntime) -> Result<(), Fail> {
    let base = pigeons_base(rt.alloc())?;
    let lent = long_clauses(rt.alloc())?;
    let log = log_with(&rt, rt.alloc(), &base, &lent, 0, 1200)?;
    let from = base.len() as u64 + 1;
    assert!(rt; deleted(&rt, rt.alloc(), &log, from, from + 2499) > 500);
    Ok(())
}

#[test]
fn a_seed_makes_another_search(rt: HostRuntime) -> Result<(), Fail> {
    let base = pigeons_base(rt.alloc())?;
    let none = base_of(rt.alloc(), b"p cnf 72 0\n")?;
    let first = log_with(&rt, rt.alloc(), &base, &none, 1, 50)?;
    let again = log_with(&rt, rt.alloc(), &base, &none, 1, 50)?;
    let second = log_with(&rt, rt.alloc(), &base, &none, 2, 50)?;
    assert!(rt; first == again && first != second);
    Ok(())
}
