//! DIMACS texts, and formulas that are built by hand.

use dimacs::{
    Assignment, Base, Builder, Extension, Formula, Kind, Limits, Lit, Var, read, read_within,
    satisfies, write,
};
use std::alloc::Global;
use std::process::Abort;
use std::test::Fail;

/// A text, and the number of its clauses, or its fault's kind and line.
type Row = (&'static [u8], Result<usize, (Kind, u64)>);

fn outcome(alloc: Global, text: &[u8]) -> Result<usize, (Kind, u64)> {
    match read(alloc, text) {
        Ok(formula) => Ok(formula.len()),
        Err(fault) => Err((fault.kind, fault.line)),
    }
}

fn all_are_read(rt: &impl Abort, alloc: Global, rows: &[Row]) {
    for (text, want) in rows {
        assert_eq!(rt; outcome(alloc, *text), *want);
    }
}

const HEADERS: &[Row] = &[
    (b"", Err((Kind::NoHeader, 1))),
    (b"\n\nc x\n", Err((Kind::NoHeader, 4))),
    (b"\nq cnf 1 1\n", Err((Kind::NoHeader, 2))),
    (b" c x\np cnf 0 0", Err((Kind::NoHeader, 1))),
    (b"\x0cp cnf 0 0", Err((Kind::NoHeader, 1))),
    (b"p cnf 1\n1 0\n", Err((Kind::BadHeader, 1))),
    (b"c\np cnf 1 1 1\n", Err((Kind::BadHeader, 2))),
    (b"p cnf -1 1\n", Err((Kind::BadHeader, 1))),
    (b"p cnf -9999999 1\n", Err((Kind::BadHeader, 1))),
    (b"p cnf 01 1\n", Err((Kind::BadHeader, 1))),
    (b"p cnf 1000001 4 x", Err((Kind::AboveLimit, 1))),
    (b"p cnf 1000000 x", Err((Kind::BadHeader, 1))),
    (b"p cnf 1 4000001 x", Err((Kind::AboveLimit, 1))),
];

const TOKENS: &[Row] = &[
    (b"p cnf 2 2\n1 2 0\n-1", Err((Kind::ClauseNotEnded, 3))),
    (b"p cnf 2 2\n1 2 0\n-1\n", Err((Kind::ClauseNotEnded, 4))),
    (b"p cnf 2 2\n1 2 0\n", Err((Kind::TooFewClauses, 3))),
    (b"p cnf 2 1\n1 2 0 0", Err((Kind::TooManyClauses, 2))),
    (b"p cnf 2 0\n\n3", Err((Kind::TooManyClauses, 3))),
    (b"p cnf 2 1\n1 2 0 x", Err((Kind::BadToken, 2))),
    (b"p cnf 2 1\n1 -0 0", Err((Kind::BadToken, 2))),
    (b"p cnf 2 1\n1 +2 0", Err((Kind::BadToken, 2))),
    (b"p cnf 2 1\n1 - 0", Err((Kind::BadToken, 2))),
    (b"p cnf 2 1\n1\x0c2 0", Err((Kind::BadToken, 2))),
    (b"p cnf 2 1\n c x\n1 0", Err((Kind::BadToken, 2))),
    (b"p cnf 2 1\n1 3 0", Err((Kind::VariableAboveHeader, 2))),
    (
        b"p cnf 2 1\n1\n-99999999999999999999999999999 0",
        Err((Kind::VariableAboveHeader, 3)),
    ),
];

const COMMENTS: &[Row] = &[
    (b"p cnf 0 0", Ok(0)),
    (b"p cnf 1 1\n0", Ok(1)),
    (
        b"c a\n \np\tcnf  2 2 \r\nc x\n1\ncnf 0\n2 0 -1\nc1\n0\n",
        Ok(2),
    ),
];

/// Texts that are read within the large limits.
const LARGE: &[Row] = &[
    (b"p cnf 1000001 0", Ok(0)),
    (b"p cnf 1000001 1\n-1000001 0", Ok(1)),
    (
        b"p cnf 1000001 1\n1000002 0",
        Err((Kind::VariableAboveHeader, 2)),
    ),
    (b"p cnf 99999999 1\n99999999 0", Ok(1)),
    (b"p cnf 100000000 4 x", Err((Kind::AboveLimit, 1))),
    (b"p cnf 1 100000000 x", Err((Kind::AboveLimit, 1))),
];

#[test]
fn large_limits_take_more(rt: HostRuntime) {
    for (text, want) in LARGE {
        let found = match read_within(rt.alloc(), Limits::large(), *text) {
            Ok(formula) => Ok(formula.len()),
            Err(fault) => Err((fault.kind, fault.line)),
        };
        assert_eq!(&rt; found, *want);
    }
}

#[test]
fn the_first_wrong_token_decides_from_left_to_right(rt: HostRuntime) {
    all_are_read(&rt, rt.alloc(), HEADERS);
    all_are_read(&rt, rt.alloc(), TOKENS);
    all_are_read(&rt, rt.alloc(), COMMENTS);
}

/// What is written of a formula.
fn written(rt: &impl Abort, alloc: Global, formula: &Formula) -> Vec<u8> {
    let mut out = Vec::new(alloc);
    write(formula, &mut out).expect(rt, "memory");
    out
}

fn read_well(rt: &impl Abort, alloc: Global, text: &[u8]) -> Formula {
    read(alloc, text).expect(rt, "a formula")
}

#[test]
fn what_is_written_is_read_again(rt: HostRuntime) {
    let text = b"p cnf 3 2\n1 -3 0\n0\n";
    let formula = read_well(&rt, rt.alloc(), text);
    assert!(rt; written(&rt, rt.alloc(), &formula).as_slice() == text.as_slice());
    let copy = formula.copy().expect(&rt, "memory");
    assert!(rt; written(&rt, rt.alloc(), &copy).as_slice() == text.as_slice());
}

/// The formula `-2 1` and the empty clause, over three variables, by hand.
fn by_hand(rt: &impl Abort, alloc: Global) -> Formula {
    let mut builder = Builder::new(alloc).expect(rt, "memory");
    builder
        .push(Lit::negative(Var::new(2)))
        .expect(rt, "memory");
    builder
        .push(Lit::positive(Var::new(1)))
        .expect(rt, "memory");
    builder.end_clause().expect(rt, "memory");
    builder.end_clause().expect(rt, "memory");
    builder.finish(3).expect(rt, "memory")
}

#[test]
fn a_builder_makes_a_formula(rt: HostRuntime) {
    let text = written(&rt, rt.alloc(), &by_hand(&rt, rt.alloc()));
    assert!(rt; text.as_slice() == b"p cnf 3 2\n-2 1 0\n0\n".as_slice());
    let mut builder = Builder::new(rt.alloc()).expect(&rt, "memory");
    builder
        .push(Lit::negative(Var::new(7)))
        .expect(&rt, "memory");
    assert!(rt; builder.is_open());
    assert_eq!(rt;
        (builder.greatest(), builder.literals(), builder.len()),
        (7, 1, 0)
    );
}

/// The clause `3`, over four variables.
fn third(rt: &impl Abort, alloc: Global) -> Extension {
    let mut builder = Builder::new(alloc).expect(rt, "memory");
    builder
        .push(Lit::positive(Var::new(3)))
        .expect(rt, "memory");
    builder.end_clause().expect(rt, "memory");
    builder.finish_extension(4)
}

/// A formula with more clauses, if that is one.
fn extended(
    rt: &impl Abort,
    alloc: Global,
    formula: &Formula,
    extension: &Extension,
) -> Option<Formula> {
    let extension = extension.copy(alloc).expect(rt, "memory");
    assert_eq!(rt; (extension.vars(), extension.len()), (4, 1));
    formula.extended(alloc, &extension).expect(rt, "memory")
}

#[test]
fn an_extension_stands_behind_the_formula(rt: HostRuntime) {
    let formula = read_well(&rt, rt.alloc(), b"p cnf 2 1\n1 -2 0\n");
    match extended(&rt, rt.alloc(), &formula, &third(&rt, rt.alloc())) {
        Some(longer) => {
            let text = written(&rt, rt.alloc(), &longer);
            assert!(rt; text.as_slice() == b"p cnf 4 2\n1 -2 0\n3 0\n".as_slice());
        }
        None => panic!(&rt; "above a limit"),
    }
}

/// The clauses of a formula, the one at a place once more, and a variable more.
fn longer(rt: &impl Abort, alloc: Global, formula: &Formula, place: usize) -> Base {
    assert!(rt; place < formula.len() && formula.vars() < 100);
    let mut base = Base::of(alloc, formula).expect(rt, "memory");
    let clause = formula.clause(place);
    assert!(rt; clause.len() < 100);
    base.push_clause(clause).expect(rt, "memory");
    base.add_vars(1);
    base
}

/// The length of the clause at a place, and whether it is the one at another.
fn compare(rt: &impl Abort, base: &Base, place: usize, other: usize) -> (usize, bool) {
    assert!(rt; place < base.len() && other < base.len());
    let clause = base.clause(place);
    (clause.len(), clause == base.clause(other))
}

#[test]
fn pushed_clauses_and_variables_follow_the_formula(rt: HostRuntime) {
    let formula = read_well(&rt, rt.alloc(), b"p cnf 2 2\n1 2 0\n1 0\n");
    let base = longer(&rt, rt.alloc(), &formula, 1);
    assert_eq!(rt; (base.vars(), base.len()), (3, 3));
    assert_eq!(rt; compare(&rt, &base, 2, 1), (1, true));
    assert_eq!(rt; compare(&rt, &base, 0, 1), (2, false));
}

fn is_satisfied(rt: &impl Abort, formula: &Formula, values: Vec<bool>) -> bool {
    let assignment = Assignment::new(values);
    assert!(rt; assignment.len() == formula.vars() as usize);
    satisfies(&assignment, formula)
}

#[test]
fn an_assignment_satisfies_or_not(rt: HostRuntime) -> Result<(), Fail> {
    let a = rt.alloc();
    let formula = read_well(&rt, a, b"p cnf 2 2\n1 2 0\n-1 0\n");
    assert!(rt; is_satisfied(&rt, &formula, vec![in a; false, true]?));
    assert!(rt; !is_satisfied(&rt, &formula, vec![in a; false, false]?));
    Ok(())
}
