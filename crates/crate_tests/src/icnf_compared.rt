//! The cubes of a formula, from texts whose clauses are compared with its own.

use dimacs::Formula;
use icnf::{CubesFault, Tree, TreeReader, tree_of};
use std::alloc::Global;
use std::process::Abort;
use std::test::Fail;

/// How many leaves the tree has; else the number and the line of the fault, or nothing where the clauses are others.
type Outcome = Result<usize, Option<(u8, u64)>>;

/// A text, and what is told of it.
type Row = (&'static [u8], Outcome);

/// Three clauses, of which the last is empty.
const FORMULA: &[u8] = b"p cnf 4 3\n1 -3 0\n2 0\n0\n";

const CUBES: &[u8] = b"c cubes\np inccnf\n1 -3 0 2\n0 0\na -1 0\na 1 2 0 a 1 -2 0\n";

fn outcome(told: Result<Tree, CubesFault>) -> Outcome {
    match told {
        Ok(tree) => Ok(tree.leaves()),
        Err(CubesFault::Faulty(fault)) => Err(Some((fault.number(), fault.line))),
        Err(CubesFault::OtherFormula) => Err(None),
    }
}

fn all_are_told(rt: &impl Abort, alloc: Global, rows: &[Row]) {
    let Ok(formula) = dimacs::read(alloc, FORMULA) else {
        panic!(rt; "no formula");
    };
    for (text, want) in rows {
        assert_eq!(rt; outcome(tree_of(alloc, &formula, *text)), *want);
    }
}

const CLAUSES: &[Row] = &[
    (CUBES, Ok(3)),
    (b"p inccnf\n1 -3 0 2 0 0 a 0", Ok(1)),
    (b"p inccnf\n1 3 0 2 0 0 a 0", Err(None)),
    (b"p inccnf\n2 -3 0 2 0 0 a 0", Err(None)),
    (b"p inccnf\n-3 1 0 2 0 0 a 0", Err(None)),
    (b"p inccnf\n1 0 -3 2 0 0 a 0", Err(None)),
    (b"p inccnf\n1 -3 0 2 0 2 0 a 0", Err(None)),
    (b"p inccnf\n1 -3 0 2 0 a 0", Err(None)),
    (b"p inccnf\n1 -3 0 2 0 0 0 a 0", Err(None)),
    (b"p inccnf\na 0", Err(None)),
];

const BEHIND: &[Row] = &[
    (b"p inccnf\n9 0\nx", Err(Some((3, 3)))),
    (b"p inccnf\n9 0\n1000001 0", Err(Some((8, 3)))),
    (b"p inccnf\n9 0\na 10 0\n", Err(Some((4, 3)))),
    (b"p inccnf\n9 0\na 9 0\n", Err(Some((12, 4)))),
    (b"p inccnf\n9 0\na 9", Err(Some((5, 3)))),
    (b"p inccnf\n9 0\na 9 0 a -9 0", Err(None)),
    (b"p cnf 9 1\n9 0\n", Err(Some((2, 1)))),
];

#[test]
fn the_clauses_are_the_formulas_and_a_fault_is_told_behind_another(rt: HostRuntime) {
    all_are_told(&rt, rt.alloc(), CLAUSES);
    all_are_told(&rt, rt.alloc(), BEHIND);
}

fn told_in_two(
    alloc: Global,
    formula: &Formula,
    first: &[u8],
    second: &[u8],
) -> Result<Outcome, Fail> {
    let mut reader = TreeReader::new(alloc, formula)?;
    reader.feed(first);
    reader.feed(second);
    Ok(outcome(reader.finish()))
}

#[test]
fn a_text_may_be_cut_anywhere(rt: HostRuntime) -> Result<(), Fail> {
    let alloc = rt.alloc();
    let Ok(formula) = dimacs::read(alloc, FORMULA) else {
        panic!(&rt; "no formula");
    };
    for i in 0..CUBES.len() {
        assert_eq!(rt;
            told_in_two(alloc, &formula, &CUBES[..i], &CUBES[i..])?,
            Ok(3)
        );
    }
    Ok(())
}
