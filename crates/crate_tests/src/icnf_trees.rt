//! Formulas with cubes, and the trees whose leaves the cubes are.

use dimacs::Limits;
use icnf::{TreeBuilder, read, read_within, write};
use std::alloc::Global;
use std::process::Abort;
use std::test::Fail;

/// A text, and the number of its leaves, or its fault's number and line.
type Row = (&'static [u8], Result<usize, (u8, u64)>);

fn outcome(alloc: Global, limits: Limits, text: &[u8]) -> Result<usize, (u8, u64)> {
    match read_within(alloc, limits, text) {
        Ok((_, tree)) => Ok(tree.leaves()),
        Err(fault) => Err((fault.number(), fault.line)),
    }
}

fn all_are_read(rt: &impl Abort, alloc: Global, limits: Limits, rows: &[Row]) {
    for (text, want) in rows {
        assert_eq!(rt; outcome(alloc, limits, *text), *want);
    }
}

const HEADERS: &[Row] = &[
    (b"", Err((1, 1))),
    (b"\nq inccnf\n", Err((1, 2))),
    (b"p cnf 1 1\n", Err((2, 1))),
    (b"c x\np\n", Err((2, 2))),
    (b"p inccnf 1\n", Err((2, 1))),
];

const CUBES: &[Row] = &[
    (b"p inccnf\n1 2 0\na 1 0\na 2 0\n", Err((12, 4))),
    (b"p inccnf\na 0\n", Ok(1)),
    (b"p inccnf\n1 2 0\na 1 0\n-1 0\n", Err((10, 4))),
    (b"p inccnf\n1 2 0\na 1 1 0\n", Err((11, 3))),
    (b"p inccnf\n1 2 0\na 1 0\n", Err((12, 4))),
    (b"p inccnf\n1 2 0\na 0\na 0\n", Err((12, 4))),
    (b"p inccnf\n1 2 0\na 1 0 a -1 0", Ok(2)),
    (b"p inccnf\n1 2 0\na -1 0\na 1 0\n", Ok(2)),
    (
        b"p inccnf\n1 2 3 0\na -1 0\na 1 2 0\na 1 -2 -3 0\na 1 -2 3 0\n",
        Ok(4),
    ),
    (b"p inccnf\n1 2 3 0\na -1 0\na 1 2 0\na 1 0\n", Err((12, 5))),
    (b"p inccnf\n1 2 0", Err((12, 2))),
];

const TOKENS: &[Row] = &[
    (b"p inccnf\nx", Err((3, 2))),
    (b"p inccnf\n1 a", Err((3, 2))),
    (b"p inccnf\n1 0 a a", Err((3, 2))),
    (b"p inccnf\n1 0 a 0 a x", Err((12, 2))),
    (b"p inccnf\n1 0 a 0 1", Err((10, 2))),
    (b"p inccnf\n1000001", Err((8, 2))),
    (b"p inccnf\n1 0 a 2 0", Err((4, 2))),
    (b"p inccnf\n1 0 a 1 -1 0", Err((11, 2))),
    (b"p inccnf\n1 0 a 1", Err((5, 2))),
    (b"p inccnf\n1\n\n", Err((5, 4))),
];

/// Texts that are read within the large limits.
const LARGE: &[Row] = &[
    (b"p inccnf\n1000001 0\na 1000001 0\na -1000001 0\n", Ok(2)),
    (b"p inccnf\n99999999 0\na 0\n", Ok(1)),
    (b"p inccnf\n100000000", Err((8, 2))),
];

#[test]
fn large_limits_take_more(rt: HostRuntime) {
    all_are_read(&rt, rt.alloc(), Limits::large(), LARGE);
}

#[test]
fn texts_are_trees_or_their_first_wrong_token_decides(rt: HostRuntime) {
    all_are_read(&rt, rt.alloc(), Limits::written(), HEADERS);
    all_are_read(&rt, rt.alloc(), Limits::written(), CUBES);
    all_are_read(&rt, rt.alloc(), Limits::written(), TOKENS);
}

#[test]
fn what_is_written_is_read_again(rt: HostRuntime) -> Result<(), Fail> {
    let a = rt.alloc();
    let text = b"p inccnf\n1 -3 0\n0\n2 0\na -1 0\na 1 2 0\na 1 -2 0\n";
    let Ok((formula, tree)) = read(a, text) else {
        panic!(&rt; "no formula");
    };
    assert_eq!(rt; formula.vars(), 3);
    let mut out = Vec::new(a);
    write(&formula, &tree, &mut out)?;
    assert_eq!(rt; out.as_slice(), text.as_slice());
    Ok(())
}

#[test]
fn a_tree_is_built_leaf_by_leaf(rt: HostRuntime) -> Result<(), Fail> {
    let mut builder = TreeBuilder::new(rt.alloc());
    builder.push(&[])?;
    let tree = builder.finish();
    assert_eq!(rt; tree.leaves(), 1);
    assert_eq!(rt; tree.cube(0).len(), 0);
    Ok(())
}
