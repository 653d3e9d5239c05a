//! Fragments, and the cubes that they close.

use crate::cube_solve_searches::base_of;
use crate::inputs::FOUR;
use dimacs::{Base, Lit, Var};
use lrat_check::check_fragment;
use std::alloc::Global;
use std::test::Fail;

/// A fragment, and its fault's number and line: 0 where it closes the cube.
type Row = (&'static [u8], (u8, u64));

const ROWS: &[Row] = &[
    (b"5 -1 0 2 4 0\n", (0, 0)),
    (b"6 -1 0 2 4 0\n", (2, 1)),
    (b"5 d 1 0\n", (16, 1)),
    (b"5 3 -1 0 0\n", (15, 1)),
    (b"5 -1 -2 0 4 0\n", (17, 2)),
    (b"", (17, 1)),
];

/// What is told of a fragment for the cube 1.
fn told(alloc: Global, base: &Base, fragment: &[u8]) -> (u8, u64) {
    match check_fragment(alloc, base, &[Lit::positive(Var::new(1))], fragment) {
        Ok(()) => (0, 0),
        Err(fault) => (fault.number, fault.line),
    }
}

#[test]
fn a_fragment_closes_a_cube(rt: HostRuntime) -> Result<(), Fail> {
    let base = base_of(rt.alloc(), FOUR)?;
    for (text, want) in ROWS {
        assert_eq!(&rt; told(rt.alloc(), &base, *text), *want);
    }
    Ok(())
}
