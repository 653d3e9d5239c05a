//! What `solve` answers of a formula that is split: by depth, and by cubes that are handed in.

ghost use Rattle.std.specs.Prelude.{◌≤◌};

use crate::check::FOUR;
use crate::run_reports::{ALONE, refutes, says, solved};
use node_main::{Options, Report};
use std::alloc::Global;
use std::process::Abort;

/// All sixteen clauses over four variables, which nothing satisfies.
const SIXTEEN: &[u8] =
    b"p cnf 4 16\n1 2 3 4 0\n1 2 3 -4 0\n1 2 -3 4 0\n1 2 -3 -4 0\n1 -2 3 4 0\n1 -2 3 -4 0\n1 -2 -3 4 0\n1 -2 -3 -4 0\n-1 2 3 4 0\n-1 2 3 -4 0\n-1 2 -3 4 0\n-1 2 -3 -4 0\n-1 -2 3 4 0\n-1 -2 3 -4 0\n-1 -2 -3 4 0\n-1 -2 -3 -4 0\n";

const OTHER: &[u8] = b"c cubes of another formula\n";

/// A formula that 1 contradicts, and -1 and 2 satisfy.
const SECOND: &[u8] = b"p cnf 2 3\n-1 2 0\n-1 -2 0\n1 2 0\n";

fn solve_split(
    rt: &impl Abort,
    alloc: Global,
    input: &[u8],
    cubes: Option<&[u8]>,
    depth: u32,
) -> Report
    requires { depth ≤ 16 }
{
    let options = Options {
        depth,
        limit: 100,
        ..ALONE
    };
    solved(rt, alloc, input, cubes, &options)
}

/// An input, its cubes if it has some, at what depth it is split, and how its proof begins.
type Row = (&'static [u8], &'static [u8], u32, &'static [u8]);

const ROWS: [Row; 8] = [
    // Two leaves and their fork are one proof.
    (FOUR, b"", 1, b"5 -1 0 2 4 0\n6 1 0 1 3 0\n7 0 5 6 0\n"),
    // Cubes may have the negative branch first.
    (
        FOUR,
        b"p inccnf\n1 2 0\n-1 2 0\n1 -2 0\n-1 -2 0\na -1 0\na 1 0\n",
        0,
        b"5 1 0 1 3 0\n6 -1 0 2 4 0\n7 0 5 6 0\n",
    ),
    // The unit of a pure literal comes first.
    (
        b"p cnf 3 5\n1 2 0\n-1 2 0\n1 -2 0\n-1 -2 0\n3 1 0\n",
        b"",
        0,
        b"6 3 0 0\n",
    ),
    // Deeper trees are refuted.
    (SIXTEEN, b"", 0, b""),
    (SIXTEEN, b"", 1, b""),
    (SIXTEEN, b"", 2, b""),
    (SIXTEEN, b"", 3, b""),
    (SIXTEEN, b"", 4, b""),
];

fn cubes_of(text: &[u8]) -> Option<&[u8]> {
    if text.is_empty() { None } else { Some(text) }
}

#[test]
fn leaves_and_their_forks_are_one_proof(rt: HostRuntime) {
    for (input, cubes, depth, front) in &ROWS {
        assert!(&rt; *depth <= 16);
        let report = solve_split(&rt, rt.alloc(), *input, cubes_of(*cubes), *depth);
        let proof = refutes(&rt, rt.alloc(), *input, &report);
        assert!(&rt; proof.as_slice().starts_with(*front));
    }
}

/// A split by one literal, and a limit that each leaf meets.
const BRIEF: Options = Options {
    depth: 1,
    limit: 1,
    ..ALONE
};

#[test]
fn leaves_at_their_limit_are_cut_further(rt: HostRuntime) {
    let report = solved(&rt, rt.alloc(), SIXTEEN, None, &BRIEF);
    refutes(&rt, rt.alloc(), SIXTEEN, &report);
}

/// An input, its cubes if it has some, and what is printed of them.
const PRINTED: [(&'static [u8], &'static [u8], &'static [u8]); 7] = [
    // A model may be in the second leaf.
    (SECOND, b"", b"s SATISFIABLE\nv -1 2 0\n"),
    // Cubes of other clauses are refused.
    (
        FOUR,
        b"p inccnf\n-1 2 0\n1 2 0\n1 -2 0\n-1 -2 0\na 0\n",
        OTHER,
    ),
    (
        FOUR,
        b"p inccnf\n2 1 0\n-1 2 0\n1 -2 0\n-1 -2 0\na 0\n",
        OTHER,
    ),
    (FOUR, b"p inccnf\n1 2 0\n-1 2 0\n1 -2 0\na 0\n", OTHER),
    // So are faulty cubes, and a faulty input before them.
    (FOUR, b"p cnf 2 4\n", b"c cubes line 1 fault 2\n"),
    (
        FOUR,
        b"p inccnf\n1 2 0\na 1 0\na 2 0\n",
        b"c cubes line 4 fault 12\n",
    ),
    (b"p cnf 1\n", b"p cnf", b"c input line 1 fault 2\n"),
];

#[test]
fn a_model_may_be_in_any_leaf_and_faulty_cubes_are_refused(rt: HostRuntime) {
    for (input, cubes, want) in &PRINTED {
        let report = solve_split(&rt, rt.alloc(), *input, cubes_of(*cubes), 1);
        says(&rt, &report, *want);
    }
}
