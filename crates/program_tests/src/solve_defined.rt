//! Runs over defined variables.

ghost use Rattle.command_line.specs.Options.{AreOptions};

use crate::check::FOUR;
use crate::run_reports::{ALONE, refutes, says, solved};
use node_main::Options;
use std::alloc::Global;
use std::process::Abort;

/// Two units, of which no pair can be defined.
const UNITS: &[u8] = b"p cnf 2 2\n1 0\n-2 0\n";

/// Both variables are the same.
const SAME: &[u8] = b"p cnf 2 2\n1 -2 0\n-1 2 0\n";

/// One worker, a split by one literal, and definitions.
const DEFINING: Options = Options {
    depth: 1,
    defs: 1,
    ..ALONE
};

const MANY: Options = Options {
    defs: 64,
    ..DEFINING
};

/// The leaf is split where its search meets the limit.
const BRIEF: Options = Options {
    depth: 0,
    limit: 1,
    defs: 64,
    ..ALONE
};

/// The lines of one definition of the four clauses.
const LINES: &[u8] = b"5 3 -1 -2 0 0\n6 -3 1 0 -5 0\n7 -3 2 0 -5 0\n";

#[test]
fn an_answer_shows_no_defined_variable(rt: HostRuntime) {
    let same = solved(&rt, rt.alloc(), SAME, None, &DEFINING);
    says(&rt, &same, b"s SATISFIABLE\nv -1 -2 0\n");
    let units = solved(&rt, rt.alloc(), UNITS, None, &MANY);
    says(&rt, &units, b"s SATISFIABLE\nv 1 -2 0\n");
}

fn begins(rt: &impl Abort, alloc: Global, options: &Options)
    requires { AreOptions options.now }
{
    let report = solved(rt, alloc, FOUR, None, options);
    let proof = refutes(rt, alloc, FOUR, &report);
    assert!(rt; proof.as_slice().starts_with(LINES));
}

#[test]
fn a_proof_over_definitions_is_one_of_the_formula(rt: HostRuntime) {
    begins(&rt, rt.alloc(), &DEFINING);
    begins(&rt, rt.alloc(), &BRIEF);
}
