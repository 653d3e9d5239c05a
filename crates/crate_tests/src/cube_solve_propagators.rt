//! The search over both propagators.

use crate::cube_solve_searches::EIGHT;
use crate::inputs::FOUR;
use cube_solve::{Outcome, solve_by};
use dimacs::{Base, Formula, read, satisfies};
use lrat_check::check_packed_fragment;
use std::alloc::Global;
use std::process::Abort;
use std::test::Fail;
use watches::{Scan, Watched};

/// Formulas of known answer, and whether an assignment satisfies them.
const FORMULAS: [(&[u8], bool); 5] = [
    (FOUR, false),
    (b"p cnf 0 0\n", true),
    (b"p cnf 2 2\n1 0\n-2 0\n", true),
    (b"p cnf 3 3\n1 2 0\n-2 3 0\n-1 -3 0\n", true),
    (EIGHT, false),
];

/// The outcome of a search is the formula's, and is accepted by `satisfies` or by `check_packed_fragment`.
fn is_accepted(
    rt: &impl Abort,
    alloc: Global,
    formula: &Formula,
    base: &Base,
    outcome: Outcome,
    satisfiable: bool,
) {
    match outcome {
        Outcome::Model(values) => {
            assert!(rt; satisfiable);
            assert_eq!(rt; values.len(), formula.vars() as usize);
            assert!(rt; satisfies(&values, formula));
        }
        Outcome::Refuted(text) => {
            assert!(rt; !satisfiable);
            assert!(rt; check_packed_fragment(alloc, base, &[], &text).is_ok());
        }
        Outcome::Limit(_) => assert!(rt; false),
    }
}

#[test]
fn both_propagators_decide_alike(rt: HostRuntime) -> Result<(), Fail> {
    for (input, satisfiable) in &FORMULAS {
        let formula = read(rt.alloc(), *input)?;
        let base = Base::of(rt.alloc(), &formula)?;
        let mut scan = Scan::new(rt.alloc());
        let scanned = solve_by(rt.alloc(), &mut scan, &base, &[], 1000)?;
        is_accepted(&rt, rt.alloc(), &formula, &base, scanned, *satisfiable);
        let mut watches = Watched::new(rt.alloc());
        let watched = solve_by(rt.alloc(), &mut watches, &base, &[], 1000)?;
        is_accepted(&rt, rt.alloc(), &formula, &base, watched, *satisfiable);
    }
    Ok(())
}
