//! What several layers are tried on.

use dimacs::{Lit, Var};
use std::process::Abort;

/// The four clauses over two variables, which nothing satisfies.
pub(crate) const FOUR: &[u8] = b"p cnf 2 4\n1 2 0\n-1 2 0\n1 -2 0\n-1 -2 0\n";

/// Two units, which `1 -2` alone satisfies.
pub(crate) const UNITS: &[u8] = b"p cnf 2 2\n1 0\n-2 0\n";

/// The literal of a number of DIMACS texts.
pub(crate) fn literal_of(rt: &impl Abort, number: i32) -> Lit {
    let variable = number.unsigned_abs();
    assert!(rt; variable >= 1 && variable < 10000);
    if number < 0 {
        Lit::negative(Var::new(variable))
    } else {
        Lit::positive(Var::new(variable))
    }
}
