//! Formulas of several tests.

/// Every clause over two variables.
pub(crate) const FOUR: &[u8] = b"p cnf 2 4\n1 2 0\n-1 2 0\n1 -2 0\n-1 -2 0\n";

/// Two units, which `1 -2` alone satisfies.
pub(crate) const UNITS: &[u8] = b"p cnf 2 2\n1 0\n-2 0\n";
