//! The greatest variable of clauses.

ghost use Rattle.std.specs.Prelude.{◌≡◌, ◌<◌, ◌^◌};
ghost use Rattle.dimacs.specs.logic.Cnf.{greatest_in, greatest_of};

use crate::formula::Formula;
use crate::literal::Lit;

/// Answers the greatest variable of a clause; 0 if it has no literal.
fn greatest_of(clause: &[Lit]) -> u32
    ensures value { result ≡ greatest_of clause.now }
    ensures below { result < 2 ^ 31 }
{
    let mut greatest = 0;
    for l in clause {
        greatest = l.var().number().max(greatest);
    }
    greatest
}

/// Answers the greatest variable of a formula's clauses; 0 if they have no literal.
pub fn greatest_in(formula: &Formula) -> u32
    ensures value { result ≡ greatest_in formula.now.clauses }
    ensures below { result < 2 ^ 31 }
{
    let mut greatest = 0;
    for i in 0..formula.len() {
        greatest = greatest_of(formula.clause(i)).max(greatest);
    }
    greatest
}
