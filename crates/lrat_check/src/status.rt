//! The status of a clause under a partial assignment.

ghost use Rattle.std.specs.Prelude.{◌≡◌};
ghost use Rattle.lrat_check.specs.Statuses.{status_in, with_free_literal};

use dimacs::Lit;

/// The status of a clause under a partial assignment.
#[derive(Clone, Copy)]
pub enum Status {
    /// A literal of the clause is assumed.
    Satisfied,
    /// The negation of each literal of the clause is assumed.
    Falsified,
    /// This literal is neither true nor false, and all others of the clause are false.
    Unit(Lit),
    /// No literal is true, and at least two distinct ones are not false.
    Undecided,
}

/// Returns the status of a clause that has, besides the literals seen so far, the literal `l`, which is neither true nor false.
#[inline(always)]
pub fn with_free(seen: Status, l: Lit) -> Status
    ensures { status_in result ≡ with_free_literal (status_in seen) l }
{
    match seen {
        Status::Falsified => Status::Unit(l),
        Status::Unit(first) => { if first == l { seen } else { Status::Undecided } }
        _ => seen,
    }
}
