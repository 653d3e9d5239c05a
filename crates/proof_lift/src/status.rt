//! The status of a clause under a partial assignment.

ghost use Rattle.std.specs.Prelude.{◌≡◌, ◌<◌, length};
ghost use Rattle.dimacs.specs.logic.Literal.{index_of};
ghost use Rattle.lrat_check.specs.StepFaults.{status};
ghost use Rattle.lrat_check.specs.Statuses.{status_in};
ghost use Rattle.lrat_check.specs.inner.LiteralTable.{FitsTable};
ghost use Rattle.proof_lift.specs.inner.Tables.{marked};

use dimacs::Lit;
use lrat_check::{Status, with_free};

/// Tells whether a literal has this stamp.
#[inline(always)]
pub(crate) fn is_marked(marks: &[u64], stamp: u64, l: Lit) -> bool
    requires { index_of l < length marks.now }
    ensures { result ≡ marked marks.now stamp l }
{
    marks[l.index()] == stamp
}

/// Returns the status of a clause under the assignment of the literals with this stamp.
pub(crate) fn classify(marks: &[u64], stamp: u64, clause: &[Lit]) -> Status
    requires { FitsTable (length marks.now) clause.now }
    ensures { status_in result ≡ status (marked marks.now stamp) clause.now }
{
    let mut seen = Status::Falsified;
    for l in clause {
        if is_marked(marks, stamp, *l) {
            return Status::Satisfied;
        }
        if !is_marked(marks, stamp, l.negate()) {
            seen = with_free(seen, *l);
        }
    }
    seen
}
