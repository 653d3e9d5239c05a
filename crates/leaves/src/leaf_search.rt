//! `refute` of one leaf: a search under its cube.

ghost use Rattle.std.specs.Prelude.{◌≡◌, ◌++◌, Some, IfOk, OnOk, codes, decimal};
ghost use Rattle.leaves.specs.LeafSearch.{Hands, RefutesLeaf, ReportsEnd, shown};

use crate::leaf::{NO_LEAF, cube_of};
use crate::split::Split;
use cube_solve::{Outcome, solve};
use dimacs::{Answer, answer_lines};
use packed_text::PackedText;
use reports::{Report, put_number};
use std::alloc::{AllocError, Global};

/// The options of a search: its limit, and what is printed of it.
#[derive(Clone, Copy, Debug, PartialEq, Eq)]
pub struct SearchOptions {
    /// The most lemmas that a leaf may have. A limit above 2^47 counts as 2^47, which is never reached.
    pub limit: u64,
    /// Whether `c` lines are left out.
    pub quiet: bool,
    /// Whether the `v` lines of an assignment are printed.
    pub witness: bool,
}

/// Appends the line of the leaf of this number, from 1: `c leaf`, the number, and `end`, which says how its search ended.
pub(crate) fn put_end(out: &mut Vec<u8>, leaf: u64, end: &[u8]) -> Result<(), AllocError>
    ensures { OnOk result (out.new.items ≡ out.old.items ++ (codes "c leaf " ++ decimal leaf ++ end.now)) }
{
    out.extend_from_slice(b"c leaf ")?;
    put_number(out, leaf)?;
    out.extend_from_slice(end)
}

/// The report of a search that ends with a log: the line of the leaf, except if `quiet`; the status; the log.
fn ended(
    alloc: Global,
    search: &SearchOptions,
    leaf: u64,
    end: &[u8],
    log: PackedText,
    status: u8,
) -> Result<Report, AllocError>
    ensures { IfOk result (Hands status (shown search.now.quiet (codes "c leaf " ++ decimal leaf ++ end.now)) (Some log)) }
{
    let mut report = Report::of(alloc, b"", status)?;
    if !search.quiet {
        put_end(&mut report.stdout, leaf, end)?;
    }
    report.proof = Some(log);
    Ok(report)
}

/// The report of a search under the leaf of this number, from 1, by its outcome: status 10 and the assignment; 20 and the log that closes
/// the leaf; or 0 and an empty log.
fn reported(
    alloc: Global,
    outcome: Outcome,
    leaf: u64,
    search: &SearchOptions,
) -> Result<Report, AllocError>
    ensures { IfOk result (ReportsEnd leaf search.now outcome) }
{
    match outcome {
        Outcome::Model(values) => {
            let mut report = Report::of(alloc, b"", 10)?;
            answer_lines(
                Answer::Satisfiable(&values),
                search.witness,
                &mut report.stdout,
            )?;
            Ok(report)
        }
        Outcome::Refuted(log) => ended(alloc, search, leaf, b" closed\n", log, 20),
        Outcome::Limit(_) => {
            let none = PackedText::new(alloc);
            ended(alloc, search, leaf, b" limit\n", none, 0)
        }
    }
}

/// Searches under the leaf of this number, from 1, over the formula alone, without a preamble.
///
/// The report has status 10 and an assignment that satisfies the formula; or 20, and as its proof a log over the formula that closes the
/// leaf; or 0 and an empty log, if the search has reached its limit; or 1 if there is no such leaf. An error is reported as `c no memory`,
/// status 1.
pub fn run_refute(
    alloc: Global,
    split: &Split,
    leaf: u64,
    search: &SearchOptions,
) -> Result<Report, AllocError>
    ensures { IfOk result (RefutesLeaf split.now.formula split.now.tree leaf search.now) }
{
    let Some(cube) = cube_of(&split.tree, leaf) else {
        return Report::of(alloc, if search.quiet { b"" } else { NO_LEAF }, 1);
    };
    let outcome = solve(alloc, split.formula.as_base(), cube, search.limit)?;
    reported(alloc, outcome, leaf, search)
}
