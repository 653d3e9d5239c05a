//! The `c` lines of the counts of a search.

ghost use Rattle.std.specs.Prelude.{◌≡◌, ◌++◌, OnOk, codes};
ghost use Rattle.formula_search.specs.Decisions.{count_line, counts_text, stats_text};

use cube_solve::Counts;
use reports::put_number;
use std::alloc::AllocError;

/// Appends the line of a count. If memory is refused, `out` may have some of it.
fn put_count(out: &mut Vec<u8>, name: &[u8], count: u64) -> Result<(), AllocError>
    ensures { OnOk result (out.new.items ≡ out.old.items ++ count_line name.now count) }
{
    out.extend_from_slice(b"c ")?;
    out.extend_from_slice(name)?;
    out.extend_from_slice(b" ")?;
    put_number(out, count)?;
    out.extend_from_slice(b"\n")
}

/// Appends the lines of what a search has done, without those of what it holds. If memory is refused, `out` may have some of them.
fn put_work(out: &mut Vec<u8>, counts: &Counts) -> Result<(), AllocError>
    ensures { OnOk result (out.new.items ≡ out.old.items ++ count_line (codes "conflicts") counts.now.conflicts ++ count_line (codes "decisions") counts.now.decisions ++ count_line (codes "propagations") counts.now.propagations ++ count_line (codes "restarts") counts.now.restarts ++ count_line (codes "reductions") counts.now.reductions) }
{
    put_count(out, b"conflicts", counts.conflicts)?;
    put_count(out, b"decisions", counts.decisions)?;
    put_count(out, b"propagations", counts.propagations)?;
    put_count(out, b"restarts", counts.restarts)?;
    put_count(out, b"reductions", counts.reductions)
}

/// Appends the lines of all counts of a search. If memory is refused, `out` may have some of them.
fn put_counts(out: &mut Vec<u8>, counts: &Counts) -> Result<(), AllocError>
    ensures { OnOk result (out.new.items ≡ out.old.items ++ counts_text counts.now) }
{
    put_work(out, counts)?;
    put_count(out, b"phases", counts.phases)?;
    put_count(out, b"lemmas", counts.lemmas)?;
    put_count(out, b"fixed", counts.fixed)?;
    put_count(out, b"bytes", counts.bytes)
}

/// Appends the lines of the counts of a search, if they are asked for. If memory is refused, `out` may have some of them.
pub(crate) fn put_stats(out: &mut Vec<u8>, stats: bool, counts: &Counts) -> Result<(), AllocError>
    ensures { OnOk result (out.new.items ≡ out.old.items ++ stats_text stats counts.now) }
{
    if !stats {
        return Ok(());
    }
    put_counts(out, counts)
}
