//! `decide`, and how far its search has come: once a second on standard error, if the words ask for it.

use crate::files::Machine;
use crate::status_line::{Showing, StatusLine};
use commands::{Deciding, decide_files};
use cube_solve::{Counts, Observer};
use dimacs::Limits;
use node_main::{Refusal, Report};
use std::fmt;
use std::fmt::{Display, Formatter};
use std::rt::Runtime;

/// Shows the counts of a search on standard error, once a second.
struct SearchProgress<'a, R> {
    line: StatusLine<'a, R>,
    /// The conflicts that were shown last.
    conflicts: u64,
}

impl<R> Drop for SearchProgress<'_, R> {
    fn drop(self) {
        let SearchProgress {
            line: _,
            conflicts: _,
        } = self;
    }
}

impl<R: Runtime> Observer for SearchProgress<'_, R> {
    /// Shows the counts, at most once a second.
    fn see(&mut self, counts: &Counts) {
        if let Some(elapsed) = self.line.due() {
            self.line.write(&Told {
                counts: *counts,
                rate: counts.conflicts.saturating_sub(self.conflicts) / elapsed.since,
                seconds: elapsed.seconds,
            });
            self.conflicts = counts.conflicts;
        }
    }
}

/// The line that tells how far a search has come.
#[derive(Drop)]
struct Told {
    counts: Counts,
    /// The conflicts a second since the last line.
    rate: u64,
    /// The seconds that the search has taken.
    seconds: u64,
}

impl Display for Told {
    fn fmt<W: fmt::Write>(&self, f: &mut Formatter<W>) -> fmt::Result {
        let Counts {
            conflicts,
            lemmas,
            fixed,
            bytes,
            ..
        } = self.counts;
        let seconds = self.seconds;
        let rate = self.rate;
        let whole = bytes / 1_000_000;
        let tenths = bytes % 1_000_000 / 100_000;
        write!(
            f,
            "c {seconds} s: {conflicts} conflicts, {rate} a second, {lemmas} lemmas, {fixed} fixed, {whole}.{tenths} MB"
        )
    }
}

/// Decides the formula of a file, which is read within these limits, writes the proof, and answers the report. The search shows its
/// progress so.
pub(crate) fn decide<R: Runtime + AllocGlobal>(
    rt: &R,
    limits: Limits,
    files: &Deciding<'_>,
    showing: Showing,
) -> Result<Report, Refusal> {
    let mut progress = SearchProgress {
        line: StatusLine::new(rt, showing),
        conflicts: 0,
    };
    let found = decide_files(&mut Machine { rt }, limits, files, &mut progress);
    progress.line.end();
    found
}
