//! `elaborate` and `check --drat`, and how far they have come: once a second on standard error, if the words ask for it.

use crate::files::Machine;
use crate::status_line::{Showing, StatusLine};
use commands::{TrimFiles, check_drat_files, elaborate_files};
use dimacs::Limits;
use drat_elaborate::{ElaborationObserver, Phase, Stage};
use node_main::{Refusal, Report};
use std::fmt;
use std::fmt::{Display, Formatter};
use std::rt::Runtime;

/// Shows on standard error how far an elaboration has come, once a second.
struct ElaborationProgress<'a, R> {
    line: StatusLine<'a, R>,
}

impl<R> Drop for ElaborationProgress<'_, R> {
    fn drop(self) {
        let ElaborationProgress { line: _ } = self;
    }
}

impl<R: Runtime> ElaborationObserver for ElaborationProgress<'_, R> {
    /// Shows the stage, at most once a second.
    fn see(&mut self, stage: &Stage) {
        if let Some(elapsed) = self.line.due() {
            self.line.write(&Told {
                stage: *stage,
                seconds: elapsed.seconds,
            });
        }
    }
}

/// The line that tells how far an elaboration has come.
#[derive(Drop)]
struct Told {
    stage: Stage,
    /// The seconds that the elaboration has taken.
    seconds: u64,
}

impl Display for Told {
    fn fmt<W: fmt::Write>(&self, f: &mut Formatter<W>) -> fmt::Result {
        let seconds = self.seconds;
        let Stage { phase, done, steps } = self.stage;
        match phase {
            Phase::Reading => write!(f, "c {seconds} s: {done} steps read"),
            Phase::Forward => write!(f, "c {seconds} s: forward, {done} of {steps} steps"),
            Phase::Backward => write!(f, "c {seconds} s: backward, {done} of {steps} steps"),
        }
    }
}

/// Elaborates the DRAT proof of a formula, which is read within these limits, writes the LRAT proof, and answers the report. The elaboration
/// shows its progress so.
pub(crate) fn elaborate<R: Runtime + AllocGlobal>(
    rt: &R,
    limits: Limits,
    files: &TrimFiles<'_>,
    showing: Showing,
) -> Result<Report, Refusal> {
    let mut progress = ElaborationProgress {
        line: StatusLine::new(rt, showing),
    };
    let found = elaborate_files(&mut Machine { rt }, limits, files, &mut progress);
    progress.line.end();
    found
}

/// Checks the DRAT proof of a formula, which is read within these limits, and answers the report. The elaboration shows its progress so.
pub(crate) fn check_drat<R: Runtime + AllocGlobal>(
    rt: &R,
    limits: Limits,
    input: &str,
    proof: &str,
    showing: Showing,
) -> Result<Report, Refusal> {
    let mut progress = ElaborationProgress {
        line: StatusLine::new(rt, showing),
    };
    let found = check_drat_files(&Machine { rt }, limits, input, proof, &mut progress);
    progress.line.end();
    found
}
