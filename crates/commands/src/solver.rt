//! A solver as other tools call one: it decides the formula of a file, and answers one `s` line, always.

ghost use Rattle.std.specs.Prelude.{◌≡◌, ◌≢◌, None, IfOk, OnErr};
ghost use Rattle.commands.specs.Join.{IsFree, IsStored};
ghost use Rattle.commands.specs.Known.{HoldsOf};
ghost use Rattle.commands.specs.Solver.{GivesUp, Solves, asked_of};
ghost use Rattle.proof_check.specs.Truth.{IsTrueReport};
ghost use Rattle.reports.specs.Refusals.{loud_text};

use crate::decide::{Deciding, decide_files};
use crate::drafts::{Drafts, Target};
use cube_solve::Observer;
use dimacs::Limits;
use formula_search::Asked;
use reports::{Refusal, Report};
use std::alloc::AllocError;

/// What is at a path before it is written.
#[derive(Clone, Copy, Debug, PartialEq, Eq)]
pub enum There {
    /// Nothing, or MiniSat's result of an earlier run.
    Result,
    /// A formula.
    Formula,
    /// Something else.
    Other,
}

/// The files of a solver.
pub trait SolverDisk: Drafts {
    /// Whether the first bytes of the file that was read last are those of a packed one.
    fn is_packed(&self) -> bool;

    /// What is at a path.
    fn there(&self, path: &str) -> There;
}

/// The files that a solver is called with, and what is asked of its search.
#[derive(Clone, Copy)]
pub struct SolverFiles<'a> {
    /// The path of the formula.
    pub input: &'a str,
    /// The file of the proof, if one is to be written.
    pub proof: Option<Target<'a>>,
    /// The most lemmas that may be learnt; `None` for any number.
    pub limit: Option<u64>,
    /// Whether an assignment is printed.
    pub witness: bool,
}

/// What comes of a call of a solver.
#[derive(Drop)]
pub struct Solved {
    /// The `c` lines that tell why there is no answer.
    pub told: Vec<u8>,
    /// The answer: its lines, and the status of the program.
    pub report: Report,
}

/// The `c` line that tells of a packed input.
const PACKED: &[u8] = b"c the input is packed: the script tools/satcluster-solver unpacks it\n";

/// The `c` line that tells that a formula is not written over.
pub(crate) const FORMULA: &[u8] = b"c the second file is a formula: it is not written over\n";

/// Answers that there is no answer, for this reason.
pub(crate) fn unknown<D: SolverDisk>(disk: &D, mut told: Vec<u8>) -> Result<Solved, AllocError>
    ensures { IfOk result (GivesUp told.items) }
{
    if disk.is_packed() {
        told.extend_from_slice(PACKED)?;
    }
    let report = Report::of(disk.alloc(), b"s UNKNOWN\n", 0)?;
    Ok(Solved { told, report })
}

/// Answers that there is no answer, for the reason of this line.
pub(crate) fn unknown_for<D: SolverDisk>(disk: &D, line: &[u8]) -> Result<Solved, AllocError>
    ensures { IfOk result (GivesUp line.now) }
{
    let told = Vec::from_slice(disk.alloc(), line)?;
    unknown(disk, told)
}

/// Answers that there is no answer, since the run is refused.
pub(crate) fn unknown_by<D: SolverDisk>(disk: &D, refusal: Refusal) -> Result<Solved, AllocError>
    ensures { IfOk result (GivesUp (loud_text refusal)) }
{
    unknown_for(disk, refusal.line(false).as_bytes())
}

/// Whether the file of the proof is a formula, so that it is not to be written over.
fn is_formula<D: SolverDisk>(disk: &D, proof: Option<Target<'_>>) -> bool {
    match proof {
        Some(target) => disk.there(target.path) == There::Formula,
        None => false,
    }
}

/// Decides the formula in a file, and answers what is told and what is the answer. If nothing satisfies the formula, the proof is written
/// as it is found, if its file is named.
pub(crate) fn decided<D: SolverDisk, O: Observer>(
    disk: &mut D,
    limits: Limits,
    files: &SolverFiles<'_>,
    observer: &mut O,
) -> Result<Solved, AllocError>
    ensures tells { IfOk result (Solves limits (asked_of files.now) (IsStored D.kept disk.old disk.new files.now.proof) (D.holds disk.old files.now.input.now)) }
    ensures truth { IfOk result (λ s. HoldsOf (D.holds disk.old files.now.input.now) (λ text. IsTrueReport limits text s.report)) }
    ensures same { IfOk result (λ s. s.report.status ≢ 20 → disk.new ≡ disk.old) }
    ensures unnamed { files.now.proof ≡ None → disk.new ≡ disk.old }
    ensures apart { IfOk result (λ s. s.report.status ≡ 20 → IsFree (D.apart disk.old) files.now.proof files.now.input.now) }
    ensures left { OnErr result (disk.new ≡ disk.old) }
{
    let deciding = Deciding {
        input: files.input,
        proof: files.proof,
        asked: Asked {
            limit: files.limit,
            witness: files.witness,
            stats: false,
        },
        quiet: false,
    };
    match decide_files(disk, limits, &deciding, observer) {
        Ok(report) => {
            if report.status == 1 {
                let Report { stdout, .. } = report;
                return unknown(disk, stdout);
            }
            Ok(Solved {
                told: Vec::new(disk.alloc()),
                report,
            })
        }
        Err(refusal) => unknown_by(disk, refusal),
    }
}

/// Decides the formula in `files.input`, which is read within these limits, as a solver that other tools call: there is always an answer,
/// `s SATISFIABLE` with status 10, `s UNSATISFIABLE` with status 20, or `s UNKNOWN` with status 0 and the reason. If nothing satisfies the
/// formula, the proof is put at `files.proof`, if that is named, whole and before the answer is told, and never over a formula. Into a device
/// or a pipe the lines of a long search go as they are found, whatever the answer will be.
///
/// The error is want of memory; then no file has changed.
pub fn solve_files<D: SolverDisk, O: Observer>(
    disk: &mut D,
    limits: Limits,
    files: &SolverFiles<'_>,
    observer: &mut O,
) -> Result<Solved, AllocError>
    ensures tells { IfOk result (Solves limits (asked_of files.now) (IsStored D.kept disk.old disk.new files.now.proof) (D.holds disk.old files.now.input.now)) }
    ensures truth { IfOk result (λ s. HoldsOf (D.holds disk.old files.now.input.now) (λ text. IsTrueReport limits text s.report)) }
    ensures same { IfOk result (λ s. s.report.status ≢ 20 → disk.new ≡ disk.old) }
    ensures unnamed { files.now.proof ≡ None → disk.new ≡ disk.old }
    ensures apart { IfOk result (λ s. s.report.status ≡ 20 → IsFree (D.apart disk.old) files.now.proof files.now.input.now) }
    ensures left { OnErr result (disk.new ≡ disk.old) }
{
    if is_formula(disk, files.proof) {
        return unknown_for(disk, FORMULA);
    }
    decided(disk, limits, files, observer)
}
