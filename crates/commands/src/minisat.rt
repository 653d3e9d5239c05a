//! A solver that writes MiniSat's result in a file, as the callers of `minisat` expect.

ghost use Rattle.std.specs.Prelude.{◌≡◌, ◌⊎◌, ◌≤◌, ℕ, Bool, false, true, List, Option, codes, drop, length, IfOk, OnErr, OnOk};
ghost use Rattle.commands.specs.Known.{HoldsOf};
ghost use Rattle.commands.specs.Solver.{GivesUp, HasResult, Solves, asked_of_minisat, asking, no_result_text, nowhere, sat_text};
ghost use Rattle.commands.specs.Written.{Keeps};
ghost use Rattle.commands.specs.inner.Solver.{IsWritten, joined as joined_text};
ghost use Rattle.dimacs.specs.logic.Limits.{AreNoMore, Limits, large};
ghost use Rattle.dimacs.specs.text.Answer.{satisfied_lines};
ghost use Rattle.proof_check.specs.Truth.{IsTrueReport};

use crate::atomic_write::write_text;
use crate::drafts::Target;
use crate::solver::{FORMULA, Solved, SolverDisk, SolverFiles, There, decided, unknown_for};
use crate::whole_source::out_of_memory;
use cube_solve::Observer;
use dimacs::Limits;
use lrat_check::accepted_proofs_are_sound;
use packed_text::PackedText;
use reports::Refusal;
use std::alloc::{AllocError, Global};

/// The files that `minisat` is called with, and what is asked of its search.
#[derive(Clone, Copy)]
pub struct MinisatFiles<'a> {
    /// The path of the formula.
    pub input: &'a str,
    /// The path of the result.
    pub result: &'a str,
    /// The most lemmas that may be learnt; `None` for any number.
    pub limit: Option<u64>,
}

/// The `c` line that tells that the result cannot be written.
const NO_RESULT: &[u8] = b"c cannot write result\n";

/// The length of `s SATISFIABLE` and of the byte behind it.
const FIRST_LINE: usize = 14;

/// The bytes of a text without line ends and without the `v` that begins lines.
fn joined(alloc: Global, text: &[u8]) -> Result<Vec<u8>, AllocError>
    ensures { IfOk result (λ bytes. bytes.items ≡ joined_text text.now) }
{
    let mut bytes = Vec::new(alloc);
    for byte in text {
        if *byte != b'\n' && *byte != b'v' {
            bytes.push(*byte)?;
        }
    }
    Ok(bytes)
}

/// The bytes behind `s SATISFIABLE` and a space.
fn behind_answer(bytes: &[u8]) -> &[u8]
    ensures { result.now ≡ drop 14 bytes.now }
{
    match bytes.get(FIRST_LINE..) {
        Some(items) => items,
        None => &[],
    }
}

/// MiniSat's result of an answer that has an assignment: the items of its lines, which stand behind the first one once lines are joined.
fn result_text(alloc: Global, answer: &[u8]) -> Result<Vec<u8>, AllocError>
    ensures { (values : List Bool) → length values ≤ 99999999 → answer.now ≡ satisfied_lines values true → IfOk result (λ text. text.items ≡ sat_text values) }
{
    let bytes = joined(alloc, answer)?;
    let mut text = Vec::from_slice(alloc, b"SAT\n")?;
    text.extend_from_slice(behind_answer(&bytes))?;
    text.extend_from_slice(b"\n")?;
    Ok(text)
}

/// Writes a text to a path: a regular file whole or not at all.
fn write_result<D: SolverDisk>(disk: &mut D, path: &str, text: &[u8]) -> Result<(), Refusal>
    ensures kept { OnOk result (Keeps D.kept disk.old disk.new false path.now text.now) }
    ensures left { OnErr result (disk.new ≡ disk.old) }
{
    let text = PackedText::of(disk.alloc(), text).map_err(out_of_memory)?;
    let target = Target {
        path,
        binary: false,
    };
    write_text(disk, target, &text)
}

/// Writes MiniSat's result, and answers what was solved. If the result cannot be written, there is no answer.
fn kept<D: SolverDisk>(
    disk: &mut D,
    path: &str,
    text: &[u8],
    solved: Solved,
) -> Result<Solved, AllocError>
    ensures kept { IfOk result (λ s. ((s ≡ solved) × Keeps D.kept disk.old disk.new false path.now text.now) ⊎ (GivesUp no_result_text s × (disk.new ≡ disk.old))) }
    ensures left { OnErr result (disk.new ≡ disk.old) }
{
    match write_result(disk, path, text) {
        Ok(()) => Ok(solved),
        Err(Refusal::NoMemory) => Err(AllocError),
        Err(_) => unknown_for(disk, NO_RESULT),
    }
}

/// Writes that there is no answer, if nothing but a result is replaced. A write that fails is ignored.
fn write_unknown<D: SolverDisk>(disk: &mut D, path: &str, there: There)
    ensures { (disk.new ≡ disk.old) ⊎ Keeps D.kept disk.old disk.new false path.now (codes "INDET\n") }
{
    if there == There::Result {
        let _ = write_result(disk, path, b"INDET\n");
    }
}

/// Writes MiniSat's result of an answer that has an assignment, and leaves its `s` line to be printed.
fn satisfied<D: SolverDisk>(
    disk: &mut D,
    path: &str,
    mut solved: Solved,
) -> Result<Solved, AllocError>
    ensures tells { (L : Limits) (limit : Option ℕ) (known : Option (List ℕ)) → AreNoMore L large → solved.report.status ≡ 10 → Solves L (asking limit true) nowhere known solved
        → IfOk result (IsWritten (Keeps D.kept disk.old disk.new false path.now) (disk.new ≡ disk.old) L limit known) }
    ensures left { OnErr result (disk.new ≡ disk.old) }
{
    let text = result_text(disk.alloc(), &solved.report.stdout)?;
    solved.report.stdout.truncate(FIRST_LINE);
    kept(disk, path, &text, solved)
}

/// Writes MiniSat's result of what was solved. `INDET` replaces nothing but a result.
fn with_result<D: SolverDisk>(
    disk: &mut D,
    path: &str,
    there: There,
    solved: Solved,
) -> Result<Solved, AllocError>
    ensures tells { (L : Limits) (limit : Option ℕ) (known : Option (List ℕ)) → AreNoMore L large → Solves L (asking limit true) nowhere known solved
        → IfOk result (IsWritten (Keeps D.kept disk.old disk.new false path.now) (disk.new ≡ disk.old) L limit known) }
    ensures left { OnErr result (disk.new ≡ disk.old) }
{
    if solved.report.status == 10 {
        return satisfied(disk, path, solved);
    }
    if solved.report.status == 20 {
        return kept(disk, path, b"UNSAT\n", solved);
    }
    write_unknown(disk, path, there);
    Ok(solved)
}

/// Decides the formula in `files.input`, which is read within these limits, as `minisat` with a second file: before the `s` line is told,
/// which is there always, the file `files.result` is written, whole: `SAT` and the assignment, `UNSAT`, or `INDET`, which replaces nothing
/// but a result. No formula is written over.
///
/// The error is want of memory; then no file has changed.
pub fn solve_as_minisat<D: SolverDisk, O: Observer>(
    disk: &mut D,
    limits: Limits,
    files: &MinisatFiles<'_>,
    observer: &mut O,
) -> Result<Solved, AllocError>
    ensures tells { IfOk result (Solves limits (asked_of_minisat files.now) nowhere (D.holds disk.old files.now.input.now)) }
    ensures truth { IfOk result (λ s. HoldsOf (D.holds disk.old files.now.input.now) (λ text. IsTrueReport limits text s.report)) }
    ensures kept { IfOk result (λ s. HasResult (Keeps D.kept disk.old disk.new false files.now.result.now) (disk.new ≡ disk.old) limits (D.holds disk.old files.now.input.now) s.report) }
    ensures apart { IfOk result (λ s. 1 ≤ s.report.status → D.apart disk.old files.now.result.now files.now.input.now) }
    ensures left { OnErr result (disk.new ≡ disk.old) }
{
    accepted_proofs_are_sound();
    let _ = limits.vars(); // its contract says that the limits are no more than the large ones
    let there = disk.there(files.result);
    if there == There::Formula {
        return unknown_for(disk, FORMULA);
    }
    if disk.is_same(files.result, files.input) {
        return unknown_for(disk, NO_RESULT);
    }
    match disk.test(files.result) {
        Ok(()) => {}
        Err(Refusal::NoMemory) => return Err(AllocError),
        Err(_) => return unknown_for(disk, NO_RESULT),
    }
    let asked = SolverFiles {
        input: files.input,
        proof: None,
        limit: files.limit,
        witness: true,
    };
    let solved = decided(disk, limits, &asked, observer)?;
    with_result(disk, files.result, there, solved)
}
