//! Solves a formula, and tests the answer: an assignment by its truth, a proof by the checker.

ghost use Rattle.std.specs.Prelude.{◌≡◌, length, IfOk};

use dimacs::number::signed;
use dimacs::words::next_word;
use dimacs::{Assignment, Formula, read, satisfies};
use links::{Counted, Memory};
use lrat_check::check;
use node_main::{USUAL, run_solve};
use std::alloc::{AllocError, Global};
use std::io::Write;
use std::rt::Runtime;
use std::{fs, io};

/// The assignment that an answer prints; a variable that it leaves out is false.
fn printed(alloc: Global, answer: &[u8], vars: u32) -> Result<Assignment, AllocError>
    ensures { IfOk result (λ a. length a ≡ vars) }
{
    let mut values = vec![in alloc; false; vars as usize]?;
    let mut rest = answer;
    while let Some((word, more)) = next_word(rest) {
        match signed(word) {
            Some(number) if 0 < number.size && number.size <= vars => {
                values[number.size as usize - 1] = !number.negative;
            }
            _ => {}
        }
        rest = more;
    }
    Ok(Assignment::new(values))
}

/// Solves a formula, tests the assignment or the proof, and answers the word for the result.
fn found(alloc: Global, input: &[u8], formula: &Formula) -> Result<&'static str, AllocError> {
    let mut links = Counted::new(Memory::new(alloc, USUAL.workers)?);
    let report = run_solve(alloc, input, None, &USUAL, &mut links)?;
    match (report.status, &report.proof) {
        (10, None) => {
            let assignment = printed(alloc, report.stdout.as_slice(), formula.vars())?;
            let holds = satisfies(&assignment, formula);
            Ok(if holds { "satisfied" } else { "NOT SATISFIED" })
        }
        (20, Some(proof)) => {
            let accepted = check(alloc, formula, proof.to_text(alloc)?.as_slice()).is_ok();
            Ok(if accepted { "refuted" } else { "NOT REFUTED" })
        }
        _ => Ok("UNKNOWN"),
    }
}

/// Reads a file, solves its formula, and answers the word for the result; in capitals if something
/// is wrong.
fn told<R: Runtime + AllocGlobal>(rt: &R, name: &str) -> &'static str {
    let input = match fs::read(rt, name) {
        Ok(input) => input,
        Err(_) => return "CANNOT BE READ",
    };
    match read(rt.alloc(), input.as_slice()) {
        Ok(formula) => found(rt.alloc(), input.as_slice(), &formula).unwrap_or("NO MEMORY"),
        Err(_) => "NO FORMULA",
    }
}

/// Solves a file, and prints its name and the word for the result.
pub(crate) fn solve<R: Runtime + AllocGlobal>(rt: &R, name: &str) -> io::Result<()> {
    let mut out = io::writer(rt);
    out.write_all(name.as_bytes())?;
    out.write_all(b" ")?;
    out.write_all(told(rt, name).as_bytes())?;
    out.write_all(b"\n")?;
    out.flush()
}
