//! The checker of fragments: logs over a base that close a cube.

ghost use Rattle.std.specs.Prelude.{◌≡◌, ◌⊎◌, Ok, Err, OnOk};
ghost use Rattle.std.specs.List.{list_all};
ghost use Rattle.dimacs.specs.logic.Literal.{negation, has};
ghost use Rattle.lrat_text.specs.Log.{Closes};
ghost use Rattle.lrat_text.specs.Steps.{step_of};
ghost use Rattle.lrat_check.specs.ProofFaults.{GivesCheck, no_memory};
ghost use Rattle.lrat_check.specs.Fragments.{closes, fragment_end, fragment_of};
ghost use Rattle.lrat_check.specs.Logs.{text_from};

use crate::line_checker::{CheckFault, finish};
use crate::log_checker::LogChecker;
use dimacs::{Base, Lit, has_literal};
use lrat_text::{StepRef, take_lines};
use packed_text::{PackedLines, PackedText};
use std::alloc::Global;

/// The number of the fault of a text whose last step does not close the cube.
const NOT_CLOSED: u8 = 17;

/// Answers whether each literal of a lemma is the negation of a literal of the cube, so that the
/// lemma closes the cube.
fn negates(cube: &[Lit], lits: &[Lit]) -> bool
    ensures { result ≡ list_all (λ l. has cube.now (negation l)) lits.now }
{
    for l in lits {
        if !has_literal(cube, l.negate()) {
            return false;
        }
    }
    true
}

/// Answers whether a step adds a lemma that closes the cube: it has only negations of the cube's literals.
fn is_closing(cube: &[Lit], step: StepRef<'_>) -> bool
    ensures { result ≡ closes cube.now (step_of step.entry) }
{
    match step {
        StepRef::Add { lits, .. } => negates(cube, lits),
        StepRef::Delete { .. } => false,
    }
}

/// Answers the result at the end of a fragment. `rest` is the text after the last LF.
fn end(log: &LogChecker, cube: &[Lit], rest: &[u8]) -> Result<(), CheckFault>
    ensures { result ≡ fragment_end cube.now log.now rest.now }
{
    finish(NOT_CLOSED, is_closing(cube, log.step()), log.line(), rest)
}

/// Checks the lines of a fragment, and then its end.
fn check_lines(log: &mut LogChecker, cube: &[Lit], fragment: &[u8]) -> Result<(), CheckFault>
    ensures { GivesCheck result (text_from (fragment_end cube.now) log.old fragment.now) }
{
    let rest = take_lines(log, fragment)?;
    end(log, cube, rest)
}

/// Checks the lines of a packed fragment, which are unpacked one at a time, and then its end.
fn check_packed_lines(
    alloc: Global,
    log: &mut LogChecker,
    cube: &[Lit],
    fragment: &PackedText,
) -> Result<(), CheckFault>
    ensures { GivesCheck result (text_from (fragment_end cube.now) log.old fragment.now) }
{
    let mut left = PackedLines::of(alloc, fragment);
    let mut line = Vec::new(alloc);
    while left.next(&mut line)? {
        log.take(&line)?;
    }
    end(log, cube, &line)
}

/// Checks whether the text is a fragment that closes the cube over the base, and answers its first fault.
pub fn check_fragment(
    alloc: Global,
    base: &Base,
    cube: &[Lit],
    fragment: &[u8],
) -> Result<(), CheckFault>
    ensures closes { OnOk result (Closes base.now cube.now fragment.now) }
    // a fragment that closes the cube is refused for want of memory alone
    ensures complete { Closes base.now cube.now fragment.now → (result ≡ Ok tt) ⊎ (result ≡ Err no_memory) }
    // the first fault, and its line
    ensures exact { GivesCheck result (fragment_of base.now cube.now fragment.now) }
{
    let _ = base.vars(); // its contract says that the base is within its limits
    let mut log = LogChecker::over(alloc, base)?;
    check_lines(&mut log, cube, fragment)
}

/// Checks whether the packed text is a fragment that closes the cube over the base, and answers its first fault. Its lines are unpacked one
/// at a time, so the whole text is never in memory unpacked.
pub fn check_packed_fragment(
    alloc: Global,
    base: &Base,
    cube: &[Lit],
    fragment: &PackedText,
) -> Result<(), CheckFault>
    ensures closes { OnOk result (Closes base.now cube.now fragment.now) }
    // a fragment that closes the cube is refused for want of memory alone
    ensures complete { Closes base.now cube.now fragment.now → (result ≡ Ok tt) ⊎ (result ≡ Err no_memory) }
    // the first fault, and its line
    ensures exact { GivesCheck result (fragment_of base.now cube.now fragment.now) }
{
    let _ = base.vars(); // its contract says that the base is within its limits
    let mut log = LogChecker::over(alloc, base)?;
    check_packed_lines(alloc, &mut log, cube, fragment)
}
