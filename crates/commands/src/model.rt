//! `model`: reads a formula, and tests a solver's answer against it while the answer is read.

ghost use Rattle.std.specs.Prelude.{◌≡◌, ◌++◌, ℕ, List, [], IfOk, IfErr};
ghost use Rattle.commands.specs.inner.Feed.{Extends};
ghost use Rattle.commands.specs.inner.Model.{IsTesting};
ghost use Rattle.commands.specs.Known.{HoldsOf};
ghost use Rattle.commands.specs.Refusals.{IsRefusedAs, IsWanting};
ghost use Rattle.commands.specs.Model.{TellsAnswer, Tests, TestsAnswer, cannot_read_answer_text};
ghost use Rattle.dimacs.specs.logic.Cnf.{Cnf};
ghost use Rattle.leaves.specs.Leaf.{Prints};

use crate::disk::Disk;
use crate::feed_loop::{Feeds, feed_all};
use crate::formula_tree::refused_input;
use crate::whole_source::{out_of_memory, read_formula};
use answers::ModelCheck;
use dimacs::Limits;
use reports::{Refusal, Report};
use std::alloc::Global;

impl Feeds for ModelCheck {
    ghost use Rattle.commands.specs.inner.Feed.{extends_nothing, extends_more};

    ghost took = { λ old new more. (F : Cnf) → Extends (IsTesting F) old new more };

    ghost nothing = { λ s F. extends_nothing (IsTesting F) s };

    ghost more = { λ a b c xs ys h k F. extends_more (IsTesting F) a b c xs ys (h F) (k F) };

    /// Gives the next piece of the answer's file to the test.
    fn feed(&mut self, piece: &[u8]) -> Result<(), Refusal> {
        ModelCheck::feed(self, piece);
        Ok(())
    }

    /// False: the answer is read to its end even after a fault, so that a read that fails is told
    /// first.
    fn is_settled(&self) -> bool {
        false
    }
}

/// Reports, with status 1, that an answer cannot be read; out of memory stays an error.
fn unread(alloc: Global, refusal: Refusal) -> Result<Report, Refusal>
    ensures text { IfOk result (Prints 1 cannot_read_answer_text) }
    ensures refused { IsRefusedAs Refusal.Proof refusal → IfErr result IsWanting }
{
    match refusal {
        Refusal::Proof => Report::of(alloc, b"c cannot read answer\n", 1).map_err(out_of_memory),
        other => Err(other),
    }
}

/// Ends the test of an answer that was read to its end, and reports its result.
fn finished(check: ModelCheck) -> Result<Report, Refusal>
    ensures tests { (F : Cnf) (bytes : List ℕ) → IsTesting F bytes check → IfOk result (Tests F bytes) }
    ensures refused { IfErr result IsWanting }
{
    match check.finish() {
        Ok(found) => Ok(Report {
            stdout: found.text,
            status: found.status,
            proof: None,
        }),
        Err(_) => Err(Refusal::NoMemory),
    }
}

/// Reads an answer to its end, also after a fault, tests it, and reports the result. It errs if the answer cannot be read or memory runs
/// out.
fn tested<D: Disk>(disk: &D, mut check: ModelCheck, answer: &str) -> Result<Report, Refusal>
    ensures tests { (F : Cnf) → IsTesting F [] check → IfOk result (λ r. HoldsOf (D.holds disk.now answer.now) (λ bytes. Tests F bytes r)) }
    ensures refused { IfErr result (IsRefusedAs Refusal.Proof) }
{
    let mut bytes = disk.open(answer, Refusal::Proof)?;
    feed_all(&mut bytes, &mut check)?;
    finished(check)
}

/// Tests an answer and reports the result; that it cannot be read is a report too. It errs if memory runs out.
fn test_answer<D: Disk>(disk: &D, check: ModelCheck, answer: &str) -> Result<Report, Refusal>
    ensures tells { (F : Cnf) → IsTesting F [] check → IfOk result (TellsAnswer F (D.holds disk.now answer.now)) }
    ensures refused { IfErr result IsWanting }
{
    match tested(disk, check, answer) {
        Ok(report) => Ok(report),
        Err(refusal) => unread(disk.alloc(), refusal),
    }
}

/// Tests the answer in the file `answer` against the formula in the file `input`, which is read within these limits, and reports the
/// result. If the formula has a fault, that is reported, and the answer is not opened.
pub fn test_files<D: Disk>(
    disk: &D,
    limits: Limits,
    input: &str,
    answer: &str,
) -> Result<Report, Refusal>
    ensures report { IfOk result (λ r. HoldsOf (D.holds disk.now input.now) (λ text. TestsAnswer limits text (D.holds disk.now answer.now) r)) }
    ensures refused { IfErr result (IsRefusedAs Refusal.Input) }
{
    let mut text = disk.open(input, Refusal::Input)?;
    let found = read_formula(disk.alloc(), limits, &mut text)?;
    match found {
        Ok(formula) => test_answer(disk, ModelCheck::of(disk.alloc(), formula), answer),
        Err(fault) => refused_input(disk.alloc(), fault),
    }
}
