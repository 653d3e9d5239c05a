//! Judging evidence: whether bytes are an assignment that satisfies a formula.

ghost use Rattle.std.specs.Prelude.{◌≡◌, ◌==◌, map, nat_lt, IfOk};
ghost use Rattle.std.specs.List.{list_all};
ghost use Rattle.lrat_check.specs.Judgement.{AreValuesOf, Judges};

use crate::verdict::Verdict;
use dimacs::{Assignment, Formula, satisfies};
use std::alloc::{AllocError, Global};

/// What judging evidence found.
#[derive(Drop)]
pub enum Judged {
    /// The evidence shows this verdict, which is right.
    Right(Verdict),
    /// The evidence shows no right verdict.
    Wrong,
    /// Memory was refused.
    NoMemory,
}

/// Answers whether each byte is 0 or 1.
fn are_truths(values: &[u8]) -> bool
    ensures { result ≡ list_all (λ b. nat_lt b 2) values.now }
{
    values.iter().all(|b| *b < 2)
}

/// Answers the truth values of the bytes: true for 1, false for every other byte.
fn truths(alloc: Global, values: &[u8]) -> Result<Vec<bool>, AllocError>
    ensures { IfOk result (λ v. v.items ≡ map (λ b. b == 1) values.now) }
{
    values.iter().map(|b| *b == 1).collect(alloc)
}

/// Judges whether the bytes are an assignment that satisfies the formula: one byte for each variable, 1 for true and 0 for false.
pub fn judge_values(alloc: Global, formula: &Formula, values: &[u8]) -> Judged
    ensures { Judges formula.now (AreValuesOf formula.now values.now) result }
{
    if values.len() != formula.vars() as usize || !are_truths(values) {
        return Judged::Wrong;
    }
    let Ok(truths) = truths(alloc, values) else {
        return Judged::NoMemory;
    };
    let assignment = Assignment::new(truths);
    if !satisfies(&assignment, formula) {
        return Judged::Wrong;
    }
    Judged::Right(Verdict::Model(assignment))
}
