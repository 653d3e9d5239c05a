//! The writer of steps as lines. After a refusal of memory, a private function may have appended a prefix of its text; the public ones undo
//! that.

ghost use Rattle.std.specs.Prelude.{◌≡◌, ℕ, ◌^◌, ◌<◌, ◌≤◌, ◌++◌, length, OnOk, OnErr, decimal, flat_map};
ghost use Rattle.lrat_text.specs.Grammar.{IsStep, IsStepWithin, IsClauseNumber};
ghost use Rattle.lrat_text.specs.Steps.{step_of};
ghost use Rattle.lrat_text.specs.WrittenLine.{line_of};
ghost use Rattle.lrat_text.specs.inner.LineParts.{number_text, literal_text, group_text, lemma_text, reasons_text, deletion_text, Begins};

use crate::groups::Groups;
use crate::step::{Step, StepRef};
use crate::token_block::{MANY, ROOM, write_literals, write_numbers};
use dimacs::Lit;
use itoa::Buffer;
use std::alloc::AllocError;

/// Appends a text.
#[inline(always)]
pub(crate) fn put_text(out: &mut Vec<u8>, text: &[u8]) -> Result<(), AllocError>
    ensures ok { OnOk result (out.new.items ≡ out.old.items ++ text.now) }
    ensures begins { Begins out.old.items out.new.items }
{
    out.extend_from_slice(text)
}

/// Appends a number in decimal, without a space.
pub(crate) fn put_number(out: &mut Vec<u8>, number: u64) -> Result<(), AllocError>
    ensures ok { OnOk result (out.new.items ≡ out.old.items ++ decimal number) }
    ensures begins { Begins out.old.items out.new.items }
{
    let mut buffer = Buffer::new();
    let text = buffer.format(number);
    put_text(out, text.as_bytes())
}

/// Appends at most 16 literals, each after a space.
fn put_few_literals(out: &mut Vec<u8>, literals: &[Lit]) -> Result<(), AllocError>
    requires { length literals.now ≤ 16 }
    ensures ok { OnOk result (out.new.items ≡ out.old.items ++ flat_map literal_text literals.now) }
    ensures begins { Begins out.old.items out.new.items }
{
    let mut room = [b' '; ROOM];
    let start = write_literals(&mut room, literals);
    put_text(out, &room[start..])
}

/// Appends literals, each after a space, in blocks of 16.
fn put_literals(out: &mut Vec<u8>, literals: &[Lit]) -> Result<(), AllocError>
    ensures ok { OnOk result (out.new.items ≡ out.old.items ++ flat_map literal_text literals.now) }
    ensures begins { Begins out.old.items out.new.items }
{
    let mut done = 0;
    while done < literals.len() {
        let end = done + (literals.len() - done).min(MANY);
        put_few_literals(out, &literals[done..end])?;
        done = end;
    }
    Ok(())
}

/// Appends at most 16 numbers, each after a space.
fn put_few_numbers(out: &mut Vec<u8>, numbers: &[u64]) -> Result<(), AllocError>
    requires { length numbers.now ≤ 16 }
    ensures ok { OnOk result (out.new.items ≡ out.old.items ++ flat_map number_text numbers.now) }
    ensures begins { Begins out.old.items out.new.items }
{
    let mut room = [b' '; ROOM];
    let start = write_numbers(&mut room, numbers);
    put_text(out, &room[start..])
}

/// Appends numbers, each after a space, in blocks of 16.
fn put_numbers(out: &mut Vec<u8>, numbers: &[u64]) -> Result<(), AllocError>
    ensures ok { OnOk result (out.new.items ≡ out.old.items ++ flat_map number_text numbers.now) }
    ensures begins { Begins out.old.items out.new.items }
{
    let mut done = 0;
    while done < numbers.len() {
        let end = done + (numbers.len() - done).min(MANY);
        put_few_numbers(out, &numbers[done..end])?;
        done = end;
    }
    Ok(())
}

/// Appends a group: its candidate after a space and a minus, then its hints, each after a space.
fn put_group(out: &mut Vec<u8>, candidate: u64, hints: &[u64]) -> Result<(), AllocError>
    ensures ok { OnOk result (out.new.items ≡ out.old.items ++ group_text (candidate, hints.now)) }
    ensures begins { Begins out.old.items out.new.items }
{
    put_text(out, b" -")?;
    put_number(out, candidate)?;
    put_numbers(out, hints)
}

/// Appends all groups.
fn put_groups(out: &mut Vec<u8>, groups: &Groups) -> Result<(), AllocError>
    ensures ok { OnOk result (out.new.items ≡ out.old.items ++ flat_map group_text groups.now) }
    ensures begins { Begins out.old.items out.new.items }
{
    for i in 0..groups.len() {
        let (candidate, hints) = groups.get(i);
        put_group(out, candidate, hints)?;
    }
    Ok(())
}

/// Appends the first part of an addition: its number, its literals and ` 0`.
fn put_lemma(out: &mut Vec<u8>, id: u64, lits: &[Lit]) -> Result<(), AllocError>
    ensures ok { OnOk result (out.new.items ≡ out.old.items ++ lemma_text id lits.now) }
    ensures begins { Begins out.old.items out.new.items }
{
    put_number(out, id)?;
    put_literals(out, lits)?;
    put_text(out, b" 0")
}

/// Appends the second part of an addition: its hints, its groups, ` 0` and LF.
pub(crate) fn put_reasons(
    out: &mut Vec<u8>,
    hints: &[u64],
    groups: &Groups,
) -> Result<(), AllocError>
    ensures ok { OnOk result (out.new.items ≡ out.old.items ++ reasons_text hints.now groups.now) }
    ensures begins { Begins out.old.items out.new.items }
{
    put_numbers(out, hints)?;
    put_groups(out, groups)?;
    put_text(out, b" 0\n")
}

/// Appends the line of an addition.
fn put_addition(
    out: &mut Vec<u8>,
    id: u64,
    lits: &[Lit],
    hints: &[u64],
    groups: &Groups,
) -> Result<(), AllocError>
    ensures ok { OnOk result (out.new.items ≡ out.old.items ++ (lemma_text id lits.now ++ reasons_text hints.now groups.now)) }
    ensures begins { Begins out.old.items out.new.items }
{
    put_lemma(out, id, lits)?;
    put_reasons(out, hints, groups)
}

/// Appends the line of a deletion, which begins with the number `top`.
fn put_deletion(out: &mut Vec<u8>, top: u64, ids: &[u64]) -> Result<(), AllocError>
    ensures ok { OnOk result (out.new.items ≡ out.old.items ++ deletion_text top ids.now) }
    ensures begins { Begins out.old.items out.new.items }
{
    put_number(out, top)?;
    put_text(out, b" d")?;
    put_numbers(out, ids)?;
    put_text(out, b" 0\n")
}

/// Appends the line of a borrowed step; that of a deletion begins with the number `top`.
#[tactic(auto, using(crate::proofs::WrittenLineLemmas::lines_written))]
fn put_step(step: StepRef<'_>, top: u64, out: &mut Vec<u8>) -> Result<(), AllocError>
    ensures ok { OnOk result (out.new.items ≡ out.old.items ++ line_of top (step_of step.entry)) }
    ensures begins { Begins out.old.items out.new.items }
{
    match step {
        StepRef::Add {
            id,
            lits,
            hints,
            groups,
        } => put_addition(out, id, lits, hints, groups),
        StepRef::Delete { ids } => put_deletion(out, top, ids),
    }
}

/// Appends the line of a borrowed step with variables up to any limit below 2^48, with single
/// spaces and an LF. The line of a deletion begins with the number `top`, which readers ignore. If
/// memory is refused, `out` is as before.
pub fn put_ref_within(step: StepRef<'_>, top: u64, out: &mut Vec<u8>) -> Result<(), AllocError>
    requires limits { (most : ℕ) × (most < 2 ^ 48) × IsStepWithin most (step_of step) }
    requires numbered { IsClauseNumber top }
    ensures ok { OnOk result (out.new.items ≡ out.old.items ++ line_of top (step_of step.entry)) }
    ensures err { OnErr result (out.new.items ≡ out.old.items) }
{
    let len = out.len();
    let written = put_step(step, top, out);
    if written.is_err() {
        out.truncate(len);
    }
    written
}

/// Appends the line of a borrowed step with variables up to 2,000,000, with single spaces and an
/// LF. The line of a deletion begins with the number `top`, which readers ignore. If memory is
/// refused, `out` is as before.
pub fn put_ref(step: StepRef<'_>, top: u64, out: &mut Vec<u8>) -> Result<(), AllocError>
    requires limits { IsStep (step_of step) }
    requires numbered { IsClauseNumber top }
    ensures ok { OnOk result (out.new.items ≡ out.old.items ++ line_of top (step_of step.entry)) }
    ensures err { OnErr result (out.new.items ≡ out.old.items) }
{
    put_ref_within(step, top, out)
}

/// Appends a step's line, with single spaces and an LF. The line of a deletion begins with the number `top`, which readers ignore. If
/// memory is refused, `out` is as before.
pub fn put(step: &Step, top: u64, out: &mut Vec<u8>) -> Result<(), AllocError>
    requires limits { IsStep step.now }
    requires numbered { IsClauseNumber top }
    ensures ok { OnOk result (out.new.items ≡ out.old.items ++ line_of top step.now) }
    ensures err { OnErr result (out.new.items ≡ out.old.items) }
{
    put_ref(step.as_ref(), top, out)
}
