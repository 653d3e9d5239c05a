//! The lines of a fragment, copied under other numbers.

ghost use Rattle.std.specs.Prelude.{◌≡◌, ◌≢◌, ◌+◌, ◌-◌, ◌^◌, ◌<◌, ◌≤◌, ◌++◌, codes, map, length, All, MatchBool, OnOk, IfOk};
ghost use Rattle.lrat_text.specs.Grammar.{IsStepWithin, IsClauseNumber, SpellsStepWithin};
ghost use Rattle.lrat_text.specs.Log.{top_after};
ghost use Rattle.lrat_text.specs.Steps.{step_of};
ghost use Rattle.lrat_text.specs.WrittenLine.{line_of};
ghost use Rattle.lrat_text.specs.declared.step.Step.{Step};
ghost use Rattle.proof_join.specs.RenumberedSteps.{behind, renumbered};
ghost use Rattle.lrat_text.specs.Runs.{text_of, top_of};
ghost use Rattle.proof_join.specs.Steps.{steps_in};
ghost use Rattle.proof_join.specs.inner.Steps.{IsLow, IsOwn, Writes, IsApart, IsHeld, last_of};

use crate::fault::JoinFault;
use crate::output::{Output, put_addition, put_copy, put_line};
use lrat_text::{
    StepBuffer, StepRef, TextFault, canonical_id_within, read_line_within,
    read_without_literals_within,
};
use packed_text::{PackedLines, PackedText};
use std::alloc::{AllocError, Global};
use std::mem::swap;

/// No fragment has a greater variable, since no base has.
const MAX_VAR: u32 = 199_999_999;

/// The change of a fragment's numbers: those up to `base` stay, and `base` + k becomes `begun` + k.
#[derive(Clone, Copy)]
pub(crate) struct Shift {
    pub(crate) base: u64,
    pub(crate) begun: u64,
}

impl Shift {
    /// Whether the shift changes no number, as for the first leaf of a joined proof.
    fn is_none(self) -> bool
        ensures { MatchBool result (self.begun ≡ self.base) (self.begun ≢ self.base) }
    {
        self.begun == self.base
    }

    /// The shifted number: a clause of the base keeps its own, and a lemma's is raised by `begun -
    /// base`.
    fn number(self, number: u64) -> u64
        requires number { number < 2 ^ 48 }
        requires begun { self.begun < 2 ^ 48 }
        ensures { result ≡ behind self.base self.begun number }
    {
        if number <= self.base {
            number
        } else {
            number - self.base + self.begun
        }
    }

    /// Overwrites `out` with these numbers, shifted, in their order.
    fn numbers(self, numbers: &[u64], out: &mut Vec<u64>) -> Result<(), AllocError>
        requires numbers { All (λ n. n < 2 ^ 48) numbers.now }
        requires begun { self.begun < 2 ^ 48 }
        ensures { OnOk result (out.new.items ≡ map (behind self.base self.begun) numbers.now) }
    {
        out.clear();
        for number in numbers {
            out.push(self.number(*number))?;
        }
        Ok(())
    }
}

/// The buffers of a copy: for the step of a line, and for its new numbers.
pub(crate) struct Scratch {
    pub(crate) buffer: StepBuffer,
    pub(crate) numbers: Vec<u64>,
}

impl Drop for Scratch {
    fn drop(self) {
        let Scratch {
            buffer: _,
            numbers: _,
        } = self;
    }
}

/// A step of a fragment, borrowed from the buffer. If its literals were not read, `literals` is their text.
#[derive(Clone, Copy)]
struct Found<'a> {
    step: StepRef<'a>,
    literals: Option<&'a [u8]>,
}

/// Reads a line into the buffer. If the line is spelled exactly as this program writes lines, its
/// literals are not parsed, since they do not change, and their text is returned; else None.
fn read_apart<'a>(buffer: &mut StepBuffer, line: &'a [u8]) -> Result<Option<&'a [u8]>, TextFault>
    requires spelled { (step : Step) × SpellsStepWithin 199999999 line.now step }
    ensures { IfOk result (λ literals. (step : Step) → SpellsStepWithin 199999999 line.now step → IsHeld literals buffer.new step) }
{
    match read_without_literals_within(buffer, line)? {
        Some(literals) => Ok(Some(literals)),
        None => {
            read_line_within(buffer, MAX_VAR, line)?;
            Ok(None)
        }
    }
}

/// Appends the line of a step, with its literals copied as text if they were not read. The line of
/// a deletion begins with `top`.
fn put_found(out: &mut Output<'_>, top: u64, found: Found<'_>) -> Result<(), JoinFault>
    requires limits { IsStepWithin 199999999 (step_of found.step) }
    requires numbered { IsClauseNumber top }
    ensures { (step : Step) → IsHeld found.entry.literals (step_of found.entry.step) step → Writes result out.new (out.old ++ line_of top step) }
{
    match found.literals {
        Some(literals) => put_apart(out, top, literals, found.step),
        None => put_line(out, top, found.step),
    }
}

/// Appends the line of a step whose literals were not read: they are copied as text.
fn put_apart(
    out: &mut Output<'_>,
    top: u64,
    literals: &[u8],
    held: StepRef<'_>,
) -> Result<(), JoinFault>
    requires limits { IsStepWithin 199999999 (step_of held) }
    requires numbered { IsClauseNumber top }
    ensures { (step : Step) → IsApart literals.now (step_of held.entry) step → Writes result out.new (out.old ++ line_of top step) }
{
    match held {
        StepRef::Add {
            id,
            hints,
            groups,
            ..
        } => put_addition(out, id, literals, hints, groups),
        StepRef::Delete { .. } => put_line(out, top, held),
    }
}

/// Appends the line of a step of a fragment under new numbers. Returns the number of the last addition so far, which was `top` before.
fn put_renumbered(
    out: &mut Output<'_>,
    numbers: &mut Vec<u64>,
    shift: Shift,
    top: u64,
    found: Found<'_>,
) -> Result<u64, JoinFault>
    requires limits { IsStepWithin 199999999 (step_of found.step) }
    requires low { IsLow (shift.base + (top - shift.begun)) (step_of found.step) }
    requires begun { (1 ≤ shift.base) × (shift.base ≤ shift.begun) × (shift.begun ≤ top) }
    requires top { top + 1 < 2 ^ 48 }
    ensures text { (step : Step) → IsHeld found.entry.literals (step_of found.entry.step) step → Writes result out.new (out.old ++ line_of top (renumbered (behind shift.base shift.begun) step)) }
    ensures top { (step : Step) → IsHeld found.entry.literals (step_of found.entry.step) step → IfOk result (λ n. n ≡ top_after top (renumbered (behind shift.base shift.begun) step)) }
{
    let literals = found.literals;
    match found.step {
        StepRef::Add {
            id,
            lits,
            hints,
            groups,
        } => {
            shift.numbers(hints, numbers)?;
            let id = shift.number(id);
            let step = StepRef::Add {
                id,
                lits,
                hints: numbers,
                groups,
            };
            put_found(out, top, Found { step, literals })?;
            Ok(id)
        }
        StepRef::Delete { ids } => {
            shift.numbers(ids, numbers)?;
            let step = StepRef::Delete { ids: numbers };
            put_found(out, top, Found { step, literals })?;
            Ok(top)
        }
    }
}

/// Appends a line of a fragment under new numbers. Returns the number of the last addition so far, which was `top` before.
///
/// The line of an addition that is spelled as this program spells lines is copied whole if no number changes, as in a run with one
/// leaf. Else the text of its literals is copied, and only its number and hints are read.
fn put_fragment_line(
    out: &mut Output<'_>,
    scratch: &mut Scratch,
    shift: Shift,
    top: u64,
    line: &[u8],
) -> Result<u64, JoinFault>
    requires spelled { (step : Step) × SpellsStepWithin 199999999 line.now step }
    requires low { (step : Step) → SpellsStepWithin 199999999 line.now step → IsLow (shift.base + (top - shift.begun)) step }
    requires begun { (1 ≤ shift.base) × (shift.base ≤ shift.begun) × (shift.begun ≤ top) }
    requires top { top + 1 < 2 ^ 48 }
    ensures text { (step : Step) → SpellsStepWithin 199999999 line.now step → Writes result out.new (out.old ++ line_of top (renumbered (behind shift.base shift.begun) step)) }
    ensures top { (step : Step) → SpellsStepWithin 199999999 line.now step → IfOk result (λ n. n ≡ top_after top (renumbered (behind shift.base shift.begun) step)) }
{
    if shift.is_none() {
        if let Some(id) = canonical_id_within(line) {
            put_copy(out, line)?;
            return Ok(id);
        }
    }
    let literals = match read_apart(&mut scratch.buffer, line) {
        Ok(literals) => literals,
        Err(_) => return Err(JoinFault::NoMemory),
    };
    let found = Found {
        step: scratch.buffer.as_ref(),
        literals,
    };
    put_renumbered(out, &mut scratch.numbers, shift, top, found)
}

/// Reads a fragment's last line into the buffer, for the clause that it adds: the line may have
/// been copied as text, unread. `some` is false if the fragment has no line, and then nothing is
/// read.
fn read_last(buffer: &mut StepBuffer, some: bool, last: &[u8]) -> Result<(), TextFault>
    ensures { OnOk result (MatchBool some (SpellsStepWithin 199999999 last.now buffer.new) (buffer.new ≡ buffer.old)) }
{
    if some {
        read_line_within(buffer, MAX_VAR, last)
    } else {
        Ok(())
    }
}

/// Appends the lines of a fragment under new numbers. Returns the number of the last addition. After this call the buffer has the
/// fragment's last step.
pub(crate) fn put_fragment(
    alloc: Global,
    out: &mut Output<'_>,
    scratch: &mut Scratch,
    shift: Shift,
    fragment: &PackedText,
) -> Result<u64, JoinFault>
    requires own { IsOwn shift.base fragment.now }
    requires begun { (1 ≤ shift.base) × (shift.base ≤ shift.begun) × (shift.begun ≤ shift.base + length out.old) }
    requires short { (shift.base < 2 ^ 40) × (length out.old < 2 ^ 32) }
    ensures text { Writes result out.new (out.old ++ text_of shift.begun (map (renumbered (behind shift.base shift.begun)) (steps_in fragment.now))) }
    ensures top { IfOk result (λ n. n ≡ top_of shift.begun (map (renumbered (behind shift.base shift.begun)) (steps_in fragment.now))) }
    ensures last { OnOk result (scratch.new.buffer ≡ last_of scratch.old.buffer (steps_in fragment.now)) }
    ensures few { IfOk result (λ n. (shift.begun ≤ n) × (n ≤ shift.base + length out.new)) }
{
    let mut lines = PackedLines::of(alloc, fragment);
    let mut line = Vec::new(alloc);
    let mut last = Vec::new(alloc);
    let mut some = false;
    let mut top = shift.begun;
    while lines.next(&mut line)? {
        top = put_fragment_line(out, scratch, shift, top, &line)?;
        swap(&mut line, &mut last);
        some = true;
    }
    match read_last(&mut scratch.buffer, some, &last) {
        Ok(()) => Ok(top),
        Err(_) => Err(JoinFault::NoMemory),
    }
}
