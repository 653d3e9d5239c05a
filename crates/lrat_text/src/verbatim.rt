//! Additions whose literals are copied as text: if only clause numbers change, the literals need not be parsed.

ghost use Rattle.std.specs.Prelude.{◌≡◌, ℕ, ◌+◌, ◌-◌, ◌<◌, ◌≤◌, ◌^◌, false, ◌++◌, List, [], length, take, drop, None, Ok, OnOk, OnErr, IfOk, IfErr, decimal, option_map};
ghost use Rattle.dimacs.specs.logic.Literal.{Literal};
ghost use Rattle.lrat_text.specs.Grammar.{SpellsStep, SpellsStepWithin};
ghost use Rattle.lrat_text.specs.Parser.{hints_in, line_tokens, GivesStep};
ghost use Rattle.lrat_text.specs.WrittenLine.{line_of, literals_text, canonical_parts};
ghost use Rattle.lrat_text.specs.declared.fault.TextFault.TheVariants.{NoMemory};
ghost use Rattle.lrat_text.specs.declared.step.Step.{Step};
ghost use Rattle.lrat_text.specs.declared.step.Step.TheVariants as owned;
ghost use Rattle.lrat_text.specs.inner.LineParts.{reasons_text, zero_at, Begins};

use crate::canonical::canonical_id_within;
use crate::fault::TextFault;
use crate::groups::Groups;
use crate::parser::read_hints;
use crate::step_buffer::StepBuffer;
use crate::token::word_len;
use crate::writer::{put_number, put_reasons, put_text};
use std::alloc::AllocError;

/// The number of offsets that are searched at once, without a branch. Compared with one offset at a time, a join takes a tenth less time.
const MANY: usize = 16;

/// Answers whether a space followed by a `0` begins at one of the 16 offsets from `from` on.
#[inline(always)]
fn has_zero(line: &[u8], from: usize) -> bool
    requires { from + 16 < length line.now }
    ensures { result ≡ false → zero_at (drop from line.now) ≡ 16 + zero_at (drop (from + 16) line.now) }
{
    let mut found = false;
    for k in 0..MANY {
        found |= (line[from + k] == b' ') & (line[from + k + 1] == b'0');
    }
    found
}

/// Answers the offset of the first space that is followed by a `0`, of those from `from` on; the line's length if there is none.
fn zero_from(line: &[u8], from: usize) -> usize
    requires { from ≤ length line.now }
    ensures value { result ≡ from + zero_at (drop from line.now) }
    ensures bound { result ≤ length line.now }
{
    for i in from + 1..line.len() {
        if (line[i - 1] == b' ') & (line[i] == b'0') {
            return i - 1;
        }
    }
    line.len()
}

/// Answers the offset of the first space that is followed by a `0`; the line's length if there is none.
fn zero_at(line: &[u8]) -> usize
    ensures value { result ≡ zero_at line.now }
    ensures bound { result ≤ length line.now }
{
    let mut from = 0;
    while line.len() - from > MANY && !has_zero(line, from) {
        from += MANY;
    }
    zero_from(line, from)
}

/// Lends the bytes of a line from offset `start` to before offset `end`, and those from `end` on.
#[inline(always)]
fn cut_out(line: &[u8], start: usize, end: usize) -> (&[u8], &[u8])
    requires { (start ≤ end) × (end ≤ length line.now) }
    ensures between { result.0.now ≡ take (end - start) (drop start line.now) }
    ensures behind { result.1.now ≡ drop end line.now }
{
    (&line[start..end], &line[end..])
}

impl StepBuffer {
    /// Sets the buffer to an addition with the number `id` and no literals, and reads its hints and groups.
    fn read_reasons(&mut self, id: u64, text: &[u8]) -> Result<(), TextFault>
        ensures { GivesStep self.new result (hints_in id [] [] (line_tokens text.now)) }
    {
        self.is_deletion = false;
        self.id = id;
        self.literals.clear();
        self.numbers.clear();
        self.groups.clear();
        read_hints(&mut self.numbers, &mut self.groups, text)
    }
}

/// Reads an addition's line except its literals: the buffer then holds the addition without literals, and the answer is the literals' text.
/// `None` for a deletion, and for a line that is not exactly what [`put_ref`](crate::put_ref) writes; the buffer is then as before.
///
/// The caller knows that the line spells a step with variables up to some limit below 2^48. The literals end at the first ` 0`, since no
/// literal begins with 0.
pub fn read_without_literals_within<'a>(
    buffer: &mut StepBuffer,
    line: &'a [u8],
) -> Result<Option<&'a [u8]>, TextFault>
    requires spelled { (most : ℕ) × (most < 2 ^ 48) × (step : Step) × SpellsStepWithin most line.now step }
    ensures found { IfOk result (λ found. (most : ℕ) (step : Step) → most < 2 ^ 48 → SpellsStepWithin most line.now step → option_map (λ text. (buffer.new, text.now)) found ≡ canonical_parts line.now step) }
    ensures untouched { result ≡ Ok None → buffer.new ≡ buffer.old }
    ensures memory { IfErr result (λ fault. fault ≡ NoMemory) }
{
    let Some(id) = canonical_id_within(line) else {
        return Ok(None);
    };
    let (literals, rest) = cut_out(line, word_len(line), zero_at(line) + 2);
    buffer.read_reasons(id, rest)?;
    Ok(Some(literals))
}

/// Reads an addition's line except its literals, whose text is the answer. `None` for a deletion,
/// and for a line that is not exactly what [`put_ref`](crate::put_ref) writes; the buffer is then
/// as before. The caller knows that the line spells a step with variables up to 2,000,000.
pub fn read_without_literals<'a>(
    buffer: &mut StepBuffer,
    line: &'a [u8],
) -> Result<Option<&'a [u8]>, TextFault>
    requires spelled { (step : Step) × SpellsStep line.now step }
    ensures found { IfOk result (λ found. (step : Step) → SpellsStep line.now step → option_map (λ text. (buffer.new, text.now)) found ≡ canonical_parts line.now step) }
    ensures untouched { result ≡ Ok None → buffer.new ≡ buffer.old }
    ensures memory { IfErr result (λ fault. fault ≡ NoMemory) }
{
    read_without_literals_within(buffer, line)
}

/// Appends an addition's line, whose literals are given as text. If memory is refused, a prefix of the line may have been appended.
fn put_parts(
    out: &mut Vec<u8>,
    id: u64,
    literals: &[u8],
    hints: &[u64],
    groups: &Groups,
) -> Result<(), AllocError>
    ensures ok { OnOk result (out.new.items ≡ out.old.items ++ (decimal id ++ literals.now ++ reasons_text hints.now groups.now)) }
    ensures begins { Begins out.old.items out.new.items }
{
    put_number(out, id)?;
    put_text(out, literals)?;
    put_reasons(out, hints, groups)
}

/// Appends an addition's line, whose literals are given as text: single spaces, and an LF at the
/// end. If memory is refused, `out` is as before.
pub fn put_with_literal_text(
    id: u64,
    literals: &[u8],
    hints: &[u64],
    groups: &Groups,
    out: &mut Vec<u8>,
) -> Result<(), AllocError>
    ensures ok { (top : ℕ) (lits : List Literal) → literals.now ≡ literals_text lits → OnOk result (out.new.items ≡ out.old.items ++ line_of top (owned.Add id lits hints.now groups.now)) }
    ensures err { OnErr result (out.new.items ≡ out.old.items) }
{
    let len = out.len();
    let written = put_parts(out, id, literals, hints, groups);
    if written.is_err() {
        out.truncate(len);
    }
    written
}
