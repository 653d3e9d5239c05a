//! The output of a join: the joined text, packed as it is written.

ghost use Rattle.std.specs.Prelude.{◌≡◌, ℕ, ◌<◌, List, ◌++◌, codes, length};
ghost use Rattle.dimacs.specs.logic.Literal.{Literal};
ghost use Rattle.lrat_text.specs.Grammar.{IsStepWithin, IsClauseNumber};
ghost use Rattle.lrat_text.specs.Steps.{step_of};
ghost use Rattle.lrat_text.specs.WrittenLine.{line_of, literals_text};
ghost use Rattle.lrat_text.specs.declared.step.Step.TheVariants as owned;
ghost use Rattle.proof_join.specs.inner.Steps.{Writes};

use crate::fault::JoinFault;
use lrat_text::{Groups, StepRef, put_ref_within, put_with_literal_text};
use packed_text::PackedText;
use std::alloc::Global;
use std::marker::Model;

/// The joined text so far, packed. Blocks that are equal to those of `like` are shared with it: the joined text of a tree with one leaf is
/// mostly a copy of the leaf's fragment.
pub(crate) struct Output<'t> {
    text: PackedText,
    like: Option<&'t PackedText>,
    /// The line that is being written; its memory is kept from line to line.
    line: Vec<u8>,
}

impl Drop for Output<'_> {
    fn drop(self) {
        let Output {
            text: _,
            like: _,
            line: _,
        } = self;
    }
}

impl<'t> Model for Output<'t> {
    ghost use Rattle.std.specs.Prelude.{List, ℕ};

    ghost Value = { List ℕ };

    ghost view = { λ o. o.text };
}

/// Appends bytes to a text. It is a fault, `TooLong`, if the text then has 2^32 bytes or more.
fn append(text: &mut PackedText, like: Option<&PackedText>, more: &[u8]) -> Result<(), JoinFault>
    ensures { Writes result text.new (text.old ++ more.now) }
{
    let grown = match like {
        Some(other) => text.extend_like(more, other),
        None => text.extend(more),
    };
    grown?;
    limit(text)
}

/// Tests that the joined text has fewer than 2^32 bytes, as frames tell the length of a proof in 32
/// bits; `TooLong` else.
fn limit(text: &PackedText) -> Result<(), JoinFault>
    ensures { Writes result text.now text.now }
{
    if text.len() as u64 >= 1 << 32 {
        return Err(JoinFault::TooLong);
    }
    Ok(())
}

impl<'t> Output<'t> {
    /// An output that goes on after this text.
    pub(crate) fn behind(
        alloc: Global,
        text: PackedText,
        like: Option<&'t PackedText>,
    ) -> Output<'t>
        ensures { result ≡ text }
    {
        Output {
            text,
            like,
            line: Vec::new(alloc),
        }
    }

    /// Hands out the text.
    pub(crate) fn into_text(self) -> PackedText
        ensures { result ≡ self.entry }
    {
        let Output {
            text,
            like: _,
            line: _,
        } = self;
        text
    }
}

/// Appends the line of a step. The line of a deletion begins with `top`.
pub(crate) fn put_line(out: &mut Output<'_>, top: u64, step: StepRef<'_>) -> Result<(), JoinFault>
    requires limits { IsStepWithin 199999999 (step_of step) }
    requires numbered { IsClauseNumber top }
    ensures { Writes result out.new (out.old ++ line_of top (step_of step.entry)) }
{
    out.line.clear();
    put_ref_within(step, top, &mut out.line)?;
    append(&mut out.text, out.like, &out.line)
}

/// Appends the line of an addition under `id` whose literals are given as text.
pub(crate) fn put_addition(
    out: &mut Output<'_>,
    id: u64,
    literals: &[u8],
    hints: &[u64],
    groups: &Groups,
) -> Result<(), JoinFault>
    ensures { (top : ℕ) (lits : List Literal) → literals.now ≡ literals_text lits → Writes result out.new (out.old ++ line_of top (owned.Add id lits hints.now groups.now)) }
{
    out.line.clear();
    put_with_literal_text(id, literals, hints, groups, &mut out.line)?;
    append(&mut out.text, out.like, &out.line)
}

/// Appends a line that needs no change, and a newline.
pub(crate) fn put_copy(out: &mut Output<'_>, line: &[u8]) -> Result<(), JoinFault>
    ensures { Writes result out.new (out.old ++ (line.now ++ codes "\n")) }
{
    out.line.clear();
    out.line.extend_from_slice(line)?;
    out.line.push(b'\n')?;
    append(&mut out.text, out.like, &out.line)
}
