//! Writes the kept lines of a proof as a shorter text.

ghost use Rattle.std.specs.Prelude.{◌≡◌, All, OnOk};
ghost use Rattle.lrat_text.specs.Grammar.{IsStepWithin, IsClauseNumber, IsGroup};
ghost use Rattle.lrat_text.specs.Steps.{step_of};

use crate::line_heads::{Head, head_of};
use crate::line_reader::read;
use crate::needs::{Kept, Need};
use lrat_text::{Groups, StepBuffer, StepRef, TextFault};
use packed_text::{PackedLines, PackedText};
use std::alloc::{AllocError, Global};
use std::marker::Model;

/// Returns the number `id` if a clause may have it (1 to 2^48 - 1), else `other`: the number at the
/// beginning of a deletion's line has to be one.
fn clause_number(id: u64, other: u64) -> u64
    requires { IsClauseNumber other }
    ensures { IsClauseNumber result }
{
    if 0 < id && id < 1 << 48 { id } else { other }
}

/// Replaces the content of `out` by those of the numbers whose clauses are kept.
fn keep_numbers(kept: Kept<'_>, ids: &[u64], out: &mut Vec<u64>) -> Result<(), AllocError>
    requires { All IsClauseNumber ids.now }
    ensures { OnOk result (All IsClauseNumber out.new.items) }
{
    out.clear();
    for id in ids {
        if kept.stays(*id) {
            out.push(*id)?;
        }
    }
    Ok(())
}

/// Replaces the content of `out` by those of the groups whose candidates are kept.
fn keep_groups(kept: Kept<'_>, groups: &Groups, out: &mut Groups) -> Result<(), AllocError>
    requires { All IsGroup groups.now }
    ensures { OnOk result (All IsGroup out.new) }
{
    out.clear();
    for i in 0..groups.len() {
        let (candidate, hints) = groups.get(i);
        if kept.stays(candidate) {
            out.push(candidate, hints)?;
        }
    }
    Ok(())
}

/// The text written so far, and buffers for the next line.
struct Rewriter {
    out: PackedText,
    /// A buffer for a line before it is packed.
    written: Vec<u8>,
    /// The number at the front of a deletion's line: that of the last lemma written, or at first that of the last clause of the formula.
    top: u64,
    /// Buffers for the kept numbers and groups of a line.
    numbers: Vec<u64>,
    groups: Groups,
}

impl Drop for Rewriter {
    fn drop(self) {
        let Rewriter {
            out: _,
            written: _,
            top: _,
            numbers: _,
            groups: _,
        } = self;
    }
}

impl Model for Rewriter {
    ghost use Rattle.std.specs.Prelude.{ℕ, List};
    ghost use Rattle.lrat_text.specs.Grammar.{IsClauseNumber};

    ghost Value = { List ℕ };

    ghost view = { λ r. r.out };

    ghost invariant = { λ r. IsClauseNumber r.top };
}

impl Rewriter {
    /// Returns the text that was written.
    fn into_text(self) -> PackedText
        ensures { result ≡ self }
    {
        let Rewriter {
            out,
            written: _,
            top: _,
            numbers: _,
            groups: _,
        } = self;
        out
    }

    /// Appends a step's line, without the groups whose candidates are dropped and without the
    /// deleted numbers whose clauses are. A deletion of no clause is not written.
    fn put(&mut self, kept: Kept<'_>, step: StepRef<'_>) -> Result<(), AllocError>
        requires { IsStepWithin 199999999 (step_of step) }
    {
        match step {
            StepRef::Add {
                id,
                lits,
                hints,
                groups,
            } => {
                keep_groups(kept, groups, &mut self.groups)?;
                let line = StepRef::Add {
                    id,
                    lits,
                    hints,
                    groups: &self.groups,
                };
                self.out.put_within(line, id, &mut self.written)?;
                self.top = id;
                Ok(())
            }
            StepRef::Delete { ids } => {
                keep_numbers(kept, ids, &mut self.numbers)?;
                if self.numbers.is_empty() {
                    return Ok(());
                }
                let line = StepRef::Delete { ids: &self.numbers };
                self.out.put_within(line, self.top, &mut self.written)
            }
        }
    }

    /// Parses a line, and appends what of it is kept: a deletion, or a lemma with groups. All other
    /// lemmas are copied as text.
    fn put_part(
        &mut self,
        kept: Kept<'_>,
        buffer: &mut StepBuffer,
        line: &[u8],
    ) -> Result<(), TextFault> {
        read(buffer, line)?;
        self.put(kept, buffer.as_ref())?;
        Ok(())
    }

    /// Appends the line of a needed lemma as it is.
    fn put_line(&mut self, id: u64, line: &[u8]) -> Result<(), AllocError> {
        self.written.clear();
        self.written.extend_from_slice(line)?;
        self.written.push(b'\n')?;
        self.out.extend(&self.written)?;
        self.top = clause_number(id, self.top);
        Ok(())
    }
}

/// Copies the kept lines of a proof, up to its empty clause, to a new text.
pub(crate) fn rewrite(
    alloc: Global,
    text: &PackedText,
    buffer: &mut StepBuffer,
    kept: Kept<'_>,
) -> Result<PackedText, TextFault> {
    let mut rewriter = Rewriter {
        out: PackedText::new(alloc),
        written: Vec::new(alloc),
        top: clause_number(kept.lemmas.base(), 1),
        numbers: Vec::new(alloc),
        groups: Groups::new(alloc),
    };
    let mut lines = PackedLines::of(alloc, text);
    let mut line = Vec::new(alloc);
    let mut rank = 0usize;
    while rank < kept.lemmas.len() && lines.next(&mut line)? {
        match head_of(&line) {
            Head::Deletion => rewriter.put_part(kept, buffer, &line)?,
            Head::Lemma { id, .. } => {
                match kept.need(rank) {
                    Need::Nothing => {}
                    Need::Line => rewriter.put_line(id, &line)?,
                    Need::Groups => rewriter.put_part(kept, buffer, &line)?,
                }
                rank = rank.saturating_add(1);
            }
        }
    }
    Ok(rewriter.into_text())
}
