//! The writer of the trimmed fragment: the lines that stay, with the new numbers of clauses.

ghost use Rattle.std.specs.Prelude.{◌≡◌};
ghost use Rattle.lrat_text.specs.Grammar.{IsStepWithin};
ghost use Rattle.lrat_text.specs.Steps.{step_of};

use crate::line_reader::read;
use crate::line_scan::deletes;
use crate::needs::Needs;
use lrat_text::{Groups, StepBuffer, StepRef, TextFault};
use packed_text::{PackedLines, PackedText};
use std::alloc::{AllocError, Global};
use std::marker::Model;

/// The text written so far, and buffers that are used again from line to line.
struct Rewriter {
    /// The text written so far.
    out: PackedText,
    /// The buffer for a line before it is packed.
    written: Vec<u8>,
    /// The number of the last lemma that was written, with which a deletion's line begins.
    top: u64,
    /// The buffer for the new numbers of a line.
    numbers: Vec<u64>,
    /// An empty list: the lemmas of a fragment have no groups.
    groups: Groups,
}

impl Drop for Rewriter {
    fn drop(self) {
        let Rewriter {
            out: _,
            written: _,
            top: _,
            numbers: _,
            groups: _,
        } = self;
    }
}

impl Model for Rewriter {
    ghost use Rattle.std.specs.Prelude.{◌≡◌, ℕ, List, []};
    ghost use Rattle.lrat_text.specs.Grammar.{IsClauseNumber};

    ghost Value = { List ℕ };

    ghost view = { λ r. r.out };

    ghost invariant = { λ r. IsClauseNumber r.top × (r.groups ≡ []) };
}

impl Rewriter {
    /// Hands over the text that was written.
    fn into_text(self) -> PackedText
        ensures { result ≡ self }
    {
        let Rewriter {
            out,
            written: _,
            top: _,
            numbers: _,
            groups: _,
        } = self;
        out
    }

    /// Appends the line of a step with its new numbers. A dropped lemma, and a deletion of dropped lemmas only, give no line.
    fn put(&mut self, needs: &Needs, step: StepRef<'_>) -> Result<(), AllocError>
        requires { IsStepWithin 199999999 (step_of step) }
    {
        match step {
            StepRef::Add {
                id,
                lits,
                hints,
                ..
            } => {
                let Some(id) = needs.number(id) else {
                    return Ok(());
                };
                needs.numbers(hints, &mut self.numbers)?;
                let line = StepRef::Add {
                    id,
                    lits,
                    hints: &self.numbers,
                    groups: &self.groups,
                };
                self.out.put_within(line, id, &mut self.written)?;
                self.top = id;
                Ok(())
            }
            StepRef::Delete { ids } => {
                needs.numbers(ids, &mut self.numbers)?;
                if self.numbers.is_empty() {
                    return Ok(());
                }
                let line = StepRef::Delete { ids: &self.numbers };
                self.out.put_within(line, self.top, &mut self.written)
            }
        }
    }

    /// Parses a line, and appends it with its new numbers if it stays.
    fn put_line(
        &mut self,
        needs: &Needs,
        buffer: &mut StepBuffer,
        line: &[u8],
    ) -> Result<(), TextFault> {
        read(buffer, line)?;
        self.put(needs, buffer.as_ref())?;
        Ok(())
    }
}

/// Answers the fragment with the needed lemmas alone, under their new numbers.
pub(crate) fn rewrite(
    alloc: Global,
    needs: &Needs,
    buffer: &mut StepBuffer,
    text: &PackedText,
) -> Result<PackedText, TextFault> {
    let mut rewriter = Rewriter {
        out: PackedText::new(alloc),
        written: Vec::new(alloc),
        top: needs.base().max(1),
        numbers: Vec::new(alloc),
        groups: Groups::new(alloc),
    };
    let mut lines = PackedLines::of(alloc, text);
    let mut line = Vec::new(alloc);
    let mut place = 0usize;
    while lines.next(&mut line)? {
        let adds = !deletes(&line);
        if !adds || needs.has(place) {
            rewriter.put_line(needs, buffer, &line)?;
        }
        if adds {
            place = place.saturating_add(1);
        }
    }
    Ok(rewriter.into_text())
}
