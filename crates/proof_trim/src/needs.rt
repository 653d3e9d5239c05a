//! Which lemmas of a fragment the last one needs, directly or through others.

ghost use Rattle.std.specs.Prelude.{◌≡◌, ◌<◌, ◌^◌, All, IfSome, OnOk};
ghost use Rattle.lrat_text.specs.Grammar.{IsClauseNumber};

use crate::line_reader::read;
use crate::line_scan::deletes;
use crate::reverse_lines::ReverseLines;
use lrat_text::{StepBuffer, StepRef, TextFault};
use packed_text::PackedText;
use std::alloc::{AllocError, Global};
use std::marker::Model;

/// Which lemmas of a fragment are needed, and their new numbers. Lemma i (index, from 0) has the number `base + 1 + i` in the fragment.
#[derive(Drop)]
pub(crate) struct Needs {
    /// The number of clauses of the base.
    base: u64,
    /// For each lemma its rank among the needed ones, from 1; 0 if no needed lemma needs it. Before `rank` is called, each needed lemma has
    /// 1.
    ranks: Vec<u32>,
}

impl Model for Needs {
    ghost use Rattle.std.specs.Prelude.{ℕ, ◌<◌, ◌^◌};

    ghost Value = { ℕ };

    ghost view = { λ n. n.base };

    ghost invariant = { λ n. n.base < 2 ^ 40 };
}

impl Needs {
    /// Marks the last of `count` lemmas and all that it needs. `None` if nine tenths or more of the second half are needed, since then
    /// trimming would gain little.
    pub(crate) fn of(
        alloc: Global,
        base: u64,
        count: usize,
        buffer: &mut StepBuffer,
        text: &PackedText,
    ) -> Result<Option<Needs>, TextFault>
        requires { base < 2 ^ 40 }
    {
        let mut needs = Needs {
            base,
            ranks: vec![in alloc; 0; count]?,
        };
        needs.need(base + count as u64);
        let half = count / 2;
        let mut lines = ReverseLines::of(alloc, text);
        needs.trace(buffer, &mut lines, count, half)?;
        if needs.count_from(half) >= (count - half) / 10 * 9 {
            return Ok(None);
        }
        needs.trace(buffer, &mut lines, half, 0)?;
        Ok(Some(needs))
    }

    /// Answers the number of clauses of the base.
    pub(crate) fn base(&self) -> u64
        ensures value { result ≡ self.now }
        ensures limit { result < 2 ^ 40 }
    {
        self.base
    }

    /// Marks the lemma of this number as needed; the base's clauses need no mark.
    fn need(&mut self, number: u64) {
        if number <= self.base {
            return;
        }
        let place = (number - self.base - 1) as usize;
        if place < self.ranks.len() {
            self.ranks[place] = 1;
        }
    }

    /// Goes back through the lines of the lemmas of indices `from - 1` down to `to`, and marks the
    /// hints of each needed one as needed: they come earlier, so one pass finds all.
    fn trace(
        &mut self,
        buffer: &mut StepBuffer,
        lines: &mut ReverseLines<'_>,
        from: usize,
        to: usize,
    ) -> Result<(), TextFault> {
        let mut place = from;
        while place > to && lines.back()? {
            place = self.trace_line(buffer, lines.line(), place)?;
        }
        Ok(())
    }

    /// Takes the next line on the way back: marks the hints of its lemma as needed, if the lemma
    /// is. `place` is the number of lemmas up to and with this line; the answer is the number
    /// before it. A deletion counts none.
    fn trace_line(
        &mut self,
        buffer: &mut StepBuffer,
        line: &[u8],
        place: usize,
    ) -> Result<usize, TextFault> {
        let Some(own) = place.checked_sub(1) else {
            return Ok(place);
        };
        if deletes(line) {
            return Ok(place);
        }
        if self.has(own) {
            read(buffer, line)?;
            if let StepRef::Add { hints, .. } = buffer.as_ref() {
                for &hint in hints {
                    self.need(hint);
                }
            }
        }
        Ok(own)
    }

    /// Counts the lemmas from index `place` on that are marked as needed.
    fn count_from(&self, place: usize) -> usize {
        let mut count = 0usize;
        for i in place..self.ranks.len() {
            if self.ranks[i] != 0 {
                count = count.saturating_add(1);
            }
        }
        count
    }

    /// Gives each needed lemma its rank among them, from 1, by which it is renumbered, and answers
    /// how many there are.
    pub(crate) fn rank(&mut self) -> usize {
        let mut needed = 0u32;
        for i in 0..self.ranks.len() {
            if self.ranks[i] != 0 {
                needed = needed.saturating_add(1);
                self.ranks[i] = needed;
            }
        }
        needed as usize
    }

    /// Answers whether the lemma of index `place` is needed.
    pub(crate) fn has(&self, place: usize) -> bool {
        place < self.ranks.len() && self.ranks[place] != 0
    }

    /// Answers the new number of a clause: a clause of the base keeps its number, a needed lemma's is `base` and its rank. `None` if the
    /// clause is dropped.
    pub(crate) fn number(&self, number: u64) -> Option<u64>
        requires { IsClauseNumber number }
        ensures { IfSome result IsClauseNumber }
    {
        if number <= self.base {
            return Some(number);
        }
        let place = (number - self.base - 1) as usize;
        match self.ranks.get(place) {
            Some(rank) if *rank != 0 => Some(self.base + *rank as u64),
            _ => None,
        }
    }

    /// Overwrites `out` with the new numbers of those of these clauses that stay.
    pub(crate) fn numbers(&self, numbers: &[u64], out: &mut Vec<u64>) -> Result<(), AllocError>
        requires { All IsClauseNumber numbers.now }
        ensures { OnOk result (All IsClauseNumber out.new.items) }
    {
        out.clear();
        for number in numbers {
            if let Some(number) = self.number(*number) {
                out.push(number)?;
            }
        }
        Ok(())
    }
}
