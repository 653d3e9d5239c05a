//! The lemmas that the empty clause needs, directly or through others.

use crate::hints::plain_hints;
use crate::lemmas::Lemmas;
use crate::line_reader::read;
use lrat_text::{Groups, StepBuffer, StepRef, TextFault};
use packed_text::PackedText;
use std::alloc::{AllocError, Global};

/// How a lemma is needed: whether it is kept, and in which form.
#[derive(Clone, Copy, PartialEq, Eq)]
pub(crate) enum Need {
    /// No lemma that is kept needs it, so it is left out.
    Nothing,
    /// It is kept, with its line as it is.
    Line,
    /// It is kept, without its groups whose candidates are left out.
    Groups,
}

/// The lemmas of a proof, and by rank the need of each.
#[derive(Clone, Copy)]
pub(crate) struct Kept<'k> {
    pub(crate) lemmas: &'k Lemmas,
    pub(crate) needs: &'k [Need],
}

impl<'k> Kept<'k> {
    /// Returns the need of the lemma of this rank; `Nothing` if there is no such lemma.
    pub(crate) fn need(self, rank: usize) -> Need {
        match self.needs.get(rank) {
            Some(need) => *need,
            None => Need::Nothing,
        }
    }

    /// Tells whether the clause of this number is kept: a needed lemma, or any clause of the formula.
    pub(crate) fn stays(self, id: u64) -> bool {
        if id <= self.lemmas.base() {
            return true;
        }
        match self.lemmas.rank(id) {
            Some(rank) => self.need(rank) != Need::Nothing,
            None => false,
        }
    }
}

/// A pass backwards through the lemmas of a proof.
#[derive(Drop)]
struct BackwardPass<'k> {
    /// The lemmas, and which of them are kept as candidates of groups.
    before: Kept<'k>,
    /// By rank, the need of each lemma as far as this pass has come.
    needs: Vec<Need>,
}

impl<'k> BackwardPass<'k> {
    /// Notes the lemma of this rank as needed, with its line as it is; one that is noted already
    /// keeps its form.
    fn need_rank(&mut self, rank: usize) {
        if rank < self.needs.len() && self.needs[rank] == Need::Nothing {
            self.needs[rank] = Need::Line;
        }
    }

    /// Notes that the lemma of this rank, a needed one, has RAT groups, of which some may have to
    /// be dropped.
    fn note_groups(&mut self, rank: usize) {
        if rank < self.needs.len() {
            self.needs[rank] = Need::Groups;
        }
    }

    /// Notes the clause of this number as needed; the formula's clauses need no note.
    fn need(&mut self, id: u64) {
        if let Some(rank) = self.before.lemmas.rank(id) {
            self.need_rank(rank);
        }
    }

    /// Notes the clauses of these numbers as needed, the hints of a needed lemma.
    fn need_all(&mut self, ids: &[u64]) {
        for id in ids {
            self.need(*id);
        }
    }

    /// Notes the clauses as needed whose numbers are in the bytes `hints`. A space follows each number, except the 0 at the end.
    fn need_spelled(&mut self, hints: &[u8]) {
        let mut id = 0u64;
        for byte in hints {
            if *byte == b' ' {
                self.need(id);
                id = 0;
            } else {
                id = id
                    .saturating_mul(10)
                    .saturating_add(u64::from(byte.wrapping_sub(b'0')));
            }
        }
    }

    /// Notes the hints of a lemma's RAT groups as needed, except in groups whose candidates are not
    /// kept: such groups are dropped.
    fn need_groups(&mut self, groups: &Groups) {
        for i in 0..groups.len() {
            let (candidate, hints) = groups.get(i);
            if self.before.stays(candidate) {
                self.need_all(hints);
            }
        }
    }

    /// Takes the lemma of this rank on the way back: if it is needed, notes its hints as needed.
    /// Hints without groups are read without parsing the line.
    fn step(
        &mut self,
        alloc: Global,
        text: &PackedText,
        buffer: &mut StepBuffer,
        rank: usize,
    ) -> Result<(), TextFault> {
        if rank >= self.needs.len() || self.needs[rank] == Need::Nothing {
            return Ok(());
        }
        let line = self.before.lemmas.line(alloc, text, rank)?;
        if let Some(hints) = plain_hints(&line) {
            self.need_spelled(hints);
            return Ok(());
        }
        read(buffer, &line)?;
        if let StepRef::Add { hints, groups, .. } = buffer.as_ref() {
            self.need_all(hints);
            if !groups.is_empty() {
                self.note_groups(rank);
                self.need_groups(groups);
            }
        }
        Ok(())
    }

    /// Goes back from the last lemma, the empty clause, to the first. Hints come before the lemmas
    /// that name them, so one pass finds all that is needed.
    fn run(
        &mut self,
        alloc: Global,
        text: &PackedText,
        buffer: &mut StepBuffer,
    ) -> Result<(), TextFault> {
        let count = self.needs.len();
        if let Some(last) = count.checked_sub(1) {
            self.need_rank(last);
        }
        for rank in (0..count).rev() {
            self.step(alloc, text, buffer, rank)?;
        }
        Ok(())
    }
}

/// Returns, by rank, what the empty clause needs, found in one pass back from it. Groups count only
/// if `before` keeps their candidates.
fn trace<'k>(
    alloc: Global,
    text: &PackedText,
    buffer: &mut StepBuffer,
    lemmas: &'k Lemmas,
    before: &'k [Need],
) -> Result<Vec<Need>, TextFault> {
    let mut way = BackwardPass {
        before: Kept {
            lemmas,
            needs: before,
        },
        needs: vec![in alloc; Need::Nothing; lemmas.len()]?,
    };
    way.run(alloc, text, buffer)?;
    let BackwardPass { needs, .. } = way;
    Ok(needs)
}

/// Returns, by rank, which lemmas are kept, and in which form.
///
/// Whether a candidate is kept is known only after a pass backwards, so the first pass counts the hints of each group as needed. If a
/// needed lemma has groups, a second pass leaves out the hints of candidates that the first one dropped.
pub(crate) fn needs_of(
    alloc: Global,
    text: &PackedText,
    buffer: &mut StepBuffer,
    lemmas: &Lemmas,
) -> Result<Vec<Need>, TextFault> {
    let all = vec![in alloc; Need::Line; lemmas.len()]?;
    let needs = trace(alloc, text, buffer, lemmas, &all)?;
    if !needs.contains(&Need::Groups) {
        return Ok(needs);
    }
    trace(alloc, text, buffer, lemmas, &needs)
}
