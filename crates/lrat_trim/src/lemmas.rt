//! An index of a proof's lemmas: their numbers, and the offsets at which their lines begin.

use crate::line_heads::{Head, head_of};
use memchr::memchr;
use packed_text::{PackedLines, PackedText};
use std::alloc::{AllocError, Global};

/// A lemma of a proof: its number, and the offset of its line.
#[derive(Clone, Copy)]
struct Lemma {
    id: u64,
    /// The offset in the text at which the lemma's line begins.
    place: usize,
}

/// The lemmas of an accepted proof, up to the first empty one, in their order. Their numbers are strictly increasing.
#[derive(Drop)]
pub(crate) struct Lemmas {
    /// The number of the formula's clauses; the lemmas have greater numbers.
    base: u64,
    list: Vec<Lemma>,
    /// The offset in the text at which the line of the last lemma ends.
    end: usize,
}

impl Lemmas {
    /// Finds the lemmas of an accepted proof in one pass over the beginnings of its lines.
    pub(crate) fn of(alloc: Global, base: u64, text: &PackedText) -> Result<Lemmas, AllocError> {
        let mut lemmas = Lemmas {
            base,
            list: Vec::new(alloc),
            end: 0,
        };
        let mut lines = PackedLines::of(alloc, text);
        let mut line = Vec::new(alloc);
        while lines.next(&mut line)? {
            if lemmas.note(&line)? {
                break;
            }
        }
        Ok(lemmas)
    }

    /// Adds a line's lemma, if the line adds one, and tells whether it is the empty clause.
    fn note(&mut self, line: &[u8]) -> Result<bool, AllocError> {
        let place = self.end;
        self.end = place.saturating_add(line.len()).saturating_add(1);
        match head_of(line) {
            Head::Deletion => Ok(false),
            Head::Lemma { id, is_empty } => {
                self.list.push(Lemma { id, place })?;
                Ok(is_empty)
            }
        }
    }

    /// Returns the number of the formula's clauses; greater numbers are lemmas'.
    pub(crate) fn base(&self) -> u64 {
        self.base
    }

    /// Returns the number of lemmas.
    pub(crate) fn len(&self) -> usize {
        self.list.len()
    }

    /// Returns the rank of the lemma of this number, counted from 0; `None` if there is none. If no number before it was skipped, the
    /// number gives the rank at once.
    pub(crate) fn rank(&self, id: u64) -> Option<usize> {
        let guess = id.checked_sub(self.base)?.checked_sub(1)? as usize;
        match self.list.get(guess) {
            Some(lemma) if lemma.id == id => Some(guess),
            _ => self.search(id),
        }
    }

    /// Returns the rank of the lemma of this number by binary search; `None` if there is none.
    fn search(&self, id: u64) -> Option<usize> {
        let mut low = 0;
        let mut high = self.list.len();
        while low < high {
            let middle = low + (high - low) / 2;
            let found = self.list[middle].id;
            if found == id {
                return Some(middle);
            }
            if found < id {
                low = middle + 1;
            } else {
                high = middle;
            }
        }
        None
    }

    /// Reads the line of the lemma of this rank from the text, without its LF.
    pub(crate) fn line(
        &self,
        alloc: Global,
        text: &PackedText,
        rank: usize,
    ) -> Result<Vec<u8>, AllocError> {
        let place = self.place(rank);
        let count = self.place(rank.saturating_add(1)).saturating_sub(place);
        let mut line = text.read(alloc, place, count)?;
        // Deletions may stand between this lemma and the next one.
        if let Some(end) = memchr(b'\n', &line) {
            line.truncate(end);
        }
        Ok(line)
    }

    /// Returns the offset at which the line of the lemma of this rank begins; for a rank after the last one, the offset of the end.
    fn place(&self, rank: usize) -> usize {
        match self.list.get(rank) {
            Some(lemma) => lemma.place,
            None => self.end,
        }
    }
}
