//! The numbers of the lemmas in the woven log.

use crate::log_record::{Entry, entry_at};
use crate::open_cubes::closing_of;
use std::alloc::{AllocError, Global};

/// The numbers of the lemmas, as far as they are written.
pub(crate) struct Numbering {
    /// The number of clauses of the formula.
    rows: u64,
    /// For each log, the words that stand for its entries.
    entries: Vec<Vec<u32>>,
    /// By lemma, 1 plus the number of the lemma that needs it last; 0 if none does, or if it was deleted.
    uses: Vec<u32>,
    /// By lemma, its number in the woven log, from 1 behind the formula's; 0 if it is not written.
    given: Vec<u32>,
    /// By cube, the lemma that closes it.
    closings: Vec<u32>,
    /// The last one of these lemmas.
    last: u32,
}

impl Drop for Numbering {
    fn drop(self) {
        let Numbering {
            rows: _,
            entries: _,
            uses: _,
            given: _,
            closings: _,
            last: _,
        } = self;
    }
}

impl Numbering {
    /// The numbering before the first lemma.
    pub(crate) fn of(
        alloc: Global,
        rows: u64,
        entries: Vec<Vec<u32>>,
        uses: Vec<u32>,
        closings: Vec<u32>,
        last: u32,
    ) -> Result<Numbering, AllocError> {
        let given = vec![in alloc; 0; uses.len()]?;
        Ok(Numbering {
            rows,
            entries,
            uses,
            given,
            closings,
            last,
        })
    }

    /// The lemma for which a number of a log stands, as its own or as an import.
    fn lemma_at(&self, log: usize, number: u64) -> Option<Entry> {
        let place = number.checked_sub(self.rows)?.checked_sub(1)?;
        let entries = self.entries.get(log)?;
        entry_at(entries, place)
    }

    /// The lemma that a log writes under a number, if it is needed.
    pub(crate) fn needed(&self, log: usize, number: u64) -> Option<u32> {
        let Some(Entry::Lemma(lemma)) = self.lemma_at(log, number) else {
            return None;
        };
        match self.uses.get(lemma as usize) {
            Some(&user) if user > 0 => Some(lemma),
            _ => None,
        }
    }

    /// Tells whether the lemma is the last one to close a cube.
    pub(crate) fn is_last(&self, lemma: u32) -> bool {
        lemma == self.last
    }

    /// Answers the number, in the woven log, of the lemma that closes a cube; 0 if there is none.
    pub(crate) fn closing_number(&self, cube: usize) -> u64 {
        match closing_of(&self.closings, cube) {
            Some(lemma) => self.number_of(lemma),
            None => 0,
        }
    }

    /// The number of a lemma in the woven log.
    fn number_of(&self, lemma: u32) -> u64 {
        match self.given.get(lemma as usize) {
            Some(&given) => self.rows.saturating_add(u64::from(given)),
            None => 0,
        }
    }

    /// Notes that a lemma is written under a number.
    pub(crate) fn give(&mut self, lemma: u32, number: u64) {
        if let Some(given) = self.given.get_mut(lemma as usize) {
            *given = number.saturating_sub(self.rows).min(u64::from(u32::MAX)) as u32;
        }
    }

    /// Tells whether a lemma is needed by this one last, and not again.
    fn take_last_use(&mut self, lemma: u32, user: u32) -> bool {
        match self.uses.get_mut(lemma as usize) {
            Some(last) if *last == user.wrapping_add(1) => {
                *last = 0;
                true
            }
            _ => false,
        }
    }

    /// Overwrites `numbers` with the numbers, in the woven log, of the hints of a lemma of this log, and `dead` with those of lemmas that
    /// this one is the last to need.
    pub(crate) fn translate(
        &mut self,
        log: usize,
        lemma: u32,
        hints: &[u64],
        numbers: &mut Vec<u64>,
        dead: &mut Vec<u64>,
    ) -> Result<(), AllocError> {
        numbers.clear();
        dead.clear();
        for &hint in hints {
            match self.lemma_at(log, hint) {
                Some(Entry::Lemma(other)) | Some(Entry::Import(other)) => {
                    let number = self.number_of(other);
                    numbers.push(number)?;
                    if self.take_last_use(other, lemma) {
                        dead.push(number)?;
                    }
                }
                _ => numbers.push(hint)?,
            }
        }
        Ok(())
    }
}
