//! Sets of numbers that are emptied at once.

use std::alloc::{AllocError, Global};

/// A set of small numbers: a number is in it if it has the present stamp.
pub(crate) struct Stamps {
    stamps: Vec<u32>,
    /// The present stamp, from 1.
    present: u32,
}

impl Drop for Stamps {
    fn drop(self) {
        let Stamps {
            stamps: _,
            present: _,
        } = self;
    }
}

impl Stamps {
    /// An empty set of numbers below `rows`.
    pub(crate) fn new(alloc: Global, rows: usize) -> Result<Stamps, AllocError> {
        Ok(Stamps {
            stamps: vec![in alloc; 0; rows]?,
            present: 1,
        })
    }

    /// Makes room for numbers below `rows`.
    pub(crate) fn grow(&mut self, rows: usize) -> Result<(), AllocError> {
        if rows > self.stamps.len() {
            self.stamps.resize(rows, 0)?;
        }
        Ok(())
    }

    /// Empties the set. Only after 2^32 calls a number may be in it that was not put there since.
    #[inline(always)]
    pub(crate) fn clear(&mut self) {
        self.present = self.present.wrapping_add(1);
    }

    /// Whether a number is in the set.
    #[inline(always)]
    pub(crate) fn has(&self, number: u32) -> bool {
        self.stamps.get(number as usize) == Some(&self.present)
    }

    /// Puts a number into the set.
    #[inline(always)]
    pub(crate) fn put(&mut self, number: u32) {
        if let Some(stamp) = self.stamps.get_mut(number as usize) {
            *stamp = self.present;
        }
    }
}
