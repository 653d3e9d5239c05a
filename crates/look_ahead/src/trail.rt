//! The trail: the literals that are true, in the order in which they became true.

use std::alloc::{AllocError, Global};

/// The codes of the literals that are true, in the order in which they became true. Each variable stands there at most once, so there is
/// room for all; no proof rests on this.
pub(crate) struct Trail {
    /// The first `len` are the trail.
    codes: Vec<u32>,
    /// The number of literals that are true.
    len: usize,
    /// The number of literals that are propagated: `CountingPropagator::assign` was called for them.
    head: usize,
    /// By code, whether the literal is true.
    truths: Vec<bool>,
}

impl Drop for Trail {
    fn drop(self) {
        let Trail {
            codes: _,
            len: _,
            head: _,
            truths: _,
        } = self;
    }
}

impl Trail {
    /// An empty trail, for the variables from 1 to `vars`. Its tables have a row for 0 too.
    pub(crate) fn new(alloc: Global, vars: u32) -> Result<Trail, AllocError> {
        let rows = vars as usize + 1;
        Ok(Trail {
            codes: vec![in alloc; 0; rows]?,
            len: 0,
            head: 0,
            truths: vec![in alloc; false; 2 * rows]?,
        })
    }

    /// The number of literals that are true.
    pub(crate) fn len(&self) -> usize {
        self.len
    }

    /// The greatest number of literals that the trail can hold.
    pub(crate) fn rows(&self) -> usize {
        self.codes.len()
    }

    /// The number of literals that are propagated.
    pub(crate) fn head(&self) -> usize {
        self.head
    }

    /// Whether the literal of this code is true.
    pub(crate) fn is_true(&self, code: u32) -> bool {
        self.truths.get(code as usize) == Some(&true)
    }

    /// Whether neither the literal of this code nor its negation is true.
    pub(crate) fn is_free(&self, code: u32) -> bool {
        !self.is_true(code) && !self.is_true(code ^ 1)
    }

    /// The code at index i of the trail; 0 past its room. After `truncate` the old code stays there until another one is pushed.
    pub(crate) fn at(&self, i: usize) -> u32 {
        match self.codes.get(i) {
            Some(&code) => code,
            None => 0,
        }
    }

    /// Sets whether the literal of this code is true; nothing changes if the table has no such
    /// code.
    fn set(&mut self, code: u32, truth: bool) {
        if let Some(place) = self.truths.get_mut(code as usize) {
            *place = truth;
        }
    }

    /// Pushes the literal of this code, which becomes true; nothing changes if its variable is not free.
    pub(crate) fn push(&mut self, code: u32) {
        if !self.is_free(code) {
            return;
        }
        if let Some(place) = self.codes.get_mut(self.len) {
            *place = code;
            self.len = self.len.wrapping_add(1);
            self.set(code, true);
        }
    }

    /// Takes the next literal to propagate; None if all are propagated.
    pub(crate) fn next(&mut self) -> Option<u32> {
        if self.head >= self.len {
            return None;
        }
        let code = self.at(self.head);
        self.head += 1;
        Some(code)
    }

    /// Cuts the trail to the length `len`. The literals after that are no longer true.
    pub(crate) fn truncate(&mut self, len: usize) {
        for i in len..self.len {
            let code = self.at(i);
            self.set(code, false);
        }
        self.len = self.len.min(len);
        self.head = self.head.min(len);
    }
}
