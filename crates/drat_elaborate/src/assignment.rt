//! The literals that are true, with their reasons.

use std::alloc::{AllocError, Global};

/// What is known of a literal.
pub(crate) const FREE: u8 = 0;

pub(crate) const TRUE: u8 = 1;

pub(crate) const FALSE: u8 = 2;

/// The trail of true literals. Its first literals are those of the root: they follow from the clauses alone.
pub(crate) struct Assignment {
    /// By code of a literal, whether it is true, false or free.
    values: Vec<u8>,
    /// By variable, the clause that made its literal true; 0 if it was assumed.
    reasons: Vec<u32>,
    /// By variable, the index in the trail of its literal, if that is one of the root.
    indices: Vec<u32>,
    /// The first `len` are the trail.
    trail: Vec<u32>,
    len: usize,
    /// The number of literals of the root.
    root: usize,
}

impl Drop for Assignment {
    fn drop(self) {
        let Assignment {
            values: _,
            reasons: _,
            indices: _,
            trail: _,
            len: _,
            root: _,
        } = self;
    }
}

impl Assignment {
    /// An empty assignment of variables below `rows`.
    pub(crate) fn new(alloc: Global, rows: u32) -> Result<Assignment, AllocError> {
        let rows = rows as usize;
        Ok(Assignment {
            values: vec![in alloc; FREE; 2 * rows]?,
            reasons: vec![in alloc; 0; rows]?,
            indices: vec![in alloc; 0; rows]?,
            trail: vec![in alloc; 0; rows]?,
            len: 0,
            root: 0,
        })
    }

    /// The length of the trail.
    #[inline(always)]
    pub(crate) fn len(&self) -> usize {
        self.len
    }

    /// The number of literals of the root.
    #[inline(always)]
    pub(crate) fn root(&self) -> usize {
        self.root
    }

    /// The literal of index i of the trail; 0 if there is none.
    #[inline(always)]
    pub(crate) fn at(&self, i: usize) -> u32 {
        match self.trail.get(i) {
            Some(&literal) => literal,
            None => 0,
        }
    }

    /// Whether a literal is true, false or free.
    #[inline(always)]
    pub(crate) fn value(&self, literal: u32) -> u8 {
        match self.values.get(literal as usize) {
            Some(&value) => value,
            None => FREE,
        }
    }

    /// The clause that made the variable's literal true; 0 if it was assumed.
    #[inline(always)]
    pub(crate) fn reason(&self, variable: u32) -> u32 {
        match self.reasons.get(variable as usize) {
            Some(&clause) => clause,
            None => 0,
        }
    }

    #[inline(always)]
    fn set_value(&mut self, literal: u32, value: u8) {
        if let Some(place) = self.values.get_mut(literal as usize) {
            *place = value;
        }
    }

    /// Makes a free literal true. `reason` is the clause that implies it, or 0 if it is assumed.
    #[inline(always)]
    pub(crate) fn assign(&mut self, literal: u32, reason: u32) {
        self.set_value(literal, TRUE);
        self.set_value(literal ^ 1, FALSE);
        if let Some(place) = self.reasons.get_mut(literal as usize / 2) {
            *place = reason;
        }
        if let Some(place) = self.trail.get_mut(self.len) {
            *place = literal;
            self.len = self.len.wrapping_add(1);
        }
    }

    /// Cuts the trail to its first `len` literals; the others become free.
    pub(crate) fn cut(&mut self, len: usize) {
        for i in len..self.len {
            let literal = self.at(i);
            self.set_value(literal, FREE);
            self.set_value(literal ^ 1, FREE);
        }
        self.len = self.len.min(len);
        self.root = self.root.min(len);
    }

    /// Makes the whole trail the root.
    pub(crate) fn settle(&mut self) {
        for i in self.root..self.len {
            let variable = self.at(i) as usize / 2;
            if let Some(place) = self.indices.get_mut(variable)
                && i < 1 << 32
            {
                *place = i as u32;
            }
        }
        self.root = self.len;
    }

    /// Whether the literal of a variable is one of the root.
    #[inline(always)]
    pub(crate) fn is_root(&self, variable: u32) -> bool {
        let index = self.index(variable);
        index < self.root && self.at(index) / 2 == variable
    }

    /// The index of a variable's literal in the trail, if it is one of the root.
    #[inline(always)]
    fn index(&self, variable: u32) -> usize {
        match self.indices.get(variable as usize) {
            Some(&index) => index as usize,
            None => 0,
        }
    }

    /// How well a literal serves as a watch: best if it is not false, else the later it became false.
    pub(crate) fn rank(&self, literal: u32) -> usize {
        if self.value(literal) == FALSE {
            self.index(literal / 2)
        } else {
            usize::MAX
        }
    }
}
