//! The clauses of a formula and a proof, in one vector of words.

use std::alloc::{AllocError, Global};

/// The number of words before a clause's literals: its length with its flags, its number, and an index that its user chooses.
const HEAD: usize = 3;

/// Flags of a clause.
pub(crate) const NEEDED: u32 = 1 << 31;

pub(crate) const DELETED: u32 = 1 << 30;

pub(crate) const TAUTOLOGY: u32 = 1 << 29;

/// The bits of a clause's length.
const LEN: u32 = (1 << 29) - 1;

/// The limit of words: a watch and a step have a bit beside the place of a clause.
const MOST_WORDS: usize = (1 << 31) - 1;

/// The limit of clauses: a hint has three bits beside the number of a clause.
const MOST_CLAUSES: usize = (1 << 29) - 1;

/// Clauses, each of which is named by its place: the index of its first word. No clause has the place 0.
pub(crate) struct Arena {
    words: Vec<u32>,
    /// By clause number, from 0, its place.
    places: Vec<u32>,
}

impl Drop for Arena {
    fn drop(self) {
        let Arena {
            words: _,
            places: _,
        } = self;
    }
}

impl Arena {
    /// An arena without clauses.
    pub(crate) fn new(alloc: Global) -> Result<Arena, AllocError> {
        Ok(Arena {
            words: vec![in alloc; 0; HEAD + 1]?,
            places: Vec::new(alloc),
        })
    }

    #[inline(always)]
    fn word(&self, i: usize) -> u32 {
        match self.words.get(i) {
            Some(&word) => word,
            None => 0,
        }
    }

    #[inline(always)]
    fn set(&mut self, i: usize, word: u32) {
        if let Some(place) = self.words.get_mut(i) {
            *place = word;
        }
    }

    /// Whether a clause has one of these flags.
    #[inline(always)]
    pub(crate) fn has(&self, clause: u32, flags: u32) -> bool {
        self.word(clause as usize) & flags != 0
    }

    /// Gives a clause this flag.
    pub(crate) fn raise(&mut self, clause: u32, flag: u32) {
        let word = self.word(clause as usize) | flag;
        self.set(clause as usize, word);
    }

    /// Takes this flag from a clause.
    pub(crate) fn lower(&mut self, clause: u32, flag: u32) {
        let word = self.word(clause as usize) & !flag;
        self.set(clause as usize, word);
    }

    /// The number of literals of a clause.
    #[inline(always)]
    pub(crate) fn len(&self, clause: u32) -> usize {
        (self.word(clause as usize) & LEN) as usize
    }

    /// The number of a clause, from 0.
    #[inline(always)]
    pub(crate) fn number(&self, clause: u32) -> u32 {
        self.word(clause as usize + 1)
    }

    /// The index that the user of the clauses chose.
    #[inline(always)]
    pub(crate) fn index(&self, clause: u32) -> u32 {
        self.word(clause as usize + 2)
    }

    /// Chooses the index of a clause.
    #[inline(always)]
    pub(crate) fn set_index(&mut self, clause: u32, index: u32) {
        self.set(clause as usize + 2, index);
    }

    /// The codes of a clause's literals.
    #[inline(always)]
    pub(crate) fn literals(&self, clause: u32) -> &[u32] {
        let from = clause as usize + HEAD;
        let to = from.wrapping_add(self.len(clause));
        self.words.get(from..to).unwrap_or(&[])
    }

    /// The literal of index i of a clause.
    #[inline(always)]
    pub(crate) fn literal(&self, clause: u32, i: usize) -> u32 {
        self.word((clause as usize + HEAD).wrapping_add(i))
    }

    /// Puts a literal at index i of a clause.
    #[inline(always)]
    pub(crate) fn set_literal(&mut self, clause: u32, i: usize, literal: u32) {
        self.set((clause as usize + HEAD).wrapping_add(i), literal);
    }

    /// Exchanges the literals of two indices of a clause.
    pub(crate) fn swap(&mut self, clause: u32, i: usize, j: usize) {
        let (first, second) = (self.literal(clause, i), self.literal(clause, j));
        self.set_literal(clause, i, second);
        self.set_literal(clause, j, first);
    }

    /// Appends a clause with the next number, and returns its place; 0 if there are too many.
    pub(crate) fn push(&mut self, literals: &[u32], flags: u32) -> Result<u32, AllocError> {
        let place = self.words.len();
        let (len, number) = (literals.len(), self.places.len());
        if place >= MOST_WORDS || len >= LEN as usize || number >= MOST_CLAUSES {
            return Ok(0);
        }
        self.words.push(len as u32 | flags)?;
        self.words.push(number as u32)?;
        self.words.push(0)?;
        self.words.extend_from_slice(literals)?;
        self.places.push(place as u32)?;
        Ok(place as u32)
    }

    /// The number of clauses.
    pub(crate) fn clauses(&self) -> usize {
        self.places.len()
    }

    /// The place of the clause of this number, from 0; 0 if there is none.
    pub(crate) fn place(&self, number: usize) -> u32 {
        match self.places.get(number) {
            Some(&place) => place,
            None => 0,
        }
    }
}
