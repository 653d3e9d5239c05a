//! Reads the steps of a proof behind the clauses of its formula, and finds the clause that each deletion names.

use crate::arena::{Arena, TAUTOLOGY};
use crate::clause_table::ClauseTable;
use crate::stamps::Stamps;
use dimacs::{Formula, Lit};
use std::alloc::{AllocError, Global};

/// Why a word was not taken.
#[derive(Clone, Copy)]
pub(crate) enum LoadFault {
    /// There are too many clauses or literals.
    TooLong,
    NoMemory,
}

impl From<AllocError> for LoadFault {
    fn from(_e: AllocError) -> LoadFault {
        LoadFault::NoMemory
    }
}

impl<T: Drop> From<std::alloc::AllocFailed<T>> for LoadFault {
    fn from(_e: std::alloc::AllocFailed<T>) -> LoadFault {
        LoadFault::NoMemory
    }
}

/// The clauses and steps of a proof that was loaded.
pub(crate) struct Loaded {
    pub(crate) arena: Arena,
    /// The number of clauses of the formula, which come first.
    pub(crate) formula: usize,
    /// Twice the place of the clause that a step adds, or one more for the clause that it deletes; 0 or 1 if it deletes none.
    pub(crate) steps: Vec<u32>,
    /// The pivot of each addition: its first literal, or 0.
    pub(crate) pivots: Vec<u32>,
    /// All variables are below this number.
    pub(crate) rows: u32,
    /// The number of deletions of clauses that were not there.
    pub(crate) unknown: u64,
}

impl Drop for Loaded {
    fn drop(self) {
        let Loaded {
            arena: _,
            formula: _,
            steps: _,
            pivots: _,
            rows: _,
            unknown: _,
        } = self;
    }
}

/// Takes the words of a proof.
pub(crate) struct StepLoader {
    alloc: Global,
    loaded: Loaded,
    table: ClauseTable,
    /// A set of literals.
    set: Stamps,
    /// The literals of the step that is begun.
    begun: Vec<u32>,
}

impl Drop for StepLoader {
    fn drop(self) {
        let StepLoader {
            alloc: _,
            loaded: _,
            table: _,
            set: _,
            begun: _,
        } = self;
    }
}

/// Keeps each literal once, in the order of their first places. Returns whether one of them is another one's negation.
fn make_set(literals: &mut Vec<u32>, set: &mut Stamps) -> bool {
    set.clear();
    let mut kept = 0;
    let mut is_tautology = false;
    for i in 0..literals.len() {
        let Some(&literal) = literals.get(i) else {
            break;
        };
        if !set.has(literal) {
            set.put(literal);
            is_tautology = is_tautology || set.has(literal ^ 1);
            if let Some(place) = literals.get_mut(kept) {
                *place = literal;
            }
            kept = kept.wrapping_add(1);
        }
    }
    literals.truncate(kept);
    is_tautology
}

impl StepLoader {
    /// A loader of a proof of the formula, of which no word has come.
    pub(crate) fn new(alloc: Global, formula: &Formula) -> Result<StepLoader, LoadFault> {
        let mut loader = StepLoader {
            alloc,
            loaded: Loaded {
                arena: Arena::new(alloc)?,
                formula: formula.len(),
                steps: Vec::new(alloc),
                pivots: Vec::new(alloc),
                rows: formula.vars() + 1,
                unknown: 0,
            },
            table: ClauseTable::new(alloc)?,
            set: Stamps::new(alloc, 2 * formula.vars() as usize + 2)?,
            begun: Vec::new(alloc),
        };
        for i in 0..formula.len() {
            loader.add_clause(formula.clause(i))?;
        }
        Ok(loader)
    }

    /// Stores the literals that are begun as a clause, and returns its place.
    fn store(&mut self) -> Result<u32, LoadFault> {
        let flags = if make_set(&mut self.begun, &mut self.set) {
            TAUTOLOGY
        } else {
            0
        };
        let clause = self.loaded.arena.push(&self.begun, flags)?;
        if clause == 0 {
            return Err(LoadFault::TooLong);
        }
        self.table.add(self.alloc, &mut self.loaded.arena, clause)?;
        self.begun.clear();
        Ok(clause)
    }

    /// Adds a clause of the formula.
    fn add_clause(&mut self, clause: &[Lit]) -> Result<(), LoadFault> {
        for literal in clause {
            self.begun.push(literal.index() as u32)?;
        }
        self.store()?;
        Ok(())
    }

    /// Ends an addition.
    fn add(&mut self) -> Result<(), LoadFault> {
        let pivot = match self.begun.first() {
            Some(&literal) => literal,
            None => 0,
        };
        let clause = self.store()?;
        self.loaded.pivots.push(pivot)?;
        self.loaded.steps.push(clause.wrapping_mul(2))?;
        Ok(())
    }

    /// Ends a deletion.
    fn delete(&mut self) -> Result<(), LoadFault> {
        make_set(&mut self.begun, &mut self.set);
        let clause = self.table.take(
            self.alloc,
            &mut self.loaded.arena,
            &self.begun,
            &mut self.set,
        )?;
        if clause == 0 {
            self.loaded.unknown = self.loaded.unknown.saturating_add(1);
        }
        self.begun.clear();
        self.loaded.steps.push(clause.wrapping_mul(2) | 1)?;
        Ok(())
    }

    /// Takes a literal.
    #[inline(always)]
    fn take_literal(&mut self, literal: u32) -> Result<(), LoadFault> {
        let variable = literal / 2;
        if variable >= self.loaded.rows {
            self.loaded.rows = variable.saturating_add(1);
            self.set.grow(2 * self.loaded.rows as usize)?;
        }
        self.begun.push(literal)?;
        Ok(())
    }

    /// Takes words of a proof.
    pub(crate) fn take(&mut self, words: &[u32]) -> Result<(), LoadFault> {
        for &word in words {
            match word {
                0 => self.add()?,
                1 => self.delete()?,
                _ => self.take_literal(word)?,
            }
        }
        Ok(())
    }

    /// The number of steps that are complete.
    pub(crate) fn steps(&self) -> usize {
        self.loaded.steps.len()
    }

    /// What was loaded; the table of clauses is given back.
    pub(crate) fn into_loaded(self) -> Loaded {
        let StepLoader {
            alloc: _,
            loaded,
            table: _,
            set: _,
            begun: _,
        } = self;
        loaded
    }
}
