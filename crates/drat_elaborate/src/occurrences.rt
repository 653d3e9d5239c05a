//! The needed clauses of each literal: the candidates of a RAT lemma are among them.

use crate::arena::{Arena, NEEDED, TAUTOLOGY};
use std::alloc::{AllocError, Global};

/// By literal, the needed clauses that have it.
pub(crate) struct Occurrences {
    lists: Vec<Vec<u32>>,
}

impl Drop for Occurrences {
    fn drop(self) {
        let Occurrences { lists: _ } = self;
    }
}

impl Occurrences {
    /// The needed clauses with places below `limit`.
    pub(crate) fn of(
        alloc: Global,
        arena: &Arena,
        codes: usize,
        limit: u32,
    ) -> Result<Occurrences, AllocError> {
        let mut lists = Vec::with_capacity(alloc, codes)?;
        for _ in 0..codes {
            lists.push(Vec::new(alloc))?;
        }
        let mut occurrences = Occurrences { lists };
        for i in 0..arena.clauses() {
            let clause = arena.place(i);
            if clause < limit && arena.has(clause, NEEDED) && !arena.has(clause, TAUTOLOGY) {
                occurrences.add(arena, clause)?;
            }
        }
        Ok(occurrences)
    }

    /// Adds a clause.
    pub(crate) fn add(&mut self, arena: &Arena, clause: u32) -> Result<(), AllocError> {
        for &literal in arena.literals(clause) {
            if let Some(list) = self.lists.get_mut(literal as usize) {
                list.push(clause)?;
            }
        }
        Ok(())
    }

    /// The clause of index i that has the literal and a place below `limit`; 0 if there is none. Others are taken out for ever, since the
    /// limit never rises.
    pub(crate) fn at(&mut self, literal: u32, i: usize, limit: u32) -> u32 {
        let Some(list) = self.lists.get_mut(literal as usize) else {
            return 0;
        };
        for _ in i..list.len() {
            match list.get(i) {
                Some(&clause) if clause < limit => return clause,
                Some(_) if i < list.len() => {
                    list.swap_remove(i);
                }
                _ => return 0,
            }
        }
        0
    }
}
