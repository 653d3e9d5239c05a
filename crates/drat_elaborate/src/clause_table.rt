//! The live clauses by their literals, to find the one that a deletion names.

use crate::arena::Arena;
use crate::stamps::Stamps;
use std::alloc::{AllocError, Global};

/// The number of chains at first.
const CHAINS: usize = 1 << 12;

/// A table of clauses. The chain of a clause depends on the set of its literals alone; the index of each clause in the arena is the next
/// clause of its chain.
pub(crate) struct ClauseTable {
    /// By chain, its first clause; 0 if it has none. Their number is a power of two.
    chains: Vec<u32>,
    /// The number of clauses.
    len: usize,
    /// What the hash is mixed with. It changes if chains have become too long, as somebody may want who knows the hash.
    seed: u64,
    /// The number of literals that may be compared until then.
    patience: u64,
}

impl Drop for ClauseTable {
    fn drop(self) {
        let ClauseTable {
            chains: _,
            len: _,
            seed: _,
            patience: _,
        } = self;
    }
}

/// A bijection of 64-bit words whose bits all depend on all.
#[inline(always)]
fn mixed(word: u64) -> u64 {
    let word = (word ^ (word >> 30)).wrapping_mul(0xBF58_476D_1CE4_E5B9);
    let word = (word ^ (word >> 27)).wrapping_mul(0x94D0_49BB_1331_11EB);
    word ^ (word >> 31)
}

/// A hash of a set of literals.
fn hash(seed: u64, literals: &[u32]) -> u64 {
    let mut sum: u64 = 0;
    let mut parity: u64 = 0;
    for &literal in literals {
        let word = mixed(u64::from(literal).wrapping_add(seed));
        sum = sum.wrapping_add(word);
        parity ^= word.wrapping_mul(word | 1);
    }
    mixed(sum ^ parity.wrapping_mul(seed | 1))
}

impl ClauseTable {
    /// An empty table.
    pub(crate) fn new(alloc: Global) -> Result<ClauseTable, AllocError> {
        Ok(ClauseTable {
            chains: vec![in alloc; 0; CHAINS]?,
            len: 0,
            seed: 0x9E37_79B9_7F4A_7C15,
            patience: 1 << 20,
        })
    }

    /// The index of the chain of these literals.
    fn chain_of(&self, literals: &[u32]) -> usize {
        let mask = (self.chains.len() as u64).wrapping_sub(1);
        (hash(self.seed, literals) & mask) as usize
    }

    /// The first clause of a chain.
    fn first(&self, chain: usize) -> u32 {
        match self.chains.get(chain) {
            Some(&clause) => clause,
            None => 0,
        }
    }

    /// Makes a clause the first one of a chain.
    fn set_first(&mut self, chain: usize, clause: u32) {
        if let Some(first) = self.chains.get_mut(chain) {
            *first = clause;
        }
    }

    /// Puts a clause into its chain.
    fn link(&mut self, arena: &mut Arena, clause: u32) {
        let chain = self.chain_of(arena.literals(clause));
        arena.set_index(clause, self.first(chain));
        self.set_first(chain, clause);
    }

    /// Links the clauses of old chains anew.
    fn link_all(&mut self, arena: &mut Arena, old: &[u32]) {
        for &first in old {
            let mut clause = first;
            // A chain has no more clauses than the arena.
            for _ in 0..arena.clauses() {
                if clause == 0 {
                    break;
                }
                let next = arena.index(clause);
                self.link(arena, clause);
                clause = next;
            }
        }
    }

    /// Makes this many chains, and puts each clause into its own.
    fn rebuild(
        &mut self,
        alloc: Global,
        arena: &mut Arena,
        chains: usize,
    ) -> Result<(), AllocError> {
        let fresh = vec![in alloc; 0; chains]?;
        let old = std::mem::replace(&mut self.chains, fresh);
        self.link_all(arena, &old);
        Ok(())
    }

    /// Adds a clause.
    pub(crate) fn add(
        &mut self,
        alloc: Global,
        arena: &mut Arena,
        clause: u32,
    ) -> Result<(), AllocError> {
        if self.len >= self.chains.len() {
            let chains = self.chains.len().saturating_mul(2);
            self.rebuild(alloc, arena, chains)?;
        }
        self.link(arena, clause);
        self.len = self.len.wrapping_add(1);
        self.patience = self.patience.saturating_add(64);
        Ok(())
    }

    /// Whether a clause has exactly the literals of a set, of which there are `len`.
    fn is_set(&mut self, arena: &Arena, clause: u32, set: &Stamps, len: usize) -> bool {
        self.patience = self.patience.saturating_sub(1);
        if arena.len(clause) != len {
            return false;
        }
        for &literal in arena.literals(clause) {
            self.patience = self.patience.saturating_sub(1);
            if !set.has(literal) {
                return false;
            }
        }
        true
    }

    /// Takes a clause with these literals out, each of which stands there once, and returns its place; 0 if there is none. `set` is
    /// overwritten.
    fn take_out(&mut self, arena: &mut Arena, literals: &[u32], set: &mut Stamps) -> u32 {
        set.clear();
        for &literal in literals {
            set.put(literal);
        }
        let chain = self.chain_of(literals);
        let mut before = 0;
        let mut clause = self.first(chain);
        for _ in 0..arena.clauses() {
            if clause == 0 {
                return 0;
            }
            let next = arena.index(clause);
            if self.is_set(arena, clause, set, literals.len()) {
                if before == 0 {
                    self.set_first(chain, next);
                } else {
                    arena.set_index(before, next);
                }
                self.len = self.len.wrapping_sub(1);
                return clause;
            }
            before = clause;
            clause = next;
        }
        0
    }

    /// Takes a clause with these literals out, as `take_out`. If clauses were compared too often, the chains are mixed anew, so that
    /// clauses which are chosen to share a chain share it no more.
    pub(crate) fn take(
        &mut self,
        alloc: Global,
        arena: &mut Arena,
        literals: &[u32],
        set: &mut Stamps,
    ) -> Result<u32, AllocError> {
        self.patience = self
            .patience
            .saturating_add(64)
            .saturating_add(literals.len() as u64);
        let found = self.take_out(arena, literals, set);
        if self.patience == 0 {
            self.seed = mixed(self.seed.wrapping_add(self.len as u64));
            self.patience = (self.len as u64).saturating_mul(64).saturating_add(1 << 20);
            let chains = self.chains.len();
            self.rebuild(alloc, arena, chains)?;
        }
        Ok(found)
    }
}
