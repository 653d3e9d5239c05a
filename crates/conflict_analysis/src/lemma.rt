//! A lemma with its hints.

ghost use Rattle.std.specs.Prelude.{◌≡◌, max, [], ◌∷◌, ◌++◌, reverse, OnOk};
ghost use Rattle.dimacs.specs.logic.Literal.{negation};

use dimacs::Lit;
use std::alloc::{AllocError, Global};
use watches::Assigned;

/// A lemma with its hints.
#[derive(Drop)]
pub struct Lemma {
    /// The literals, none of them twice.
    pub lits: Vec<Lit>,
    /// The numbers of the clauses by which the lemma follows by reverse unit propagation, in their order.
    pub hints: Vec<u64>,
    /// The level to which the search backjumps.
    pub level: u32,
}

impl Lemma {
    /// An empty lemma without hints, with backjump level 0.
    pub fn new(alloc: Global) -> Lemma
        ensures lits { result.lits.items ≡ [] }
        ensures hints { result.hints.items ≡ [] }
        ensures level { result.level ≡ 0 }
    {
        Lemma {
            lits: Vec::new(alloc),
            hints: Vec::new(alloc),
            level: 0,
        }
    }

    /// Removes all literals and hints, sets the backjump level to 0, and keeps the memory.
    pub(crate) fn clear(&mut self)
        ensures lits { self.new.lits.items ≡ [] }
        ensures hints { self.new.hints.items ≡ [] }
        ensures level { self.new.level ≡ 0 }
    {
        self.lits.clear();
        self.hints.clear();
        self.level = 0;
    }

    /// Appends the negation of an entry's literal. If the entry is below the present level and above the backjump level, the backjump level
    /// is raised to the entry's.
    pub(crate) fn keep(&mut self, entry: &Assigned, present: u32) -> Result<(), AllocError>
        ensures lits { OnOk result (self.new.lits.items ≡ self.old.lits.items ++ negation entry.now.literal ∷ []) }
        ensures hints { self.new.hints.items ≡ self.old.hints.items }
        ensures same { OnOk result (entry.now.level ≡ present → self.new.level ≡ self.old.level) }
        ensures lower { OnOk result ((entry.now.level ≡ present → ⊥) → self.new.level ≡ max self.old.level entry.now.level) }
    {
        self.lits.push(entry.literal.negate())?;
        if entry.level != present {
            self.level = self.level.max(entry.level);
        }
        Ok(())
    }

    /// Ends a lemma: reverses the hints, which were pushed in reverse trail order, and appends the number of the false clause.
    pub(crate) fn conclude(&mut self, number: u64) -> Result<(), AllocError>
        ensures lits { self.new.lits.items ≡ self.old.lits.items }
        ensures hints { OnOk result (self.new.hints.items ≡ reverse self.old.hints.items ++ number ∷ []) }
        ensures level { self.new.level ≡ self.old.level }
    {
        self.hints.reverse();
        self.hints.push(number)?;
        Ok(())
    }
}
