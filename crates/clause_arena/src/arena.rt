//! The clause arena: a map from clause numbers to clauses.

ghost use Rattle.std.specs.Prelude.{◌≡◌, ℕ, ◌<◌, ◌++◌, List, length, swap, IfOk, OnOk, OnErr, IfSome, IfNone, None};
ghost use Rattle.std.specs.List.{IsDistinct};
ghost use Rattle.std.specs.FinMap.{get, insert, remove, empty};
ghost use Rattle.dimacs.specs.logic.Literal.{Clause, same};
ghost use Rattle.clause_arena.specs.declared.reference.Ref.{Ref};
ghost use Rattle.clause_arena.specs.Clauses.{Clauses, RefersTo, IsLive};
ghost use Rattle.clause_arena.specs.Compaction.{IsCompacted};

use crate::compaction::relocate_all;
use crate::index::Index;
use crate::literals::{exchange, literals_at};
use crate::reference::Ref;
use crate::slot::Slot;
use dimacs::Lit;
use std::alloc::{AllocError, Global};
use std::marker::Model;

/// A map from clause numbers to clauses. Only `add` and `compact` allocate.
pub struct Arena {
    /// The literals of all clauses, one clause after the other, with gaps where clauses were removed.
    literals: Vec<Lit>,
    /// The slot of each live clause, by its number.
    index: Index,
}

impl Drop for Arena {
    fn drop(self) {
        let Arena {
            literals: _,
            index: _,
        } = self;
    }
}

impl Model for Arena {
    ghost use Rattle.clause_arena.specs.Clauses.{Clauses};
    ghost use Rattle.clause_arena.specs.inner.Clauses.{clauses_code};
    ghost use Rattle.clause_arena.specs.Contents.{contents};
    ghost use Rattle.clause_arena.specs.inner.Contents.{IsArena};

    ghost Value = { Clauses };

    ghost coded = { clauses_code };

    ghost view = { λ a. contents a.literals.items a.index };

    ghost invariant = { λ a. IsArena a.literals.items a.index };
}

impl Arena {
    /// An arena without clauses.
    pub fn new(alloc: Global) -> Arena
        ensures { result ≡ empty }
    {
        Arena {
            literals: Vec::new(alloc),
            index: Index::new(alloc),
        }
    }

    /// Adds a clause under a number that is not live, and returns the reference to it. If memory is refused, the arena is unchanged.
    pub fn add(&mut self, number: u64, literals: &[Lit]) -> Result<Ref, AllocError>
        requires distinct { IsDistinct same literals.now }
        requires fresh { get self.old number ≡ None }
        ensures ok { IfOk result (λ at. (at.number ≡ number) × (at.len ≡ length literals.now) × (self.new ≡ insert self.old number (at.place, literals.now))) }
        ensures err { OnErr result (self.new ≡ self.old) }
    {
        let place = self.literals.len();
        let Some(slot) = Slot::of(place, literals.len()) else {
            return Err(AllocError);
        };
        self.literals.extend_from_slice(literals)?;
        match self.index.insert(number, slot) {
            Ok(()) => Ok(Ref {
                number,
                place: slot.place,
                len: slot.len,
            }),
            Err(error) => {
                self.literals.truncate(place);
                Err(error)
            }
        }
    }

    /// The literals of the live clause to which `at` refers.
    #[inline(always)]
    pub fn clause(&self, at: Ref) -> &[Lit]
        requires live { IsLive self.now at }
        ensures literals { (C : Clause) → RefersTo self.now at C → result.now ≡ C }
        ensures len { length result.now ≡ at.len }
        ensures distinct { IsDistinct same result.now }
    {
        literals_at(&self.literals, at)
    }

    /// The reference to the live clause of this number; None if there is none.
    #[inline(always)]
    pub fn find(&self, number: u64) -> Option<Ref>
        ensures some { IfSome result (λ at. (at.number ≡ number) × IsLive self.now at) }
        ensures none { IfNone result (get self.now number ≡ None) }
    {
        match self.index.get(number) {
            Some(slot) => Some(Ref {
                number,
                place: slot.place,
                len: slot.len,
            }),
            None => None,
        }
    }

    /// Exchanges the literals at the indices i and j of a live clause.
    #[inline(always)]
    pub fn swap(&mut self, at: Ref, i: usize, j: usize)
        requires live { IsLive self.old at }
        requires i_in { i < at.len }
        requires j_in { j < at.len }
        ensures { (C : Clause) → RefersTo self.old at C → self.new ≡ insert self.old at.number (at.place, swap C i j) }
    {
        exchange(&mut self.literals, at, i, j);
    }

    /// Removes a live clause. Its literals stay in the vector, as a gap, until the next `compact`.
    pub fn remove(&mut self, at: Ref)
        requires { IsLive self.old at }
        ensures { self.new ≡ remove self.old at.number }
    {
        self.index.remove(at.number);
    }

    /// Closes the gaps: copies the literals of the live clauses into a fresh vector. Appends to `moved`, for each clause that moved, its
    /// old and its new reference, in the order of clause numbers. If memory is refused, the arena and `moved` are unchanged.
    pub fn compact(&mut self, moved: &mut Vec<(Ref, Ref)>) -> Result<(), AllocError>
        ensures ok { OnOk result ((moves : List (Ref × Ref)) × (moved.new.items ≡ moved.old.items ++ moves) × IsCompacted self.old self.new moves) }
        ensures err { OnErr result (self.new ≡ self.old) }
        ensures untold { OnErr result (moved.new.items ≡ moved.old.items) }
    {
        let alloc = *self.literals.allocator();
        let mut refs = Vec::new(alloc);
        self.index.list(&mut refs)?;
        let before = moved.len();
        match relocate_all(alloc, &self.literals, &refs, moved) {
            Ok(fresh) => {
                self.index.move_all(&moved[before..]);
                self.literals = fresh;
                Ok(())
            }
            Err(error) => {
                moved.truncate(before);
                Err(error)
            }
        }
    }
}
