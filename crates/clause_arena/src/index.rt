//! The index of an arena: from the number of each live clause to its slot.

ghost use Rattle.std.specs.Prelude.{◌≡◌, ℕ, ◌-◌, ◌^◌, ◌<◌, ◌++◌, length, slice_index_or, IsSome, OnOk, OnErr};
ghost use Rattle.std.specs.FinMap.{get, insert, remove, empty};
ghost use Rattle.clause_arena.specs.declared.reference.Ref.{Ref};
ghost use Rattle.clause_arena.specs.inner.Relocation.{refs_of, moved_by};

use crate::reference::Ref;
use crate::slot::Slot;
use crate::slot_map::SlotMap;
use std::alloc::{AllocError, Global};
use std::marker::Model;

/// A map from the number of each live clause to its slot.
pub(crate) struct Index {
    tables: SlotMap,
    /// The number of clauses that were ever inserted. It bounds the length of the dense table, so that one great number does not make a
    /// great table.
    taken: u64,
}

impl Drop for Index {
    fn drop(self) {
        let Index {
            tables: _,
            taken: _,
        } = self;
    }
}

impl Model for Index {
    ghost use Rattle.std.specs.Prelude.{◌+◌, ◌*◌, ◌≤◌, length};
    ghost use Rattle.clause_arena.specs.Slots.{Slots};
    ghost use Rattle.clause_arena.specs.inner.Slots.{slots_code, slots_of, IsApart};

    ghost Value = { Slots };

    ghost coded = { slots_code };

    ghost view = { λ i. slots_of i.tables };

    ghost invariant = { λ i. IsApart i.tables × (length i.tables.near ≤ 4 * (i.taken + 8192)) };
}

impl Index {
    /// An empty index.
    pub(crate) fn new(alloc: Global) -> Index
        ensures { result ≡ empty }
    {
        Index {
            tables: SlotMap::new(alloc),
            taken: 0,
        }
    }

    /// The slot of the live clause of this number; None if there is none.
    #[inline(always)]
    pub(crate) fn get(&self, number: u64) -> Option<Slot>
        ensures { result ≡ get self.now number }
    {
        self.tables.find(number)
    }

    /// Inserts a slot under a clause number. If memory is refused, the map is unchanged.
    pub(crate) fn insert(&mut self, number: u64, slot: Slot) -> Result<(), AllocError>
        requires { slot.place < 2 ^ 32 - 1 }
        ensures ok { OnOk result (self.new ≡ insert self.old number slot) }
        ensures err { OnErr result (self.new ≡ self.old) }
    {
        self.taken = self.taken.saturating_add(1);
        self.tables.reserve_place(self.taken, number)?;
        self.tables.put(number, slot)
    }

    /// Removes the slot of a clause number; nothing changes if there is none.
    pub(crate) fn remove(&mut self, number: u64)
        ensures { self.new ≡ remove self.old number }
    {
        self.tables.take(number);
    }

    /// Replaces the slot of a clause number that has one. It takes no memory.
    pub(crate) fn replace(&mut self, number: u64, slot: Slot)
        requires live { IsSome (get self.old number) }
        requires room { slot.place < 2 ^ 32 - 1 }
        ensures { self.new ≡ insert self.old number slot }
    {
        self.tables.replace(number, slot);
    }

    /// Gives each clause that a compaction moved the slot of its new reference.
    pub(crate) fn move_all(&mut self, moves: &[(Ref, Ref)])
        requires live { (i : ℕ) (d : Ref × Ref) → i < length moves.now → IsSome (get self.old (slice_index_or moves.now i d).1.number) }
        requires room { (i : ℕ) (d : Ref × Ref) → i < length moves.now → (slice_index_or moves.now i d).1.place < 2 ^ 32 - 1 }
        ensures { self.new ≡ moved_by self.old moves.now }
    {
        for (_, to) in moves {
            self.replace(
                to.number,
                Slot {
                    place: to.place,
                    len: to.len,
                },
            );
        }
    }

    /// Appends a reference to each live clause, in the order of clause numbers.
    pub(crate) fn list(&mut self, refs: &mut Vec<Ref>) -> Result<(), AllocError>
        ensures same { self.new ≡ self.old }
        ensures listed { OnOk result (refs.new.items ≡ refs.old.items ++ refs_of self.old) }
    {
        self.tables.list(refs)
    }
}
