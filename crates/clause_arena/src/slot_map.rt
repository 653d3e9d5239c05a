//! The map from clause numbers to slots: a table and a B-tree. Dense numbers, as those of a formula and its lemmas, are indices of the
//! table (`near`). The others are keys of the B-tree (`far`), so that one great number does not make a great table.

ghost use Rattle.std.specs.Prelude.{◌≡◌, ℕ, ◌+◌, ◌-◌, ◌*◌, ◌^◌, ◌≤◌, ◌<◌, max, [], ◌++◌, length, map, slice_index_or, OnOk, OnErr, None, IsSome};
ghost use Rattle.std.specs.FinMap.{get, insert, remove};
ghost use Rattle.std.specs.Ordering.{nat_cmp};
ghost use Rattle.std.specs.BTreeMap as tree;
ghost use Rattle.std.specs.BTreeMap.{IsOrdered};
ghost use Rattle.clause_arena.specs.inner.Slots.{slots_of, IsApart};
ghost use Rattle.clause_arena.specs.inner.Relocation.{ref_of, refs_of};

use crate::reference::Ref;
use crate::slot::Slot;
use crate::slot_table::SlotTable;
use std::alloc::{AllocError, Global};
use std::collections::BTreeMap;

/// The B-tree of slots, by clause number.
type Far = BTreeMap<u64, Slot>;

/// A table for the clause numbers below its length, and a B-tree for the others.
pub(crate) struct SlotMap {
    /// The slots of the clause numbers below the table's length.
    pub(crate) near: SlotTable,
    /// The slots of other clause numbers.
    pub(crate) far: Far,
}

impl Drop for SlotMap {
    fn drop(self) {
        let SlotMap { near: _, far: _ } = self;
    }
}

impl SlotMap {
    /// An empty map.
    pub(crate) fn new(alloc: Global) -> SlotMap
        ensures near { result.near ≡ [] }
        ensures far { result.far.entries ≡ [] }
    {
        SlotMap {
            near: SlotTable::new(alloc),
            far: BTreeMap::new(alloc),
        }
    }

    /// The slot of a clause number in the B-tree; None if it is no key.
    #[cold]
    fn find_far(&self, number: u64) -> Option<Slot>
        ensures { result ≡ tree.get nat_cmp self.now.far number }
    {
        match self.far.get(&number) {
            Some(slot) => Some(*slot),
            None => None,
        }
    }

    /// The slot of a clause number; None if there is none.
    #[inline(always)]
    pub(crate) fn find(&self, number: u64) -> Option<Slot>
        requires { IsApart self.now }
        ensures { result ≡ get (slots_of self.now) number }
    {
        let place = number as usize;
        if place < self.near.len() {
            self.near.get(place)
        } else {
            self.find_far(number)
        }
    }

    /// Inserts a slot under a clause number below the table's length. If memory is refused, the map is unchanged.
    fn put_near(&mut self, place: usize, slot: Slot) -> Result<(), AllocError>
        requires apart { IsApart self.old }
        requires here { place < length self.old.near }
        requires room { slot.place < 2 ^ 32 - 1 }
        ensures ok { OnOk result (slots_of self.new ≡ insert (slots_of self.old) place slot) }
        ensures err { OnErr result (slots_of self.new ≡ slots_of self.old) }
        ensures apart { IsApart self.new }
        ensures len { length self.new.near ≡ length self.old.near }
    {
        self.near.set(place, slot)
    }

    /// Replaces the slot of a clause number below the table's length, which has one.
    fn replace_near(&mut self, place: usize, slot: Slot)
        requires apart { IsApart self.old }
        requires here { place < length self.old.near }
        requires live { IsSome (slice_index_or self.old.near place None) }
        requires room { slot.place < 2 ^ 32 - 1 }
        ensures after { slots_of self.new ≡ insert (slots_of self.old) place slot }
        ensures apart { IsApart self.new }
        ensures len { length self.new.near ≡ length self.old.near }
    {
        self.near.replace(place, slot);
    }

    /// Removes the slot of a clause number below the table's length; nothing changes if there is none.
    fn free_near(&mut self, place: usize)
        requires apart { IsApart self.old }
        requires here { place < length self.old.near }
        ensures after { slots_of self.new ≡ remove (slots_of self.old) place }
        ensures apart { IsApart self.new }
        ensures len { length self.new.near ≡ length self.old.near }
    {
        self.near.free(place);
    }

    /// Inserts a slot under a clause number in the B-tree. If memory is refused, the map is unchanged.
    fn put_far(&mut self, number: u64, slot: Slot) -> Result<(), AllocError>
        requires apart { IsApart self.old }
        requires beyond { length self.old.near ≤ number }
        ensures ok { OnOk result (slots_of self.new ≡ insert (slots_of self.old) number slot) }
        ensures err { OnErr result (slots_of self.new ≡ slots_of self.old) }
        ensures apart { IsApart self.new }
        ensures near { self.new.near ≡ self.old.near }
    {
        self.far.insert(number, slot)?;
        Ok(())
    }

    /// Removes a clause number from the B-tree, with its slot; nothing changes if it is no key.
    fn take_far(&mut self, number: u64)
        requires apart { IsApart self.old }
        requires beyond { length self.old.near ≤ number }
        ensures after { slots_of self.new ≡ remove (slots_of self.old) number }
        ensures apart { IsApart self.new }
        ensures near { self.new.near ≡ self.old.near }
    {
        self.far.remove(&number);
    }

    /// Replaces the slot of a clause number that is a key of the B-tree.
    fn replace_far(&mut self, number: u64, slot: Slot)
        requires apart { IsApart self.old }
        requires beyond { length self.old.near ≤ number }
        requires live { IsSome (tree.get nat_cmp self.old.far number) }
        ensures after { slots_of self.new ≡ insert (slots_of self.old) number slot }
        ensures apart { IsApart self.new }
        ensures near { self.new.near ≡ self.old.near }
    {
        if let Some(old) = self.far.get_mut(&number) {
            *old = slot;
        }
    }

    /// Grows the table until it has this index, which is below all keys of the B-tree, so that no
    /// number is in both. New cells are free.
    fn make_place(&mut self, place: usize) -> Result<(), AllocError>
        requires apart { IsApart self.old }
        requires below { (q : ℕ) → IsSome (tree.get nat_cmp self.old.far q) → place < q }
        ensures same { slots_of self.new ≡ slots_of self.old }
        ensures apart { IsApart self.new }
        ensures here { OnOk result (place < length self.new.near) }
        ensures few { length self.new.near ≤ max (length self.old.near) (place + 1) }
    {
        while self.near.len() <= place {
            self.near.push_free_cell()?;
        }
        Ok(())
    }

    /// Grows the table to hold a clause number, if the number is dense and below all keys of the B-tree. A number is dense below 4 *
    /// (`taken` + 8192); `taken` counts the clauses that were ever inserted. So the table has at most four cells for each such clause, and
    /// 32,768 more.
    pub(crate) fn reserve_place(&mut self, taken: u64, number: u64) -> Result<(), AllocError>
        requires { IsApart self.old }
        ensures same { slots_of self.new ≡ slots_of self.old }
        ensures apart { IsApart self.new }
        ensures few { length self.new.near ≤ max (length self.old.near) (4 * (taken + 8192)) }
    {
        if number >= taken.saturating_add(8192).saturating_mul(4) {
            return Ok(());
        }
        match self.far.first_key_value() {
            None => self.make_place(number as usize),
            Some((first, _)) => {
                if number < *first {
                    self.make_place(number as usize)
                } else {
                    Ok(())
                }
            }
        }
    }

    /// Inserts a slot under a clause number. If memory is refused, the map is unchanged.
    pub(crate) fn put(&mut self, number: u64, slot: Slot) -> Result<(), AllocError>
        requires apart { IsApart self.old }
        requires room { slot.place < 2 ^ 32 - 1 }
        ensures ok { OnOk result (slots_of self.new ≡ insert (slots_of self.old) number slot) }
        ensures err { OnErr result (slots_of self.new ≡ slots_of self.old) }
        ensures apart { IsApart self.new }
        ensures len { length self.new.near ≡ length self.old.near }
    {
        let place = number as usize;
        if place < self.near.len() {
            self.put_near(place, slot)
        } else {
            self.put_far(number, slot)
        }
    }

    /// Removes the slot of a clause number; nothing changes if there is none.
    pub(crate) fn take(&mut self, number: u64)
        requires { IsApart self.old }
        ensures after { slots_of self.new ≡ remove (slots_of self.old) number }
        ensures apart { IsApart self.new }
        ensures len { length self.new.near ≡ length self.old.near }
    {
        let place = number as usize;
        if place < self.near.len() {
            self.free_near(place);
        } else {
            self.take_far(number);
        }
    }

    /// Replaces the slot of a clause number that has one, after a compaction moved the clause.
    pub(crate) fn replace(&mut self, number: u64, slot: Slot)
        requires apart { IsApart self.old }
        requires live { IsSome (get (slots_of self.old) number) }
        requires room { slot.place < 2 ^ 32 - 1 }
        ensures after { slots_of self.new ≡ insert (slots_of self.old) number slot }
        ensures apart { IsApart self.new }
        ensures len { length self.new.near ≡ length self.old.near }
    {
        let place = number as usize;
        if place < self.near.len() {
            self.replace_near(place, slot);
        } else {
            self.replace_far(number, slot);
        }
    }

    /// Appends a reference to each clause of the B-tree, in the order of clause numbers.
    fn list_far(&self, refs: &mut Vec<Ref>) -> Result<(), AllocError>
        ensures ok { OnOk result (refs.new.items ≡ refs.old.items ++ map ref_of self.now.far.entries) }
        ensures ordered { IsOrdered nat_cmp self.now.far }
    {
        for (number, slot) in self.far.iter() {
            refs.push(Ref {
                number: *number,
                place: slot.place,
                len: slot.len,
            })?;
        }
        Ok(())
    }

    /// Appends a reference to each clause of the table and of the B-tree, in the order of clause numbers.
    pub(crate) fn list(&mut self, refs: &mut Vec<Ref>) -> Result<(), AllocError>
        requires { IsApart self.old }
        ensures same { self.new ≡ self.old }
        ensures listed { OnOk result (refs.new.items ≡ refs.old.items ++ refs_of (slots_of self.old)) }
    {
        self.near.list(refs)?;
        self.list_far(refs)
    }
}
