//! Tables of slots by clause number. Numbers that follow each other closely, as those of the formula and of most proofs do, are indices of
//! the near table, which is made of blocks. A number that is far above them is found by an ordered map, the far table, so it takes no more
//! memory than any other.

ghost use Rattle.std.specs.Prelude.{◌≡◌, ℕ, ◌+◌, ◌≤◌, ◌<◌, ◌-◌, ◌++◌, ◌∷◌, ◌^◌, length, OnOk, OnErr, IfOk, IfSome, option_map, Some, cond, slice_index_or, [], vec_len};
ghost use Rattle.std.specs.FinMap.{get, insert, remove, len};
ghost use Rattle.std.specs.Ordering.{nat_cmp};
ghost use Rattle.std.specs.BTreeMap.{is_at};
ghost use Rattle.lrat_check.specs.inner.Store.{tables_of, live_of, clause_at, place_of, IsPlaced, IsStore};

use crate::blocks::Blocks;
use crate::slot::{Cell, Slot};
use dimacs::Lit;
use std::alloc::{AllocError, Global};
use std::collections::BTreeMap;

/// The far table: the slots of the numbers that are far above the others.
#[derive(Drop)]
pub(crate) struct Far {
    /// The index in `slots` of each number that has a slot.
    pub(crate) places: BTreeMap<u64, usize>,
    /// The number of each cell of `slots`.
    pub(crate) numbers: Vec<u64>,
    /// The cells; one is free if its clause was deleted.
    pub(crate) slots: Vec<Cell>,
}

impl Far {
    /// A far table without numbers.
    pub(crate) fn new(alloc: Global) -> Far
        ensures places { result.places.entries ≡ [] }
        ensures numbers { result.numbers.items ≡ [] }
        ensures slots { result.slots.items ≡ [] }
    {
        Far {
            places: BTreeMap::new(alloc),
            numbers: Vec::new(alloc),
            slots: Vec::new(alloc),
        }
    }

    /// Puts a slot under a number that has none. If memory is refused, the table is as before.
    fn add(&mut self, id: u64, slot: Slot) -> Result<(), AllocError>
        requires { slot.place < 2 ^ 64 - 1 }
        ensures places { OnOk result ((q : ℕ) → place_of self.new q ≡ cond (is_at (nat_cmp id) q) (Some (length self.old.slots.items)) (place_of self.old q)) }
        ensures numbers { OnOk result (self.new.numbers.items ≡ self.old.numbers.items ++ id ∷ []) }
        ensures slots { OnOk result (self.new.slots.items ≡ self.old.slots.items ++ Some slot ∷ []) }
        ensures err { OnErr result ((self.new.places.entries ≡ self.old.places.entries) × (self.new.numbers.items ≡ self.old.numbers.items) × (self.new.slots.items ≡ self.old.slots.items)) }
    {
        self.numbers.reserve(1)?;
        self.slots.reserve(1)?;
        let place = self.slots.len();
        self.places.insert(id, place)?;
        self.numbers.push_reserved(id);
        self.slots.push_reserved(Cell::of(slot));
        Ok(())
    }
}

/// Lends the literals at a slot.
#[inline(always)]
pub(crate) fn clause_of(literals: &[Lit], slot: Slot) -> &[Lit]
    requires { IsPlaced literals.now slot }
    ensures { result.now ≡ clause_at literals.now slot }
{
    &literals[slot.place..slot.place + slot.len]
}

/// Lends the clause whose slot is in the cell of index `place`; `None` if the cell is free.
#[inline(always)]
fn clause_in<'a>(literals: &'a [Lit], slots: &[Cell], place: usize) -> Option<&'a [Lit]>
    requires here { place < length slots.now }
    requires placed { IfSome (slice_index_or slots.now place None) (IsPlaced literals.now) }
    ensures { option_map (λ c. c.now) result ≡ option_map (clause_at literals.now) (slice_index_or slots.now place None) }
{
    match slots[place].slot() {
        Some(slot) => Some(clause_of(literals, slot)),
        None => None,
    }
}

/// Appends a clause's literals to the vector of all literals, and answers their slot. If memory is refused, the vector is as before.
pub(crate) fn append(literals: &mut Vec<Lit>, lits: &[Lit]) -> Result<Slot, AllocError>
    ensures ok { IfOk result (λ s. (s.place ≡ vec_len literals.old) × (s.len ≡ length lits.now) × (literals.new.items ≡ literals.old.items ++ lits.now)) }
    ensures err { OnErr result (literals.new.items ≡ literals.old.items) }
{
    let place = literals.len();
    literals.extend_from_slice(lits)?;
    Ok(Slot {
        place,
        len: lits.len(),
    })
}

/// Answers the same cells as a slice: the contract of a slice bounds its length, which proofs need.
/// It does nothing at run time.
pub(crate) fn whole(slots: &[Cell]) -> &[Cell]
    ensures { result.now ≡ slots.now }
{
    slots
}

/// The literals of clauses, and the slot of each clause number.
pub(crate) struct SlotTables {
    /// The literals of all clauses, also dead ones, clause after clause.
    pub(crate) literals: Vec<Lit>,
    /// The near table: the slots of the numbers below its length, by number.
    pub(crate) near: Blocks,
    /// The far table: the slots of the numbers from the near table's length on.
    pub(crate) far: Far,
}

impl Drop for SlotTables {
    fn drop(self) {
        let SlotTables {
            literals: _,
            near: _,
            far: _,
        } = self;
    }
}

impl SlotTables {
    /// Lends the clause of a number; `None` if it has no slot.
    #[inline(always)]
    pub(crate) fn find(&self, id: u64) -> Option<&[Lit]>
        requires { IsStore (tables_of self.now) }
        ensures { option_map (λ c. c.now) result ≡ get (live_of (tables_of self.now)) id }
    {
        match self.near.get(id as usize) {
            Some(slot) => Some(clause_of(&self.literals, slot)),
            None => match self.far.places.get(&id) {
                Some(place) => clause_in(&self.literals, &self.far.slots, *place),
                None => None,
            },
        }
    }

    /// Grows the near table by whole blocks of free cells until it has the index `place`.
    fn make_place(&mut self, place: usize) -> Result<(), AllocError>
        requires store { IsStore (tables_of self.old) }
        requires all_near { self.old.far.slots.items ≡ [] }
        ensures literals { self.new.literals.items ≡ self.old.literals.items }
        ensures place { OnOk result (place < length self.new.near) }
        ensures same { live_of (tables_of self.new) ≡ live_of (tables_of self.old) }
        ensures store { IsStore (tables_of self.new) }
    {
        while self.near.len() <= place {
            self.near.push_block()?;
        }
        Ok(())
    }

    /// Puts a slot into the near table at index `place`, and answers the slot that was there, if any.
    fn put_near(&mut self, place: usize, slot: Slot) -> Result<Option<Slot>, AllocError>
        requires store { IsStore (tables_of self.old) }
        requires here { place < length self.old.near }
        requires placed { IsPlaced self.old.literals.items slot }
        ensures literals { self.new.literals.items ≡ self.old.literals.items }
        ensures old { IfOk result (λ old. option_map (clause_at self.old.literals.items) old ≡ get (live_of (tables_of self.old)) place) }
        ensures placed { IfOk result (λ old. IfSome old (IsPlaced self.old.literals.items)) }
        ensures ok { OnOk result (live_of (tables_of self.new) ≡ insert (live_of (tables_of self.old)) place (clause_at self.old.literals.items slot)) }
        ensures err { OnErr result (live_of (tables_of self.new) ≡ live_of (tables_of self.old)) }
        ensures store { IsStore (tables_of self.new) }
    {
        let old = self.near.get(place);
        self.near.set(place, slot)?;
        Ok(old)
    }

    /// Puts a slot into the far table under a number, and answers the slot that the number had, if any.
    fn put_far(&mut self, id: u64, slot: Slot) -> Result<Option<Slot>, AllocError>
        requires store { IsStore (tables_of self.old) }
        requires beyond { length self.old.near ≤ id }
        requires placed { IsPlaced self.old.literals.items slot }
        ensures literals { self.new.literals.items ≡ self.old.literals.items }
        ensures old { IfOk result (λ old. option_map (clause_at self.old.literals.items) old ≡ get (live_of (tables_of self.old)) id) }
        ensures placed { IfOk result (λ old. IfSome old (IsPlaced self.old.literals.items)) }
        ensures ok { OnOk result (live_of (tables_of self.new) ≡ insert (live_of (tables_of self.old)) id (clause_at self.old.literals.items slot)) }
        ensures err { OnErr result (live_of (tables_of self.new) ≡ live_of (tables_of self.old)) }
        ensures store { IsStore (tables_of self.new) }
    {
        match self.far.places.get(&id) {
            Some(place) => {
                let place = *place;
                let old = self.far.slots[place].slot();
                self.far.slots[place] = Cell::of(slot);
                Ok(old)
            }
            None => {
                self.far.add(id, slot)?;
                Ok(None)
            }
        }
    }

    /// Frees the cell of the near table at index `place`, and answers the slot that was there, if any.
    fn take_near(&mut self, place: usize) -> Option<Slot>
        requires store { IsStore (tables_of self.old) }
        requires here { place < length self.old.near }
        ensures literals { self.new.literals.items ≡ self.old.literals.items }
        ensures old { option_map (clause_at self.old.literals.items) result ≡ get (live_of (tables_of self.old)) place }
        ensures placed { IfSome result (IsPlaced self.old.literals.items) }
        ensures after { live_of (tables_of self.new) ≡ remove (live_of (tables_of self.old)) place }
        ensures store { IsStore (tables_of self.new) }
    {
        let old = self.near.get(place);
        self.near.free(place);
        old
    }

    /// Removes a number from the far table, and answers the slot that it had, if any.
    fn take_far(&mut self, id: u64) -> Option<Slot>
        requires store { IsStore (tables_of self.old) }
        requires beyond { length self.old.near ≤ id }
        ensures literals { self.new.literals.items ≡ self.old.literals.items }
        ensures old { option_map (clause_at self.old.literals.items) result ≡ get (live_of (tables_of self.old)) id }
        ensures placed { IfSome result (IsPlaced self.old.literals.items) }
        ensures after { live_of (tables_of self.new) ≡ remove (live_of (tables_of self.old)) id }
        ensures store { IsStore (tables_of self.new) }
    {
        match self.far.places.remove(&id) {
            Some(place) => {
                let old = self.far.slots[place].slot();
                self.far.slots[place] = Cell::free();
                old
            }
            None => None,
        }
    }

    /// Puts a slot under a number, and answers the slot that the number had, if any.
    pub(crate) fn put(&mut self, id: u64, slot: Slot) -> Result<Option<Slot>, AllocError>
        requires store { IsStore (tables_of self.old) }
        requires placed { IsPlaced self.old.literals.items slot }
        ensures literals { self.new.literals.items ≡ self.old.literals.items }
        ensures old { IfOk result (λ old. option_map (clause_at self.old.literals.items) old ≡ get (live_of (tables_of self.old)) id) }
        ensures placed { IfOk result (λ old. IfSome old (IsPlaced self.old.literals.items)) }
        ensures ok { OnOk result (live_of (tables_of self.new) ≡ insert (live_of (tables_of self.old)) id (clause_at self.old.literals.items slot)) }
        ensures err { OnErr result (live_of (tables_of self.new) ≡ live_of (tables_of self.old)) }
        ensures store { IsStore (tables_of self.new) }
    {
        let place = id as usize;
        if place < self.near.len() {
            self.put_near(place, slot)
        } else {
            self.put_far(id, slot)
        }
    }

    /// Removes the slot of a number, and answers it; `None` if the number had none.
    pub(crate) fn take(&mut self, id: u64) -> Option<Slot>
        requires { IsStore (tables_of self.old) }
        ensures literals { self.new.literals.items ≡ self.old.literals.items }
        ensures old { option_map (clause_at self.old.literals.items) result ≡ get (live_of (tables_of self.old)) id }
        ensures placed { IfSome result (IsPlaced self.old.literals.items) }
        ensures after { live_of (tables_of self.new) ≡ remove (live_of (tables_of self.old)) id }
        ensures store { IsStore (tables_of self.new) }
    {
        let place = id as usize;
        if place < self.near.len() {
            self.take_near(place)
        } else {
            self.take_far(id)
        }
    }

    /// Grows the near table for a number that follows the others closely: one below 4 * (`taken` + 8,192), if `taken` clauses were ever put
    /// in. After the far table has got its first number, the near table does not grow.
    pub(crate) fn reserve_place(&mut self, taken: u64, id: u64) -> Result<(), AllocError>
        requires { IsStore (tables_of self.old) }
        ensures literals { self.new.literals.items ≡ self.old.literals.items }
        ensures same { live_of (tables_of self.new) ≡ live_of (tables_of self.old) }
        ensures store { IsStore (tables_of self.new) }
    {
        if self.far.slots.is_empty() && id < taken.saturating_add(8192).saturating_mul(4) {
            return self.make_place(id as usize);
        }
        Ok(())
    }

    /// A step of proofs: its contract bounds the number of live clauses. It does nothing at run
    /// time.
    pub(crate) fn bound_len(&self)
        ensures { len (live_of (tables_of self.now)) < 2 ^ 63 }
    {
        let _ = self.near.bound_len();
        let _far = whole(&self.far.slots);
    }
}
