//! A slot says where a clause's literals are; a cell holds a slot or nothing.

ghost use Rattle.std.specs.Prelude.{◌≡◌, ◌<◌, ◌-◌, ◌^◌, Some, None, IfSome};

use std::marker::Model;

/// The limit of 32-bit offsets: each clause begins before this one, and has at most this many literals.
pub(crate) const MOST: usize = u32::MAX as usize;

/// Where a clause's literals are in the arena's vector. The fields have 32 bits, to halve the size of the index; they reach 16 GB of
/// literals.
#[derive(Clone, Copy)]
pub(crate) struct Slot {
    /// The offset of the clause: the index of its first literal.
    pub(crate) place: u32,
    /// The number of its literals.
    pub(crate) len: u32,
}

impl Slot {
    /// The slot of `len` literals from the offset `place` on; None if it is past the limit.
    pub(crate) fn of(place: usize, len: usize) -> Option<Slot>
        ensures place { IfSome result (λ slot. slot.place ≡ place) }
        ensures len { IfSome result (λ slot. slot.len ≡ len) }
        ensures room { IfSome result (λ slot. slot.place < 2 ^ 32 - 1) }
    {
        if place >= MOST || len > MOST {
            return None;
        }
        Some(Slot {
            place: place as u32,
            len: len as u32,
        })
    }
}

/// A slot or nothing, in 8 bytes: the offset `u32::MAX`, at which no clause begins, stands for a free cell. An `Option<Slot>` would take 12
/// bytes.
#[derive(Clone, Copy)]
pub(crate) struct Cell {
    place: u32,
    len: u32,
}

impl Model for Cell {
    ghost use Rattle.std.specs.Prelude.{Option};
    ghost use Rattle.clause_arena.specs.declared.slot.Slot.{Slot};

    ghost Value = { Option Slot };

    ghost use Rattle.clause_arena.specs.inner.Cell.{slot_in, IsCell, cell_of, cell_of-slot_in};

    ghost view = { slot_in };

    ghost invariant = { IsCell };

    ghost inverse = { cell_of };

    ghost inverse_ok = { cell_of-slot_in };
}

impl Cell {
    /// A free cell.
    pub(crate) fn free() -> Cell
        ensures { result ≡ None }
    {
        Cell {
            place: u32::MAX,
            len: 0,
        }
    }

    /// The cell with a slot.
    pub(crate) fn of(slot: Slot) -> Cell
        requires { slot.place < 2 ^ 32 - 1 }
        ensures { result ≡ Some slot }
    {
        Cell {
            place: slot.place,
            len: slot.len,
        }
    }

    /// The slot in the cell; None if the cell is free.
    pub(crate) fn slot(self) -> Option<Slot>
        ensures { result ≡ self }
    {
        if self.place == u32::MAX {
            return None;
        }
        Some(Slot {
            place: self.place,
            len: self.len,
        })
    }
}
