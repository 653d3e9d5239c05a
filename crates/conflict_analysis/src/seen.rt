//! A set of numbers that is emptied in constant time.

ghost use Rattle.std.specs.Prelude.{◌≡◌, ℕ, ◌<◌, ◌≤◌, true, false, [], length, slice_set, All, IfOk, OnOk};
ghost use Rattle.conflict_analysis.specs.inner.Seen.{met};

use dimacs::Var;
use std::alloc::{AllocError, Global};
use std::marker::Model;

/// A set of variables, or of other small numbers, as a table of stamps. A number is in the set if its stamp is the present one, so that a
/// new stamp empties the set.
#[derive(Drop)]
pub(crate) struct Seen {
    /// By number.
    stamps: Vec<u32>,
    /// The present stamp.
    stamp: u32,
}

impl Model for Seen {
    ghost use Rattle.std.specs.Prelude.{Bool, List, ◌≤◌, All};
    ghost use Rattle.conflict_analysis.specs.inner.Seen.{stamped};

    ghost Value = { List Bool };

    ghost view = { λ s. stamped s.stamps.items s.stamp };

    ghost invariant = { λ s. All (λ x. x ≤ s.stamp) s.stamps.items };
}

impl Seen {
    /// An empty set, without room.
    pub(crate) fn new(alloc: Global) -> Seen
        ensures { result ≡ [] }
    {
        Seen {
            stamps: Vec::new(alloc),
            stamp: 0,
        }
    }

    /// An empty set, with room for the variables from 1 to `vars`.
    pub(crate) fn with_room(alloc: Global, vars: u32) -> Result<Seen, AllocError>
        ensures { IfOk result (λ seen. vars < length seen) }
    {
        Ok(Seen {
            stamps: vec![in alloc; 0; vars as usize + 1]?,
            stamp: 1,
        })
    }

    /// Empties the set by a new stamp, which no number has, and makes room for the numbers from 0
    /// to `vars`. If no stamp is left, the table is cleared.
    pub(crate) fn restart(&mut self, vars: u32) -> Result<(), AllocError>
        ensures room { OnOk result (vars < length self.new) }
        ensures none { OnOk result ((v : ℕ) → met self.new v ≡ false) }
    {
        make_room(&mut self.stamps, vars as usize + 1)?;
        if self.stamp == u32::MAX {
            clear(&mut self.stamps);
            self.stamp = 0;
        }
        self.stamp += 1;
        Ok(())
    }

    /// Whether a number is in the set.
    #[inline(always)]
    pub(crate) fn has_at(&self, row: usize) -> bool
        requires { row < length self.now }
        ensures { result ≡ met self.now row }
    {
        self.stamps[row] == self.stamp
    }

    /// Adds a number to the set.
    #[inline(always)]
    pub(crate) fn insert_at(&mut self, row: usize)
        requires { row < length self.old }
        ensures { self.new ≡ slice_set self.old row true }
    {
        self.stamps[row] = self.stamp;
    }

    /// Whether a variable is in the set.
    #[inline(always)]
    pub(crate) fn has(&self, var: Var) -> bool
        requires { var < length self.now }
        ensures { result ≡ met self.now var }
    {
        self.has_at(var.number() as usize)
    }

    /// Adds a variable to the set.
    #[inline(always)]
    pub(crate) fn insert(&mut self, var: Var)
        requires { var < length self.old }
        ensures { self.new ≡ slice_set self.old var true }
    {
        self.insert_at(var.number() as usize);
    }
}

/// Grows a table to at least `places` stamps; they are unchanged, and new ones are 0, which is never the present stamp.
pub(crate) fn make_room(stamps: &mut Vec<u32>, places: usize) -> Result<(), AllocError>
    ensures room { OnOk result (places ≤ length stamps.new.items) }
    ensures bounded { (n : ℕ) → All (λ s. s ≤ n) stamps.old.items → All (λ s. s ≤ n) stamps.new.items }
{
    while stamps.len() < places {
        stamps.push(0)?;
    }
    Ok(())
}

/// Sets each stamp to 0, if no fresh stamp is left.
pub(crate) fn clear(stamps: &mut Vec<u32>)
    ensures len { length stamps.new.items ≡ length stamps.old.items }
    ensures cleared { All (λ s. s ≤ 0) stamps.new.items }
{
    for i in 0..stamps.len() {
        stamps[i] = 0;
    }
}
