//! The VMTF queue: variables by the time of their last bump, the latest first (variable move to front: Ryan 2004; Biere and Fröhlich 2015).
//!
//! No proof rests on the queue: a variable that it finds is tested to be unassigned, and if it finds none, the heap is asked. A variable that
//! is not in the heap waits for a clause that names it, and is passed over.

ghost use Rattle.std.specs.Prelude.{◌≡◌, IfSome};
ghost use Rattle.dimacs.specs.logic.Literal.{Neg};
ghost use Rattle.cube_solve.specs.inner.Steps.{IsUnassigned};

use crate::random::Random;
use decide_heap::DecideHeap;
use dimacs::{Lit, Var};
use std::alloc::{AllocError, Global};
use watches::{Trail, Truth};

/// The bits of a variable's number in a sort key of `bump`.
const NUMBER_BITS: u32 = 28;

/// The greatest age in a sort key of `bump`: the number of bumps since a variable's last one. Older variables count as of this age.
const OLDEST: u64 = (1 << 36) - 1;

/// The neighbours of a variable in the queue, by number, 0 if there is none; and the time of its last bump.
#[derive(Clone, Copy)]
struct Link {
    /// The number of the variable that was bumped next before this one.
    earlier: u32,
    /// The number of the variable that was bumped next after this one.
    later: u32,
    /// The time of the last bump.
    time: u64,
}

/// A doubly linked list of all variables, in the order of their times.
pub(crate) struct VmtfQueue {
    /// By variable.
    links: Vec<Link>,
    /// The last bumped variable; 0 if there is none.
    latest: u32,
    /// The time of the last bump.
    clock: u64,
    /// The variable from which `find` looks for an unassigned one of the heap: each later one is assigned.
    cursor: u32,
    /// The buffer of `bump`: the sort key of each variable.
    bumped: Vec<u64>,
}

impl Drop for VmtfQueue {
    fn drop(self) {
        let VmtfQueue {
            links: _,
            latest: _,
            clock: _,
            cursor: _,
            bumped: _,
        } = self;
    }
}

impl VmtfQueue {
    /// A queue of the variables from 1 to `vars`, in which variable 1 is the latest.
    pub(crate) fn new(alloc: Global, vars: u32) -> Result<VmtfQueue, AllocError> {
        let mut links = Vec::with_capacity(alloc, vars as usize + 1)?;
        for number in 0..vars as u64 + 1 {
            links.push(Link {
                earlier: if number < vars as u64 {
                    number as u32 + 1
                } else {
                    0
                },
                later: (number as u32).saturating_sub(1),
                time: vars as u64 - number,
            })?;
        }
        let latest = vars.min(1);
        Ok(VmtfQueue {
            links,
            latest,
            clock: vars as u64,
            cursor: latest,
            bumped: Vec::new(alloc),
        })
    }

    /// The time of the last bump of the variable of this number; 0 if there is no such variable.
    fn time_of(&self, number: u32) -> u64 {
        match self.links.get(number as usize) {
            Some(link) => link.time,
            None => 0,
        }
    }

    /// Links two variables as neighbours in the list, `earlier` before `later`. Number 0 stands for
    /// an end of the queue.
    fn join(&mut self, earlier: u32, later: u32) {
        if let Some(link) = self.links.get_mut(earlier as usize) {
            link.later = later;
        }
        if let Some(link) = self.links.get_mut(later as usize) {
            link.earlier = earlier;
        }
    }

    /// Makes the variable of this number the latest, with a new time.
    fn move_to_end(&mut self, number: u32) {
        let Some(&link) = self.links.get(number as usize) else {
            return;
        };
        self.clock = self.clock.wrapping_add(1);
        if number != self.latest {
            self.join(link.earlier, link.later);
            self.join(self.latest, number);
            self.latest = number;
        }
        if let Some(link) = self.links.get_mut(number as usize) {
            link.later = 0;
            link.time = self.clock;
        }
    }

    /// The sort key of the variable of this number: variables by time, the earliest bumped first, and of equal times the lower number. The
    /// number is in the lower bits.
    fn key_of(&self, number: u32) -> u64 {
        let age = self.clock.saturating_sub(self.time_of(number));
        OLDEST.saturating_sub(age) << NUMBER_BITS | number as u64
    }

    /// Bumps these variables in the order of their times, so that their relative order stays.
    pub(crate) fn bump(&mut self, vars: &[Var]) -> Result<(), AllocError> {
        self.bumped.clear();
        for &var in vars {
            let key = self.key_of(var.number());
            self.bumped.push(key)?;
        }
        self.move_bumped();
        Ok(())
    }

    /// Makes the variables of the keys in the buffer the latest, in the order of the keys.
    fn move_bumped(&mut self) {
        self.bumped.sort_unstable();
        for i in 0..self.bumped.len() {
            if let Some(&key) = self.bumped.get(i) {
                self.move_to_end((key % (1 << NUMBER_BITS)) as u32);
            }
        }
    }

    /// Puts all variables into a random order. If memory is refused, nothing has changed.
    pub(crate) fn shuffle(&mut self, random: &mut Random) -> Result<(), AllocError> {
        self.bumped.clear();
        for number in 1..self.links.len() {
            let key = random.next() << NUMBER_BITS | number as u64 % (1 << NUMBER_BITS);
            self.bumped.push(key)?;
        }
        self.move_bumped();
        self.rewind();
        Ok(())
    }

    /// Moves the cursor to a variable that is about to be unassigned, if it was bumped later than
    /// the cursor's: all variables after the cursor are assigned.
    pub(crate) fn free(&mut self, var: Var) {
        let number = var.number();
        if self.time_of(number) > self.time_of(self.cursor) {
            self.cursor = number;
        }
    }

    /// Moves the cursor as `free` does for each variable of a clause, which is about to be decided perhaps.
    pub(crate) fn free_all(&mut self, clause: &[Lit]) {
        for literal in clause {
            self.free(literal.var());
        }
    }

    /// Moves the cursor to the latest variable, at a change of mode.
    pub(crate) fn rewind(&mut self) {
        self.cursor = self.latest;
    }

    /// Finds the latest unassigned variable of the heap, and moves the cursor to it; None if there is none.
    pub(crate) fn find(&mut self, trail: &Trail, heap: &DecideHeap) -> Option<Var>
        requires { heap.now.vars ≡ trail.now.vars }
        ensures { IfSome result (λ v. IsUnassigned trail.now (Neg v)) }
    {
        for _ in 0..self.links.len() {
            let number = self.cursor;
            if number == 0 || number > trail.vars() || number >= 1 << 31 {
                return None;
            }
            let var = Var::new(number);
            if trail.value(Lit::negative(var)) == Truth::Free && heap.is_in(var) {
                return Some(var);
            }
            match self.links.get(number as usize) {
                Some(link) => self.cursor = link.earlier,
                None => return None,
            }
        }
        None
    }
}
