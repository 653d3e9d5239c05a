//! Phase saving: the value that a decision tries first is the variable's last one (Pipatsrisawat and Darwiche 2007), or its value on the
//! longest trail without a conflict (target phases).
//!
//! No promise rests on these values.

use crate::random::Random;
use dimacs::{Lit, Var};
use std::alloc::{AllocError, Global};
use watches::{Trail, Truth};

/// What a rephasing sets all saved values to.
#[derive(Clone, Copy)]
pub(crate) enum Rephase {
    /// False, the initial value.
    First,
    /// True.
    Flipped,
    /// The best values, those of the longest trail without a conflict since the last rephasing of this kind.
    Best,
}

/// The values of the longest trail without a conflict since the last reset.
#[derive(Drop)]
struct Longest {
    /// The number of entries of that trail; 0 after a reset.
    len: usize,
    /// By variable; `Free` if that trail did not assign it. In the best values, after a reset, the ones before stay until a trail is noted.
    values: Vec<Truth>,
}

impl Longest {
    /// Values of no trail, for the variables from 1 to `vars`.
    fn new(alloc: Global, vars: u32) -> Result<Longest, AllocError> {
        Ok(Longest {
            len: 0,
            values: vec![in alloc; Truth::Free; vars as usize + 1]?,
        })
    }

    /// The value of a variable; `Free` if there is none.
    fn of(&self, var: Var) -> Truth {
        match self.values.get(var.number() as usize) {
            Some(&value) => value,
            None => Truth::Free,
        }
    }

    /// Takes the values of the first `len` entries of a trail, if `len` is greater than at each
    /// call since the last reset: the longest trail so far.
    fn note(&mut self, trail: &Trail, len: usize) {
        if len <= self.len {
            return;
        }
        self.len = len;
        for entry in trail.entries().iter().take(len) {
            let value = if entry.literal.is_negative() {
                Truth::False
            } else {
                Truth::True
            };
            if let Some(place) = self.values.get_mut(entry.literal.var().number() as usize) {
                *place = value;
            }
        }
    }

    /// Forgets all values, and resets the length, so that the next trail counts as the longest.
    fn clear(&mut self) {
        self.len = 0;
        for value in self.values.iter_mut() {
            *value = Truth::Free;
        }
    }
}

/// The number of entries below the present level, whose propagation met no conflict.
fn entries_below_level(trail: &Trail) -> usize {
    let entries = trail.entries();
    let level = trail.level();
    let mut len = entries.len();
    for entry in entries.iter().rev() {
        if entry.level < level {
            return len;
        }
        len = len.saturating_sub(1);
    }
    0
}

/// For each variable, its last value and its values on long trails (target and best phases, Biere and Fleury 2020).
#[derive(Drop)]
pub(crate) struct SavedPhases {
    /// By variable; false at first.
    last: Vec<bool>,
    /// The values of the longest trail since the last rephasing, tried first in stable mode.
    target: Longest,
    /// The values of the longest trail since the last rephasing to the best values.
    best: Longest,
}

impl SavedPhases {
    /// The saved values of the variables from 1 to `vars`: each last value is false.
    pub(crate) fn new(alloc: Global, vars: u32) -> Result<SavedPhases, AllocError> {
        Ok(SavedPhases {
            last: vec![in alloc; false; vars as usize + 1]?,
            target: Longest::new(alloc, vars)?,
            best: Longest::new(alloc, vars)?,
        })
    }

    /// The value to try first if a variable is decided: its target value in stable mode if there is one, else its last value.
    pub(crate) fn of(&self, var: Var, stable: bool) -> bool {
        if stable {
            match self.target.of(var) {
                Truth::True => return true,
                Truth::False => return false,
                Truth::Free => {}
            }
        }
        match self.last.get(var.number() as usize) {
            Some(&value) => value,
            None => false,
        }
    }

    /// Saves the value of a literal that a backtrack is about to unassign (phase saving).
    pub(crate) fn keep(&mut self, literal: Lit) {
        if let Some(place) = self.last.get_mut(literal.var().number() as usize) {
            *place = !literal.is_negative();
        }
    }

    /// Updates the target and best values if the trail without its conflict level is the longest so
    /// far.
    pub(crate) fn note(&mut self, trail: &Trail) {
        let len = entries_below_level(trail);
        self.target.note(trail, len);
        self.best.note(trail, len);
    }

    /// Copies the saved values of another search when a session moves to more variables: the last
    /// values, and then those of its trail, which that search has not undone.
    pub(crate) fn take_over(&mut self, other: &SavedPhases, trail: &Trail) {
        for (number, value) in other.last.iter().enumerate() {
            if let Some(place) = self.last.get_mut(number) {
                *place = *value;
            }
        }
        for entry in trail.entries() {
            self.keep(entry.literal);
        }
    }

    /// Sets all last values as the rephasing says, and resets the target values. `Best` also resets the length of the best trail.
    pub(crate) fn rephase(&mut self, kind: Rephase) {
        for (number, last) in self.last.iter_mut().enumerate() {
            match kind {
                Rephase::First => *last = false,
                Rephase::Flipped => *last = true,
                Rephase::Best => match self.best.values.get(number) {
                    Some(Truth::True) => *last = true,
                    Some(Truth::False) => *last = false,
                    _ => {}
                },
            }
        }
        self.target.clear();
        if matches!(kind, Rephase::Best) {
            self.best.len = 0;
        }
    }
    /// Sets each last value at random.
    pub(crate) fn draw(&mut self, random: &mut Random) {
        for last in self.last.iter_mut() {
            *last = random.next() % 2 == 1;
        }
    }
}
