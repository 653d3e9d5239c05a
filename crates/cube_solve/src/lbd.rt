//! Literal block distance (LBD, glue): the number of decision levels of a clause's literals (Audemard and Simon 2009).

ghost use Rattle.std.specs.Prelude.{All};
ghost use Rattle.dimacs.specs.logic.Literal.{IsWithin};

use dimacs::Lit;
use std::alloc::{AllocError, Global};
use watches::{Trail, Truth};

/// A counter of the levels of a clause. It has a stamp for each level, which is the present stamp if the level was counted for this clause.
#[derive(Drop)]
pub(crate) struct LbdCounter {
    /// By level, from 0 on.
    stamps: Vec<u64>,
    /// The stamp of the present count.
    stamp: u64,
}

/// The level at which a literal was made true or false; 0 if it is unassigned.
fn level_of(trail: &Trail, literal: Lit) -> u32
    requires { IsWithin trail.now.vars literal }
{
    match trail.value(literal) {
        Truth::True => trail.entry_of(literal).level,
        Truth::False => trail.entry_of(literal.negate()).level,
        Truth::Free => 0,
    }
}

impl LbdCounter {
    /// A counter for levels from 0 to `vars`, before its first count.
    pub(crate) fn new(alloc: Global, vars: u32) -> Result<LbdCounter, AllocError> {
        Ok(LbdCounter {
            stamps: vec![in alloc; 0; vars as usize + 1]?,
            stamp: 0,
        })
    }

    /// Stamps a level. Returns true if the level is above 0 and had no stamp of the present count.
    fn is_new(&mut self, level: u32) -> bool {
        if level == 0 {
            return false;
        }
        match self.stamps.get_mut(level as usize) {
            Some(stamp) => {
                let is_new = *stamp != self.stamp;
                *stamp = self.stamp;
                is_new
            }
            None => false,
        }
    }

    /// Counts the levels above 0 of a clause's literals, up to `most`. Unassigned literals count for no level.
    pub(crate) fn count(&mut self, trail: &Trail, clause: &[Lit], most: u8) -> u8
        requires { All (IsWithin trail.now.vars) clause.now }
    {
        self.stamp = self.stamp.wrapping_add(1);
        let mut levels = 0u8;
        for &literal in clause {
            if levels == most {
                return levels;
            }
            if self.is_new(level_of(trail, literal)) {
                levels = levels.saturating_add(1);
            }
        }
        levels
    }
}
