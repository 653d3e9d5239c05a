//! The propagator `Scan`, without watches: it tests every clause until nothing changes.

ghost use Rattle.std.specs.Prelude.{◌≡◌, ◌≢◌, ℕ, ◌+◌, ◌<◌, ◌≤◌, List, [], length, All, Contains, IfSome, IfNone};
ghost use Rattle.clause_arena.specs.Clauses.{Clauses, live_of};
ghost use Rattle.clause_arena.specs.declared.reference.Ref.{Ref};
ghost use Rattle.watches.specs.Trails.{TrailValue};
ghost use Rattle.watches.specs.Law.{Grows, IsFixpoint, IsConflict, live_among};
ghost use Rattle.watches.specs.ClauseNumbers.{numbers};
ghost use Rattle.watches.specs.inner.LiveClauses.{IsLiveWithin};
ghost use Rattle.watches.specs.inner.ScanLaws.{here_pushed, here_elsewhere};

use crate::moved_refs::update_refs;
use crate::propagator::Propagator;
use crate::status::{Status, test_clause};
use crate::trail::{Assigned, Trail};
use clause_arena::{Arena, Ref};
use std::alloc::{AllocError, Global};
use std::marker::Model;

/// Tests each of these clauses once, pushes the literals of units, and stops at a false clause,
/// whose number it returns. If it returns None and has pushed nothing, no clause is false or unit.
fn sweep(clauses: &[Ref], arena: &Arena, trail: &mut Trail) -> Option<u64>
    requires { All (IsLiveWithin arena.now trail.old.vars) clauses.now }
    ensures trail { Grows (live_among (numbers clauses.now) (live_of arena.now)) trail.old trail.new }
    ensures conflict { IfSome result (IsConflict (live_among (numbers clauses.now) (live_of arena.now)) trail.new.entries) }
    ensures quiet { IfNone result (length trail.new.entries ≡ length trail.old.entries → IsFixpoint (live_among (numbers clauses.now) (live_of arena.now)) trail.new.entries) }
{
    for &at in clauses {
        match test_clause(arena.clause(at), trail) {
            Status::False => return Some(at.number()),
            Status::Unit(literal) => trail.push(Assigned {
                literal,
                level: trail.level(),
                reason: Some(at.number()),
            }),
            Status::Other => {}
        }
    }
    None
}

/// Sweeps until a clause is false, whose number it returns, or a sweep pushes nothing: then it returns None.
fn sweep_all(clauses: &[Ref], arena: &Arena, trail: &mut Trail) -> Option<u64>
    requires { All (IsLiveWithin arena.now trail.old.vars) clauses.now }
    ensures trail { Grows (live_among (numbers clauses.now) (live_of arena.now)) trail.old trail.new }
    ensures conflict { IfSome result (IsConflict (live_among (numbers clauses.now) (live_of arena.now)) trail.new.entries) }
    ensures quiet { IfNone result (IsFixpoint (live_among (numbers clauses.now) (live_of arena.now)) trail.new.entries) }
{
    loop {
        let before = trail.len();
        match sweep(clauses, arena, trail) {
            Some(number) => return Some(number),
            None => {
                if trail.len() == before {
                    return None;
                }
            }
        }
    }
}

/// A propagator that holds references to the attached clauses, and tests one after the other.
#[derive(Drop)]
pub struct Scan {
    clauses: Vec<Ref>,
}

impl Model for Scan {
    ghost Value = { List Ref };

    ghost view = { λ s. s.clauses.items };
}

impl Scan {
    /// A propagator to which no clause is attached.
    pub fn new(alloc: Global) -> Scan
        ensures { result ≡ [] }
    {
        Scan {
            clauses: Vec::new(alloc),
        }
    }
}

impl Propagator for Scan {
    ghost attached = { λ s. numbers s };

    ghost is_ready = { λ s m t. All (IsLiveWithin m t.vars) s };

    ghost pushed = { λ p m t u more h e f. here_pushed m t u p h e };

    ghost explained = { λ p m t u h e a. here_pushed m t u p h e };

    ghost elsewhere = { λ p m k t h e. here_elsewhere m k t.vars p h e };

    /// Does nothing: a list of clauses needs no room for variables.
    fn reserve(&mut self, _vars: u32) -> Result<(), AllocError> {
        Ok(())
    }

    /// Appends the clause to the list.
    fn attach(&mut self, _arena: &mut Arena, _trail: &Trail, at: Ref) -> Result<(), AllocError> {
        self.clauses.push(at)?;
        Ok(())
    }

    /// Removes the clause from the list.
    fn detach(&mut self, _arena: &Arena, at: Ref) {
        let number = at.number();
        self.clauses.retain(|a| a.number() != number);
    }

    /// Drops the list.
    fn release(&mut self) {
        let alloc = *self.clauses.allocator();
        *self = Scan::new(alloc);
    }

    /// Updates the references in the list after a compaction.
    fn moved(&mut self, moves: &[(Ref, Ref)]) {
        update_refs(&mut self.clauses, moves);
    }

    /// Backtracks the trail to a level; there are no watches to mend.
    fn undo(&mut self, trail: &mut Trail, level: u32) {
        trail.cut(level);
    }

    /// Tests every clause again and again, until one is false or nothing changes.
    fn propagate(&mut self, arena: &mut Arena, trail: &mut Trail) -> Option<u64> {
        sweep_all(&self.clauses, arena, trail)
    }
}
