//! Replays the steps of a proof forwards, and propagates at the root alone, until a clause is false.

use crate::arena::DELETED;
use crate::observer::{ElaborationObserver, Phase, show};
use crate::propagator::Propagator;
use std::alloc::{AllocError, Global};

/// A step that made root literals true, and the length of the trail before it.
#[derive(Clone, Copy)]
pub(crate) struct Segment {
    pub(crate) step: usize,
    pub(crate) before: usize,
}

/// What a replay came to.
pub(crate) struct Replay {
    /// A clause that is false; 0 if there is none.
    pub(crate) conflict: u32,
    /// The number of steps that were replayed.
    pub(crate) steps: usize,
    /// The steps that made root literals true, in their order.
    pub(crate) segments: Vec<Segment>,
    /// The number of deletions that were not done, since their clause has one true literal at the root, and only false ones beside it.
    pub(crate) kept: u64,
}

impl Drop for Replay {
    fn drop(self) {
        let Replay {
            conflict: _,
            steps: _,
            segments: _,
            kept: _,
        } = self;
    }
}

/// Adds the clauses of the formula.
fn add_formula(propagator: &mut Propagator, formula: usize) -> Result<u32, AllocError> {
    for i in 0..formula {
        let clause = propagator.arena.place(i);
        let conflict = propagator.add(clause)?;
        if conflict != 0 {
            propagator.settle();
            return Ok(conflict);
        }
    }
    Ok(0)
}

impl Replay {
    /// Deletes a clause, unless it has one true literal at the root, and only false ones beside it. Returns whether it was deleted.
    fn delete(&mut self, propagator: &mut Propagator, clause: u32) -> bool {
        if clause == 0 {
            return false;
        }
        if propagator.is_unit(clause) {
            self.kept = self.kept.saturating_add(1);
            return false;
        }
        propagator.arena.raise(clause, DELETED);
        true
    }

    /// Adds a clause.
    fn add(
        &mut self,
        propagator: &mut Propagator,
        step: usize,
        clause: u32,
    ) -> Result<(), AllocError> {
        let before = propagator.assignment.len();
        self.conflict = propagator.add(clause)?;
        if self.conflict != 0 {
            propagator.settle();
        }
        if propagator.assignment.len() > before {
            self.segments.push(Segment { step, before })?;
        }
        Ok(())
    }

    /// Replays the steps behind the `formula` first clauses, and shows them to the observer. A step whose deletion is not done becomes 0.
    pub(crate) fn of<O: ElaborationObserver>(
        alloc: Global,
        propagator: &mut Propagator,
        formula: usize,
        steps: &mut [u32],
        observer: &mut O,
    ) -> Result<Replay, AllocError> {
        let mut replay = Replay {
            conflict: add_formula(propagator, formula)?,
            steps: 0,
            segments: Vec::new(alloc),
            kept: 0,
        };
        for i in 0..steps.len() {
            show(observer, Phase::Forward, i, steps.len());
            if replay.conflict != 0 {
                return Ok(replay);
            }
            let Some(step) = steps.get_mut(i) else {
                return Ok(replay);
            };
            let clause = *step / 2;
            if *step % 2 == 0 {
                replay.add(propagator, i, clause)?;
            } else if !replay.delete(propagator, clause) {
                *step = 0;
            }
            replay.steps = i + 1;
        }
        Ok(replay)
    }
}
