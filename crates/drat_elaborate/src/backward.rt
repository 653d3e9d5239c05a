//! The pass backwards: needed lemmas are checked, and what their checks use becomes needed.

use crate::arena::{Arena, DELETED, NEEDED};
use crate::assignment::{FREE, TRUE};
use crate::candidates::RatHints;
use crate::observer::{ElaborationObserver, Phase, show};
use crate::occurrences::Occurrences;
use crate::propagator::Propagator;
use crate::replay::{Replay, Segment};
use crate::stamps::Stamps;
use crate::step_loader::Loaded;
use crate::trace::{LAST, Lemma, NO_HINT, Trace, UNIT};
use std::alloc::{AllocError, Global};

/// No variable.
pub(crate) const NONE: u32 = u32::MAX;

/// The pass backwards over the steps of a proof.
pub(crate) struct Backward {
    pub(crate) alloc: Global,
    pub(crate) propagator: Propagator,
    pub(crate) trace: Trace,
    /// The pivot of each addition.
    pub(crate) pivots: Vec<u32>,
    /// The number of clauses of the formula.
    pub(crate) formula: usize,
    /// The variables that the conflict rests on.
    pub(crate) seen: Stamps,
    /// The variables of the lemma that is checked, which are assumed false.
    pub(crate) assumed: Stamps,
    /// The variables of the candidate that is checked.
    pub(crate) of_candidate: Stamps,
    /// By variable, whether the unit lemma of its root literal is needed.
    pub(crate) units: Vec<bool>,
    /// The variables of root literals that a conflict rests on.
    pub(crate) roots: Vec<u32>,
    /// The other variables that a candidate's conflict rests on.
    pub(crate) met: Vec<u32>,
    /// The clauses of a conflict, the last hint first.
    pub(crate) chain: Vec<u32>,
    /// The clauses that became needed and are hinted at without the bit `LAST`.
    pub(crate) lasts: Vec<u32>,
    /// The needed clauses of each literal, from the first lemma on that may be RAT.
    pub(crate) occurrences: Option<Occurrences>,
    /// Room for the hints of the next RAT lemma, once one was met.
    pub(crate) room: Option<RatHints>,
    /// The number of RAT lemmas.
    pub(crate) rats: u64,
}

impl Drop for Backward {
    fn drop(self) {
        let Backward {
            alloc: _,
            propagator: _,
            trace: _,
            pivots: _,
            formula: _,
            seen: _,
            assumed: _,
            of_candidate: _,
            units: _,
            roots: _,
            met: _,
            chain: _,
            lasts: _,
            occurrences: _,
            room: _,
            rats: _,
        } = self;
    }
}

impl Backward {
    /// A pass over a replayed proof with variables below `rows`, which has begun nowhere.
    pub(crate) fn new(
        alloc: Global,
        propagator: Propagator,
        loaded: &mut Loaded,
    ) -> Result<Backward, AllocError> {
        let rows = loaded.rows as usize;
        Ok(Backward {
            alloc,
            propagator,
            trace: Trace::new(alloc),
            pivots: std::mem::replace(&mut loaded.pivots, Vec::new(alloc)),
            formula: loaded.formula,
            seen: Stamps::new(alloc, rows)?,
            assumed: Stamps::new(alloc, rows)?,
            of_candidate: Stamps::new(alloc, rows)?,
            units: vec![in alloc; false; rows]?,
            roots: Vec::new(alloc),
            met: Vec::new(alloc),
            chain: Vec::new(alloc),
            lasts: Vec::new(alloc),
            occurrences: None,
            room: None,
            rats: 0,
        })
    }

    /// Makes a clause needed. Returns whether it was not before, so that here it is used for the last time.
    pub(crate) fn need(&mut self, clause: u32) -> Result<bool, AllocError> {
        if self.propagator.arena.has(clause, NEEDED) {
            return Ok(false);
        }
        self.propagator.need(clause)?;
        if let Some(occurrences) = &mut self.occurrences {
            occurrences.add(&self.propagator.arena, clause)?;
        }
        Ok(true)
    }

    /// Appends a clause as a hint.
    fn hint(&mut self, clause: u32) -> Result<(), AllocError> {
        let bits = if self.need(clause)? { LAST } else { 0 };
        self.trace.push(self.propagator.arena.number(clause), bits)
    }

    /// Appends the unit clause or lemma of a variable's root literal as a hint.
    pub(crate) fn hint_root(&mut self, variable: u32) -> Result<(), AllocError> {
        let reason = self.propagator.assignment.reason(variable);
        if self.propagator.arena.len(reason) == 1 {
            return self.hint(reason);
        }
        let mut bits = UNIT;
        if let Some(needed) = self.units.get_mut(variable as usize)
            && !*needed
        {
            *needed = true;
            bits |= LAST;
        }
        let positive = variable.wrapping_mul(2);
        let literal = if self.propagator.assignment.value(positive) == TRUE {
            positive
        } else {
            positive | 1
        };
        self.trace.push(literal, bits)
    }

    /// Sees the variables of a clause, except one and those that are assumed.
    pub(crate) fn see(&mut self, clause: u32, except: u32) -> Result<(), AllocError> {
        for &literal in self.propagator.arena.literals(clause) {
            let variable = literal / 2;
            if variable == except
                || self.seen.has(variable)
                || self.assumed.has(variable)
                || self.of_candidate.has(variable)
            {
                continue;
            }
            self.seen.put(variable);
            if self.propagator.assignment.is_root(variable) {
                self.roots.push(variable)?;
            } else if self.occurrences.is_some() {
                self.met.push(variable)?;
            }
        }
        Ok(())
    }

    /// Begins to explain a conflict.
    pub(crate) fn begin_chain(&mut self) {
        self.seen.clear();
        self.roots.clear();
        self.met.clear();
        self.chain.clear();
    }

    /// Chains a clause, and sees its variables except one.
    pub(crate) fn follow(&mut self, clause: u32, except: u32) -> Result<(), AllocError> {
        self.chain.push(clause)?;
        self.see(clause, except)
    }

    /// Chains the reasons of what was seen in the trail, from its end down to the index `low`.
    pub(crate) fn walk(&mut self, low: usize) -> Result<(), AllocError> {
        for i in (low..self.propagator.assignment.len()).rev() {
            let variable = self.propagator.assignment.at(i) / 2;
            if self.seen.has(variable) {
                let reason = self.propagator.assignment.reason(variable);
                if reason != 0 {
                    self.follow(reason, variable)?;
                }
            }
        }
        Ok(())
    }

    /// Appends the root literals and the chain as hints.
    fn hint_chain(&mut self) -> Result<(), AllocError> {
        for i in 0..self.roots.len() {
            if let Some(&variable) = self.roots.get(i) {
                self.hint_root(variable)?;
            }
        }
        for i in (0..self.chain.len()).rev() {
            if let Some(&clause) = self.chain.get(i) {
                self.hint(clause)?;
            }
        }
        Ok(())
    }

    /// Appends the hints of a conflict.
    fn explain(&mut self, conflict: u32) -> Result<(), AllocError> {
        let root = self.propagator.assignment.root();
        self.begin_chain();
        self.follow(conflict, NONE)?;
        self.walk(root)?;
        self.hint_chain()
    }

    /// Records the unit lemma of a root literal, if it is needed and no clause.
    fn record_unit(&mut self, literal: u32) -> Result<(), AllocError> {
        let variable = literal / 2;
        let reason = self.propagator.assignment.reason(variable);
        if self.units.get(variable as usize) != Some(&true)
            || self.propagator.arena.len(reason) == 1
        {
            return Ok(());
        }
        let from = self.trace.hints.len();
        self.assumed.clear();
        self.of_candidate.clear();
        self.begin_chain();
        self.follow(reason, variable)?;
        self.hint_chain()?;
        self.trace.end(Lemma::Unit(literal), from)
    }

    /// Records the unit lemmas of the trail from the index `low` on.
    fn record_units(&mut self, low: usize) -> Result<(), AllocError> {
        for i in (low..self.propagator.assignment.len()).rev() {
            let literal = self.propagator.assignment.at(i);
            self.record_unit(literal)?;
        }
        Ok(())
    }

    /// Assumes that the literals of a clause are false. Returns a variable of it whose literal is true at the root, or `NONE`.
    fn assume_false(&mut self, clause: u32) -> u32 {
        self.assumed.clear();
        self.of_candidate.clear();
        for i in 0..self.propagator.arena.len(clause) {
            let literal = self.propagator.arena.literal(clause, i);
            match self.propagator.assignment.value(literal) {
                TRUE => return literal / 2,
                FREE => self.propagator.assignment.assign(literal ^ 1, 0),
                _ => {}
            }
            self.assumed.put(literal / 2);
        }
        NONE
    }

    /// Appends what became needed without a hint that says so.
    pub(crate) fn hint_lasts(&mut self) -> Result<(), AllocError> {
        for i in 0..self.lasts.len() {
            if let Some(&clause) = self.lasts.get(i) {
                let number = self.propagator.arena.number(clause);
                self.trace.push(number, LAST | NO_HINT)?;
            }
        }
        self.lasts.clear();
        Ok(())
    }

    /// Checks a lemma by reverse unit propagation, or else by its pivots, and appends its hints. Returns whether it is implied.
    fn imply(&mut self, clause: u32) -> Result<bool, AllocError> {
        let satisfied = self.assume_false(clause);
        if satisfied != NONE {
            self.assumed.clear();
            self.hint_root(satisfied)?;
            return Ok(true);
        }
        let conflict = self.propagator.propagate()?;
        if conflict != 0 {
            self.explain(conflict)?;
            return Ok(true);
        }
        let is_rat = self.try_pivots(clause)?;
        self.hint_lasts()?;
        Ok(is_rat)
    }

    /// Checks a lemma, and records it. Returns whether it is implied.
    fn check(&mut self, clause: u32) -> Result<bool, AllocError> {
        let from = self.trace.hints.len();
        let is_implied = self.imply(clause)?;
        let root = self.propagator.assignment.root();
        self.propagator.undo(root);
        self.trace.end(Lemma::Clause(clause), from)?;
        Ok(is_implied)
    }

    /// Watches the clauses that are there behind the last step.
    fn attach_all(&mut self) -> Result<(), AllocError> {
        for i in 0..self.propagator.arena.clauses() {
            let clause = self.propagator.arena.place(i);
            if clause < self.propagator.limit && !self.propagator.arena.has(clause, DELETED) {
                self.propagator.attach(clause)?;
            }
        }
        Ok(())
    }

    /// Undoes a deletion.
    fn undelete(&mut self, clause: u32) -> Result<(), AllocError> {
        self.propagator.arena.lower(clause, DELETED);
        self.propagator.attach(clause)
    }

    /// Undoes the root literals of a step, whose unit lemmas are recorded, if it made some true.
    fn undo_segment(&mut self, segments: &mut Vec<Segment>, step: usize) -> Result<(), AllocError> {
        if let Some(&segment) = segments.last()
            && segment.step == step
        {
            segments.pop();
            self.record_units(segment.before)?;
            self.propagator.undo(segment.before);
        }
        Ok(())
    }

    /// Undoes an addition, and checks its clause if it is needed. Returns whether it is implied, or not needed.
    fn undo_addition(&mut self, clause: u32) -> Result<bool, AllocError> {
        self.propagator.limit = clause;
        if !self.propagator.arena.has(clause, NEEDED) {
            return Ok(true);
        }
        self.check(clause)
    }

    /// The clauses that are there behind the last step have places below this one: that of its addition, or of the first one.
    fn last_limit(&self, steps: &[u32]) -> u32 {
        for &step in steps.iter().rev() {
            if step % 2 == 0 && step != 0 {
                return (step / 2) + 1;
            }
        }
        match self.propagator.arena.place(self.formula) {
            0 => u32::MAX,
            first => first,
        }
    }

    /// Records the empty clause, which a false clause at the root implies, unless it is that clause itself and an addition's.
    fn end_with(&mut self, conflict: u32) -> Result<(), AllocError> {
        let is_addition = self.propagator.arena.number(conflict) as usize >= self.formula;
        if is_addition && self.propagator.arena.len(conflict) == 0 {
            self.need(conflict)?;
            return Ok(());
        }
        self.explain(conflict)?;
        self.trace.end(Lemma::Empty, 0)
    }

    /// Goes back over the steps from the conflict of the replay, and shows them to the observer. Returns the index of a step that adds a
    /// clause which is needed and not implied, if there is one.
    pub(crate) fn run<O: ElaborationObserver>(
        &mut self,
        steps: &[u32],
        replay: &mut Replay,
        observer: &mut O,
    ) -> Result<Option<usize>, AllocError> {
        self.propagator.end_replay();
        let steps = steps.get(..replay.steps).unwrap_or(&[]);
        self.propagator.limit = self.last_limit(steps);
        self.attach_all()?;
        self.end_with(replay.conflict)?;
        for i in (0..steps.len()).rev() {
            show(observer, Phase::Backward, steps.len() - 1 - i, steps.len());
            let step = steps[i];
            if step == 0 {
                continue;
            }
            if step % 2 == 1 {
                self.undelete(step / 2)?;
                continue;
            }
            self.undo_segment(&mut replay.segments, i)?;
            if !self.undo_addition(step / 2)? {
                return Ok(Some(i));
            }
        }
        self.record_units(0)?;
        Ok(None)
    }
}

impl Backward {
    /// What the pass made; all else is given back.
    pub(crate) fn into_made(self) -> Made {
        let Backward {
            alloc: _,
            propagator,
            trace,
            pivots,
            formula,
            seen: _,
            assumed: _,
            of_candidate: _,
            units: _,
            roots: _,
            met: _,
            chain: _,
            lasts: _,
            occurrences: _,
            room: _,
            rats,
        } = self;
        Made {
            arena: propagator.into_arena(),
            trace,
            pivots,
            formula,
            rats,
        }
    }
}

/// What the pass backwards made.
pub(crate) struct Made {
    pub(crate) arena: Arena,
    pub(crate) trace: Trace,
    /// The pivot of each addition.
    pub(crate) pivots: Vec<u32>,
    /// The number of clauses of the formula.
    pub(crate) formula: usize,
    /// The number of RAT lemmas.
    pub(crate) rats: u64,
}

impl Drop for Made {
    fn drop(self) {
        let Made {
            arena: _,
            trace: _,
            pivots: _,
            formula: _,
            rats: _,
        } = self;
    }
}
