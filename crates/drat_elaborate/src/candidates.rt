//! Resolution asymmetric tautologies: each candidate's resolvent with the lemma is checked.

use crate::assignment::{FREE, TRUE};
use crate::backward::{Backward, NONE};
use crate::occurrences::Occurrences;
use crate::stamps::Stamps;
use crate::trace::CANDIDATE;
use std::alloc::{AllocError, Global};

/// The parts of a RAT lemma's hints while its candidates are checked.
pub(crate) struct RatHints {
    /// The variables that the candidates' checks rest on before them.
    wanted: Stamps,
    /// Those of root literals.
    roots: Vec<u32>,
    /// Variables whose reasons are to be followed.
    open: Vec<u32>,
    /// The groups: `CANDIDATE`, the candidate, and its hints.
    groups: Vec<u32>,
    /// By group, the number of its candidate, and the index of its first word.
    starts: Vec<(u32, usize)>,
}

impl Drop for RatHints {
    fn drop(self) {
        let RatHints {
            wanted: _,
            roots: _,
            open: _,
            groups: _,
            starts: _,
        } = self;
    }
}

impl RatHints {
    /// Room for variables below `rows`.
    fn new(alloc: Global, rows: usize) -> Result<RatHints, AllocError> {
        Ok(RatHints {
            wanted: Stamps::new(alloc, rows)?,
            roots: Vec::new(alloc),
            open: Vec::new(alloc),
            groups: Vec::new(alloc),
            starts: Vec::new(alloc),
        })
    }
}

impl Backward {
    /// Needs a clause, whose hint does not say so.
    fn need_quietly(&mut self, clause: u32) -> Result<(), AllocError> {
        if self.need(clause)? {
            self.lasts.push(clause)?;
        }
        Ok(())
    }

    /// Wants a variable's literal before the candidates, and all that it follows from.
    fn want(&mut self, hints: &mut RatHints, variable: u32) -> Result<(), AllocError> {
        hints.open.clear();
        hints.open.push(variable)?;
        for _ in 0..u64::MAX {
            let Some(variable) = hints.open.pop() else {
                return Ok(());
            };
            if hints.wanted.has(variable) || self.assumed.has(variable) {
                continue;
            }
            hints.wanted.put(variable);
            if self.propagator.assignment.is_root(variable) {
                hints.roots.push(variable)?;
                continue;
            }
            let reason = self.propagator.assignment.reason(variable);
            if reason != 0 {
                self.need_quietly(reason)?;
                for &literal in self.propagator.arena.literals(reason) {
                    hints.open.push(literal / 2)?;
                }
            }
        }
        Ok(())
    }

    /// A variable of a candidate whose literal is true, so that the candidate is blocked; best one of the lemma. `NONE` if there is none.
    fn blocking(&self, candidate: u32, negated: u32) -> u32 {
        let mut found = NONE;
        for &literal in self.propagator.arena.literals(candidate) {
            if literal != negated && self.propagator.assignment.value(literal) == TRUE {
                if self.assumed.has(literal / 2) {
                    return literal / 2;
                }
                found = literal / 2;
            }
        }
        found
    }

    /// Assumes that the other literals of a candidate are false too.
    fn assume_candidate(&mut self, candidate: u32, negated: u32) {
        self.of_candidate.clear();
        for i in 0..self.propagator.arena.len(candidate) {
            let literal = self.propagator.arena.literal(candidate, i);
            if literal != negated {
                self.of_candidate.put(literal / 2);
                if self.propagator.assignment.value(literal) == FREE {
                    self.propagator.assignment.assign(literal ^ 1, 0);
                }
            }
        }
    }

    /// Explains the conflict of a candidate: what of it stands behind index `at` of the trail becomes the group's hints, and what stands
    /// before it is wanted.
    fn explain_candidate(
        &mut self,
        hints: &mut RatHints,
        conflict: u32,
        at: usize,
    ) -> Result<(), AllocError> {
        self.begin_chain();
        self.follow(conflict, NONE)?;
        self.walk(at)?;
        self.propagator.undo(at);
        for i in 0..self.roots.len() {
            if let Some(&variable) = self.roots.get(i) {
                self.want(hints, variable)?;
            }
        }
        for i in 0..self.met.len() {
            if let Some(&variable) = self.met.get(i)
                && self.propagator.assignment.value(variable.wrapping_mul(2)) != FREE
            {
                self.want(hints, variable)?;
            }
        }
        for i in (0..self.chain.len()).rev() {
            if let Some(&clause) = self.chain.get(i) {
                self.need_quietly(clause)?;
                let number = self.propagator.arena.number(clause);
                hints.groups.push(number.wrapping_mul(8))?;
            }
        }
        self.of_candidate.clear();
        Ok(())
    }

    /// Checks a candidate of a lemma whose pivot has this negation. Returns whether the resolvent is blocked or implied.
    fn check_candidate(
        &mut self,
        hints: &mut RatHints,
        candidate: u32,
        negated: u32,
        at: usize,
    ) -> Result<bool, AllocError> {
        let number = self.propagator.arena.number(candidate);
        hints.starts.push((number, hints.groups.len()))?;
        hints.groups.push(CANDIDATE)?;
        hints.groups.push(number.wrapping_mul(8))?;
        let blocking = self.blocking(candidate, negated);
        if blocking != NONE {
            self.want(hints, blocking)?;
            return Ok(true);
        }
        self.assume_candidate(candidate, negated);
        self.propagator.propagate_from(at);
        let conflict = self.propagator.propagate()?;
        if conflict == 0 {
            self.propagator.undo(at);
            self.of_candidate.clear();
            return Ok(false);
        }
        self.explain_candidate(hints, conflict, at)?;
        Ok(true)
    }

    /// Appends the hints of a RAT lemma: those before the candidates, in the order of the trail, and the groups.
    fn hint_groups(&mut self, hints: &mut RatHints, at: usize) -> Result<(), AllocError> {
        for i in 0..hints.roots.len() {
            if let Some(&variable) = hints.roots.get(i) {
                self.hint_root(variable)?;
            }
        }
        for i in self.propagator.assignment.root()..at {
            let variable = self.propagator.assignment.at(i) / 2;
            let reason = self.propagator.assignment.reason(variable);
            if hints.wanted.has(variable) && reason != 0 {
                let number = self.propagator.arena.number(reason);
                self.trace.push(number, 0)?;
            }
        }
        self.hint_lasts()?;
        self.put_groups(hints)
    }

    /// Appends the first one of these groups.
    fn put_group(&mut self, groups: &[u32]) -> Result<(), AllocError> {
        for (i, &word) in groups.iter().enumerate() {
            if i > 0 && word == CANDIDATE {
                break;
            }
            self.trace.hints.push(word)?;
        }
        Ok(())
    }

    /// Appends the groups by the numbers of their candidates: some checkers want them so.
    fn put_groups(&mut self, hints: &mut RatHints) -> Result<(), AllocError> {
        hints.starts.sort_unstable();
        for i in 0..hints.starts.len() {
            if let Some(&(_, from)) = hints.starts.get(i) {
                self.put_group(hints.groups.get(from..).unwrap_or(&[]))?;
            }
        }
        Ok(())
    }

    /// Checks a lemma on a pivot. Returns whether it is RAT on it; then its hints are appended.
    fn try_pivot(
        &mut self,
        hints: &mut RatHints,
        pivot: u32,
        at: usize,
    ) -> Result<bool, AllocError> {
        let variable = pivot / 2;
        if self.units.get(variable as usize) == Some(&true)
            && self.propagator.assignment.is_root(variable)
        {
            // A unit lemma is a candidate, and its resolvent is the lemma.
            return Ok(false);
        }
        hints.wanted.clear();
        hints.roots.clear();
        hints.groups.clear();
        hints.starts.clear();
        // Checks of candidates make clauses needed, which may be candidates too.
        for i in 0..usize::MAX {
            let limit = self.propagator.limit;
            let candidate = match &mut self.occurrences {
                Some(occurrences) => occurrences.at(pivot ^ 1, i, limit),
                None => 0,
            };
            if candidate == 0 {
                break;
            }
            if !self.check_candidate(hints, candidate, pivot ^ 1, at)? {
                return Ok(false);
            }
        }
        self.hint_groups(hints, at)?;
        Ok(true)
    }

    /// Lists the needed clauses by literals, if that was not done yet.
    fn list_candidates(&mut self) -> Result<(), AllocError> {
        if self.occurrences.is_none() {
            let codes = self.units.len().saturating_mul(2);
            self.occurrences = Some(Occurrences::of(
                self.alloc,
                &self.propagator.arena,
                codes,
                self.propagator.limit,
            )?);
        }
        Ok(())
    }

    /// The pivot of a clause: the first literal of its addition.
    fn pivot_of(&self, clause: u32) -> u32 {
        let number = self.propagator.arena.number(clause) as usize;
        match self.pivots.get(number.wrapping_sub(self.formula)) {
            Some(&pivot) => pivot,
            None => 0,
        }
    }

    /// Makes a literal the pivot of a clause.
    fn set_pivot(&mut self, clause: u32, pivot: u32) {
        let number = self.propagator.arena.number(clause) as usize;
        if let Some(place) = self.pivots.get_mut(number.wrapping_sub(self.formula)) {
            *place = pivot;
        }
    }

    /// Checks a lemma on a pivot, as [`try_pivot`](Self::try_pivot), and keeps the pivot if the lemma is RAT on it.
    fn keep_pivot(
        &mut self,
        hints: &mut RatHints,
        clause: u32,
        pivot: u32,
        at: usize,
    ) -> Result<bool, AllocError> {
        if !self.try_pivot(hints, pivot, at)? {
            return Ok(false);
        }
        self.set_pivot(clause, pivot);
        self.rats = self.rats.saturating_add(1);
        Ok(true)
    }

    /// Checks a lemma, whose literals are assumed false and propagated, on its first literal, and else on the others. Returns whether it is
    /// RAT on one of them.
    fn try_all(&mut self, hints: &mut RatHints, clause: u32) -> Result<bool, AllocError> {
        let at = self.propagator.assignment.len();
        let first = self.pivot_of(clause);
        if self.keep_pivot(hints, clause, first, at)? {
            return Ok(true);
        }
        for i in 0..self.propagator.arena.len(clause) {
            let pivot = self.propagator.arena.literal(clause, i);
            if pivot != first && self.keep_pivot(hints, clause, pivot, at)? {
                return Ok(true);
            }
        }
        Ok(false)
    }

    /// The room for a RAT lemma's hints, which is used again from lemma to lemma.
    fn take_room(&mut self) -> Result<RatHints, AllocError> {
        match self.room.take() {
            Some(room) => Ok(room),
            None => RatHints::new(self.alloc, self.units.len()),
        }
    }

    /// Checks whether a lemma, whose literals are assumed false and propagated, is RAT on one of its literals.
    pub(crate) fn try_pivots(&mut self, clause: u32) -> Result<bool, AllocError> {
        if self.propagator.arena.len(clause) == 0 {
            return Ok(false);
        }
        self.list_candidates()?;
        let mut room = self.take_room()?;
        let is_rat = self.try_all(&mut room, clause)?;
        self.room = Some(room);
        Ok(is_rat)
    }
}
