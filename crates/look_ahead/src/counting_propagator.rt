//! Unit propagation by counters: each clause counts its true literals, and those that are not false. Watched literals would not tell the
//! lengths of clauses, which the lookahead needs.

ghost use Rattle.std.specs.Prelude.{◌≡◌, ◌≤◌, IfOk, vec_len};

use crate::clause_states::{ClauseState, lengthen, release, satisfy, shorten, weigh_once};
use crate::clauses::Clauses;
use crate::occurrences::Occurrences;
use crate::trail::Trail;
use crate::variable_weights::VariableWeights;
use dimacs::Formula;
use std::alloc::{AllocError, Global};

/// The limit of literal occurrences that the lookahead at one node visits.
pub(crate) const VISIT_LIMIT: u64 = 4_000_000;

/// The end of a propagation.
#[derive(Clone, Copy, PartialEq, Eq)]
pub(crate) enum Outcome {
    /// Each clause is satisfied, or has two literals or more that are not false.
    Fixpoint,
    /// All literals of a clause are false.
    Conflict,
    /// The limit of visits was reached first.
    LimitReached,
}

/// A propagator over the clauses of a formula, under the literals of a trail.
pub(crate) struct CountingPropagator {
    /// The number of variables.
    vars: u32,
    clauses: Clauses,
    occurrences: Occurrences,
    /// By clause, its counters; and after the last clause at least one state of no clause.
    states: Vec<ClauseState>,
    /// The literals that are true.
    trail: Trail,
    /// By variable, the sum of the weights of its open clauses, as they were counted last.
    weights: VariableWeights,
    /// The number of literal occurrences that were visited since `begin_visits`.
    visits: u64,
    /// The number of calls of `reduced_weight` so far: the stamp of the present one.
    looks: u32,
    ghost sized: { occurrences.bound ≤ vec_len states },
}

impl Drop for CountingPropagator {
    fn drop(self) {
        let CountingPropagator {
            vars: _,
            clauses: _,
            occurrences: _,
            states: _,
            trail: _,
            weights: _,
            visits: _,
            looks: _,
        } = self;
    }
}

/// The state of a clause with these codes if no literal is true: `open` counts its literals, and
/// `rest` is the XOR of their codes.
fn initial_state(codes: &[u32]) -> ClauseState {
    let mut state = ClauseState {
        satisfied: 0,
        open: 0,
        rest: 0,
        stamp: 0,
    };
    for &code in codes {
        state.open = state.open.wrapping_add(1);
        state.rest ^= code;
    }
    state
}

/// The states of the clauses if no literal is true, and after them, up to `rows`, states that are satisfied and belong to no clause.
fn initial_states(
    alloc: Global,
    clauses: &Clauses,
    rows: usize,
) -> Result<Vec<ClauseState>, AllocError>
    ensures { IfOk result (λ s. vec_len s ≡ rows) }
{
    let none = ClauseState {
        satisfied: 1,
        open: 0,
        rest: 0,
        stamp: 0,
    };
    let mut states = vec![in alloc; none; rows]?;
    for i in 0..clauses.len() {
        if let Some(state) = states.get_mut(i) {
            *state = initial_state(clauses.clause(i));
        }
    }
    Ok(states)
}

impl CountingPropagator {
    /// A propagator over a formula's clauses, with an empty trail. All weights are 0 until `count_all` counts them.
    pub(crate) fn new(alloc: Global, formula: &Formula) -> Result<CountingPropagator, AllocError> {
        let vars = formula.vars();
        let clauses = Clauses::of(alloc, formula)?;
        let occurrences = Occurrences::of(alloc, &clauses, 2 * (vars as usize + 1))?;
        let states = initial_states(alloc, &clauses, occurrences.bound)?;
        let weights = VariableWeights::new(alloc, vars, clauses.len())?;
        Ok(CountingPropagator {
            vars,
            clauses,
            occurrences,
            states,
            trail: Trail::new(alloc, vars)?,
            weights,
            visits: 0,
            looks: 0,
        })
    }

    /// Propagates the unit clauses of the formula. Returns false if that meets a conflict.
    pub(crate) fn propagate_units(&mut self) -> bool {
        for state in &self.states {
            if state.satisfied == 0 && state.open == 0 {
                return false;
            }
            if state.satisfied == 0 && state.open == 1 {
                self.trail.push(state.rest);
            }
        }
        self.propagate(u64::MAX) == Outcome::Fixpoint
    }

    /// Counts the weights of all clauses, for each variable.
    pub(crate) fn count_all(&mut self) {
        self.weights.count_all(&self.clauses, &self.states);
    }

    /// The length of the trail.
    pub(crate) fn len(&self) -> usize {
        self.trail.len()
    }

    /// The number of variables.
    pub(crate) fn vars(&self) -> u32 {
        self.vars
    }

    /// Whether neither the literal of this code nor its negation is true.
    pub(crate) fn is_free(&self, code: u32) -> bool {
        self.trail.is_free(code)
    }

    /// The sum of the weights of the open clauses with this variable, as they were counted last.
    pub(crate) fn weight_of(&self, variable: u32) -> u64 {
        self.weights.of(variable)
    }

    /// Sets the count of visited occurrences to 0, before the lookahead at a node, whose work it
    /// limits.
    pub(crate) fn begin_visits(&mut self) {
        self.visits = 0;
    }

    /// Updates the counters of the clauses with a literal that became true, and of those with its
    /// negation, and pushes the units that this makes. Returns true if a clause became false.
    fn assign(&mut self, code: u32) -> bool {
        let negation = code ^ 1;
        let with = self.occurrences.of_code(code);
        let without = self.occurrences.of_code(negation);
        satisfy(&mut self.states, with);
        let conflict = shorten(&mut self.states, without, negation, &mut self.trail);
        let visits = with.len() as u64;
        self.visits = self
            .visits
            .saturating_add(visits)
            .saturating_add(without.len() as u64);
        conflict
    }

    /// Undoes `assign` of the literal of this code at a backtrack.
    fn unassign(&mut self, code: u32) {
        let negation = code ^ 1;
        let with = self.occurrences.of_code(code);
        let without = self.occurrences.of_code(negation);
        release(&mut self.states, with);
        lengthen(&mut self.states, without, negation);
        let visits = with.len() as u64;
        self.visits = self
            .visits
            .saturating_add(visits)
            .saturating_add(without.len() as u64);
    }

    /// Propagates the literals of the trail that were not propagated yet, until a clause is false,
    /// none is left, or `limit` occurrences were visited.
    fn propagate(&mut self, limit: u64) -> Outcome {
        for _ in 0..self.trail.rows() {
            if self.visits >= limit {
                return Outcome::LimitReached;
            }
            let Some(code) = self.trail.next() else {
                return Outcome::Fixpoint;
            };
            if self.assign(code) {
                return Outcome::Conflict;
            }
        }
        Outcome::Fixpoint
    }

    /// Makes the literal of this code true and propagates it, until `limit` occurrences were visited. It is a conflict if its negation is
    /// true.
    pub(crate) fn assume(&mut self, code: u32, limit: u64) -> Outcome {
        if self.trail.is_true(code ^ 1) {
            return Outcome::Conflict;
        }
        self.trail.push(code);
        self.propagate(limit)
    }

    /// Measures a lookahead: adds up the weights of the open clauses that the trail's literals from
    /// index `from` on have shortened. A clause counts once.
    pub(crate) fn reduced_weight(&mut self, from: usize) -> u64 {
        self.looks = self.looks.wrapping_add(1);
        let mut sum: u64 = 0;
        for i in from..self.trail.len() {
            let without = self.occurrences.of_code(self.trail.at(i) ^ 1);
            sum = sum.saturating_add(weigh_once(&mut self.states, without, self.looks));
            self.visits = self.visits.saturating_add(without.len() as u64);
        }
        sum
    }

    /// Backtracks: cuts the trail to the length `to`, and undoes the counters of the propagated
    /// literals. The weights stay as they were counted, since a lookahead does not change them.
    pub(crate) fn undo(&mut self, to: usize) {
        let head = self.trail.head();
        for i in to..head {
            let code = self.trail.at(i);
            self.unassign(code);
        }
        self.trail.truncate(to);
    }

    /// Counts the weights of the clauses again that have a variable of the trail at the indices
    /// `from..to`, after these literals were set or undone.
    fn count_again(&mut self, from: usize, to: usize) {
        for i in from..to {
            let code = self.trail.at(i);
            let with = self.occurrences.of_code(code);
            self.weights.count_again(&self.clauses, &self.states, with);
            let without = self.occurrences.of_code(code ^ 1);
            self.weights
                .count_again(&self.clauses, &self.states, without);
        }
    }

    /// Goes down to a node: makes the literal of this code true, propagates it and counts the
    /// weights of the changed clauses. Returns false if that meets a conflict.
    pub(crate) fn enter(&mut self, code: u32) -> bool {
        let from = self.trail.len();
        let outcome = self.assume(code, u64::MAX);
        let to = self.trail.len();
        self.count_again(from, to);
        outcome == Outcome::Fixpoint
    }

    /// Goes back up to an earlier node: cuts the trail to the length `to`, and counts the weights
    /// of the changed clauses.
    pub(crate) fn leave(&mut self, to: usize) {
        let len = self.trail.len();
        self.undo(to);
        self.count_again(to, len);
    }

    /// Whether propagating the literal of this code meets a conflict (failed literal). The trail is unchanged afterwards.
    pub(crate) fn is_failed_literal(&mut self, code: u32) -> bool {
        let from = self.trail.len();
        let outcome = self.assume(code, u64::MAX);
        self.undo(from);
        outcome == Outcome::Conflict
    }
}
