//! The choice of variables, and their elimination.

use crate::advisor::{Advisor, BOUND, MOST};
use crate::reducer::{Move, Reducer};
use crate::witness::Witness;
use dimacs::{Lit, Var};
use std::alloc::AllocError;

impl Advisor {
    /// Begins a round: the variables that were touched, those with the fewest pairs of clauses first. Answers false if there is nothing left to do.
    pub(crate) fn begin_round(&mut self, reducer: &Reducer) -> Result<bool, AllocError> {
        if !self.has_eliminated {
            if self.bound == BOUND {
                return Ok(false);
            }
            self.bound = BOUND;
            self.touched.fill(true);
        }
        self.has_eliminated = false;
        self.spend(reducer.vars() as usize);
        for number in 1..reducer.vars().saturating_add(1) {
            if let Some(touched) = self.touched.get_mut(number as usize)
                && *touched
            {
                *touched = false;
                self.enlist(reducer, number)?;
            }
        }
        self.order.sort_unstable();
        self.order.reverse();
        Ok(true)
    }

    /// Puts a variable on the list of this round, if it is not eliminated, not frozen and in few clauses, and has its lists swept.
    fn enlist(&mut self, reducer: &Reducer, number: u32) -> Result<(), AllocError> {
        if number == 0 || number > reducer.vars() {
            return Ok(());
        }
        let var = Var::new(number);
        if reducer.is_eliminated(var) {
            return Ok(());
        }
        self.spend(reducer.count_with(&[Lit::positive(var), Lit::negative(var)]));
        let positive = count_active(reducer, Lit::positive(var));
        let negative = count_active(reducer, Lit::negative(var));
        let few = positive <= MOST && negative <= MOST && positive + negative > 0;
        if few && !self.is_frozen(number) {
            let pairs = positive as u64 * negative as u64;
            self.order.push((pairs << 32) | u64::from(number))?;
        }
        self.moves.push(Move::Sweep(Lit::positive(var)))?;
        self.moves.push(Move::Sweep(Lit::negative(var)))?;
        Ok(())
    }

    /// Decides to eliminate a variable, if that leaves few clauses more than there are.
    pub(crate) fn try_variable(
        &mut self,
        reducer: &Reducer,
        number: u32,
    ) -> Result<(), AllocError> {
        if number == 0 || number > reducer.vars() || self.is_frozen(number) {
            return Ok(());
        }
        let var = Var::new(number);
        if reducer.is_eliminated(var) {
            return Ok(());
        }
        self.spend(reducer.count_with(&[Lit::positive(var), Lit::negative(var)]));
        list_active(reducer, Lit::positive(var), &mut self.positive)?;
        list_active(reducer, Lit::negative(var), &mut self.negative)?;
        let clauses = self.positive.len().saturating_add(self.negative.len());
        if self.positive.len() > MOST || self.negative.len() > MOST {
            return Ok(());
        }
        let most = clauses.saturating_add(self.bound);
        if self.has_few_resolvents(reducer, var, most) {
            self.decide(reducer, var)?;
        }
        Ok(())
    }

    /// Whether the clauses at hand have at most so many resolvents on their variable that are no tautologies, none of them long.
    fn has_few_resolvents(&mut self, reducer: &Reducer, var: Var, most: usize) -> bool {
        let mut count = 0;
        for place in 0..self.positive.len() {
            let left = reducer.clause(at(&self.positive, place));
            if left.len() > MOST {
                return false;
            }
            self.spend(left.len());
            self.mark(left, true);
            let fits = self.count_with(reducer, var, left.len(), most, &mut count);
            self.mark(left, false);
            if !fits {
                return false;
            }
        }
        true
    }

    /// Counts the resolvents of the marked clause of `size` literals. False if there are too many, if one or its clauses are too long, or if
    /// one is empty: then both clauses stay, and the search ends with them.
    fn count_with(
        &mut self,
        reducer: &Reducer,
        var: Var,
        size: usize,
        most: usize,
        count: &mut usize,
    ) -> bool {
        for place in 0..self.negative.len() {
            let right = reducer.clause(at(&self.negative, place));
            if right.len() > MOST {
                return false;
            }
            self.spend(right.len());
            let Some(more) = self.literals_more(var, right) else {
                continue;
            };
            *count = count.saturating_add(1);
            let literals = size.saturating_add(more).saturating_sub(1);
            if *count > most || literals == 0 || literals >= MOST {
                return false;
            }
        }
        true
    }

    /// How many literals of a clause are not in the marked one, its literal of `var` not counted; `None` if their resolvent is a tautology.
    fn literals_more(&self, var: Var, clause: &[Lit]) -> Option<usize> {
        let mut more = 0usize;
        for literal in clause {
            if literal.var() == var {
                continue;
            }
            if self.is_marked(literal.negate()) {
                return None;
            }
            if !self.is_marked(*literal) {
                more = more.saturating_add(1);
            }
        }
        Some(more)
    }

    /// Decides to eliminate the variable at hand: all resolvents first, then the clauses go, which the witness notes.
    fn decide(&mut self, reducer: &Reducer, var: Var) -> Result<(), AllocError> {
        self.has_eliminated = true;
        if self.positive.len() <= self.negative.len() {
            note(
                &mut self.witness,
                reducer,
                &self.positive,
                Lit::positive(var),
            )?;
        } else {
            note(
                &mut self.witness,
                reducer,
                &self.negative,
                Lit::negative(var),
            )?;
        }
        self.moves.push(Move::Eliminate(var))?;
        for left in 0..self.positive.len() {
            let left = at(&self.positive, left);
            self.touch(reducer.clause(left));
            for right in 0..self.negative.len() {
                let right = at(&self.negative, right);
                self.spend_on_test(reducer, reducer.clause(left));
                self.spend_on_test(reducer, reducer.clause(right));
                self.moves.push(Move::Resolve {
                    left,
                    right,
                    on: Lit::positive(var),
                })?;
            }
        }
        for right in 0..self.negative.len() {
            let right = at(&self.negative, right);
            self.touch(reducer.clause(right));
        }
        Ok(())
    }
}

/// Notes the clauses of the side with fewer of them, all of which have the literal `pivot`: it is false, unless one of these needs it.
fn note(
    witness: &mut Witness,
    reducer: &Reducer,
    few: &[u32],
    pivot: Lit,
) -> Result<(), AllocError> {
    for place in few {
        witness.push(pivot, reducer.clause(*place as usize))?;
    }
    witness.push(pivot.negate(), &[pivot.negate()])
}

/// The index at a place of a list.
fn at(list: &[u32], place: usize) -> usize {
    match list.get(place) {
        Some(index) => *index as usize,
        None => usize::MAX,
    }
}

/// How many active clauses have a literal.
fn count_active(reducer: &Reducer, literal: Lit) -> usize {
    let mut count = 0usize;
    for index in reducer.with(literal) {
        if reducer.is_active(*index as usize) {
            count = count.saturating_add(1);
        }
    }
    count
}

/// Overwrites a list by the active clauses with a literal.
fn list_active(reducer: &Reducer, literal: Lit, list: &mut Vec<u32>) -> Result<(), AllocError> {
    list.clear();
    for index in reducer.with(literal) {
        if reducer.is_active(*index as usize) {
            list.push(*index)?;
        }
    }
    Ok(())
}
