//! The weight of each variable: the sum of the weights of its open clauses, counted as clauses change.

ghost use Rattle.std.specs.Prelude.{◌<◌, length, All};

use crate::clause_states::ClauseState;
use crate::clauses::Clauses;
use std::alloc::{AllocError, Global};

/// By variable, the sum of the weights of the clauses in which it occurs.
pub(crate) struct VariableWeights {
    /// By clause, its weight in the present sums.
    counted: Vec<u64>,
    /// By variable, the sum.
    weights: Vec<u64>,
}

impl Drop for VariableWeights {
    fn drop(self) {
        let VariableWeights {
            counted: _,
            weights: _,
        } = self;
    }
}

impl VariableWeights {
    /// Weights that are all 0, for the variables from 1 to `vars` and this many clauses.
    pub(crate) fn new(
        alloc: Global,
        vars: u32,
        clauses: usize,
    ) -> Result<VariableWeights, AllocError> {
        Ok(VariableWeights {
            counted: vec![in alloc; 0; clauses]?,
            weights: vec![in alloc; 0; vars as usize + 1]?,
        })
    }

    /// The sum of the weights of a variable's clauses; 0 if there is no such variable.
    pub(crate) fn of(&self, variable: u32) -> u64 {
        match self.weights.get(variable as usize) {
            Some(&sum) => sum,
            None => 0,
        }
    }

    /// Replaces the weight of one clause in the sums of its variables by its present weight. Its
    /// literals are visited only if the weight has changed.
    fn count(&mut self, clauses: &Clauses, clause: usize, weight: u64) {
        let Some(counted) = self.counted.get_mut(clause) else {
            return;
        };
        let before = *counted;
        if before == weight {
            return;
        }
        *counted = weight;
        for &code in clauses.clause(clause) {
            if let Some(sum) = self.weights.get_mut(code as usize / 2) {
                *sum = sum.wrapping_sub(before).wrapping_add(weight);
            }
        }
    }

    /// Counts each clause by its present weight.
    pub(crate) fn count_all(&mut self, clauses: &Clauses, states: &[ClauseState]) {
        for (i, state) in states.iter().enumerate() {
            self.count(clauses, i, state.weight());
        }
    }

    /// Replaces the weights of the clauses of these numbers, which may have changed.
    pub(crate) fn count_again(
        &mut self,
        clauses: &Clauses,
        states: &[ClauseState],
        changed: &[u32],
    ) {
        for &clause in changed {
            if let Some(state) = states.get(clause as usize) {
                self.count(clauses, clause as usize, state.weight());
            }
        }
    }
}
