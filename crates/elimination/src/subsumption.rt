//! Clauses that are taken out because of a shorter one, or shortened by one.

use crate::advisor::{Advisor, MOST};
use crate::reducer::{Move, Reducer};
use dimacs::Lit;
use std::alloc::AllocError;

/// What one clause does to another.
#[derive(Drop)]
enum Effect {
    /// It is a subset.
    Subsumes,
    /// It would be one but for the negation of this literal of the other: their resolvent on that is the other without it.
    Strengthens(Lit),
    /// It does nothing.
    Nothing,
}

impl Advisor {
    /// Decides what a clause subsumes and strengthens.
    pub(crate) fn subsume_by(
        &mut self,
        reducer: &Reducer,
        clause: usize,
    ) -> Result<(), AllocError> {
        self.spend(1);
        let literals = reducer.clause(clause);
        if !reducer.is_active(clause) || literals.len() > MOST {
            return Ok(());
        }
        let Some(rarest) = rarest_of(reducer, literals) else {
            return Ok(());
        };
        self.mark(literals, true);
        let tried = self.try_with(reducer, clause, rarest);
        let others = self.try_with(reducer, clause, rarest.negate());
        self.mark(literals, false);
        tried?;
        others
    }

    /// Decides what the marked clause does to those with a literal.
    fn try_with(
        &mut self,
        reducer: &Reducer,
        clause: usize,
        literal: Lit,
    ) -> Result<(), AllocError> {
        let size = reducer.clause(clause).len();
        for other in reducer.with(literal) {
            let place = *other as usize;
            self.spend(1);
            let literals = reducer.clause(place);
            if place == clause
                || literals.len() < size
                || !self.may_reach(clause, place)
                || !reducer.is_active(place)
            {
                continue;
            }
            self.spend(literals.len());
            match self.effect_on(literals, size) {
                Effect::Subsumes => {
                    self.touch(literals);
                    self.moves.push(Move::Subsume {
                        clause: place,
                        by: clause,
                    })?;
                }
                Effect::Strengthens(on) if literals.len() <= MOST => {
                    self.touch(literals);
                    self.spend_on_test(reducer, literals);
                    self.moves.push(Move::Resolve {
                        left: clause,
                        right: place,
                        on: on.negate(),
                    })?;
                }
                _ => {}
            }
        }
        Ok(())
    }

    /// What the marked clause of so many literals does to another one.
    fn effect_on(&self, literals: &[Lit], size: usize) -> Effect {
        let mut shared = 0usize;
        let mut negated = None;
        for literal in literals {
            if self.is_marked(*literal) {
                shared = shared.saturating_add(1);
            } else if self.is_marked(literal.negate()) {
                if let Some(_) = negated {
                    return Effect::Nothing;
                }
                negated = Some(*literal);
            }
        }
        match negated {
            None if shared == size => Effect::Subsumes,
            Some(literal) if shared.saturating_add(1) == size => Effect::Strengthens(literal),
            _ => Effect::Nothing,
        }
    }
}

/// The literal of a clause whose variable is in the fewest clauses.
fn rarest_of(reducer: &Reducer, literals: &[Lit]) -> Option<Lit> {
    let mut rarest = None;
    let mut fewest = usize::MAX;
    for literal in literals {
        let count = reducer
            .with(*literal)
            .len()
            .saturating_add(reducer.with(literal.negate()).len());
        if count < fewest {
            fewest = count;
            rarest = Some(*literal);
        }
    }
    rarest
}
