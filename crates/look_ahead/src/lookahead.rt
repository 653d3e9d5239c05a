//! The lookahead at a node: it chooses the variable to branch on.

use crate::candidates::{Candidates, lowest};
use crate::counting_propagator::{CountingPropagator, Outcome, VISIT_LIMIT};
use std::alloc::{AllocError, Global};

/// The greatest number of rounds over the candidates at one node. A round that finds a failed literal changes the node, so another round
/// follows.
const ROUNDS: u32 = 8;

/// The greatest score.
const SCORE_CAP: u64 = 1 << 62;

/// What is to be done with a node.
#[derive(Clone, Copy, PartialEq, Eq)]
pub(crate) enum Choice {
    /// Nothing: propagation refutes it.
    Refuted,
    /// Nothing: it stays a leaf, since no clause is open.
    NoOpenClause,
    /// Branch on this variable.
    Branch(u32),
}

/// What the propagation of a literal has shown.
#[derive(Clone, Copy)]
enum Look {
    /// A failed literal.
    Conflict,
    /// The sum of the weights of the open clauses that it reduces.
    Reduces(u64),
    /// The limit of visits was reached.
    LimitReached,
}

/// The end of a round over the candidates.
enum Round {
    /// There is no candidate.
    Empty,
    /// Both literals of a variable have failed, or propagating a negation has.
    Refuted,
    /// Branch on this variable.
    Chosen(u32),
    /// The negation of a failed literal was propagated. This is the best variable of the round.
    Forced(Option<u32>),
}

/// The best candidate so far.
#[derive(Clone, Copy)]
struct Best {
    variable: u32,
    score: u64,
}

/// The score of a variable, from the weights of the clauses that its two literals shorten: 1024
/// times their product, which favours variables whose both branches shrink, and their sum, which
/// breaks ties at 0.
fn score(positive: u64, negative: u64) -> u64 {
    positive
        .saturating_mul(negative)
        .saturating_mul(1024)
        .saturating_add(positive)
        .saturating_add(negative)
        .min(SCORE_CAP)
}

/// The better of the best candidate so far and a later one. Of equal scores the earlier one wins.
fn better(best: Option<Best>, next: Best) -> Best {
    match best {
        Some(best) if next.score <= best.score => best,
        _ => next,
    }
}

/// The code of a variable's positive literal.
fn positive(variable: u32) -> u32 {
    variable.wrapping_mul(2)
}

/// The propagator at a node, and the list of candidates there.
pub(crate) struct Lookahead {
    pub propagator: CountingPropagator,
    candidates: Candidates,
}

impl Drop for Lookahead {
    fn drop(self) {
        let Lookahead {
            propagator: _,
            candidates: _,
        } = self;
    }
}

/// Looks ahead at the literal of this code: propagates it, weighs the clauses that it shortens, and
/// undoes it.
fn look_along(propagator: &mut CountingPropagator, code: u32) -> Look {
    let from = propagator.len();
    let found = match propagator.assume(code, VISIT_LIMIT) {
        Outcome::Conflict => Look::Conflict,
        Outcome::LimitReached => Look::LimitReached,
        Outcome::Fixpoint => Look::Reduces(propagator.reduced_weight(from)),
    };
    propagator.undo(from);
    found
}

impl Lookahead {
    /// A lookahead over a propagator, with an empty list of candidates.
    pub(crate) fn new(
        alloc: Global,
        propagator: CountingPropagator,
    ) -> Result<Lookahead, AllocError> {
        let candidates = Candidates::new(alloc)?;
        Ok(Lookahead {
            propagator,
            candidates,
        })
    }

    /// Looks ahead at both literals of each candidate once, and keeps the best score. The negation
    /// of each failed literal is propagated, so that the node changes and another round has to
    /// follow.
    fn round(&mut self) -> Round {
        let mut best = None;
        let mut is_forced = false;
        for i in 0..self.candidates.len() {
            let variable = self.candidates.at(i);
            let code = positive(variable);
            if !self.propagator.is_free(code) {
                continue;
            }
            let forced = match (
                look_along(&mut self.propagator, code),
                look_along(&mut self.propagator, code ^ 1),
            ) {
                (Look::Reduces(a), Look::Reduces(b)) => {
                    let score = score(a, b);
                    best = Some(better(best, Best { variable, score }));
                    continue;
                }
                (Look::Conflict, Look::Conflict) => return Round::Refuted,
                (Look::Conflict, Look::Reduces(_)) => code ^ 1,
                (Look::Reduces(_), Look::Conflict) => code,
                (Look::LimitReached, _) | (_, Look::LimitReached) => {
                    return Round::Chosen(self.free_or(best, variable));
                }
            };
            if !self.propagator.enter(forced) {
                return Round::Refuted;
            }
            is_forced = true;
        }
        match best {
            _ if is_forced => Round::Forced(best.map(|best| best.variable)),
            Some(best) => Round::Chosen(best.variable),
            None => Round::Empty,
        }
    }

    /// The variable of `best` if it is still free, since a failed literal may have assigned it, and
    /// else `other`.
    fn free_or(&self, best: Option<Best>, other: u32) -> u32 {
        match best {
            Some(best) if self.propagator.is_free(positive(best.variable)) => best.variable,
            _ => other,
        }
    }

    /// Ranks the candidates and goes through them, until a round finds no failed literal, at most `ROUNDS` times.
    fn rounds(&mut self) -> Result<Choice, AllocError> {
        let mut last = None;
        for _ in 0..ROUNDS {
            self.candidates.rank(&self.propagator)?;
            match self.round() {
                Round::Empty => return Ok(Choice::NoOpenClause),
                Round::Refuted => return Ok(Choice::Refuted),
                Round::Chosen(variable) => return Ok(Choice::Branch(variable)),
                Round::Forced(best) => last = best,
            }
        }
        Ok(match last {
            Some(variable) if self.propagator.is_free(positive(variable)) => Choice::Branch(
                variable,
            ),
            _ => match lowest(&self.propagator) {
                Some(variable) => Choice::Branch(variable),
                None => Choice::NoOpenClause,
            },
        })
    }

    /// Chooses what is to be done with the node of the propagator: to branch on a variable, or
    /// nothing. The trail is afterwards as before.
    pub(crate) fn choose(&mut self) -> Result<Choice, AllocError> {
        let from = self.propagator.len();
        self.propagator.begin_visits();
        let choice = self.rounds()?;
        self.propagator.leave(from);
        Ok(choice)
    }
}
