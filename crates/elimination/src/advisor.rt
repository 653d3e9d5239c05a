//! Which variables to eliminate, and which clauses to take out or to shorten: advice, on which no promise rests.
//!
//! A variable is eliminated if that adds at most a few clauses, the ones with the fewest resolvents first; clauses are subsumed and
//! strengthened by each new one (Eén and Biere 2005).

use crate::reducer::{Move, Reducer};
use crate::witness::Witness;
use dimacs::Lit;
use std::alloc::{AllocError, Global};

/// The most clauses of a literal of a variable that is eliminated, and the most literals of a clause that takes part.
pub(crate) const MOST: usize = 100;

/// How many more clauses the elimination of a variable may leave, once none is left that leaves no more.
pub(crate) const BOUND: usize = 8;

/// What an advisor says.
pub(crate) enum Advice {
    /// This is to be done next.
    Do(Move),
    /// Nothing yet: it is to be asked again.
    Wait,
    /// There is no more.
    End,
}

/// Whatever is worth doing to the clauses of a reducer, move by move.
#[derive(Drop)]
pub(crate) struct Advisor {
    /// The moves that are decided already, the next one last.
    pub(crate) moves: Vec<Move>,
    /// How many clauses and literals may still be looked at.
    pub(crate) budget: u64,
    /// Whether a literal is one of the clause at hand, by the literal's index.
    pub(crate) marks: Vec<bool>,
    /// A set of the variables of each clause, by its index: a bit for the variables of one remainder by 32.
    pub(crate) variables: Vec<u32>,
    /// The clauses below this index have subsumed what they can.
    pub(crate) tried: usize,
    /// What the clauses of the formula themselves have to leave of the budget.
    pub(crate) share: u64,
    /// The number of the formula's clauses.
    pub(crate) first: usize,
    /// The variables of this round with the number of pairs of their clauses before them, the next one last.
    pub(crate) order: Vec<u64>,
    /// Whether a clause of a variable came or went since the variable was tried.
    pub(crate) touched: Vec<bool>,
    /// Whether a variable is to stay, by its number.
    pub(crate) frozen: Vec<bool>,
    /// How many more clauses an elimination may leave.
    pub(crate) bound: usize,
    /// Whether a variable was eliminated in this round.
    pub(crate) has_eliminated: bool,
    /// The clauses with the positive literal of the variable at hand.
    pub(crate) positive: Vec<u32>,
    /// The clauses with its negative literal.
    pub(crate) negative: Vec<u32>,
    /// The clauses that left with their variables.
    pub(crate) witness: Witness,
}

impl Advisor {
    /// An advisor over the variables from 1 to `vars` of a formula of so many clauses, which takes so many steps at most, and lets the
    /// variables stay that are `frozen`.
    pub(crate) fn new(
        alloc: Global,
        vars: u32,
        clauses: usize,
        budget: u64,
        frozen: &[bool],
    ) -> Result<Advisor, AllocError> {
        let rows = vars as usize + 1;
        Ok(Advisor {
            moves: Vec::new(alloc),
            budget,
            marks: vec![in alloc; false; 2 * rows]?,
            variables: Vec::new(alloc),
            tried: 0,
            share: budget / 2,
            first: clauses,
            order: Vec::new(alloc),
            touched: vec![in alloc; true; rows]?,
            frozen: Vec::from_slice(alloc, frozen)?,
            bound: 0,
            has_eliminated: true,
            positive: Vec::new(alloc),
            negative: Vec::new(alloc),
            witness: Witness::new(alloc),
        })
    }

    /// Hands out the clauses that left with their variables.
    pub(crate) fn into_witness(self) -> Witness {
        let Advisor { witness, .. } = self;
        witness
    }

    /// Says what to do next.
    pub(crate) fn advise(&mut self, reducer: &Reducer) -> Result<Advice, AllocError> {
        if let Some(next) = self.moves.pop() {
            return Ok(Advice::Do(next));
        }
        if self.budget == 0 {
            return Ok(Advice::End);
        }
        if self.tried < reducer.len() {
            self.try_next(reducer)?;
            return Ok(Advice::Wait);
        }
        if let Some(entry) = self.order.pop() {
            self.try_variable(reducer, (entry & 0xffff_ffff) as u32)?;
            return Ok(Advice::Wait);
        }
        if self.begin_round(reducer)? {
            Ok(Advice::Wait)
        } else {
            Ok(Advice::End)
        }
    }

    /// Decides what the next clause subsumes; nothing if the formula's own clauses have taken their share of the budget.
    fn try_next(&mut self, reducer: &Reducer) -> Result<(), AllocError> {
        for place in self.variables.len()..reducer.len() {
            self.variables.push(variables_of(reducer.clause(place)))?;
        }
        let clause = self.tried;
        if clause < self.first && self.budget < self.share {
            self.tried = self.first;
            return Ok(());
        }
        self.tried = clause.saturating_add(1);
        self.subsume_by(reducer, clause)
    }

    /// Whether each variable of a clause may be one of another, by their sets.
    pub(crate) fn may_reach(&self, clause: usize, other: usize) -> bool {
        match (self.variables.get(clause), self.variables.get(other)) {
            (Some(few), Some(more)) => *few & !*more == 0,
            _ => false,
        }
    }

    /// Takes from the budget.
    pub(crate) fn spend(&mut self, count: usize) {
        self.budget = self.budget.saturating_sub(count as u64);
    }

    /// Takes what it costs to test whether a clause of these literals is new: a look at each clause with one of them.
    pub(crate) fn spend_on_test(&mut self, reducer: &Reducer, literals: &[Lit]) {
        let clauses = reducer.count_with(literals);
        self.spend(clauses.saturating_mul(literals.len()));
    }

    /// Marks the literals of a clause, or unmarks them.
    pub(crate) fn mark(&mut self, clause: &[Lit], value: bool) {
        for literal in clause {
            if let Some(mark) = self.marks.get_mut(literal.index()) {
                *mark = value;
            }
        }
    }

    /// Whether a literal is marked.
    pub(crate) fn is_marked(&self, literal: Lit) -> bool {
        match self.marks.get(literal.index()) {
            Some(mark) => *mark,
            None => false,
        }
    }

    /// Whether a variable is to stay.
    pub(crate) fn is_frozen(&self, number: u32) -> bool {
        match self.frozen.get(number as usize) {
            Some(frozen) => *frozen,
            None => false,
        }
    }

    /// Notes that the variables of a clause are worth another try.
    pub(crate) fn touch(&mut self, clause: &[Lit]) {
        for literal in clause {
            if let Some(touched) = self.touched.get_mut(literal.var().number() as usize) {
                *touched = true;
            }
        }
    }
}

/// The set of a clause's variables.
fn variables_of(clause: &[Lit]) -> u32 {
    let mut set = 0u32;
    for literal in clause {
        set |= 1 << (literal.var().number() % 32);
    }
    set
}
