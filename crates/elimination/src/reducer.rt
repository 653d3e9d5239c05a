//! The clauses of a formula, the resolvents behind them, and the log that adds these: what may be done to them.

ghost use Rattle.std.specs.Prelude.{◌≡◌, ◌≤◌, [], false, length, slice_index_or, Contains, IfOk, MatchOption, OnOk};
ghost use Rattle.elimination.specs.inner.Indexed.{IsIndexed, clause_at};
ghost use Rattle.elimination.specs.inner.Reducing.{AddsMore, IsReductionOf, Reduces};

use crate::clauses::Clauses;
use crate::lines::Lines;
use crate::resolvent::resolve;
use dimacs::{Formula, Lit, Var};
use std::alloc::{AllocError, Global};
use std::marker::Model;

/// What may be done to the clauses. It is done only where it is right, whoever advises it.
#[derive(Drop)]
pub(crate) enum Move {
    /// Adds the resolvent of two clauses on a literal of the left one, if it is new.
    Resolve { left: usize, right: usize, on: Lit },
    /// Takes a clause out that has another one as a subset.
    Subsume { clause: usize, by: usize },
    /// Takes all clauses of a variable out.
    Eliminate(Var),
    /// Takes the clauses that are out from the list of a literal.
    Sweep(Lit),
}

/// The clauses of a formula and the resolvents behind them, with the log that adds these.
pub(crate) struct Reducer {
    /// The clauses.
    pub(crate) clauses: Clauses,
    /// The log of the resolvents.
    pub(crate) lines: Lines,
    /// The buffer of a resolvent.
    resolvent: Vec<Lit>,
}

impl Drop for Reducer {
    fn drop(self) {
        let Reducer {
            clauses: _,
            lines: _,
            resolvent: _,
        } = self;
    }
}

impl Model for Reducer {
    ghost use Rattle.elimination.specs.inner.Reducing.{Reduction};
    ghost use Rattle.elimination.specs.inner.Indexed.{IsIndexed};

    ghost Value = { Reduction };

    ghost view = { λ r. record { all = r.clauses.all; active = r.clauses.active.items; gone = r.clauses.gone.items; lines = r.lines } };

    ghost invariant = { λ r. IsIndexed r.clauses };
}

impl Reducer {
    /// The clauses of a formula, without resolvents. `None` if one of them is empty.
    pub(crate) fn new(alloc: Global, formula: &Formula) -> Result<Option<Reducer>, AllocError>
        ensures { IfOk result (λ found. MatchOption found (Contains formula.now.clauses []) (IsReductionOf formula.now)) }
    {
        let Some(clauses) = Clauses::new(alloc, formula)? else {
            return Ok(None);
        };
        Ok(Some(Reducer {
            clauses,
            lines: Lines::new(alloc),
            resolvent: Vec::new(alloc),
        }))
    }

    /// The number of clauses, resolvents and those that are out included.
    pub(crate) fn len(&self) -> usize
        ensures { result ≡ length self.now.all.clauses }
    {
        self.clauses.len()
    }

    /// The number of variables.
    pub(crate) fn vars(&self) -> u32
        ensures value { result ≡ self.now.all.vars }
        ensures limit { result ≤ 199999999 }
    {
        self.clauses.all.vars()
    }

    /// The clause of index `i`; without literals if there is none.
    pub(crate) fn clause(&self, i: usize) -> &[Lit]
        ensures { result.now ≡ clause_at self.now.all.clauses i }
    {
        if i < self.len() {
            self.clauses.clause(i)
        } else {
            &[]
        }
    }

    /// Whether there is a clause of index `i`, and a search would have it.
    pub(crate) fn is_active(&self, i: usize) -> bool
        ensures { result ≡ slice_index_or self.now.active i false }
    {
        i < self.len() && self.clauses.is_active(i)
    }

    /// Whether a variable is eliminated, or none of the formula.
    pub(crate) fn is_eliminated(&self, var: Var) -> bool {
        var.number() > self.vars() || self.clauses.is_eliminated(var)
    }

    /// The indices of clauses with a literal, all active ones among them.
    pub(crate) fn with(&self, literal: Lit) -> &[u32] {
        if literal.var().number() > self.vars() {
            return &[];
        }
        self.clauses.with(literal)
    }

    /// How many entries the lists of these literals have.
    pub(crate) fn count_with(&self, literals: &[Lit]) -> usize {
        let mut count = 0usize;
        for literal in literals {
            count = count.saturating_add(self.with(*literal).len());
        }
        count
    }

    /// Carries out a move, if it is right.
    ///
    /// It takes the reducer, since none is left if memory is refused on the way.
    pub(crate) fn carry_out(self, next: Move) -> Result<Reducer, AllocError>
        ensures { IfOk result (Reduces self) }
    {
        let mut reducer = self;
        match next {
            Move::Resolve { left, right, on } => return reducer.resolve(left, right, on),
            Move::Subsume { clause, by } => reducer.subsume(clause, by),
            Move::Eliminate(var) => reducer.eliminate(var),
            Move::Sweep(literal) => reducer.sweep(literal),
        }
        Ok(reducer)
    }

    /// Adds a resolvent as `add_resolvent` does.
    fn resolve(self, left: usize, right: usize, on: Lit) -> Result<Reducer, AllocError>
        ensures { IfOk result (Reduces self) }
    {
        let Reducer {
            mut clauses,
            mut lines,
            mut resolvent,
        } = self;
        add_resolvent(&mut clauses, &mut lines, &mut resolvent, left, right, on)?;
        Ok(Reducer {
            clauses,
            lines,
            resolvent,
        })
    }

    /// Takes a clause out that has another one as a subset.
    fn subsume(&mut self, clause: usize, by: usize)
        ensures { Reduces self.old self.new }
    {
        if clause < self.len() && by < self.len() {
            self.clauses.subsume(clause, by);
        }
    }

    /// Takes all clauses of a variable out.
    fn eliminate(&mut self, var: Var)
        ensures { Reduces self.old self.new }
    {
        if var.number() <= self.vars() {
            self.clauses.eliminate(var);
        }
    }

    /// Takes the clauses that are out from the list of a literal.
    fn sweep(&mut self, literal: Lit)
        ensures { Reduces self.old self.new }
    {
        if literal.var().number() <= self.vars() {
            self.clauses.sweep(literal);
        }
    }

    /// Hands out the clauses and the log.
    pub(crate) fn into_parts(self) -> (Clauses, Lines)
        ensures indexed { IsIndexed result.0 }
        ensures all { result.0.all ≡ self.all }
        ensures active { result.0.active.items ≡ self.active }
        ensures gone { result.0.gone.items ≡ self.gone }
        ensures lines { result.1 ≡ self.lines }
    {
        let Reducer {
            clauses,
            lines,
            resolvent: _,
        } = self;
        (clauses, lines)
    }
}

/// Adds the resolvent of two clauses on a literal behind all clauses, and its line behind the lines, if there is one, if it is new, and if
/// there is room. `buffer` is overwritten.
fn add_resolvent(
    clauses: &mut Clauses,
    lines: &mut Lines,
    buffer: &mut Vec<Lit>,
    left: usize,
    right: usize,
    on: Lit,
) -> Result<(), AllocError>
    requires { IsIndexed clauses.old }
    ensures indexed { OnOk result (IsIndexed clauses.new) }
    ensures adds { OnOk result (AddsMore clauses.old.all lines.old clauses.new.all lines.new) }
{
    let len = clauses.len();
    if left >= len || right >= len {
        return Ok(());
    }
    if !resolve(clauses.clause(left), clauses.clause(right), on, buffer)? {
        return Ok(());
    }
    if buffer.is_empty() || !clauses.is_new(buffer) {
        return Ok(());
    }
    if !clauses.add(buffer)? {
        return Ok(());
    }
    lines.add(len as u64 + 1, buffer, left as u64 + 1, right as u64 + 1)
}
