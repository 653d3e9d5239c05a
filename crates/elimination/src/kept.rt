//! What is kept of a formula when variables are eliminated.

ghost use Rattle.std.specs.Prelude.{◌≡◌, [], ◌∷◌, ◌++◌, length, Some, IfOk, IfSome, IsTrue};
ghost use Rattle.std.specs.Bool.{OnTrue};
ghost use Rattle.dimacs.specs.logic.Cnf.{Cnf};
ghost use Rattle.elimination.specs.Kept.{AreApart, IsLeftOf};
ghost use Rattle.elimination.specs.inner.Reducing.{ArePicked, IsReductionOf};

use crate::advisor::{Advice, Advisor};
use crate::clauses::count_literals;
use crate::reducer::Reducer;
use crate::witness::Witness;
use dimacs::{Builder, Formula, Lit};
use packed_text::PackedText;
use std::alloc::{AllocError, Global};

/// Some clauses of a formula and of the resolvents behind them, for a search.
#[derive(Drop)]
pub struct Kept {
    /// The clauses that are kept, as a formula over the same variables.
    pub formula: Formula,
    /// Their numbers among all clauses, in ascending order.
    pub numbers: Vec<u64>,
    /// Whether a variable is eliminated, by its number; one more for 0.
    pub eliminated: Vec<bool>,
    /// How many clauses there are in all: the formula's, and the resolvents behind them.
    pub all: u64,
    /// The lines that add the resolvents.
    pub lines: PackedText,
    /// What an assignment needs to satisfy the clauses that are not kept.
    pub witness: Witness,
}

/// The most literals of a formula whose variables are eliminated.
const MOST_LITERALS: u64 = 20_000_000;

/// The greatest number of variables of a formula.
const MOST_VARS_KEPT: u32 = 99_999_999;

/// The greatest number of clauses of a formula.
const MOST_CLAUSES_KEPT: usize = 99_999_999;

/// The greatest number of literals of a formula.
const MOST_LITERALS_KEPT: usize = 999_999_999;

/// How many literals are looked at for each one of the formula.
const EFFORT: u64 = 150;

/// How many literals are looked at in a formula however small.
const LEAST_EFFORT: u64 = 20_000_000;

/// The most moves of an elimination, more than any budget buys.
const MOVES: u64 = 1 << 40;

/// Eliminates variables of a formula, but none that is `frozen`, a truth value for each variable by its number; those past its end are not.
/// `None` if the formula is too large, has an empty clause, or one that repeats a literal: what such a clause is a subset of is not soon
/// found out.
pub fn eliminate(
    alloc: Global,
    formula: &Formula,
    frozen: &[bool],
) -> Result<Option<Kept>, AllocError>
    ensures left { IfOk result (λ found. IfSome found (IsLeftOf formula.now)) }
    ensures frozen { IfOk result (λ found. IfSome found (λ k. AreApart frozen.now k.eliminated.items)) }
{
    let literals = count_literals(formula.as_base());
    if literals > MOST_LITERALS || repeats_literal(alloc, formula)? {
        return Ok(None);
    }
    let Some(mut reducer) = Reducer::new(alloc, formula)? else {
        return Ok(None);
    };
    let budget = LEAST_EFFORT + EFFORT * literals;
    let mut advisor = Advisor::new(alloc, formula.vars(), formula.len(), budget, frozen)?;
    for _ in 0..MOVES {
        match advisor.advise(&reducer)? {
            Advice::Do(next) => reducer = reducer.carry_out(next)?,
            Advice::Wait => {}
            Advice::End => break,
        }
    }
    let found = kept_of(alloc, reducer, advisor.into_witness())?;
    Ok(unless_frozen(found, frozen))
}

/// Whether no variable has both truth values, by their number.
fn are_apart(frozen: &[bool], eliminated: &[bool]) -> bool
    ensures { OnTrue result (AreApart frozen.now eliminated.now) }
{
    for i in 0..frozen.len() {
        if frozen[i] && i < eliminated.len() && eliminated[i] {
            return false;
        }
    }
    true
}

/// What was found, except if a frozen variable is eliminated: the choice of variables is advice, so this is tested.
fn unless_frozen(found: Option<Kept>, frozen: &[bool]) -> Option<Kept>
    ensures same { IfSome result (λ k. found ≡ Some k) }
    ensures frozen { IfSome result (λ k. AreApart frozen.now k.eliminated.items) }
{
    let Some(kept) = found else {
        return None;
    };
    if !are_apart(frozen, &kept.eliminated) {
        return None;
    }
    Some(kept)
}

/// Whether a clause of a formula repeats a literal.
fn repeats_literal(alloc: Global, formula: &Formula) -> Result<bool, AllocError> {
    let mut last = vec![in alloc; 0u32; 2 * formula.vars() as usize + 2]?; // the last clause with a literal, from 1
    for i in 0..formula.len() {
        for literal in formula.clause(i) {
            if let Some(place) = last.get_mut(literal.index()) {
                if *place == i as u32 + 1 {
                    return Ok(true);
                }
                *place = i as u32 + 1;
            }
        }
    }
    Ok(false)
}

/// Appends a clause to a builder whose open one is empty. Answers false if there is no room.
fn append_clause(builder: &mut Builder, clause: &[Lit]) -> Result<bool, AllocError>
    requires { builder.old.open_clause ≡ [] }
    ensures { IfOk result (λ fits. IsTrue fits → (builder.new.done ≡ builder.old.done ++ clause.now ∷ []) × (builder.new.open_clause ≡ [])) }
{
    let literals = builder.literals().saturating_add(clause.len());
    if literals > MOST_LITERALS_KEPT || builder.len() >= MOST_CLAUSES_KEPT {
        return Ok(false);
    }
    for literal in clause {
        builder.push(*literal)?;
    }
    builder.end_clause()?;
    Ok(true)
}

/// Appends the active clauses to a new builder, and answers their numbers. `None` if there is no room.
fn pick(
    alloc: Global,
    reducer: &Reducer,
    builder: &mut Builder,
) -> Result<Option<Vec<u64>>, AllocError>
    requires done { builder.old.done ≡ [] }
    requires closed { builder.old.open_clause ≡ [] }
    ensures { IfOk result (λ found. IfSome found (λ numbers.
        ArePicked reducer.now.all.clauses reducer.now.active (length reducer.now.all.clauses) numbers.items builder.new.done × (builder.new.open_clause ≡ []))) }
{
    let mut numbers = Vec::new(alloc);
    for i in 0..reducer.len() {
        if reducer.is_active(i) {
            if !append_clause(builder, reducer.clause(i))? {
                return Ok(None);
            }
            numbers.push(i as u64 + 1)?;
        }
    }
    Ok(Some(numbers))
}

/// Hands out what the reducer has left. `None` if it has no room as a formula.
fn kept_of(alloc: Global, reducer: Reducer, witness: Witness) -> Result<Option<Kept>, AllocError>
    ensures { (F : Cnf) → IsReductionOf F reducer → IfOk result (λ found. IfSome found (IsLeftOf F)) }
{
    let vars = reducer.vars();
    if vars > MOST_VARS_KEPT {
        return Ok(None);
    }
    let mut builder = Builder::new(alloc)?;
    let Some(numbers) = pick(alloc, &reducer, &mut builder)? else {
        return Ok(None);
    };
    let all = reducer.len() as u64;
    let (clauses, lines) = reducer.into_parts();
    let formula = builder.finish(vars)?;
    Ok(Some(Kept {
        formula,
        numbers,
        eliminated: clauses.into_eliminated(),
        all,
        lines: lines.into_text(),
        witness,
    }))
}
