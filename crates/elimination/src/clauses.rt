//! A formula's clauses and those that are added behind them, with lists of the clauses that have a literal.

ghost use Rattle.std.specs.Prelude.{◌≡◌, ◌≢◌, ◌↔◌, ℕ, ◌+◌, ◌*◌, ◌<◌, ◌≤◌, true, false, [], ◌∷◌, ◌++◌, ◌⊎◌, length, filter, slice_index_or, slice_set, All, Contains, IfOk, IsTrue, MatchBool, MatchOption, OnOk, if◌then◌else◌};
ghost use Rattle.dimacs.specs.logic.ClauseMap.{map_of, live_in};
ghost use Rattle.dimacs.specs.logic.Cnf.{literal_count};
ghost use Rattle.dimacs.specs.logic.Literal.{Literal, Clause, IsWithin, var_of, index_of};
ghost use Rattle.lrat_text.specs.Log.{IsNew};
ghost use Rattle.elimination.specs.Kept.{IsSubset, HasEliminated};
ghost use Rattle.elimination.specs.inner.Indexed.{clause_at, is_subset, IsActive, lists_in, list_at, HasActiveSubset, AreListsWith, IsListOf, AreRetired, IsIndexed, IsStoreOf, IsAdded};

use dimacs::{Base, Formula, Lit, Var, has_literal};
use std::alloc::{AllocError, Global};

/// The greatest number of clauses of a base.
const MOST_CLAUSES: usize = 200000190;

/// The greatest number of literals in all clauses of a base.
const MOST_LITERALS: u64 = 1100000446;

/// The clauses of an elimination: those of a formula, and resolvents behind them.
///
/// No clause is ever taken out of `all`, so that its number in a log stays. A clause that a search does not need is no longer active.
pub(crate) struct Clauses {
    /// The formula's clauses, and those that were added behind them.
    pub(crate) all: Base,
    /// The number of literals of all clauses.
    literals: u64,
    /// Whether a search would have the clause, by its index, from 0.
    active: Vec<bool>,
    /// The indices of the clauses that have a literal, by the literal's index; some may be inactive.
    occurs: Vec<Vec<u32>>,
    /// Whether a variable is eliminated, by its number; one more for 0.
    gone: Vec<bool>,
}

impl Drop for Clauses {
    fn drop(self) {
        let Clauses {
            all: _,
            literals: _,
            active: _,
            occurs: _,
            gone: _,
        } = self;
    }
}

/// Answers whether each literal of the clause `small` is one of `large`.
fn is_subset(small: &[Lit], large: &[Lit]) -> bool
    ensures { result ≡ is_subset small.now large.now }
{
    small.iter().all(|l| has_literal(large, *l))
}

/// Answers the number of literals of all clauses.
pub(crate) fn count_literals(all: &Base) -> u64
    ensures { result ≡ literal_count all.now.clauses }
{
    let mut count = 0;
    for i in 0..all.len() {
        count += all.clause(i).len() as u64;
    }
    count
}

/// Makes empty lists, as many as `count` says.
fn empty_lists(alloc: Global, count: usize) -> Result<Vec<Vec<u32>>, AllocError>
    ensures len { IfOk result (λ v. length v.items ≡ count) }
    ensures empty { IfOk result (λ v. All (λ list. list.items ≡ []) v.items) }
{
    let mut lists = Vec::with_capacity(alloc, count)?;
    for _ in 0..count {
        lists.push(Vec::new(alloc))?;
    }
    Ok(lists)
}

/// Puts the index of a clause into the list of each of its literals.
fn list_clause(occurs: &mut Vec<Vec<u32>>, clause: &[Lit], i: u32) -> Result<(), AllocError>
    requires { All (λ l. index_of l < length occurs.old.items) clause.now }
    ensures { OnOk result (AreListsWith (lists_in occurs.old.items) (lists_in occurs.new.items) clause.now i) }
{
    for l in clause {
        occurs[l.index()].push(i)?;
    }
    Ok(())
}

/// Makes the lists of these clauses. `None` if one of them is empty.
fn list_all(alloc: Global, all: &Base) -> Result<Option<Vec<Vec<u32>>>, AllocError>
    ensures { IfOk result (λ found. MatchOption found
        (Contains all.now.clauses [])
        (λ v. IsListOf all.now (lists_in v.items))) }
{
    let mut occurs = empty_lists(alloc, 2 * all.vars() as usize + 2)?;
    for i in 0..all.len() {
        let clause = all.clause(i);
        if clause.is_empty() {
            return Ok(None);
        }
        list_clause(&mut occurs, clause, i as u32)?;
    }
    Ok(Some(occurs))
}

/// Takes the indices of inactive clauses out of a list.
fn sweep_list(list: &mut Vec<u32>, active: &[bool])
    requires { All (λ i. i < length active.now) list.old.items }
    ensures { list.new.items ≡ filter (λ i. slice_index_or active.now i false) list.old.items }
{
    let mut kept = 0;
    for i in 0..list.len() {
        let clause = list[i];
        if active[clause as usize] {
            list[kept] = clause;
            kept += 1;
        }
    }
    list.truncate(kept);
}

/// Makes the clauses of a list inactive.
fn retire(active: &mut Vec<bool>, list: &[u32])
    requires { All (λ i. i < length active.old.items) list.now }
    ensures { AreRetired active.old.items active.new.items list.now }
{
    for i in list {
        active[*i as usize] = false;
    }
}

impl Clauses {
    /// Makes the store of a formula's clauses, each of which is active. `None` if one of them is empty.
    pub(crate) fn new(alloc: Global, formula: &Formula) -> Result<Option<Clauses>, AllocError>
        ensures { IfOk result (λ found. MatchOption found (Contains formula.now.clauses []) (IsStoreOf formula.now)) }
    {
        let all = Base::of(alloc, formula)?;
        let Some(occurs) = list_all(alloc, &all)? else {
            return Ok(None);
        };
        let literals = count_literals(&all);
        let active = vec![in alloc; true; all.len()]?;
        let gone = vec![in alloc; false; all.vars() as usize + 1]?;
        Ok(Some(Clauses {
            all,
            literals,
            active,
            occurs,
            gone,
        }))
    }

    /// Answers the number of clauses, active or not.
    pub(crate) fn len(&self) -> usize
        ensures { result ≡ length self.now.all.clauses }
    {
        self.all.len()
    }

    /// Lends the clause of index `i`, from 0.
    pub(crate) fn clause(&self, i: usize) -> &[Lit]
        requires { i < length self.now.all.clauses }
        ensures clause { result.now ≡ slice_index_or self.now.all.clauses i [] }
        ensures within { All (IsWithin self.now.all.vars) result.now }
    {
        self.all.clause(i)
    }

    /// Answers whether the clause of index `i` is active.
    pub(crate) fn is_active(&self, i: usize) -> bool
        requires indexed { IsIndexed self.now }
        requires within { i < length self.now.all.clauses }
        ensures { result ≡ slice_index_or self.now.active.items i false }
    {
        self.active[i]
    }

    /// Answers whether a variable is eliminated.
    pub(crate) fn is_eliminated(&self, var: Var) -> bool
        requires indexed { IsIndexed self.now }
        requires within { var ≤ self.now.all.vars }
        ensures { result ≡ slice_index_or self.now.gone.items var false }
    {
        self.gone[var.number() as usize]
    }

    /// Lends the list of a literal: the indices of clauses that have it, with those of all active ones.
    pub(crate) fn with(&self, literal: Lit) -> &[u32]
        requires indexed { IsIndexed self.now }
        requires within { IsWithin self.now.all.vars literal }
        ensures list { result.now ≡ list_at (lists_in self.now.occurs.items) literal }
        ensures held { All (λ i. (i < length self.now.all.clauses) × Contains (clause_at self.now.all.clauses i) literal) result.now }
    {
        &self.occurs[literal.index()]
    }

    /// Takes inactive clauses out of the list of a literal.
    pub(crate) fn sweep(&mut self, literal: Lit)
        requires indexed { IsIndexed self.old }
        requires within { IsWithin self.old.all.vars literal }
        ensures indexed { IsIndexed self.new }
        ensures all { self.new.all ≡ self.old.all }
        ensures active { self.new.active ≡ self.old.active }
        ensures gone { self.new.gone ≡ self.old.gone }
        ensures swept { list_at (lists_in self.new.occurs.items) literal
            ≡ filter (λ i. slice_index_or self.old.active.items i false) (list_at (lists_in self.old.occurs.items) literal) }
        ensures others { (l : Literal) → l ≢ literal → list_at (lists_in self.new.occurs.items) l ≡ list_at (lists_in self.old.occurs.items) l }
    {
        sweep_list(&mut self.occurs[literal.index()], &self.active);
    }

    /// Answers whether an active clause in the list of a literal is a subset of `lits`.
    fn has_subset(&self, literal: Lit, lits: &[Lit]) -> bool
        requires indexed { IsIndexed self.now }
        requires within { IsWithin self.now.all.vars literal }
        ensures { MatchBool result
            (HasActiveSubset self.now.all.clauses self.now.active.items lits.now)
            ((i : ℕ) → Contains (list_at (lists_in self.now.occurs.items) literal) i → IsActive self.now.active.items i
            → IsSubset (clause_at self.now.all.clauses i) lits.now → ⊥) }
    {
        for i in self.with(literal) {
            let i = *i as usize;
            if self.active[i] && is_subset(self.all.clause(i), lits) {
                return true;
            }
        }
        false
    }

    /// Answers whether the clause has no eliminated variable, and no clause, active or not, is a subset of it.
    ///
    /// It looks through the lists of the clause's literals alone: an active subset stands there, and an inactive one has an eliminated
    /// variable, or an active subset.
    pub(crate) fn is_new(&self, lits: &[Lit]) -> bool
        requires indexed { IsIndexed self.now }
        requires within { All (IsWithin self.now.all.vars) lits.now }
        ensures { MatchBool result
            (¬ (HasEliminated self.now.gone.items lits.now) × IsNew (live_in (map_of self.now.all)) lits.now)
            (HasEliminated self.now.gone.items lits.now ⊎ ((C : Clause) × Contains self.now.all.clauses C × IsSubset C lits.now)) }
    {
        for l in lits {
            if self.is_eliminated(l.var()) || self.has_subset(*l, lits) {
                return false;
            }
        }
        true
    }

    /// Appends a clause, which is active. `false` if a base has no room for it: then nothing changes.
    pub(crate) fn add(&mut self, lits: &[Lit]) -> Result<bool, AllocError>
        requires indexed { IsIndexed self.old }
        requires some { lits.now ≢ [] }
        requires within { All (IsWithin self.old.all.vars) lits.now }
        requires free { ¬ (HasEliminated self.old.gone.items lits.now) }
        ensures added { IfOk result (λ added. MatchBool added (IsAdded self.old self.new lits.now) (self.new ≡ self.old)) }
        ensures room { IfOk result (λ added. IsTrue added
            ↔ (length self.old.all.clauses < 200000190) × (literal_count self.old.all.clauses + length lits.now ≤ 1100000446)) }
    {
        let i = self.all.len();
        if i >= MOST_CLAUSES || lits.len() as u64 > MOST_LITERALS - self.literals {
            return Ok(false);
        }
        list_clause(&mut self.occurs, lits, i as u32)?;
        self.active.push(true)?;
        self.all.push_clause(lits)?;
        self.literals += lits.len() as u64;
        Ok(true)
    }

    /// Makes the clause of index `i` inactive if another active clause, that of index `by`, is a subset of it. Answers whether it did.
    pub(crate) fn subsume(&mut self, i: usize, by: usize) -> bool
        requires indexed { IsIndexed self.old }
        requires within { i < length self.old.all.clauses }
        requires by_within { by < length self.old.all.clauses }
        ensures indexed { IsIndexed self.new }
        ensures all { self.new.all ≡ self.old.all }
        ensures occurs { self.new.occurs ≡ self.old.occurs }
        ensures gone { self.new.gone ≡ self.old.gone }
        ensures active { self.new.active.items ≡ (if result then slice_set self.old.active.items i false else self.old.active.items) }
        ensures tells { IsTrue result ↔ (i ≢ by) × IsActive self.old.active.items i × IsActive self.old.active.items by
            × IsSubset (clause_at self.old.all.clauses by) (clause_at self.old.all.clauses i) }
    {
        if i == by || !self.active[i] || !self.active[by] {
            return false;
        }
        if !is_subset(self.all.clause(by), self.all.clause(i)) {
            return false;
        }
        self.active[i] = false;
        true
    }

    /// Makes each active clause with the variable inactive, and notes that the variable is eliminated.
    pub(crate) fn eliminate(&mut self, var: Var)
        requires indexed { IsIndexed self.old }
        requires within { var ≤ self.old.all.vars }
        ensures indexed { IsIndexed self.new }
        ensures all { self.new.all ≡ self.old.all }
        ensures occurs { self.new.occurs ≡ self.old.occurs }
        ensures gone { self.new.gone.items ≡ slice_set self.old.gone.items var true }
        ensures active { (i : ℕ) → IsActive self.new.active.items i
            ↔ IsActive self.old.active.items i × ((l : Literal) → Contains (clause_at self.old.all.clauses i) l → var_of l ≢ var) }
    {
        self.gone[var.number() as usize] = true;
        retire(&mut self.active, &self.occurs[Lit::positive(var).index()]);
        retire(&mut self.active, &self.occurs[Lit::negative(var).index()]);
    }
}

impl Clauses {
    /// Hands out which variables are eliminated, by their numbers.
    pub(crate) fn into_eliminated(self) -> Vec<bool>
        ensures { result.items ≡ self.gone.items }
    {
        let Clauses {
            all: _,
            literals: _,
            active: _,
            occurs: _,
            gone,
        } = self;
        gone
    }
}
