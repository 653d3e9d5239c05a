//! The trail: the assigned literals, in the order in which they became true.

ghost use Rattle.std.specs.Prelude.{◌≡◌, ℕ, ◌+◌, ◌-◌, ◌<◌, ◌≤◌, true, false, List, [], ◌∷◌, ◌++◌, length, All, Contains, IfOk, slice_index_or};
ghost use Rattle.dimacs.specs.logic.Literal.{Literal, IsWithin, negation};
ghost use Rattle.watches.specs.Law.{IsExplained};
ghost use Rattle.watches.specs.Trails.{TrailValue, IsTrailValue, IsTruth, holds, present};
ghost use Rattle.watches.specs.declared.trail.Assigned.{Assigned};

use crate::truth::Truth;
use dimacs::Lit;
use std::alloc::{AllocError, Global};
use std::marker::Model;

/// An entry of the trail: a literal that is true, its decision level, and its reason.
#[derive(Clone, Copy, Debug, PartialEq, Eq)]
pub struct Assigned {
    /// The literal that is true.
    pub literal: Lit,
    /// The decision level at which it became true.
    pub level: u32,
    /// The number of the clause that implied the literal; None if the literal was decided.
    pub reason: Option<u64>,
}

/// The literals that are true, in the order in which they became true, no two of one variable. Only `new` takes memory.
///
/// `values` has the truth of each literal, by `Lit::index`; `places` has the index of each variable's entry, by variable.
#[derive(Drop)]
pub struct Trail {
    vars: u32,
    entries: Vec<Assigned>,
    values: Vec<Truth>,
    places: Vec<u32>,
}

impl Model for Trail {
    ghost use Rattle.std.specs.Vec.{vec_capacity};
    ghost use Rattle.watches.specs.Trails.{TrailValue};
    ghost use Rattle.watches.specs.inner.TrailTables.{IsTrail};

    ghost Value = { TrailValue };

    ghost view = { λ t. record { vars = t.vars; entries = t.entries.items } };

    ghost invariant = { λ t. IsTrail t.vars t.entries.items t.values.items t.places.items (vec_capacity t.entries) };
}

impl Trail {
    /// An empty trail, with room for the variables from 1 to `vars`.
    pub fn new(alloc: Global, vars: u32) -> Result<Trail, AllocError>
        ensures { IfOk result (λ t. t ≡ record { vars = vars; entries = [] }) }
    {
        let rows = vars as usize;
        Ok(Trail {
            vars,
            entries: Vec::with_capacity(alloc, rows)?,
            values: vec![in alloc; Truth::Free; 2 * rows + 2]?,
            places: vec![in alloc; 0; rows + 1]?,
        })
    }

    /// The number of variables, which are those from 1 to `vars`.
    #[inline(always)]
    pub fn vars(&self) -> u32
        ensures { result ≡ self.now.vars }
    {
        self.vars
    }

    /// The number of entries, at most one of each variable.
    #[inline(always)]
    pub fn len(&self) -> usize
        ensures value { result ≡ length self.now.entries }
        ensures within { result ≤ self.now.vars }
    {
        self.entries.len()
    }

    /// The entries, in the order in which they were pushed.
    #[inline(always)]
    pub fn entries(&self) -> &[Assigned]
        ensures entries { result.now ≡ self.now.entries }
        ensures valid { IsTrailValue self.now }
    {
        &self.entries
    }

    /// Whether a literal is true, false or unassigned.
    #[inline(always)]
    pub fn value(&self, literal: Lit) -> Truth
        requires { IsWithin self.now.vars literal }
        ensures { IsTruth self.now.entries literal result }
    {
        let row = literal.index();
        self.values[row]
    }

    /// The index in `entries` of a literal that is true.
    #[inline(always)]
    pub fn place_of(&self, literal: Lit) -> usize
        requires { holds self.now.entries literal ≡ true }
        ensures within { result < length self.now.entries }
        ensures literal { (d : Assigned) → (slice_index_or self.now.entries result d).literal ≡ literal }
    {
        let place = self.places[literal.var().number() as usize];
        place as usize
    }

    /// The entry of a literal that is true.
    #[inline(always)]
    pub fn entry_of(&self, literal: Lit) -> Assigned
        requires { holds self.now.entries literal ≡ true }
        ensures member { Contains self.now.entries result }
        ensures literal { result.literal ≡ literal }
    {
        self.entries[self.place_of(literal)]
    }

    /// Pushes an entry of an unassigned literal, at a level that is no lower than those before it. It takes no memory.
    #[inline(always)]
    pub fn push(&mut self, entry: Assigned)
        requires within { IsWithin self.old.vars entry.literal }
        requires not_true { holds self.old.entries entry.literal ≡ false }
        requires not_false { holds self.old.entries (negation entry.literal) ≡ false }
        requires rising { All (λ e. e.level ≤ entry.level) self.old.entries }
        ensures vars { self.new.vars ≡ self.old.vars }
        ensures entries { self.new.entries ≡ self.old.entries ++ entry ∷ [] }
        ensures room { length self.old.entries < self.old.vars }
    {
        let literal = entry.literal;
        self.places[literal.var().number() as usize] = self.entries.len() as u32;
        self.entries.push_reserved(entry);
        self.values[literal.index()] = Truth::True;
        self.values[literal.negate().index()] = Truth::False;
    }

    /// The present decision level: that of the last entry, which is the greatest; 0 if the trail is empty.
    #[inline(always)]
    pub fn level(&self) -> u32
        ensures present { result ≡ present self.now.entries }
        ensures greatest { All (λ e. e.level ≤ result) self.now.entries }
        ensures none { length self.now.entries ≡ 0 → result ≡ 0 }
        ensures last { (d : Assigned) → 0 < length self.now.entries → result ≡ (slice_index_or self.now.entries (length self.now.entries - 1) d).level }
    {
        match self.entries.last() {
            Some(entry) => entry.level,
            None => 0,
        }
    }

    /// Changes the reason of a literal that is true to the clause of this number. It takes no memory.
    pub fn explain(&mut self, literal: Lit, number: u64)
        requires { holds self.old.entries literal ≡ true }
        ensures vars { self.new.vars ≡ self.old.vars }
        ensures entries { IsExplained self.old.entries self.new.entries literal number }
    {
        let place = self.place_of(literal);
        let entry = self.entries[place];
        self.entries[place] = Assigned {
            literal: entry.literal,
            level: entry.level,
            reason: Some(number),
        };
    }

    /// Removes exactly the entries above a level. It takes no memory.
    pub fn cut(&mut self, level: u32)
        ensures vars { self.new.vars ≡ self.old.vars }
        ensures front { (gone : List Assigned) × (self.old.entries ≡ self.new.entries ++ gone) × All (λ e. level < e.level) gone }
        ensures kept { All (λ e. e.level ≤ level) self.new.entries }
    {
        while self.level() > level {
            self.pop();
        }
    }

    /// Removes the last entry, whose literal becomes unassigned.
    fn pop(&mut self)
        requires { 0 < length self.old.entries }
        ensures vars { self.new.vars ≡ self.old.vars }
        ensures entries { (e : Assigned) × (self.old.entries ≡ self.new.entries ++ e ∷ []) }
    {
        let entry = self.entries.pop().unwrap();
        let literal = entry.literal;
        self.values[literal.index()] = Truth::Free;
        self.values[literal.negate().index()] = Truth::Free;
    }
}
