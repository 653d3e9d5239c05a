//! First-UIP analysis: a walk down the trail that resolves the false clause with reasons until one literal of the present level is left,
//! and goes on through the lower levels to minimise the lemma and to list the hints.

ghost use Rattle.std.specs.Prelude.{◌≡◌, ℕ, ◌+◌, ◌/◌, ◌<◌, ◌≤◌, max, true, false, nat_eq, [], ◌∷◌, ◌++◌, Some, length, take, slice_index_or, List, Contains, All, IfOk, OnOk};
ghost use Rattle.std.specs.Bool.{OnFalse, OnTrue};
ghost use Rattle.clause_arena.specs.Clauses.{live_of};
ghost use Rattle.dimacs.specs.logic.Literal.{Literal, Clause, IsWithin, negation, var_of};
ghost use Rattle.conflict_analysis.specs.BuiltTrails.{AreBuilt, AreInside};
ghost use Rattle.conflict_analysis.specs.inner.Minimiser.{HasRoom};
ghost use Rattle.conflict_analysis.specs.inner.Seen.{met};
ghost use Rattle.conflict_analysis.specs.inner.Tallies.{HasNoted, IsFresh, IsTallied};
ghost use Rattle.conflict_analysis.specs.inner.TrailWalk.{IsKnown, AreKnown, AreMet, IsWalk, HasMet, IsUnderWay, HasEnded, IsChoice};
ghost use Rattle.watches.specs.Trails.{TrailValue, IsTrailValue, present};
ghost use Rattle.watches.specs.declared.trail.Assigned.{Assigned};

use crate::lemma::Lemma;
use crate::minimiser::Minimiser;
use crate::seen::Seen;
use clause_arena::Arena;
use dimacs::{Lit, Var};
use std::alloc::{AllocError, Global};
use watches::{Assigned, Trail};

/// The recursion limit of minimisation: the greatest number of reasons in a chain.
const MOST_REASONS: u32 = 1000;

/// The number of trail entries per block.
const BLOCK: usize = 8;

/// A walk down a trail. An entry is met if a clause of the analysis so far has its variable.
///
/// `seen` has the variables of entries that were met, and `met` lists them; `again` lists a variable once more each time that a clause of
/// the present level repeats it. `present` is the trail's present level. Of the met entries that are not passed yet, `pending` are of the
/// present level and `rest` of lower ones. `blocks` has the blocks of eight entries in which an entry was met, so that the walk skips the
/// others by one test each.
///
/// The front, a parameter of the methods, is the prefix of the trail that is not passed yet.
#[derive(Drop)]
pub(crate) struct TrailWalk {
    pub(crate) seen: Seen,
    pub(crate) present: u32,
    pub(crate) pending: usize,
    pub(crate) rest: usize,
    pub(crate) met: Vec<Var>,
    pub(crate) again: Vec<Var>,
    /// Whether repeated variables are listed in `again`: true while the clause that is read is the false one, or the reason of an entry of
    /// the present level.
    pub(crate) notes: bool,
    pub(crate) blocks: Seen,
    /// By index of the trail: the met entries. So the walk passes an entry of a marked block that was not met without reading it.
    pub(crate) places: Seen,
}

impl TrailWalk {
    /// A walk before its first conflict.
    pub(crate) fn new(alloc: Global) -> TrailWalk
        ensures met { result.met.items ≡ [] }
        ensures again { result.again.items ≡ [] }
    {
        TrailWalk {
            seen: Seen::new(alloc),
            present: 0,
            pending: 0,
            rest: 0,
            met: Vec::new(alloc),
            again: Vec::new(alloc),
            notes: true,
            blocks: Seen::new(alloc),
            places: Seen::new(alloc),
        }
    }

    /// Begins the analysis of a new conflict: the walk stands at the end of the trail, and no entry
    /// is met.
    pub(crate) fn begin(&mut self, trail: &Trail) -> Result<(), AllocError>
        requires { IsTrailValue trail.now }
        ensures walk { OnOk result (IsWalk trail.now trail.now.entries self.new) }
        ensures fresh { OnOk result (IsFresh self.new) }
    {
        self.seen.restart(trail.vars())?;
        self.blocks.restart((trail.len() / BLOCK) as u32)?;
        self.places.restart(trail.len() as u32)?;
        self.present = trail.level();
        self.pending = 0;
        self.rest = 0;
        self.met.clear();
        self.again.clear();
        self.notes = true;
        Ok(())
    }

    /// Meets the literals of the live clause of this number, which are all false except the literal of a met entry that the clause implied.
    pub(crate) fn analyse_number(
        &mut self,
        arena: &Arena,
        trail: &Trail,
        front: &[Assigned],
        number: u64,
    ) -> Result<(), AllocError>
        requires walk { IsWalk trail.now front.now self.old }
        requires inside { AreInside (live_of arena.now) trail.now.vars }
        requires live { (C : Clause) × live_of arena.now number C }
        requires known { (C : Clause) → live_of arena.now number C → AreKnown front.now (met self.old.seen) C }
        ensures walk { OnOk result (IsWalk trail.now front.now self.new) }
        ensures all { OnOk result ((C : Clause) → live_of arena.now number C → AreMet (met self.new.seen) C) }
        ensures seen { OnOk result (HasMet front.now self.old.seen self.new.seen) }
        ensures noted { OnOk result ((C : Clause) × live_of arena.now number C × HasNoted self.old self.new C) }
    {
        match arena.find(number) {
            Some(at) => self.analyse_clause(trail, front, arena.clause(at)),
            None => Ok(()),
        }
    }

    /// Meets the literals of a clause, which are all false except the literal of a met entry that the clause implied.
    fn analyse_clause(
        &mut self,
        trail: &Trail,
        front: &[Assigned],
        clause: &[Lit],
    ) -> Result<(), AllocError>
        requires walk { IsWalk trail.now front.now self.old }
        requires within { All (IsWithin trail.now.vars) clause.now }
        requires known { AreKnown front.now (met self.old.seen) clause.now }
        ensures walk { OnOk result (IsWalk trail.now front.now self.new) }
        ensures all { OnOk result (AreMet (met self.new.seen) clause.now) }
        ensures seen { OnOk result (HasMet front.now self.old.seen self.new.seen) }
        ensures noted { OnOk result (HasNoted self.old self.new clause.now) }
    {
        for &literal in clause {
            self.analyse_literal(trail, front, literal)?;
        }
        Ok(())
    }

    /// Meets a literal. If its variable was seen, it is listed as a repeated one. Else the entry
    /// that made it false counts as met: in `pending` if it is of the present level, else in
    /// `rest`.
    fn analyse_literal(
        &mut self,
        trail: &Trail,
        front: &[Assigned],
        literal: Lit,
    ) -> Result<(), AllocError>
        requires walk { IsWalk trail.now front.now self.old }
        requires within { IsWithin trail.now.vars literal }
        requires known { IsKnown front.now (met self.old.seen) literal }
        ensures walk { OnOk result (IsWalk trail.now front.now self.new) }
        ensures here { OnOk result (met self.new.seen (var_of literal) ≡ true) }
        ensures seen { OnOk result (HasMet front.now self.old.seen self.new.seen) }
        ensures noted { OnOk result (HasNoted self.old self.new (literal ∷ [])) }
    {
        let var = literal.var();
        if self.seen.has(var) {
            return self.note(var);
        }
        let negated = literal.negate();
        let place = trail.place_of(negated);
        let entry = trail.entry_of(negated);
        self.met.push(var)?;
        self.seen.insert(var);
        self.blocks.insert_at(place / BLOCK);
        self.places.insert_at(place);
        if entry.level == self.present {
            self.pending += 1;
        } else {
            self.rest += 1;
        }
        Ok(())
    }

    /// Lists a repeated variable in `again`, for a second bump, if `notes` is true: the clause is
    /// the conflict or a reason of an entry of the present level.
    #[inline(always)]
    fn note(&mut self, var: Var) -> Result<(), AllocError>
        requires { met self.old.seen var ≡ true }
        ensures walk { OnOk result ((t : TrailValue) (front : List Assigned) → IsWalk t front self.old → IsWalk t front self.new) }
        ensures seen { self.new.seen ≡ self.old.seen }
        ensures noted { OnOk result ((k : Literal) → var_of k ≡ var → HasNoted self.old self.new (k ∷ [])) }
    {
        if self.notes {
            self.again.push(var)?;
        }
        Ok(())
    }

    /// Walks down from the trail's end until no met entry is left. Appends the literals that are kept to the lemma, and the hints in
    /// reverse trail order.
    pub(crate) fn descend(
        &mut self,
        arena: &Arena,
        trail: &Trail,
        minimiser: &mut Minimiser,
        lemma: &mut Lemma,
    ) -> Result<(), AllocError>
        requires built { AreBuilt (live_of arena.now) [] trail.now.entries }
        requires inside { AreInside (live_of arena.now) trail.now.vars }
        requires room { HasRoom trail.now.vars minimiser.old }
        requires walk { IsWalk trail.now trail.now.entries self.old }
        requires waits { 0 < self.old.pending }
        requires lits { lemma.old.lits.items ≡ [] }
        requires hints { lemma.old.hints.items ≡ [] }
        requires level { lemma.old.level ≡ 0 }
        ensures ended { OnOk result (HasEnded (live_of arena.now) trail.now self.new lemma.new) }
        ensures seen { OnOk result (HasMet trail.now.entries self.old.seen self.new.seen) }
        ensures tally { OnOk result ((number : ℕ) → IsTallied (live_of arena.now) trail.now number (length trail.now.entries) self.old []
            → (place : ℕ) × IsTallied (live_of arena.now) trail.now number place self.new lemma.new.hints.items) }
    {
        let mut i = trail.len();
        while self.pending > 0 || self.rest > 0 {
            i = self.skip_blocks(i);
            i -= 1;
            self.visit_entry(arena, trail, minimiser, i, lemma)?;
        }
        Ok(())
    }

    /// Skips blocks without a met entry downwards from index `end`, if it is the end of a block. Returns the end of the next block that has
    /// a met entry, or 0; `end` itself if it is not the end of a block.
    #[inline(always)]
    fn skip_blocks(&self, end: usize) -> usize
        requires { end / 8 ≤ length self.now.blocks }
        ensures below { result ≤ end }
        ensures unmarked { (k : ℕ) → result ≤ k → k < end → met self.now.blocks (k / 8) ≡ false }
    {
        if end % BLOCK != 0 {
            return end;
        }
        let mut block = end / BLOCK;
        while block > 0 && !self.blocks.has_at(block - 1) {
            block -= 1;
        }
        block * BLOCK
    }

    /// Steps past the entry at index i. If it was met, it is resolved with its reason, which becomes a hint, or its negation is kept in the
    /// lemma.
    fn visit_entry(
        &mut self,
        arena: &Arena,
        trail: &Trail,
        minimiser: &mut Minimiser,
        i: usize,
        lemma: &mut Lemma,
    ) -> Result<(), AllocError>
        requires built { AreBuilt (live_of arena.now) [] trail.now.entries }
        requires inside { AreInside (live_of arena.now) trail.now.vars }
        requires room { HasRoom trail.now.vars minimiser.old }
        requires within { i < length trail.now.entries }
        requires way { IsUnderWay (live_of arena.now) trail.now (i + 1) self.old lemma.old }
        ensures room { HasRoom trail.now.vars minimiser.new }
        ensures way { OnOk result (IsUnderWay (live_of arena.now) trail.now i self.new lemma.new) }
        ensures seen { OnOk result (HasMet (take i trail.now.entries) self.old.seen self.new.seen) }
        ensures tally { OnOk result ((number : ℕ) → IsTallied (live_of arena.now) trail.now number (i + 1) self.old lemma.old.hints.items
            → IsTallied (live_of arena.now) trail.now number i self.new lemma.new.hints.items) }
    {
        if !self.step_past(trail, i) {
            return Ok(());
        }
        let entries = trail.entries();
        let entry = &entries[i];
        let front = &entries[..i];
        match self.reason_to_resolve(arena, trail, minimiser, entry) {
            Some(number) => {
                self.analyse_number(arena, trail, front, number)?;
                lemma.hints.push(number)?;
                Ok(())
            }
            None => lemma.keep(entry, self.present),
        }
    }

    /// Steps past the entry at index i. Returns whether it was met; if it was, it leaves the count
    /// of met entries that are still to come (`pending` or `rest`).
    fn step_past(&mut self, trail: &Trail, i: usize) -> bool
        requires within { i < length trail.now.entries }
        requires walk { IsWalk trail.now (take (i + 1) trail.now.entries) self.old }
        ensures walk { IsWalk trail.now (take i trail.now.entries) self.new }
        ensures seen { self.new.seen ≡ self.old.seen }
        ensures here { (d : Assigned) → result ≡ met self.old.seen (var_of (slice_index_or trail.now.entries i d).literal) }
        ensures lower { (d : Assigned) → ((slice_index_or trail.now.entries i d).level ≡ present trail.now.entries → ⊥) → self.new.pending ≡ self.old.pending }
        ensures again { self.new.again ≡ self.old.again }
        ensures notes { (d : Assigned) → OnTrue result (self.new.notes ≡ nat_eq (slice_index_or trail.now.entries i d).level (present trail.now.entries)) }
        ensures passed { OnFalse result (self.new.pending ≡ self.old.pending) }
    {
        if !self.places.has_at(i) {
            return false;
        }
        let entry = trail.entries()[i];
        if !self.seen.has(entry.literal.var()) {
            return false;
        }
        self.notes = entry.level == self.present;
        if self.notes {
            self.pending -= 1;
        } else {
            self.rest -= 1;
        }
        true
    }

    /// Chooses the reason with which a met entry is resolved; None if the entry is kept in the lemma. Of the present level, all entries are
    /// resolved except the last that is left, the first unique implication point. Of lower levels, those of level 0 and the removable ones
    /// are resolved.
    fn reason_to_resolve(
        &self,
        arena: &Arena,
        trail: &Trail,
        minimiser: &mut Minimiser,
        entry: &Assigned,
    ) -> Option<u64>
        requires present { self.now.present ≡ present trail.now.entries }
        requires met { trail.now.vars < length self.now.seen }
        requires inside { AreInside (live_of arena.now) trail.now.vars }
        requires room { HasRoom trail.now.vars minimiser.old }
        ensures room { HasRoom trail.now.vars minimiser.new }
        ensures choice { IsChoice trail.now.entries entry.now self.now.pending result }
    {
        if entry.level == self.present {
            return if self.pending > 0 { entry.reason } else { None };
        }
        let number = entry.reason?;
        if entry.level == 0 {
            return Some(number);
        }
        if minimiser.follows(arena, trail, &self.seen, number, MOST_REASONS) {
            Some(number)
        } else {
            None
        }
    }
}
