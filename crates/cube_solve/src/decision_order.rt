//! The decision order: VMTF queue, heap of scores, and saved values.
//!
//! The heap has the variables that may be decided: all, or those that clauses name.

ghost use Rattle.std.specs.Prelude.{◌≡◌, ◌-◌, ◌<◌, ◌≤◌, ◌^◌, false, All, IfOk, IfSome, IfNone};
ghost use Rattle.std.specs.Bool.{OnFalse, OnTrue};
ghost use Rattle.decide_heap.specs.Decisions.{is_in};
ghost use Rattle.dimacs.specs.logic.Literal.{Literal, Neg, IsWithin, var_of};
ghost use Rattle.cube_solve.specs.inner.DecisionOrder.{AreAllIn, AreInserted, ArePutBack, HasNoFree, HasSameMembers, HasVariables, KeepsFree, KeepsFreeBut};
ghost use Rattle.cube_solve.specs.inner.Steps.{IsUnassigned};

use crate::random::Random;
use crate::saved_phases::{Rephase, SavedPhases};
use crate::vmtf_queue::VmtfQueue;
use decide_heap::DecideHeap;
use dimacs::{Base, Lit, Var};
use std::alloc::{AllocError, Global};
use std::marker::Model;
use watches::{Trail, Truth};

/// The first bump of a score. With each lemma the bump grows, so that late bumps count more.
const FIRST_BUMP: u64 = 1 << 10;

/// The bump grows by itself divided by this number, and 1.
const GROWTH: u64 = 20;

/// The same in a flat formula, whose conflicts tell less of where the next ones are.
const FLAT_GROWTH: u64 = 200;

/// If the bump is above this number, it and all scores are divided by `SCALE` (rescoring).
const GREATEST_BUMP: u64 = 1 << 50;

/// The divisor of a rescoring.
const SCALE: u64 = 1 << 40;

/// The order of decisions: by scores in stable phases and in focused phases of a flat formula (`Modes::is_flat`), else by the last bump
/// (VMTF). Each unassigned variable of a clause is in the heap, so that the heap decides if the queue finds no variable.
pub(crate) struct Order {
    /// The unassigned variables of the clauses, and perhaps others, by score.
    heap: DecideHeap,
    /// The amount that a bump adds to a score.
    bump: u64,
    /// All variables, by the time of their last bump.
    queue: VmtfQueue,
    /// The value to try first for each variable.
    values: SavedPhases,
    /// Whether the mode is stable; else it is focused.
    is_stable: bool,
    /// Whether the formula is flat, so that scores decide in both modes.
    is_flat: bool,
}

/// Which variables may be decided at first.
#[derive(Clone, Copy)]
pub(crate) enum Waiting {
    /// All.
    All,
    /// Those that a clause names.
    Named,
}

impl Drop for Order {
    fn drop(self) {
        let Order {
            heap: _,
            bump: _,
            queue: _,
            values: _,
            is_stable: _,
            is_flat: _,
        } = self;
    }
}

impl Model for Order {
    ghost use Rattle.decide_heap.specs.Decisions.{Decisions};

    ghost Value = { Decisions };

    ghost view = { λ o. o.heap };
}

/// Inserts the variables from 1 to `vars` into the heap.
fn fill(heap: &mut DecideHeap, vars: u32)
    requires vars { heap.old.vars ≡ vars }
    requires limit { vars < 2 ^ 31 }
    ensures { AreAllIn vars heap.new }
{
    for number in 1..vars + 1 {
        heap.insert(Var::new(number));
    }
}

/// Inserts the variables of a clause into the heap.
fn insert_all(heap: &mut DecideHeap, clause: &[Lit])
    requires { All (IsWithin heap.old.vars) clause.now }
    ensures { AreInserted clause.now heap.old heap.new }
{
    for literal in clause {
        heap.insert(literal.var());
    }
}

/// Inserts the variables of a base's clauses into the heap.
fn insert_named(heap: &mut DecideHeap, base: &Base)
    requires { heap.old.vars ≡ base.now.vars }
    ensures vars { heap.new.vars ≡ base.now.vars }
    ensures named { HasVariables base.now.clauses heap.new }
{
    for i in 0..base.len() {
        insert_all(heap, base.clause(i));
    }
}

/// Inserts the variables that may be decided at first: all of the base, or those of its clauses.
fn insert_first(heap: &mut DecideHeap, base: &Base, waiting: Waiting)
    requires { heap.old.vars ≡ base.now.vars }
    ensures vars { heap.new.vars ≡ base.now.vars }
    ensures named { HasVariables base.now.clauses heap.new }
{
    match waiting {
        Waiting::All => fill(heap, base.vars()),
        Waiting::Named => insert_named(heap, base),
    }
}

/// Pops variables from the heap, the best first, until one is unassigned; None if the heap has no unassigned variable.
fn pop_unassigned(heap: &mut DecideHeap, trail: &Trail) -> Option<Var>
    requires { heap.old.vars ≡ trail.now.vars }
    ensures free { IfSome result (λ v. IsUnassigned trail.now (Neg v)) }
    ensures but { IfSome result (λ v. KeepsFreeBut trail.now (Neg v) heap.old heap.new) }
    ensures kept { IfNone result (KeepsFree trail.now heap.old heap.new) }
    ensures none { IfNone result (HasNoFree trail.now heap.old) }
{
    'taking: loop {
        match heap.pop_best() {
            Some(var) => match trail.value(Lit::negative(var)) {
                Truth::Free => return Some(var),
                Truth::True => {}
                Truth::False => {}
            },
            None => return None,
        }
    }
}

/// Whether a variable is unassigned and in the heap.
fn is_free_in(heap: &DecideHeap, trail: &Trail, var: Var) -> bool
    requires vars { heap.now.vars ≡ trail.now.vars }
    requires within { IsWithin trail.now.vars (Neg var) }
    ensures yes { OnTrue result (IsUnassigned trail.now (Neg var)) }
    ensures no { OnFalse result ((l : Literal) → IsUnassigned trail.now l → var_of l ≡ var → is_in heap.now var ≡ false) }
{
    match trail.value(Lit::negative(var)) {
        Truth::Free => heap.is_in(var),
        Truth::True => false,
        Truth::False => false,
    }
}

/// Finds an unassigned variable of the heap, and leaves it there; None if there is none.
fn find_free(heap: &DecideHeap, trail: &Trail) -> Option<Var>
    requires vars { heap.now.vars ≡ trail.now.vars }
    requires limit { trail.now.vars < 2 ^ 31 }
    ensures free { IfSome result (λ v. IsUnassigned trail.now (Neg v)) }
    ensures none { IfNone result (HasNoFree trail.now heap.now) }
{
    for number in 1..trail.vars() + 1 {
        let var = Var::new(number);
        if is_free_in(heap, trail, var) {
            return Some(var);
        }
    }
    None
}

/// Inserts the variables of the trail's entries above a level into the heap again, moves the cursor of the queue, and saves their values.
fn put_back(
    heap: &mut DecideHeap,
    queue: &mut VmtfQueue,
    values: &mut SavedPhases,
    trail: &Trail,
    level: u32,
)
    requires { heap.old.vars ≡ trail.now.vars }
    ensures { ArePutBack trail.now level heap.old heap.new }
{
    let entries = trail.entries();
    let mut i = entries.len();
    'putting: while i > 0 {
        let entry = entries[i - 1];
        if entry.level <= level {
            return;
        }
        let var = entry.literal.var();
        heap.insert(var);
        queue.free(var);
        values.keep(entry.literal);
        i -= 1;
    }
}

/// Adds an amount to the score of each of these variables, once for each of its occurrences.
fn bump_all(heap: &mut DecideHeap, vars: &[Var], amount: u64)
    requires { All (λ v. (0 < v) × (v ≤ heap.old.vars)) vars.now }
    ensures { HasSameMembers heap.old heap.new }
{
    for &var in vars {
        heap.add(var, amount);
    }
}

/// Adds a random number below the first bump to the score of each variable from 1 to `vars`, so that what was not bumped yet is in a
/// random order.
fn draw_scores(heap: &mut DecideHeap, vars: u32, random: &mut Random)
    requires vars { heap.old.vars ≡ vars }
    requires limit { vars < 2 ^ 31 }
    ensures { HasSameMembers heap.old heap.new }
{
    for number in 1..vars + 1 {
        heap.add(Var::new(number), random.next() % FIRST_BUMP);
    }
}

impl Order {
    /// An order of a base's variables, of which those that wait may be decided. Each saved value is false, and the first mode is focused.
    pub(crate) fn new(alloc: Global, base: &Base, waiting: Waiting) -> Result<Order, AllocError>
        ensures vars { IfOk result (λ d. d.vars ≡ base.now.vars) }
        ensures named { IfOk result (HasVariables base.now.clauses) }
    {
        let vars = base.vars();
        let mut heap = DecideHeap::new(alloc);
        heap.reserve(vars)?;
        insert_first(&mut heap, base, waiting);
        Ok(Order {
            heap,
            bump: FIRST_BUMP,
            queue: VmtfQueue::new(alloc, vars)?,
            values: SavedPhases::new(alloc, vars)?,
            is_stable: false,
            is_flat: false,
        })
    }

    /// Whether the heap decides and is bumped, instead of the queue.
    fn goes_by_scores(&self) -> bool {
        self.is_stable || self.is_flat
    }

    /// Finds the last bumped unassigned variable of the queue; None if the heap decides, or if the queue finds none.
    fn find_queued(&mut self, trail: &Trail) -> Option<Var>
        requires { self.old.vars ≡ trail.now.vars }
        ensures free { IfSome result (λ v. IsUnassigned trail.now (Neg v)) }
        ensures same { self.new ≡ self.old }
    {
        if self.goes_by_scores() {
            return None;
        }
        self.queue.find(trail, &self.heap)
    }

    /// Takes an unassigned variable of the heap: the best, which is popped, if scores decide, else any. None if there is none.
    fn next_in_heap(&mut self, trail: &Trail) -> Option<Var>
        requires vars { self.old.vars ≡ trail.now.vars }
        requires limit { trail.now.vars < 2 ^ 31 }
        ensures free { IfSome result (λ v. IsUnassigned trail.now (Neg v)) }
        ensures but { IfSome result (λ v. KeepsFreeBut trail.now (Neg v) self.old self.new) }
        ensures kept { IfNone result (KeepsFree trail.now self.old self.new) }
        ensures none { IfNone result (HasNoFree trail.now self.old) }
    {
        if self.goes_by_scores() {
            return pop_unassigned(&mut self.heap, trail);
        }
        find_free(&self.heap, trail)
    }

    /// Takes the next unassigned variable: the heap's best, which is popped, if scores decide; else the queue's, or any of the heap. None if
    /// the heap has none: as long as the queue decides, that is not found by popping all of it.
    fn next_variable(&mut self, trail: &Trail) -> Option<Var>
        requires vars { self.old.vars ≡ trail.now.vars }
        requires limit { trail.now.vars < 2 ^ 31 }
        ensures free { IfSome result (λ v. IsUnassigned trail.now (Neg v)) }
        ensures but { IfSome result (λ v. KeepsFreeBut trail.now (Neg v) self.old self.new) }
        ensures kept { IfNone result (KeepsFree trail.now self.old self.new) }
        ensures none { IfNone result (HasNoFree trail.now self.old) }
    {
        match self.find_queued(trail) {
            Some(var) => Some(var),
            None => self.next_in_heap(trail),
        }
    }

    /// Takes the next decision: an unassigned variable, with the value to try first; None if none waits.
    pub(crate) fn next_decision(&mut self, trail: &Trail) -> Option<Lit>
        requires vars { self.old.vars ≡ trail.now.vars }
        requires limit { trail.now.vars < 2 ^ 31 }
        ensures free { IfSome result (IsUnassigned trail.now) }
        ensures but { IfSome result (λ l. KeepsFreeBut trail.now l self.old self.new) }
        ensures kept { IfNone result (KeepsFree trail.now self.old self.new) }
        ensures none { IfNone result (HasNoFree trail.now self.old) }
    {
        match self.next_variable(trail) {
            Some(var) => {
                if self.values.of(var, self.is_stable) {
                    Some(Lit::positive(var))
                } else {
                    Some(Lit::negative(var))
                }
            }
            None => None,
        }
    }

    /// Inserts the variables of the trail's entries above a level again, and saves their values. It is called before `undo`.
    pub(crate) fn put_back(&mut self, trail: &Trail, level: u32)
        requires { self.old.vars ≡ trail.now.vars }
        ensures { ArePutBack trail.now level self.old self.new }
    {
        put_back(
            &mut self.heap,
            &mut self.queue,
            &mut self.values,
            trail,
            level,
        );
    }

    /// Lets the variables of a clause be decided from now on.
    pub(crate) fn insert(&mut self, clause: &[Lit])
        requires { All (IsWithin self.old.vars) clause.now }
        ensures { AreInserted clause.now self.old self.new }
    {
        insert_all(&mut self.heap, clause);
        self.queue.free_all(clause);
    }

    /// Bumps the variables `met` of an analysis: their scores if the heap decides, else their times in the queue. A score is bumped once
    /// more for each occurrence in `again`.
    pub(crate) fn bump(&mut self, met: &[Var], again: &[Var]) -> Result<(), AllocError>
        requires met { All (λ v. (0 < v) × (v ≤ self.old.vars)) met.now }
        requires again { All (λ v. (0 < v) × (v ≤ self.old.vars)) again.now }
        ensures { HasSameMembers self.old self.new }
    {
        if !self.goes_by_scores() {
            return self.queue.bump(met);
        }
        bump_all(&mut self.heap, met, self.bump);
        bump_all(&mut self.heap, again, self.bump);
        self.raise_bump();
        Ok(())
    }

    /// Raises the next bump by its share, and 1. If it is above `GREATEST_BUMP` then, divides it and all scores by `SCALE`.
    fn raise_bump(&mut self)
        ensures { HasSameMembers self.old self.new }
    {
        let more = if self.is_flat {
            self.bump / FLAT_GROWTH
        } else {
            self.bump / GROWTH
        };
        self.bump = self.bump.saturating_add(more).saturating_add(1);
        if self.bump > GREATEST_BUMP {
            self.bump /= SCALE;
            self.heap.divide(SCALE);
        }
    }

    /// Updates the target and best values if the trail without its conflict level is the longest so
    /// far.
    pub(crate) fn note(&mut self, trail: &Trail)
        ensures { self.new ≡ self.old }
    {
        self.values.note(trail);
    }

    /// Copies the saved values of another search when a session moves to more variables, so that
    /// the new search first tries the values that the old one had.
    pub(crate) fn take_over(&mut self, other: &Order, trail: &Trail)
        ensures { self.new ≡ self.old }
    {
        self.values.take_over(&other.values, trail);
    }

    /// Switches between focused and stable mode; `is_flat` says whether the heap decides in both.
    /// The queue's search begins at its latest variable again.
    pub(crate) fn switch_mode(&mut self, is_flat: bool)
        ensures { self.new ≡ self.old }
    {
        self.is_stable = !self.is_stable;
        self.is_flat = is_flat;
        self.queue.rewind();
    }

    /// Sets the saved values as the rephasing says.
    pub(crate) fn rephase(&mut self, kind: Rephase)
        ensures { self.new ≡ self.old }
    {
        self.values.rephase(kind);
    }
    /// Puts the variables, from 1 to `vars`, into an order by a seed, and sets their values by it. If memory is refused, nothing has changed.
    pub(crate) fn diversify(&mut self, vars: u32, seed: u64) -> Result<(), AllocError>
        requires vars { self.old.vars ≡ vars }
        requires limit { vars < 2 ^ 31 }
        ensures { HasSameMembers self.old self.new }
    {
        let mut random = Random::of(seed);
        self.queue.shuffle(&mut random)?;
        self.values.draw(&mut random);
        draw_scores(&mut self.heap, vars, &mut random);
        Ok(())
    }
}
