//! Unit propagation, by watched literals, over the clauses before a step.

use crate::arena::{Arena, DELETED, NEEDED, TAUTOLOGY};
use crate::assignment::{Assignment, FALSE, FREE, TRUE};
use crate::watch_lists::{BINARY, Watch, WatchLists};
use std::alloc::{AllocError, Global};

/// Clauses with fewer literals are searched for a watch from the beginning.
const SHORT: usize = 6;

/// The end of a visit of a watch list.
#[derive(Clone, Copy)]
enum Visit {
    /// The list was visited to its end.
    Whole,
    /// A literal became true; the next watch of the list has this index.
    Unit(usize),
    /// All literals of this clause are false.
    Conflict(u32),
}

/// What a look at a clause gave.
#[derive(Clone, Copy)]
enum Look {
    /// The watch leaves its list.
    Leaves,
    /// The watch stays: this literal of the clause is true.
    True(u32),
    /// The watch stays: this literal of the clause became true, since all others are false.
    Unit(u32),
    /// The watch stays: all literals of the clause are false.
    Conflict,
}

/// Clauses with their watch lists, and an assignment.
///
/// In the replay, clauses come and go forwards. After it they come back backwards, and propagation looks at the clauses first that are
/// known to be needed (`core`).
pub(crate) struct Propagator {
    pub(crate) arena: Arena,
    pub(crate) assignment: Assignment,
    /// The watches of clauses that are known to be needed.
    core: WatchLists,
    /// All other watches, and those that clauses had before they became needed: of these, the ones of clauses of two literals stay, and the
    /// others leave when they are met.
    rest: WatchLists,
    /// Only clauses with places below this one are there.
    pub(crate) limit: u32,
    /// Whether the steps are replayed forwards.
    is_replay: bool,
    /// The number of literals of the trail that are propagated.
    head: usize,
}

impl Drop for Propagator {
    fn drop(self) {
        let Propagator {
            arena: _,
            assignment: _,
            core: _,
            rest: _,
            limit: _,
            is_replay: _,
            head: _,
        } = self;
    }
}

/// A number as 32 bits; the greatest such number if it has more.
fn narrowed(number: usize) -> u32 {
    if number < 1 << 32 {
        number as u32
    } else {
        u32::MAX
    }
}

/// Writes the blocker of the watch of index i.
#[inline(always)]
fn set_blocker(list: &mut [Watch], i: usize, blocker: u32) {
    if let Some(watch) = list.get_mut(i) {
        watch.blocker = blocker;
    }
}

/// The index of a literal from `from` on, or else from 2 on, that is not false; the number of literals if there is none.
#[inline(always)]
fn other_watch(assignment: &Assignment, literals: &[u32], from: usize) -> usize {
    for i in from..literals.len() {
        if assignment.value(literals[i]) != FALSE {
            return i;
        }
    }
    for i in 2..from.min(literals.len()) {
        if assignment.value(literals[i]) != FALSE {
            return i;
        }
    }
    literals.len()
}

impl Propagator {
    /// A propagator of these clauses, with variables below `rows`, of which none is watched.
    pub(crate) fn new(alloc: Global, arena: Arena, rows: u32) -> Result<Propagator, AllocError> {
        let codes = 2 * rows as usize;
        Ok(Propagator {
            arena,
            assignment: Assignment::new(alloc, rows)?,
            core: WatchLists::new(alloc, codes)?,
            rest: WatchLists::new(alloc, codes)?,
            limit: u32::MAX,
            is_replay: true,
            head: 0,
        })
    }

    /// Ends the replay: no clause is watched any more.
    pub(crate) fn end_replay(&mut self) {
        self.rest.clear();
        self.is_replay = false;
    }

    /// Takes the clauses out; all else is given back.
    pub(crate) fn into_arena(self) -> Arena {
        let Propagator {
            arena,
            assignment: _,
            core: _,
            rest: _,
            limit: _,
            is_replay: _,
            head: _,
        } = self;
        arena
    }

    /// Watches another literal of a clause in place of the false one, if there is one that is not false.
    #[inline(always)]
    fn move_watch(
        &mut self,
        clause: u32,
        falsified: u32,
        other: u32,
        in_core: bool,
    ) -> Result<bool, AllocError> {
        let literals = self.arena.literals(clause);
        let len = literals.len();
        let from = if len >= SHORT {
            (self.arena.index(clause) as usize).max(2)
        } else {
            2
        };
        let found = other_watch(&self.assignment, literals, from);
        if found >= len {
            return Ok(false);
        }
        let literal = literals[found];
        if len >= SHORT {
            self.arena.set_index(clause, narrowed(found));
        }
        self.arena.set_literal(clause, 0, other);
        self.arena.set_literal(clause, 1, literal);
        self.arena.set_literal(clause, found, falsified);
        let watch = Watch {
            clause,
            blocker: other,
        };
        if in_core {
            self.core.push(literal, watch)?;
        } else {
            self.rest.push(literal, watch)?;
        }
        Ok(true)
    }

    /// Looks at a clause of three or more literals, in the list of a literal that is false.
    #[inline(always)]
    fn look_at_clause(
        &mut self,
        clause: u32,
        falsified: u32,
        in_core: bool,
    ) -> Result<Look, AllocError> {
        let leaving = if self.is_replay {
            DELETED
        } else if in_core {
            0
        } else {
            NEEDED
        };
        if self.arena.has(clause, leaving) {
            return Ok(Look::Leaves);
        }
        let other = self.arena.literal(clause, 0) ^ self.arena.literal(clause, 1) ^ falsified;
        let value = self.assignment.value(other);
        if value == TRUE {
            return Ok(Look::True(other));
        }
        if self.move_watch(clause, falsified, other, in_core)? {
            return Ok(Look::Leaves);
        }
        if value == FALSE {
            return Ok(Look::Conflict);
        }
        self.assignment.assign(other, clause);
        Ok(Look::Unit(other))
    }

    /// Looks at a clause of two literals, of which the other one is not true.
    #[inline(always)]
    fn look_at_binary(&mut self, clause: u32, other: u32) -> Look {
        if self.assignment.value(other) == FALSE {
            return Look::Conflict;
        }
        self.assignment.assign(other, clause);
        Look::Unit(other)
    }

    /// Visits a list of a literal that is false, from the watch of index `from` on. In a list of clauses that are not known to be needed it
    /// stops behind the first literal that becomes true.
    #[inline(always)]
    fn visit(
        &mut self,
        list: &mut Vec<Watch>,
        falsified: u32,
        from: usize,
        in_core: bool,
    ) -> Result<Visit, AllocError> {
        let stops = !in_core && !self.is_replay;
        let mut i = from;
        // Each turn passes a watch, or takes it out.
        for _ in from..list.len() {
            let Some(&watch) = list.get(i) else {
                return Ok(Visit::Whole);
            };
            let clause = watch.clause & !BINARY;
            let is_there = clause < self.limit;
            if is_there && self.assignment.value(watch.blocker) == TRUE {
                i = i.wrapping_add(1);
                continue;
            }
            let look = if !is_there {
                Look::Leaves
            } else if watch.clause & BINARY != 0 {
                self.look_at_binary(clause, watch.blocker)
            } else {
                self.look_at_clause(clause, falsified, in_core)?
            };
            match look {
                Look::Leaves => {
                    if i < list.len() {
                        list.swap_remove(i);
                    }
                }
                Look::True(blocker) => {
                    set_blocker(list, i, blocker);
                    i = i.wrapping_add(1);
                }
                Look::Unit(blocker) => {
                    set_blocker(list, i, blocker);
                    i = i.wrapping_add(1);
                    if stops {
                        return Ok(Visit::Unit(i));
                    }
                }
                Look::Conflict => return Ok(Visit::Conflict(clause)),
            }
        }
        Ok(Visit::Whole)
    }

    /// Visits the list of needed clauses of a literal that is false.
    #[inline(always)]
    fn visit_core(&mut self, falsified: u32) -> Result<Visit, AllocError> {
        if self.core.is_empty(falsified) {
            return Ok(Visit::Whole);
        }
        let mut list = self.core.take(falsified);
        let visit = self.visit(&mut list, falsified, 0, true)?;
        self.core.put_back(falsified, list);
        Ok(visit)
    }

    /// Visits the list of the other clauses of a literal that is false, from an index on.
    #[inline(always)]
    fn visit_rest(&mut self, falsified: u32, from: usize) -> Result<Visit, AllocError> {
        if self.rest.is_empty(falsified) {
            return Ok(Visit::Whole);
        }
        let mut list = self.rest.take(falsified);
        let visit = self.visit(&mut list, falsified, from, false)?;
        self.rest.put_back(falsified, list);
        Ok(visit)
    }

    /// Propagates the literals of the trail from the first one that is not propagated. Returns a clause that is false, or 0 if there is
    /// none. All needed clauses are looked at before any other one.
    pub(crate) fn propagate(&mut self) -> Result<u32, AllocError> {
        let mut core_head = if self.is_replay {
            usize::MAX
        } else {
            self.head
        };
        let mut from = 0;
        for _ in 0..u64::MAX {
            if core_head < self.assignment.len() {
                let falsified = self.assignment.at(core_head) ^ 1;
                core_head += 1;
                if let Visit::Conflict(clause) = self.visit_core(falsified)? {
                    return Ok(clause);
                }
            } else if self.head < self.assignment.len() {
                let falsified = self.assignment.at(self.head) ^ 1;
                match self.visit_rest(falsified, from)? {
                    Visit::Conflict(clause) => return Ok(clause),
                    Visit::Unit(next) => from = next,
                    Visit::Whole => {
                        self.head = self.head.wrapping_add(1);
                        from = 0;
                    }
                }
            } else {
                return Ok(0);
            }
        }
        Ok(0)
    }

    /// Cuts the trail to its first `len` literals.
    pub(crate) fn undo(&mut self, len: usize) {
        self.assignment.cut(len);
        self.head = self.head.min(len);
    }

    /// Lets propagation begin anew at this index of the trail.
    pub(crate) fn propagate_from(&mut self, head: usize) {
        self.head = head;
    }

    /// Makes the trail the root's.
    pub(crate) fn settle(&mut self) {
        self.assignment.settle();
        self.head = self.assignment.root();
    }

    /// Exchanges the literal of index i of a clause with the best one for a watch behind it. Returns how well that one serves.
    fn best_to(&mut self, clause: u32, i: usize) -> usize {
        let mut best = i;
        let mut rank = self.assignment.rank(self.arena.literal(clause, i));
        for j in i..self.arena.len(clause) {
            if rank == usize::MAX {
                break;
            }
            let other = self.assignment.rank(self.arena.literal(clause, j));
            if other > rank {
                rank = other;
                best = j;
            }
        }
        self.arena.swap(clause, i, best);
        rank
    }

    /// The place of a clause as watches have it: with the bit `BINARY` if it has two literals, except in the replay.
    fn watched_place(&self, clause: u32) -> u32 {
        if !self.is_replay && self.arena.len(clause) == 2 {
            clause | BINARY
        } else {
            clause
        }
    }

    /// Watches the two first literals of a clause of two or more.
    fn watch(&mut self, clause: u32) -> Result<(), AllocError> {
        // The link of the table of clauses is not used any more: where a search for a watch begins.
        if !self.is_replay {
            self.arena.set_index(clause, 2);
        }
        let place = self.watched_place(clause);
        let (first, second) = (self.arena.literal(clause, 0), self.arena.literal(clause, 1));
        self.rest.push_both(place, first, second)
    }

    /// Makes a clause needed, which is watched: from now on it is looked at before those that are not. How long that takes does not depend
    /// on the lists.
    pub(crate) fn need(&mut self, clause: u32) -> Result<(), AllocError> {
        self.arena.raise(clause, NEEDED);
        if self.arena.has(clause, TAUTOLOGY) || self.arena.len(clause) < 2 {
            return Ok(());
        }
        let place = self.watched_place(clause);
        let (first, second) = (self.arena.literal(clause, 0), self.arena.literal(clause, 1));
        self.core.push_both(place, first, second)
    }

    /// Watches a clause, whose best two literals become the first ones. A tautology is watched nowhere.
    pub(crate) fn attach(&mut self, clause: u32) -> Result<(), AllocError> {
        if self.arena.has(clause, TAUTOLOGY) || self.arena.len(clause) < 2 {
            return Ok(());
        }
        self.best_to(clause, 0);
        self.best_to(clause, 1);
        self.watch(clause)
    }

    /// Adds a clause in the replay, and propagates at the root. Returns a clause that is false, or 0 if there is none.
    pub(crate) fn add(&mut self, clause: u32) -> Result<u32, AllocError> {
        if self.arena.has(clause, TAUTOLOGY) {
            return Ok(0);
        }
        let len = self.arena.len(clause);
        if len == 0 || self.best_to(clause, 0) != usize::MAX {
            return Ok(clause);
        }
        let second = if len > 1 { self.best_to(clause, 1) } else { 0 };
        if len > 1 {
            self.watch(clause)?;
        }
        let first = self.arena.literal(clause, 0);
        if second == usize::MAX || self.assignment.value(first) != FREE {
            return Ok(0);
        }
        self.assignment.assign(first, clause);
        let conflict = self.propagate()?;
        if conflict == 0 {
            self.settle();
        }
        Ok(conflict)
    }

    /// Whether a clause has one literal that is true, and all others are false.
    pub(crate) fn is_unit(&self, clause: u32) -> bool {
        let mut satisfied = false;
        for &literal in self.arena.literals(clause) {
            match self.assignment.value(literal) {
                TRUE if satisfied => return false,
                TRUE => satisfied = true,
                FALSE => {}
                _ => return false,
            }
        }
        satisfied
    }
}
