//! The decision heap: a priority queue of variables by score.

ghost use Rattle.std.specs.Prelude.{◌≡◌, ℕ, ◌+◌, ◌/◌, ◌^◌, ◌<◌, ◌≤◌, true, false, [], map, OnOk, OnErr, IfNone, IfSome};
ghost use Rattle.decide_heap.specs.Decisions.{Decisions, IsWithin, IsBest, score_of, is_in, saturating_successor, saturating_sum, with_room, with_member, with_score};

use crate::rows::Rows;
use dimacs::Var;
use std::alloc::{AllocError, Global};
use std::marker::Model;

/// A heap of variables by score. Each variable from 1 to the number of variables has a score, in the heap or out of it. Only `reserve`
/// takes memory.
#[derive(Drop)]
pub struct DecideHeap {
    /// The tables. The row of a variable is its number less 1.
    rows: Rows,
}

impl Model for DecideHeap {
    ghost use Rattle.std.specs.Prelude.{length};
    ghost use Rattle.decide_heap.specs.Decisions.{Decisions};
    ghost use Rattle.decide_heap.specs.Heap.{members_of};
    ghost use Rattle.decide_heap.specs.inner.Heap.{tables_of, IsHeap};

    ghost Value = { Decisions };

    ghost view = { λ h. record { vars = length h.rows.scores.items; scores = h.rows.scores.items; members = members_of h.rows.places.items h.rows.len } };

    ghost invariant = { λ h. IsHeap (tables_of h.rows) };
}

impl DecideHeap {
    /// A heap without variables.
    pub fn new(alloc: Global) -> DecideHeap
        ensures { result ≡ record { vars = 0; scores = []; members = [] } }
    {
        DecideHeap {
            rows: Rows::new(alloc),
        }
    }

    /// Makes room for the variables from 1 to `vars`. New ones have the score 0, and are not in the heap. If memory is refused, nothing
    /// changes.
    pub fn reserve(&mut self, vars: u32) -> Result<(), AllocError>
        requires { vars < 2 ^ 31 }
        ensures ok { OnOk result (self.new ≡ with_room self.old vars) }
        ensures err { OnErr result (self.new ≡ self.old) }
    {
        self.rows.make_room(vars as usize)?;
        self.rows.add_rows(vars as usize);
        Ok(())
    }

    /// Inserts a variable into the heap. Nothing changes if it is in the heap.
    pub fn insert(&mut self, var: Var)
        requires { IsWithin self.old var }
        ensures member { self.new ≡ with_member self.old var true }
        ensures inside { is_in self.new var ≡ true }
    {
        self.rows.insert_row(var.number() as usize - 1);
    }

    /// Whether a variable is in the heap.
    #[inline]
    pub fn is_in(&self, var: Var) -> bool
        requires { IsWithin self.now var }
        ensures { result ≡ is_in self.now var }
    {
        (self.rows.places[var.number() as usize - 1] as usize) < self.rows.len
    }

    /// The score of a variable, in the heap or out of it.
    #[inline]
    pub fn score(&self, var: Var) -> u64
        requires { IsWithin self.now var }
        ensures { result ≡ score_of self.now var }
    {
        self.rows.scores[var.number() as usize - 1]
    }

    /// Adds 1 to the score of a variable, in the heap or out of it. The score saturates at 2^64 - 1.
    pub fn bump(&mut self, var: Var)
        requires { IsWithin self.old var }
        ensures { self.new ≡ with_score self.old var (saturating_successor (score_of self.old var)) }
    {
        self.rows.raise(var.number() as usize - 1);
    }

    /// Adds `amount` to the score of a variable, in the heap or out of it. The score saturates at 2^64 - 1.
    pub fn add(&mut self, var: Var, amount: u64)
        requires { IsWithin self.old var }
        ensures { self.new ≡ with_score self.old var (saturating_sum (score_of self.old var) amount) }
    {
        self.rows.raise_by(var.number() as usize - 1, amount);
    }

    /// Halves all scores, rounding down. The time is linear in the number of variables.
    pub fn halve(&mut self)
        ensures { self.new ≡ record self.old { scores = map (λ n. n / 2) self.old.scores } }
    {
        self.rows.divide_all(2);
    }

    /// Divides all scores by `by`, rounding down (rescoring). The time is linear in the number of variables.
    pub fn divide(&mut self, by: u64)
        requires { 0 < by }
        ensures { self.new ≡ record self.old { scores = map (λ n. n / by) self.old.scores } }
    {
        self.rows.divide_all(by);
    }

    /// Removes the variable with the greatest score from the heap and returns it, of several the one with the lowest number. None if the
    /// heap is empty.
    pub fn pop_best(&mut self) -> Option<Var>
        ensures empty { IfNone result ((v : ℕ) → 0 < v → is_in self.old v ≡ false) }
        ensures none { IfNone result (self.new ≡ self.old) }
        ensures best { IfSome result (λ v. IsBest self.old v) }
        ensures rest { IfSome result (λ v. self.new ≡ with_member self.old v false) }
    {
        if self.rows.len == 0 {
            return None;
        }
        let best = self.rows.pop_first();
        Some(Var::new(best + 1))
    }
}
