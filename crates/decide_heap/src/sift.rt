//! Sifting up and down in the heap. The variable that is sifted is taken out and leaves a hole. The hole moves along the path, as each
//! variable on it moves by one index, and the sifted variable is written once, into the hole where it ends.

ghost use Rattle.std.specs.Prelude.{◌≡◌, ℕ, ◌+◌, ◌^◌, ◌<◌, ◌≤◌, length, slice_index, MatchBool};
ghost use Rattle.decide_heap.specs.Decisions.{IsNoWorse};
ghost use Rattle.decide_heap.specs.inner.Heap.{tables_of, filled, AreRows, AreMoved, AreSwapped, IsOrderedFrom, IsOver, IsRisingAt};

use crate::rows::Rows;

impl Rows {
    /// Whether row `left` has to be decided before row `right`: it has a greater score, or the same score and a lower number.
    #[inline]
    fn is_better(&self, left: u32, right: u32) -> bool
        requires left { left < length self.now.scores.items }
        requires right { right < length self.now.scores.items }
        ensures { let score = slice_index self.now.scores.items in
            MatchBool result (IsNoWorse score left right) (IsNoWorse score right left) }
    {
        let a = self.scores[left as usize];
        let b = self.scores[right as usize];
        a > b || (a == b && left < right)
    }

    /// The index of the child with the better variable; `left` is the index of the left child, and its right sibling counts only if it is
    /// in the heap.
    #[inline]
    fn better_child(&self, left: usize) -> usize
        requires within { left < self.now.len }
        requires size { self.now.len ≤ length self.now.heap.items }
        requires limit { self.now.len < 2 ^ 31 }
        requires variables { (k : ℕ) → left ≤ k → k < self.now.len → slice_index self.now.heap.items k < length self.now.scores.items }
        ensures low { left ≤ result }
        ensures high { result ≤ left + 1 }
        ensures within { result < self.now.len }
        ensures best { (k : ℕ) → left ≤ k → k ≤ left + 1 → k < self.now.len → IsOver self.now.scores.items self.now.heap.items result k }
    {
        let right = left + 1;
        if right < self.len && self.is_better(self.heap[right], self.heap[left]) {
            right
        } else {
            left
        }
    }

    /// Moves the hole at index `start` up until row `var` fits in it. Returns the index of the hole.
    fn rise(&mut self, var: u32, start: usize) -> usize
        requires within { start < self.old.len }
        requires variable { var < length self.old.heap.items }
        requires rows { AreRows (filled (tables_of self.old) start var) }
        ensures within { result ≤ start }
        ensures moved { AreMoved (tables_of self.old) (tables_of self.new) }
        ensures rows { AreRows (filled (tables_of self.new) result var) }
        ensures ordered { IsRisingAt (filled (tables_of self.old) start var) start →
            IsOrderedFrom (filled (tables_of self.new) result var) 0 }
        ensures beyond { (k : ℕ) → start < k →
            slice_index (filled (tables_of self.new) result var).heap k ≡ slice_index (filled (tables_of self.old) start var).heap k }
    {
        let mut at = start;
        while at > 0 {
            let above = (at - 1) / 2;
            let other = self.heap[above];
            if self.is_better(other, var) {
                return at;
            }
            self.heap[at] = other;
            self.places[other as usize] = at as u32;
            at = above;
        }
        at
    }

    /// Moves the hole at index `start` down until row `var` fits in it. Returns the index of the hole.
    fn sink(&mut self, var: u32, start: usize) -> usize
        requires within { start < length self.old.heap.items }
        requires variable { var < length self.old.heap.items }
        requires rows { AreRows (filled (tables_of self.old) start var) }
        requires ordered { IsOrderedFrom (filled (tables_of self.old) start var) (start + 1) }
        ensures within { result < length self.new.heap.items }
        ensures moved { AreMoved (tables_of self.old) (tables_of self.new) }
        ensures rows { AreRows (filled (tables_of self.new) result var) }
        ensures ordered { IsOrderedFrom (filled (tables_of self.new) result var) start }
        ensures beyond { (k : ℕ) → self.old.len ≤ k →
            slice_index (filled (tables_of self.new) result var).heap k ≡ slice_index (filled (tables_of self.old) start var).heap k }
    {
        let mut at = start;
        while 2 * at + 1 < self.len {
            let child = self.better_child(2 * at + 1);
            let other = self.heap[child];
            if self.is_better(var, other) {
                return at;
            }
            self.heap[at] = other;
            self.places[other as usize] = at as u32;
            at = child;
        }
        at
    }

    /// Sifts the row at index `start` of the heap up. What is after `start` is unchanged.
    pub fn sift_up(&mut self, start: usize)
        requires within { start < self.old.len }
        requires rows { AreRows (tables_of self.old) }
        ensures moved { AreMoved (tables_of self.old) (tables_of self.new) }
        ensures rows { AreRows (tables_of self.new) }
        ensures ordered { IsRisingAt (tables_of self.old) start → IsOrderedFrom (tables_of self.new) 0 }
        ensures beyond { (k : ℕ) → start < k → slice_index self.new.heap.items k ≡ slice_index self.old.heap.items k }
    {
        let var = self.heap[start];
        let at = self.rise(var, start);
        self.heap[at] = var;
        self.places[var as usize] = at as u32;
    }

    /// Sifts the row at index `start` down, among those that are in the heap.
    pub fn sift_down(&mut self, start: usize)
        requires within { start < length self.old.heap.items }
        requires rows { AreRows (tables_of self.old) }
        requires ordered { IsOrderedFrom (tables_of self.old) (start + 1) }
        ensures moved { AreMoved (tables_of self.old) (tables_of self.new) }
        ensures rows { AreRows (tables_of self.new) }
        ensures ordered { IsOrderedFrom (tables_of self.new) start }
        ensures beyond { (k : ℕ) → self.old.len ≤ k → slice_index self.new.heap.items k ≡ slice_index self.old.heap.items k }
    {
        let var = self.heap[start];
        let at = self.sink(var, start);
        self.heap[at] = var;
        self.places[var as usize] = at as u32;
    }

    /// Restores the heap order from any order: sifts down from the last index with a child to the first (Floyd's construction, linear).
    pub fn heapify(&mut self)
        requires { AreRows (tables_of self.old) }
        ensures moved { AreMoved (tables_of self.old) (tables_of self.new) }
        ensures rows { AreRows (tables_of self.new) }
        ensures ordered { IsOrderedFrom (tables_of self.new) 0 }
        ensures beyond { (k : ℕ) → self.old.len ≤ k → slice_index self.new.heap.items k ≡ slice_index self.old.heap.items k }
    {
        let mut at = self.len / 2;
        while at > 0 {
            at -= 1;
            self.sift_down(at);
        }
    }

    /// Exchanges the rows at the indices i and j of `heap`.
    pub fn exchange(&mut self, i: usize, j: usize)
        requires first { i < length self.old.heap.items }
        requires second { j < length self.old.heap.items }
        requires rows { AreRows (tables_of self.old) }
        ensures moved { AreMoved (tables_of self.old) (tables_of self.new) }
        ensures rows { AreRows (tables_of self.new) }
        ensures swapped { AreSwapped self.old.heap.items self.new.heap.items i j }
    {
        let a = self.heap[i];
        let b = self.heap[j];
        self.heap[i] = b;
        self.heap[j] = a;
        self.places[b as usize] = i as u32;
        self.places[a as usize] = j as u32;
    }
}
