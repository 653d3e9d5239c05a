//! Updates of the heap: insert, pop, and changes of scores.

ghost use Rattle.std.specs.Prelude.{◌≡◌, ◌/◌, ◌<◌, ◌≤◌, true, false, length, map, slice_index, slice_index_or, slice_set};
ghost use Rattle.decide_heap.specs.Decisions.{saturating_successor, saturating_sum};
ghost use Rattle.decide_heap.specs.inner.Heap.{tables_of, decisions_of, IsHeap};

use crate::rows::Rows;

/// Adds 1 to a score, saturating at 2^64 - 1.
#[inline]
fn next_score(score: u64) -> u64
    ensures { result ≡ saturating_successor score }
{
    if score < u64::MAX { score + 1 } else { score }
}

/// Divides each score by `by`, rounding down.
fn divide_each(scores: &mut [u64], by: u64)
    requires { 0 < by }
    ensures { scores.new ≡ map (λ n. n / by) scores.old }
{
    for score in scores.iter_mut() {
        *score /= by;
    }
}

impl Rows {
    /// Inserts a row as the last of the heap and sifts it up. Nothing changes if it is in the heap.
    pub fn insert_row(&mut self, row: usize)
        requires heap { IsHeap (tables_of self.old) }
        requires within { row < length self.old.scores.items }
        ensures heap { IsHeap (tables_of self.new) }
        ensures member { let old = decisions_of (tables_of self.old) in
            decisions_of (tables_of self.new) ≡ record old { members = slice_set old.members row true } }
        ensures inside { slice_index_or (decisions_of (tables_of self.new)).members row false ≡ true }
    {
        let at = self.places[row] as usize;
        let last = self.len;
        if at < last {
            return;
        }
        self.exchange(at, last);
        self.len += 1;
        self.sift_up(last);
    }

    /// Removes the first row from the heap and returns it: exchanges it with the last of the heap, which is sifted down.
    pub fn pop_first(&mut self) -> u32
        requires heap { IsHeap (tables_of self.old) }
        requires some { 0 < self.old.len }
        ensures heap { IsHeap (tables_of self.new) }
        ensures first { result ≡ slice_index self.old.heap.items 0 }
        ensures member { let old = decisions_of (tables_of self.old) in
            decisions_of (tables_of self.new) ≡ record old { members = slice_set old.members result false } }
    {
        let first = self.heap[0];
        let last = self.len - 1;
        self.exchange(0, last);
        self.len = last;
        self.sift_down(0);
        first
    }

    /// Sets the score of a row, which is no lower than the old one. Sifts the row up if it is in the heap.
    fn set_score(&mut self, row: usize, score: u64)
        requires heap { IsHeap (tables_of self.old) }
        requires within { row < length self.old.scores.items }
        requires risen { slice_index self.old.scores.items row ≤ score }
        ensures heap { IsHeap (tables_of self.new) }
        ensures score { let old = decisions_of (tables_of self.old) in
            decisions_of (tables_of self.new) ≡ record old { scores = slice_set old.scores row score } }
    {
        self.scores[row] = score;
        let at = self.places[row] as usize;
        if at < self.len {
            self.sift_up(at);
        }
    }

    /// Adds 1 to the score of a row, saturating at 2^64 - 1. Sifts the row up if it is in the heap.
    pub fn raise(&mut self, row: usize)
        requires heap { IsHeap (tables_of self.old) }
        requires within { row < length self.old.scores.items }
        ensures heap { IsHeap (tables_of self.new) }
        ensures score { let old = decisions_of (tables_of self.old) in
            decisions_of (tables_of self.new) ≡ record old { scores = slice_set old.scores row (saturating_successor (slice_index old.scores row)) } }
    {
        let score = next_score(self.scores[row]);
        self.set_score(row, score);
    }

    /// Adds `amount` to the score of a row, saturating at 2^64 - 1. Sifts the row up if it is in the heap.
    pub fn raise_by(&mut self, row: usize, amount: u64)
        requires heap { IsHeap (tables_of self.old) }
        requires within { row < length self.old.scores.items }
        ensures heap { IsHeap (tables_of self.new) }
        ensures score { let old = decisions_of (tables_of self.old) in
            decisions_of (tables_of self.new) ≡ record old { scores = slice_set old.scores row (saturating_sum (slice_index old.scores row) amount) } }
    {
        let score = self.scores[row].saturating_add(amount);
        self.set_score(row, score);
    }

    /// Divides all scores by `by`, rounding down. Different scores may become equal, and then the lower variable has to come first, so the
    /// heap order is restored.
    pub fn divide_all(&mut self, by: u64)
        requires divisor { 0 < by }
        requires heap { IsHeap (tables_of self.old) }
        ensures heap { IsHeap (tables_of self.new) }
        ensures scores { let old = decisions_of (tables_of self.old) in
            decisions_of (tables_of self.new) ≡ record old { scores = map (λ n. n / by) old.scores } }
    {
        divide_each(&mut self.scores, by);
        self.heapify();
    }
}
