//! The tables of a heap, and their growth by rows for more variables.

ghost use Rattle.std.specs.Prelude.{◌≡◌, ◌^◌, ◌<◌, [], OnOk};
ghost use Rattle.decide_heap.specs.Decisions.{with_room};
ghost use Rattle.decide_heap.specs.inner.Heap.{tables_of, decisions_of, AreRows, IsHeap, HaveRoom};

use std::alloc::{AllocError, Global};

/// The tables of a heap, with a row for each variable; the row of a variable is its number less 1. `heap` is a permutation of the rows: the
/// first `len` are a binary heap of the variables that are in, and those that are out follow. `places` is its inverse: the index of each
/// row in `heap`. `scores` has the score of each row.
#[derive(Drop)]
pub struct Rows {
    pub heap: Vec<u32>,
    pub places: Vec<u32>,
    pub scores: Vec<u64>,
    pub len: usize,
}

impl Rows {
    /// Tables without rows.
    pub fn new(alloc: Global) -> Rows
        ensures { tables_of result ≡ record { heap = []; places = []; scores = []; len = 0 } }
    {
        Rows {
            heap: Vec::new(alloc),
            places: Vec::new(alloc),
            scores: Vec::new(alloc),
            len: 0,
        }
    }

    /// Reserves memory for `vars` rows in all. The tables are unchanged.
    pub fn make_room(&mut self, vars: usize) -> Result<(), AllocError>
        requires { AreRows (tables_of self.old) }
        ensures same { tables_of self.new ≡ tables_of self.old }
        ensures room { OnOk result (HaveRoom self.new vars) }
    {
        let more = vars.saturating_sub(self.scores.len());
        self.heap.reserve(more)?;
        self.places.reserve(more)?;
        self.scores.reserve(more)?;
        Ok(())
    }

    /// Appends rows until there are `vars`. Each new variable is out of the heap, after the others, and has the score 0.
    pub fn add_rows(&mut self, vars: usize)
        requires limit { vars < 2 ^ 31 }
        requires heap { IsHeap (tables_of self.old) }
        requires room { HaveRoom self.old vars }
        ensures heap { IsHeap (tables_of self.new) }
        ensures added { decisions_of (tables_of self.new) ≡ with_room (decisions_of (tables_of self.old)) vars }
    {
        for row in self.scores.len()..vars {
            self.heap.push_reserved(row as u32);
            self.places.push_reserved(row as u32);
            self.scores.push_reserved(0);
        }
    }
}
