//! The watch lists: for each literal the clauses that it has to be looked at in when it becomes false.

use std::alloc::{AllocError, Global};

/// A bit beside the clause of a watch: it has two literals.
pub(crate) const BINARY: u32 = 1 << 31;

/// A clause in a watch list.
#[derive(Clone, Copy)]
pub(crate) struct Watch {
    /// The place of the clause, and perhaps the bit `BINARY`.
    pub(crate) clause: u32,
    /// A literal of the clause: if it is true, the clause needs no look. In a clause of two literals it is the other one.
    pub(crate) blocker: u32,
}

/// A watch list for each literal.
pub(crate) struct WatchLists {
    alloc: Global,
    lists: Vec<Vec<Watch>>,
}

impl Drop for WatchLists {
    fn drop(self) {
        let WatchLists { alloc: _, lists: _ } = self;
    }
}

impl WatchLists {
    /// Empty lists, for the literals with codes below `rows`.
    pub(crate) fn new(alloc: Global, rows: usize) -> Result<WatchLists, AllocError> {
        let mut lists = Vec::with_capacity(alloc, rows)?;
        for _ in 0..rows {
            lists.push(Vec::new(alloc))?;
        }
        Ok(WatchLists { alloc, lists })
    }

    /// Whether the list of a literal has no watch.
    #[inline(always)]
    pub(crate) fn is_empty(&self, literal: u32) -> bool {
        match self.lists.get(literal as usize) {
            Some(list) => list.is_empty(),
            None => true,
        }
    }

    /// Takes the list of a literal out, to visit it; [`put_back`](Self::put_back) ends the visit.
    #[inline(always)]
    pub(crate) fn take(&mut self, literal: u32) -> Vec<Watch> {
        let empty = Vec::new(self.alloc);
        match self.lists.get_mut(literal as usize) {
            Some(list) => std::mem::replace(list, empty),
            None => empty,
        }
    }

    /// Puts a list back that was taken out.
    #[inline(always)]
    pub(crate) fn put_back(&mut self, literal: u32, list: Vec<Watch>) {
        if let Some(place) = self.lists.get_mut(literal as usize) {
            *place = list;
        }
    }

    /// Adds a clause to the list of a literal.
    #[inline(always)]
    pub(crate) fn push(&mut self, literal: u32, watch: Watch) -> Result<(), AllocError> {
        if let Some(list) = self.lists.get_mut(literal as usize) {
            list.push(watch)?;
        }
        Ok(())
    }

    /// Adds a clause to the lists of two of its literals.
    pub(crate) fn push_both(
        &mut self,
        clause: u32,
        first: u32,
        second: u32,
    ) -> Result<(), AllocError> {
        let of_first = Watch {
            clause,
            blocker: second,
        };
        let of_second = Watch {
            clause,
            blocker: first,
        };
        self.push(first, of_first)?;
        self.push(second, of_second)
    }

    /// Empties all lists, and keeps their room.
    pub(crate) fn clear(&mut self) {
        for i in 0..self.lists.len() {
            if let Some(list) = self.lists.get_mut(i) {
                list.clear();
            }
        }
    }
}
