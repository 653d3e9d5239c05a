//! The number of live clauses that hold each literal. They are counted at the first RAT lemma, and the counts are kept from then on; so a
//! proof without RAT lemmas has no counts.

ghost use Rattle.std.specs.Prelude.{◌≡◌, ◌≤◌, OnOk, slice_index, vec_len};
ghost use Rattle.std.specs.Bool.{OnTrue};
ghost use Rattle.dimacs.specs.logic.ClauseMap.{ClauseMap};
ghost use Rattle.dimacs.specs.logic.Literal.{index_of};
ghost use Rattle.lrat_check.specs.inner.Holders.{AreCounted};
ghost use Rattle.lrat_check.specs.inner.LiteralTable.{AllFit, CountsAll};

use crate::counts::count_live;
use crate::literal_table::grow;
use crate::store::Store;
use dimacs::Lit;
use std::alloc::{AllocError, Global};

/// The number of live clauses that hold each literal, once it has been asked for.
#[derive(Drop)]
pub(crate) struct Holders {
    /// Whether the counts are kept.
    pub(crate) counting: bool,
    /// The counts, indexed by literal. They mean something only if `counting` is true.
    pub(crate) counts: Vec<usize>,
}

impl Holders {
    /// A table without counts.
    pub(crate) fn new(alloc: Global) -> Holders
        ensures { (M : ClauseMap) → AreCounted M result }
    {
        Holders {
            counting: false,
            counts: Vec::new(alloc),
        }
    }

    /// Counts the holders of each literal over all live clauses, if this was not done before: at
    /// the first RAT lemma. `places` is the length of a table that has an entry for each literal of
    /// every live clause and for its negation.
    pub(crate) fn count_all(&mut self, store: &Store, places: usize) -> Result<(), AllocError>
        requires fits { AllFit places store.now.live }
        requires counted { AreCounted store.now.live self.old }
        ensures ok { OnOk result (CountsAll self.new.counts.items store.now.live) }
        ensures counted { AreCounted store.now.live self.new }
    {
        if self.counting {
            return Ok(());
        }
        self.counts.clear();
        grow(&mut self.counts, places, 0)?;
        count_live(store, &mut self.counts);
        self.counting = true;
        Ok(())
    }

    /// Answers the count of a literal.
    pub(crate) fn of(&self, l: Lit) -> usize
        ensures { result ≡ slice_index self.now.counts.items (index_of l) }
    {
        let place = l.index();
        if place < self.counts.len() {
            self.counts[place]
        } else {
            0
        }
    }

    /// Grows the table to at least `places` counts, if the counts are kept.
    pub(crate) fn make_places(&mut self, places: usize) -> Result<(), AllocError>
        ensures fits { OnOk result (OnTrue self.new.counting (places ≤ vec_len self.new.counts)) }
        ensures counted { (M : ClauseMap) → AreCounted M self.old → AreCounted M self.new }
    {
        if self.counting {
            grow(&mut self.counts, places, 0)?;
        }
        Ok(())
    }
}
