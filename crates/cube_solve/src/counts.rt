//! The counts of a search: what an observer is shown, and what stands beside its outcome.

ghost use Rattle.std.specs.Prelude.{◌≡◌, length, None};
ghost use Rattle.cube_solve.specs.declared.outcome.Outcome.TheVariants.{Refuted};

use crate::observer::{Counts, Observer};
use crate::outcome::{Outcome, Searched};
use crate::search::Search;
use packed_text::PackedText;
use watches::{Assigned, Propagator};

/// How many lemmas are learnt between two looks of an observer.
const BETWEEN_LOOKS: u64 = 1000;

/// The number of entries of a trail at level 0, which come first, since levels rise.
fn count_fixed(entries: &[Assigned]) -> u64 {
    entries.partition_point(|entry| entry.level == 0) as u64
}

/// A refutation by this text, after a search with these counts except for the text's length.
pub(crate) fn refuted_by(text: PackedText, counts: Counts) -> Searched
    ensures outcome { result.outcome ≡ Refuted text }
    ensures counts { result.counts ≡ record counts { bytes = length text } }
    ensures log { result.log ≡ None }
{
    let bytes = text.len() as u64;
    Searched {
        outcome: Outcome::Refuted(text),
        counts: Counts { bytes, ..counts },
        log: None,
    }
}

impl<P: Propagator> Search<'_, P> {
    /// The counts of the search after so many lemmas.
    pub(crate) fn counts(&self, learnt: u64) -> Counts
        ensures conflicts { result.conflicts ≡ learnt }
        ensures lemmas { result.lemmas ≡ length self.now.lemmas.items }
        ensures bytes { result.bytes ≡ length self.now.log }
    {
        let state = &self.state;
        Counts {
            conflicts: learnt,
            decisions: state.decisions,
            propagations: state.ticks,
            restarts: self.phases.restart_count(),
            reductions: self.uses.reductions(),
            phases: self.phases.phase_count(),
            lemmas: self.lemmas.len() as u64,
            fixed: count_fixed(state.trail.entries()),
            bytes: self.log.len() as u64,
        }
    }

    /// Shows an observer the counts of the search, if a look is due after so many lemmas.
    pub(crate) fn show_if_due<O: Observer>(&self, observer: &mut O, learnt: u64) {
        if learnt % BETWEEN_LOOKS == 0 {
            observer.see(&self.counts(learnt));
        }
    }
}
