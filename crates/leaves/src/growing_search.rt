//! `refute --grow` of a block of leaves: the searches of `refute` of a block, whose log grows in its file leaf by leaf.

ghost use Rattle.std.specs.Prelude.{◌≡◌, ◌<◌, ◌≤◌, ℕ, [], None, length, IfErr, IfOk, OnErr, OnOk, if◌then◌else◌};
ghost use Rattle.cube_solve.specs.Session.{IsReady, vars_of};
ghost use Rattle.dimacs.specs.text.Answer.{satisfied_lines};
ghost use Rattle.leaves.specs.Leaf.{Prints, no_leaf_text};
ghost use Rattle.leaves.specs.LeafSearch.{Hands, shown};
ghost use Rattle.leaves.specs.GrowingLog.{Grows, GrowsOver, IsLeftGrown, IsNotKept};
ghost use Rattle.leaves.specs.inner.GrowingSearch.{GrowsOn, IsGrowing};

use crate::block_search::{BlockSearch, satisfied};
use crate::growing_log::GrowingLog;
use crate::leaf::NO_LEAF;
use crate::leaf_search::SearchOptions;
use crate::split::Split;
use dimacs::Assignment;
use reports::{Refusal, Report};
use std::alloc::Global;
use watches::{Propagator, Watched};

/// Leaves that follow each other in a tree.
#[derive(Clone, Copy, Debug, PartialEq, Eq)]
pub struct LeafSpan {
    /// The number of the first leaf, from 1.
    pub first: u64,
    /// The number of the last leaf.
    pub last: u64,
}

impl<P: Propagator> BlockSearch<'_, P> {
    /// Searches under the leaf of this number, from 1, and keeps its part of the log. Answers the assignment that the search finds; None if
    /// the leaf is closed, or the search reaches its limit.
    fn grow_leaf<G: GrowingLog>(
        &mut self,
        alloc: Global,
        split: &Split,
        leaf: u64,
        search: &SearchOptions,
        kept: &mut G,
    ) -> Result<Option<Assignment>, Refusal>
        requires ready { IsReady P.is_ready P.attached self.old.searches.session }
        requires vars { vars_of self.old.searches.session ≡ split.now.formula.vars }
        requires low { 0 < leaf }
        requires high { leaf ≤ length split.now.tree }
        ensures ready { OnOk result (IsReady P.is_ready P.attached self.new.searches.session) }
        ensures vars { OnOk result (vars_of self.new.searches.session ≡ split.now.formula.vars) }
        ensures grows { (first : ℕ) → IsGrowing (G.stood kept.old) split.now.formula split.now.tree first leaf search.now self.old → IfOk result (GrowsOn (G.stood kept.new) split.now.formula split.now.tree first leaf search.now self.old self.new) }
        ensures left { (first : ℕ) → IsGrowing (G.stood kept.old) split.now.formula split.now.tree first leaf search.now self.old → OnErr result (IsLeftGrown (G.stood kept.new) (G.cut kept.new) split.now.formula split.now.tree first search.now) }
        ensures refused { IfErr result IsNotKept }
    {
        let found = match self.search_leaf(alloc, split, leaf, search) {
            Ok(found) => found,
            Err(_) => return Err(Refusal::NoMemory),
        };
        match found {
            Some(values) => Ok(Some(values)),
            None => {
                kept.keep_leaf(&self.searches.log, &self.notes)?;
                Ok(None)
            }
        }
    }
}

/// The report of an assignment: status 10, and the `v` lines if `witness`.
fn report_model(alloc: Global, values: &Assignment, witness: bool) -> Result<Report, Refusal>
    ensures hands { IfOk result (Hands 10 (satisfied_lines values.now witness) None) }
    ensures refused { IfErr result (λ f. f ≡ Refusal.NoMemory) }
{
    match satisfied(alloc, values, witness) {
        Ok(report) => Ok(report),
        Err(_) => Err(Refusal::NoMemory),
    }
}

/// The report of a text without a proof.
fn report_text(alloc: Global, text: &[u8], status: u8) -> Result<Report, Refusal>
    ensures prints { IfOk result (Hands status text.now None) }
    ensures refused { IfErr result (λ f. f ≡ Refusal.NoMemory) }
{
    match Report::of(alloc, text, status) {
        Ok(report) => Ok(report),
        Err(_) => Err(Refusal::NoMemory),
    }
}

/// The status of searches that found no assignment: 20 if every leaf is closed, and else 0.
fn status_of(closed: bool) -> u8
    ensures { result ≡ (if closed then 20 else 0) }
{
    if closed { 20 } else { 0 }
}

/// The report that there are no such leaves, status 1; its text is empty if `quiet`.
fn report_none(alloc: Global, quiet: bool) -> Result<Report, Refusal>
    ensures prints { IfOk result (Prints 1 (shown quiet no_leaf_text)) }
    ensures refused { IfErr result (λ f. f ≡ Refusal.NoMemory) }
{
    let text = if quiet { b"" } else { NO_LEAF };
    report_text(alloc, text, 1)
}

/// Searches under the leaves of a span by a propagator to which no clause is attached yet, and keeps each leaf's part of the log. Answers
/// the report of the first assignment, or of all searches if none finds one.
fn grow_by<P: Propagator, G: GrowingLog>(
    alloc: Global,
    propagator: &mut P,
    split: &Split,
    span: LeafSpan,
    search: &SearchOptions,
    kept: &mut G,
) -> Result<Report, Refusal>
    requires none { P.attached propagator.old ≡ [] }
    requires low { 0 < span.first }
    requires some { span.first ≤ span.last }
    requires high { span.last ≤ length split.now.tree }
    ensures grows { G.stood kept.old [] → IfOk result (Grows (G.stood kept.new) split.now.formula split.now.tree span.first span.last search.now) }
    ensures left { G.stood kept.old [] → OnErr result (IsLeftGrown (G.stood kept.new) (G.cut kept.new) split.now.formula split.now.tree span.first search.now) }
    ensures refused { IfErr result IsNotKept }
{
    let _ = split.tree.leaves(); // its contract bounds the number of leaves
    let mut run = match BlockSearch::of(alloc, propagator, split) {
        Ok(run) => run,
        Err(_) => return Err(Refusal::NoMemory),
    };
    for leaf in span.first..span.last + 1 {
        if let Some(values) = run.grow_leaf(alloc, split, leaf, search, kept)? {
            return report_model(alloc, &values, search.witness);
        }
    }
    report_text(alloc, b"", status_of(run.closed))
}

/// Searches under the leaves of a span as `run_refute_all` does, and keeps the log while it grows: as soon as the search under a leaf has
/// ended without an assignment, its part of the log and its line.
///
/// So what is kept is at each moment a log that closes those leaves that were told as closed, and perhaps a prefix of the next leaf's part.
/// The report has no proof, and no line but those of an assignment. If there are no such leaves it says so, status 1, and nothing is kept.
/// It errs if memory runs out or a leaf could not be kept.
pub fn run_refute_growing<G: GrowingLog>(
    alloc: Global,
    split: &Split,
    span: LeafSpan,
    search: &SearchOptions,
    kept: &mut G,
) -> Result<Report, Refusal>
    ensures grows { G.stood kept.old [] → IfOk result (GrowsOver (G.stood kept.new) split.now.formula split.now.tree span.first span.last search.now) }
    ensures left { G.stood kept.old [] → OnErr result (IsLeftGrown (G.stood kept.new) (G.cut kept.new) split.now.formula split.now.tree span.first search.now) }
    ensures refused { IfErr result IsNotKept }
{
    if span.first == 0 || span.first > span.last || span.last > split.tree.leaves() as u64 {
        return report_none(alloc, search.quiet);
    }
    let mut watched = Watched::new(alloc);
    grow_by(alloc, &mut watched, split, span, search, kept)
}
