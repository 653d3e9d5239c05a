//! `refute` of a block of leaves: one solver session searches under one leaf after the other, and writes one log.

ghost use Rattle.std.specs.Prelude.{◌≡◌, ◌⊎◌, ◌<◌, ◌≤◌, [], ◌++◌, true, length, Some, None, IfOk, OnOk, codes, decimal, if◌then◌else◌};
ghost use Rattle.cube_solve.specs.Session.{IsReady, vars_of};
ghost use Rattle.dimacs.specs.text.Answer.{satisfied_lines};
ghost use Rattle.dimacs.specs.text.Grammar.{Begins};
ghost use Rattle.leaves.specs.LeafSearch.{Hands, shown};
ghost use Rattle.leaves.specs.BlockSearch.{FindsModel, RefutesLeaves, SearchesAll};
ghost use Rattle.leaves.specs.inner.BlockSearch.{NotesFound, HasSearched, SearchesLeaf};

use crate::leaf::{NO_LEAF, cube_of};
use crate::leaf_search::{SearchOptions, put_end};
use crate::search_session::{Found, SearchSession};
use crate::split::Split;
use dimacs::{Answer, Assignment, answer_lines};
use reports::Report;
use std::alloc::{AllocError, Global};
use watches::{Propagator, Watched};

/// The searches so far: the session with its log, and the lines to print.
pub(crate) struct BlockSearch<'a, P> {
    /// The solver session, and the log of all searches so far.
    pub(crate) searches: SearchSession<'a, P>,
    /// The `c` lines of the leaves searched so far; empty with `-q`.
    pub(crate) notes: Vec<u8>,
    /// Whether every leaf searched so far is closed.
    pub(crate) closed: bool,
}

impl<P> Drop for BlockSearch<'_, P> {
    fn drop(self) {
        let BlockSearch {
            searches: _,
            notes: _,
            closed: _,
        } = self;
    }
}

/// Appends the line of the leaf of this number, from 1, which ends with `end`; appends nothing if `quiet`.
fn put_leaf_line(out: &mut Vec<u8>, leaf: u64, end: &[u8], quiet: bool) -> Result<(), AllocError>
    ensures { OnOk result (out.new.items ≡ out.old.items ++ shown quiet (codes "c leaf " ++ decimal leaf ++ end.now)) }
{
    if quiet {
        return Ok(());
    }
    put_end(out, leaf, end)
}

impl<'a, P: Propagator> BlockSearch<'a, P> {
    /// A session over the formula that has searched no leaf.
    pub(crate) fn of(
        alloc: Global,
        propagator: &'a mut P,
        split: &Split,
    ) -> Result<BlockSearch<'a, P>, AllocError>
        requires { P.attached propagator.old ≡ [] }
        ensures ready { IfOk result (λ t. IsReady P.is_ready P.attached t.searches.session) }
        ensures stands { IfOk result (λ t. HasSearched split.now.formula [] [] t.searches) }
        ensures notes { IfOk result (λ t. t.notes.items ≡ []) }
        ensures closed { IfOk result (λ t. t.closed ≡ true) }
    {
        Ok(BlockSearch {
            searches: SearchSession::new(alloc, propagator, split.formula.as_base())?,
            notes: Vec::new(alloc),
            closed: true,
        })
    }

    /// Appends the line of the leaf of this number, from 1, unless its search has found an assignment. Answers the assignment, or None if
    /// the leaf is closed or the search has reached its limit.
    fn note_leaf(
        &mut self,
        leaf: u64,
        found: Found,
        quiet: bool,
    ) -> Result<Option<Assignment>, AllocError>
        ensures searches { self.new.searches ≡ self.old.searches }
        ensures told { IfOk result (NotesFound leaf quiet found self.old self.new) }
    {
        match found {
            Found::Model(values) => Ok(Some(values)),
            Found::Closed => {
                put_leaf_line(&mut self.notes, leaf, b" closed\n", quiet)?;
                Ok(None)
            }
            Found::Limit => {
                self.closed = false;
                put_leaf_line(&mut self.notes, leaf, b" limit\n", quiet)?;
                Ok(None)
            }
        }
    }

    /// Searches under the leaf of this number, from 1. Answers the assignment that the search finds; None if the leaf is closed, the search
    /// reaches its limit, or there is no such leaf.
    pub(crate) fn search_leaf(
        &mut self,
        alloc: Global,
        split: &Split,
        leaf: u64,
        search: &SearchOptions,
    ) -> Result<Option<Assignment>, AllocError>
        requires ready { IsReady P.is_ready P.attached self.old.searches.session }
        requires vars { vars_of self.old.searches.session ≡ split.now.formula.vars }
        ensures ready { OnOk result (IsReady P.is_ready P.attached self.new.searches.session) }
        ensures vars { OnOk result (vars_of self.new.searches.session ≡ split.now.formula.vars) }
        ensures longer { OnOk result (Begins self.old.searches.log self.new.searches.log) }
        ensures search_leaf { IfOk result (SearchesLeaf split.now.formula split.now.tree leaf search.now self.old self.new) }
    {
        let Some(cube) = cube_of(&split.tree, leaf) else {
            return Ok(None);
        };
        let found = self.searches.search(alloc, cube, search.limit)?;
        self.note_leaf(leaf, found, search.quiet)
    }

    /// The report of searches that found no assignment: status 20 if every leaf is closed, and else 0; with the log.
    fn ended(self) -> Report
        ensures { Hands (if self.entry.closed then 20 else 0) self.entry.notes.items (Some self.entry.searches.log) result }
    {
        let BlockSearch {
            searches,
            notes,
            closed,
        } = self;
        Report {
            stdout: notes,
            status: if closed { 20 } else { 0 },
            proof: Some(searches.into_log()),
        }
    }
}

/// The report of an assignment: status 10, and the `v` lines if `witness`.
pub(crate) fn satisfied(
    alloc: Global,
    values: &Assignment,
    witness: bool,
) -> Result<Report, AllocError>
    ensures { IfOk result (Hands 10 (satisfied_lines values.now witness) None) }
{
    let mut report = Report::of(alloc, b"", 10)?;
    answer_lines(Answer::Satisfiable(values), witness, &mut report.stdout)?;
    Ok(report)
}

/// Searches under the leaves `first..=last`, from 1, by a propagator to which no clause is attached yet. Answers the report of the first
/// assignment, or of all searches if none finds one.
fn refute_by<P: Propagator>(
    alloc: Global,
    propagator: &mut P,
    split: &Split,
    first: u64,
    last: u64,
    search: &SearchOptions,
) -> Result<Report, AllocError>
    requires none { P.attached propagator.old ≡ [] }
    requires low { 0 < first }
    requires some { first ≤ last }
    requires high { last ≤ length split.now.tree }
    ensures { IfOk result (λ r. FindsModel split.now.formula split.now.tree first last search.now r ⊎ SearchesAll split.now.formula split.now.tree first last search.now r) }
{
    let _ = split.tree.leaves(); // its contract bounds the number of leaves
    let mut run = BlockSearch::of(alloc, propagator, split)?;
    for leaf in first..last + 1 {
        if let Some(values) = run.search_leaf(alloc, split, leaf, search)? {
            return satisfied(alloc, &values, search.witness);
        }
    }
    Ok(run.ended())
}

/// Searches under the leaves `first..=last`, from 1, one after the other, by one session: what it learns under a leaf follows from the
/// formula alone, and is kept for the next leaves.
///
/// The report has status 10 and an assignment that satisfies the formula, if a search finds one, which ends the run. It has 20, and as its
/// proof one log over the formula that closes every leaf, if every leaf is closed. Else it has 0, and a log that closes those leaves that
/// are reported as closed; the other searches have reached their limit. Each leaf may have `limit` lemmas. A lemma that closes a leaf is
/// not deleted. An error is reported as `c no memory`, status 1.
pub fn run_refute_all(
    alloc: Global,
    split: &Split,
    first: u64,
    last: u64,
    search: &SearchOptions,
) -> Result<Report, AllocError>
    ensures { IfOk result (RefutesLeaves split.now.formula split.now.tree first last search.now) }
{
    if first == 0 || first > last || last > split.tree.leaves() as u64 {
        let text = if search.quiet { b"" } else { NO_LEAF };
        return Report::of(alloc, text, 1);
    }
    let mut watched = Watched::new(alloc);
    refute_by(alloc, &mut watched, split, first, last, search)
}
