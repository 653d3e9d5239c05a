//! The table of leaves: the state of each, and the fragment of each closed one.

ghost use Rattle.std.specs.Prelude.{◌≡◌, ◌≢◌, ℕ, ◌<◌, ◌↔◌, IsTrue, [], count_by, length, replicate, position, slice_get, slice_set, slice_index_or, vec_len, vec_capacity, Some, false, IfOk, OnOk, OnErr};
ghost use Rattle.icnf.specs.Leaves.{IsFree, branched};
ghost use Rattle.coordinator_core.specs.Coordinator.{AreClosed, is_open};
ghost use Rattle.coordinator_core.specs.Progress.{is_closed};
ghost use Rattle.coordinator_core.specs.Splits.{doubled};
ghost use Rattle.coordinator_core.specs.declared.job_state.LeafState.TheVariants.{Open, GivenTo, Closed};

use crate::job_state::LeafState;
use cube_split::grow;
use dimacs::Var;
use frames::WorkerNumber;
use icnf::Tree;
use packed_text::PackedText;
use std::alloc::{AllocError, Global};
use std::marker::Model;
use std::mem;

/// The state and the fragment of each leaf of a tree, by the leaf's index from 0. Only `new` and `split` take memory.
pub(crate) struct LeafTable {
    states: Vec<LeafState>,
    fragments: Vec<PackedText>,
    // The number of leaves that are not closed, so that `are_closed`, which is asked at each fragment, takes constant time.
    unclosed: usize,
    // No leaf with a lower index is open, so that `first_open` does not pass the closed leaves at the front each time.
    from: usize,
}

impl Drop for LeafTable {
    fn drop(self) {
        let LeafTable {
            states: _,
            fragments: _,
            unclosed: _,
            from: _,
        } = self;
    }
}

impl Model for LeafTable {
    ghost use Rattle.coordinator_core.specs.inner.LeafTable.{LeafRows, IsLeafTable};

    ghost Value = { LeafRows };

    ghost view = { λ t. record { states = t.states.items; fragments = t.fragments.items } };

    ghost invariant = { λ t. IsLeafTable t.states.items t.fragments.items t.unclosed t.from };
}

/// Makes `count` empty fragments, one for each leaf.
#[tactic(auto, using(crate::proofs::TableLemmas::rows))]
fn no_fragments(alloc: Global, count: usize) -> Result<Vec<PackedText>, AllocError>
    ensures { IfOk result (λ v. v.items ≡ replicate count []) }
{
    let mut fragments = Vec::with_capacity(alloc, count)?;
    for _ in 0..count {
        fragments.push(PackedText::new(alloc))?;
    }
    Ok(fragments)
}

/// Returns the index of the first open leaf at or after index `from`; `None` if there is none.
fn open_from(states: &[LeafState], from: usize) -> Option<usize>
    requires { (i : ℕ) → i < from → is_open (slice_index_or states.now i Closed) ≡ false }
    ensures { result ≡ position is_open states.now }
{
    for i in from..states.len() {
        if let LeafState::Open = states[i] {
            return Some(i);
        }
    }
    None
}

/// Replaces the state of a leaf that is split by two open ones, those of its branches. The caller
/// has reserved one more entry.
fn open_branches(states: &mut Vec<LeafState>, leaf: usize)
    requires inside { leaf < vec_len states.old }
    requires room { vec_len states.old < vec_capacity states.old }
    ensures { states.new.items ≡ doubled leaf Open states.old.items }
{
    states[leaf] = LeafState::Open;
    states.insert(leaf, LeafState::Open).unwrap();
}

/// Replaces the fragment of a leaf that is split by two empty ones, those of its branches. The
/// caller has reserved one more entry.
fn empty_branches(alloc: Global, fragments: &mut Vec<PackedText>, leaf: usize)
    requires inside { leaf < vec_len fragments.old }
    requires room { vec_len fragments.old < vec_capacity fragments.old }
    ensures { fragments.new.items ≡ doubled leaf [] fragments.old.items }
{
    fragments[leaf] = PackedText::new(alloc);
    fragments.insert(leaf, PackedText::new(alloc)).unwrap();
}

impl LeafTable {
    /// Makes a table of `count` leaves, all open.
    pub(crate) fn new(alloc: Global, count: usize) -> Result<LeafTable, AllocError>
        ensures { IfOk result (λ t. t ≡ record { states = replicate count Open; fragments = replicate count [] }) }
    {
        let states = vec![in alloc; LeafState::Open; count]?;
        let fragments = no_fragments(alloc, count)?;
        Ok(LeafTable {
            states,
            fragments,
            unclosed: count,
            from: 0,
        })
    }

    /// Returns the index of the leftmost open leaf; `None` if no leaf is open.
    pub(crate) fn first_open(&self) -> Option<usize>
        ensures { result ≡ position is_open self.now.states }
    {
        open_from(&self.states, self.from)
    }

    /// Tells whether all leaves are closed.
    pub(crate) fn are_closed(&self) -> bool
        ensures { IsTrue result ↔ AreClosed self.now.states }
    {
        self.unclosed == 0
    }

    /// Tells whether there is a leaf at index `place` and it is closed.
    pub(crate) fn is_closed(&self, place: usize) -> bool
        ensures { IsTrue result ↔ (slice_get self.now.states place ≡ Some Closed) }
    {
        matches!(self.states.get(place), Some(LeafState::Closed))
    }

    /// Returns the number of closed leaves.
    pub(crate) fn closed(&self) -> usize
        ensures { result ≡ count_by is_closed self.now.states }
    {
        self.states.len().saturating_sub(self.unclosed)
    }

    /// Returns the fragments, by leaf index; that of a leaf that is not closed is empty.
    pub(crate) fn fragments(&self) -> &[PackedText]
        ensures { result.now ≡ self.now.fragments }
    {
        &self.fragments
    }

    /// Notes that the leftmost open leaf, which has index `leaf`, is given to a worker. Later
    /// searches for an open leaf begin there.
    pub(crate) fn give(&mut self, leaf: usize, worker: WorkerNumber)
        requires { position is_open self.old.states ≡ Some leaf }
        ensures { self.new ≡ record self.old { states = slice_set self.old.states leaf (GivenTo worker) } }
    {
        self.states[leaf] = LeafState::GivenTo(worker);
        self.from = leaf;
    }

    /// Opens a leaf that is not closed, so that it is given to a worker again.
    pub(crate) fn open(&mut self, leaf: usize)
        requires inside { leaf < length self.old.states }
        requires unclosed { slice_index_or self.old.states leaf Closed ≢ Closed }
        ensures { self.new ≡ record self.old { states = slice_set self.old.states leaf Open } }
    {
        self.states[leaf] = LeafState::Open;
        self.from = self.from.min(leaf);
    }

    /// Closes a leaf that is open or given, moves its fragment into the table, and returns the entry that the fragment replaces.
    pub(crate) fn close(&mut self, leaf: usize, fragment: PackedText) -> PackedText
        requires inside { leaf < length self.old.states }
        requires unclosed { slice_index_or self.old.states leaf Closed ≢ Closed }
        ensures now { self.new ≡ record self.old { states = slice_set self.old.states leaf Closed; fragments = slice_set self.old.fragments leaf fragment } }
        ensures before { result ≡ slice_index_or self.old.fragments leaf [] }
    {
        self.states[leaf] = LeafState::Closed;
        self.unclosed -= 1;
        mem::replace(&mut self.fragments[leaf], fragment)
    }

    /// Undoes `close`: gives the leaf to a worker again, restores the entry `before`, and returns the fragment.
    pub(crate) fn give_back(
        &mut self,
        leaf: usize,
        worker: WorkerNumber,
        before: PackedText,
    ) -> PackedText
        requires inside { leaf < length self.old.states }
        requires closed { slice_index_or self.old.states leaf Open ≡ Closed }
        ensures now { self.new ≡ record self.old { states = slice_set self.old.states leaf (GivenTo worker); fragments = slice_set self.old.fragments leaf before } }
        ensures fragment { result ≡ slice_index_or self.old.fragments leaf [] }
    {
        self.states[leaf] = LeafState::GivenTo(worker);
        self.unclosed += 1;
        mem::replace(&mut self.fragments[leaf], before)
    }

    /// Splits a leaf that is not closed on a variable, and opens both branches. If memory is refused, tree and table are unchanged: all
    /// room is reserved before anything changes.
    pub(crate) fn split(
        &mut self,
        alloc: Global,
        tree: &mut Tree,
        leaf: usize,
        var: Var,
    ) -> Result<(), AllocError>
        requires inside { leaf < length self.old.states }
        requires unclosed { slice_index_or self.old.states leaf Closed ≢ Closed }
        requires leaf { leaf < length tree.old }
        requires few { length tree.old < 65536 }
        requires short { length (slice_index_or tree.old leaf []) < 64 }
        requires free { IsFree (slice_index_or tree.old leaf []) var }
        ensures tree { OnOk result (tree.new ≡ branched leaf var tree.old) }
        ensures rows { OnOk result (self.new ≡ record { states = doubled leaf Open self.old.states; fragments = doubled leaf [] self.old.fragments }) }
        ensures err { OnErr result ((tree.new ≡ tree.old) × (self.new ≡ self.old)) }
    {
        self.states.reserve(1)?;
        self.fragments.reserve(1)?;
        grow(tree, leaf, var)?;
        open_branches(&mut self.states, leaf);
        empty_branches(alloc, &mut self.fragments, leaf);
        self.unclosed += 1;
        self.from = self.from.min(leaf);
        Ok(())
    }
}
