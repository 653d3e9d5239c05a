//! The join of fragments: those of the first leaves are joined before the last leaf is closed.

ghost use Rattle.std.specs.Prelude.{◌≡◌, ℕ, ◌^◌, ◌<◌, ◌≤◌, [], List, length, slice_get, slice_index_or, All, Some, IfOk, IfErr};
ghost use Rattle.dimacs.specs.logic.Base.{pure_literals};
ghost use Rattle.dimacs.specs.logic.Cnf.{Cnf};
ghost use Rattle.icnf.specs.Leaves.{Cube};
ghost use Rattle.lrat_text.specs.Log.{Closes};
ghost use Rattle.lrat_text.specs.Proof.{Accepts};
ghost use Rattle.cube_split.specs.Definitions.{IsPairOf, base_with};
ghost use Rattle.cube_split.specs.declared.pair.Pair.{Pair};
ghost use Rattle.proof_join.specs.Definitions.{JoinedOver};
ghost use Rattle.proof_join.specs.JoinedProof.{AllClose};
ghost use Rattle.coordinator_core.specs.inner.Fronts.{IsFrontOfTree, IsJoined, count_of};
ghost use Rattle.coordinator_core.specs.declared.job_state.LeafState.{LeafState};
ghost use Rattle.coordinator_core.specs.declared.job_state.LeafState.TheVariants.{Closed};

use crate::coordinator::Coordinator;
use cube_split::Preamble;
use dimacs::Formula;
use icnf::Tree;
use packed_text::PackedText;
use proof_join::{JoinFault, Joiner};
use std::alloc::Global;

/// Returns the index of the leaf whose fragment is joined next, from 0: the number of leaves that
/// are joined.
fn place_of(front: &Option<Joiner>) -> usize
    ensures { result ≡ count_of front.now }
{
    match front {
        None => 0,
        Some(joining) => joining.count(),
    }
}

/// Returns the join so far, or begins a join if there is none.
pub(crate) fn front_or_new(
    alloc: Global,
    front: Option<Joiner>,
    formula: &Formula,
    preamble: &Preamble,
) -> Result<Joiner, JoinFault>
    requires units { preamble.now.units ≡ pure_literals formula.now }
    requires pairs { All (IsPairOf formula.now.vars) preamble.now.pairs }
    ensures front { (tree : List Cube) (leaves : List LeafState) (fragments : List (List ℕ)) → IsJoined formula.now preamble.now.pairs tree leaves fragments front
        → IfOk result (IsFrontOfTree formula.now preamble.now.pairs tree leaves fragments) }
    ensures count { IfOk result (λ j. j.count ≡ count_of front) }
    ensures long { IfErr result (λ f. f ≡ JoinFault.TooLong → (leaves : List Cube) (texts : List (List ℕ)) (text : List ℕ)
        → JoinedOver formula.now preamble.now.pairs leaves texts text → 2 ^ 32 ≤ length text) }
{
    match front {
        Some(joining) => Ok(joining),
        None => Joiner::begin(alloc, formula, preamble),
    }
}

/// Joins the fragments that are not joined yet, and returns the text of the joined proof. An `Err` of `front` is returned.
pub(crate) fn join_rest(
    front: Result<Joiner, JoinFault>,
    formula: &Formula,
    preamble: &Preamble,
    tree: &Tree,
    fragments: &[PackedText],
) -> Result<PackedText, JoinFault>
    requires units { preamble.now.units ≡ pure_literals formula.now }
    requires pairs { All (IsPairOf formula.now.vars) preamble.now.pairs }
    requires closed { AllClose (base_with formula.now preamble.now.pairs) tree.now fragments.now }
    requires front { (leaves : List LeafState) × IfOk front (IsFrontOfTree formula.now preamble.now.pairs tree.now leaves fragments.now) }
    requires long { IfErr front (λ f. f ≡ JoinFault.TooLong → (leaves : List Cube) (texts : List (List ℕ)) (text : List ℕ)
        → JoinedOver formula.now preamble.now.pairs leaves texts text → 2 ^ 32 ≤ length text) }
    ensures joined { IfOk result (λ text. JoinedOver formula.now preamble.now.pairs tree.now fragments.now text) }
    ensures short { IfOk result (λ text. length text < 2 ^ 32) }
    ensures long { IfErr result (λ f. f ≡ JoinFault.TooLong → (text : List ℕ)
        → JoinedOver formula.now preamble.now.pairs tree.now fragments.now text → 2 ^ 32 ≤ length text) }
    ensures accepted { IfOk result (λ text. Accepts formula.now text) }
{
    front?.finish(formula, preamble, tree, fragments)
}

/// Returns the fragment of the leaf at index `place`. A function of its own, for its contract.
fn text_at(fragments: &[PackedText], place: usize) -> &PackedText
    requires { place < length fragments.now }
    ensures { result.now ≡ slice_index_or fragments.now place [] }
{
    &fragments[place]
}

/// Joins the fragment of the leaf at index `place`, which is closed and the next to be joined. An `Err` of `front` is returned.
fn join_next(
    front: Result<Joiner, JoinFault>,
    tree: &Tree,
    fragments: &[PackedText],
    place: usize,
) -> Result<Joiner, JoinFault>
    requires inside { (place < length tree.now) × (place < length fragments.now) }
    requires next { IfOk front (λ j. j.count ≡ place) }
    requires closes { (F : Cnf) × (pairs : List Pair) × Closes (base_with F pairs) (slice_index_or tree.now place []) (slice_index_or fragments.now place [])
        × IfOk front (λ j. j.base ≡ length (base_with F pairs).clauses) × ((base_with F pairs).vars ≤ 199999999) }
    ensures { (F : Cnf) (pairs : List Pair) (leaves : List LeafState) → slice_get leaves place ≡ Some Closed → IfOk front (IsFrontOfTree F pairs tree.now leaves fragments.now)
        → IfOk result (IsFrontOfTree F pairs tree.now leaves fragments.now) }
{
    let _ = tree.leaves(); // ensures that there are at most 65,536 leaves
    front?.advance(tree.cube(place), text_at(fragments, place))
}

impl Coordinator {
    /// Joins the fragment of the next leaf in order if that leaf is closed, and tells whether it did. It is meant for idle time: the
    /// verdict does not depend on how often it is called. Nothing that a contract names changes. If memory is refused, or the text becomes
    /// too long, what was joined so far is dropped, and all is joined after the last leaf.
    pub fn advance(&mut self) -> bool
        ensures { self.new ≡ self.old }
    {
        if !self.is_joining || !self.is_deciding() {
            return false;
        }
        let place = place_of(&self.front);
        if !self.leaves.is_closed(place) {
            return false;
        }
        let held = self.front.take();
        let front = front_or_new(self.alloc, held, &self.formula, &self.preamble);
        match join_next(front, &self.tree, self.leaves.fragments(), place) {
            Ok(joining) => {
                self.front = Some(joining);
                true
            }
            Err(fault) => {
                self.is_joining = fault == JoinFault::NoMemory;
                false
            }
        }
    }
}
