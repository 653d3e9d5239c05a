//! The joiner: it joins the fragments of a tree's leaves from left to right, each as soon as it is there.

ghost use Rattle.std.specs.Prelude.{◌≡◌, ℕ, ◌+◌, ◌^◌, ◌<◌, ◌≤◌, [], List, length, take, slice_index_or, All, OnOk, IfOk, IfErr};
ghost use Rattle.cube_split.specs.Definitions.{IsPairOf, base_with};
ghost use Rattle.dimacs.specs.logic.Base.{pure_literals};
ghost use Rattle.dimacs.specs.logic.Cnf.{Cnf};
ghost use Rattle.dimacs.specs.logic.Literal.{IsWithin};
ghost use Rattle.icnf.specs.Leaves.{Cube};
ghost use Rattle.lrat_text.specs.Log.{Closes};
ghost use Rattle.lrat_text.specs.Proof.{Accepts};
ghost use Rattle.proof_join.specs.Definitions.{JoinedOver};
ghost use Rattle.proof_join.specs.Fronts.{IsFrontOf, appended, preamble_front, settled};
ghost use Rattle.proof_join.specs.JoinedProof.{AllClose};
ghost use Rattle.proof_join.specs.Fronts.{branches};
ghost use Rattle.proof_join.specs.inner.Fronts.{IsUpTo};
ghost use Rattle.proof_join.specs.Steps.{steps_in};
ghost use Rattle.proof_join.specs.inner.Steps.{Writes};

use crate::fault::JoinFault;
use crate::finished::{Finished, put_finished, take_left};
use crate::lines::Scratch;
use crate::output::Output;
use crate::preamble::put_preamble;
use crate::subtree::{Subtree, Writer, put_fork, put_leaf};
use cube_split::Preamble;
use dimacs::{Formula, Lit};
use icnf::Tree;
use lrat_text::StepBuffer;
use packed_text::PackedText;
use std::alloc::Global;
use std::marker::Model;

/// The writer of the joined text, and the stack of finished subtrees, while a leaf is appended.
#[derive(Drop)]
struct JoinState<'t> {
    writer: Writer<'t>,
    /// The finished subtrees that wait for their right siblings, the last one on top.
    finished: Vec<Finished>,
}

/// A joiner: it has the joined text of the first leaves of a tree, all lines that can be written before the next leaf's fragment is there.
pub struct Joiner {
    alloc: Global,
    /// The number of the base's clauses.
    base: u64,
    /// The number of leaves that were appended.
    count: usize,
    /// The joined text so far.
    text: PackedText,
    /// The number of the text's last addition.
    top: u64,
    /// The finished subtrees that wait for their right siblings, the last one on top.
    finished: Vec<Finished>,
}

impl Drop for Joiner {
    fn drop(self) {
        let Joiner {
            alloc: _,
            base: _,
            count: _,
            text: _,
            top: _,
            finished: _,
        } = self;
    }
}

impl Model for Joiner {
    ghost use Rattle.proof_join.specs.Fronts.{Front};
    ghost use Rattle.proof_join.specs.Fronts.{branches};
    ghost use Rattle.proof_join.specs.inner.Fronts.{IsOrderly};

    ghost Value = { Front };

    ghost view = { λ j. record { base = j.base; count = j.count; standing = record { text = j.text; top = j.top; finished = branches j.finished.items } } };

    ghost invariant = { λ j. IsOrderly (record { base = j.base; count = j.count; standing = record { text = j.text; top = j.top; finished = branches j.finished.items } }) };
}

/// Finishes a subtree at a depth of the cube. If its left sibling is on top of the stack, the line
/// of their fork is written, and the fork is finished in turn; else the subtree waits on the stack.
fn settle(
    alloc: Global,
    growing: &mut JoinState<'_>,
    cube: &[Lit],
    depth: usize,
    subtree: Subtree,
) -> Result<(), JoinFault>
    requires inside { depth ≤ length cube.now }
    requires subtree { (1 ≤ subtree.id) × (subtree.id ≤ growing.old.writer.top) × All (IsWithin 199999999) subtree.clause.items }
    requires finished { All (IsUpTo growing.old.writer.top) (branches growing.old.finished.items) }
    requires few { (1 ≤ growing.old.writer.top) × (growing.old.writer.top ≤ 2 ^ 40 + length growing.old.writer.out) }
    requires short { length growing.old.writer.out < 2 ^ 32 }
    ensures text { Writes result growing.new.writer.out (settled cube.now depth growing.old.writer.out growing.old.writer.top subtree.id subtree.clause.items (branches growing.old.finished.items)).text }
    ensures standing { OnOk result (record { text = growing.new.writer.out; top = growing.new.writer.top; finished = branches growing.new.finished.items }
        ≡ settled cube.now depth growing.old.writer.out growing.old.writer.top subtree.id subtree.clause.items (branches growing.old.finished.items)) }
    ensures few { OnOk result ((growing.old.writer.top ≤ growing.new.writer.top) × (growing.new.writer.top + length growing.old.writer.out ≤ growing.old.writer.top + length growing.new.writer.out)) }
    ensures finished { OnOk result (All (IsUpTo growing.new.writer.top) (branches growing.new.finished.items)) }
{
    let Some(left) = take_left(&mut growing.finished, depth) else {
        return put_finished(&mut growing.finished, depth, subtree);
    };
    let above = depth - 1;
    let branch = cube[above].negate();
    let fork = put_fork(
        alloc,
        &mut growing.writer,
        &cube[..above],
        branch,
        left.subtree,
        subtree,
    )?;
    settle(alloc, growing, cube, above, fork)
}

/// The text with which the joined text shares equal blocks: the first fragment, since the joined text of one leaf is mostly a copy of it;
/// None after the first leaf.
fn first_of(count: usize, fragment: &PackedText) -> Option<&PackedText> {
    if count == 0 { Some(fragment) } else { None }
}

/// The fragment at index i. A function of its own, for its contract.
fn text_at(fragments: &[PackedText], i: usize) -> &PackedText
    requires { i < length fragments.now }
    ensures { result.now ≡ slice_index_or fragments.now i [] }
{
    &fragments[i]
}

impl Joiner {
    /// Writes the preamble's lines. No leaf is appended.
    ///
    /// It answers `TooLong` only if every text that begins with these lines would have 2^32 bytes or more.
    pub fn begin(alloc: Global, formula: &Formula, preamble: &Preamble) -> Result<Joiner, JoinFault>
        requires units { preamble.now.units ≡ pure_literals formula.now }
        requires pairs { All (IsPairOf formula.now.vars) preamble.now.pairs }
        ensures begun { IfOk result (λ j. j ≡ preamble_front formula.now preamble.now.pairs) }
        ensures front { IfOk result (IsFrontOf formula.now preamble.now.pairs [] []) }
        ensures long { IfErr result (λ f. f ≡ JoinFault.TooLong → (leaves : List Cube) (texts : List (List ℕ)) (text : List ℕ)
            → JoinedOver formula.now preamble.now.pairs leaves texts text → 2 ^ 32 ≤ length text) }
    {
        let mut out = Output::behind(alloc, PackedText::new(alloc), None);
        let base = put_preamble(alloc, &mut out, formula, preamble)?;
        Ok(Joiner {
            alloc,
            base,
            count: 0,
            text: out.into_text(),
            top: base,
            finished: Vec::new(alloc),
        })
    }

    /// The number of leaves that were appended.
    pub fn count(&self) -> usize
        ensures { result ≡ self.now.count }
    {
        self.count
    }

    /// Appends the fragment of the next leaf, which closes its cube over the base, and the line of each fork that it finishes. After an
    /// error the joiner is gone.
    pub fn advance(self, cube: &[Lit], fragment: &PackedText) -> Result<Joiner, JoinFault>
        requires closes { (B : Cnf) × (B.vars ≤ 199999999) × (length B.clauses ≡ self.base) × Closes B cube.now fragment.now }
        requires few { self.count < 2 ^ 32 }
        ensures appended { IfOk result (λ j. j ≡ appended self cube.now (steps_in fragment.now)) }
        ensures long { IfErr result (λ f. f ≡ JoinFault.TooLong → 2 ^ 32 ≤ length (appended self cube.now (steps_in fragment.now)).standing.text) }
    {
        let Joiner {
            alloc,
            base,
            count,
            text,
            top,
            finished,
        } = self;
        let mut growing = JoinState {
            writer: Writer {
                out: Output::behind(alloc, text, first_of(count, fragment)),
                top,
                scratch: Scratch {
                    buffer: StepBuffer::new(alloc),
                    numbers: Vec::new(alloc),
                },
            },
            finished,
        };
        let subtree = put_leaf(alloc, &mut growing.writer, base, fragment)?;
        settle(alloc, &mut growing, cube, cube.len(), subtree)?;
        let JoinState { writer, finished } = growing;
        let Writer { out, top, .. } = writer;
        Ok(Joiner {
            alloc,
            base,
            count: count + 1,
            text: out.into_text(),
            top,
            finished,
        })
    }

    /// Appends the fragments of the leaves that are left, and hands out the joined text.
    ///
    /// It answers `TooLong` only if the text would have 2^32 bytes or more.
    pub fn finish(
        self,
        formula: &Formula,
        preamble: &Preamble,
        tree: &Tree,
        fragments: &[PackedText],
    ) -> Result<PackedText, JoinFault>
        requires units { preamble.now.units ≡ pure_literals formula.now }
        requires pairs { All (IsPairOf formula.now.vars) preamble.now.pairs }
        requires closed { AllClose (base_with formula.now preamble.now.pairs) tree.now fragments.now }
        requires inside { self.count ≤ length tree.now }
        requires front { IsFrontOf formula.now preamble.now.pairs (take self.count tree.now) (take self.count fragments.now) self }
        ensures joined { IfOk result (λ text. JoinedOver formula.now preamble.now.pairs tree.now fragments.now text) }
        ensures short { IfOk result (λ text. length text < 2 ^ 32) }
        ensures long { IfErr result (λ f. f ≡ JoinFault.TooLong → (text : List ℕ)
            → JoinedOver formula.now preamble.now.pairs tree.now fragments.now text → 2 ^ 32 ≤ length text) }
        // The text is an accepted proof of the formula, without the preamble's clauses.
        ensures accepted { IfOk result (λ text. Accepts formula.now text) }
    {
        let _ = tree.leaves(); // for proofs: at most 65,536 leaves
        let _ = formula.vars(); // for proofs: the formula is within its limits
        let _ = preamble.pairs(); // for proofs: at most 64 pairs
        let mut joining = self;
        for place in joining.count()..tree.leaves() {
            joining = joining.advance(tree.cube(place), text_at(fragments, place))?;
        }
        Ok(joining.into_text())
    }

    /// Hands out the text.
    fn into_text(self) -> PackedText
        ensures text { result ≡ self.standing.text }
        ensures short { length result < 2 ^ 32 }
    {
        let Joiner {
            text,
            alloc: _,
            base: _,
            count: _,
            top: _,
            finished: _,
        } = self;
        text
    }
}
