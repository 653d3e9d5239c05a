//! The joined proof of a tree, made in one call.

ghost use Rattle.std.specs.Prelude.{◌≡◌, ℕ, ◌^◌, ◌<◌, ◌≤◌, List, map, length, All, IfOk, IfErr};
ghost use Rattle.cube_split.specs.Definitions.{IsPairOf, base_with};
ghost use Rattle.dimacs.specs.logic.Base.{pure_literals};
ghost use Rattle.lrat_text.specs.Proof.{Accepts};
ghost use Rattle.proof_join.specs.Definitions.{JoinedOver};
ghost use Rattle.proof_join.specs.JoinedProof.{AllClose};

use crate::fault::JoinFault;
use crate::joiner::Joiner;
use cube_split::Preamble;
use dimacs::Formula;
use icnf::Tree;
use packed_text::PackedText;
use std::alloc::{AllocError, Global};

/// Joins the fragments that close the leaves of a tree into one proof: the preamble's lines, and then those of the tree, each fork's
/// line after those of its left and its right branch.
///
/// Fragments are unpacked block by block, and the text is packed as it is written; it shares the blocks that it has in common with the
/// first fragment. It answers `TooLong` only if the text would have 2^32 bytes or more.
pub fn join_packed(
    alloc: Global,
    formula: &Formula,
    preamble: &Preamble,
    tree: &Tree,
    fragments: &[PackedText],
) -> Result<PackedText, JoinFault>
    requires units { preamble.now.units ≡ pure_literals formula.now }
    requires pairs { All (IsPairOf formula.now.vars) preamble.now.pairs }
    requires closed { AllClose (base_with formula.now preamble.now.pairs) tree.now fragments.now }
    ensures joined { IfOk result (λ text. JoinedOver formula.now preamble.now.pairs tree.now fragments.now text) }
    ensures short { IfOk result (λ text. length text < 2 ^ 32) }
    ensures long { IfErr result (λ f. f ≡ JoinFault.TooLong → (text : List ℕ)
        → JoinedOver formula.now preamble.now.pairs tree.now fragments.now text → 2 ^ 32 ≤ length text) }
    // The text is an accepted proof of the formula, without the preamble's clauses.
    ensures accepted { IfOk result (λ text. Accepts formula.now text) }
{
    let _ = tree.leaves(); // for proofs: at most 65,536 leaves
    let _ = formula.vars(); // for proofs: the formula is within its limits
    let _ = preamble.pairs(); // for proofs: at most 64 pairs
    let joining = Joiner::begin(alloc, formula, preamble)?;
    joining.finish(formula, preamble, tree, fragments)
}

/// Packs each of these texts.
fn packed(alloc: Global, texts: &[Vec<u8>]) -> Result<Vec<PackedText>, AllocError>
    ensures { IfOk result (λ all. all.items ≡ map (λ v. v.items) texts.now) }
{
    let mut all = Vec::with_capacity(alloc, texts.len())?;
    for text in texts {
        all.push(PackedText::of(alloc, text)?)?;
    }
    Ok(all)
}

/// Packs the fragments that close the leaves of a tree, joins them into one proof, and unpacks its
/// text.
///
/// It answers `TooLong` only if the text would have 2^32 bytes or more.
pub fn join(
    alloc: Global,
    formula: &Formula,
    preamble: &Preamble,
    tree: &Tree,
    fragments: &[Vec<u8>],
) -> Result<Vec<u8>, JoinFault>
    requires units { preamble.now.units ≡ pure_literals formula.now }
    requires pairs { All (IsPairOf formula.now.vars) preamble.now.pairs }
    requires closed { AllClose (base_with formula.now preamble.now.pairs) tree.now (map (λ v. v.items) fragments.now) }
    ensures joined { IfOk result (λ text. JoinedOver formula.now preamble.now.pairs tree.now (map (λ v. v.items) fragments.now) text.items) }
    ensures short { IfOk result (λ text. length text.items < 2 ^ 32) }
    ensures long { IfErr result (λ f. f ≡ JoinFault.TooLong → (text : List ℕ)
        → JoinedOver formula.now preamble.now.pairs tree.now (map (λ v. v.items) fragments.now) text → 2 ^ 32 ≤ length text) }
    // The text is an accepted proof of the formula, without the preamble's clauses.
    ensures accepted { IfOk result (λ text. Accepts formula.now text.items) }
{
    let fragments = packed(alloc, fragments)?;
    let text = join_packed(alloc, formula, preamble, tree, &fragments)?;
    Ok(text.to_text(alloc)?)
}
