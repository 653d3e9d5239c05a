//! Trims a lemma: walks its hints back from the conflict, and keeps the hints and the literals that are used.

ghost use Rattle.std.specs.Prelude.{◌≡◌, ℕ, ◌<◌, ◌+◌, length, OnOk, IfOk, filter};
ghost use Rattle.dimacs.specs.logic.Literal.{index_of, negation};
ghost use Rattle.dimacs.specs.logic.Propagation.{negations};
ghost use Rattle.lrat_check.specs.inner.LiteralTable.{FitsTable};
ghost use Rattle.proof_lift.specs.TrimmedLemma.{kept, used, used_before};
ghost use Rattle.proof_lift.specs.inner.Images.{images_of};
ghost use Rattle.proof_lift.specs.inner.Tables.{marked, AllBelow};
ghost use Rattle.proof_lift.specs.inner.Walks.{ChainFits, IsPlaced, passed_by, passed_in};

use crate::images::{Image, Images};
use crate::status::is_marked;
use crate::walk::{Conflict, Link};
use dimacs::Lit;
use std::alloc::{AllocError, Global};

/// Gives the negation of each literal of the conflict clause the stamp: these true literals are
/// used, and the walk back looks for what made them true.
fn mark_negations(marks: &mut [u64], stamp: u64, clause: &[Lit])
    requires table { FitsTable (length marks.old) clause.now }
    requires unused { AllBelow stamp marks.old }
    ensures used { marked marks.new stamp ≡ negations clause.now }
    ensures places { length marks.new ≡ length marks.old }
    ensures below { AllBelow (stamp + 1) marks.new }
{
    for l in clause {
        marks[l.negate().index()] = stamp;
    }
}

/// Steps back over a unit clause whose literal is used: takes the stamp from that literal, and
/// gives it to the negations of the clause's other literals, which made it unit.
fn use_others(marks: &mut [u64], stamp: u64, clause: &[Lit], unit: Lit)
    requires table { FitsTable (length marks.old) clause.now }
    requires unit { index_of unit < length marks.old }
    requires positive { 0 < stamp }
    requires below { AllBelow (stamp + 1) marks.old }
    ensures used { (n : ℕ) → marked marks.new stamp ≡ used_before (record { number = n; clause = clause.now; unit = unit }) (marked marks.old stamp) }
    ensures places { length marks.new ≡ length marks.old }
    ensures below { AllBelow (stamp + 1) marks.new }
{
    marks[unit.index()] = 0;
    for l in clause {
        if *l != unit {
            marks[l.negate().index()] = stamp;
        }
    }
}

/// Keeps a hint whose unit literal is used: returns its number in the log, and marks as used the
/// literals that made its clause unit.
fn keep_hint(images: &Images, marks: &mut [u64], stamp: u64, link: Link) -> u64
    requires table { IsPlaced (length marks.old) (passed_in (images_of images.now) link) }
    requires positive { 0 < stamp }
    requires below { AllBelow (stamp + 1) marks.old }
    ensures number { result ≡ (passed_in (images_of images.now) link).number }
    ensures used { marked marks.new stamp ≡ used_before (passed_in (images_of images.now) link) (marked marks.old stamp) }
    ensures places { length marks.new ≡ length marks.old }
    ensures below { AllBelow (stamp + 1) marks.new }
{
    match images.get(link.hint) {
        Image::Kept(number, clause) => {
            use_others(marks, stamp, clause, link.unit);
            number
        }
        Image::Gone | Image::None => {
            use_others(marks, stamp, &[], link.unit);
            0
        }
    }
}

/// Walks back from the conflict along `chain`. Leaves in `numbers` the log's numbers of the hints that are used, in order, the conflict's
/// last; gives the literals that are used the stamp.
pub(crate) fn trim(
    images: &Images,
    marks: &mut [u64],
    stamp: u64,
    chain: &[Link],
    conflict: Conflict<'_>,
    numbers: &mut Vec<u64>,
) -> Result<(), AllocError>
    requires chain { ChainFits (length marks.old) (passed_by (images_of images.now) chain.now) }
    requires conflict { FitsTable (length marks.old) conflict.clause.now }
    requires positive { 0 < stamp }
    requires unused { AllBelow stamp marks.old }
    ensures numbers { OnOk result (numbers.new.items ≡ kept (passed_by (images_of images.now) chain.now) conflict.entry.clause.now conflict.entry.number) }
    ensures used { OnOk result (marked marks.new stamp ≡ used (passed_by (images_of images.now) chain.now) conflict.entry.clause.now) }
    ensures places { length marks.new ≡ length marks.old }
    ensures below { AllBelow (stamp + 1) marks.new }
{
    numbers.clear();
    numbers.push(conflict.number)?;
    mark_negations(marks, stamp, conflict.clause);
    let mut i = chain.len();
    while i > 0 {
        i -= 1;
        let link = chain[i];
        if is_marked(marks, stamp, link.unit) {
            let number = keep_hint(images, marks, stamp, link);
            numbers.push(number)?;
        }
    }
    numbers.reverse();
    Ok(())
}

/// Returns the literals of the trimmed lemma: those whose negations, assumed at first, are used.
pub(crate) fn kept_literals(
    alloc: Global,
    marks: &[u64],
    stamp: u64,
    clause: &[Lit],
) -> Result<Vec<Lit>, AllocError>
    requires { FitsTable (length marks.now) clause.now }
    ensures { IfOk result (λ v. v.items ≡ filter (λ l. marked marks.now stamp (negation l)) clause.now) }
{
    let mut literals = Vec::new(alloc);
    for l in clause {
        if is_marked(marks, stamp, l.negate()) {
            literals.push(*l)?;
        }
    }
    Ok(literals)
}
