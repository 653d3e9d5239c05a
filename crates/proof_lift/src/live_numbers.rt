//! The foreign numbers of the live clauses that have an image.

ghost use Rattle.std.specs.Prelude.{◌≡◌, ◌<◌, ◌≤◌, ℕ, Some, All, Contains, length, OnOk, IfOk};
ghost use Rattle.std.specs.Bool.{OnTrue};
ghost use Rattle.dimacs.specs.logic.Literal.{Clause};
ghost use Rattle.lrat_text.specs.Grammar.{IsClauseNumber};
ghost use Rattle.proof_lift.specs.HintWalk.{Kept};
ghost use Rattle.proof_lift.specs.inner.Images.{images_of};
ghost use Rattle.proof_lift.specs.inner.Propagation.{Lists, HasKey};

use crate::images::{Image, Images};
use crate::lemma_images::LogLemma;
use std::alloc::{AllocError, Global};
use std::collections::BTreeMap;

/// Each clause number is at least 1 and below this.
pub(crate) const LIMIT: u64 = 1 << 48;

/// Tells whether each number is at least 1 and below `LIMIT`.
pub(crate) fn numbers_fit(numbers: &[u64]) -> bool
    ensures { OnTrue result (All IsClauseNumber numbers.now) }
{
    for number in numbers {
        if *number == 0 || *number >= LIMIT {
            return false;
        }
    }
    true
}

/// Appends a foreign number if its clause has an image, so that it can be a hint; and if it is a
/// clause number, at least 1 and below `LIMIT`.
fn push_live(images: &Images, number: u64, numbers: &mut Vec<u64>) -> Result<(), AllocError>
    ensures { OnOk result (Lists (images_of images.now) (λ n. n ≡ number) numbers.old.items numbers.new.items) }
{
    if number == 0 || number >= LIMIT {
        return Ok(());
    }
    if let Image::Kept(_, _) = images.get(number) {
        numbers.push(number)?;
    }
    Ok(())
}

/// Appends the foreign numbers of the lemmas in one map that have an image.
fn put_lemmas(
    images: &Images,
    map: &BTreeMap<u64, Option<LogLemma>>,
    numbers: &mut Vec<u64>,
) -> Result<(), AllocError>
    ensures { OnOk result (Lists (images_of images.now) (HasKey map.now) numbers.old.items numbers.new.items) }
{
    for (number, _own) in map {
        push_live(images, *number, numbers)?;
    }
    Ok(())
}

/// Appends the numbers of those live clauses of the leaf's formula that have an image.
fn put_formula(images: &Images, numbers: &mut Vec<u64>) -> Result<(), AllocError>
    ensures { OnOk result (Lists (images_of images.now) (λ n. n < length images.now.live.items) numbers.old.items numbers.new.items) }
{
    for number in 0..images.live.len() {
        push_live(images, number as u64, numbers)?;
    }
    Ok(())
}

/// Appends the foreign numbers of all live lemmas that have an image.
fn put_all_lemmas(images: &Images, numbers: &mut Vec<u64>) -> Result<(), AllocError>
    ensures { OnOk result (Lists (images_of images.now) (λ n. length images.now.live.items ≤ n) numbers.old.items numbers.new.items) }
{
    for i in 0..images.lemmas.maps.len() {
        put_lemmas(images, &images.lemmas.maps[i], numbers)?;
    }
    Ok(())
}

/// Returns the foreign numbers of the live clauses that have an image.
pub(crate) fn live_numbers(alloc: Global, images: &Images) -> Result<Vec<u64>, AllocError>
    ensures numbers { IfOk result (λ v. All IsClauseNumber v.items) }
    ensures all { IfOk result (λ v. (n i : ℕ) (D : Clause) → images_of images.now n ≡ Some (Kept i D) → IsClauseNumber n → Contains v.items n) }
{
    let mut numbers = Vec::new(alloc);
    put_formula(images, &mut numbers)?;
    put_all_lemmas(images, &mut numbers)?;
    Ok(numbers)
}
