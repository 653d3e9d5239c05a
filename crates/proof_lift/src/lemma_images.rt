//! The images of the live lemmas: for each foreign lemma, the lemma of the log that replaces it.

ghost use Rattle.std.specs.Prelude.{◌≡◌, ◌%◌, ℕ, None, Some, OnOk, IfOk};
ghost use Rattle.proof_lift.specs.LiftedText.{with_image};
ghost use Rattle.proof_lift.specs.View.{image_of_lemma};
ghost use Rattle.proof_lift.specs.inner.Images.{image_in, image_in_map, lemma_images_of};

use crate::images::Image;
use dimacs::Lit;
use std::alloc::{AllocError, Global};
use std::collections::BTreeMap;

/// A lemma of the log: its number there, and its literals.
#[derive(Drop)]
pub(crate) struct LogLemma {
    pub(crate) number: u64,
    pub(crate) literals: Vec<Lit>,
}

/// The number of maps to which the lemmas are hashed.
const MAPS: u64 = 8192;

/// The images of the live lemmas, by foreign number: a hash table of ordered maps, where the hash is the remainder by 8,192. In most
/// proofs numbers follow each other closely, so each map is small and a look-up takes a step or two. If all numbers have one remainder, it
/// is a look-up in one map.
#[derive(Drop)]
pub(crate) struct LemmaImages {
    /// By remainder: the live lemmas of the foreign numbers with this remainder. `None` stands for a lemma that has a literal of the cube.
    pub(crate) maps: Vec<BTreeMap<u64, Option<LogLemma>>>,
}

/// Returns the index of the map that holds a number: its remainder by 8,192. Many small maps are
/// searched faster than one of all lemmas.
#[inline(always)]
fn map_index(number: u64) -> usize
    ensures { result ≡ number % 8192 }
{
    (number % MAPS) as usize
}

/// Returns the image of the lemma of this number, looked up in the number's map.
#[inline(always)]
fn find_in_map(map: &BTreeMap<u64, Option<LogLemma>>, number: u64) -> Image<'_>
    ensures { image_in result ≡ image_in_map (Some map.now) number }
{
    match map.get(&number) {
        Some(Some(own)) => Image::Kept(own.number, &own.literals),
        Some(None) => Image::Gone,
        None => Image::None,
    }
}

/// Adds the image of the lemma of this number to the number's map, or replaces it.
fn insert_in_map(
    map: &mut BTreeMap<u64, Option<LogLemma>>,
    number: u64,
    own: Option<LogLemma>,
) -> Result<(), AllocError>
    ensures { OnOk result (image_in_map (Some map.new) ≡ with_image (image_in_map (Some map.old)) number (Some (image_of_lemma own))) }
{
    map.insert(number, own)?;
    Ok(())
}

/// Removes the lemma of this number from the number's map.
fn remove_from_map(map: &mut BTreeMap<u64, Option<LogLemma>>, number: u64)
    ensures { image_in_map (Some map.new) ≡ with_image (image_in_map (Some map.old)) number None }
{
    map.remove(&number);
}

impl LemmaImages {
    /// Makes a table without a lemma.
    pub(crate) fn new(alloc: Global) -> Result<LemmaImages, AllocError>
        ensures { IfOk result (λ x. (n : ℕ) → lemma_images_of x n ≡ None) }
    {
        let mut maps = Vec::with_capacity(alloc, MAPS as usize)?;
        for _i in 0..MAPS {
            maps.push(BTreeMap::new(alloc))?;
        }
        Ok(LemmaImages { maps })
    }

    /// Returns the image of the lemma of this foreign number; `Image::None` if there is none.
    #[inline(always)]
    pub(crate) fn get(&self, number: u64) -> Image<'_>
        ensures { image_in result ≡ lemma_images_of self.now number }
    {
        let place = map_index(number);
        if place < self.maps.len() {
            find_in_map(&self.maps[place], number)
        } else {
            Image::None
        }
    }

    /// Adds the image of the lemma of this foreign number.
    pub(crate) fn put(&mut self, number: u64, own: Option<LogLemma>) -> Result<(), AllocError>
        ensures { OnOk result (lemma_images_of self.new ≡ with_image (lemma_images_of self.old) number (Some (image_of_lemma own))) }
    {
        let place = map_index(number);
        if place >= self.maps.len() {
            return Err(AllocError);
        }
        insert_in_map(&mut self.maps[place], number, own)
    }

    /// Removes the lemma of this foreign number, with its image.
    pub(crate) fn remove(&mut self, number: u64)
        ensures { lemma_images_of self.new ≡ with_image (lemma_images_of self.old) number None }
    {
        let place = map_index(number);
        if place < self.maps.len() {
            remove_from_map(&mut self.maps[place], number);
        }
    }
}
