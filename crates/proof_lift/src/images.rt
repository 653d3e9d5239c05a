//! The images of the live foreign clauses, by foreign number.

ghost use Rattle.proof_lift.specs.View.{image_of_lemma};
ghost use Rattle.std.specs.Prelude.{◌≡◌, ◌^◌, ◌+◌, ◌≤◌, ◌<◌, Some, None, List, ◌∷◌, true, false, replicate, length, OnOk, IfOk};
ghost use Rattle.dimacs.specs.logic.Literal.{Literal};
ghost use Rattle.proof_lift.specs.LiftedText.{leaf_images, with_image};
ghost use Rattle.proof_lift.specs.inner.Images.{image_in, images_of};

use crate::lemma_images::{LemmaImages, LogLemma};
use dimacs::{Formula, Lit};
use std::alloc::{AllocError, Global};

/// The image of a foreign clause, as the answer of a look-up.
#[derive(Clone, Copy)]
pub(crate) enum Image<'a> {
    /// No clause of this number is live.
    None,
    /// There is no image, and none is needed: the clause has a literal of the cube.
    Gone,
    /// The image is the clause of the log with this number and these literals.
    Kept(u64, &'a [Lit]),
}

/// The images of the live clauses. The formula's clauses are their own images, and are not copied.
pub(crate) struct Images {
    pub(crate) formula: Formula,
    /// By number: whether the clause of the leaf's formula is live. Entry 0 is false.
    pub(crate) live: Vec<bool>,
    pub(crate) lemmas: LemmaImages,
}

impl Drop for Images {
    fn drop(self) {
        let Images {
            formula: _,
            live: _,
            lemmas: _,
        } = self;
    }
}

/// The flags of clauses 1 to `clauses`, all live; number 0 is not.
fn live_flags(alloc: Global, clauses: usize) -> Result<Vec<bool>, AllocError>
    ensures { IfOk result (λ v. v.items ≡ false ∷ replicate clauses true) }
{
    let mut live = Vec::new(alloc);
    live.push(false)?;
    for _i in 0..clauses {
        live.push(true)?;
    }
    Ok(live)
}

impl Images {
    /// Makes the images of a leaf's formula. A clause of `formula` is its own image. The `units`
    /// unit clauses after them, one for each literal of the cube, need none: they are true under
    /// the cube.
    pub(crate) fn of(alloc: Global, formula: Formula, units: usize) -> Result<Images, AllocError>
        requires few { units < 2 ^ 62 }
        ensures stands { IfOk result (λ x. (q : List Literal) → length q ≡ units → images_of x ≡ leaf_images q formula) }
        ensures formula { IfOk result (λ x. x.formula ≡ formula) }
        ensures live { IfOk result (λ x. length x.live.items ≡ length formula.clauses + units + 1) }
    {
        let live = live_flags(alloc, formula.len() + units)?;
        let lemmas = LemmaImages::new(alloc)?;
        Ok(Images {
            formula,
            live,
            lemmas,
        })
    }

    /// Returns the image of a clause of the leaf's formula: itself, or none for a unit clause of
    /// the cube (`Gone`) and for a deleted clause (`None`).
    fn of_formula(&self, number: u64) -> Image<'_>
        requires { number < length self.now.live.items }
        ensures { image_in result ≡ images_of self.now number }
    {
        if !self.live[number as usize] {
            return Image::None;
        }
        let place = (number as usize).saturating_sub(1);
        if place >= self.formula.len() {
            return Image::Gone;
        }
        Image::Kept(number, self.formula.clause(place))
    }

    /// Returns the image of the lemma of this foreign number.
    fn of_lemma(&self, number: u64) -> Image<'_>
        requires { length self.now.live.items ≤ number }
        ensures { image_in result ≡ images_of self.now number }
    {
        self.lemmas.get(number)
    }

    /// Returns the image of a live foreign clause: of the leaf's formula, or of a lemma.
    pub(crate) fn get(&self, number: u64) -> Image<'_>
        ensures { image_in result ≡ images_of self.now number }
    {
        if (number as usize) < self.live.len() {
            self.of_formula(number)
        } else {
            self.of_lemma(number)
        }
    }

    /// Adds a lemma under a foreign number with its image; `None` if the lemma has a literal of the cube, so that it needs no image.
    pub(crate) fn put(&mut self, number: u64, own: Option<LogLemma>) -> Result<(), AllocError>
        requires { length self.old.live.items ≤ number }
        ensures ok { OnOk result (images_of self.new ≡ with_image (images_of self.old) number (Some (image_of_lemma own))) }
        ensures formula { self.new.formula ≡ self.old.formula }
        ensures live { length self.new.live.items ≡ length self.old.live.items }
    {
        self.lemmas.put(number, own)
    }

    /// Removes a foreign clause that the proof deletes, with its image.
    pub(crate) fn remove(&mut self, number: u64)
        ensures after { images_of self.new ≡ with_image (images_of self.old) number None }
        ensures formula { self.new.formula ≡ self.old.formula }
        ensures live { length self.new.live.items ≡ length self.old.live.items }
    {
        if (number as usize) < self.live.len() {
            self.live[number as usize] = false;
        } else {
            self.lemmas.remove(number);
        }
    }
}
