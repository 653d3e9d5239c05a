//! Unit propagation under the cube over the live images, until a clause is false or nothing changes.

ghost use Rattle.std.specs.Prelude.{◌≡◌, ◌≤◌, ℕ, [], ◌∷◌, All, length, vec_len, IfOk};
ghost use Rattle.dimacs.specs.logic.Propagation.{Assumed, negations};
ghost use Rattle.lrat_check.specs.inner.LiteralTable.{FitsTable};
ghost use Rattle.lrat_text.specs.Grammar.{IsClauseNumber};
ghost use Rattle.proof_lift.specs.TrimmedLemma.{union};
ghost use Rattle.proof_lift.specs.HintWalk.{ClauseImages};
ghost use Rattle.proof_lift.specs.inner.Images.{images_of};
ghost use Rattle.proof_lift.specs.inner.Reached.{ComesTo, Shifts, EndsAs, IsReached, GivesHints};
ghost use Rattle.proof_lift.specs.inner.Walks.{ImagesFit};

use crate::counter_propagation::propagation_order;
use crate::images::{Image, Images};
use crate::literal_table::grow;
use crate::live_numbers::{live_numbers, numbers_fit};
use crate::marks::join_cube;
use crate::status::classify;
use dimacs::Lit;
use lrat_check::Status;
use std::alloc::{AllocError, Global};

/// The result of a visit to clauses.
#[derive(Clone, Copy)]
pub(crate) enum Look {
    /// A clause is false.
    Conflict,
    /// A literal became true.
    Moved,
    /// No clause is false, and no literal became true.
    Still,
}

/// The state of propagation: the literals that are true by now, and the hints that derive them.
#[derive(Drop)]
pub(crate) struct Reached {
    /// By literal: 1 if it is true, else 0.
    pub(crate) truth: Vec<u64>,
    pub(crate) hints: Vec<u64>,
}

impl Reached {
    /// Makes the state before propagation, in which the literals of the cube alone are true. The
    /// table has at least `places` cells.
    fn of(alloc: Global, cube: &[Lit], places: usize) -> Result<Reached, AllocError>
        requires { FitsTable places cube.now }
        ensures reached { IfOk result (λ r. (T : ClauseImages) → IsReached T (negations (union cube.now [])) r) }
        ensures places { IfOk result (λ r. places ≤ vec_len r.truth) }
    {
        let mut truth = Vec::new(alloc);
        grow(&mut truth, places)?;
        let mut clause = Vec::new(alloc);
        join_cube(&mut truth, 1, cube, &mut clause)?;
        Ok(Reached {
            truth,
            hints: Vec::new(alloc),
        })
    }

    /// Visits the image of the clause of this number once. If the image is unit under the cube and
    /// the literals so far, its literal becomes true; if it is unit or false, the number becomes a
    /// hint.
    fn visit(&mut self, images: &Images, number: u64) -> Result<Look, AllocError>
        requires number { IsClauseNumber number }
        requires fits { ImagesFit (vec_len self.old.truth) (images_of images.now) }
        ensures shifts { IfOk result (Shifts self.old self.new) }
        ensures comes { IfOk result (λ look. (A : Assumed) → IsReached (images_of images.now) A self.old → ComesTo (images_of images.now) A (number ∷ []) self.old self.new look) }
    {
        let Image::Kept(_, clause) = images.get(number) else {
            return Ok(Look::Still);
        };
        match classify(&self.truth, 1, clause) {
            Status::Satisfied | Status::Undecided => Ok(Look::Still),
            Status::Falsified => {
                self.hints.push(number)?;
                Ok(Look::Conflict)
            }
            Status::Unit(l) => {
                self.hints.push(number)?;
                self.truth[l.index()] = 1;
                Ok(Look::Moved)
            }
        }
    }

    /// Visits the images of the clauses of these numbers in turn, and ends at one that is false.
    fn visit_all(&mut self, images: &Images, numbers: &[u64]) -> Result<Look, AllocError>
        requires numbers { All IsClauseNumber numbers.now }
        requires fits { ImagesFit (vec_len self.old.truth) (images_of images.now) }
        ensures shifts { IfOk result (Shifts self.old self.new) }
        ensures comes { IfOk result (λ look. (A : Assumed) → IsReached (images_of images.now) A self.old → ComesTo (images_of images.now) A numbers.now self.old self.new look) }
    {
        let mut moved = false;
        for number in numbers {
            match self.visit(images, *number)? {
                Look::Conflict => return Ok(Look::Conflict),
                Look::Moved => moved = true,
                Look::Still => {}
            }
        }
        Ok(if moved { Look::Moved } else { Look::Still })
    }

    /// Makes passes over the clauses until one changes nothing. Tells whether a clause is false then.
    fn propagate(&mut self, images: &Images, numbers: &[u64]) -> Result<bool, AllocError>
        requires numbers { All IsClauseNumber numbers.now }
        requires fits { ImagesFit (vec_len self.old.truth) (images_of images.now) }
        ensures { IfOk result (λ b. (A : Assumed) → IsReached (images_of images.now) A self.old → EndsAs (images_of images.now) A numbers.now self.new b) }
    {
        loop {
            match self.visit_all(images, numbers)? {
                Look::Conflict => return Ok(true),
                Look::Still => return Ok(false),
                Look::Moved => {}
            }
        }
    }
}

/// Hints that derive the empty lemma under the cube, by unit propagation over the live images; none if propagation meets no conflict. A
/// table by literal has `places` places.
///
/// Propagation by counters gives an order of clauses in linear time, and one pass in this order finds all that follows. No contract relies
/// on the order: passes over all clauses come after it, of which the first changes nothing.
pub(crate) fn refuting_hints(
    alloc: Global,
    images: &Images,
    cube: &[Lit],
    places: usize,
) -> Result<Option<Vec<u64>>, AllocError>
    requires fits { ImagesFit places (images_of images.now) }
    requires cube { FitsTable places cube.now }
    ensures { IfOk result (λ hints. GivesHints (images_of images.now) cube.now hints) }
{
    let numbers = live_numbers(alloc, images)?;
    let order = propagation_order(alloc, images, &numbers, cube, places)?;
    let mut reached = Reached::of(alloc, cube, places)?;
    if numbers_fit(&order) {
        if let Look::Conflict = reached.visit_all(images, &order)? {
            return Ok(Some(reached.hints));
        }
    }
    if reached.propagate(images, &numbers)? {
        return Ok(Some(reached.hints));
    }
    Ok(None)
}
