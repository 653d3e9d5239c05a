//! Unit propagation along a lemma's hints.

ghost use Rattle.std.specs.Prelude.{◌≡◌, ◌+◌, length};
ghost use Rattle.proof_lift.specs.HintWalk.{lift_walk};
ghost use Rattle.proof_lift.specs.inner.Tables.{marked, AllBelow};
ghost use Rattle.proof_lift.specs.inner.Images.{images_of};
ghost use Rattle.proof_lift.specs.inner.Walks.{ImagesFit, passed_by, Tells, from_there};

use crate::fault::LineFault;
use crate::images::{Image, Images};
use crate::status::classify;
use dimacs::Lit;
use lrat_check::Status;

/// A hint that was unit, by its foreign number, and its unit literal.
#[derive(Clone, Copy)]
pub(crate) struct Link {
    pub(crate) hint: u64,
    pub(crate) unit: Lit,
}

/// The false clause at which propagation ends, with its number in the log.
#[derive(Clone, Copy)]
pub(crate) struct Conflict<'a> {
    pub(crate) number: u64,
    pub(crate) clause: &'a [Lit],
}

/// Propagates along the hints to the first whose image is false, and returns that image. A hint whose clause needs no image, or whose image
/// is true, is skipped; each unit one is appended to `chain`. `Err` if a hint names no live clause or has two literals that are not false,
/// or if no image is false.
pub(crate) fn walk<'a>(
    images: &'a Images,
    marks: &mut [u64],
    stamp: u64,
    hints: &[u64],
    chain: &mut Vec<Link>,
) -> Result<Conflict<'a>, LineFault>
    requires fits { ImagesFit (length marks.old) (images_of images.now) }
    requires below { AllBelow (stamp + 1) marks.old }
    ensures walk { Tells result (passed_by (images_of images.now) chain.new.items)
        (from_there (passed_by (images_of images.now) chain.old.items) (lift_walk (images_of images.now) hints.now (marked marks.old stamp))) }
    ensures places { length marks.new ≡ length marks.old }
    ensures below { AllBelow (stamp + 1) marks.new }
{
    for hint in hints {
        match images.get(*hint) {
            Image::None => return Err(LineFault::UnknownClause),
            Image::Gone => {}
            Image::Kept(number, clause) => {
                match classify(marks, stamp, clause) {
                    Status::Satisfied => {}
                    Status::Undecided => return Err(LineFault::HintNotUnit),
                    Status::Falsified => return Ok(Conflict { number, clause }),
                    Status::Unit(l) => {
                        chain.push(Link {
                            hint: *hint,
                            unit: l,
                        })?;
                        marks[l.index()] = stamp;
                    }
                }
            }
        }
    }
    Err(LineFault::NotRup)
}
