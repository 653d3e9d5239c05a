//! Buffers for lifting a lemma. Once they are large enough, only the lemma takes memory.

ghost use Rattle.std.specs.Prelude.{◌≡◌, ℕ, ◌≤◌, ◌<◌, ◌+◌, ◌⊎◌, Ok, length, OnOk, IfOk, IfErr, vec_len};
ghost use Rattle.dimacs.specs.logic.Propagation.{negations};
ghost use Rattle.lrat_check.specs.inner.LiteralTable.{FitsTable};
ghost use Rattle.proof_lift.specs.TrimmedLemma.{union};
ghost use Rattle.proof_lift.specs.HintWalk.{lift_walk};
ghost use Rattle.proof_lift.specs.inner.Faults.{line_fault_number};
ghost use Rattle.proof_lift.specs.inner.Images.{images_of};
ghost use Rattle.proof_lift.specs.inner.Clean.{IsClean, Roomier};
ghost use Rattle.proof_lift.specs.inner.Tables.{marked, AllBelow};
ghost use Rattle.proof_lift.specs.inner.Walks.{ImagesFit, Trims, outcome_fault};

use crate::fault::LineFault;
use crate::images::Images;
use crate::lemma_trim::{kept_literals, trim};
use crate::literal_table::{grow, places_for};
use crate::walk::walk;
use dimacs::Lit;
use std::alloc::{AllocError, Global};

/// Tables of stamps by literal, and vectors; each is used again for the next lemma.
#[derive(Drop)]
pub(crate) struct Scratch {
    /// The stamps of assumed literals.
    pub(crate) marks: Vec<u64>,
    /// The stamps of literals that the conflict uses.
    pub(crate) used: Vec<u64>,
    /// The lemma, followed by the negation of each literal of the cube that the lemma does not hold.
    pub(crate) clause: Vec<Lit>,
    /// The numbers of the written line: hints, or deleted lemmas.
    pub(crate) numbers: Vec<u64>,
}

impl Scratch {
    /// Makes empty tables and vectors.
    pub(crate) fn new(alloc: Global) -> Scratch
        ensures { (n : ℕ) → 0 < n → IsClean n result }
    {
        Scratch {
            marks: Vec::new(alloc),
            used: Vec::new(alloc),
            clause: Vec::new(alloc),
            numbers: Vec::new(alloc),
        }
    }

    /// Grows each table to at least `places` cells.
    pub(crate) fn reserve(&mut self, places: usize) -> Result<(), AllocError>
        ensures marks { OnOk result (places ≤ vec_len self.new.marks) }
        ensures used { OnOk result (places ≤ vec_len self.new.used) }
        ensures roomier { OnOk result (Roomier self.old self.new) }
        ensures clean { (n : ℕ) → IsClean n self.old → OnOk result (IsClean n self.new) }
    {
        grow(&mut self.marks, places)?;
        grow(&mut self.used, places)
    }

    /// Grows the tables so that each of these literals and its negation has a cell.
    pub(crate) fn make_room(&mut self, lits: &[Lit]) -> Result<(), AllocError>
        ensures marks { OnOk result (FitsTable (vec_len self.new.marks) lits.now) }
        ensures used { OnOk result (FitsTable (vec_len self.new.used) lits.now) }
        ensures roomier { OnOk result (Roomier self.old self.new) }
        ensures clean { (n : ℕ) → IsClean n self.old → OnOk result (IsClean n self.new) }
    {
        self.reserve(places_for(lits))
    }

    /// Makes the image of a lemma: propagates along its hints to a conflict, and walks back from
    /// it. Leaves in `numbers` the log's numbers of the hints that are used, and returns those
    /// literals of `clause` that they use. `Err` with the fault of the walk along the hints.
    pub(crate) fn derive(
        &mut self,
        alloc: Global,
        images: &Images,
        stamp: u64,
        hints: &[u64],
    ) -> Result<Vec<Lit>, LineFault>
        requires marks { ImagesFit (vec_len self.old.marks) (images_of images.now) }
        requires used { ImagesFit (vec_len self.old.used) (images_of images.now) }
        requires clause { FitsTable (vec_len self.old.used) self.old.clause.items }
        requires positive { 0 < stamp }
        requires below { AllBelow (stamp + 1) self.old.marks.items }
        requires unused { AllBelow stamp self.old.used.items }
        ensures derived { IfOk result (λ v. Trims self.old.clause.items (lift_walk (images_of images.now) hints.now (marked self.old.marks.items stamp)) v.items self.new.numbers.items) }
        ensures refused { IfErr result (λ f. (f ≡ LineFault.NoMemory) ⊎ (outcome_fault (lift_walk (images_of images.now) hints.now (marked self.old.marks.items stamp)) ≡ Some (line_fault_number f))) }
        ensures clean { OnOk result (IsClean (stamp + 1) self.new) }
        ensures roomier { OnOk result (Roomier self.old self.new) }
    {
        let mut chain = Vec::with_capacity(alloc, hints.len())?;
        let conflict = walk(images, &mut self.marks, stamp, hints, &mut chain)?;
        trim(
            images,
            &mut self.used,
            stamp,
            &chain,
            conflict,
            &mut self.numbers,
        )?;
        Ok(kept_literals(alloc, &self.used, stamp, &self.clause)?)
    }
}
