//! The lifting of a lemma's addition: the lemma is dropped, or its image is derived and written.

ghost use Rattle.std.specs.Prelude.{◌≡◌, ◌<◌, ◌≤◌, ◌+◌, ◌⊎◌, ◌++◌, [], Err, Some, OnOk, IfErr, length, All};
ghost use Rattle.dimacs.specs.logic.Literal.{IsWithin};
ghost use Rattle.dimacs.specs.logic.Propagation.{negations};
ghost use Rattle.lrat_text.specs.Grammar.{IsClauseNumber};
ghost use Rattle.lrat_text.specs.WrittenLine.{line_of};
ghost use Rattle.lrat_text.specs.declared.step.Step.TheVariants as owned;
ghost use Rattle.proof_lift.specs.LiftedText.{lift_addition, lift_lemma, with_image};
ghost use Rattle.proof_lift.specs.TrimmedLemma.{union};
ghost use Rattle.proof_lift.specs.HintWalk.{lift_walk, Gone, Kept};
ghost use Rattle.proof_lift.specs.inner.Faults.{line_fault_number};
ghost use Rattle.proof_lift.specs.inner.Images.{images_of};
ghost use Rattle.proof_lift.specs.inner.Ready.{IsReady, IsAssumed, KeepsTables, SameLeaf, state_of};
ghost use Rattle.proof_lift.specs.inner.Output.{WritesAs, IsPrefix};

use crate::fault::LineFault;
use crate::lemma_images::LogLemma;
use crate::line_writer::put_line;
use crate::marks::{assume_negations, join_cube, meets};
use crate::step_lifter::{Lemma, StepLifter};
use dimacs::Lit;
use lrat_text::{Groups, StepRef};

impl StepLifter {
    /// Drops a foreign lemma that has a literal of the cube: it is true under the cube, so no later
    /// lemma needs it, and nothing is written.
    fn drop_lemma(&mut self, id: u64) -> Result<(), LineFault>
        requires lemma { self.old.top < id }
        requires live { length self.old.images.live.items ≤ self.old.top + 1 }
        ensures stands { OnOk result (images_of self.new.images ≡ with_image (images_of self.old.images) id (Some Gone)) }
        ensures counts { OnOk result ((self.new.top ≡ id) × (self.new.own ≡ self.old.own) × (self.new.closed ≡ self.old.closed)) }
        ensures same { OnOk result (KeepsTables self.old self.new) }
        ensures refused { IfErr result (λ f. f ≡ LineFault.NoMemory) }
    {
        self.images.put(id, None)?;
        self.top = id;
        Ok(())
    }

    /// Writes the image of the foreign lemma of this number: `literals` as the log's next lemma, with the hints in `scratch.numbers`.
    fn write(
        &mut self,
        id: u64,
        empty: bool,
        literals: Vec<Lit>,
        out: &mut Vec<u8>,
    ) -> Result<(), LineFault>
        requires lemma { self.old.top < id }
        requires live { length self.old.images.live.items ≤ self.old.top + 1 }
        requires number { IsClauseNumber (self.old.own + 1) }
        requires literals { All (IsWithin 199999999) literals.items }
        requires hints { All IsClauseNumber self.old.scratch.numbers.items }
        ensures stands { OnOk result (images_of self.new.images ≡ with_image (images_of self.old.images) id (Some (Kept (self.old.own + 1) literals.items))) }
        ensures counts { OnOk result ((self.new.top ≡ id) × (self.new.own ≡ self.old.own + 1) × (self.new.closed ≡ empty)) }
        ensures text { OnOk result (out.new.items ≡ out.old.items ++ line_of (self.old.own + 1) (owned.Add (self.old.own + 1) literals.items self.old.scratch.numbers.items [])) }
        ensures same { OnOk result (KeepsTables self.old self.new) }
        ensures refused { IfErr result (λ f. f ≡ LineFault.NoMemory) }
        ensures front { IsPrefix out.old.items out.new.items }
    {
        let number = self.own + 1;
        let no_group = Groups::new(self.alloc);
        let line = StepRef::Add {
            id: number,
            lits: &literals,
            hints: &self.scratch.numbers,
            groups: &no_group,
        };
        put_line(line, number, out)?;
        self.images.put(id, Some(LogLemma { number, literals }))?;
        self.top = id;
        self.own = number;
        self.closed = empty;
        Ok(())
    }

    /// Lifts a lemma that has no literal of the cube: derives its image from the images of its
    /// hints, and writes it. The negations of the lemma's literals are marked before the call.
    /// `Err` with the fault of the walk along its hints.
    fn lift(
        &mut self,
        id: u64,
        lemma: Lemma<'_>,
        line: u64,
        out: &mut Vec<u8>,
    ) -> Result<(), LineFault>
        requires lemma { self.old.top < id }
        requires number { IsClauseNumber id }
        requires literals { All (IsWithin 199999999) lemma.lits.now }
        requires ready { IsAssumed line self.old lemma.lits.now }
        ensures writes { OnOk result (WritesAs (lift_lemma self.old.cube.items (state_of self.old) id lemma.entry.lits.now
            (lift_walk (images_of self.old.images) lemma.entry.hints.now (negations (union self.old.cube.items lemma.entry.lits.now)))) (state_of self.old).own (state_of self.new) out.old.items out.new.items) }
        ensures refused { IfErr result (λ f. (f ≡ LineFault.NoMemory) ⊎ (lift_lemma self.old.cube.items (state_of self.old) id lemma.entry.lits.now
            (lift_walk (images_of self.old.images) lemma.entry.hints.now (negations (union self.old.cube.items lemma.entry.lits.now))) ≡ Err (line_fault_number f))) }
        ensures ready { OnOk result (IsReady (line + 1) self.new) }
        ensures leaf { OnOk result (SameLeaf self.old self.new) }
        ensures front { IsPrefix out.old.items out.new.items }
    {
        self.scratch.clause.clear();
        self.scratch.clause.extend_from_slice(lemma.lits)?;
        join_cube(
            &mut self.scratch.marks,
            line,
            &self.cube,
            &mut self.scratch.clause,
        )?;
        let literals = self
            .scratch
            .derive(self.alloc, &self.images, line, lemma.hints)?;
        self.write(id, lemma.lits.is_empty(), literals, out)?;
        Ok(())
    }

    /// Lifts an addition. `Err` if its number is not above those before it, if the lemma is a tautology or has a group, or if the walk
    /// along its hints has a fault.
    pub(crate) fn add(
        &mut self,
        id: u64,
        lemma: Lemma<'_>,
        line: u64,
        out: &mut Vec<u8>,
    ) -> Result<(), LineFault>
        requires number { IsClauseNumber id }
        requires literals { All (IsWithin 199999999) lemma.lits.now }
        requires ready { IsReady line self.old }
        ensures writes { OnOk result (WritesAs (lift_addition self.old.cube.items (state_of self.old) id lemma.entry.lits.now lemma.entry.hints.now lemma.entry.groups.now) (state_of self.old).own (state_of self.new) out.old.items out.new.items) }
        ensures refused { IfErr result (λ f. (f ≡ LineFault.NoMemory) ⊎ (lift_addition self.old.cube.items (state_of self.old) id lemma.entry.lits.now lemma.entry.hints.now lemma.entry.groups.now ≡ Err (line_fault_number f))) }
        ensures ready { OnOk result (IsReady (line + 1) self.new) }
        ensures leaf { OnOk result (SameLeaf self.old self.new) }
        ensures front { IsPrefix out.old.items out.new.items }
    {
        if id <= self.top {
            return Err(LineFault::NumberNotRising);
        }
        self.scratch.make_room(lemma.lits)?;
        if assume_negations(&mut self.scratch.marks, line, lemma.lits) {
            return Err(LineFault::Tautology);
        }
        if !lemma.groups.is_empty() {
            return Err(LineFault::NotRup);
        }
        if meets(&self.scratch.marks, line, &self.cube) {
            self.drop_lemma(id)?;
            return Ok(());
        }
        self.lift(id, lemma, line, out)?;
        Ok(())
    }
}
