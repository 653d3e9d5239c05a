//! Lifts a proof step by step.

ghost use Rattle.std.specs.Prelude.{◌≡◌, ◌<◌, ◌≤◌, ◌+◌, ◌*◌, ◌⊎◌, [], Ok, Err, Some, OnOk, IfOk, IfErr, length, vec_len, All, true, false};
ghost use Rattle.std.specs.Bool.{MatchBool};
ghost use Rattle.dimacs.specs.logic.Literal.{IsWithin};
ghost use Rattle.lrat_check.specs.inner.LiteralTable.{FitsTable};
ghost use Rattle.lrat_text.specs.Grammar.{IsStepWithin};
ghost use Rattle.lrat_text.specs.Steps.{step_of};
ghost use Rattle.lrat_text.specs.declared.step.Step.TheVariants as owned;
ghost use Rattle.proof_lift.specs.LiftedText.{lift_step, begun, after_deletion, own_numbers, all_live};
ghost use Rattle.proof_lift.specs.inner.Clean.{IsClean};
ghost use Rattle.proof_lift.specs.inner.Faults.{line_fault_number};
ghost use Rattle.proof_lift.specs.inner.Images.{images_of};
ghost use Rattle.proof_lift.specs.inner.Ready.{IsReady, KeepsTables, SameLeaf, state_of};
ghost use Rattle.proof_lift.specs.inner.EmptyLemma.{IsClosed, NothingCloses};
ghost use Rattle.proof_lift.specs.inner.Output.{WritesAs, IsPrefix};

use crate::cube_propagation::refuting_hints;
use crate::fault::LineFault;
use crate::images::{Image, Images};
use crate::live_numbers::LIMIT;
use crate::scratch::Scratch;
use dimacs::{Formula, Lit};
use lrat_text::{Groups, StepRef, put_ref};
use std::alloc::{AllocError, Global};

/// A foreign lemma, with the hints and groups by which it is to follow.
#[derive(Clone, Copy)]
pub(crate) struct Lemma<'a> {
    pub(crate) lits: &'a [Lit],
    pub(crate) hints: &'a [u64],
    pub(crate) groups: &'a Groups,
}

/// The state of lifting between two steps.
pub(crate) struct StepLifter {
    pub(crate) alloc: Global,
    pub(crate) images: Images,
    pub(crate) cube: Vec<Lit>,
    /// The greatest foreign number so far.
    pub(crate) top: u64,
    /// The number of the last lemma that was written.
    pub(crate) own: u64,
    /// Whether the empty lemma was lifted, after which steps are skipped.
    pub(crate) closed: bool,
    pub(crate) scratch: Scratch,
}

impl Drop for StepLifter {
    fn drop(self) {
        let StepLifter {
            alloc: _,
            images: _,
            cube: _,
            top: _,
            own: _,
            closed: _,
            scratch: _,
        } = self;
    }
}

/// Makes tables that have a cell for each literal of the formula and the cube, and for its negation.
fn begin_scratch(alloc: Global, formula: &Formula, cube: &[Lit]) -> Result<Scratch, AllocError>
    ensures marks { IfOk result (λ s. 2 * formula.now.vars + 2 ≤ vec_len s.marks) }
    ensures used { IfOk result (λ s. 2 * formula.now.vars + 2 ≤ vec_len s.used) }
    ensures cube { IfOk result (λ s. FitsTable (vec_len s.marks) cube.now × FitsTable (vec_len s.used) cube.now) }
    ensures clean { IfOk result (λ s. IsClean 1 s) }
{
    let mut scratch = Scratch::new(alloc);
    scratch.reserve(2 * formula.vars() as usize + 2)?;
    scratch.make_room(cube)?;
    Ok(scratch)
}

impl StepLifter {
    /// Makes the state before the first step of a proof of the leaf's formula.
    pub(crate) fn of(
        alloc: Global,
        formula: Formula,
        cube: Vec<Lit>,
    ) -> Result<StepLifter, AllocError>
        requires few { vec_len cube ≤ 1000000 }
        requires within { All (IsWithin 199999999) cube.items }
        ensures begun { IfOk result (λ x. state_of x ≡ begun cube.items formula) }
        ensures ready { IfOk result (λ x. IsReady 1 x) }
        ensures formula { IfOk result (λ x. x.images.formula ≡ formula) }
        ensures cube { IfOk result (λ x. x.cube.items ≡ cube.items) }
    {
        // Called for its contract: a formula is within the limits.
        let _ = formula.vars();
        let own = formula.len();
        let top = own + cube.len();
        let scratch = begin_scratch(alloc, &formula, &cube)?;
        let images = Images::of(alloc, formula, cube.len())?;
        Ok(StepLifter {
            alloc,
            images,
            cube,
            top: top as u64,
            own: own as u64,
            closed: false,
            scratch,
        })
    }

    /// Removes the clauses of these foreign numbers. Leaves in `scratch.numbers` the log's numbers
    /// to delete: those of their images that are lemmas, since the log never deletes the formula's
    /// clauses. `Err` if a number is not live.
    fn remove(&mut self, ids: &[u64]) -> Result<(), LineFault>
        ensures stands { OnOk result (images_of self.new.images ≡ after_deletion (images_of self.old.images) ids.now) }
        ensures numbers { OnOk result (self.new.scratch.numbers.items ≡ own_numbers (length self.old.images.formula.clauses) (images_of self.old.images) ids.now) }
        ensures live { OnOk result (all_live (images_of self.old.images) ids.now ≡ true) }
        ensures refused { IfErr result (λ f. (f ≡ LineFault.NoMemory) ⊎ ((all_live (images_of self.old.images) ids.now ≡ false) × (f ≡ LineFault.UnknownClause))) }
        ensures same { OnOk result (KeepsTables self.old self.new) }
        ensures counts { OnOk result ((self.new.top ≡ self.old.top) × (self.new.own ≡ self.old.own) × (self.new.closed ≡ self.old.closed)) }
    {
        let given = self.images.formula.len() as u64;
        self.scratch.numbers.clear();
        for id in ids {
            match self.images.get(*id) {
                Image::None => return Err(LineFault::UnknownClause),
                Image::Gone => {}
                Image::Kept(number, _) => {
                    if number > given {
                        self.scratch.numbers.push(number)?;
                    }
                }
            }
            self.images.remove(*id);
        }
        Ok(())
    }

    /// Lifts a deletion: writes the deletion of the lemmas' images, or nothing if no image is a lemma.
    fn delete(&mut self, ids: &[u64], line: u64, out: &mut Vec<u8>) -> Result<(), LineFault>
        requires ready { IsReady line self.old }
        ensures writes { OnOk result (WritesAs (lift_step self.old.cube.items (length self.old.images.formula.clauses) (state_of self.old) (owned.Delete ids.now)) (state_of self.old).own (state_of self.new) out.old.items out.new.items) }
        ensures refused { IfErr result (λ f. (f ≡ LineFault.NoMemory) ⊎ (lift_step self.old.cube.items (length self.old.images.formula.clauses) (state_of self.old) (owned.Delete ids.now) ≡ Err (line_fault_number f))) }
        ensures ready { OnOk result (IsReady (line + 1) self.new) }
        ensures leaf { OnOk result (SameLeaf self.old self.new) }
        ensures front { IsPrefix out.old.items out.new.items }
    {
        self.remove(ids)?;
        if self.scratch.numbers.is_empty() {
            return Ok(());
        }
        let step = StepRef::Delete {
            ids: &self.scratch.numbers,
        };
        put_ref(step, self.own, out)?;
        Ok(())
    }

    /// Writes the empty lemma's image for a text that ends without one, if unit propagation over
    /// the live images finds a conflict under the cube. Tells whether it does.
    pub(crate) fn close(&mut self, line: u64, out: &mut Vec<u8>) -> Result<bool, LineFault>
        requires ready { IsReady line self.old }
        ensures closed { IfOk result (λ b. MatchBool b (IsClosed self.old self.new out.old.items out.new.items) (NothingCloses self.old)) }
        ensures refused { IfErr result (λ f. f ≡ LineFault.NoMemory) }
        ensures front { IsPrefix out.old.items out.new.items }
    {
        let id = self.top + 1;
        if id >= LIMIT {
            return Ok(false);
        }
        let places = self.scratch.marks.len();
        let Some(hints) = refuting_hints(self.alloc, &self.images, &self.cube, places)? else {
            return Ok(false);
        };
        let groups = Groups::new(self.alloc);
        let lemma = Lemma {
            lits: &[],
            hints: &hints,
            groups: &groups,
        };
        self.add(id, lemma, line, out)?;
        Ok(true)
    }

    /// Lifts a step, which is on the line of this number, and appends the lines of the log to `out`. `Err` with the fault of the step.
    pub(crate) fn take(
        &mut self,
        step: StepRef<'_>,
        line: u64,
        out: &mut Vec<u8>,
    ) -> Result<(), LineFault>
        requires limits { IsStepWithin 199999999 (step_of step) }
        requires ready { IsReady line self.old }
        ensures writes { OnOk result (WritesAs (lift_step self.old.cube.items (length self.old.images.formula.clauses) (state_of self.old) (step_of step.entry)) (state_of self.old).own (state_of self.new) out.old.items out.new.items) }
        ensures refused { IfErr result (λ f. (f ≡ LineFault.NoMemory) ⊎ (lift_step self.old.cube.items (length self.old.images.formula.clauses) (state_of self.old) (step_of step.entry) ≡ Err (line_fault_number f))) }
        ensures ready { OnOk result (IsReady (line + 1) self.new) }
        ensures leaf { OnOk result (SameLeaf self.old self.new) }
        ensures front { IsPrefix out.old.items out.new.items }
    {
        match step {
            StepRef::Add {
                id,
                lits,
                hints,
                groups,
            } => self.add(
                id,
                Lemma {
                    lits,
                    hints,
                    groups,
                },
                line,
                out,
            ),
            StepRef::Delete { ids } => self.delete(ids, line, out),
        }
    }
}
