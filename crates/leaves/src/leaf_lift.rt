//! `lift`: turns another solver's proof of the formula of a leaf into a log over the formula that closes the leaf.

ghost use Rattle.std.specs.Prelude.{◌≡◌, ◌≤◌, ◌⊎◌, ℕ, List, [], ◌++◌, IfOk, IfErr, vec_len};
ghost use Rattle.dimacs.specs.logic.Cnf.{Cnf};
ghost use Rattle.icnf.specs.Leaves.{Cube};
ghost use Rattle.leaves.specs.Leaf.{Prints, leaf_of};
ghost use Rattle.leaves.specs.LeafLift.{BeginsLeaf, EndsLifted, TakesProofPiece, HasTakenProof, PrintsLift, lifted_text, proof_fault_text, proof_step_fault_text};
ghost use Rattle.lrat_check.specs.ProofFaults.{no_memory};
ghost use Rattle.lrat_text.specs.Log.{Closes};
ghost use Rattle.proof_lift.specs.Leaves.{IsCube, IsRefutation};
ghost use Rattle.proof_lift.specs.Stream.{IsFaultOf};

use crate::leaf::{NO_LEAF, cube_of};
use crate::split::Split;
use dimacs::{Formula, Lit};
use lrat_check::CheckFault;
use proof_lift::Lifter;
use reports::{Report, put_fault, put_number, put_step_fault};
use std::alloc::{AllocError, Global};

/// Turns an LRAT proof of the formula of a leaf, which comes piece by piece, into a log over the formula that closes the leaf.
///
/// The bytes of the log are handed out as they come. They are of use only if `finish` answers `Ok`.
pub struct Lift {
    /// Checks the lines of the proof, and lifts them.
    pub(crate) lifter: Lifter,
    /// The bytes of the log that are not handed out yet.
    pub(crate) out: Vec<u8>,
}

impl Drop for Lift {
    fn drop(self) {
        let Lift { lifter: _, out: _ } = self;
    }
}

/// A lift of a proof of the formula under this cube, before the first byte of the proof.
fn begin(alloc: Global, formula: Formula, cube: Vec<Lit>) -> Result<Lift, AllocError>
    requires few { vec_len cube ≤ 1000000 }
    requires cube { IsCube formula cube.items }
    ensures { IfOk result (HasTakenProof formula cube.items [] []) }
{
    let _ = formula.vars(); // its contract says that the formula is within the limits
    let lifter = Lifter::of(alloc, formula, cube)?;
    Ok(Lift {
        lifter,
        out: Vec::new(alloc),
    })
}

impl Lift {
    /// A lift of a proof of the formula of the leaf of this number, from 1, before the first byte of the proof; None if there is no such
    /// leaf.
    pub fn of(alloc: Global, split: Split, leaf: u64) -> Result<Option<Lift>, AllocError>
        ensures { IfOk result (BeginsLeaf split.formula split.tree leaf) }
    {
        let cube = match cube_of(&split.tree, leaf) {
            None => return Ok(None),
            Some(cube) => Vec::from_slice(alloc, cube)?,
        };
        let lift = begin(alloc, split.formula, cube)?;
        Ok(Some(lift))
    }

    /// Reads the next piece of the proof. A fault is kept for `finish`.
    pub fn feed(&mut self, piece: &[u8])
        ensures { TakesProofPiece piece.now self.old self.new }
    {
        let _ = self.lifter.feed(piece, &mut self.out);
    }

    /// Lends the bytes of the log that were written since the last call of `forget`.
    pub fn written(&self) -> &[u8]
        ensures { result.now ≡ self.now.out.items }
    {
        &self.out
    }

    /// Drops the bytes that `written` lends, after the caller has stored them.
    pub fn forget(&mut self)
        ensures stands { (F : Cnf) (q : Cube) (bytes handed : List ℕ) → HasTakenProof F q bytes handed self.old → HasTakenProof F q bytes (handed ++ self.old.out.items) self.new }
        ensures out { self.new.out.items ≡ [] }
    {
        self.out.clear();
    }

    /// Ends the proof. Answers the last bytes of the log that are not handed out yet, or the first fault of the proof.
    pub fn finish(self) -> Result<Vec<u8>, CheckFault>
        // Whatever came in, the bytes handed out and those that are left are a log over the formula that closes the leaf.
        ensures closes { IfOk result (λ rest. (F : Cnf) (q : Cube) (bytes handed : List ℕ) → HasTakenProof F q bytes handed self → Closes F q (handed ++ rest.items)) }
        // A refutation of the leaf's formula by reverse unit propagation alone is refused only if memory is refused.
        ensures complete { (F : Cnf) (q : Cube) (bytes handed : List ℕ) → HasTakenProof F q bytes handed self → IsRefutation (leaf_of q F) bytes → EndsLifted result }
        // The fault is the proof's first one, with its line. It is 13 exactly if only the empty lemma is missing, and no hints close the
        // leaf.
        ensures exact { IfErr result (λ fault. (F : Cnf) (q : Cube) (bytes handed : List ℕ) → HasTakenProof F q bytes handed self → (fault ≡ no_memory) ⊎ IsFaultOf F q bytes fault) }
    {
        let Lift { lifter, mut out } = self;
        lifter.finish(&mut out)?;
        Ok(out)
    }
}

/// How a lift ended.
#[derive(Clone, Copy, Debug, PartialEq, Eq)]
pub enum LiftOutcome {
    /// There is no such leaf.
    NoLeaf,
    /// The log closes the leaf.
    Lifted,
    /// The proof's first fault has this number, in this line, from 1.
    Refused { line: u64, number: u8 },
    /// The proof is binary, and its first fault has this number, in this step, from 1.
    RefusedStep { step: u64, number: u8 },
}

/// The report of a leaf of this number, from 1, that is lifted: status 0.
fn lifted(alloc: Global, leaf: u64) -> Result<Report, AllocError>
    ensures { IfOk result (Prints 0 (lifted_text leaf)) }
{
    let mut report = Report::of(alloc, b"c leaf ", 0)?;
    put_number(&mut report.stdout, leaf)?;
    report.stdout.extend_from_slice(b" lifted\n")?;
    Ok(report)
}

/// The report of a proof whose first fault has this number, in this line, from 1: status 1.
fn refused(alloc: Global, line: u64, number: u8) -> Result<Report, AllocError>
    ensures { IfOk result (Prints 1 (proof_fault_text line number)) }
{
    let mut report = Report::of(alloc, b"c proof ", 1)?;
    put_fault(&mut report.stdout, line, number)?;
    Ok(report)
}

/// The report of a binary proof whose first fault has this number, in this step, from 1: status 1.
fn refused_step(alloc: Global, step: u64, number: u8) -> Result<Report, AllocError>
    ensures { IfOk result (Prints 1 (proof_step_fault_text step number)) }
{
    let mut report = Report::of(alloc, b"c proof ", 1)?;
    put_step_fault(&mut report.stdout, step, number)?;
    Ok(report)
}

/// The report of a lift for the leaf of this number, from 1, which has ended with `end`: status 0 if the leaf is lifted, and else 1. An
/// error is reported as `c no memory`, status 1.
pub fn lift_report(alloc: Global, leaf: u64, end: LiftOutcome) -> Result<Report, AllocError>
    ensures { IfOk result (PrintsLift leaf end) }
{
    match end {
        LiftOutcome::NoLeaf => Report::of(alloc, NO_LEAF, 1),
        LiftOutcome::Lifted => lifted(alloc, leaf),
        LiftOutcome::Refused { line, number } => refused(alloc, line, number),
        LiftOutcome::RefusedStep { step, number } => refused_step(alloc, step, number),
    }
}
