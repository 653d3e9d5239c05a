//! The checker of a proof in binary form, whole or in pieces of any length.

ghost use Rattle.std.specs.Prelude.{◌≡◌, ◌≢◌, ◌⊎◌, [], None, Ok, Err, OnOk, IfOk, MatchResult};
ghost use Rattle.lrat_binary.specs.Parser.{BetweenStepsWithin};
ghost use Rattle.lrat_check.specs.ProofFaults.{no_memory, GivesCheck};
ghost use Rattle.proof_check.specs.BinaryProof.{AcceptsBinary};
ghost use Rattle.proof_check.specs.FirstFault.{check_binary_of, behind_steps};
ghost use Rattle.proof_check.specs.Stream.{Within, Failed, check_more, has_failed, HasTaken, TakesPiece};
ghost use Rattle.proof_check.specs.inner.Stream.{LeadsTo, feed_refusal};
ghost use Rattle.std.specs.Result.{result_err};

use crate::steps::StepChecker;
use dimacs::Formula;
use lrat_binary::{BinaryReader, FeedFault, reading_within_is_spelling};
use lrat_check::{CheckFault, Checker};
use lrat_text::{TextFault, proof_top};
use std::alloc::{AllocError, Global};
use std::marker::Model;

/// The number of the fault of a proof of which no step adds the empty clause.
const NOT_REFUTED: u8 = 13;

/// Answers the fault of a piece that was not taken to its end: of its bytes, in the step of this
/// number, or of a step that the checker refused.
fn refused(fault: FeedFault<CheckFault>, number: u64) -> CheckFault
    ensures { result ≡ feed_refusal fault number }
{
    match fault {
        FeedFault::Bytes(fault) => CheckFault::of_text(fault, number),
        FeedFault::Step(fault) => fault,
    }
}

/// Reads a piece, which continues the incomplete step of the reader `begun`, and checks the steps that are complete now.
fn take_piece(
    begun: &mut BinaryReader,
    steps: &mut StepChecker,
    piece: &[u8],
) -> Result<(), CheckFault>
    requires { steps.old.checker.fault ≡ None }
    ensures { MatchResult result
        (λ _. (steps.new.checker.fault ≡ None) × LeadsTo (Within steps.old.checker steps.old.number begun.old) piece.now (Within steps.new.checker steps.new.number begun.new))
        (λ fault. (fault ≡ no_memory) ⊎ LeadsTo (Within steps.old.checker steps.old.number begun.old) piece.now (Failed fault)) }
{
    match begun.feed(piece, steps) {
        Ok(()) => Ok(()),
        Err(fault) => Err(refused(fault, steps.number)),
    }
}

/// Answers the result at the end of the proof, from what the reader answers there, whether the empty clause was added, and the number of
/// the next step.
fn end(rest: Result<(), TextFault>, is_refuted: bool, number: u64) -> Result<(), CheckFault>
    ensures { rest ≢ Err TextFault.NoMemory → result ≡ behind_steps is_refuted number (result_err rest) }
{
    if let Err(fault) = rest {
        return Err(CheckFault::of_text(fault, number));
    }
    if is_refuted {
        return Ok(());
    }
    Err(CheckFault {
        number: NOT_REFUTED,
        line: number,
        text: 0,
    })
}

/// Checks a proof in binary form that comes in pieces. It stores only the incomplete step at the end of the last piece. Its faults have the
/// number of a step in place of a line's.
pub struct BinaryChecker {
    /// The checker of complete steps.
    steps: StepChecker,
    /// The reader, with the incomplete step.
    begun: BinaryReader,
    /// The first fault, once it was met; also a refusal of memory.
    fault: Option<CheckFault>,
}

impl Drop for BinaryChecker {
    fn drop(self) {
        let BinaryChecker {
            steps: _,
            begun: _,
            fault: _,
        } = self;
    }
}

impl Model for BinaryChecker {
    ghost use Rattle.proof_check.specs.Stream.{BinaryProgress, progress_of};
    ghost use Rattle.proof_check.specs.inner.Stream.{IsBinaryProgress};
    ghost use Rattle.dimacs.specs.inner.Codes.{clause_map_code};
    ghost use Rattle.std.specs.Coded.{codes};

    ghost Value = { BinaryProgress };

    ghost coded = { Prim.hlevel (codes, clause_map_code) };

    ghost view = { λ s. progress_of s.fault s.steps.checker s.steps.number s.begun };

    ghost invariant = { λ s. IsBinaryProgress s.fault s.steps.checker };
}

impl BinaryChecker {
    /// A checker, which has read no byte, of a proof of the formula, which is copied.
    pub fn new(alloc: Global, formula: &Formula) -> Result<BinaryChecker, AllocError>
        ensures { IfOk result (λ s. HasTaken formula.now s []) }
    {
        BinaryChecker::of(alloc, formula.copy()?)
    }

    /// A checker, which has read no byte, of a proof of the formula, which is moved in.
    pub fn of(alloc: Global, formula: Formula) -> Result<BinaryChecker, AllocError>
        ensures { IfOk result (λ s. HasTaken formula s []) }
    {
        let most = proof_top(&formula);
        let checker = Checker::of(alloc, formula)?;
        Ok(BinaryChecker {
            steps: StepChecker { checker, number: 1 },
            begun: BinaryReader::within(alloc, most),
            fault: None,
        })
    }

    /// Reads the next piece. An `Err` is the first fault of the steps that are complete now, or of the bytes of the next step, or a refusal
    /// of memory. Each later call answers the same.
    pub fn feed(&mut self, piece: &[u8]) -> Result<(), CheckFault>
        ensures { TakesPiece self.old piece.now result self.new }
    {
        if let Some(fault) = self.fault {
            return Err(fault);
        }
        match take_piece(&mut self.begun, &mut self.steps, piece) {
            Ok(()) => Ok(()),
            Err(fault) => {
                self.fault = Some(fault);
                Err(fault)
            }
        }
    }

    /// Answers whether a fault was met or memory was refused. Then no further byte changes what `finish` answers.
    pub fn is_settled(&self) -> bool
        ensures { result ≡ has_failed self.now }
    {
        self.fault.is_some()
    }

    /// Answers the result of the check if no further byte comes. It allocates nothing.
    pub fn finish(&self) -> Result<(), CheckFault>
        ensures { result ≡ check_more self.now [] }
    {
        if let Some(fault) = self.fault {
            return Err(fault);
        }
        end(
            self.begun.finish(),
            self.steps.checker.refuted(),
            self.steps.number,
        )
    }
}

/// Checks a proof as one piece.
fn check_all(alloc: Global, formula: &Formula, proof: &[u8]) -> Result<(), CheckFault>
    ensures { GivesCheck result (check_binary_of formula.now proof.now) }
{
    let Ok(mut stream) = BinaryChecker::new(alloc, formula) else {
        return Err(CheckFault::no_memory());
    };
    stream.feed(proof)?;
    stream.finish()
}

/// Checks whether the bytes are an accepted proof that no assignment satisfies the formula. An `Err` is their first fault, or a refusal of
/// memory.
///
/// Steps after the one that adds the empty clause need only be spelled correctly.
pub fn check_binary(alloc: Global, formula: &Formula, proof: &[u8]) -> Result<(), CheckFault>
    ensures accepted { OnOk result (AcceptsBinary formula.now proof.now) }
    // an accepted proof is refused for want of memory alone
    ensures complete { AcceptsBinary formula.now proof.now → (result ≡ Ok tt) ⊎ (result ≡ Err no_memory) }
    // the first fault, and its step
    ensures exact { GivesCheck result (check_binary_of formula.now proof.now) }
{
    // This law says that reading and spelling agree. The call does nothing.
    reading_within_is_spelling();
    let _ = formula.vars(); // its contract says that the formula is within its limits
    check_all(alloc, formula, proof)
}
