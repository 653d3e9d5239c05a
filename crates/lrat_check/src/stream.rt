//! The checker of a proof's text, whole or in pieces of any length.

ghost use Rattle.std.specs.Prelude.{◌≡◌, ◌⊎◌, [], None, Ok, Err, OnOk, IfOk, MatchResult};
ghost use Rattle.lrat_text.specs.Lines.{IsOpen};
ghost use Rattle.lrat_text.specs.Pieces.{joined};
ghost use Rattle.lrat_text.specs.Proof.{Accepts};
ghost use Rattle.lrat_check.specs.ProofFaults.{no_memory, GivesCheck, check_of};
ghost use Rattle.lrat_check.specs.Stream.{Within, Failed, check_more, has_failed, HasTaken, TakesPiece, IsWithinLine};
ghost use Rattle.lrat_check.specs.inner.Stream.{LeadsTo};

use crate::checker::Checker;
use crate::limit::Limit;
use crate::line_checker::{CheckFault, LineChecker, finish};
use dimacs::Formula;
use lrat_text::{LineBuffer, StepBuffer, proof_top, reading_within_is_spelling};
use std::alloc::{AllocError, Global};
use std::marker::Model;

/// The number of the fault of a text of which no line adds the empty clause.
const NOT_REFUTED: u8 = 13;

/// Reads a piece, which continues the incomplete line `begun`, and checks the lines that are complete now.
fn take_piece(
    begun: &mut LineBuffer,
    lines: &mut LineChecker,
    piece: &[u8],
) -> Result<(), CheckFault>
    requires { lines.old.checker.fault ≡ None }
    ensures taken { MatchResult result
        (λ _. (lines.new.checker.fault ≡ None) × LeadsTo (Within lines.old.limit.most lines.old.checker lines.old.line begun.old) piece.now (Within lines.new.limit.most lines.new.checker lines.new.line begun.new))
        (λ fault. (fault ≡ no_memory) ⊎ LeadsTo (Within lines.old.limit.most lines.old.checker lines.old.line begun.old) piece.now (Failed fault)) }
    ensures open { IsOpen begun.new }
{
    match begun.feed(piece, lines) {
        Ok(()) => Ok(()),
        Err(fault) => Err(CheckFault::of_piece(fault)),
    }
}

/// Checks a proof's text that comes in pieces. Of the text it stores only the incomplete line.
pub struct StreamChecker {
    /// The checker of complete lines.
    lines: LineChecker,
    /// The incomplete line.
    begun: LineBuffer,
    /// The first fault, once it was met; also a refusal of memory.
    fault: Option<CheckFault>,
}

impl Drop for StreamChecker {
    fn drop(self) {
        let StreamChecker {
            lines: _,
            begun: _,
            fault: _,
        } = self;
    }
}

impl Model for StreamChecker {
    ghost use Rattle.lrat_check.specs.Stream.{CheckProgress, progress_of};
    ghost use Rattle.lrat_check.specs.inner.Stream.{FaultIsKept};
    ghost use Rattle.dimacs.specs.inner.Codes.{clause_map_code};
    ghost use Rattle.std.specs.Coded.{codes};

    ghost Value = { CheckProgress };

    ghost coded = { Prim.hlevel (codes, clause_map_code) };

    ghost view = { λ s. progress_of s.fault s.lines.limit.most s.lines.checker s.lines.line s.begun };

    ghost invariant = { λ s. FaultIsKept s.fault s.lines.checker s.begun };
}

impl StreamChecker {
    /// A checker, which has read no byte, of a proof of the formula, which is copied.
    pub fn new(alloc: Global, formula: &Formula) -> Result<StreamChecker, AllocError>
        ensures { IfOk result (λ s. HasTaken formula.now s []) }
    {
        StreamChecker::of(alloc, formula.copy()?)
    }

    /// A checker, which has read no byte, of a proof of the formula, which is moved in.
    pub fn of(alloc: Global, formula: Formula) -> Result<StreamChecker, AllocError>
        ensures { IfOk result (λ s. HasTaken formula s []) }
    {
        let most = proof_top(&formula);
        let checker = Checker::of(alloc, formula)?;
        Ok(StreamChecker {
            lines: LineChecker {
                checker,
                buffer: StepBuffer::new(alloc),
                limit: Limit { most },
                line: 1,
            },
            begun: LineBuffer::new(alloc),
            fault: None,
        })
    }

    /// Reads the next piece, and answers the first fault of the lines that are complete now. After a fault each call answers that fault.
    pub fn feed(&mut self, piece: &[u8]) -> Result<(), CheckFault>
        ensures taken { TakesPiece self.old piece.now result self.new }
        ensures open { IsWithinLine self.new }
    {
        if let Some(fault) = self.fault {
            return Err(fault);
        }
        match take_piece(&mut self.begun, &mut self.lines, piece) {
            Ok(()) => Ok(()),
            Err(fault) => {
                self.fault = Some(fault);
                Err(fault)
            }
        }
    }

    /// Answers whether a fault was met or memory was refused. Then no further byte changes what `finish` answers.
    pub fn is_settled(&self) -> bool
        ensures { result ≡ has_failed self.now }
    {
        self.fault.is_some()
    }

    /// Answers the result of the check if no further byte comes. It allocates nothing.
    pub fn finish(&self) -> Result<(), CheckFault>
        ensures { result ≡ check_more self.now [] }
    {
        if let Some(fault) = self.fault {
            return Err(fault);
        }
        finish(
            NOT_REFUTED,
            self.lines.checker.refuted(),
            self.lines.line,
            self.begun.as_slice(),
        )
    }
}

/// Checks a whole text as a proof of the formula.
fn check_all(alloc: Global, formula: &Formula, proof: &[u8]) -> Result<(), CheckFault>
    ensures { GivesCheck result (check_of formula.now proof.now) }
{
    let Ok(mut stream) = StreamChecker::new(alloc, formula) else {
        return Err(CheckFault::no_memory());
    };
    stream.feed(proof)?;
    stream.finish()
}

/// Checks the text of which these are the pieces as a proof that the formula is unsatisfiable, and answers its first fault.
pub fn check_pieces(alloc: Global, formula: &Formula, pieces: &[Vec<u8>]) -> Result<(), CheckFault>
    ensures { GivesCheck result (check_of formula.now (joined pieces.now)) }
{
    let Ok(mut stream) = StreamChecker::new(alloc, formula) else {
        return Err(CheckFault::no_memory());
    };
    for piece in pieces {
        stream.feed(piece)?;
    }
    stream.finish()
}

/// Checks whether the text is an accepted proof that the formula is unsatisfiable, and answers its first fault.
///
/// Lines after the one that adds the empty clause need only be well spelled.
pub fn check(alloc: Global, formula: &Formula, proof: &[u8]) -> Result<(), CheckFault>
    ensures accepted { OnOk result (Accepts formula.now proof.now) }
    // an accepted proof is refused for want of memory alone
    ensures complete { Accepts formula.now proof.now → (result ≡ Ok tt) ⊎ (result ≡ Err no_memory) }
    // the first fault, and its line
    ensures exact { GivesCheck result (check_of formula.now proof.now) }
{
    // A theorem: what was read is what the text spells. It does nothing.
    reading_within_is_spelling();
    let _ = formula.vars(); // its contract says that the formula is within its limits
    check_all(alloc, formula, proof)
}
