//! Lifts the text of a foreign proof, which comes in pieces, to lines of the log.

ghost use Rattle.proof_lift.specs.View.{held_of};
ghost use Rattle.std.specs.Prelude.{◌≡◌, ◌≤◌, ◌⊎◌, ℕ, List, [], Ok, Err, OnOk, IfOk, IfErr, vec_len};
ghost use Rattle.lrat_check.specs.ProofFaults.{no_memory};
ghost use Rattle.dimacs.specs.logic.Cnf.{Cnf, IsFormula};
ghost use Rattle.lrat_text.specs.Lines.{IsOpen};
ghost use Rattle.lrat_text.specs.Log.{Cube};
ghost use Rattle.proof_lift.specs.Leaves.{ClosesWith, IsCube, IsRefutation, leaf_of};
ghost use Rattle.proof_lift.specs.Stream.{Within, Failed, HasTaken, TakesPiece, GivesEnd};
ghost use Rattle.proof_lift.specs.inner.Ready.{IsReady};
ghost use Rattle.proof_lift.specs.inner.Stream.{LeadsTo, Appends};

use crate::fault::step_refused;
use crate::line_lifter::LineLifter;
use crate::step_lifter::StepLifter;
use dimacs::{Formula, Lit};
use lrat_check::CheckFault;
use lrat_text::{LineBuffer, StepBuffer};
use std::alloc::{AllocError, Global};
use std::marker::Model;
use std::mem::swap;

/// Takes a piece, which follows the bytes of the unfinished line, and appends the lines of the log to `out`.
fn take_piece(
    begun: &mut LineBuffer,
    lines: &mut LineLifter,
    piece: &[u8],
    out: &mut Vec<u8>,
) -> Result<(), CheckFault>
    requires { IsReady lines.old.line lines.old.lifting }
    ensures ready { OnOk result (IsReady lines.new.line lines.new.lifting) }
    ensures passed { OnOk result (Appends out.old.items out.new.items (λ appended. LeadsTo (Within (held_of lines.old.lifting) lines.old.line begun.old) piece.now appended (Within (held_of lines.new.lifting) lines.new.line begun.new))) }
    ensures stopped { IfErr result (λ fault. Appends out.old.items out.new.items (λ appended. (fault ≡ no_memory) ⊎ LeadsTo (Within (held_of lines.old.lifting) lines.old.line begun.old) piece.now appended (Failed fault))) }
    ensures open { IsOpen begun.new }
{
    swap(&mut lines.out, out);
    let taken = begun.feed(piece, lines);
    swap(&mut lines.out, out);
    match taken {
        Ok(()) => Ok(()),
        Err(fault) => Err(CheckFault::of_piece(fault)),
    }
}

/// Lifts a foreign proof of a leaf's formula. It keeps the formula, the images of the live lemmas, and the bytes of the unfinished line.
pub struct Lifter {
    lines: LineLifter,
    begun: LineBuffer,
    fault: Option<CheckFault>,
}

impl Drop for Lifter {
    fn drop(self) {
        let Lifter {
            lines: _,
            begun: _,
            fault: _,
        } = self;
    }
}

impl Model for Lifter {
    ghost use Rattle.proof_lift.specs.Stream.{LiftProgress, progress_of};
    ghost use Rattle.proof_lift.specs.View.{held_of};
    ghost use Rattle.proof_lift.specs.inner.Stream.{ReadyUnlessFaulty};

    ghost Value = { LiftProgress };

    ghost view = { λ s. progress_of s.fault (held_of s.lines.lifting) s.lines.line s.begun };

    ghost invariant = { λ s. ReadyUnlessFaulty s.fault s.lines s.begun };
}

impl Lifter {
    /// Makes a lifter that has taken no byte of a proof of the leaf's formula, with the variables that a log over the formula may have: the
    /// clauses of `formula`, and after them a unit clause for each literal of the cube, in this order.
    pub fn of(alloc: Global, formula: Formula, cube: Vec<Lit>) -> Result<Lifter, AllocError>
        requires few { vec_len cube ≤ 1000000 }
        requires cube { IsCube formula cube.items }
        ensures { IfOk result (λ s. HasTaken formula cube.items s [] []) }
    {
        let lifting = StepLifter::of(alloc, formula, cube)?;
        Ok(Lifter {
            lines: LineLifter {
                lifting,
                buffer: StepBuffer::new(alloc),
                line: 1,
                out: Vec::new(alloc),
            },
            begun: LineBuffer::new(alloc),
            fault: None,
        })
    }

    /// Takes the next piece, and appends the lines of the log to `out`; or returns the first fault of the lines that are complete by now.
    /// After a fault each call returns that fault, and nothing more is written.
    pub fn feed(&mut self, piece: &[u8], out: &mut Vec<u8>) -> Result<(), CheckFault>
        ensures { TakesPiece self.old piece.now out.old.items out.new.items result self.new }
    {
        if let Some(fault) = self.fault {
            return Err(fault);
        }
        match take_piece(&mut self.begun, &mut self.lines, piece, out) {
            Ok(()) => Ok(()),
            Err(fault) => {
                self.fault = Some(fault);
                Err(fault)
            }
        }
    }

    /// Ends the log, if no further byte comes. After `Ok` the bytes written close the cube. If the text has no empty lemma, one unit
    /// propagation over the live clauses is tried; if it finds no conflict, the fault is 13. Any other text has its first fault.
    pub fn finish(self, out: &mut Vec<u8>) -> Result<(), CheckFault>
        // what was written closes the cube, whatever came in
        ensures closes { OnOk result ((F : Cnf) (q : Cube) (bytes written : List ℕ) → IsFormula F → IsCube F q → HasTaken F q self bytes written → ClosesWith F q written out.old.items out.new.items) }
        // a refutation of the leaf's formula by reverse unit propagation alone is refused for want of memory alone
        ensures complete { (F : Cnf) (q : Cube) (bytes written : List ℕ) → F.vars ≤ 199999999 → IsCube F q → HasTaken F q self bytes written → IsRefutation (leaf_of q F) bytes → (result ≡ Ok tt) ⊎ (result ≡ Err no_memory) }
        // the first fault, and its line; 13 exactly if the empty lemma alone is missing, and no hints derive it
        ensures exact { GivesEnd self result out.old.items out.new.items }
    {
        let Lifter {
            mut lines,
            begun,
            fault,
        } = self;
        if let Some(fault) = fault {
            return Err(fault);
        }
        end(&mut lines.lifting, lines.line, begun.as_slice(), out)
    }
}

/// Ends the log; `rest` are the bytes of the text after its last LF, and have to be none. Tries a unit propagation if the empty lemma was
/// not lifted.
fn end(
    lifting: &mut StepLifter,
    line: u64,
    rest: &[u8],
    out: &mut Vec<u8>,
) -> Result<(), CheckFault>
    requires ready { IsReady line lifting.old }
    requires open { IsOpen rest.now }
    ensures { GivesEnd (Within (held_of lifting.old) line rest.now) result out.old.items out.new.items }
{
    let _ = lifting.images.formula.vars(); // for proofs: the formula is within its limits
    if !rest.is_empty() {
        return Err(CheckFault {
            number: 1,
            line,
            text: 2,
        });
    }
    if lifting.closed {
        return Ok(());
    }
    match lifting.close(line, out) {
        Ok(true) => Ok(()),
        Ok(false) => Err(CheckFault {
            number: 13,
            line,
            text: 0,
        }),
        Err(fault) => Err(step_refused(fault, line)),
    }
}
