//! `check`: reads a formula, and checks a proof of it while the proof's file is read.

ghost use Rattle.std.specs.Prelude.{◌≡◌, ◌++◌, ℕ, List, [], IfOk, IfErr};
ghost use Rattle.commands.specs.Check.{Checks};
ghost use Rattle.commands.specs.inner.Feed.{Extends};
ghost use Rattle.commands.specs.Known.{HoldsOf};
ghost use Rattle.commands.specs.Refusals.{IsOneOf};
ghost use Rattle.dimacs.specs.logic.Limits.{Limits};
ghost use Rattle.proof_check.specs.ProofChecks.{HasTaken};

use crate::disk::Disk;
use crate::feed_loop::{Feeds, feed_all};
use crate::whole_source::read_formula;
use dimacs::Limits;
use proof_check::ProofCheck;
use reports::{Refusal, Report};

impl Feeds for ProofCheck {
    ghost use Rattle.commands.specs.inner.Feed.{extends_nothing, extends_more};

    ghost took = { λ old new more. (L : Limits) (input : List ℕ) → Extends (λ proof c. HasTaken L input c proof) old new more };

    ghost nothing = { λ s L input. extends_nothing (λ proof c. HasTaken L input c proof) s };

    ghost more = { λ a b c xs ys h k L input. extends_more (λ proof c. HasTaken L input c proof) a b c xs ys (h L input) (k L input) };

    /// Gives the next piece of the proof's file to the check.
    fn feed(&mut self, piece: &[u8]) -> Result<(), Refusal> {
        ProofCheck::feed(self, piece);
        Ok(())
    }

    /// Whether the check has met a fault, so that the rest of the proof's file changes nothing.
    fn is_settled(&self) -> bool {
        ProofCheck::is_settled(self)
    }
}

/// Checks the proof in the file `proof` of the formula in the file `input`, which is read within these limits, and reports the result. A
/// fault of either text is reported; it errs if a file cannot be read or memory runs out.
pub fn check_files<D: Disk>(
    disk: &D,
    limits: Limits,
    input: &str,
    proof: &str,
) -> Result<Report, Refusal>
    ensures report { IfOk result (λ r. HoldsOf (D.holds disk.now input.now) (λ text. HoldsOf (D.holds disk.now proof.now) (λ bytes. Checks limits text bytes r))) }
    ensures refused { IfErr result (IsOneOf Refusal.Input Refusal.Proof) }
{
    let _ = limits.vars(); // its contract says that the limits are no more than the large ones
    let mut text = disk.open(input, Refusal::Input)?;
    let found = read_formula(disk.alloc(), limits, &mut text)?;
    let mut check = ProofCheck::of(disk.alloc(), found);
    let mut bytes = disk.open(proof, Refusal::Proof)?;
    feed_all(&mut bytes, &mut check)?;
    match check.finish() {
        Ok(report) => Ok(report),
        Err(_) => Err(Refusal::NoMemory),
    }
}
