//! Laws of kept verdicts, as contracts of calls that do nothing.

ghost use Rattle.std.specs.Prelude.{◌≡◌, ◌≤◌, ℕ, List};
ghost use Rattle.dimacs.specs.logic.Cnf.{Cnf};
ghost use Rattle.dimacs.specs.logic.Extension.{extended};
ghost use Rattle.lrat_check.specs.Verdicts.{Right};
ghost use Rattle.lrat_check.specs.declared.verdict.Verdict.{Verdict};
ghost use Rattle.lrat_check.specs.declared.verdict.Verdict.TheVariants.{Proof};
ghost use Rattle.proof_join.specs.RenumberedProof.{RefutesByRup};
ghost use Rattle.evidence.specs.KeptVerdict.{IsTextIn, KeptVerdict};

/// What is kept of a right verdict is right for the extended formula, and is determined by that verdict and the added clauses.
pub fn what_is_kept_is_right()
    ensures right { (F x : Cnf) (old new : Verdict) → Right F old → KeptVerdict F x old new → Right (extended F x) new }
    ensures one { (F x : Cnf) (old new other : Verdict) → KeptVerdict F x old new → KeptVerdict F x old other → new ≡ other }
{}

/// A proof whose additions, up to the empty clause, all follow by reverse unit propagation is kept, renumbered, if its formula is within
/// the large limits.
pub fn rup_proofs_are_kept()
    ensures { (F x : Cnf) (text kept : List ℕ) (new : Verdict)
        → F.vars ≤ 99999999 → RefutesByRup F text → IsTextIn F x text kept → KeptVerdict F x (Proof text) new → new ≡ Proof kept }
{}
