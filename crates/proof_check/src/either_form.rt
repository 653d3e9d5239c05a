//! A check of a proof that comes in pieces, in either form.

ghost use Rattle.std.specs.Prelude.{◌≡◌, ◌++◌, [], ℕ, List, true, IfOk};
ghost use Rattle.dimacs.specs.logic.Limits.{AreNoMore, Limits, large, written};
ghost use Rattle.dimacs.specs.text.Parser.{GivesFormula, parse_within};
ghost use Rattle.proof_check.specs.ProofChecks.{HasTaken, IsCheckReport, KeepsNoLine, has_fault};
ghost use Rattle.proof_check.specs.Truth.{SpellsUnsatisfiable};

use crate::check_report::unread;
use crate::laws::accepted_binary_proofs_are_sound;
use crate::stage::Stage;
use dimacs::{DimacsFault, Formula, read};
use lrat_check::accepted_proofs_are_sound;
use reports::Report;
use std::alloc::{AllocError, Global};
use std::marker::Model;
use std::mem;

/// The state of a check after the next piece of a proof. A fault of the input stays as it is, and
/// want of memory becomes one.
fn taken(
    alloc: Global,
    state: Result<Stage, DimacsFault>,
    piece: &[u8],
) -> Result<Stage, DimacsFault>
    ensures taken { (L : Limits) (input proof : List ℕ) → HasTaken L input state proof → HasTaken L input result (proof ++ piece.now) }
    ensures kept { KeepsNoLine result }
{
    let stage = match state {
        Ok(stage) => stage,
        Err(fault) => return Err(fault),
    };
    match stage.with_piece(alloc, piece) {
        Ok(stage) => Ok(stage),
        Err(error) => Err(DimacsFault::from(error)),
    }
}

/// The report of the check in this state if no more bytes come. An error is want of memory.
fn report_of(alloc: Global, state: &Result<Stage, DimacsFault>) -> Result<Report, AllocError>
    ensures { (L : Limits) (input proof : List ℕ) → HasTaken L input state.now proof → IfOk result (IsCheckReport L input proof) }
{
    match state {
        Ok(stage) => stage.report(alloc),
        Err(fault) => unread(alloc, *fault),
    }
}

/// A check of a proof that comes in pieces: a text, or the binary form if the first byte is `a` or `d`. Each fault, of the input, of the
/// proof or of memory, is kept for `finish`.
#[derive(Drop)]
pub struct ProofCheck {
    /// The allocator of the check.
    alloc: Global,
    /// How far the proof was checked, or the fault of the input or of memory.
    state: Result<Stage, DimacsFault>,
}

impl Model for ProofCheck {
    ghost use Rattle.std.specs.Prelude.{Result};
    ghost use Rattle.std.specs.Coded.{codes};
    ghost use Rattle.dimacs.specs.inner.Codes.{clause_map_code, literal_code};
    ghost use Rattle.dimacs.specs.declared.fault.DimacsFault.{DimacsFault};
    ghost use Rattle.proof_check.specs.declared.stage.Stage.{Stage};

    ghost Value = { Result Stage DimacsFault };

    ghost coded = { Prim.hlevel (codes, clause_map_code, literal_code) };

    ghost view = { λ c. c.state };
}

impl ProofCheck {
    /// A check against the formula of this input; no byte of the proof is taken yet.
    pub fn new(alloc: Global, input: &[u8]) -> ProofCheck
        ensures taken { HasTaken written input.now result [] }
        ensures kept { KeepsNoLine result }
    {
        ProofCheck::of(alloc, read(alloc, input))
    }

    /// A check against an input that was read already, or has a fault; no byte of the proof is taken yet.
    #[tactic(auto, using(crate::proofs::CheckLemmas::spelled))]
    pub fn of(alloc: Global, found: Result<Formula, DimacsFault>) -> ProofCheck
        ensures taken { (L : Limits) (input : List ℕ) → AreNoMore L large → GivesFormula found (parse_within L input) → HasTaken L input result [] }
        ensures kept { KeepsNoLine result }
    {
        let state = match found {
            Ok(formula) => Ok(Stage::Awaiting(formula)),
            Err(fault) => Err(fault),
        };
        ProofCheck { alloc, state }
    }

    /// Takes the next piece of the proof. A fault is kept for `finish`.
    pub fn feed(&mut self, piece: &[u8])
        ensures taken { (L : Limits) (input proof : List ℕ) → HasTaken L input self.old proof → HasTaken L input self.new (proof ++ piece.now) }
        ensures kept { KeepsNoLine self.new }
    {
        let state = mem::replace(&mut self.state, Err(DimacsFault::from(AllocError)));
        self.state = taken(self.alloc, state, piece);
    }

    /// Tells whether there is a fault, of the input, of the proof or of memory. Then no more bytes change what `finish` answers, so none
    /// have to be fed.
    pub fn is_settled(&self) -> bool
        ensures fault { result ≡ has_fault self.now }
        ensures stays { result ≡ true → (L : Limits) (input proof more : List ℕ) → HasTaken L input self.now proof → HasTaken L input self.now (proof ++ more) }
    {
        match &self.state {
            Ok(stage) => stage.is_settled(),
            Err(_) => true,
        }
    }

    /// The report of the check if no more bytes come. The error stands for the report `c no memory`, status 1.
    pub fn finish(&self) -> Result<Report, AllocError>
        ensures report { (L : Limits) (input proof : List ℕ) → HasTaken L input self.now proof → IfOk result (IsCheckReport L input proof) }
        // So with status 0 the formula that the input spells is unsatisfiable.
        ensures truth { (L : Limits) (input proof : List ℕ) → HasTaken L input self.now proof → IfOk result (λ r. r.status ≡ 0 → SpellsUnsatisfiable L input) }
    {
        accepted_proofs_are_sound();
        accepted_binary_proofs_are_sound();
        report_of(self.alloc, &self.state)
    }
}
