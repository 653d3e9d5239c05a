//! How a `Coverage` is made, and how it takes a clause.

ghost use Rattle.std.specs.Prelude.{◌≡◌, ℕ, ◌+◌, ◌^◌, ◌≤◌, ◌<◌, List, [], ◌∷◌, ◌++◌, All, IfOk, IfErr, OnOk, length, true, false, Some, Contains};
ghost use Rattle.std.specs.FinMap.{get};
ghost use Rattle.dimacs.specs.logic.Cnf.{AreWithin};
ghost use Rattle.dimacs.specs.logic.Literal.{Clause, Literal, IsTautology, IsWithin, var_of};
ghost use Rattle.icnf.specs.Leaves.{Cube};
ghost use Rattle.receipts.specs.ClosedLeaves.{closes_new_leaf};
ghost use Rattle.receipts.specs.Coverage.{HasTakenClauses};

use crate::coverage::Coverage;
use crate::fault::CoverFault;
use dimacs::Lit;
use icnf::Tree;
use log_join::{LogJoinFault, LogJoiner};
use lrat_check::RupChecker;
use lrat_text::{Groups, StepRef};
use std::alloc::{AllocError, Global};

/// The greatest variable that a lemma may have.
const MAX_VAR: u32 = 2_000_000;

/// The number of a clause in its log of one line: the number after that of the formula's one clause.
const NUMBER: u64 = 2;

/// The fault of a cover whose joiner has refused a clause: `TooMany` if no number is left for it,
/// and else a want of memory.
fn cover_fault(fault: LogJoinFault) -> CoverFault
    ensures { result ≡ CoverFault.TooMany → fault ≡ LogJoinFault.TooLong }
{
    match fault {
        LogJoinFault::TooLong => CoverFault::TooMany,
        _ => CoverFault::NoMemory,
    }
}

/// Answers whether each variable of a clause is at most `MAX_VAR`, as in a line of LRAT text.
fn is_small(clause: &[Lit]) -> bool
    ensures small { result ≡ true → All (IsWithin 2000000) clause.now }
    ensures none { result ≡ false → (l : Literal) × Contains clause.now l × (2000000 < var_of l) }
{
    for l in clause {
        if l.var().number() > MAX_VAR {
            return false;
        }
    }
    true
}

impl Coverage {
    /// A coverage that has taken no clause: each leaf of the tree is open. The tautology checker
    /// has the empty clause alone, number 1, by which every clause follows that is no tautology.
    pub(crate) fn of(alloc: Global, tree: &Tree) -> Result<Coverage, AllocError>
        requires { AreWithin 2000000 tree.now }
        ensures { IfOk result (HasTakenClauses tree.now []) }
    {
        let _ = tree.leaves(); // its contract says that the cubes are the leaves of a tree
        let mut tautology_checker = RupChecker::new(alloc)?;
        tautology_checker.put(1, &[])?;
        Ok(Coverage {
            joiner: LogJoiner::of(alloc, tree, 1)?,
            tautology_checker,
            groups: Groups::new(alloc),
            scratch: Vec::new(alloc),
        })
    }

    /// Takes a clause. Answers whether it closes a leaf that no clause before it closes; a
    /// tautology, and a clause that no line can have, close none. After an Err the coverage is of
    /// no use.
    pub(crate) fn add(&mut self, clause: &[Lit]) -> Result<bool, CoverFault>
        ensures covers { OnOk result ((cubes : List Cube) (clauses : List Clause) → HasTakenClauses cubes clauses self.old → HasTakenClauses cubes (clauses ++ clause.now ∷ []) self.new) }
        ensures told { IfOk result (λ b. (cubes : List Cube) (clauses : List Clause) → HasTakenClauses cubes clauses self.old → b ≡ closes_new_leaf cubes clauses clause.now) }
        ensures small { IfOk result (λ b. b ≡ true → All (IsWithin 2000000) clause.now) }
        ensures many { IfErr result (λ f. f ≡ CoverFault.TooMany → (cubes : List Cube) (clauses : List Clause) → HasTakenClauses cubes clauses self.old → 2 ^ 48 ≤ length clauses + 2) }
    {
        if !is_small(clause) {
            return Ok(false);
        }
        if self.tautology_checker.fault(clause, &[1])?.is_some() {
            return Ok(false);
        }
        self.put(clause)
    }

    /// Takes a clause that is no tautology and has no variable above `MAX_VAR`, as a log of this
    /// one lemma: the joiner of logs keeps which leaves are closed. Answers whether the clause
    /// closes a leaf that no clause before it closes.
    fn put(&mut self, clause: &[Lit]) -> Result<bool, CoverFault>
        requires small { All (IsWithin 2000000) clause.now }
        requires no_pair { ¬ (IsTautology clause.now) }
        ensures covers { OnOk result ((cubes : List Cube) (clauses : List Clause) → HasTakenClauses cubes clauses self.old → HasTakenClauses cubes (clauses ++ clause.now ∷ []) self.new) }
        ensures told { IfOk result (λ b. (cubes : List Cube) (clauses : List Clause) → HasTakenClauses cubes clauses self.old → b ≡ closes_new_leaf cubes clauses clause.now) }
        ensures many { IfErr result (λ f. f ≡ CoverFault.TooMany → (cubes : List Cube) (clauses : List Clause) → HasTakenClauses cubes clauses self.old → 2 ^ 48 ≤ length clauses + 2) }
    {
        self.scratch.clear();
        self.joiner.begin();
        let line = StepRef::Add {
            id: NUMBER,
            lits: clause,
            hints: &[1],
            groups: &self.groups,
        };
        match self.joiner.line(line, &mut self.scratch) {
            Ok(()) => {}
            Err(fault) => return Err(cover_fault(fault)),
        }
        let closes = match self.joiner.settle(NUMBER, clause) {
            Ok(closes) => closes,
            Err(fault) => return Err(cover_fault(fault)),
        };
        self.joiner.end(&mut self.scratch)?;
        Ok(closes)
    }
}
