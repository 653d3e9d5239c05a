//! A checker of lemmas that follow by hints alone, over clauses under any numbers.

ghost use Rattle.std.specs.Prelude.{◌≡◌, [], OnOk, OnErr, IfOk, option_map, is_some};
ghost use Rattle.std.specs.FinMap.{get, insert, remove, from_entries};
ghost use Rattle.lrat_check.specs.Logs.{log_lemma_fault};

use crate::lemma::Lemma;
use crate::live::LiveClauses;
use crate::loader::load;
use crate::log::test_log_lemma;
use crate::marks::Marks;
use dimacs::Lit;
use lrat_text::Groups;
use std::alloc::{AllocError, Global};
use std::marker::Model;

/// The number of the fault of a refusal of memory.
const NO_MEMORY: u8 = 14;

/// Holds live clauses, each under a number that the caller chooses, and tests lemmas over them. Any clause may be put in: the caller has to
/// ask which ones follow.
pub struct RupChecker {
    /// The allocator for the empty list of groups.
    alloc: Global,
    /// The live clauses.
    clauses: LiveClauses,
    /// The partial assignment for the test of a lemma.
    marks: Marks,
}

// Written by hand, so that a crate above drops a checker by one call, and its proofs do not go through the parts.
impl Drop for RupChecker {
    fn drop(self) {
        let RupChecker {
            alloc: _,
            clauses: _,
            marks: _,
        } = self;
    }
}

impl Model for RupChecker {
    ghost use Rattle.dimacs.specs.logic.ClauseMap.{ClauseMap};
    ghost use Rattle.dimacs.specs.inner.Codes.{clause_map_code};
    ghost use Rattle.lrat_check.specs.inner.LiteralTable.{AllFit};
    ghost use Rattle.std.specs.Coded.{codes};
    ghost use Rattle.std.specs.Prelude.{vec_len};

    ghost Value = { ClauseMap };

    ghost coded = { Prim.hlevel (codes, clause_map_code) };

    ghost view = { λ s. s.clauses };

    ghost invariant = { λ s. AllFit (vec_len s.marks.table) s.clauses };
}

impl RupChecker {
    /// A checker without a live clause.
    pub fn new(alloc: Global) -> Result<RupChecker, AllocError>
        ensures { IfOk result (λ s. s ≡ from_entries []) }
    {
        let (clauses, marks) = load(alloc, Vec::new(alloc), &[0])?;
        Ok(RupChecker {
            alloc,
            clauses,
            marks,
        })
    }

    /// Lends the live clause of this number; `None` if there is none.
    #[inline(always)]
    pub fn clause(&self, number: u64) -> Option<&[Lit]>
        ensures { option_map (λ c. c.now) result ≡ get self.now number }
    {
        self.clauses.get(number)
    }

    /// Answers the number of the first fault of a lemma that is to follow by these hints: 3 to 7 or 15, as for a lemma of a log; `None` if
    /// the lemma follows.
    pub fn fault(&mut self, lits: &[Lit], hints: &[u64]) -> Result<Option<u8>, AllocError>
        ensures fault { IfOk result (λ f. f ≡ log_lemma_fault self.old lits.now hints.now []) }
        ensures same { self.new ≡ self.old }
    {
        let no_group = Groups::new(self.alloc);
        let lemma = Lemma {
            lits,
            hints,
            groups: &no_group,
        };
        match test_log_lemma(&self.clauses, &mut self.marks, lemma) {
            Ok(()) => Ok(None),
            Err(fault) => {
                let number = fault.number();
                if number == NO_MEMORY {
                    return Err(AllocError);
                }
                Ok(Some(number))
            }
        }
    }

    /// Puts a clause under a number. It replaces the clause that is live under this number, if any. If memory is refused, the live clauses
    /// are as before.
    pub fn put(&mut self, number: u64, lits: &[Lit]) -> Result<(), AllocError>
        ensures ok { OnOk result (self.new ≡ insert self.old number lits.now) }
        ensures err { OnErr result (self.new ≡ self.old) }
    {
        self.marks.begin(lits, 0)?;
        self.clauses.insert(number, lits)
    }

    /// Deletes the clause of this number, and answers whether it was live.
    pub fn remove(&mut self, number: u64) -> bool
        ensures live { result ≡ is_some (get self.old number) }
        ensures after { self.new ≡ remove self.old number }
    {
        self.clauses.remove(number)
    }
}
