//! The live clauses of a log: those of its base, and after them the lemmas that the log adds.

ghost use Rattle.std.specs.Prelude.{◌≡◌, ◌⊎◌, ℕ, ◌≤◌, length, Some, None, OnOk, OnErr, IfOk, IfErr, vec_len};
ghost use Rattle.std.specs.FinMap.{insert};
ghost use Rattle.dimacs.specs.layout.Flat.{parts, ArePlaces};
ghost use Rattle.dimacs.specs.logic.ClauseMap.{ClauseMap};
ghost use Rattle.lrat_text.specs.Steps.{step_of};
ghost use Rattle.lrat_check.specs.StepFaults.{live_after, removed, top_after};
ghost use Rattle.lrat_check.specs.Logs.{ExtendsBase, ids_of, log_step_fault, log_addition_fault, log_deletion_fault, log_lemma_fault};
ghost use Rattle.lrat_check.specs.declared.fault.StepFault.TheVariants.{NoMemory};
ghost use Rattle.lrat_check.specs.inner.Changes.{NoneNew};
ghost use Rattle.lrat_check.specs.inner.Logs.{IsCutAt, log_fault_number, number_in};
ghost use Rattle.lrat_check.specs.inner.Marks.{IsUnused, AllAtMost};
ghost use Rattle.lrat_check.specs.inner.Store.{numbered};
ghost use Rattle.lrat_check.specs.inner.LiteralTable.{FitsTable, AllFit};

use crate::fault::StepFault;
use crate::lemma::Lemma;
use crate::live::LiveClauses;
use crate::loader::load;
use crate::marks::{Marks, assume_negations};
use crate::propagation::follow;
use dimacs::Lit;
use lrat_text::StepRef;
use std::alloc::{AllocError, Global};

/// The first fault of a step of a log.
#[derive(Clone, Copy, Debug, PartialEq, Eq)]
pub(crate) enum LogFault {
    /// A fault that a step of a proof can have too.
    OfStep(StepFault),
    /// A lemma has a group, or its hints reach no conflict.
    NotRup,
    /// A clause of the base is deleted.
    DeletesBase,
}

impl LogFault {
    /// Answers the fault's number, 2 to 7 or 14 to 16.
    pub(crate) fn number(self) -> u8
        ensures { result ≡ log_fault_number self }
    {
        match self {
            LogFault::OfStep(fault) => fault.number(),
            LogFault::NotRup => 15,
            LogFault::DeletesBase => 16,
        }
    }
}

/// Tests whether the lemma follows by its hints alone (RUP) and has no group. `stamp` is a stamp that no literal has.
fn test_rup(
    clauses: &LiveClauses,
    marks: &mut [u64],
    stamp: u64,
    lemma: Lemma<'_>,
) -> Result<(), LogFault>
    requires table { AllFit (length marks.old) clauses.now }
    requires fits { FitsTable (length marks.old) lemma.lits.now }
    requires unused { IsUnused stamp marks.old }
    requires most { AllAtMost stamp marks.old }
    ensures fault { number_in result ≡ log_lemma_fault clauses.now lemma.entry.lits.now lemma.entry.hints.now lemma.entry.groups.now }
    ensures most { AllAtMost stamp marks.new }
{
    if assume_negations(marks, stamp, lemma.lits) {
        return Err(LogFault::OfStep(StepFault::Tautology));
    }
    if !lemma.groups.is_empty() {
        return Err(LogFault::NotRup);
    }
    match follow(clauses, marks, stamp, stamp, lemma.hints, false) {
        Ok(true) => Ok(()),
        Ok(false) => Err(LogFault::NotRup),
        Err(fault) => Err(LogFault::OfStep(fault)),
    }
}

/// Tests whether the lemma follows by its hints alone and has no group: grows the table of marks for the lemma, and calls `test_rup` with a
/// new stamp.
pub(crate) fn test_log_lemma(
    clauses: &LiveClauses,
    marks: &mut Marks,
    lemma: Lemma<'_>,
) -> Result<(), LogFault>
    requires { AllFit (vec_len marks.old.table) clauses.now }
    ensures took { OnOk result (log_lemma_fault clauses.now lemma.entry.lits.now lemma.entry.hints.now lemma.entry.groups.now ≡ None) }
    ensures refused { IfErr result (λ f. (f ≡ LogFault.OfStep NoMemory) ⊎ (log_lemma_fault clauses.now lemma.entry.lits.now lemma.entry.hints.now lemma.entry.groups.now ≡ Some (log_fault_number f))) }
    ensures fits { OnOk result (FitsTable (vec_len marks.new.table) lemma.entry.lits.now) }
    ensures longer { vec_len marks.old.table ≤ vec_len marks.new.table }
{
    match marks.begin(lemma.lits, 0) {
        Ok(base) => test_rup(clauses, &mut marks.table, base, lemma),
        Err(_) => Err(LogFault::OfStep(StepFault::NoMemory)),
    }
}

/// Deletes the lemmas of these numbers, from the left, until a number is of the base or not live.
/// After such a fault `cut` is the number of lemmas that are deleted already (a caller that copies
/// the log writes a deletion of just these); after `Ok` it is 0.
fn delete_lemmas(
    clauses: &mut LiveClauses,
    base: u64,
    ids: &[u64],
    cut: &mut usize,
) -> Result<(), LogFault>
    requires { cut.old ≡ 0 }
    ensures fault { number_in result ≡ log_deletion_fault base clauses.old ids.now }
    ensures ok { OnOk result (clauses.new ≡ removed clauses.old ids.now) }
    ensures whole { OnOk result (cut.new ≡ 0) }
    ensures front { OnErr result (IsCutAt base clauses.old ids.now cut.new clauses.new) }
    ensures fewer { NoneNew clauses.old clauses.new }
    ensures behind { (M : ClauseMap) (top : ℕ) → ExtendsBase M base top clauses.old → ExtendsBase M base top clauses.new }
{
    for id in ids {
        if *id <= base {
            return Err(LogFault::DeletesBase);
        }
        if !clauses.remove(*id) {
            return Err(LogFault::OfStep(StepFault::UnknownClause));
        }
        *cut += 1;
    }
    *cut = 0;
    Ok(())
}

/// Deletes all lemmas of the log, so that the next one can be checked over the same base: the live
/// clauses with numbers from `top` down to `base + 1`.
fn clear_lemmas(clauses: &mut LiveClauses, base: u64, top: u64)
    ensures fewer { NoneNew clauses.old clauses.new }
    ensures behind { (M : ClauseMap) → base ≤ top → ExtendsBase M base top clauses.old → ExtendsBase M base base clauses.new }
{
    let mut id = top;
    while id > base {
        clauses.remove(id);
        id -= 1;
    }
}

/// The live clauses of a base and of a log over it, and the marks that test lemmas.
pub(crate) struct LogClauses {
    /// The live clauses, of the base and of the log.
    pub(crate) clauses: LiveClauses,
    /// The partial assignment for the test of a lemma.
    marks: Marks,
    /// The number of clauses of the base.
    pub(crate) base: u64,
    /// The number of the last addition, or of the base's last clause.
    pub(crate) top: u64,
    /// The number of lemmas that a refused deletion deleted before its fault; 0 after every other step. The caller resets it before each
    /// step.
    pub(crate) cut: usize,
    ghost fits: { AllFit (vec_len marks.table) clauses },
    ghost rises: { base ≤ top },
    ghost few: { base ≤ 200000190 },
}

impl Drop for LogClauses {
    fn drop(self) {
        let LogClauses {
            clauses: _,
            marks: _,
            base: _,
            top: _,
            cut: _,
        } = self;
    }
}

impl LogClauses {
    /// The clauses of a base, numbered from 1, and an empty log. `places` has the index of each clause's first literal in `literals`, and
    /// at last the length of `literals`; `count` is the number of clauses.
    pub(crate) fn of_parts(
        alloc: Global,
        literals: Vec<Lit>,
        places: &[u32],
        count: u64,
    ) -> Result<LogClauses, AllocError>
        requires places { ArePlaces places.now (vec_len literals) }
        requires few { count ≤ 200000190 }
        ensures clauses { IfOk result (λ c. c.clauses ≡ numbered (parts literals.items places.now)) }
        ensures top { IfOk result (λ c. c.top ≡ count) }
        ensures base { IfOk result (λ c. c.base ≡ count) }
        ensures cut { IfOk result (λ c. c.cut ≡ 0) }
    {
        let (clauses, marks) = load(alloc, literals, places)?;
        Ok(LogClauses {
            clauses,
            marks,
            base: count,
            top: count,
            cut: 0,
        })
    }

    /// Adds a lemma if its number is `top + 1` and it follows by its hints alone. At a fault the live clauses are as before.
    fn add(&mut self, id: u64, lemma: Lemma<'_>) -> Result<(), LogFault>
        ensures took { OnOk result (log_addition_fault self.old.clauses self.old.top id lemma.entry.lits.now lemma.entry.hints.now lemma.entry.groups.now ≡ None) }
        ensures clauses { OnOk result (self.new.clauses ≡ insert self.old.clauses id lemma.entry.lits.now) }
        ensures top { OnOk result (self.new.top ≡ id) }
        ensures base { self.new.base ≡ self.old.base }
        ensures cut { self.new.cut ≡ self.old.cut }
        ensures same { OnErr result (self.new.top ≡ self.old.top) }
        ensures none { OnErr result (self.new.clauses ≡ self.old.clauses) }
        ensures behind { (M : ClauseMap) → ExtendsBase M self.old.base self.old.top self.old.clauses → ExtendsBase M self.new.base self.new.top self.new.clauses }
        ensures refused { IfErr result (λ f. (f ≡ LogFault.OfStep NoMemory) ⊎ (log_addition_fault self.old.clauses self.old.top id lemma.entry.lits.now lemma.entry.hints.now lemma.entry.groups.now ≡ Some (log_fault_number f))) }
    {
        if id <= self.top || id - self.top > 1 {
            return Err(LogFault::OfStep(StepFault::NumberNotRising));
        }
        test_log_lemma(&self.clauses, &mut self.marks, lemma)?;
        match self.clauses.insert(id, lemma.lits) {
            Ok(_) => {}
            Err(_) => return Err(LogFault::OfStep(StepFault::NoMemory)),
        }
        self.top = id;
        Ok(())
    }

    /// Deletes lemmas of the log. At a fault the first `cut` of the lemmas have been deleted.
    fn delete(&mut self, ids: &[u64]) -> Result<(), LogFault>
        requires { self.old.cut ≡ 0 }
        ensures fault { number_in result ≡ log_deletion_fault self.old.base self.old.clauses ids.now }
        ensures clauses { OnOk result (self.new.clauses ≡ removed self.old.clauses ids.now) }
        ensures whole { OnOk result (self.new.cut ≡ 0) }
        ensures front { OnErr result (IsCutAt self.old.base self.old.clauses ids.now self.new.cut self.new.clauses) }
        ensures top { self.new.top ≡ self.old.top }
        ensures base { self.new.base ≡ self.old.base }
        ensures behind { (M : ClauseMap) → ExtendsBase M self.old.base self.old.top self.old.clauses → ExtendsBase M self.new.base self.new.top self.new.clauses }
    {
        delete_lemmas(&mut self.clauses, self.base, ids, &mut self.cut)
    }

    /// Takes a step: adds a lemma or deletes lemmas. A refused deletion has deleted the lemmas of its first `cut` numbers.
    pub(crate) fn take(&mut self, step: StepRef<'_>) -> Result<(), LogFault>
        requires { self.old.cut ≡ 0 }
        ensures took { OnOk result (log_step_fault self.old.base self.old.clauses self.old.top (step_of step.entry) ≡ None) }
        ensures clauses { OnOk result (self.new.clauses ≡ live_after self.old.clauses (step_of step.entry)) }
        ensures top { OnOk result (self.new.top ≡ top_after self.old.top (step_of step.entry)) }
        ensures base { self.new.base ≡ self.old.base }
        ensures same { OnErr result (self.new.top ≡ self.old.top) }
        ensures whole { OnOk result (self.new.cut ≡ 0) }
        ensures front { OnErr result (IsCutAt self.old.base self.old.clauses (ids_of (step_of step.entry)) self.new.cut self.new.clauses) }
        ensures refused { IfErr result (λ f. (f ≡ LogFault.OfStep NoMemory) ⊎ (log_step_fault self.old.base self.old.clauses self.old.top (step_of step.entry) ≡ Some (log_fault_number f))) }
        ensures behind { (M : ClauseMap) → ExtendsBase M self.old.base self.old.top self.old.clauses → ExtendsBase M self.new.base self.new.top self.new.clauses }
    {
        match step {
            StepRef::Add {
                id,
                lits,
                hints,
                groups,
            } => self.add(
                id,
                Lemma {
                    lits,
                    hints,
                    groups,
                },
            ),
            StepRef::Delete { ids } => self.delete(ids),
        }
    }

    /// Deletes all lemmas, so that the next log begins after the base again. It allocates nothing.
    pub(crate) fn begin(&mut self)
        ensures behind { (M : ClauseMap) → ExtendsBase M self.old.base self.old.top self.old.clauses → ExtendsBase M self.new.base self.new.top self.new.clauses }
        ensures top { self.new.top ≡ self.new.base }
        ensures base { self.new.base ≡ self.old.base }
        ensures cut { self.new.cut ≡ 0 }
    {
        clear_lemmas(&mut self.clauses, self.base, self.top);
        self.top = self.base;
        self.cut = 0;
    }
}
