//! Translates the lines of a LIDRUP text into steps of a log.

ghost use Rattle.std.specs.Prelude.{◌≡◌, ◌+◌, ℕ, List, [], All, IfOk, IfErr, OnOk, map};
ghost use Rattle.dimacs.specs.logic.Literal.{IsWithin, negation};
ghost use Rattle.lrat_check.specs.Logs.{IsBegun};
ghost use Rattle.lrat_text.specs.Grammar.{IsClauseNumber, IsStepWithin};
ghost use Rattle.lrat_text.specs.Steps.{step_of};
ghost use Rattle.lrat_text.specs.declared.step.Step.TheVariants as owned;
ghost use Rattle.lidrup.specs.Lidrup.{begun, closing_of as closing_in, logged, naming, take_line, take_read};
ghost use Rattle.lidrup.specs.Lines.{Given, Learnt, Closed, Deleted, Asked, said};
ghost use Rattle.lidrup.specs.View.{state_of};
ghost use Rattle.lidrup.specs.inner.LineEffects.{CarriesOut, FailsAs};

use crate::checked_log::CheckedLog;
use crate::fault::LineFault;
use crate::kind::StepKind;
use crate::log_number::LogNumber;
use crate::names::Names;
use crate::numbers::{forget, put, translate};
use dimacs::{Formula, Lit};
use lrat_text::{StepRef, TextFault};
use std::alloc::{AllocError, Global};

/// The state of translation between two lines.
pub(crate) struct Translator {
    pub(crate) log: CheckedLog,
    pub(crate) names: Names,
    /// The greatest foreign number so far.
    pub(crate) last: u64,
    /// The number of clauses of the formula that were given so far.
    pub(crate) given: u64,
    /// The number of the lemma that closed a cube last.
    pub(crate) closing: Option<LogNumber>,
    /// For each query in turn, the number of the lemma that closed its cube; 0 if there is none.
    pub(crate) closings: Vec<u64>,
    /// Buffers for the hints or deleted numbers of a line of the log, and for its literals.
    numbers: Vec<u64>,
    literals: Vec<Lit>,
}

impl Drop for Translator {
    fn drop(self) {
        let Translator {
            log: _,
            names: _,
            last: _,
            given: _,
            closing: _,
            closings: _,
            numbers: _,
            literals: _,
        } = self;
    }
}

/// The fault of a line with a part that its kind does not have.
const BAD: LineFault = LineFault::Text(TextFault::BadToken);

/// Leaves the negations of literals in `negated`.
fn negate(lits: &[Lit], negated: &mut Vec<Lit>) -> Result<(), AllocError>
    ensures { OnOk result (negated.new.items ≡ map negation lits.now) }
{
    negated.clear();
    for l in lits {
        negated.push(l.negate())?;
    }
    Ok(())
}

impl Translator {
    /// Makes the state before the first line of a text over the formula.
    pub(crate) fn of(alloc: Global, formula: Formula) -> Result<Translator, AllocError>
        ensures state { IfOk result (λ x. state_of x ≡ begun formula) }
        ensures log { IfOk result (λ x. IsBegun formula x.log.checker) }
    {
        let log = CheckedLog::of(alloc, formula)?;
        let names = Names::new(alloc)?;
        Ok(Translator {
            log,
            names,
            last: 0,
            given: 0,
            closing: None,
            closings: Vec::new(alloc),
            numbers: Vec::new(alloc),
            literals: Vec::new(alloc),
        })
    }

    /// Returns the number of the lemma that closes the cube of a query; 0 if there is none. Queries are counted from 0.
    pub(crate) fn closing_of(&self, query: usize) -> u64
        ensures { result ≡ closing_in (state_of self.now) query }
    {
        if self.log.empty != 0 {
            return self.log.empty;
        }
        if query < self.closings.len() {
            return self.closings[query];
        }
        0
    }

    /// Adds a lemma to the log, with the hints that are in `numbers`, and names it by the foreign
    /// number `id`.
    fn add(&mut self, id: u64, lits: &[Lit], out: &mut Vec<u8>) -> Result<(), LineFault>
        requires literals { All (IsWithin self.old.log.checker.most) lits.now }
        requires hints { All IsClauseNumber self.old.numbers.items }
        ensures took { OnOk result (CarriesOut (logged self.old.log.checker.base (naming (state_of self.old) id (self.old.log.checker.top + 1)) (owned.Add (self.old.log.checker.top + 1) lits.now self.old.numbers.items [])) self.old self.new out.old.items out.new.items) }
        ensures refused { IfErr result (FailsAs (logged self.old.log.checker.base (naming (state_of self.old) id (self.old.log.checker.top + 1)) (owned.Add (self.old.log.checker.top + 1) lits.now self.old.numbers.items []))) }
    {
        let number = self.log.add(lits, &self.numbers, out)?;
        self.names.put(id, number)?;
        self.last = id;
        Ok(())
    }

    /// Takes a given clause: the next one of the formula; or after these the negation of a cube, which follows from the lemma that closed a
    /// cube last. `Err` if the number is not rising, or no lemma closed a cube.
    fn take_given(&mut self, id: u64, lits: &[Lit], out: &mut Vec<u8>) -> Result<(), LineFault>
        requires { All (IsWithin self.old.log.checker.most) lits.now }
        ensures took { OnOk result (CarriesOut (take_line self.old.log.checker.base (state_of self.old) (Given id lits.now)) self.old self.new out.old.items out.new.items) }
        ensures refused { IfErr result (FailsAs (take_line self.old.log.checker.base (state_of self.old) (Given id lits.now))) }
    {
        if id <= self.last {
            return Err(LineFault::NumberNotRising);
        }
        let clauses = self.log.checker.base();
        if self.given < clauses {
            let number = LogNumber {
                number: self.given + 1,
            };
            self.names.put(id, number)?;
            self.given = number.number;
            self.last = id;
            return Ok(());
        }
        let Some(closing) = self.closing else {
            return Err(LineFault::UnknownClause);
        };
        self.numbers.clear();
        put(closing, &mut self.numbers)?;
        self.add(id, lits, out)
    }

    /// Adds a lemma that was learnt. `Err` if its number is not rising, or a hint names no clause.
    fn learn(
        &mut self,
        id: u64,
        lits: &[Lit],
        hints: &[u64],
        out: &mut Vec<u8>,
    ) -> Result<(), LineFault>
        requires { All (IsWithin self.old.log.checker.most) lits.now }
        ensures took { OnOk result (CarriesOut (take_line self.old.log.checker.base (state_of self.old) (Learnt id lits.now hints.now)) self.old self.new out.old.items out.new.items) }
        ensures refused { IfErr result (FailsAs (take_line self.old.log.checker.base (state_of self.old) (Learnt id lits.now hints.now))) }
    {
        if id <= self.last {
            return Err(LineFault::NumberNotRising);
        }
        if !translate(&self.names, hints, &mut self.numbers)? {
            return Err(LineFault::UnknownClause);
        }
        self.add(id, lits, out)
    }

    /// Adds the lemma that closes the cube of the last query: the negations of `lits`, literals of that cube. `Err` if there was no query,
    /// or a hint names no clause.
    fn close(&mut self, lits: &[Lit], hints: &[u64], out: &mut Vec<u8>) -> Result<(), LineFault>
        requires { All (IsWithin self.old.log.checker.most) lits.now }
        ensures took { OnOk result (CarriesOut (take_line self.old.log.checker.base (state_of self.old) (Closed lits.now hints.now)) self.old self.new out.old.items out.new.items) }
        ensures refused { IfErr result (FailsAs (take_line self.old.log.checker.base (state_of self.old) (Closed lits.now hints.now))) }
    {
        if self.closings.is_empty() {
            return Err(LineFault::UnknownClause);
        }
        if !translate(&self.names, hints, &mut self.numbers)? {
            return Err(LineFault::UnknownClause);
        }
        negate(lits, &mut self.literals)?;
        let number = self.log.add(&self.literals, &self.numbers, out)?;
        self.closings.pop();
        self.closings.push(number.number)?;
        self.closing = Some(number);
        Ok(())
    }

    /// Deletes the clauses of these foreign numbers: their names are removed, and those that are lemmas are deleted from the log.
    fn delete(&mut self, ids: &[u64], out: &mut Vec<u8>) -> Result<(), LineFault>
        ensures took { OnOk result (CarriesOut (take_line self.old.log.checker.base (state_of self.old) (Deleted ids.now)) self.old self.new out.old.items out.new.items) }
        ensures refused { IfErr result (FailsAs (take_line self.old.log.checker.base (state_of self.old) (Deleted ids.now))) }
    {
        let clauses = self.log.checker.base();
        forget(&mut self.names, clauses, ids, &mut self.numbers)?;
        if self.numbers.is_empty() {
            return Ok(());
        }
        self.log.delete(&self.numbers, out)
    }

    /// Takes a line that asks a query: its cube has the number of the queries before it, and no
    /// lemma closes it yet.
    pub(crate) fn ask(&mut self) -> Result<(), LineFault>
        ensures took { OnOk result ((out : List ℕ) → CarriesOut (take_line self.old.log.checker.base (state_of self.old) Asked) self.old self.new out out) }
        ensures refused { IfErr result (λ f. f ≡ LineFault.NoMemory) }
    {
        self.closings.push(0)?;
        Ok(())
    }

    /// Takes a line of this kind, by the step of the LRAT line that stands for it. `Err` if the
    /// step has a part that lines of its kind do not have (hints or groups), or if it is refused.
    pub(crate) fn take(
        &mut self,
        kind: StepKind,
        step: StepRef<'_>,
        out: &mut Vec<u8>,
    ) -> Result<(), LineFault>
        requires { IsStepWithin self.old.log.checker.most (step_of step) }
        ensures took { OnOk result (CarriesOut (take_read self.old.log.checker.base (state_of self.old) (said kind (step_of step.entry))) self.old self.new out.old.items out.new.items) }
        ensures refused { IfErr result (FailsAs (take_read self.old.log.checker.base (state_of self.old) (said kind (step_of step.entry)))) }
    {
        match step {
            StepRef::Add {
                id,
                lits,
                hints,
                groups,
            } => {
                if !groups.is_empty() {
                    return Err(BAD);
                }
                match kind {
                    StepKind::Given => {
                        if !hints.is_empty() {
                            return Err(BAD);
                        }
                        self.take_given(id, lits, out)
                    }
                    StepKind::Learnt => self.learn(id, lits, hints, out),
                    StepKind::Closed => self.close(lits, hints, out),
                    StepKind::Deleted => Err(BAD),
                }
            }
            StepRef::Delete { ids } => match kind {
                StepKind::Deleted => self.delete(ids, out),
                StepKind::Given | StepKind::Learnt | StepKind::Closed => Err(BAD),
            },
        }
    }
}
