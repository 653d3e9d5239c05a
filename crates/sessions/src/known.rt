//! The state of a checked session: its clauses, lemmas and open query, and what each line of the proof does to it.

ghost use Rattle.std.specs.Prelude.{◌≡◌, ◌<◌, ◌≤◌, ◌+◌, Some, None, OnOk, OnErr, IfOk, IfErr, MatchResult, map};
ghost use Rattle.std.specs.FinMap.{get};
ghost use Rattle.std.specs.List.{list_all};
ghost use Rattle.dimacs.specs.logic.Literal.{has, negation};
ghost use Rattle.lrat_text.specs.Steps.{step_of};
ghost use Rattle.lrat_text.specs.declared.step.Step.TheVariants as owned;
ghost use Rattle.sessions.specs.Answers.{Given, Asked, Satisfied, Failed, one_more, counted};
ghost use Rattle.sessions.specs.Lines.{said};
ghost use Rattle.sessions.specs.Texts.{Goes as goes_to, Awaits, asks, begun, core_fault, deletes, fails, gives, is_between, is_met, is_model, learns, lines_top, listed, says, shows, without};
ghost use Rattle.sessions.specs.View.{reached_clause, reached_query, state_of};
ghost use Rattle.sessions.specs.inner.Acting.{Comes, Refused, Stays, no_answers, told};
ghost use Rattle.sessions.specs.inner.Sets.{set_in};

use crate::fault::LineFault;
use crate::kind::{Status, StepKind};
use crate::literal_set::LiteralSet;
use crate::numbers::Numbers;
use crate::stage::Stage;
use crate::tally::Tally;
use dimacs::{Limits, Lit};
use lrat_check::RupChecker;
use lrat_text::{Groups, StepRef, TextFault};
use std::alloc::{AllocError, Global};
use std::mem;

/// What a line without fault waits for.
#[derive(Clone, Copy)]
pub(crate) enum Came {
    /// The next line of the proof.
    Goes,
    /// The next event has to be the clause in `Known::awaited`.
    Clause,
    /// The next event has to be the query in `Known::awaited`.
    Query,
}

/// The state of a session between two lines of its proof. Each call that may answer Err answers `NoMemory` if memory is refused.
pub(crate) struct Known {
    /// The limits on the events.
    pub(crate) limits: Limits,
    /// The live clauses and lemmas, by their numbers.
    pub(crate) rup: RupChecker,
    /// The numbers of the given clauses, and the greatest number so far.
    pub(crate) numbers: Numbers,
    /// The stage of the query that was asked last.
    pub(crate) stage: Stage,
    /// The literals of the query that was asked last.
    pub(crate) query: Vec<Lit>,
    /// How many answers of each kind the proof has given so far.
    pub(crate) tally: Tally,
    /// The literals of the event that is awaited.
    pub(crate) awaited: Vec<Lit>,
    /// The number of the clause that is awaited.
    pub(crate) id: u64,
    /// A set of literals, reused from line to line.
    set: LiteralSet,
    /// The negations of a core's literals, reused from line to line.
    negated: Vec<Lit>,
}

impl Drop for Known {
    fn drop(self) {
        let Known {
            limits: _,
            rup: _,
            numbers: _,
            stage: _,
            query: _,
            tally: _,
            awaited: _,
            id: _,
            set: _,
            negated: _,
        } = self;
    }
}

/// The greatest variable of a line under the written limits, which no limits lower.
const WRITTEN: u32 = 2_000_000;

/// The fault (1) of a line that has hints, groups or a number which its kind of line does not have.
const BAD: LineFault = LineFault::Text(TextFault::BadToken);

/// Fault 19: a line of this kind is not allowed at this stage of the query.
const MISPLACED: LineFault = LineFault::OfLine(19);

/// Fault 2: the number of a clause or lemma is not above all numbers before it.
const NOT_RISING: LineFault = LineFault::OfLine(2);

/// Fault 20: the literals are no model of the given clauses and the query.
const NO_MODEL: LineFault = LineFault::OfLine(20);

/// Fault 21: the core has a literal that is none of the query's.
const NOT_ASKED: LineFault = LineFault::OfLine(21);

/// Answers `count` + 1, for a count of answers; Err(NoMemory) if that is above 64 bits.
fn next(count: u64) -> Result<u64, LineFault>
    ensures { MatchResult result (λ n. n ≡ count + 1) (λ f. f ≡ LineFault.NoMemory) }
{
    match count.checked_add(1) {
        Some(next) => Ok(next),
        None => Err(LineFault::NoMemory),
    }
}

/// Overwrites `copied` with these literals.
fn copy(lits: &[Lit], copied: &mut Vec<Lit>) -> Result<(), AllocError>
    ensures { OnOk result (copied.new.items ≡ lits.now) }
{
    copied.clear();
    copied.extend_from_slice(lits)
}

/// Overwrites `negated` with the negations of a core's literals: the clause that has to follow.
fn negate(lits: &[Lit], negated: &mut Vec<Lit>) -> Result<(), AllocError>
    ensures { OnOk result (negated.new.items ≡ map negation lits.now) }
{
    negated.clear();
    for l in lits {
        negated.push(l.negate())?;
    }
    Ok(())
}

/// Deletes the lemmas of these numbers from the checker. Given clauses stay, since a model has to
/// satisfy them all, and numbers that are not live are passed over.
fn forget(rup: &mut RupChecker, numbers: &Numbers, ids: &[u64])
    ensures { rup.new ≡ without numbers.now.given rup.old ids.now }
{
    for id in ids {
        if !numbers.is_given(*id) {
            rup.remove(*id);
        }
    }
}

/// Answers whether the clause of this number has a literal in the set, so that the model satisfies
/// it; false if no clause of this number is live.
fn is_met(rup: &RupChecker, set: &LiteralSet, id: u64) -> bool
    ensures { result ≡ is_met (set_in set.now.stamps.items set.now.stamp) (get rup.now id) }
{
    match rup.clause(id) {
        Some(clause) => set.meets(clause),
        None => false,
    }
}

/// Answers whether each given clause has a literal in the set.
fn are_met(rup: &RupChecker, set: &LiteralSet, given: &[u64]) -> bool
    ensures { result ≡ list_all (λ id. is_met (set_in set.now.stamps.items set.now.stamp) (get rup.now id)) given.now }
{
    for id in given {
        if !is_met(rup, set, *id) {
            return false;
        }
    }
    true
}

impl Known {
    /// The state before the first line.
    pub(crate) fn new(alloc: Global, limits: Limits) -> Result<Known, AllocError>
        ensures state { IfOk result (λ x. state_of x ≡ begun limits) }
        ensures tally { IfOk result (λ x. x.tally ≡ no_answers) }
    {
        let rup = RupChecker::new(alloc)?;
        Ok(Known {
            limits,
            rup,
            numbers: Numbers::new(alloc),
            stage: Stage::Between,
            query: Vec::new(alloc),
            tally: Tally {
                satisfied: 0,
                failed: 0,
                unknown: 0,
            },
            awaited: Vec::new(alloc),
            id: 0,
            set: LiteralSet::new(alloc),
            negated: Vec::new(alloc),
        })
    }

    /// Answers the greatest variable of a line.
    pub(crate) fn lines_top(&self) -> u32
        ensures value { result ≡ lines_top self.now.limits }
        ensures most { result ≤ 199999999 }
    {
        WRITTEN.max(2 * self.limits.vars())
    }

    /// Answers whether no query is open.
    pub(crate) fn is_between(&self) -> bool
        ensures { result ≡ is_between self.now.stage }
    {
        match self.stage {
            Stage::Between => true,
            Stage::Open | Stage::Satisfiable | Stage::Unsatisfiable => false,
        }
    }

    /// Takes line `i` of the proof: keeps its clause, which the next event has to give. Err if a
    /// query is open or the number does not rise.
    fn await_clause(&mut self, id: u64, lits: &[Lit]) -> Result<(), LineFault>
        ensures took { OnOk result (gives (state_of self.old) id lits.now ≡ Awaits (Given self.new.awaited.items) (reached_clause self.new)) }
        ensures tally { self.new.tally ≡ self.old.tally }
        ensures high { OnOk result (self.new.numbers.last < self.new.id) }
        ensures refused { IfErr result (Refused (gives (state_of self.old) id lits.now)) }
    {
        if !self.is_between() {
            return Err(MISPLACED);
        }
        if id <= self.numbers.last() {
            return Err(NOT_RISING);
        }
        copy(lits, &mut self.awaited)?;
        self.id = id;
        Ok(())
    }

    /// Takes line `q` of the proof: keeps its query, which the next event has to ask. Err if a
    /// query is open.
    fn await_query(&mut self, lits: &[Lit]) -> Result<(), LineFault>
        ensures took { OnOk result (asks (state_of self.old) lits.now ≡ Awaits (Asked self.new.awaited.items) (reached_query self.new)) }
        ensures tally { self.new.tally ≡ self.old.tally }
        ensures refused { IfErr result (Refused (asks (state_of self.old) lits.now)) }
    {
        if !self.is_between() {
            return Err(MISPLACED);
        }
        copy(lits, &mut self.awaited)?;
        Ok(())
    }

    /// Adds the awaited clause to the checker, now that the event has given it. Err only if memory
    /// is refused, as its number was tested.
    pub(crate) fn give(&mut self) -> Result<(), LineFault>
        ensures took { OnOk result (state_of self.new ≡ reached_clause self.old) }
        ensures tally { self.new.tally ≡ self.old.tally }
        ensures refused { IfErr result (λ f. self.old.numbers.last < self.old.id → f ≡ LineFault.NoMemory) }
    {
        if self.id <= self.numbers.last() {
            return Err(NOT_RISING);
        }
        self.rup.put(self.id, &self.awaited)?;
        self.numbers.give(self.id)?;
        Ok(())
    }

    /// Opens the awaited query, now that the event has asked it.
    pub(crate) fn ask(&mut self)
        ensures took { state_of self.new ≡ reached_query self.old }
        ensures tally { self.new.tally ≡ self.old.tally }
    {
        mem::swap(&mut self.query, &mut self.awaited);
        self.stage = Stage::Open;
    }

    /// Takes line `l`: adds a lemma. Err if the number does not rise, or the lemma does not follow by its hints.
    fn learn(&mut self, id: u64, lits: &[Lit], hints: &[u64]) -> Result<(), LineFault>
        ensures took { OnOk result (learns (state_of self.old) id lits.now hints.now ≡ goes_to None (state_of self.new)) }
        ensures tally { self.new.tally ≡ self.old.tally }
        ensures refused { IfErr result (Refused (learns (state_of self.old) id lits.now hints.now)) }
    {
        if id <= self.numbers.last() {
            return Err(NOT_RISING);
        }
        if let Some(number) = self.rup.fault(lits, hints)? {
            return Err(LineFault::OfLine(number));
        }
        self.rup.put(id, lits)?;
        self.numbers.learn(id);
        Ok(())
    }

    /// Takes line `d`: deletes the lemmas of these numbers.
    fn delete(&mut self, ids: &[u64])
        ensures took { deletes (state_of self.old) ids.now ≡ goes_to None (state_of self.new) }
        ensures tally { self.new.tally ≡ self.old.tally }
    {
        forget(&mut self.rup, &self.numbers, ids);
    }

    /// Takes line `s` of an open query that has no status yet. The status unknown closes the query.
    fn say_open(&mut self, status: Status) -> Result<(), LineFault>
        ensures took { OnOk result (says (state_of self.old) Stage.Open status ≡ goes_to (told status) (state_of self.new)) }
        ensures tally { OnOk result (self.new.tally ≡ counted self.old.tally (listed (told status))) }
        ensures kept { OnErr result (self.new.tally ≡ self.old.tally) }
        ensures refused { IfErr result (λ f. f ≡ LineFault.NoMemory) }
    {
        match status {
            Status::Satisfiable => self.stage = Stage::Satisfiable,
            Status::Unsatisfiable => self.stage = Stage::Unsatisfiable,
            Status::Unknown => {
                self.tally.unknown = next(self.tally.unknown)?;
                self.stage = Stage::Between;
            }
        }
        Ok(())
    }

    /// Takes line `s`, the status of the open query. Err if no query is open, or it has a status.
    pub(crate) fn say(&mut self, status: Status) -> Result<(), LineFault>
        ensures took { OnOk result (says (state_of self.old) self.old.stage status ≡ goes_to (told status) (state_of self.new)) }
        ensures tally { OnOk result (self.new.tally ≡ counted self.old.tally (listed (told status))) }
        ensures kept { OnErr result (self.new.tally ≡ self.old.tally) }
        ensures refused { IfErr result (Refused (says (state_of self.old) self.old.stage status)) }
    {
        match self.stage {
            Stage::Open => self.say_open(status),
            Stage::Between | Stage::Satisfiable | Stage::Unsatisfiable => Err(MISPLACED),
        }
    }

    /// Answers whether these literals are a model of the given clauses and of the query: no literal stands with its negation, each clause
    /// has one of them, and the query's literals are among them.
    fn is_model(&mut self, model: &[Lit]) -> Result<bool, AllocError>
        ensures is { IfOk result (λ b. b ≡ is_model (state_of self.old) model.now) }
        ensures same { state_of self.new ≡ state_of self.old }
        ensures tally { self.new.tally ≡ self.old.tally }
    {
        let pair = self.set.hold_apart(model)?;
        if pair {
            return Ok(false);
        }
        if !are_met(&self.rup, &self.set, self.numbers.given()) {
            return Ok(false);
        }
        Ok(self.set.has_all(&self.query))
    }

    /// Takes line `m`, the model of a query whose status is satisfiable, and closes the query. Err if it is no model.
    fn show_satisfiable(&mut self, model: &[Lit]) -> Result<(), LineFault>
        ensures took { OnOk result (shows (state_of self.old) Stage.Satisfiable model.now ≡ goes_to (Some (Satisfied model.now)) (state_of self.new)) }
        ensures tally { OnOk result (self.new.tally ≡ one_more (Satisfied model.now) self.old.tally) }
        ensures kept { OnErr result (self.new.tally ≡ self.old.tally) }
        ensures refused { IfErr result (Refused (shows (state_of self.old) Stage.Satisfiable model.now)) }
    {
        if !self.is_model(model)? {
            return Err(NO_MODEL);
        }
        self.tally.satisfied = next(self.tally.satisfied)?;
        self.stage = Stage::Between;
        Ok(())
    }

    /// Takes line `m`, the model of the open query. Err if the query's status is not satisfiable, or it is no model.
    fn show(&mut self, model: &[Lit]) -> Result<(), LineFault>
        ensures took { OnOk result (shows (state_of self.old) self.old.stage model.now ≡ goes_to (Some (Satisfied model.now)) (state_of self.new)) }
        ensures tally { OnOk result (self.new.tally ≡ one_more (Satisfied model.now) self.old.tally) }
        ensures kept { OnErr result (self.new.tally ≡ self.old.tally) }
        ensures refused { IfErr result (Refused (shows (state_of self.old) self.old.stage model.now)) }
    {
        match self.stage {
            Stage::Satisfiable => self.show_satisfiable(model),
            Stage::Between | Stage::Open | Stage::Unsatisfiable => Err(MISPLACED),
        }
    }

    /// The number of the fault of a core; None if the clause of its negations follows by the hints, or the core has a literal with its
    /// negation.
    fn core_fault(&mut self, core: &[Lit], hints: &[u64]) -> Result<Option<u8>, AllocError>
        ensures fault { IfOk result (λ f. f ≡ core_fault self.old.rup core.now hints.now) }
        ensures same { state_of self.new ≡ state_of self.old }
        ensures tally { self.new.tally ≡ self.old.tally }
    {
        if self.set.hold_apart(core)? {
            return Ok(None);
        }
        negate(core, &mut self.negated)?;
        self.rup.fault(&self.negated, hints)
    }

    /// Answers whether each of these literals is one of the query's.
    fn are_asked(&mut self, lits: &[Lit]) -> Result<bool, AllocError>
        ensures are { IfOk result (λ b. b ≡ list_all (has self.old.query.items) lits.now) }
        ensures same { state_of self.new ≡ state_of self.old }
        ensures tally { self.new.tally ≡ self.old.tally }
    {
        self.set.hold(&self.query)?;
        Ok(self.set.has_all(lits))
    }

    /// Takes line `u`, the core of a query whose status is unsatisfiable, and closes the query. Err if the core does not fail, or has a
    /// literal that is none of the query's.
    fn fail_unsatisfiable(&mut self, core: &[Lit], hints: &[u64]) -> Result<(), LineFault>
        ensures took { OnOk result (fails (state_of self.old) Stage.Unsatisfiable core.now hints.now ≡ goes_to (Some (Failed core.now)) (state_of self.new)) }
        ensures tally { OnOk result (self.new.tally ≡ one_more (Failed core.now) self.old.tally) }
        ensures kept { OnErr result (self.new.tally ≡ self.old.tally) }
        ensures refused { IfErr result (Refused (fails (state_of self.old) Stage.Unsatisfiable core.now hints.now)) }
    {
        if let Some(number) = self.core_fault(core, hints)? {
            return Err(LineFault::OfLine(number));
        }
        if !self.are_asked(core)? {
            return Err(NOT_ASKED);
        }
        self.tally.failed = next(self.tally.failed)?;
        self.stage = Stage::Between;
        Ok(())
    }

    /// Takes line `u`, the core of the open query. Err if the query's status is not unsatisfiable, or the core has a fault.
    fn fail(&mut self, core: &[Lit], hints: &[u64]) -> Result<(), LineFault>
        ensures took { OnOk result (fails (state_of self.old) self.old.stage core.now hints.now ≡ goes_to (Some (Failed core.now)) (state_of self.new)) }
        ensures tally { OnOk result (self.new.tally ≡ one_more (Failed core.now) self.old.tally) }
        ensures kept { OnErr result (self.new.tally ≡ self.old.tally) }
        ensures refused { IfErr result (Refused (fails (state_of self.old) self.old.stage core.now hints.now)) }
    {
        match self.stage {
            Stage::Unsatisfiable => self.fail_unsatisfiable(core, hints),
            Stage::Between | Stage::Open | Stage::Satisfiable => Err(MISPLACED),
        }
    }
}

impl Known {
    /// Takes a line of this kind, by the LRAT addition that stands for it. Answers which event the
    /// line waits for, if any; Err is its first fault.
    fn take_addition(
        &mut self,
        kind: StepKind,
        id: u64,
        lits: &[Lit],
        hints: &[u64],
        groups: &Groups,
    ) -> Result<Came, LineFault>
        ensures came { IfOk result (λ came. Comes came (said kind (owned.Add id lits.now hints.now groups.now)) self.old self.new) }
        ensures kept { OnErr result (self.new.tally ≡ self.old.tally) }
        ensures refused { IfErr result (Stays self.old (said kind (owned.Add id lits.now hints.now groups.now))) }
    {
        if !groups.is_empty() {
            return Err(BAD);
        }
        match kind {
            StepKind::Learns => {
                self.learn(id, lits, hints)?;
                Ok(Came::Goes)
            }
            StepKind::Fails => {
                self.fail(lits, hints)?;
                Ok(Came::Goes)
            }
            StepKind::Deletes => Err(BAD),
            StepKind::Gives => {
                if !hints.is_empty() {
                    return Err(BAD);
                }
                self.await_clause(id, lits)?;
                Ok(Came::Clause)
            }
            StepKind::Asks => {
                if !hints.is_empty() {
                    return Err(BAD);
                }
                self.await_query(lits)?;
                Ok(Came::Query)
            }
            StepKind::Shows => {
                if !hints.is_empty() {
                    return Err(BAD);
                }
                self.show(lits)?;
                Ok(Came::Goes)
            }
        }
    }

    /// Takes a line of this kind, by the LRAT step that stands for it. Answers which event the line
    /// waits for, if any; Err is its first fault.
    pub(crate) fn take(&mut self, kind: StepKind, step: StepRef<'_>) -> Result<Came, LineFault>
        ensures came { IfOk result (λ came. Comes came (said kind (step_of step.entry)) self.old self.new) }
        ensures kept { OnErr result (self.new.tally ≡ self.old.tally) }
        ensures refused { IfErr result (Stays self.old (said kind (step_of step.entry))) }
    {
        match step {
            StepRef::Add {
                id,
                lits,
                hints,
                groups,
            } => self.take_addition(kind, id, lits, hints, groups),
            StepRef::Delete { ids } => match kind {
                StepKind::Deletes => {
                    self.delete(ids);
                    Ok(Came::Goes)
                }
                StepKind::Gives
                | StepKind::Asks
                | StepKind::Learns
                | StepKind::Shows
                | StepKind::Fails => Err(BAD),
            },
        }
    }
}
