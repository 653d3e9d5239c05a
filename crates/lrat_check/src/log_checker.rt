//! The checker of logs over a formula: it reads line by line, and one log after the other.

ghost use Rattle.std.specs.Prelude.{◌≡◌, ◌⊎◌, ◌+◌, ◌^◌, ◌<◌, ◌≤◌, Ok, Err, OnOk, OnErr, IfOk, IfErr, option_map};
ghost use Rattle.std.specs.FinMap.{get};
ghost use Rattle.dimacs.specs.logic.Cnf.{Cnf};
ghost use Rattle.dimacs.specs.logic.ClauseMap.{ClauseMap};
ghost use Rattle.lrat_text.specs.Steps.{step_of};
ghost use Rattle.lrat_text.specs.declared.step.Step.TheVariants.{Delete};
ghost use Rattle.lrat_check.specs.ProofFaults.{GivesCheck, no_memory};
ghost use Rattle.lrat_check.specs.Logs.{ExtendsBase, DeletesPrefix, IsBegun, KeepsFormula, RefusesLogLine, SpellsLog, HoldsFormula, TakesLogLine, begun, log_end, log_of, text_from};
ghost use Rattle.lrat_check.specs.inner.LogStates.{log_refusal, state_of};

use crate::limit::Limit;
use crate::line_checker::{CheckFault, finish, next_line, step_refused};
use crate::log::{LogClauses, LogFault};
use dimacs::{Base, Formula, Lit};
use lrat_text::{StepBuffer, StepRef, TakesLines, log_top, read_line_within, take_lines};
use std::alloc::{AllocError, Global};
use std::marker::Model;

/// Answers the fault of a line whose step has this fault.
fn refused(fault: LogFault, line: u64) -> CheckFault
    ensures { result ≡ log_refusal fault line }
{
    match fault {
        LogFault::OfStep(step) => step_refused(step, line),
        _ => CheckFault {
            number: fault.number(),
            line,
            text: 0,
        },
    }
}

/// Reads a line, whose number is `line`, into the buffer, and takes its step. A refused deletion has deleted the lemmas of its first `cut`
/// numbers.
fn take_line(
    log: &mut LogClauses,
    buffer: &mut StepBuffer,
    limit: Limit,
    line: u64,
    text: &[u8],
) -> Result<(), CheckFault>
    requires { log.old.cut ≡ 0 }
    ensures took { OnOk result (TakesLogLine (state_of limit.most log.old line buffer.old) text.now (state_of limit.most log.new (line + 1) buffer.new)) }
    ensures refused { IfErr result (RefusesLogLine (state_of limit.most log.old line buffer.old) text.now) }
    ensures cut { OnErr result (DeletesPrefix (state_of limit.most log.old line buffer.old) (state_of limit.most log.new line buffer.new)) }
    ensures base { log.new.base ≡ log.old.base }
    ensures low { log.old.top < 2 ^ 48 → log.new.top < 2 ^ 48 }
    ensures behind { (M : ClauseMap) → ExtendsBase M log.old.base log.old.top log.old.clauses → ExtendsBase M log.new.base log.new.top log.new.clauses }
{
    match read_line_within(buffer, limit.most, text) {
        Ok(()) => {}
        Err(fault) => return Err(CheckFault::of_text(fault, line)),
    }
    match log.take(buffer.as_ref()) {
        Ok(()) => Ok(()),
        Err(fault) => Err(refused(fault, line)),
    }
}

/// Checks logs over a formula. A log adds lemmas that follow by hints alone, numbered without gaps after the formula's clauses, and deletes
/// live lemmas of its own. It is given line by line. After a call of `begin` the next log can be given; the formula is not loaded again.
pub struct LogChecker {
    /// The live clauses, of the formula and of the present log.
    log: LogClauses,
    /// The step of the line that was read last.
    buffer: StepBuffer,
    limit: Limit,
    /// The number of the next line of the present log, from 1.
    line: u64,
}

impl Model for LogChecker {
    ghost use Rattle.dimacs.specs.inner.Codes.{clause_map_code};
    ghost use Rattle.lrat_check.specs.Logs.{LogState};
    ghost use Rattle.std.specs.Coded.{codes};

    ghost Value = { LogState };

    ghost coded = { Prim.hlevel (codes, clause_map_code) };

    ghost view = { λ s. record { base = s.log.base; live = s.log.clauses; top = s.log.top; line = s.line; step = s.buffer; cut = s.log.cut; most = s.limit.most } };

    ghost use Rattle.std.specs.Prelude.{◌<◌, ◌^◌};

    // A number that a line spells is below this.
    ghost invariant = { λ s. s.log.top < 2 ^ 48 };
}

// Written by hand, so that a crate above drops a checker by one call, and its proofs do not go through the parts.
impl Drop for LogChecker {
    fn drop(self) {
        let LogChecker {
            log: _,
            buffer: _,
            limit: _,
            line: _,
        } = self;
    }
}

impl LogChecker {
    /// A checker, which has read no line, of logs over a formula, which is moved in. Its clauses are numbered from 1.
    pub fn of(alloc: Global, formula: Formula) -> Result<LogChecker, AllocError>
        ensures begun { IfOk result (IsBegun formula) }
        ensures stands { IfOk result (HoldsFormula formula) }
    {
        // Called for its contract: a formula is within the limits.
        let _ = formula.vars();
        let most = log_top(formula.as_base());
        let count = formula.len() as u64;
        let (_, literals, places) = formula.into_parts(alloc)?;
        Ok(LogChecker {
            log: LogClauses::of_parts(alloc, literals, &places, count)?,
            buffer: StepBuffer::new(alloc),
            limit: Limit { most },
            line: 1,
        })
    }

    /// A checker, which has read no line, of logs over a base, which is copied. Its clauses are numbered from 1.
    pub(crate) fn over(alloc: Global, base: &Base) -> Result<LogChecker, AllocError>
        ensures { IfOk result (λ s. s ≡ begun base.now) }
    {
        // Called for its contract: a base is within the limits.
        let _ = base.vars();
        let most = log_top(base);
        let (literals, places) = base.copy_parts(alloc)?;
        Ok(LogChecker {
            log: LogClauses::of_parts(alloc, literals, &places, base.len() as u64)?,
            buffer: StepBuffer::new(alloc),
            limit: Limit { most },
            line: 1,
        })
    }

    /// Begins the next log, also after a fault: deletes the lemmas of the last log. It allocates nothing, and takes time in proportion to
    /// the numbers that the last log gave.
    pub fn begin(&mut self)
        ensures begun { (F : Cnf) → HoldsFormula F self.old → IsBegun F self.new }
        ensures stands { KeepsFormula self.old self.new }
        ensures base { self.new.base ≡ self.old.base }
        ensures step { self.new.step ≡ self.old.step }
        ensures most { self.new.most ≡ self.old.most }
    {
        self.log.begin();
        self.line = 1;
    }

    /// Reads the next line of a log, without its LF, and takes its step, or answers the line's first fault. After a fault, call `begin`.
    ///
    /// The faults: 1 if the line spells no step; 2 to 7, 15 and 16 of its step; 14 if memory was refused or the next line's number does not
    /// fit in 64 bits. A refused deletion has deleted the lemmas before its fault: `cut` says how many.
    pub fn take(&mut self, line: &[u8]) -> Result<(), CheckFault>
        ensures took { OnOk result (TakesLogLine self.old line.now self.new) }
        ensures refused { IfErr result (RefusesLogLine self.old line.now) }
        ensures cut { OnErr result (DeletesPrefix self.old self.new) }
        ensures base { self.new.base ≡ self.old.base }
        ensures most { self.new.most ≡ self.old.most }
        // also if a line is refused
        ensures stands { KeepsFormula self.old self.new }
    {
        self.log.cut = 0;
        let next = next_line(self.line)?;
        take_line(&mut self.log, &mut self.buffer, self.limit, self.line, line)?;
        self.line = next;
        Ok(())
    }

    /// Answers the result at the end of a log's text. `rest` is the text after the last LF: `Ok` if it is empty, otherwise fault 1 (text
    /// fault 2) of the incomplete line.
    pub fn end(&self, rest: &[u8]) -> Result<(), CheckFault>
        ensures { result ≡ log_end self.now rest.now }
    {
        finish(0, true, self.line, rest)
    }

    /// Lends the step of the line that was read last.
    pub fn step(&self) -> StepRef<'_>
        ensures { step_of result ≡ self.now.step }
    {
        self.buffer.as_ref()
    }

    /// Answers how many lemmas the last line deleted before its fault, if it was a refused deletion: those of the first numbers of `step`.
    /// It is 0 if the last line was taken or is no deletion, and after `begin`.
    pub fn cut(&self) -> usize
        ensures { result ≡ self.now.cut }
    {
        self.log.cut
    }

    /// Lends the live clause of this number; `None` if there is none.
    pub fn clause(&self, number: u64) -> Option<&[Lit]>
        ensures { option_map (λ c. c.now) result ≡ get self.now.live number }
    {
        self.log.clauses.get(number)
    }

    /// Answers the number of clauses of the formula.
    pub fn base(&self) -> u64
        ensures value { result ≡ self.now.base }
        ensures few { result ≤ 200000190 }
    {
        self.log.base
    }

    /// Answers the number of the last addition, or of the formula's last clause if there was no addition.
    pub fn top(&self) -> u64
        ensures value { result ≡ self.now.top }
        ensures rises { self.now.base ≤ result }
        ensures low { result < 2 ^ 48 }
    {
        self.log.top
    }

    /// Answers the greatest variable that a line may have.
    pub fn most(&self) -> u32
        ensures value { result ≡ self.now.most }
        ensures limit { result ≤ 199999999 }
    {
        self.limit.most
    }

    /// Answers the number of the next line, from 1.
    pub fn line(&self) -> u64
        ensures { result ≡ self.now.line }
    {
        self.line
    }
}

impl TakesLines for LogChecker {
    ghost use Rattle.lrat_check.specs.inner.LogStates.{MayTake, RefusesAndKeeps};
    ghost use Rattle.lrat_check.specs.Logs.{TakesLogLine};

    type Fault = CheckFault;

    ghost may_take = { MayTake };

    ghost takes = { TakesLogLine };

    ghost refuses = { RefusesAndKeeps };

    /// Takes the next line of a log, without its LF, or answers its first fault.
    fn take_line(&mut self, line: &[u8]) -> Result<(), CheckFault> {
        self.take(line)
    }
}

/// Checks the lines of a log, and then its end.
fn check_lines(log: &mut LogChecker, text: &[u8]) -> Result<(), CheckFault>
    ensures { GivesCheck result (text_from log_end log.old text.now) }
{
    let rest = take_lines(log, text)?;
    log.end(rest)
}

/// Checks whether the text is a log over the formula, and answers its first fault.
pub fn check_log(alloc: Global, formula: &Formula, text: &[u8]) -> Result<(), CheckFault>
    ensures log { OnOk result (SpellsLog formula.now text.now) }
    // a log is refused for want of memory alone
    ensures complete { SpellsLog formula.now text.now → (result ≡ Ok tt) ⊎ (result ≡ Err no_memory) }
    // the first fault, and its line
    ensures exact { GivesCheck result (log_of formula.now text.now) }
{
    let _ = formula.vars(); // its contract says that the formula is within its limits
    let mut log = LogChecker::over(alloc, formula.as_base())?;
    check_lines(&mut log, text)
}
