//! Takes the lines of a LIDRUP text, one after the other, and writes the lines of the log.

ghost use Rattle.std.specs.Prelude.{◌≡◌, ◌≤◌, ◌+◌, ◌^◌, MatchResult, OnErr, OnOk, IfErr, if◌then◌else◌};
ghost use Rattle.lrat_check.specs.ProofFaults.{no_memory};
ghost use Rattle.lrat_text.specs.Grammar.{IsStepWithin};
ghost use Rattle.lrat_text.specs.Parser.{GivesStep, step_within};
ghost use Rattle.lidrup.specs.Lidrup.{take_read};
ghost use Rattle.lidrup.specs.Lines.{by_step, line_in, lrat_line};
ghost use Rattle.lidrup.specs.View.{state_of};
ghost use Rattle.lidrup.specs.inner.LineEffects.{CarriesOut, FailsAs};
ghost use Rattle.lidrup.specs.inner.Faults.{fault_of_text};

use crate::fault::{LineFault, refused};
use crate::kind::{Kind, StepKind, kind_of_line, spell};
use crate::translator::Translator;
use lrat_check::CheckFault;
use lrat_text::{StepBuffer, TakesLines, TextFault, read_line_within};

/// Returns the fault of a line that cannot be parsed.
fn not_read(fault: TextFault) -> LineFault
    ensures { result ≡ fault_of_text fault }
{
    match fault {
        TextFault::NoMemory => LineFault::NoMemory,
        _ => LineFault::Text(fault),
    }
}

/// Reads a line of LRAT text, with the variables that a line of the log may have.
fn read_step(known: &Translator, buffer: &mut StepBuffer, line: &[u8]) -> Result<(), TextFault>
    ensures within { OnOk result (IsStepWithin known.now.log.checker.most buffer.new) }
    ensures exact { GivesStep buffer.new result (step_within known.now.log.checker.most line.now) }
{
    let most = known.log.checker.most();
    read_line_within(buffer, most, line)
}

/// Returns the number of the line after this one. If that does not fit in 64 bits, and only then, the answer is fault 14.
fn next_line(line: u64) -> Result<u64, CheckFault>
    ensures number { MatchResult result (λ n. n ≡ line + 1) (λ fault. fault ≡ no_memory) }
    ensures only { OnErr result (2 ^ 64 ≤ line + 1) }
{
    match line.checked_add(1) {
        Some(next) => Ok(next),
        None => Err(CheckFault::no_memory()),
    }
}

/// Turns each line of a LIDRUP text into lines of the log, and appends these to `out`.
pub(crate) struct CubeLines {
    pub(crate) known: Translator,
    pub(crate) buffer: StepBuffer,
    /// The line of LRAT text that stands for the present line.
    pub(crate) spelled: Vec<u8>,
    /// The number of the next line.
    pub(crate) line: u64,
    /// The lines of the log that were written and not handed out yet.
    pub(crate) out: Vec<u8>,
}

impl Drop for CubeLines {
    fn drop(self) {
        let CubeLines {
            known: _,
            buffer: _,
            spelled: _,
            line: _,
            out: _,
        } = self;
    }
}

impl CubeLines {
    /// Takes a line that gives, learns, closes or deletes: respells it as a line of LRAT text,
    /// parses that, and lets the translator take the step. `Err` if the line cannot be parsed or
    /// its step is refused.
    fn take_step(&mut self, kind: StepKind, line: &[u8]) -> Result<(), LineFault>
        ensures took { OnOk result (CarriesOut (take_read self.old.known.log.checker.base (state_of self.old.known) (by_step kind (step_within self.old.known.log.checker.most (lrat_line kind line.now)))) self.old.known self.new.known self.old.out.items self.new.out.items) }
        ensures refused { IfErr result (FailsAs (take_read self.old.known.log.checker.base (state_of self.old.known) (by_step kind (step_within self.old.known.log.checker.most (lrat_line kind line.now))))) }
        ensures line { self.new.line ≡ self.old.line }
    {
        spell(kind, line, &mut self.spelled)?;
        match read_step(&self.known, &mut self.buffer, &self.spelled) {
            Ok(()) => {}
            Err(fault) => return Err(not_read(fault)),
        }
        self.known.take(kind, self.buffer.as_ref(), &mut self.out)
    }

    /// Takes a line before the empty lemma, by the kind that its first letter tells. `Err` if no
    /// kind has this letter, or the line is refused.
    fn take(&mut self, line: &[u8]) -> Result<(), LineFault>
        ensures took { OnOk result (CarriesOut (take_read self.old.known.log.checker.base (state_of self.old.known) (line_in self.old.known.log.checker.most line.now)) self.old.known self.new.known self.old.out.items self.new.out.items) }
        ensures refused { IfErr result (FailsAs (take_read self.old.known.log.checker.base (state_of self.old.known) (line_in self.old.known.log.checker.most line.now))) }
        ensures line { self.new.line ≡ self.old.line }
    {
        match kind_of_line(line) {
            Kind::Step(kind) => self.take_step(kind, line),
            Kind::Asked => self.known.ask(),
            Kind::Silent => Ok(()),
            Kind::Unknown => Err(LineFault::Text(TextFault::BadToken)),
        }
    }
}

impl TakesLines for CubeLines {
    ghost use Rattle.lidrup.specs.inner.LineEffects.{MayTake, TakesLidrupLine, RefusesLidrupLine};

    type Fault = CheckFault;

    ghost may_take = { MayTake };

    ghost takes = { TakesLidrupLine };

    ghost refuses = { RefusesLidrupLine };

    /// Takes the next line of the text and counts it. After the empty lemma, which closes every
    /// cube, lines are counted alone.
    fn take_line(&mut self, line: &[u8]) -> Result<(), CheckFault> {
        let next = match next_line(self.line) {
            Ok(next) => next,
            Err(fault) => return Err(fault),
        };
        if self.known.log.empty == 0 {
            match self.take(line) {
                Ok(()) => {}
                Err(fault) => return Err(refused(fault, self.line)),
            }
        }
        self.line = next;
        Ok(())
    }
}
