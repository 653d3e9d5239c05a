//! Reads a line of a session's proof, and changes the state as the line says.

ghost use Rattle.std.specs.Prelude.{◌≡◌, OnErr, IfOk, IfErr, bytes_eq};
ghost use Rattle.lrat_text.specs.Parser.{step_within};
ghost use Rattle.sessions.specs.Lines.{by_step, line_within, lrat_line, status_in, status_word};
ghost use Rattle.sessions.specs.Texts.{begun, lines_top};
ghost use Rattle.sessions.specs.View.{state_of};
ghost use Rattle.sessions.specs.inner.Acting.{Comes, Stays, fault_of_text, no_answers};

use crate::fault::LineFault;
use crate::kind::{Kind, Status, StepKind, kind_of_line, spell};
use crate::known::{Came, Known};
use dimacs::Limits;
use lrat_text::{StepBuffer, TextFault, read_line_within};
use std::alloc::{AllocError, Global};

/// The fault of a line that cannot be read, by the fault of its line of LRAT text.
fn not_read(fault: TextFault) -> LineFault
    ensures { result ≡ fault_of_text fault }
{
    match fault {
        TextFault::NoMemory => LineFault::NoMemory,
        _ => LineFault::Text(fault),
    }
}

/// Answers whether a line is this text.
fn is_line(line: &[u8], text: &[u8]) -> bool
    ensures { result ≡ bytes_eq line.now text.now }
{
    line == text
}

/// The status that an `s` line gives; None if the line is no status.
fn status_of(line: &[u8]) -> Option<Status>
    ensures { result ≡ status_word line.now }
{
    if is_line(line, b"s SATISFIABLE") {
        Some(Status::Satisfiable)
    } else if is_line(line, b"s UNSATISFIABLE") {
        Some(Status::Unsatisfiable)
    } else if is_line(line, b"s UNKNOWN") {
        Some(Status::Unknown)
    } else {
        None
    }
}

/// The state of a session, and the buffers into which a line of its proof is read.
pub(crate) struct ProofLines {
    /// The state of the session between two lines.
    pub(crate) known: Known,
    /// The step that was read of the last line.
    buffer: StepBuffer,
    /// The last line as a line of LRAT text.
    spelled: Vec<u8>,
}

impl Drop for ProofLines {
    fn drop(self) {
        let ProofLines {
            known: _,
            buffer: _,
            spelled: _,
        } = self;
    }
}

impl ProofLines {
    /// A reader that has read no line, with the state before the first line.
    pub(crate) fn new(alloc: Global, limits: Limits) -> Result<ProofLines, AllocError>
        ensures state { IfOk result (λ x. state_of x.known ≡ begun limits) }
        ensures tally { IfOk result (λ x. x.known.tally ≡ no_answers) }
    {
        let known = Known::new(alloc, limits)?;
        Ok(ProofLines {
            known,
            buffer: StepBuffer::new(alloc),
            spelled: Vec::new(alloc),
        })
    }

    /// Takes a line of a kind that has numbers. Answers what the line waits for; Err is its first fault.
    fn take_step(&mut self, kind: StepKind, line: &[u8]) -> Result<Came, LineFault>
        ensures came { IfOk result (λ came. Comes came (by_step kind (step_within (lines_top self.old.known.limits) (lrat_line kind line.now))) self.old.known self.new.known) }
        ensures kept { OnErr result (self.new.known.tally ≡ self.old.known.tally) }
        ensures refused { IfErr result (Stays self.old.known (by_step kind (step_within (lines_top self.old.known.limits) (lrat_line kind line.now)))) }
    {
        spell(kind, line, &mut self.spelled)?;
        match read_line_within(&mut self.buffer, self.known.lines_top(), &self.spelled) {
            Ok(()) => {}
            Err(fault) => return Err(not_read(fault)),
        }
        self.known.take(kind, self.buffer.as_ref())
    }

    /// Takes an `s` line. Err if it is no status, is not allowed at this stage, or memory is refused.
    fn take_status(&mut self, line: &[u8]) -> Result<Came, LineFault>
        ensures came { IfOk result (λ came. Comes came (status_in line.now) self.old.known self.new.known) }
        ensures kept { OnErr result (self.new.known.tally ≡ self.old.known.tally) }
        ensures refused { IfErr result (Stays self.old.known (status_in line.now)) }
    {
        let Some(status) = status_of(line) else {
            return Err(LineFault::Text(TextFault::BadToken));
        };
        self.known.say(status)?;
        Ok(Came::Goes)
    }

    /// Takes a line of the proof, without its LF. Answers what the line waits for; Err is its first fault.
    pub(crate) fn take(&mut self, line: &[u8]) -> Result<Came, LineFault>
        ensures came { IfOk result (λ came. Comes came (line_within (lines_top self.old.known.limits) line.now) self.old.known self.new.known) }
        ensures kept { OnErr result (self.new.known.tally ≡ self.old.known.tally) }
        ensures refused { IfErr result (Stays self.old.known (line_within (lines_top self.old.known.limits) line.now)) }
    {
        match kind_of_line(line) {
            Kind::Step(kind) => self.take_step(kind, line),
            Kind::Says => self.take_status(line),
            Kind::Silent => Ok(Came::Goes),
            Kind::Unknown => Err(LineFault::Text(TextFault::BadToken)),
        }
    }
}
