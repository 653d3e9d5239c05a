//! The buffer for a line of a log, which is used again for the next line.

ghost use Rattle.std.specs.Prelude.{◌≡◌, ◌≢◌, ℕ, ◌≤◌, ◌++◌, ◌∷◌, List, [], Contains, OnOk, IfOk, MatchBool, MatchOption, codes};
ghost use Rattle.lrat_text.specs.Grammar.{SpellsStepWithin};
ghost use Rattle.lrat_text.specs.declared.step.Step.{Step};
ghost use Rattle.lrat_text.specs.Steps.{step_of};
ghost use Rattle.shared_lines.specs.Lines.{Deletion, Gives, Line, SpellsLine, line_of};
ghost use Rattle.shared_lines.specs.inner.Steps.{GivesTwo, HasNoGroup, HasTwoHints};
ghost use Rattle.shared_lines.specs.inner.Words.{IsWord};

use crate::bytes::{after_prefix, cut_word};
use crate::fields::{read_clock, read_name};
use crate::line::SharedLine;
use lrat_text::{StepBuffer, StepRef, TextFault, read_line_within};
use std::alloc::{AllocError, Global};
use std::marker::Model;

/// What the line in a buffer is.
#[derive(Clone, Copy)]
enum Kind {
    /// A lemma or a deletion, which is the buffer's step.
    Step,
    /// An import: the number that stands for the log's name, and the lemma's number there. Number and literals are those of the buffer's
    /// step.
    Import(u64, u64),
    /// A number that stands for the buffer's name from here on.
    Name(u64),
    /// The time of the clock from here on.
    Clock(u64),
}

/// Holds the line that was read last. Reading allocates nothing once the vectors are large enough.
pub struct SharedLineBuffer {
    kind: Kind,
    step: StepBuffer,
    name: Vec<u8>,
    /// The line of LRAT text that stands for the line of an import.
    addition: Vec<u8>,
}

impl Drop for SharedLineBuffer {
    fn drop(self) {
        let SharedLineBuffer {
            kind: _,
            step: _,
            name: _,
            addition: _,
        } = self;
    }
}

impl Model for SharedLineBuffer {
    ghost use Rattle.shared_lines.specs.Lines.{Line};
    ghost use Rattle.shared_lines.specs.Buffers.{line_held};

    ghost Value = { Line };

    ghost view = { λ b. line_held b.kind b.step b.name.items };
}

/// Splits the line of an import around its ` i `: answers the word before, and the rest. `None` if the line has no ` i ` after its first
/// word.
fn cut_import(line: &[u8]) -> Option<(&[u8], &[u8])>
    ensures { MatchOption result ((front rest : List ℕ) → ¬ (Contains front 32) → line.now ≢ front ++ codes " i " ++ rest) (λ p. (line.now ≡ p.0.now ++ codes " i " ++ p.1.now) × IsWord p.0.now) }
{
    let Some((front, later)) = cut_word(line) else {
        return None;
    };
    match after_prefix(later, b"i ") {
        Some(rest) => Some((front, rest)),
        None => None,
    }
}

/// Overwrites `line` with the word `front`, a space and `rest`.
fn join(line: &mut Vec<u8>, front: &[u8], rest: &[u8]) -> Result<(), AllocError>
    ensures { OnOk result (line.new.items ≡ front.now ++ codes " " ++ rest.now) }
{
    line.clear();
    line.extend_from_slice(front)?;
    line.push(b' ')?;
    line.extend_from_slice(rest)?;
    Ok(())
}

/// Overwrites `buffer` with these bytes.
fn replace(buffer: &mut Vec<u8>, bytes: &[u8]) -> Result<(), AllocError>
    ensures { OnOk result (buffer.new.items ≡ bytes.now) }
{
    buffer.clear();
    buffer.extend_from_slice(bytes)?;
    Ok(())
}

/// Tells whether a step is no addition with a group.
fn has_no_group(step: StepRef<'_>) -> bool
    ensures { MatchBool result (HasNoGroup (step_of step.entry)) (¬ (HasNoGroup (step_of step.entry))) }
{
    match step {
        StepRef::Add { groups, .. } => groups.is_empty(),
        StepRef::Delete { .. } => true,
    }
}

/// Reads a lemma's line or a deletion's into `step`. `BadToken` also if the lemma has a group.
fn read_step(step: &mut StepBuffer, most: u32, line: &[u8]) -> Result<(), TextFault>
    requires { most ≤ 199999999 }
    ensures found { OnOk result (SpellsStepWithin most line.now step.new × HasNoGroup step.new) }
    ensures only { (x : Step) → HasNoGroup x → SpellsStepWithin most line.now x → Gives x step.new result }
{
    read_line_within(step, most, line)?;
    if has_no_group(step.as_ref()) {
        Ok(())
    } else {
        Err(TextFault::BadToken)
    }
}

/// Answers the two hints of an addition that has two hints and no group.
fn two_hints(step: StepRef<'_>) -> Option<(u64, u64)>
    ensures { MatchOption result ((p : ℕ × ℕ) → ¬ (HasTwoHints (step_of step.entry) p)) (λ p. HasTwoHints (step_of step.entry) p) }
{
    match step {
        StepRef::Add { hints, groups, .. } => {
            if groups.is_empty() && hints.len() == 2 {
                Some((hints[0], hints[1]))
            } else {
                None
            }
        }
        StepRef::Delete { .. } => None,
    }
}

/// Reads the line of an import, which is `front`, ` i ` and `rest`, as an addition into `step`, by way of the buffer `addition`. Answers the
/// number that stands for the log's name, and the lemma's number there.
fn read_import(
    step: &mut StepBuffer,
    addition: &mut Vec<u8>,
    most: u32,
    front: &[u8],
    rest: &[u8],
) -> Result<(u64, u64), TextFault>
    requires { most ≤ 199999999 }
    ensures found { IfOk result (λ p. SpellsStepWithin most (front.now ++ codes " " ++ rest.now) step.new × HasTwoHints step.new p) }
    ensures only { (x : Step) (p : ℕ × ℕ) → HasTwoHints x p → SpellsStepWithin most (front.now ++ codes " " ++ rest.now) x → GivesTwo x p step.new result }
{
    join(addition, front, rest)?;
    read_line_within(step, most, addition)?;
    match two_hints(step.as_ref()) {
        Some(numbers) => Ok(numbers),
        None => Err(TextFault::BadToken),
    }
}

impl SharedLineBuffer {
    /// A buffer that holds a deletion of no clauses.
    pub fn new(alloc: Global) -> SharedLineBuffer
        ensures { result ≡ Deletion [] }
    {
        SharedLineBuffer {
            kind: Kind::Step,
            step: StepBuffer::new(alloc),
            name: Vec::new(alloc),
            addition: Vec::new(alloc),
        }
    }

    /// Reads a line without its LF, with variables up to `most`. After a fault the buffer holds some line, which means nothing.
    ///
    /// `NoMemory` comes only if memory is refused; any other fault is one of a line that spells nothing.
    pub fn read(&mut self, most: u32, line: &[u8]) -> Result<(), TextFault>
        requires { most ≤ 199999999 }
        ensures found { OnOk result (SpellsLine most line.now self.new) }
        // the line that the text spells is read, unless memory is refused
        ensures only { (x : Line) → SpellsLine most line.now x → Gives x self.new result }
    {
        if let Some((number, name)) = read_name(line) {
            replace(&mut self.name, name)?;
            self.kind = Kind::Name(number);
            return Ok(());
        }
        if let Some(time) = read_clock(line) {
            self.kind = Kind::Clock(time);
            return Ok(());
        }
        match cut_import(line) {
            Some((front, rest)) => {
                let (log, there) = read_import(
                    &mut self.step,
                    &mut self.addition,
                    most,
                    front,
                    rest,
                )?;
                self.kind = Kind::Import(log, there);
                Ok(())
            }
            None => {
                read_step(&mut self.step, most, line)?;
                self.kind = Kind::Step;
                Ok(())
            }
        }
    }

    /// Lends the line.
    pub fn as_ref(&self) -> SharedLine<'_>
        ensures { line_of result ≡ self.now }
    {
        match self.kind {
            Kind::Name(number) => SharedLine::Name {
                number,
                name: &self.name,
            },
            Kind::Clock(time) => SharedLine::Clock { time },
            Kind::Step => match self.step.as_ref() {
                StepRef::Add {
                    id,
                    lits,
                    hints,
                    ..
                } => SharedLine::Lemma {
                    number: id,
                    literals: lits,
                    hints,
                },
                StepRef::Delete { ids } => SharedLine::Deletion { numbers: ids },
            },
            Kind::Import(log, there) => match self.step.as_ref() {
                StepRef::Add { id, lits, .. } => SharedLine::Import {
                    number: id,
                    literals: lits,
                    log,
                    there,
                },
                StepRef::Delete { ids } => SharedLine::Deletion { numbers: ids },
            },
        }
    }
}
