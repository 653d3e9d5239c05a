//! Offers: the short lemmas of a search, for other searches. Nothing is promised of them.

ghost use Rattle.std.specs.Prelude.{◌≤◌, [], length, All, OnOk};
ghost use Rattle.lrat_text.specs.Grammar.{IsStepWithin};
ghost use Rattle.lrat_text.specs.declared.step.Step.TheVariants.{Add};

use crate::shared_text::{put_lemma, put_number};
use dimacs::Lit;
use lrat_text::{StepBuffer, StepRef, read_line_within};
use packed_text::{PackedLines, PackedText};
use std::alloc::{AllocError, Global};

/// A lemma of at most so many literals is offered.
const SHORT: usize = 8;

/// The greatest variable of a search.
const MOST: u32 = 199_999_999;

/// The lines of offers, and buffers.
pub(crate) struct Offers {
    /// The lines that are not handed out yet.
    pub(crate) text: Vec<u8>,
    /// A line, reused.
    line: Vec<u8>,
    /// The step of a line, reused.
    step: StepBuffer,
}

impl Drop for Offers {
    fn drop(self) {
        let Offers {
            text: _,
            line: _,
            step: _,
        } = self;
    }
}

/// Appends `TIME NUMBER LITERALS 0` and an LF, the offer of a lemma. `line` is a buffer that is reused.
fn put_offer(
    text: &mut Vec<u8>,
    line: &mut Vec<u8>,
    time: u64,
    number: u64,
    lits: &[Lit],
) -> Result<(), AllocError>
    requires { IsStepWithin 199999999 (Add number lits.now [] []) }
{
    line.clear();
    put_lemma(line, number, lits, &[])?;
    put_number(text, time)?;
    text.push(b' ')?;
    let end = line.len().saturating_sub(3); // without the second 0
    match line.get(..end) {
        Some(front) => text.extend_from_slice(front)?,
        None => {}
    }
    text.push(b'\n')?;
    Ok(())
}

impl Offers {
    /// No offers.
    pub(crate) fn new(alloc: Global) -> Offers {
        Offers {
            text: Vec::new(alloc),
            line: Vec::new(alloc),
            step: StepBuffer::new(alloc),
        }
    }

    /// Offers a lemma.
    pub(crate) fn put(&mut self, time: u64, number: u64, lits: &[Lit]) -> Result<(), AllocError>
        requires { IsStepWithin 199999999 (Add number lits.now [] []) }
    {
        put_offer(&mut self.text, &mut self.line, time, number, lits)
    }

    /// Offers the lemma of a line of a search's log if it is short.
    fn put_line(&mut self, time: u64, line: &[u8]) -> Result<(), AllocError> {
        if read_line_within(&mut self.step, MOST, line).is_err() {
            return Err(AllocError); // the line was written by this program
        }
        match self.step.as_ref() {
            StepRef::Add { id, lits, .. } if lits.len() <= SHORT => {
                put_offer(&mut self.text, &mut self.line, time, id, lits)
            }
            _ => Ok(()),
        }
    }

    /// Offers the short lemmas of a search's log.
    pub(crate) fn put_all(
        &mut self,
        alloc: Global,
        time: u64,
        log: &PackedText,
    ) -> Result<(), AllocError> {
        let mut lines = PackedLines::of(alloc, log);
        let mut line = Vec::new(alloc);
        'lines: while lines.next(&mut line)? {
            self.put_line(time, &line)?;
        }
        Ok(())
    }
}
