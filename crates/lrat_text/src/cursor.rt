//! A cursor over a text: reads one line by its offset, and answers the offset of the next line.

ghost use Rattle.std.specs.Prelude.{◌≡◌, ℕ, IfSome, IfOk, MatchOption, Ok, Some};
ghost use Rattle.lrat_text.specs.Lines.{IsCut, IsLineBetween, IsOpen};
ghost use Rattle.lrat_text.specs.declared.step.Step.{Step};
ghost use Rattle.lrat_text.specs.Parser.{next_of, Gives};

use crate::fault::TextFault;
use crate::parser::read_step;
use crate::step::Step;
use memchr::memchr;
use std::alloc::Global;

/// Splits a text at its first LF: answers the line before the LF and the text after it; `None` if the text has no LF.
pub fn cut_line(text: &[u8]) -> Option<(&[u8], &[u8])>
    ensures { MatchOption result (IsOpen text.now) (λ p. IsCut text.now p.0.now p.1.now) }
{
    match memchr(b'\n', text) {
        Some(end) => Some((&text[..end], &text[end + 1..])),
        None => None,
    }
}

/// Reads the line that begins at offset `at`: answers its step and the offset after its LF. `None` from the end of the text on.
fn line_step(alloc: Global, bytes: &[u8], at: usize) -> Result<Option<(Step, usize)>, TextFault>
    ensures { Gives result (next_of bytes.now at) }
{
    if at >= bytes.len() {
        return Ok(None);
    }
    let Some((line, _)) = cut_line(&bytes[at..]) else {
        return Err(TextFault::LineNotEnded);
    };
    let step = read_step(alloc, line)?;
    Ok(Some((step, at + line.len() + 1)))
}

/// Reads the line that begins at offset `at` (from 0): answers its step and the offset after its LF; `None` if `at` is the text's length or
/// more.
///
/// `LineNotEnded` if no LF follows; otherwise the first fault of the line, as of [`read_line`](crate::read_line).
pub fn next(alloc: Global, bytes: &[u8], at: usize) -> Result<Option<(Step, usize)>, TextFault>
    // At `Ok` the line spells the step that was read.
    ensures found { IfOk result (λ o. IfSome o (λ p. IsLineBetween bytes.now at p.1 p.0)) }
    // The step that the line spells is read, unless memory is refused.
    ensures only { (step : Step) (place : ℕ) → IsLineBetween bytes.now at place step → Gives result (Ok (Some (step, place))) }
    // The step, or the first fault.
    ensures exact { Gives result (next_of bytes.now at) }
{
    line_step(alloc, bytes, at)
}
