//! The parser that DIMACS and iCNF share: lines of tokens, of which the first line with a token is the header.

ghost use Rattle.std.specs.Prelude.{◌≡◌, ◌+◌, ◌<◌, ◌^◌};
ghost use Rattle.dimacs.specs.text.Rows.{Answers, Format, read_lines, read_text, read_words};
ghost use Rattle.dimacs.specs.inner.Rows.{Gives};
ghost use Rattle.dimacs.specs.text.Words.{lines, words, words_of};
ghost use Rattle.dimacs.specs.inner.Words.{left_len, lines_left};

use crate::limits::Limits;
use crate::words::{is_blank, next_line};
use std::alloc::Global;

/// The state of a parser of such a text, from the header on.
pub trait Rows: Sized + Drop {
    /// What a text spells.
    type Value: Drop;

    /// Why a text is refused.
    type Fault: Drop;

    /// The definition that the parser follows; its state is the value of this type.
    ghost format: { Format Self Self.Value Self.Fault };

    /// The fault of a refusal of memory.
    ghost no_memory: { Self.Fault };

    /// Answers the fault of a text without a header that has this number of lines.
    fn no_header(lines: u64) -> Self::Fault
        ensures { result ≡ format.no_header lines };

    /// Reads the header, on the line of this number (from 1), and answers the state after it.
    fn begin(alloc: Global, limits: Limits, line: u64, header: &[u8]) -> Result<Self, Self::Fault>
        ensures { Answers no_memory result (format.header limits line (words header.now)) };

    /// Reads the tokens of a line of this number after the header.
    fn read_line(&mut self, line: u64, text: &[u8]) -> Result<(), Self::Fault>
        ensures { Gives no_memory self.new result (read_words format line (words_of text.now) self.old) };

    /// Answers what the text spells if it ends after this number of lines.
    fn finish(self, lines: u64) -> Result<Self::Value, Self::Fault>
        ensures { Answers no_memory result (format.finish lines self) };
}

/// Reads the lines after the header to the end of the text. `lines` is the number of lines up to the header, and `rest` the text after it;
/// `None` if no LF follows the header.
fn read_lines<R: Rows>(rows: R, lines: u64, rest: Option<&[u8]>) -> Result<R::Value, R::Fault>
    requires { lines + left_len rest < 2 ^ 64 }
    ensures { Answers R.no_memory result (read_lines R.format lines (lines_left rest.entry) rows) }
{
    let mut rows = rows;
    let mut lines = lines;
    let mut rest = rest;
    while let Some(text) = rest {
        let (line, after) = next_line(text);
        lines += 1;
        rows.read_line(lines, line)?;
        rest = after;
    }
    rows.finish(lines)
}

/// Reads a text within limits, and answers what it spells or its first fault.
pub fn read_text<R: Rows>(alloc: Global, limits: Limits, bytes: &[u8]) -> Result<R::Value, R::Fault>
    ensures { Answers R.no_memory result (read_text R.format limits 0 (lines bytes.now)) }
{
    let mut lines = 0;
    let mut rest = Some(bytes);
    while let Some(text) = rest {
        let (line, after) = next_line(text);
        lines += 1;
        rest = after;
        if !is_blank(line) {
            let rows = R::begin(alloc, limits, lines, line)?;
            return read_lines(rows, lines, after);
        }
    }
    Err(R::no_header(lines))
}
